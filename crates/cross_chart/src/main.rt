//! A picture of an auction, drawn from the lines of its cross.
#![tactic(auto)]

mod axis;
mod curve;
mod input;
mod line;
mod line_reading;
mod picture;
mod run;
mod sketch;
mod told;
mod words;

use host_core::{Status, Stream};
use run::draw;
use std::env::{self, Env};
use std::io::{self, BufReader};
use std::process::ExitCode;
use told::end;

/// Does what the words of this process say, over the standard streams.
fn draw_here<Rt: Env + Input + Print + AllocGlobal>(rt: &Rt) -> io::Result<Status> {
    let alloc = rt.alloc();
    let words = env::args(rt)?.count();
    let mut reader = Stream::new(BufReader::new(alloc, rt.reader())?);
    let mut sink = Stream::new(io::writer(rt));
    Ok(draw(alloc, words, &mut reader, &mut sink))
}

fn main(rt: HostRuntime) -> ExitCode {
    // Words that can't be read are not understood.
    let status = draw_here(&rt).unwrap_or(Status::Usage);
    let stderr = rt.stderr();
    end(&mut Stream::new(io::writer(&stderr)), status).code
}
