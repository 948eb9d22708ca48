//! A picture of one symbol's day, drawn from published lines.
#![tactic(auto)]

use host_core::{Status, Stream};
use picture_core::{Outcome, chart, end};
use std::env::{self, Env};
use std::io::{self, BufReader};
use std::process::ExitCode;

/// Does what the words of this process say, over the standard streams.
fn chart_here<Rt: Env + Input + Print + AllocGlobal>(rt: &Rt) -> io::Result<Outcome> {
    let alloc = rt.alloc();
    let mut words = Vec::new(alloc);
    for word in env::args(rt)? {
        words.push(word)?;
    }
    let mut args = Vec::new(alloc);
    for word in &words {
        args.push(word.as_str())?;
    }
    let mut reader = Stream::new(BufReader::new(alloc, rt.reader())?);
    let mut sink = Stream::new(io::writer(rt));
    Ok(chart(alloc, &args, &mut reader, &mut sink))
}

fn main(rt: HostRuntime) -> ExitCode {
    // Words that can't be read ask for nothing that is understood.
    let outcome = chart_here(&rt).unwrap_or(Outcome::Ended(Status::Usage));
    let stderr = rt.stderr();
    end(&mut Stream::new(io::writer(&stderr)), outcome).code
}
