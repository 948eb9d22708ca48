//! Whether the days of `examples/` are what the commands make of them; and, for trials, the lines of any day.
#![tactic(auto)]

mod day;

use day::{ExampleDay, published_lines};
use host_core::Status;
use price_core::NoMemory;
use std::env::{self, Env};
use std::io::{self, Read, Write};
use std::process::ExitCode;
use std::rt::Files;
use std::thread::Threads;

/// The days, by the names of their files.
const NAMES: [&str; 4] = ["day", "level3", "carried", "own"];

/// Want of memory as an error of the program.
fn short_of_memory(_error: NoMemory) -> io::Error {
    io::Error::from(io::ErrorKind::OutOfMemory)
}

/// How what was sent stands to what a file holds.
fn word(agrees: bool) -> &'static str {
    if agrees { "agrees" } else { "differs" }
}

/// Tells of one day how its files agree.
fn tell<Rt: Files + Print + AllocGlobal + Threads + Sync>(rt: &Rt, name: &str) -> io::Result<()> {
    let day = ExampleDay::read(rt, name)?;
    let pack = word(day.packs().map_err(short_of_memory)?);
    let print = word(day.prints().map_err(short_of_memory)?);
    let replay = word(day.replays(rt).map_err(short_of_memory)?);
    println!(rt; "{name}: pack {pack}, print {print}, replay {replay}")
}

/// Writes the lines of what a replay of standard input publishes, and answers how it ended.
fn show<Rt: Input + Print + AllocGlobal + Threads + Sync>(rt: &Rt) -> io::Result<Status> {
    let alloc = rt.alloc();
    let mut frames = Vec::new(alloc);
    rt.reader().read_to_end(&mut frames)?;
    let lines = published_lines(rt, alloc, &frames).map_err(short_of_memory)?;
    io::writer(rt).write_all(&lines.text)?;
    Ok(lines.status)
}

/// With a word the input is shown, and without one the days are compared.
fn start<Rt: Env + Files + Input + Print + AllocGlobal + Threads + Sync>(
    rt: &Rt,
) -> io::Result<Status> {
    if env::args(rt)?.count() > 1 {
        return show(rt);
    }
    for name in NAMES {
        tell(rt, name)?;
    }
    Ok(Status::Done)
}

fn main(rt: HostRuntime) -> io::Result<ExitCode> {
    let status = start(&rt)?;
    Ok(ExitCode::from(status.code()))
}
