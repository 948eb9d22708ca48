//! Trading halts of US equities over a live input and a journal.
#![tactic(auto)]

use command_core::{end, host_of, perform};
use detail_core::{Watch, command_words, tell_details};
use host_core::{Held, Status, Stream, SystemFiles};
use std::alloc::Global;
use std::env::{self, Env};
use std::io;
use std::os::unix::fs::FileExt;
use std::process::ExitCode;
use std::rt::Files;
use std::thread::Threads;
use words_core::fault_text;
use yard_core::OpenGate;

/// How a run ended, whether nothing is told of it, and the details of its end.
#[derive(Drop)]
struct Outcome {
    status: Status,
    silent: bool,
    details: String,
}

/// Does what these words say, over the standard streams and the files of the system, all of them watched.
fn perform_watched<Rt: Input + Print + Files + AllocGlobal + Threads + Sync>(
    rt: &Rt,
    args: &[&str],
    watch: &Watch,
) -> Status
where
    Rt::File: FileExt + Held,
{
    let input = watch.source(Stream::new(rt.reader()));
    let output = watch.sink(Stream::new(io::writer(rt)));
    let mut host = host_of(args, input, output, watch.files(SystemFiles::new(rt)));
    perform(rt, rt.alloc(), args, &mut host, &OpenGate)
}

/// Does what these words say, and answers what is told of it.
fn perform_words<Rt: Input + Print + Files + AllocGlobal + Threads + Sync>(
    rt: &Rt,
    args: &[&str],
) -> Outcome
where
    Rt::File: FileExt + Held,
{
    let alloc = rt.alloc();
    let watch = Watch::new(alloc, args);
    let status = perform_watched(rt, args, &watch);
    let fault = match status {
        Status::Usage => fault_text(alloc, command_words(args)),
        _ => None,
    };
    Outcome {
        status,
        silent: watch.is_silent(args, status),
        details: watch.details(alloc, args, status, fault.as_deref()),
    }
}

/// Does what the words of this process say.
fn perform_here<Rt: Env + Input + Print + Files + AllocGlobal + Threads + Sync>(
    rt: &Rt,
) -> io::Result<Outcome>
where
    Rt::File: FileExt + Held,
{
    let alloc = rt.alloc();
    let mut words = Vec::new(alloc);
    for word in env::args(rt)? {
        words.push(word)?;
    }
    let mut args = Vec::new(alloc);
    for word in &words {
        args.push(word.as_str())?;
    }
    Ok(perform_words(rt, &args))
}

/// What is told where the words can't be read.
fn unread(alloc: Global, error: &io::Error) -> Outcome {
    let status = match error.kind() {
        io::ErrorKind::OutOfMemory => Status::NoMemory,
        // Words that can't be read ask for nothing that is understood.
        _ => Status::Usage,
    };
    Outcome {
        status,
        silent: false,
        details: String::new(alloc),
    }
}

fn main(rt: HostRuntime) -> ExitCode {
    let outcome = match perform_here(&rt) {
        Ok(outcome) => outcome,
        Err(error) => unread(rt.alloc(), &error),
    };
    if outcome.silent {
        return ExitCode::from(outcome.status.code());
    }
    let stderr = rt.stderr();
    let mut told = Stream::new(io::writer(&stderr));
    let ending = end(&mut told, outcome.status);
    if ending.told.is_ok() {
        let _ = tell_details(&mut told, outcome.details.as_bytes());
    }
    ending.code
}
