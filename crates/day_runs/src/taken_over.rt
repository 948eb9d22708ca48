//! A day that goes on over a second journal.

use crate::day::Day;
use crate::published::add_printed;
use crate::text::DayError;
use crate::way::{over_journal, split_behind};
use command_core::run;
use host_core::Status;
use memory_host::MemoryHost;
use std::alloc::Global;
use std::thread::Threads;
use yard_core::OpenGate;

/// Does a command. Answers whether it ends well.
fn does<Rt: Threads + Sync>(rt: &Rt, alloc: Global, words: &[&str], host: &mut MemoryHost) -> bool {
    run(rt, alloc, words, host, &OpenGate) == Status::Done
}

/// Whether a standby takes what a host reads to a good end, and its journal then has the bytes of the first one.
fn takes_over<Rt: Threads + Sync>(
    rt: &Rt,
    alloc: Global,
    host: &mut MemoryHost,
    first: &[u8],
) -> bool {
    does(rt, alloc, &["standby"], host) && host.disk() == first
}

/// Serves frames over a journal from message 1 on. Answers whether that ends well.
fn serve_on<Rt: Threads + Sync>(
    rt: &Rt,
    alloc: Global,
    frames: &[u8],
    disk: &[u8],
    sent: &mut String,
) -> Result<bool, DayError> {
    let mut host = MemoryHost::new(alloc, frames, disk)?;
    let is_done = does(rt, alloc, &["serve", "--from", "1"], &mut host);
    add_printed(alloc, sent, host.sent())?;
    Ok(is_done)
}

/// Ships a first journal to a second one, which is made anew, and serves frames over that from message 1 on. Answers whether all
/// that ends well; no frame is served where the second one hasn't the bytes of the first.
fn go_on<Rt: Threads + Sync>(
    rt: &Rt,
    alloc: Global,
    first: &[u8],
    frames: &[u8],
    sent: &mut String,
) -> Result<bool, DayError> {
    let mut ships = MemoryHost::new(alloc, b"", first)?;
    let is_shipped = does(rt, alloc, &["ship"], &mut ships);
    let mut second = over_journal(alloc, ships.sent(), None)?;
    if takes_over(rt, alloc, &mut second, first) && is_shipped {
        serve_on(rt, alloc, frames, second.disk(), sent)
    } else {
        Ok(false)
    }
}

/// Serves the first frames of a day, ships the journal to a second one, and serves the others over that, from message 1 on.
pub fn serve_second<Rt: Threads + Sync>(
    rt: &Rt,
    alloc: Global,
    day: &Day,
    frames: usize,
    sent: &mut String,
) -> Result<bool, DayError> {
    let (before, behind) = split_behind(&day.input, frames);
    let mut first = over_journal(alloc, before, None)?;
    let is_done = does(rt, alloc, &["serve"], &mut first);
    add_printed(alloc, sent, first.sent())?;
    Ok(go_on(rt, alloc, first.disk(), behind, sent)? && is_done)
}
