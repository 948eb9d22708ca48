//! Two workers are at work at once.

use super::morning::sent_by;
use super::{fresh, host, joined, left_by, put, session, session_over};
use host_core::Status;
use memory_host::MemoryHost;
use price_core::Tier;
use std::process::Abort;
use std::sync::atomic::AtomicBool;
use std::sync::atomic::Ordering::SeqCst;
use std::thread::Threads;
use test_days::Session;
use test_days::lines::{Line, at, clock, day, listed_as, listing_of, name_of};
use yard_core::Gate;

/// The even and the odd pieces, which raise a flag each at the gate, and look for that of the others.
#[derive(Drop)]
struct Meeting {
    here: [AtomicBool; 2],
    met: [AtomicBool; 2],
}

impl Gate for Meeting {
    fn enter(&self, piece: u32) {
        let mine = piece as usize % 2;
        self.here[mine].store(true, SeqCst);
        for _ in 0..100_000_000u32 {
            if self.here[1 - mine].load(SeqCst) {
                self.met[mine].store(true, SeqCst);
                return;
            }
        }
    }
}

/// The names of a day.
const NAMES: u16 = 2_100;

/// The clocks behind them. With so many names, so many records are worked by threads.
const CLOCKS: u32 = 20_000;

/// Lists the names.
fn list_names<R: Abort + AllocGlobal>(rt: &R, lines: &mut Vec<Line>) {
    for symbol in 0..NAMES {
        let name = name_of(symbol);
        let listing = listing_of(at(4, 0, 0), name, Tier::One, 10, 200_000);
        put(rt, lines, &[listing, listed_as(symbol, name)]);
    }
}

/// A day of many names and many clocks.
fn long_day<R: Abort + AllocGlobal>(rt: &R) -> Session {
    let mut lines = Vec::new(rt.alloc());
    put(rt, &mut lines, &[day(3)]);
    list_names(rt, &mut lines);
    for _clock in 0..CLOCKS {
        put(rt, &mut lines, &[clock(at(9, 0, 0))]);
    }
    session(rt, &lines)
}

impl Meeting {
    /// No piece was there yet.
    fn new() -> Meeting {
        Meeting {
            here: [AtomicBool::new(false), AtomicBool::new(false)],
            met: [AtomicBool::new(false), AtomicBool::new(false)],
        }
    }

    /// Whether an even piece has seen an odd one, and an odd one an even one.
    fn has_met(&self) -> bool {
        self.met[0].load(SeqCst) && self.met[1].load(SeqCst)
    }
}

/// Whether the words are done over a host by workers of which two meet.
fn has_met<Rt: AllocGlobal + Threads + Sync>(
    rt: &Rt,
    words: &[&str],
    host: &mut MemoryHost,
) -> bool {
    let gate = Meeting::new();
    let end = command_core::run(rt, rt.alloc(), words, host, &gate);
    end == Status::Done && gate.has_met()
}

/// Does what the words say by workers that look for each other, and compares what is sent.
fn meets<Rt: Abort + AllocGlobal + Threads + Sync>(
    rt: &Rt,
    words: &[&str],
    disk: &[u8],
    input: &[u8],
    sent: &[u8],
) {
    let mut host = host(rt, input, disk);
    let has_met = has_met(rt, words, &mut host);
    assert!(rt; has_met && host.sent() == sent);
}

#[test]
fn two_pieces_of_a_replay_meet(rt: HostRuntime) {
    let day = long_day(&rt);
    let words = ["replay", "--workers", "4"];
    meets(&rt, &words, b"", &day.input, &day.replayed);
}

/// What a session that asks for all messages again is sent over a journal of the long day.
fn again<R: Abort + AllocGlobal>(rt: &R, messages: &[u8]) -> Vec<u8> {
    let hello = session_over(rt, 22_101, 2_100, &[]);
    joined(rt, &[messages, hello.served.as_slice()])
}

#[test]
fn two_pieces_of_a_journal_meet_where_a_session_starts(rt: HostRuntime) {
    let day = long_day(&rt);
    let (input, served) = (day.input.as_slice(), day.served.as_slice());
    let empty = fresh(&rt);
    let disk = left_by(&rt, &["serve"], &empty, input, served, Status::Done);
    let words = ["serve", "--workers", "4", "--from", "1"];
    meets(&rt, &words, &disk, b"", &again(&rt, &day.replayed));
}

/// The words of a summary by one worker and by four.
const BY_ONE: &[&str] = &[
    "generate",
    "--summary",
    "--symbols",
    "2500",
    "--records",
    "40000",
    "--workers",
    "1",
];

const BY_FOUR: &[&str] = &[
    "generate",
    "--summary",
    "--symbols",
    "2500",
    "--records",
    "40000",
    "--workers",
    "4",
];

#[test]
fn two_pieces_of_a_summary_meet(rt: HostRuntime) {
    let alone = sent_by(&rt, BY_ONE, b"", b"");
    meets(&rt, BY_FOUR, b"", b"", &alone);
}
