//! The whole program: words, an input and a disk in memory, and what is sent.

mod audits;
mod based;
mod bytes;
mod ends;
mod generated;
mod grouped;
mod holdings;
mod meeting;
mod morning;
mod process;
mod restarts;
mod rolled;
mod shipped;
mod texts;
mod told;

use host_core::Status;
use memory_host::MemoryHost;
use session_core::Level;
use std::process::Abort;
use std::thread::Threads;
use test_days::Session;
use test_days::lines::{Line, at, breaker, day, tick};
use yard_core::OpenGate;

/// The numbers of workers that are tried.
const WORKERS: [&str; 4] = ["1", "2", "3", "64"];

/// Does what the words say over a host, by workers that nothing holds up.
fn run<Rt: AllocGlobal + Threads + Sync>(rt: &Rt, words: &[&str], host: &mut MemoryHost) -> Status {
    command_core::run(rt, rt.alloc(), words, host, &OpenGate)
}

/// A host with this input and this disk.
fn host<R: Abort + AllocGlobal>(rt: &R, input: &[u8], disk: &[u8]) -> MemoryHost {
    MemoryHost::new(rt.alloc(), input, disk).expect(rt, "memory for a host")
}

/// A copy of bytes.
fn copied<R: Abort + AllocGlobal>(rt: &R, bytes: &[u8]) -> Vec<u8> {
    Vec::from_slice(rt.alloc(), bytes).expect(rt, "memory for bytes")
}

/// Bytes one behind the other.
fn joined<R: Abort + AllocGlobal>(rt: &R, parts: &[&[u8]]) -> Vec<u8> {
    parts.concat(rt.alloc()).expect(rt, "memory for bytes")
}

/// The session of these lines over a journal that holds so many records, which gave so many messages.
fn session_over<R: Abort + AllocGlobal>(
    rt: &R,
    records: u64,
    messages: u64,
    lines: &[Line],
) -> Session {
    Session::over(rt.alloc(), records, messages, lines).expect(rt, "a session")
}

/// The session of these lines over an empty journal.
fn session<R: Abort + AllocGlobal>(rt: &R, lines: &[Line]) -> Session {
    session_over(rt, 0, 0, lines)
}

/// Puts lines behind others.
fn put<R: Abort>(rt: &R, lines: &mut Vec<Line>, more: &[Line]) {
    lines.extend_from_slice(more).expect(rt, "memory for lines");
}

/// A day whose index falls to 4,650.01 and then to 4,650.00 at 10:00:00, which is Level 1.
fn fall() -> [Line; 4] {
    let t = at(10, 0, 0);
    [
        day(3),
        tick(t, 465_001),
        tick(t, 465_000),
        breaker(Level::One, 465_000),
    ]
}

/// What is wanted of words holds.
fn expect<R: Abort>(rt: &R, words: &[&str], holds: bool) {
    assert!(rt; holds, "of {words:?}");
}

/// Does what the words say over a host, and compares what is sent and how it ends.
fn answers<Rt: Abort + AllocGlobal + Threads + Sync>(
    rt: &Rt,
    words: &[&str],
    host: &mut MemoryHost,
    sent: &[u8],
    want: Status,
) {
    let end = run(rt, words, host);
    expect(rt, words, end == want && host.sent() == sent);
}

/// Does what the words say over an input and a disk, and compares what is sent and how it ends.
fn runs<Rt: Abort + AllocGlobal + Threads + Sync>(
    rt: &Rt,
    words: &[&str],
    disk: &[u8],
    input: &[u8],
    sent: &[u8],
    want: Status,
) {
    let mut host = host(rt, input, disk);
    answers(rt, words, &mut host, sent, want);
}

/// Does what the words say over an input and a disk, compares what is sent and how it ends, and answers the disk.
fn left_by<Rt: Abort + AllocGlobal + Threads + Sync>(
    rt: &Rt,
    words: &[&str],
    disk: &[u8],
    input: &[u8],
    sent: &[u8],
    want: Status,
) -> Vec<u8> {
    let mut host = host(rt, input, disk);
    answers(rt, words, &mut host, sent, want);
    copied(rt, host.disk())
}

/// Does what the words say over an input and a disk, compares what is sent and how it ends, and that the disk is this one then.
fn leaves<Rt: Abort + AllocGlobal + Threads + Sync>(
    rt: &Rt,
    words: &[&str],
    disk: &[u8],
    input: &[u8],
    sent: &[u8],
    want: Status,
    left: &[u8],
) {
    let mut host = host(rt, input, disk);
    answers(rt, words, &mut host, sent, want);
    assert!(rt; host.disk() == left);
}

/// An empty journal, made as the words say.
fn made<Rt: Abort + AllocGlobal + Threads + Sync>(rt: &Rt, words: &[&str]) -> Vec<u8> {
    left_by(rt, words, b"", b"", b"", Status::Done)
}

/// An empty journal.
fn fresh<Rt: Abort + AllocGlobal + Threads + Sync>(rt: &Rt) -> Vec<u8> {
    made(rt, &["format"])
}

/// Serves lines over a disk that holds no record, compares the answers and the journals of one and of several workers, and
/// answers the disk.
fn serves<Rt: Abort + AllocGlobal + Threads + Sync>(
    rt: &Rt,
    disk: &[u8],
    lines: &[Line],
) -> Vec<u8> {
    let session = session(rt, lines);
    let (input, sent) = (session.input.as_slice(), session.served.as_slice());
    let kept = left_by(rt, &["serve"], disk, input, sent, Status::Done);
    for workers in ["2", "64"] {
        let words = ["serve", "--workers", workers];
        leaves(rt, &words, disk, input, sent, Status::Done, &kept);
    }
    kept
}

/// What a session that asks for all messages again is sent over a journal of the fall.
fn again<R: Abort + AllocGlobal>(rt: &R) -> Vec<u8> {
    let breaker = session(rt, &fall());
    let held = session_over(rt, 3, 1, &[]);
    joined(rt, &[breaker.replayed.as_slice(), held.served.as_slice()])
}

/// The words send a text that begins so, by one call.
fn expect_text<Rt: Abort + AllocGlobal + Threads + Sync>(rt: &Rt, words: &[&str], begin: &str) {
    let mut host = host(rt, b"unread", b"");
    let end = run(rt, words, &mut host);
    let is_told = host.sent().starts_with(begin.as_bytes()) && host.calls() == 1;
    expect(rt, words, end == Status::Done && is_told);
}

#[test]
fn help_and_the_version_go_to_the_output(rt: HostRuntime) {
    expect_text(&rt, &["--help"], "Trading halts");
    expect_text(&rt, &["serve", "--help"], "Answers the frames");
    expect_text(&rt, &["--version"], "halts 0.1.0\n");
}

/// Words that ask for nothing.
const OTHER_WORDS: &[&[&str]] = &[
    &[],
    &["report"],
    &["status", "now"],
    &["serve", "serve"],
    &["serve", "--batch", "65"],
    &["serve", "--workers", "65"],
    &["serve", "--bytes", "0"],
    &["serve", "--bytes", "1099511627777"],
    &["serve", "--from", "18446744073709551616"],
    &["serve", "--from", "1", "--from", "2"],
    &["format", "--limit", "2000000001"],
    &["replay", "--from", "1"],
    &["replay", "--workers", "0"],
    &["ship", "--from", "0"],
    &["standby", "--batch", "65"],
    &["standby", "--from", "1"],
];

/// The words are refused over an input, and call nothing.
fn expect_usage<Rt: Abort + AllocGlobal + Threads + Sync>(rt: &Rt, words: &[&str], input: &[u8]) {
    let mut host = host(rt, input, b"");
    let end = run(rt, words, &mut host);
    let is_untouched = host.calls() == 0 && host.sent().is_empty();
    expect(rt, words, end == Status::Usage && is_untouched);
}

#[test]
fn other_words_call_nothing(rt: HostRuntime) {
    let session = session(&rt, &fall());
    for words in OTHER_WORDS {
        expect_usage(&rt, words, &session.input);
    }
}
