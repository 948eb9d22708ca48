//! Batches of several frames: what stands in the journal, what is sent, and what a later session makes of it.

use super::{WORKERS, answers, fall, fresh, host, left_by, made, runs, session, session_over};
use host_core::Status;
use session_core::Level;
use std::process::Abort;
use std::thread::Threads;
use test_days::Session;
use test_days::lines::{at, breaker, bytes, day, refused, tick};
use wire_in::Refusal;

/// Puts bytes behind others.
fn put<R: Abort>(rt: &R, disk: &mut Vec<u8>, bytes: &[u8]) {
    disk.extend_from_slice(bytes)
        .expect(rt, "memory for a journal");
}

/// A journal of the capacity 3 that holds batches of these frames, so many bytes each.
fn journal_of<R: Abort + AllocGlobal>(rt: &R, mut frames: &[u8], lens: &[u8]) -> Vec<u8> {
    let mut disk = Vec::new(rt.alloc());
    put(rt, &mut disk, b"HALTJNL2\0\0\0\0\0\0\0\x03");
    for len in lens {
        let (batch, rest) = frames.split_at(usize::from(*len).min(frames.len()));
        put(rt, &mut disk, &[1, 0, 0, 0, *len]);
        put(rt, &mut disk, batch);
        frames = rest;
    }
    put(rt, &mut disk, b"\0");
    disk
}

/// How a day is served.
#[derive(Clone, Copy)]
enum Way {
    /// In reads of so many bytes.
    Reads(u32),
    /// In batches of two frames at most.
    Twos,
    Whole,
}

/// Serves a day in a way over an empty journal of the capacity 3 by so many workers, and compares what is sent and what the disk
/// holds.
fn expect_disk_by<Rt: Abort + AllocGlobal + Threads + Sync>(
    rt: &Rt,
    way: Way,
    workers: &str,
    day: &Session,
    disk: &[u8],
) {
    let empty = made(rt, &["format", "--limit", "3"]);
    let mut host = host(rt, &day.input, &empty);
    let words = ["serve", "--workers", workers, "--batch", "2"];
    let count = match way {
        Way::Twos => 5,
        Way::Whole | Way::Reads(_) => 3,
    };
    if let Way::Reads(bytes) = way {
        host.pieces(bytes.max(1), 7);
    }
    answers(rt, &words[..count], &mut host, &day.served, Status::Done);
    assert!(rt; host.disk() == disk);
}

/// Serves a day so by each number of workers.
fn expect_disk<Rt: Abort + AllocGlobal + Threads + Sync>(
    rt: &Rt,
    way: Way,
    day: &Session,
    disk: &[u8],
) {
    for workers in WORKERS {
        expect_disk_by(rt, way, workers, day, disk);
    }
}

#[test]
fn two_frames_and_then_one_make_two_batches(rt: HostRuntime) {
    let day = session(&rt, &fall());
    let disk = journal_of(&rt, &day.input, &[34, 14]);
    expect_disk(&rt, Way::Twos, &day, &disk);
}

#[test]
fn a_batch_ends_with_what_one_read_gave(rt: HostRuntime) {
    let day = session(&rt, &fall());
    let disk = journal_of(&rt, &day.input, &[20, 14, 14]);
    expect_disk(&rt, Way::Reads(20), &day, &disk);
}

/// The day of a fall with records between that are refused.
fn refusals<R: Abort + AllocGlobal>(rt: &R) -> Session {
    let t = at(10, 0, 0);
    let lines = [
        bytes(b"\x01\x0a"),
        refused(Refusal::UnknownType),
        day(3),
        tick(t, 465_001),
        tick(at(9, 0, 0), 400_000),
        refused(Refusal::OutOfOrder),
        tick(t, 465_000),
        breaker(Level::One, 465_000),
        tick(t, 400_000),
        refused(Refusal::JournalFull),
    ];
    session(rt, &lines)
}

#[test]
fn a_batch_leaves_out_what_is_refused(rt: HostRuntime) {
    let kept = session(&rt, &fall());
    let disk = journal_of(&rt, &kept.input, &[48]);
    expect_disk(&rt, Way::Whole, &refusals(&rt), &disk);
}

/// Serves a session over a disk, and answers the disk.
fn serves<Rt: Abort + AllocGlobal + Threads + Sync>(
    rt: &Rt,
    words: &[&str],
    disk: &[u8],
    session: &Session,
) -> Vec<u8> {
    let (input, sent) = (session.input.as_slice(), session.served.as_slice());
    left_by(rt, words, disk, input, sent, Status::Done)
}

/// Sessions one after the other over one journal.
#[derive(Clone, Copy)]
struct Sessions<'a> {
    first: &'a Session,
    then: &'a Session,
    last: &'a Session,
}

/// The first session is served in batches of a size, and the next by so many workers in batches of another.
fn go_on<Rt: Abort + AllocGlobal + Threads + Sync>(
    rt: &Rt,
    sessions: Sessions<'_>,
    workers: &str,
    first: &str,
    then: &str,
) {
    let words = ["serve", "--batch", first];
    let disk = serves(rt, &words, &fresh(rt), sessions.first);
    let words = ["serve", "--workers", workers, "--batch", then];
    let disk = serves(rt, &words, &disk, sessions.then);
    let (input, sent) = (&sessions.last.input, &sessions.last.served);
    runs(rt, &["serve"], &disk, input, sent, Status::Done);
}

/// The sessions in batches of different sizes.
fn go_on_each<Rt: Abort + AllocGlobal + Threads + Sync>(rt: &Rt, sessions: Sessions<'_>) {
    for workers in WORKERS {
        go_on(rt, sessions, workers, "1", "64");
        go_on(rt, sessions, workers, "64", "1");
        go_on(rt, sessions, workers, "2", "63");
    }
}

#[test]
fn sessions_with_batches_of_different_sizes_go_on_from_one_another(rt: HostRuntime) {
    let lines = fall();
    let (two, rest) = lines.split_at(2);
    let first = session(&rt, two);
    let then = session_over(&rt, 2, 0, rest);
    let last = session_over(&rt, 3, 1, &[]);
    let sessions = Sessions {
        first: &first,
        then: &then,
        last: &last,
    };
    go_on_each(&rt, sessions);
}
