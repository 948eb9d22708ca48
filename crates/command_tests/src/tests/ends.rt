//! How a session ends: at the end of the input, inside a frame, and at faults of reading, of sending and of the disk.

use super::{answers, fall, fresh, host, put, run, runs, session};
use host_core::Status;
use memory_host::{Call, MemoryHost};
use session_core::Phase;
use std::process::Abort;
use std::thread::Threads;
use test_days::lines::{Line, at, bytes, quote, refused, state};
use test_days::{Session, opened_day};
use wire_in::Refusal;

/// ABC is listed and opened, with these lines behind.
fn opened<R: Abort + AllocGlobal>(rt: &R, lines: &[Line]) -> Session {
    let day = opened_day(rt.alloc(), lines).expect(rt, "memory for lines");
    session(rt, &day)
}

/// ABC is listed, opened and in a limit state, by one record more.
fn limit_state<R: Abort + AllocGlobal>(rt: &R) -> Session {
    let lines = [
        quote(at(10, 0, 0), 474_900, 475_000),
        state(Phase::LimitLow),
    ];
    opened(rt, &lines)
}

/// Both commands end so over the first bytes of an input, and answer what a session has of it.
fn expect_cut<Rt: Abort + AllocGlobal + Threads + Sync>(
    rt: &Rt,
    disk: &[u8],
    input: &[u8],
    before: &Session,
    end: Status,
) {
    runs(rt, &["serve"], disk, input, &before.served, end);
    runs(rt, &["replay"], b"", input, &before.replayed, end);
}

/// An input of a session and a frame of 36 bytes behind it ends inside that frame.
fn expect_cuts<Rt: Abort + AllocGlobal + Threads + Sync>(
    rt: &Rt,
    disk: &[u8],
    whole: &[u8],
    before: &Session,
) {
    let start = before.input.len();
    assert!(rt; whole.len() == start + 36);
    expect_cut(rt, disk, &whole[..start], before, Status::Done);
    for len in start + 1..start + 36 {
        expect_cut(rt, disk, &whole[..len], before, Status::Truncated);
    }
}

#[test]
fn an_input_that_ends_inside_its_last_frame_is_truncated(rt: HostRuntime) {
    let whole = limit_state(&rt);
    let before = opened(&rt, &[]);
    expect_cuts(&rt, &fresh(&rt), &whole.input, &before);
}

/// A session in reads of so many bytes.
fn expect_in_pieces<Rt: Abort + AllocGlobal + Threads + Sync>(
    rt: &Rt,
    disk: &[u8],
    session: &Session,
    read: u32,
) {
    let mut host = host(rt, &session.input, disk);
    host.pieces(read.max(1), 1 + read % 50);
    answers(rt, &["serve"], &mut host, &session.served, Status::Done);
}

#[test]
fn pieces_of_any_size_get_the_same_answers(rt: HostRuntime) {
    let session = limit_state(&rt);
    assert!(rt; session.input.len() == 124);
    let disk = fresh(&rt);
    for read in 1..=124u32 {
        expect_in_pieces(&rt, &disk, &session, read);
    }
}

/// Asks a host that the nth call of a kind fails.
pub(super) fn fail<R: Abort>(rt: &R, host: &mut MemoryHost, call: Call, nth: u64) {
    host.fail(call, nth.max(1)).expect(rt, "memory for a fault");
}

/// The answers to the first records of the day of a fall.
fn answers_to<R: Abort + AllocGlobal>(rt: &R, records: usize) -> Session {
    let lines = fall();
    let count = if records == 3 { 4 } else { records };
    session(rt, lines.get(..count).unwrap_or(&[]))
}

/// Serves an input over a disk in reads of so many bytes, where such a call fails, and compares what is sent and how it ends.
fn expect_fault<Rt: Abort + AllocGlobal + Threads + Sync>(
    rt: &Rt,
    disk: &[u8],
    input: &[u8],
    read: u32,
    (call, nth): (Call, u64),
    sent: &[u8],
    want: Status,
) {
    let mut host = host(rt, input, disk);
    host.pieces(read.max(1), 64);
    fail(rt, &mut host, call, nth);
    answers(rt, &["serve"], &mut host, sent, want);
}

/// Serves the day of a fall in reads of so many bytes, where such a call fails: the first records are answered, and it ends so.
fn expect_failing<Rt: Abort + AllocGlobal + Threads + Sync>(
    rt: &Rt,
    read: u32,
    failing: (Call, u64),
    records: usize,
    want: Status,
) {
    let disk = fresh(rt);
    let day = session(rt, &fall());
    let before = answers_to(rt, records);
    let sent = before.served.as_slice();
    expect_fault(rt, &disk, &day.input, read, failing, sent, want);
}

#[test]
fn what_was_read_before_a_failed_read_is_answered(rt: HostRuntime) {
    // The frames end at the bytes 20, 34 and 48.
    for (nth, records) in [(1, 0), (3, 0), (4, 1), (5, 1), (6, 2), (7, 2), (8, 3)] {
        expect_failing(&rt, 7, (Call::Read, nth), records, Status::ReadFault);
    }
}

/// A session over an empty journal whose greeting can't be sent.
fn expect_no_greeting<Rt: Abort + AllocGlobal + Threads + Sync>(rt: &Rt) {
    let disk = fresh(rt);
    let day = session(rt, &fall());
    let (first, want) = ((Call::Send, 1), Status::SendFault);
    expect_fault(rt, &disk, &day.input, 20, first, b"", want);
}

#[test]
fn a_failed_send_leaves_a_prefix_of_the_answers(rt: HostRuntime) {
    // A failed greeting, and then the answers to one piece each.
    expect_no_greeting(&rt);
    for (nth, records) in [(2, 0), (3, 1), (4, 2)] {
        expect_failing(&rt, 20, (Call::Send, nth), records, Status::SendFault);
    }
}

/// A greeting and so many refusals of empty frames.
fn empty_frames<R: Abort + AllocGlobal>(rt: &R, count: u32) -> Session {
    let mut lines = Vec::new(rt.alloc());
    for _ in 0..count {
        put(rt, &mut lines, &[bytes(b"\0"), refused(Refusal::BadLength)]);
    }
    session(rt, &lines)
}

#[test]
fn answers_that_find_no_room_are_sent_before_the_piece_ends(rt: HostRuntime) {
    // They are more than wait at once.
    let session = empty_frames(&rt, 6000);
    let (input, sent) = (session.input.as_slice(), session.served.as_slice());
    assert!(rt; sent.len() == 18 + 6000 * 12);
    runs(&rt, &["serve"], &fresh(&rt), input, sent, Status::Done);
}

/// Asks a host to fail at each call of a kind.
fn fail_each<R: Abort>(rt: &R, host: &mut MemoryHost, call: Call) {
    for nth in 1..100 {
        fail(rt, host, call, nth);
    }
}

/// A replay of a session goes on where each call of the disk would fail.
fn expect_replay<Rt: Abort + AllocGlobal + Threads + Sync>(rt: &Rt, day: &Session) {
    let mut host = host(rt, &day.input, b"");
    fail_each(rt, &mut host, Call::Len);
    fail_each(rt, &mut host, Call::DiskRead);
    fail_each(rt, &mut host, Call::Write);
    fail_each(rt, &mut host, Call::Sync);
    answers(rt, &["replay"], &mut host, &day.replayed, Status::Done);
}

#[test]
fn a_replay_goes_on_where_each_call_of_the_disk_would_fail(rt: HostRuntime) {
    expect_replay(&rt, &limit_state(&rt));
}

/// A session in which such a sync fails ends so, and the one behind it over the same host goes on.
fn expect_goes_on<Rt: Abort + AllocGlobal + Threads + Sync>(
    rt: &Rt,
    disk: &[u8],
    input: &[u8],
    sync: u64,
) {
    let mut host = host(rt, input, disk);
    fail(rt, &mut host, Call::Sync, sync);
    let words = ["serve", "--batch", "1"];
    let failed = run(rt, &words, &mut host);
    let after = run(rt, &words, &mut host);
    assert!(rt; failed == Status::DiskFault && after == Status::Done);
}

#[test]
fn a_run_after_a_failed_sync_goes_on(rt: HostRuntime) {
    let disk = fresh(&rt);
    let day = session(&rt, &fall());
    for sync in [1, 2, 3, 5] {
        expect_goes_on(&rt, &disk, &day.input, sync);
    }
}
