//! A session is stopped at each of its calls, also where writes of an earlier one are pending.

use super::sent::{Sent, behind, messages, told};
use super::{
    SERVE, Trouble, Way, expect, fresh, held_by, host_of, ran, reopened_day, reopened_lines, run,
};
use host_core::Status;
use memory_host::{Call, MemoryHost, Pick};
use std::process::Abort;
use std::thread::Threads;
use test_days::Session;
use test_days::lines::{at, clock};

/// What a stop may leave of each piece that was written and not yet synced.
pub const PICKS: [Pick; 4] = [Pick::Old, Pick::New, Pick::Bytes(0x55), Pick::Bytes(0)];

/// All records as one batch.
const WHOLE: Way = Way {
    read: 4_096,
    send: 7,
    ..SERVE
};

/// Each record on its own, all as one batch, also by two workers, and a few batches of a few.
const WAYS: [Way; 4] = [
    Way { batch: 1, ..WHOLE },
    WHOLE,
    Way {
        workers: 2,
        ..WHOLE
    },
    Way { read: 60, ..WHOLE },
];

/// A session has sent the messages of the day.
fn expect_messages<R: Abort + AllocGlobal>(rt: &R, day: &Session, sent: &[u8]) {
    let is_same = messages(rt, sent) == day.replayed;
    assert!(rt; is_same);
}

/// A disk holds so many records at least, and a session over it that is handed the rest of the day, by so many workers, gives the
/// messages of the whole day.
pub fn expect_rest<Rt: Abort + AllocGlobal + Threads + Sync>(
    rt: &Rt,
    day: &Session,
    disk: &[u8],
    workers: u32,
    least: u64,
) {
    let held = held_by(rt, disk);
    assert!(rt; held >= least);
    let way = Way {
        workers,
        from: Some(1),
        ..SERVE
    };
    let next = ran(rt, way, behind(&day.input, held), disk, Status::Done);
    assert!(rt; told(next.sent()).held == Some(held));
    expect_messages(rt, day, next.sent());
}

/// Whatever a stop leaves of a session's disk holds each record that was acknowledged, and the rest follows.
fn expect_recovery<Rt: Abort + AllocGlobal + Threads + Sync>(
    rt: &Rt,
    day: &Session,
    host: &MemoryHost,
    workers: u32,
    pick: Pick,
) {
    let left = host.crash(pick, b"").expect(rt, "memory");
    let least = told(host.sent()).acknowledged;
    expect_rest(rt, day, left.disk(), workers, least);
}

/// Whether a session has sent a prefix of the answers.
fn is_begun<R: Abort + AllocGlobal>(rt: &R, day: &Session, sent: &[u8]) -> bool {
    day.served.starts_with(sent) && day.replayed.starts_with(&messages(rt, sent))
}

/// A session that was stopped has sent a prefix of the answers, and whatever it leaves is gone on from.
fn expect_stop<Rt: Abort + AllocGlobal + Threads + Sync>(
    rt: &Rt,
    day: &Session,
    host: &MemoryHost,
    workers: u32,
) {
    assert!(rt;
        is_begun(rt, day, host.sent()),
        "stopped at {}",
        host.calls()
    );
    for pick in PICKS {
        expect_recovery(rt, day, host, workers, pick);
    }
}

/// Serves the day up to a stop, and starts again over what it leaves. Answers whether the session was stopped.
fn stopped_at<Rt: Abort + AllocGlobal + Threads + Sync>(
    rt: &Rt,
    day: &Session,
    empty: &[u8],
    way: Way,
    nth: u64,
) -> bool {
    let trouble = Trouble::Stops(nth);
    let mut host = host_of(rt, Way { trouble, ..way }, &day.input, empty);
    let status = run(rt, way, &mut host);
    expect_stop(rt, day, &host, way.workers);
    status != Status::Done
}

/// The first call from which on a stop doesn't disturb the session.
fn stopped_everywhere<Rt: Abort + AllocGlobal + Threads + Sync>(
    rt: &Rt,
    day: &Session,
    empty: &[u8],
    way: Way,
) -> u64 {
    for nth in 1..1_000u64 {
        if !stopped_at(rt, day, empty, way, nth) {
            return nth;
        }
    }
    1_000
}

/// A stop at any call disturbs a session that is run in each of these ways, which makes more calls than 60.
fn expect_stops<Rt: Abort + AllocGlobal + Threads + Sync>(rt: &Rt, day: &Session, empty: &[u8]) {
    for way in WAYS {
        let calls = stopped_everywhere(rt, day, empty, way);
        assert!(rt; calls > 60 && calls < 1_000);
    }
}

#[test]
fn whatever_a_stop_leaves_the_next_session_gives_the_messages_of_the_day(rt: HostRuntime) {
    let day = reopened_day(&rt);
    expect_stops(&rt, &day, &fresh(&rt, 100));
}

/// Serves what is left of a host's input, up to its nth call from here on where one is told. Answers what the session tells.
fn goes_on<Rt: AllocGlobal + Threads + Sync>(
    rt: &Rt,
    way: Way,
    host: &mut MemoryHost,
    stop: Option<u64>,
) -> Sent {
    let len = host.sent().len();
    if let Some(nth) = stop {
        host.stop_at(host.calls().saturating_add(nth).max(1));
    }
    // What is left of the input may begin inside a frame.
    let _ = run(rt, way, host);
    told(host.sent().get(len..).unwrap_or(&[]))
}

/// How many records what a stop may leave of a host holds.
fn left_in<Rt: Abort + AllocGlobal + Threads + Sync>(
    rt: &Rt,
    host: &MemoryHost,
    pick: Pick,
) -> u64 {
    let left = host.crash(pick, b"").expect(rt, "memory");
    held_by(rt, left.disk())
}

/// Whatever a stop leaves holds so many records at least.
fn expect_held<Rt: Abort + AllocGlobal + Threads + Sync>(rt: &Rt, host: &MemoryHost, least: u64) {
    for pick in PICKS {
        assert!(rt; left_in(rt, host, pick) >= least);
    }
}

/// A second session goes on over a host behind one that was disturbed, up to a stop where one is told. Answers whether the first
/// one ended at a sync.
fn goes_on_behind<Rt: Abort + AllocGlobal + Threads + Sync>(
    rt: &Rt,
    way: Way,
    host: &mut MemoryHost,
    stop: Option<u64>,
) -> bool {
    let first = run(rt, way, host);
    let before = told(host.sent()).acknowledged;
    let after = goes_on(rt, way, host, stop);
    let is_greeted = first == Status::Done || stop.is_some() || after.held.is_some();
    let is_answer = first == Status::Done || first == Status::DiskFault;
    assert!(rt; is_answer && is_greeted && after.held.unwrap_or(u64::MAX) >= before);
    expect_held(rt, host, before.max(after.acknowledged));
    first != Status::Done
}

/// A sync fails, and a second session goes on over the same host, up to a stop where one is told. Answers whether the first
/// session ended at the sync.
fn goes_on_with_writes_pending<Rt: Abort + AllocGlobal + Threads + Sync>(
    rt: &Rt,
    day: &Session,
    empty: &[u8],
    way: Way,
    sync: u64,
    stop: Option<u64>,
) -> bool {
    let trouble = Trouble::Fails(Call::Sync, sync);
    let mut host = host_of(rt, Way { trouble, ..way }, &day.input, empty);
    goes_on_behind(rt, way, &mut host, stop)
}

/// How many of the syncs below a number end a session where they fail. A second session goes on behind each.
fn failed_syncs<Rt: Abort + AllocGlobal + Threads + Sync>(
    rt: &Rt,
    day: &Session,
    empty: &[u8],
    way: Way,
    end: u64,
    stop: Option<u64>,
) -> u64 {
    let mut failed = 0u64;
    for sync in 1..end {
        let is_failed = goes_on_with_writes_pending(rt, day, empty, way, sync, stop);
        failed = failed.saturating_add(u64::from(is_failed));
    }
    failed
}

/// Of the syncs of a session that is run in each of these ways some end it where they fail.
fn expect_failed_syncs<Rt: Abort + AllocGlobal + Threads + Sync>(
    rt: &Rt,
    day: &Session,
    empty: &[u8],
) {
    for way in WAYS {
        let failed = failed_syncs(rt, day, empty, way, 30, None);
        assert!(rt; failed >= 3 && failed < 29);
    }
}

#[test]
fn a_session_after_a_failed_sync_counts_each_acknowledged_record(rt: HostRuntime) {
    let day = reopened_day(&rt);
    expect_failed_syncs(&rt, &day, &fresh(&rt, 100));
}

/// A sync fails, and the next session is stopped, at each of its first calls.
fn expect_second_stops<Rt: Abort + AllocGlobal + Threads + Sync>(
    rt: &Rt,
    day: &Session,
    empty: &[u8],
) {
    for way in WAYS {
        for stop in 1..40u64 {
            failed_syncs(rt, day, empty, way, 6, Some(stop));
        }
    }
}

#[test]
fn a_stop_with_writes_pending_loses_no_acknowledged_record(rt: HostRuntime) {
    let day = reopened_day(&rt);
    expect_second_stops(&rt, &day, &fresh(&rt, 100));
}

/// A day of 64 records: the reopened day, and clocks behind it.
fn day_of_64<R: Abort + AllocGlobal>(rt: &R) -> Session {
    let mut lines = reopened_lines(rt);
    for second in 0..54u8 {
        let next = [clock(at(10, 11, second))];
        lines.extend_from_slice(&next).expect(rt, "memory");
    }
    Session::of(rt.alloc(), &lines).expect(rt, "a session")
}

/// Whatever a session leaves has all of 64 records or none.
fn expect_all_or_none<Rt: Abort + AllocGlobal + Threads + Sync>(rt: &Rt, host: &MemoryHost) {
    for pick in PICKS {
        let held = left_in(rt, host, pick);
        assert!(rt; held == 0 || held == 64, "{held} are held");
    }
}

/// Serves the day up to a stop, which leaves all of its records or none. Answers whether the session was stopped.
fn leaves_all_or_none<Rt: Abort + AllocGlobal + Threads + Sync>(
    rt: &Rt,
    day: &Session,
    empty: &[u8],
    nth: u64,
) -> bool {
    let way = Way {
        trouble: Trouble::Stops(nth),
        ..SERVE
    };
    let mut host = host_of(rt, way, &day.input, empty);
    let status = run(rt, way, &mut host);
    expect_all_or_none(rt, &host);
    status != Status::Done
}

/// Stops the day at each of its calls: how many of them disturb it.
fn stopped_in_turn<Rt: Abort + AllocGlobal + Threads + Sync>(
    rt: &Rt,
    day: &Session,
    empty: &[u8],
) -> u64 {
    let mut calls = 0u64;
    for nth in 1..100u64 {
        let is_stopped = leaves_all_or_none(rt, day, empty, nth);
        calls = calls.saturating_add(u64::from(is_stopped));
        stopped_at(rt, day, empty, SERVE, nth);
    }
    calls
}

#[test]
fn a_stop_leaves_all_of_a_batch_of_64_records_or_none(rt: HostRuntime) {
    let day = day_of_64(&rt);
    let empty = fresh(&rt, 100);
    expect(&rt, SERVE, &day.input, &empty, Status::Done, &day.served);
    let calls = stopped_in_turn(&rt, &day, &empty);
    assert!(rt; calls > 8 && calls < 99);
}
