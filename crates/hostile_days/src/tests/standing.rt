//! A standby is stopped at each of its calls, and its journal is served on.

use super::stopped::{PICKS, expect_rest};
use super::{SERVE, copied, fresh, ran, reopened_day};
use host_core::Status;
use memory_host::{MemoryHost, Pick};
use standby_core::{put_have, ship, standby};
use std::process::Abort;
use std::thread::Threads;
use test_days::Session;

/// A day, the Parts of its records, and what a standby replies to them.
#[derive(Drop)]
struct Shipped {
    day: Session,
    parts: Vec<u8>,
    haves: Vec<u8>,
}

/// How many bytes a Have has.
const HAVE: usize = 10;

/// The Haves of so many records, one after the other.
fn haves<R: Abort + AllocGlobal>(rt: &R, count: u64) -> Vec<u8> {
    let mut bytes = Vec::new(rt.alloc());
    for kept in 1..=count {
        let mut cell = [0; 64];
        let len = put_have(kept, &mut cell);
        bytes.extend_from_slice(&cell[..len]).expect(rt, "memory");
    }
    bytes
}

/// The Parts of the records that a disk holds.
fn parts_of<R: Abort + AllocGlobal>(rt: &R, disk: &[u8]) -> Vec<u8> {
    let mut host = MemoryHost::new(rt.alloc(), b"", disk).expect(rt, "memory");
    let status = ship(rt.alloc(), &mut host, 1);
    assert!(rt; status == Status::Done);
    copied(rt, host.sent())
}

/// The Parts of the records of a day.
fn parts_of_day<Rt: Abort + AllocGlobal + Threads + Sync>(rt: &Rt, day: &Session) -> Vec<u8> {
    let empty = fresh(rt, 100);
    let host = ran(rt, SERVE, &day.input, &empty, Status::Done);
    parts_of(rt, host.disk())
}

/// Ships the journal of a day of ten records.
fn ship_day<Rt: Abort + AllocGlobal + Threads + Sync>(rt: &Rt) -> Shipped {
    let day = reopened_day(rt);
    let parts = parts_of_day(rt, &day);
    Shipped {
        day,
        parts,
        haves: haves(rt, 10),
    }
}

/// What a stop leaves of the disk of a standby holds each record that a Have counts, and gives the messages of the day.
fn expect_takeover<Rt: Abort + AllocGlobal + Threads + Sync>(
    rt: &Rt,
    of: &Shipped,
    host: &MemoryHost,
    pick: Pick,
) {
    let left = host.crash(pick, b"").expect(rt, "memory");
    let counted = (host.sent().len() / HAVE) as u64;
    expect_rest(rt, &of.day, left.disk(), 1, counted);
}

/// What a standby sent up to a stop is the begin of what it replies.
fn expect_begin<R: Abort>(rt: &R, haves: &[u8], sent: &[u8], nth: u64) {
    assert!(rt; haves.starts_with(sent), "stopped at {nth}");
}

/// Takes the Parts up to a stop, by batches of so many frames. Answers whether the standby was stopped.
fn stopped_at<Rt: Abort + AllocGlobal + Threads + Sync>(
    rt: &Rt,
    of: &Shipped,
    empty: &[u8],
    batch: u32,
    nth: u64,
) -> bool {
    let mut host = MemoryHost::new(rt.alloc(), &of.parts, empty).expect(rt, "memory");
    host.pieces(4_096, 7);
    host.stop_at(nth.max(1));
    let end = standby(rt.alloc(), &mut host, batch.clamp(1, 64), 1_000_000);
    expect_begin(rt, &of.haves, host.sent(), nth);
    for pick in PICKS {
        expect_takeover(rt, of, &host, pick);
    }
    end != Status::Done
}

/// The first call from which on a stop doesn't disturb a standby by batches of so many frames.
fn stopped_everywhere<Rt: Abort + AllocGlobal + Threads + Sync>(
    rt: &Rt,
    of: &Shipped,
    empty: &[u8],
    batch: u32,
) -> u64 {
    for nth in 1..1_000u64 {
        if !stopped_at(rt, of, empty, batch, nth) {
            return nth;
        }
    }
    1_000
}

/// A stop at any call disturbs a standby by batches of so many frames, which makes more calls than 20.
fn expect_stops<Rt: Abort + AllocGlobal + Threads + Sync>(
    rt: &Rt,
    of: &Shipped,
    empty: &[u8],
    batch: u32,
) {
    let calls = stopped_everywhere(rt, of, empty, batch);
    assert!(rt; calls > 20 && calls < 1_000);
}

#[test]
fn whatever_a_stop_of_a_standby_leaves_is_served_on(rt: HostRuntime) {
    let of = ship_day(&rt);
    let empty = fresh(&rt, 100);
    expect_stops(&rt, &of, &empty, 1);
    expect_stops(&rt, &of, &empty, 64);
}
