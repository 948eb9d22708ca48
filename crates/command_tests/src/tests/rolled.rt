//! Bases that `roll` puts behind the last day of a journal.

use super::bytes::{ACK_3, DAY, HELLO};
use super::ends::fail;
use super::morning::sent_by;
use super::{WORKERS, copied, fresh, host, joined, leaves, left_by, run, runs};
use host_core::Status;
use memory_host::{Call, MemoryHost, Pick};
use std::process::Abort;
use std::thread::Threads;

/// The same day on 2024-06-04, and on 2099-12-31.
const NEXT_DAY: &[u8] = b"\x13\x01\0\0\x0d\x18\xc2\xe2\x80\0\x07\xe8\x06\x04\x01\x02\0\x07\xa1\x20";

const LAST_DAY: &[u8] = b"\x13\x01\0\0\x0d\x18\xc2\xe2\x80\0\x08\x33\x0c\x1f\x01\x02\0\x07\xa1\x20";

/// A clock of 04:00:00.
const CLOCK: &[u8] = b"\x09\x07\0\0\x0d\x18\xc2\xe2\x80\0";

const ACKS: &[u8] = b"\x09\x82\0\0\0\0\0\0\0\x01\x09\x82\0\0\0\0\0\0\0\x02";

/// A greeting of 2 records and no message.
const HELLO_2: &[u8] = b"\x11\x81\0\0\0\0\0\0\0\x02\0\0\0\0\0\0\0\0";

/// What opens the gate behind two days, and the base's mark, its 2 records and its messages, of which there are none. The
/// second day follows, then how many names and ids there are, and a closed gate.
const BASE: &[u8] = b"\x01\x80\0\0\x28\0\0\0\0\0\0\0\x02\0\0\0\0\0\0\0\0";

const END: &[u8] = b"\0\0\0\0\0";

/// Where that gate stands.
const GATE: usize = 61;

/// A journal of 3 records with a batch that has no length.
const DAMAGED: &[u8] = b"HALTJNL2\0\0\0\0\0\0\0\x03\x01\0\0\0\0\0";

/// A journal that holds two days, kept as one batch.
pub fn two_days<Rt: Abort + AllocGlobal + Threads + Sync>(rt: &Rt) -> Vec<u8> {
    let input = joined(rt, &[DAY, NEXT_DAY]);
    let sent = joined(rt, &[HELLO, ACKS]);
    left_by(rt, &["serve"], &fresh(rt), &input, &sent, Status::Done)
}

/// The same with a base behind it, of a journal of either version.
fn with_base<R: Abort + AllocGlobal>(rt: &R, disk: &[u8]) -> Vec<u8> {
    joined(rt, &[&disk[..GATE.min(disk.len())], BASE, NEXT_DAY, END])
}

/// Rolls a journal, and answers the disk. Nothing is sent.
fn rolled<Rt: Abort + AllocGlobal + Threads + Sync>(rt: &Rt, disk: &[u8]) -> Vec<u8> {
    left_by(rt, &["roll"], disk, b"unread", b"", Status::Done)
}

/// Rolls a journal, and compares the disk and how it ends. Nothing is sent.
fn rolls<Rt: Abort + AllocGlobal + Threads + Sync>(
    rt: &Rt,
    disk: &[u8],
    left: &[u8],
    want: Status,
) {
    leaves(rt, &["roll"], disk, b"unread", b"", want, left);
}

/// Greets over a journal of two days, however its records are evaluated and asked for.
fn greets<Rt: Abort + AllocGlobal + Threads + Sync>(rt: &Rt, disk: &[u8]) {
    for workers in WORKERS {
        let words = ["serve", "--from", "1", "--workers", workers];
        runs(rt, &words, disk, b"", HELLO_2, Status::Done);
    }
}

#[test]
fn a_roll_puts_a_base_behind_the_last_day(rt: HostRuntime) {
    let disk = two_days(&rt);
    assert!(rt; disk.len() == GATE + 1);
    let want = with_base(&rt, &disk);
    rolls(&rt, &disk, &want, Status::Done);
    greets(&rt, &want);
    rolls(&rt, &want, &want, Status::Done);
}

#[test]
fn a_journal_of_the_first_version_is_rolled(rt: HostRuntime) {
    let second = two_days(&rt);
    let disk = joined(
        &rt,
        &[b"HALTJNL1".as_slice(), second.get(8..).unwrap_or(&[])],
    );
    let want = with_base(&rt, &disk);
    rolls(&rt, &disk, &want, Status::Done);
    greets(&rt, &want);
}

/// A journal with a base and a clock behind it.
fn clock_behind<Rt: Abort + AllocGlobal + Threads + Sync>(rt: &Rt) -> Vec<u8> {
    let days = rolled(rt, &two_days(rt));
    let sent = joined(rt, &[HELLO_2, ACK_3]);
    left_by(rt, &["serve"], &days, CLOCK, &sent, Status::Done)
}

#[test]
fn no_base_is_put_behind_another_record(rt: HostRuntime) {
    let behind = clock_behind(&rt);
    rolls(&rt, &behind, &behind, Status::NotAtDay);
    let empty = fresh(&rt);
    rolls(&rt, &empty, &empty, Status::NotAtDay);
    rolls(&rt, DAMAGED, DAMAGED, Status::Damaged { at: 16 });
    rolls(&rt, b"", b"", Status::NoJournal);
}

/// A disk that a stop left is rolled as without a stop; at its gate may stand what the stop left.
fn expect_rolled<Rt: Abort + AllocGlobal + Threads + Sync>(rt: &Rt, disk: &[u8], want: &[u8]) {
    let kept = rolled(rt, disk);
    let is_rolled = kept.get(GATE + 1..) == want.get(GATE + 1..) && kept.get(GATE) != Some(&0);
    assert!(rt; is_rolled);
}

/// What a stop leaves of a host has the records, and is rolled as without a stop.
fn expect_left<Rt: Abort + AllocGlobal + Threads + Sync>(
    rt: &Rt,
    host: &MemoryHost,
    pick: Pick,
    want: &[u8],
) {
    let left = host.crash(pick, b"").expect(rt, "memory for a host");
    runs(rt, &["serve"], left.disk(), b"", HELLO_2, Status::Done);
    expect_rolled(rt, left.disk(), want);
}

/// Rolls two days up to a stop at one of the calls, and again over what the stop leaves. Answers whether the run was stopped.
fn stopped<Rt: Abort + AllocGlobal + Threads + Sync>(
    rt: &Rt,
    disk: &[u8],
    want: &[u8],
    nth: u64,
    pick: Pick,
) -> bool {
    let mut host = host(rt, b"", disk);
    host.stop_at(nth.max(1));
    let end = run(rt, &["roll"], &mut host);
    expect_left(rt, &host, pick, want);
    end != Status::Done
}

/// Rolls two days up to a stop at each of the calls in turn: the sixth is made, and the twentieth isn't.
fn expect_stops<Rt: Abort + AllocGlobal + Threads + Sync>(
    rt: &Rt,
    disk: &[u8],
    want: &[u8],
    pick: Pick,
) {
    for nth in 1..=20u64 {
        let was_stopped = stopped(rt, disk, want, nth, pick);
        let is_as_made = (nth != 6 || was_stopped) && (nth != 20 || !was_stopped);
        assert!(rt; is_as_made, "stopped at {nth}");
    }
}

#[test]
fn a_stop_of_a_roll_leaves_the_records(rt: HostRuntime) {
    let disk = two_days(&rt);
    let want = rolled(&rt, &disk);
    for pick in [Pick::Old, Pick::New, Pick::Bytes(0), Pick::Bytes(0x55)] {
        expect_stops(&rt, &disk, &want, pick);
    }
}

/// Rolls over a host in which a call fails, and answers whether that was told.
fn tells_fault<Rt: Abort + AllocGlobal + Threads + Sync>(rt: &Rt, host: &mut MemoryHost) -> bool {
    let end = run(rt, &["roll"], host);
    let is_told = end == Status::DiskFault;
    assert!(rt; is_told || end == Status::Done);
    is_told
}

/// A call of a kind fails while a journal is rolled, and a roll over what that leaves ends as without a fault. Answers whether
/// it was told.
fn is_told<Rt: Abort + AllocGlobal + Threads + Sync>(
    rt: &Rt,
    disk: &[u8],
    want: &[u8],
    call: Call,
    nth: u64,
) -> bool {
    let mut host = host(rt, b"", disk);
    fail(rt, &mut host, call, nth);
    let is_told = tells_fault(rt, &mut host);
    rolls(rt, host.disk(), want, Status::Done);
    is_told
}

/// Each call of a kind fails in turn while a journal is rolled. Answers how many of them were told.
fn failed_in_turn<Rt: Abort + AllocGlobal + Threads + Sync>(
    rt: &Rt,
    disk: &[u8],
    call: Call,
) -> usize {
    let mut told = 0usize;
    let want = rolled(rt, disk);
    for nth in 1..=4u64 {
        told = told.saturating_add(usize::from(is_told(rt, disk, &want, call, nth)));
    }
    told
}

/// Of the calls of a kind that fail in turn, so many are told.
fn expect_told<Rt: Abort + AllocGlobal + Threads + Sync>(
    rt: &Rt,
    disk: &[u8],
    call: Call,
    least: usize,
    most: usize,
) {
    let told = failed_in_turn(rt, disk, call);
    assert!(rt; least <= told && told <= most, "{told} faults of {call:?}");
}

#[test]
fn each_failing_call_of_a_roll_is_told_and_the_next_ends_well(rt: HostRuntime) {
    let disk = two_days(&rt);
    for (call, least, most) in [
        (Call::Read, 0, 0),
        (Call::Send, 0, 0),
        (Call::Len, 1, 2),
        (Call::DiskRead, 1, 4),
        (Call::Write, 2, 2),
        (Call::Sync, 3, 4),
    ] {
        expect_told(&rt, &disk, call, least, most);
    }
}

#[test]
fn a_rolled_journal_is_not_written(rt: HostRuntime) {
    let disk = rolled(&rt, &two_days(&rt));
    expect_told(&rt, &disk, Call::Write, 0, 0);
}

/// A listing of each of the names that there can be, and a day behind.
fn all_listings<Rt: Abort + AllocGlobal + Threads + Sync>(rt: &Rt) -> Vec<u8> {
    let words = ["generate", "--symbols", "16384", "--records", "0"];
    let generated = sent_by(rt, &words, b"", b"");
    joined(rt, &[generated.as_slice(), LAST_DAY])
}

/// A journal that holds an input, over a disk that holds no record.
fn journal_of<Rt: Abort + AllocGlobal + Threads + Sync>(
    rt: &Rt,
    disk: &[u8],
    input: &[u8],
) -> Vec<u8> {
    let mut host = host(rt, input, disk);
    let end = run(rt, &["serve"], &mut host);
    assert!(rt; end == Status::Done);
    copied(rt, host.disk())
}

/// The same is told of two journals.
fn expect_same<Rt: Abort + AllocGlobal + Threads + Sync>(rt: &Rt, first: &[u8], second: &[u8]) {
    let told = sent_by(rt, &["status"], first, b"");
    runs(rt, &["status"], second, b"", &told, Status::Done);
}

#[test]
fn a_base_has_all_names(rt: HostRuntime) {
    let disk = journal_of(&rt, &fresh(&rt), &all_listings(&rt));
    let kept = rolled(&rt, &disk);
    // A mark, 40 bytes and a closed gate, and 8 bytes for each name.
    assert!(rt; kept.len() == disk.len() + 45 + 8 * 16_384);
    expect_same(&rt, &disk, &kept);
}
