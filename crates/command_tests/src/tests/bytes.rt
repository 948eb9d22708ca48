//! The documented bytes, as they are.

use super::{fall, fresh, joined, leaves, made, runs, session};
use host_core::Status;
use std::process::Abort;
use std::thread::Threads;

/// A greeting of no records and no messages.
pub(super) const HELLO: &[u8] = b"\x11\x81\0\0\0\0\0\0\0\0\0\0\0\0\0\0\0\0";

/// The day 2024-06-03 at 04:00:00, with a regular close, after an index close of 5,000.00.
pub const DAY: &[u8] = b"\x13\x01\0\0\x0d\x18\xc2\xe2\x80\0\x07\xe8\x06\x03\x01\x02\0\x07\xa1\x20";

/// Index values of 4,650.01 and then of 4,650.00 at 10:00:00.
pub const VALUES: &[u8] =
    b"\x0d\x06\0\0\x20\xbd\xe7\x36\x40\0\0\x07\x18\x69\x0d\x06\0\0\x20\xbd\xe7\x36\x40\0\0\x07\x18\x68";

const ACK_1: &[u8] = b"\x09\x82\0\0\0\0\0\0\0\x01";

const ACK_2: &[u8] = b"\x09\x82\0\0\0\0\0\0\0\x02";

/// Level 1 is declared.
pub(super) const BREAKER: &[u8] =
    b"\x16\x18\0\0\0\0\0\0\0\x01\0\0\x20\xbd\xe7\x36\x40\0\x01\0\x07\x18\x68";

pub const ACK_3: &[u8] = b"\x09\x82\0\0\0\0\0\0\0\x03";

/// A session over an empty journal greets, and answers an input so; a replay of it sends the breaker.
fn expect_answers<Rt: Abort + AllocGlobal + Threads + Sync>(rt: &Rt, input: &[u8], answers: &[u8]) {
    let empty = fresh(rt);
    runs(rt, &["serve"], &empty, b"", HELLO, Status::Done);
    runs(rt, &["serve"], &empty, input, answers, Status::Done);
    runs(rt, &["replay"], b"", input, BREAKER, Status::Done);
}

/// The day of the fall, as the other tests write it, is this input, and gets these answers.
fn expect_fall<R: Abort + AllocGlobal>(rt: &R, input: &[u8], answers: &[u8]) {
    let day = session(rt, &fall());
    let is_read = day.input.as_slice() == input;
    let is_sent = day.served.as_slice() == answers && day.replayed.as_slice() == BREAKER;
    assert!(rt; is_read && is_sent);
}

#[test]
fn the_documented_day_gets_the_documented_answers(rt: HostRuntime) {
    let input = joined(&rt, &[DAY, VALUES]);
    let answers = joined(&rt, &[HELLO, ACK_1, ACK_2, BREAKER, ACK_3]);
    expect_fall(&rt, &input, &answers);
    expect_answers(&rt, &input, &answers);
}

/// The header of a journal that takes 3 records, and the same as a journal that holds none.
const HEADER: &[u8] = b"HALTJNL2\0\0\0\0\0\0\0\x03";

const EMPTY: &[u8] = b"HALTJNL2\0\0\0\0\0\0\0\x03\0";

#[test]
fn a_journal_is_a_header_batches_and_a_closed_gate(rt: HostRuntime) {
    let empty = made(&rt, &["format", "--limit", "3"]);
    assert!(rt; empty.as_slice() == EMPTY);
    let answers = joined(&rt, &[HELLO, ACK_1]);
    let kept = joined(&rt, &[HEADER, b"\x01\0\0\0\x14", DAY, b"\0"]);
    leaves(&rt, &["serve"], &empty, DAY, &answers, Status::Done, &kept);
}

#[test]
fn damage_and_a_missing_journal_are_told(rt: HostRuntime) {
    let damaged = b"HALTJNL1\0\0\0\0\0\0\0\x03\x01\0\0\0\0\0";
    let at_gate = Status::Damaged { at: 16 };
    runs(&rt, &["serve"], damaged, DAY, b"", at_gate);
    runs(&rt, &["serve"], b"", DAY, b"", Status::NoJournal);
}
