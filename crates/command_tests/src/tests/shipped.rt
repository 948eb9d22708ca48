//! A second journal: `ship` sends the records of a journal, and `standby` takes them into another.

use super::rolled::two_days;
use super::{fresh, leaves, left_by, runs};
use host_core::Status;
use std::process::Abort;
use std::thread::Threads;

/// The Parts of the two days, of 30 bytes each.
const PARTS: &[u8] =
    b"\x1d\xa1\0\0\0\0\0\0\0\x01\x13\x01\0\0\x0d\x18\xc2\xe2\x80\0\x07\xe8\x06\x03\x01\x02\0\x07\xa1\x20\x1d\xa1\0\0\0\0\0\0\0\x02\x13\x01\0\0\x0d\x18\xc2\xe2\x80\0\x07\xe8\x06\x04\x01\x02\0\x07\xa1\x20";

/// The Parts of two clocks behind them, and what is replied to these.
const CLOCKS: &[u8] =
    b"\x13\xa1\0\0\0\0\0\0\0\x03\x09\x07\0\0\x0d\x18\xc2\xe2\x80\0\x13\xa1\0\0\0\0\0\0\0\x04\x09\x07\0\0\x0d\x18\xc2\xe2\x80\0";

const HAVE_3_4: &[u8] = b"\x09\xa2\0\0\0\0\0\0\0\x03\x09\xa2\0\0\0\0\0\0\0\x04";

/// Haves of one record, and twice of two.
const HAVE_1: &[u8] = b"\x09\xa2\0\0\0\0\0\0\0\x01";

const HAVE_2_2: &[u8] = b"\x09\xa2\0\0\0\0\0\0\0\x02\x09\xa2\0\0\0\0\0\0\0\x02";

/// The records from a number on are sent so.
fn expect_shipped<Rt: Abort + AllocGlobal + Threads + Sync>(
    rt: &Rt,
    disk: &[u8],
    from: &str,
    sent: &[u8],
) {
    runs(rt, &["ship", "--from", from], disk, b"", sent, Status::Done);
}

#[test]
fn records_from_a_number_on_are_sent(rt: HostRuntime) {
    let first = two_days(&rt);
    expect_shipped(&rt, &first, "1", PARTS);
    expect_shipped(&rt, &first, "2", &PARTS[30..]);
    expect_shipped(&rt, &first, "3", b"");
}

#[test]
fn records_that_come_again_are_counted_alone(rt: HostRuntime) {
    let first = two_days(&rt);
    for batch in ["1", "64"] {
        let words = ["standby", "--batch", batch];
        leaves(&rt, &words, &first, PARTS, HAVE_2_2, Status::Done, &first);
    }
}

#[test]
fn a_standby_ends_as_its_input_does(rt: HostRuntime) {
    let empty = fresh(&rt);
    let cut = &PARTS[..31];
    runs(&rt, &["standby"], &empty, cut, HAVE_1, Status::Truncated);
    let words = ["standby", "--bytes", "30"];
    runs(&rt, &words, &empty, PARTS, HAVE_1, Status::SessionFull);
}

/// A journal of 3 records with a batch that has no length.
const DAMAGED: &[u8] = b"HALTJNL2\0\0\0\0\0\0\0\x03\x01\0\0\0\0\0";

/// A command tells damage and a missing journal, and leaves them.
fn expect_left<Rt: Abort + AllocGlobal + Threads + Sync>(rt: &Rt, word: &str) {
    let at_gate = Status::Damaged { at: 16 };
    leaves(rt, &[word], DAMAGED, PARTS, b"", at_gate, DAMAGED);
    leaves(rt, &[word], b"", PARTS, b"", Status::NoJournal, b"");
}

#[test]
fn damage_and_a_missing_journal_are_told_and_left(rt: HostRuntime) {
    expect_left(&rt, "ship");
    expect_left(&rt, "standby");
}

#[test]
fn a_base_leaves_the_numbers_as_they_are(rt: HostRuntime) {
    let days = two_days(&rt);
    let rolled = left_by(&rt, &["roll"], &days, b"", b"", Status::Done);
    runs(&rt, &["ship"], &rolled, b"", b"", Status::Done);
    let kept = left_by(&rt, &["standby"], &rolled, CLOCKS, HAVE_3_4, Status::Done);
    runs(&rt, &["ship"], &kept, b"", CLOCKS, Status::Done);
}
