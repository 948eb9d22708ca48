//! Records that are not lawful, by the plain evaluation.

use afresh_core::is_lawful;
use std::alloc::Global;
use test_days::lines::{Line, at, before, clock, day};
use test_days::records_of;
use wire_in::Record;

/// Whether records are found to be lawful where they are to be.
fn is_found(alloc: Global, xs: &[Record], want: bool) -> bool {
    match is_lawful(alloc, xs) {
        Ok(lawful) => lawful == want,
        Err(_) => false,
    }
}

/// Whether the records of these lines are found to be lawful where they are to be.
fn is_as_wanted(alloc: Global, lines: &[Line], want: bool) -> bool {
    match records_of(alloc, lines) {
        Ok(xs) => is_found(alloc, &xs, want),
        Err(_) => false,
    }
}

/// Whether a record before the last one, and one before any day, are not lawful.
fn is_ordered(alloc: Global) -> bool {
    let t = at(10, 0, 0);
    is_as_wanted(alloc, &[day(3), clock(t)], true)
        && is_as_wanted(alloc, &[day(3), clock(t), clock(before(t))], false)
        && is_as_wanted(alloc, &[clock(t)], false)
}

#[test]
fn a_record_before_the_last_or_before_any_day_is_not_lawful(rt: HostRuntime) {
    assert!(&rt; is_ordered(rt.alloc()));
}
