//! Frames as lines, and lines as frames.

use super::{fall, runs, session};
use host_core::Status;
use session_core::{Close, Profile};
use test_days::lines::{day, day_of};

/// A day of each profile.
const DAYS: &str = "day 04:00:00.000000000 2024-06-03 regular since18 5000.00\n\
    day 04:00:00.000000000 2024-06-04 early before18 5000.00\n";

const PRINT_RECORDS: &[&str] = &["print", "--kind", "records"];

const PACK_RECORDS: &[&str] = &["pack", "--kind", "records"];

const PRINT_PUBLISHED: &[&str] = &["print", "--kind", "published"];

#[test]
fn days_are_printed_and_packed_again(rt: HostRuntime) {
    let days = session(&rt, &[day(3), day_of(4, Close::Early, Profile::Before18)]);
    let (frames, lines) = (days.input.as_slice(), DAYS.as_bytes());
    runs(&rt, PRINT_RECORDS, b"", frames, lines, Status::Done);
    runs(&rt, PACK_RECORDS, b"", lines, frames, Status::Done);
}

#[test]
fn a_line_that_is_none_is_told_by_its_number(rt: HostRuntime) {
    let day = session(&rt, &[day(3)]);
    let lines = b"day 04:00:00.000000000 2024-06-03 regular since18 5000.00\nclock 9:30:00\n";
    let bad = Status::BadText { line: 2 };
    runs(&rt, PACK_RECORDS, b"", lines, &day.input, bad);
}

#[test]
fn what_a_replay_sent_is_printed(rt: HostRuntime) {
    let day = session(&rt, &fall());
    let line = b"1 10:00:00.000000000 breaker 1 4650.00\n";
    runs(&rt, PRINT_PUBLISHED, b"", &day.replayed, line, Status::Done);
    let hello = b"\x11\x81\0\0\0\0\0\0\0\0\0\0\0\0\0\0\0\0";
    runs(
        &rt,
        PRINT_PUBLISHED,
        b"",
        hello,
        b"hello 0 0\n",
        Status::Done,
    );
}
