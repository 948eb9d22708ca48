//! Audits of input that no lines can say, and of generated days.

use super::bytes::{BREAKER, HELLO};
use super::generated::messages_of;
use super::morning::sent_by;
use super::{joined, runs};
use host_core::Status;
use std::process::Abort;
use std::thread::Threads;

/// Audits the first message of a day and bytes behind it, of which nothing is to be sent, and compares how it ends.
fn ends<Rt: Abort + AllocGlobal + Threads + Sync>(rt: &Rt, behind: &[u8], want: Status) {
    let input = joined(rt, &[BREAKER, behind]);
    runs(rt, &["audit"], b"", &input, b"", want);
}

#[test]
fn an_input_that_ends_inside_a_frame_is_truncated(rt: HostRuntime) {
    runs(&rt, &["audit"], b"", BREAKER, b"clean 1\n", Status::Done);
    ends(&rt, b"\x16", Status::Truncated);
    // A refusal without its last byte.
    ends(&rt, b"\x0b\x83\0\0\0\0\0\0\0\x01\x09", Status::Truncated);
}

#[test]
fn bytes_that_spell_no_frame_are_told_by_its_place(rt: HostRuntime) {
    let second = Status::BadText { line: 2 };
    ends(&rt, b"\0", second);
    ends(&rt, b"\x01\xff\x16", second);
    // A refusal without its code, and one behind which such a body stands.
    ends(&rt, b"\x09\x83\0\0\0\0\0\0\0\x01", second);
    ends(
        &rt,
        b"\x0b\x83\0\0\0\0\0\0\0\x01\x09\0\0",
        Status::BadText { line: 3 },
    );
}

#[test]
fn a_breach_is_told_before_what_stands_behind_it(rt: HostRuntime) {
    let breach = Status::Breach { place: 2, law: 1 };
    let behind = joined(&rt, &[BREAKER, b"\0\x16"]);
    ends(&rt, &behind, breach);
    ends(&rt, HELLO, breach);
}

/// An audit of so many messages finds them clean.
fn expect_clean<Rt: Abort + AllocGlobal + Threads + Sync>(rt: &Rt, input: &[u8], messages: u32) {
    let clean = format!(in rt.alloc(); "clean {messages}\n").expect(rt, "memory for a text");
    runs(rt, &["audit"], b"", input, clean.as_bytes(), Status::Done);
}

/// A replay of a generated day of so many symbols is clean.
fn expect_clean_day<Rt: Abort + AllocGlobal + Threads + Sync>(rt: &Rt, symbols: &str) {
    let day = ["generate", "--symbols", symbols, "--records", "100000"];
    let frames = sent_by(rt, &day, b"", b"");
    let replayed = sent_by(rt, &["replay"], b"", &frames);
    expect_clean(rt, &replayed, messages_of(&replayed));
}

#[test]
fn a_replay_of_a_generated_day_is_clean(rt: HostRuntime) {
    for symbols in ["10", "500", "5000"] {
        expect_clean_day(&rt, symbols);
    }
}
