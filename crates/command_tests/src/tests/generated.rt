//! A generated day, sent as frames and summed up.

use super::morning::sent_by;
use super::{joined, runs};
use host_core::Status;
use std::process::Abort;

/// What is printed of a day of two symbols without records.
const PRINTED: &str = "day 04:00:00.000000000 2024-06-03 regular since18 5000.00\n\
    listing 04:00:00.000000000 S00000 tier1 10 20.0000\n\
    listing 04:00:00.000000000 S00001 tier2 10 20.0100\n";

#[test]
fn a_generated_day_is_sent_and_printed(rt: HostRuntime) {
    let words = [
        "generate",
        "--records",
        "0",
        "--symbols",
        "2",
        "--seed",
        "0",
    ];
    let frames = sent_by(&rt, &words, b"", b"unread");
    let print = ["print", "--kind", "records"];
    let lines = PRINTED.as_bytes();
    runs(&rt, &print, b"", &frames, lines, Status::Done);
}

/// The sums of a day of two symbols and six records.
const SUMS: &str =
    "records 9\nrefused 0\nmessages 4\nlisted 2\nstate 2\nband 0\nstraddle 0\ncollar 0\n\
    release 0\nshort 0\nbreaker 0\nmarketresume 0\n";

#[test]
fn a_generated_day_is_summed_up(rt: HostRuntime) {
    for workers in ["1", "2", "64"] {
        let words = [
            "generate",
            "--symbols",
            "2",
            "--records",
            "6",
            "--workers",
            workers,
            "--summary",
        ];
        runs(&rt, &words, b"", b"", SUMS.as_bytes(), Status::Done);
    }
}

/// The words of a summary for the types of messages, in the order of the types from 0x11 on.
const WORDS: [&str; 9] = [
    "listed",
    "state",
    "band",
    "straddle",
    "collar",
    "release",
    "short",
    "breaker",
    "marketresume",
];

/// Counts a type of messages.
fn count(of_type: &mut [u32; 9], kind: u8) {
    let place = usize::from(kind).wrapping_sub(0x11);
    if place < 9 {
        of_type[place] = of_type[place].wrapping_add(1);
    }
}

/// How many messages of each type were sent.
fn counts_of(sent: &[u8]) -> [u32; 9] {
    let mut of_type = [0u32; 9];
    let mut left = 0u8;
    let mut is_begin = false;
    for byte in sent {
        if left == 0 {
            left = *byte;
            is_begin = true;
            continue;
        }
        if is_begin {
            count(&mut of_type, *byte);
        }
        is_begin = false;
        left -= 1;
    }
    of_type
}

/// How many messages were sent.
pub(super) fn messages_of(sent: &[u8]) -> u32 {
    let mut all = 0u32;
    for count in counts_of(sent) {
        all = all.wrapping_add(count);
    }
    all
}

/// A line of a summary.
fn line<R: Abort + AllocGlobal>(rt: &R, word: &str, count: u32) -> String {
    format!(in rt.alloc(); "{word} {count}\n").expect(rt, "memory for a line")
}

/// What a summary says of messages that were sent.
fn summed_up<R: Abort + AllocGlobal>(rt: &R, sent: &[u8]) -> String {
    let of_type = counts_of(sent);
    let mut lines = line(rt, "messages", messages_of(sent));
    for place in 0..9usize {
        let sum = line(rt, WORDS[place], of_type[place]);
        lines.push_str(&sum).expect(rt, "memory for lines");
    }
    lines
}

/// How a summary of a day of 20 symbols and 20,000 records begins.
const COUNTED: &[u8] = b"records 20021\nrefused 0\n";

#[test]
fn a_replay_of_a_generated_day_gives_the_messages_that_its_summary_counts(rt: HostRuntime) {
    let day = ["generate", "--symbols", "20", "--records", "20000"];
    let frames = sent_by(&rt, &day, b"", b"");
    let replayed = sent_by(&rt, &["replay"], b"", &frames);
    let lines = summed_up(&rt, &replayed);
    let wanted = joined(&rt, &[COUNTED, lines.as_bytes()]);
    let summary = [
        "generate",
        "--symbols",
        "20",
        "--records",
        "20000",
        "--summary",
    ];
    runs(&rt, &summary, b"", b"", &wanted, Status::Done);
}
