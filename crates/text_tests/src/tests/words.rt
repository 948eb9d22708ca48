//! Tests of the words of a command line.

use Taken::{As, Refused, Told};
use std::alloc::Global;
use std::process::Abort;
use text_core::Kind;
use words_core::{Asked, Command, WordsError, fault_text, parse};

/// How the words of a process are taken: as a command, as a question that is answered by a text with these words in it, or
/// not at all.
#[derive(Clone, Copy)]
enum Taken {
    As(Command),
    Told(&'static str),
    Refused,
}

/// The most bytes that a session reads.
const BYTES_MAX: u64 = 1_099_511_627_776;

/// Whether the words are taken in that way.
fn is_taken(alloc: Global, words: &[&str], taken: Taken) -> bool {
    match (parse(alloc, words), taken) {
        (Ok(Asked::Command(command)), As(wanted)) => command == wanted,
        (Ok(Asked::Text(text)), Told(part)) => text.as_str().contains(part),
        (Err(error), Refused) => error == WordsError::Usage,
        _ => false,
    }
}

/// Each line of words is taken in its way.
fn expect<R: Abort + AllocGlobal>(rt: &R, lines: &[(&[&str], Taken)]) {
    for (place, (words, taken)) in lines.iter().enumerate() {
        assert!(rt; is_taken(rt.alloc(), words, *taken), "line {place}");
    }
}

/// A session served by batches of at most so many frames, by so many workers, up to so many bytes.
fn serve(from: Option<u64>, workers: u32, batch: u32, bytes: u64) -> Taken {
    As(Command::Serve {
        from,
        workers,
        batch,
        bytes,
    })
}

/// A generated day.
fn generate(seed: u64, symbols: u32, records: u32, workers: u32, summary: bool) -> Taken {
    As(Command::Generate {
        seed,
        symbols,
        records,
        workers,
        summary,
    })
}

/// Records of a journal from that number on.
fn ship(from: u64) -> Taken {
    As(Command::Ship { from })
}

/// A second journal, which takes its records by batches of at most so many frames, up to so many bytes.
fn standby(batch: u32, bytes: u64) -> Taken {
    As(Command::Standby { batch, bytes })
}

/// A replay by so many workers.
fn replay(workers: u32) -> Taken {
    As(Command::Replay {
        workers,
        bytes: BYTES_MAX,
    })
}

#[test]
fn plain_lines_ask_for_their_commands(rt: HostRuntime) {
    expect(
        &rt,
        &[
            (&["format"], As(Command::Format { limit: 100_000_000 })),
            (
                &[
                    "serve",
                    "--bytes",
                    "20",
                    "--from",
                    "7",
                    "--batch",
                    "64",
                    "--workers",
                    "2",
                ],
                serve(Some(7), 2, 64, 20),
            ),
            (&["serve"], serve(None, 1, 64, BYTES_MAX)),
            (&["serve", "--batch", "1"], serve(None, 1, 1, BYTES_MAX)),
            (&["replay"], replay(1)),
            (&["status"], As(Command::Status)),
            (&["roll"], As(Command::Roll)),
            (
                &["print", "--kind", "records"],
                As(Command::Print {
                    kind: Kind::Records,
                }),
            ),
            (
                &["pack", "--kind", "published"],
                As(Command::Pack {
                    kind: Kind::Published,
                }),
            ),
        ],
    );
}

#[test]
fn a_second_journal_is_asked_for(rt: HostRuntime) {
    expect(
        &rt,
        &[
            (&["ship"], ship(1)),
            (&["ship", "--from", "18446744073709551615"], ship(u64::MAX)),
            (&["ship", "--from=+07"], ship(7)),
            (&["standby"], standby(64, BYTES_MAX)),
            (
                &["standby", "--bytes", "20", "--batch", "1"],
                standby(1, 20),
            ),
            (&["standby", "--batch=5"], standby(5, BYTES_MAX)),
        ],
    );
}

#[test]
fn a_generated_day_takes_its_options_in_any_order(rt: HostRuntime) {
    expect(
        &rt,
        &[
            (&["generate"], generate(1, 500, 400_000, 1, false)),
            (
                &[
                    "generate",
                    "--workers",
                    "2",
                    "--records",
                    "0",
                    "--summary",
                    "--symbols",
                    "16384",
                    "--seed",
                    "0",
                ],
                generate(0, 16_384, 0, 2, true),
            ),
        ],
    );
}

#[test]
fn other_spellings_are_taken(rt: HostRuntime) {
    expect(
        &rt,
        &[
            (&["format", "--limit=3"], As(Command::Format { limit: 3 })),
            (
                &["format", "--limit", "+03"],
                As(Command::Format { limit: 3 }),
            ),
            (
                &["serve", "--from=2", "--workers=3", "--batch=5"],
                serve(Some(2), 3, 5, BYTES_MAX),
            ),
            (
                &["print", "--kind=records"],
                As(Command::Print {
                    kind: Kind::Records,
                }),
            ),
        ],
    );
}

#[test]
fn workers_are_told_by_their_number(rt: HostRuntime) {
    expect(
        &rt,
        &[
            (&["replay", "--workers", "64"], replay(64)),
            (&["replay", "--workers", "064"], replay(64)),
        ],
    );
}

#[test]
fn a_generated_day_is_spelled_in_another_way(rt: HostRuntime) {
    expect(
        &rt,
        &[(
            &["generate", "--seed=5", "--workers=64", "--summary"],
            generate(5, 500, 400_000, 64, true),
        )],
    );
}

/// Lines of words that ask for nothing.
const REFUSED: &[(&[&str], Taken)] = &[
    (&[], Refused),
    (&["serve", "--batch", "65"], Refused),
    (&["serve", "--from", "0"], Refused),
    (&["format", "--limit", "2000000001"], Refused),
    (&["format", "--limit", "3", "--limit", "3"], Refused),
    (&["replay", "--bytes"], Refused),
    (&["print"], Refused),
    (&["pack", "--kind", "frames"], Refused),
    (&["generate", "--symbols", "0"], Refused),
    (&["generate", "--seed", "-1"], Refused),
    (&["serve", "--workers", "65"], Refused),
    (&["replay", "--workers", "0"], Refused),
    (&["generate", "--workers", "2", "--workers", "2"], Refused),
    (&["status", "--workers", "2"], Refused),
    (&["status", "now"], Refused),
    (&["roll", "--workers", "2"], Refused),
    (&["ship", "--from", "0"], Refused),
    (&["ship", "--bytes", "2"], Refused),
    (&["standby", "--batch", "65"], Refused),
    (&["standby", "--bytes=0"], Refused),
    (&["standby", "--from", "1"], Refused),
    (&["stop"], Refused),
];

#[test]
fn other_words_are_refused(rt: HostRuntime) {
    expect(&rt, REFUSED);
}

/// Lines of words that ask for a text.
const TOLD: &[(&[&str], Taken)] = &[
    (&["--help"], Told("Usage: halts <journal> <COMMAND>")),
    (&["-h"], Told("generate")),
    (&["help"], Told("status")),
    (&["roll", "--help"], Told("Usage: halts <journal> roll")),
    (
        &["help", "ship"],
        Told("from 1 to 18446744073709551615 [default: 1]"),
    ),
    (&["ship", "--help"], Told("  0   all was sent")),
    (
        &["help", "standby"],
        Told("  3   the input ended inside a frame"),
    ),
    (&["--help"], Told("  13  of audit: a law is broken")),
    (&["--version"], Told("halts 0.1.0")),
    (
        &["format", "--help"],
        Told("from 1 to 2000000000 [default: 100000000]"),
    ),
    (
        &["serve", "-h"],
        Told("Usage: halts <journal> serve [OPTIONS]"),
    ),
    (
        &["help", "generate"],
        Told("from 1 to 16384 [default: 500]"),
    ),
    (
        &["replay", "--help"],
        Told("evaluate the records, from 1 to 64 [default: 1]"),
    ),
];

#[test]
fn help_and_the_version_are_told(rt: HostRuntime) {
    expect(&rt, TOLD);
}

#[test]
fn what_is_wrong_with_words_is_told(rt: HostRuntime) {
    let told = fault_text(rt.alloc(), &["serve", "--batch", "65"]);
    assert!(rt; told.is_some_and(|text| text.as_str().contains("65")));
    assert!(rt; fault_text(rt.alloc(), &["status"]).is_none());
}
