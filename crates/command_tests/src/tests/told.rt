//! What is told of each end.

use command_core::{end, tell};
use host_core::{Status, Stream};
use std::io::Write;
use std::process::Abort;

/// What is told of some ends.
const LINES: &[(Status, &str)] = &[
    (Status::Done, ""),
    (
        Status::Usage,
        "halts: usage: halts <journal> format|serve|replay|status|print|pack|generate|roll|board|cross|audit|ship|standby\n",
    ),
    (Status::ReadFault, "halts: the input could not be read\n"),
    (
        Status::Damaged { at: 16 },
        "halts: the journal is damaged at 16\n",
    ),
    (Status::NoMemory, "halts: out of memory\n"),
    (
        Status::BadText { line: 2 },
        "halts: line 2 is not understood\n",
    ),
    (Status::NotAtDay, "halts: the last record is not a day\n"),
    (
        Status::Breach { place: 5, law: 1 },
        "halts: law 1 is broken at frame 5\n",
    ),
    (
        Status::Breach { place: 5, law: 2 },
        "halts: law 2 is broken at frame 5\n",
    ),
    (
        Status::Breach { place: 5, law: 3 },
        "halts: law 3 is broken at frame 5\n",
    ),
    (
        Status::Breach { place: 5, law: 4 },
        "halts: law 4 is broken at frame 5\n",
    ),
    (
        Status::Breach { place: 5, law: 5 },
        "halts: law 5 is broken at frame 5\n",
    ),
    (
        Status::Breach { place: 5, law: 6 },
        "halts: law 6 is broken at frame 5\n",
    ),
    (
        Status::Breach { place: 5, law: 7 },
        "halts: law 7 is broken at frame 5\n",
    ),
    (
        Status::Breach { place: 5, law: 8 },
        "halts: a law is broken at frame 5\n",
    ),
];

/// Tells an end by a line, and answers whether it was taken.
fn is_taken<W: Write + Drop>(told: W, status: Status) -> bool {
    tell(&mut Stream::new(told), status).is_ok()
}

/// The end is told by this line.
fn expect_line<R: Abort + AllocGlobal>(rt: &R, status: Status, line: &str) {
    let mut told = Vec::new(rt.alloc());
    let is_told = is_taken(&mut told, status);
    assert!(rt;
        is_told && told.as_slice() == line.as_bytes(),
        "of {status:?}"
    );
}

#[test]
fn a_status_is_told_in_one_line_and_done_by_none(rt: HostRuntime) {
    for (status, line) in LINES {
        expect_line(&rt, *status, line);
    }
}

/// Ends by a status, and answers whether its line was taken.
fn is_ended<W: Write + Drop>(told: W, status: Status) -> bool {
    end(&mut Stream::new(told), status).told.is_ok()
}

#[test]
fn an_end_tells_its_line(rt: HostRuntime) {
    let mut told = Vec::new(rt.alloc());
    let is_told = is_ended(&mut told, Status::NoJournal);
    assert!(rt; is_told && told.as_slice() == b"halts: there is no journal\n".as_slice());
}
