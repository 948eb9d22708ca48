//! The program started over readers, writers and a real file.

use super::{again, expect, fall, session, session_over};
use command_core::{host_of, perform};
use host_core::{Held, Host, Status, Stream, SystemFiles};
use std::io::{self, Read, Write};
use std::os::unix::fs::FileExt;
use std::process::Abort;
use std::rt::Files;
use std::thread::Threads;
use test_days::Session;
use yard_core::OpenGate;

/// An input that can't be read.
#[derive(Drop)]
struct Unreadable;

impl Read for Unreadable {
    fn read(&mut self, buf: &mut [u8]) -> io::Result<usize> {
        let _ = buf;
        Err(io::ErrorKind::Other.into())
    }
}

/// An output that takes nothing.
#[derive(Drop)]
struct Closed;

impl Write for Closed {
    fn write(&mut self, buf: &[u8]) -> io::Result<usize> {
        let _ = buf;
        Err(io::ErrorKind::BrokenPipe.into())
    }

    fn flush(&mut self) -> io::Result<()> {
        Ok(())
    }
}

/// Does what words say over a host.
fn performs<Rt: AllocGlobal + Threads + Sync, H: Host + Drop>(
    rt: &Rt,
    args: &[&str],
    mut host: H,
) -> Status {
    perform(rt, rt.alloc(), args, &mut host, &OpenGate)
}

/// Does what words say over streams and a real file.
fn start<Rt: AllocGlobal + Files + Threads + Sync, R: Read + Drop, W: Write + Drop>(
    rt: &Rt,
    args: &[&str],
    input: R,
    output: W,
) -> Status
where
    Rt::File: FileExt + Held,
{
    let (input, output) = (Stream::new(input), Stream::new(output));
    performs(rt, args, host_of(args, input, output, SystemFiles::new(rt)))
}

/// Starts the program over an input, compares how it ends, and answers what it sent.
fn sends<Rt: Abort + AllocGlobal + Files + Threads + Sync>(
    rt: &Rt,
    args: &[&str],
    input: &[u8],
    want: Status,
) -> Vec<u8>
where
    Rt::File: FileExt + Held,
{
    let mut sent = Vec::new(rt.alloc());
    let status = start(rt, args, input, &mut sent);
    expect(rt, args, status == want);
    sent
}

/// Makes a file of these bytes.
fn make<Rt: Files>(rt: &Rt, path: &str, bytes: &[u8]) -> io::Result<()> {
    let mut file = std::fs::OpenOptions::new()
        .write(true)
        .create(true)
        .truncate(true)
        .open(rt, path)?;
    file.write_all(bytes)
}

/// Starts the program, which ends well, and compares what it sends.
fn expect_sent<Rt: Abort + AllocGlobal + Files + Threads + Sync>(
    rt: &Rt,
    args: &[&str],
    input: &[u8],
    sent: &[u8],
)
where
    Rt::File: FileExt + Held,
{
    let answers = sends(rt, args, input, Status::Done);
    assert!(rt; answers.as_slice() == sent);
}

/// A session is served over a file.
fn expect_served<Rt: Abort + AllocGlobal + Files + Threads + Sync>(
    rt: &Rt,
    path: &str,
    session: &Session,
)
where
    Rt::File: FileExt + Held,
{
    expect_sent(
        rt,
        &["halts", path, "serve"],
        &session.input,
        &session.served,
    );
}

/// An empty journal that takes 3 records is made, and serves two records of the fall, and then the third.
fn serve_fall<Rt: Abort + AllocGlobal + Files + Threads + Sync>(rt: &Rt, path: &str)
where
    Rt::File: FileExt + Held,
{
    let lines = fall();
    let (two, rest) = lines.split_at(2);
    expect_sent(rt, &["halts", path, "format", "--limit", "3"], b"", b"");
    expect_served(rt, path, &session(rt, two));
    expect_served(rt, path, &session_over(rt, 2, 0, rest));
}

#[test]
fn a_day_in_two_starts_is_the_whole_day(rt: HostRuntime) {
    let path = "two-starts.journal";
    // A file of an earlier run may stand there.
    let _ = std::fs::remove_file(&rt, path);
    serve_fall(&rt, path);
    let serve = ["halts", path, "serve", "--from", "1"];
    expect_sent(&rt, &serve, b"", &again(&rt));
}

/// What is read.
#[derive(Clone, Copy)]
enum Input {
    Nothing,
    Day,
    /// The day without its last byte.
    Cut,
}

/// Words, what is read, and how that ends, one after the other.
const ENDS: &[(&[&str], Input, Status)] = &[
    (
        &["halts", "ends.journal", "format"],
        Input::Nothing,
        Status::Done,
    ),
    (
        &["halts", "ends.journal", "serve"],
        Input::Cut,
        Status::Truncated,
    ),
    (
        &["halts", "-", "replay", "--bytes", "20"],
        Input::Day,
        Status::SessionFull,
    ),
    (
        &["halts", "ends.journal", "serve", "--bytes", "19"],
        Input::Day,
        Status::SessionFull,
    ),
    (&["halts", "-", "serve"], Input::Nothing, Status::DiskFault),
    (&["halts"], Input::Nothing, Status::Usage),
    (&["halts", "ends.journal"], Input::Nothing, Status::Usage),
    (
        &["halts", "serve", "serve", "1"],
        Input::Nothing,
        Status::Usage,
    ),
    (&["halts", "help", "stop"], Input::Nothing, Status::Usage),
    (
        &["halts", "none.journal", "serve"],
        Input::Nothing,
        Status::NoJournal,
    ),
];

/// The bytes that are read of a day.
fn bytes_of(input: Input, day: &[u8]) -> &[u8] {
    match input {
        Input::Nothing => &[],
        Input::Day => day,
        Input::Cut => &day[..day.len().saturating_sub(1)],
    }
}

/// The words end so one after the other.
fn expect_ends<Rt: Abort + AllocGlobal + Files + Threads + Sync>(rt: &Rt, day: &[u8])
where
    Rt::File: FileExt + Held,
{
    for (args, input, want) in ENDS {
        let _sent = sends(rt, args, bytes_of(*input, day), *want);
    }
}

/// An input that can't be read and an output that takes nothing are told.
fn expect_faults<Rt: Abort + AllocGlobal + Files + Threads + Sync>(rt: &Rt, path: &str)
where
    Rt::File: FileExt + Held,
{
    let unread = start(rt, &["halts", "-", "replay"], Unreadable, io::sink());
    let unsent = start(rt, &["halts", path, "serve"], io::empty(), Closed);
    assert!(rt; unread == Status::ReadFault && unsent == Status::SendFault);
}

#[test]
fn each_end_has_its_status(rt: HostRuntime) {
    let path = "ends.journal";
    let _ = std::fs::remove_file(&rt, path);
    let day = session(&rt, &fall());
    expect_ends(&rt, &day.input);
    expect_faults(&rt, path);
}

/// Words that need no journal, and how the text begins that they ask for.
const TEXTS: &[(&[&str], &str)] = &[
    (&["halts", "--help"], "Trading halts"),
    (&["halts", "-h"], "Trading halts"),
    (&["halts", "help"], "Trading halts"),
    (&["halts", "--version"], "halts 0.1.0\n"),
    (&["halts", "-V"], "halts 0.1.0\n"),
    (&["halts", "help", "serve"], "Answers the frames"),
];

/// The words are answered by a text that begins so.
fn expect_text<Rt: Abort + AllocGlobal + Files + Threads + Sync>(
    rt: &Rt,
    args: &[&str],
    begin: &str,
)
where
    Rt::File: FileExt + Held,
{
    let text = sends(rt, args, b"", Status::Done);
    expect(rt, args, text.starts_with(begin.as_bytes()));
}

#[test]
fn help_needs_no_journal(rt: HostRuntime) {
    for (args, begin) in TEXTS {
        expect_text(&rt, args, begin);
    }
}

#[test]
fn a_damaged_file_is_told_at_its_gate(rt: HostRuntime) {
    let path = "damaged.journal";
    let is_made = make(&rt, path, b"HALTJNL1\0\0\0\0\0\0\0\x03\x01\0\0\0\0\0").is_ok();
    assert!(rt; is_made);
    let words = ["halts", path, "serve"];
    let sent = sends(&rt, &words, b"", Status::Damaged { at: 16 });
    assert!(rt; sent.is_empty());
}

#[test]
fn every_code_but_that_of_the_good_end_is_another(rt: HostRuntime) {
    let codes = [
        Status::Usage.code(),
        Status::Truncated.code(),
        Status::ReadFault.code(),
        Status::SendFault.code(),
        Status::DiskFault.code(),
        Status::SessionFull.code(),
        Status::Damaged { at: 16 }.code(),
        Status::NoJournal.code(),
        Status::NoMemory.code(),
        Status::BadText { line: 1 }.code(),
    ];
    assert!(rt; codes == [2, 3, 4, 5, 6, 7, 8, 9, 10, 11] && Status::Done.code() == 0);
}
