//! The ways to run a day.

use crate::day::Day;
use crate::published::{add_printed, add_text, packed};
use crate::rolled::{add_stated, serve_rolled};
use crate::shown::add_board;
use crate::stated::{add_cut, add_messages, add_replayed, numbered};
use crate::taken_over::serve_second;
use crate::text::{DayError, is_ack, is_answer, push_line};
use afresh_core::{afresh, is_lawful};
use audit_core::audit_stream;
use command_core::run;
use host_core::Status;
use journal_core::format;
use live_core::{ServeOptions, serve};
use memory_host::MemoryHost;
use replay_core::{ReplayOptions, replay};
use std::alloc::Global;
use std::fmt::{self, Display, Formatter, Write};
use std::thread::Threads;
use wire_in::{Record, decode};
use wire_out::{Frame, Stamped, put_frame};
use yard_core::OpenGate;

/// The most bytes that a session reads.
const BYTES_MAX: u64 = 1_099_511_627_776;

/// The most records that a journal may take.
const LIMIT_MAX: u64 = 2_000_000_000;

/// The most bytes that a board reads.
const BOARD_BYTES_MAX: u64 = 1_073_741_824;

/// How many records a journal takes where nothing else is said.
const LIMIT: u64 = 100_000_000;

/// A way to run a day.
#[derive(Clone, Copy)]
pub enum Way {
    /// A session over an empty journal, in batches of so many frames.
    Serve { batch: u32, workers: u32 },
    Replay { workers: u32 },
    /// A session that ends behind so many frames, and another by so many workers.
    Cut { frames: usize, workers: u32 },
    /// Sessions by so many workers, each of which ends behind an accepted record that begins a day; then the journal is rolled.
    Rolled { workers: u32 },
    /// A session that ends behind so many frames, whose journal is shipped to a second one, and another session over that.
    TakenOver { frames: usize },
    /// The evaluation of the accepted records from the whole list, by the definitions alone.
    Plain,
    /// An audit of the messages and refusals that are stated of one day.
    Audit,
    /// Where each symbol stands at the end.
    Board,
}

impl Display for Way {
    fn fmt<W: Write>(&self, f: &mut Formatter<W>) -> fmt::Result {
        match *self {
            Way::Serve { batch, workers } => {
                write!(f, "serve --batch {batch} --workers {workers}")
            }
            Way::Replay { workers } => write!(f, "replay --workers {workers}"),
            Way::Cut { frames, workers } => {
                write!(
                    f,
                    "serve up to frame {frames}, then serve --workers {workers} --from 1"
                )
            }
            Way::Rolled { workers } => {
                write!(
                    f,
                    "serve --workers {workers} up to each day, and roll behind it"
                )
            }
            Way::TakenOver { frames } => {
                write!(
                    f,
                    "serve up to frame {frames}, ship to a standby, then serve --from 1 there"
                )
            }
            Way::Plain => write!(f, "the plain evaluation"),
            Way::Audit => write!(f, "audit"),
            Way::Board => write!(f, "board"),
        }
    }
}

/// A host over an input and an empty journal, which takes so many records where that is said.
pub fn over_journal(
    alloc: Global,
    input: &[u8],
    limit: Option<u64>,
) -> Result<MemoryHost, DayError> {
    let mut host = MemoryHost::new(alloc, b"", b"")?;
    if format(&mut host, limit.unwrap_or(LIMIT).clamp(1, LIMIT_MAX)).is_err() {
        return Err(DayError::NoMemory);
    }
    Ok(MemoryHost::new(alloc, input, host.disk())?)
}

/// Serves what a host reads.
pub fn served<Rt: Threads + Sync>(
    rt: &Rt,
    alloc: Global,
    host: &mut MemoryHost,
    options: ServeOptions,
) -> Status {
    let options = ServeOptions {
        workers: options.workers.clamp(1, 64),
        batch: options.batch.clamp(1, 64),
        bytes: options.bytes.min(BYTES_MAX),
        ..options
    };
    serve(rt, alloc, host, &OpenGate, &options)
}

/// Whether a session over a day and an empty journal leaves this disk.
fn leaves<Rt: Threads + Sync>(
    rt: &Rt,
    alloc: Global,
    day: &Day,
    options: ServeOptions,
    disk: &[u8],
) -> Result<bool, DayError> {
    let mut host = over_journal(alloc, &day.input, day.limit)?;
    served(rt, alloc, &mut host, options);
    Ok(host.disk() == disk)
}

/// Serves a day over an empty journal.
fn serve_day<Rt: Threads + Sync>(
    rt: &Rt,
    alloc: Global,
    day: &Day,
    options: ServeOptions,
    sent: &mut String,
) -> Result<bool, DayError> {
    let mut host = over_journal(alloc, &day.input, day.limit)?;
    let is_as_stated = served(rt, alloc, &mut host, options) == day.end;
    add_printed(alloc, sent, host.sent())?;
    let alone = ServeOptions {
        workers: 1,
        ..options
    };
    Ok(leaves(rt, alloc, day, alone, host.disk())? && is_as_stated)
}

/// Replays a day.
fn replay_day<Rt: Threads + Sync>(
    rt: &Rt,
    alloc: Global,
    day: &Day,
    workers: u32,
    sent: &mut String,
) -> Result<bool, DayError> {
    let mut host = MemoryHost::new(alloc, &day.input, b"")?;
    let options = ReplayOptions {
        workers: workers.clamp(1, 64),
        bytes: day.most.min(BYTES_MAX),
    };
    let is_as_stated = replay(rt, alloc, &mut host, &OpenGate, &options) == day.end;
    add_printed(alloc, sent, host.sent())?;
    Ok(is_as_stated)
}

/// How many bytes the first frames of an input have, with those that the last one lacks.
pub fn bytes_of(input: &[u8], frames: usize) -> usize {
    let mut bytes: usize = 0;
    for _ in 0..frames {
        let Some(len) = input.get(bytes) else {
            return bytes;
        };
        bytes = bytes.saturating_add(usize::from(*len)).saturating_add(1);
    }
    bytes
}

/// The first frames of an input, and the others; nothing of both where the last of the first isn't whole.
pub fn split_behind(input: &[u8], frames: usize) -> (&[u8], &[u8]) {
    match input.split_at_checked(bytes_of(input, frames)) {
        Some(parts) => parts,
        None => (&input[..0], &input[..0]),
    }
}

/// Serves what a host reads over its journal, to a good end.
fn serve_well<Rt: Threads + Sync>(
    rt: &Rt,
    alloc: Global,
    host: &mut MemoryHost,
    options: ServeOptions,
    sent: &mut String,
) -> Result<bool, DayError> {
    let end = served(rt, alloc, host, options);
    add_printed(alloc, sent, host.sent())?;
    Ok(end == Status::Done)
}

/// Serves the first frames of a day, and then, from message 1 on, the others over what the journal holds.
fn serve_in_two<Rt: Threads + Sync>(
    rt: &Rt,
    alloc: Global,
    day: &Day,
    frames: usize,
    workers: u32,
    sent: &mut String,
) -> Result<bool, DayError> {
    let options = ServeOptions {
        from: None,
        workers: 1,
        batch: 64,
        bytes: BYTES_MAX,
    };
    let again = ServeOptions {
        from: Some(1),
        workers,
        ..options
    };
    let (first, then) = split_behind(&day.input, frames);
    let mut before = over_journal(alloc, first, None)?;
    let is_first_well = serve_well(rt, alloc, &mut before, options, sent)?;
    let mut after = MemoryHost::new(alloc, then, before.disk())?;
    Ok(serve_well(rt, alloc, &mut after, again, sent)? && is_first_well)
}

/// The body of the first frame of a stream, and what stands behind it.
fn first_body(stream: &[u8]) -> (&[u8], &[u8]) {
    match stream.split_first() {
        Some((len, behind)) => behind.split_at(usize::from(*len).min(behind.len())),
        None => (stream, stream),
    }
}

/// Puts the record that a body says behind others.
fn add_record(records: &mut Vec<Record>, body: &[u8]) -> Result<(), DayError> {
    if let Ok(x) = decode(&body[..body.len().min(255)]) {
        records.extend_from_slice(&[x])?;
    }
    Ok(())
}

/// Puts the records of the frames that the second file acknowledges behind others.
fn add_accepted(records: &mut Vec<Record>, day: &Day) -> Result<(), DayError> {
    let mut rest = day.input.as_slice();
    for line in day.served.lines() {
        if is_answer(line) {
            let (body, behind) = first_body(rest);
            if is_ack(line) {
                add_record(records, body)?;
            }
            rest = behind;
        }
    }
    Ok(())
}

/// The records of the frames that the second file acknowledges.
pub fn accepted(alloc: Global, day: &Day) -> Result<Vec<Record>, DayError> {
    let mut records = Vec::new(alloc);
    add_accepted(&mut records, day)?;
    Ok(records)
}

/// How many accepted records begin a day.
pub fn days(alloc: Global, day: &Day) -> Result<usize, DayError> {
    let records = accepted(alloc, day)?;
    Ok(records.iter().filter(|x| x.is_day()).count())
}

/// The frames of messages, numbered from 1 on.
fn frames_of(alloc: Global, messages: &[Stamped]) -> Result<Vec<u8>, DayError> {
    let mut frames = Vec::new(alloc);
    let mut number: u64 = 0;
    for stamped in messages {
        number = number.saturating_add(1);
        let frame = Frame::Numbered {
            number,
            stamped: *stamped,
        };
        let mut cell = [0; 64];
        let len = put_frame(&frame, &mut cell);
        frames.extend_from_slice(&cell[..len])?;
    }
    Ok(frames)
}

/// Puts the lines of messages, numbered from 1 on, behind a text.
fn add_numbered(alloc: Global, text: &mut String, messages: &[Stamped]) -> Result<(), DayError> {
    let frames = frames_of(alloc, messages)?;
    add_printed(alloc, text, &frames)
}

/// Evaluates records by the definitions alone. Answers whether they may be a day.
fn evaluate(alloc: Global, records: &[Record], sent: &mut String) -> Result<bool, DayError> {
    if !is_lawful(alloc, records)? {
        return Ok(false);
    }
    let messages = afresh(alloc, records)?;
    add_numbered(alloc, sent, &messages)?;
    Ok(true)
}

/// Evaluates the accepted records of a day by the definitions alone.
fn evaluate_day(alloc: Global, day: &Day, sent: &mut String) -> Result<bool, DayError> {
    let records = accepted(alloc, day)?;
    evaluate(alloc, &records, sent)
}

/// Audits the frames of published lines.
fn audit(alloc: Global, lines: &str, sent: &mut String) -> Result<bool, DayError> {
    let mut host = packed(alloc, lines)?;
    let end = audit_stream(alloc, &mut host);
    add_text(sent, host.sent())?;
    Ok(end == Status::Done)
}

/// Audits the messages and refusals that are stated of one day.
fn audit_day(alloc: Global, day: &Day, sent: &mut String) -> Result<bool, DayError> {
    let mut lines = String::new(alloc);
    add_replayed(&mut lines, &day.served)?;
    audit(alloc, &lines, sent)
}

/// Tells where each symbol of a day stands at its end, in a command of these words.
fn show<Rt: Threads + Sync>(
    rt: &Rt,
    alloc: Global,
    day: &Day,
    words: &[&str],
    sent: &mut String,
) -> Result<bool, DayError> {
    let mut host = MemoryHost::new(alloc, &day.input, b"")?;
    let end = run(rt, alloc, words, &mut host, &OpenGate);
    add_text(sent, host.sent())?;
    Ok(end == day.end)
}

/// Tells where each symbol of a day stands at its end.
fn show_day<Rt: Threads + Sync>(
    rt: &Rt,
    alloc: Global,
    day: &Day,
    sent: &mut String,
) -> Result<bool, DayError> {
    let bytes = format!(in alloc; "{}", day.most.min(BOARD_BYTES_MAX))?;
    show(rt, alloc, day, &["board", "--bytes", bytes.as_str()], sent)
}

/// Puts what an audit answers of a day behind a text.
fn add_clean(alloc: Global, text: &mut String, served: &str) -> Result<(), DayError> {
    let line = format!(in alloc; "clean {}", numbered(served))?;
    Ok(push_line(text, &line)?)
}

impl Way {
    /// Runs a day in this way, and puts the lines of what is sent behind a text. Answers whether it ends with the status that is
    /// stated, and leaves the journal that one worker leaves.
    pub fn run<Rt: Threads + Sync>(
        self,
        rt: &Rt,
        alloc: Global,
        day: &Day,
        sent: &mut String,
    ) -> Result<bool, DayError> {
        match self {
            Way::Serve { batch, workers } => {
                let options = ServeOptions {
                    from: None,
                    workers,
                    batch,
                    bytes: day.most,
                };
                serve_day(rt, alloc, day, options, sent)
            }
            Way::Replay { workers } => replay_day(rt, alloc, day, workers, sent),
            Way::Cut { frames, workers } => serve_in_two(rt, alloc, day, frames, workers, sent),
            Way::Rolled { workers } => serve_rolled(rt, alloc, day, workers, sent),
            Way::TakenOver { frames } => serve_second(rt, alloc, day, frames, sent),
            Way::Plain => evaluate_day(alloc, day, sent),
            Way::Audit => audit_day(alloc, day, sent),
            Way::Board => show_day(rt, alloc, day, sent),
        }
    }

    /// Puts the lines that are stated of this way behind a text.
    pub fn state(self, alloc: Global, day: &Day, text: &mut String) -> Result<(), DayError> {
        match self {
            Way::Serve { .. } => Ok(text.push_str(&day.served)?),
            Way::Replay { .. } => Ok(add_replayed(text, &day.served)?),
            Way::Cut { frames, .. } | Way::TakenOver { frames } => {
                add_cut(alloc, text, &day.served, frames)
            }
            Way::Rolled { .. } => add_stated(alloc, text, day),
            Way::Plain => Ok(add_messages(text, &day.served)?),
            Way::Audit => add_clean(alloc, text, &day.served),
            Way::Board => add_board(alloc, text, &day.served),
        }
    }
}
