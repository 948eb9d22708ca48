//! What is told on standard error of how a run ended.

ghost use Rattle.std.specs.Prelude.{◌≡◌, None, option_map, OnOk, OnErr, IsOk};
ghost use Rattle.std.specs.Io.KnownBytes.{Appends};
ghost use Rattle.std.specs.Process.{exit_status};
ghost use Rattle.host_core.specs.Outside.{raised};
ghost use Rattle.host_core.specs.Statuses.{code_of};
ghost use Rattle.host_core.specs.Streams.{AppendsPart, words_of};
ghost use Rattle.command_core.specs.Told.{broken_law, line_of, told_of};

use host_core::{Sink, Status, StatusLine, tell_line};
use std::io;
use std::process::ExitCode;

/// How a process ends.
#[derive(Debug, Drop)]
pub struct Ending {
    /// The exit code, which stands where the line can't be written.
    pub code: ExitCode,
    /// Whether the line was written.
    pub told: io::Result<()>,
}

/// What is told of a law of that number, up to the frame that breaks it.
fn broken_law(law: u8) -> &'static str
    ensures { result.now ≡ broken_law law }
{
    match law {
        1 => "halts: law 1 is broken at frame ",
        2 => "halts: law 2 is broken at frame ",
        3 => "halts: law 3 is broken at frame ",
        4 => "halts: law 4 is broken at frame ",
        5 => "halts: law 5 is broken at frame ",
        6 => "halts: law 6 is broken at frame ",
        7 => "halts: law 7 is broken at frame ",
        _ => "halts: a law is broken at frame ",
    }
}

/// The line that tells of a status; none where all went well.
pub fn status_line(status: Status) -> Option<StatusLine>
    ensures { option_map words_of result ≡ line_of status }
{
    match status {
        Status::Done => None,
        Status::Usage => Some(StatusLine::plain(
            "halts: usage: halts <journal> format|serve|replay|status|print|pack|generate|roll|board|cross|audit|ship|standby",
        )),
        Status::Truncated => Some(StatusLine::plain("halts: the input ends inside a frame")),
        Status::ReadFault => Some(StatusLine::plain("halts: the input could not be read")),
        Status::SendFault => Some(StatusLine::plain("halts: the output could not be written")),
        Status::DiskFault => Some(StatusLine::plain(
            "halts: the journal could not be read or written",
        )),
        Status::SessionFull => Some(StatusLine::plain(
            "halts: the bytes of the session are used up",
        )),
        Status::Damaged { at } => Some(StatusLine {
            before: "halts: the journal is damaged at ",
            number: Some(at),
            after: "",
        }),
        Status::NoJournal => Some(StatusLine::plain("halts: there is no journal")),
        Status::NoMemory => Some(StatusLine::plain("halts: out of memory")),
        Status::BadText { line } => Some(StatusLine {
            before: "halts: line ",
            number: Some(line),
            after: " is not understood",
        }),
        Status::NotAtDay => Some(StatusLine::plain("halts: the last record is not a day")),
        Status::Breach { place, law } => Some(StatusLine {
            before: broken_law(law),
            number: Some(place),
            after: "",
        }),
    }
}

/// Tells a sink how a run ended that didn't go well.
pub fn tell<W: Sink>(sink: &mut W, status: Status) -> io::Result<()>
    // The line of the status with its newline, and nothing at the good end.
    ensures told { OnOk result (Appends (W.contents sink.old) (W.contents sink.new) (told_of status)) }
    ensures partly { OnErr result (AppendsPart (W.contents sink.old) (W.contents sink.new) (told_of status)) }
    // An error comes only where the sink told one.
    ensures failed { OnErr result (W.failures sink.new ≡ raised (W.failures sink.old)) }
    ensures fine { OnOk result (W.failures sink.new ≡ W.failures sink.old) }
    ensures silent { line_of status ≡ None → IsOk result }
    ensures untouched { line_of status ≡ None → sink.new ≡ sink.old }
{
    tell_line(sink, status_line(status))
}

/// Tells a sink how a run ended, and answers how the process ends: by the code of the status, whatever became of the line.
pub fn end<W: Sink>(sink: &mut W, status: Status) -> Ending
    ensures code { exit_status result.code ≡ code_of status }
    ensures told { OnOk result.told (Appends (W.contents sink.old) (W.contents sink.new) (told_of status)) }
    ensures partly { OnErr result.told (AppendsPart (W.contents sink.old) (W.contents sink.new) (told_of status)) }
    ensures failed { OnErr result.told (W.failures sink.new ≡ raised (W.failures sink.old)) }
    ensures fine { OnOk result.told (W.failures sink.new ≡ W.failures sink.old) }
{
    let told = tell(sink, status);
    Ending {
        code: ExitCode::from(status.code()),
        told,
    }
}
