//! What is told on standard error of how a run ended.

ghost use Rattle.std.specs.Prelude.{◌≡◌, None, option_map, OnOk, OnErr};
ghost use Rattle.std.specs.Io.KnownBytes.{Appends};
ghost use Rattle.std.specs.Process.{exit_status};
ghost use Rattle.host_core.specs.Outside.{raised};
ghost use Rattle.host_core.specs.Streams.{AppendsPart, words_of};
ghost use Rattle.picture_core.specs.Outcomes.{exit_code};
ghost use Rattle.picture_core.specs.Told.{status_line, line_of, told_of};

use crate::outcome::Outcome;
use host_core::{Sink, Status, StatusLine, tell_line};
use std::io;
use std::process::ExitCode;

/// How a process ends.
#[derive(Debug, Drop)]
pub struct Ending {
    /// The exit code, which stands where the line can't be written.
    pub code: ExitCode,
    /// Whether the line was written.
    pub told: io::Result<()>,
}

/// The line that tells of a run that didn't go well.
fn status_line(status: Status) -> Option<StatusLine>
    ensures { option_map words_of result ≡ status_line status }
{
    match status {
        Status::Usage => Some(StatusLine::plain("chart: usage: chart [<symbol>] [--day <number>]")),
        Status::ReadFault => Some(StatusLine::plain("chart: the input could not be read")),
        Status::SendFault => Some(StatusLine::plain("chart: the output could not be written")),
        Status::NoMemory => Some(StatusLine::plain("chart: out of memory")),
        Status::BadText { line } => Some(StatusLine {
            before: "chart: line ",
            number: Some(line),
            after: " is not understood",
        }),
        _ => None,
    }
}

/// The line that tells of an end that isn't Done.
fn line(outcome: Outcome) -> Option<StatusLine>
    ensures { option_map words_of result ≡ line_of outcome }
{
    match outcome {
        Outcome::Ended(status) => status_line(status),
        Outcome::NoDay => Some(StatusLine::plain("chart: the input has no such day")),
        Outcome::NoSymbol => Some(StatusLine::plain("chart: the day has no such symbol")),
    }
}

/// Tells a sink how a run ended, and answers how the process ends: by the code of that, whatever became of the line.
pub fn end<W: Sink>(sink: &mut W, outcome: Outcome) -> Ending
    ensures code { exit_status result.code ≡ exit_code outcome }
    ensures told { OnOk result.told (Appends (W.contents sink.old) (W.contents sink.new) (told_of outcome)) }
    ensures partly { OnErr result.told (AppendsPart (W.contents sink.old) (W.contents sink.new) (told_of outcome)) }
    ensures failed { OnErr result.told (W.failures sink.new ≡ raised (W.failures sink.old)) }
    ensures fine { OnOk result.told (W.failures sink.new ≡ W.failures sink.old) }
    ensures untouched { line_of outcome ≡ None → sink.new ≡ sink.old }
{
    let told = tell_line(sink, line(outcome));
    Ending {
        code: ExitCode::from(outcome.code()),
        told,
    }
}
