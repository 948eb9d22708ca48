//! What is told on standard error of how a run ended.

ghost use Rattle.std.specs.Prelude.{◌≡◌, None, option_map, OnOk, OnErr};
ghost use Rattle.std.specs.Io.KnownBytes.{Appends};
ghost use Rattle.std.specs.Process.{exit_status};
ghost use Rattle.host_core.specs.Outside.{raised};
ghost use Rattle.host_core.specs.Statuses.{code_of};
ghost use Rattle.host_core.specs.Streams.{AppendsPart, words_of};
ghost use Rattle.cross_chart.specs.Told.{line_of, told_of};

use host_core::{Sink, Status, StatusLine, tell_line};
use std::io;
use std::process::ExitCode;

/// How a process ends.
#[derive(Debug, Drop)]
pub struct Ending {
    /// The exit code, which stands where the line can't be written.
    pub code: ExitCode,
    /// Whether the line was written.
    pub told: io::Result<()>,
}

/// The line that tells of a run that didn't go well.
fn line(status: Status) -> Option<StatusLine>
    ensures { option_map words_of result ≡ line_of status }
{
    match status {
        Status::Usage => Some(StatusLine::plain("cross_chart: usage: cross_chart")),
        Status::ReadFault => Some(StatusLine::plain("cross_chart: the input could not be read")),
        Status::SendFault => Some(StatusLine::plain(
            "cross_chart: the output could not be written",
        )),
        Status::NoMemory => Some(StatusLine::plain("cross_chart: out of memory")),
        Status::BadText { line } => Some(StatusLine {
            before: "cross_chart: line ",
            number: Some(line),
            after: " is not understood",
        }),
        _ => None,
    }
}

/// Tells a sink how a run ended, and answers how the process ends: by the code of that, whatever became of the line.
pub fn end<W: Sink>(sink: &mut W, status: Status) -> Ending
    ensures code { exit_status result.code ≡ code_of status }
    ensures told { OnOk result.told (Appends (W.contents sink.old) (W.contents sink.new) (told_of status)) }
    ensures partly { OnErr result.told (AppendsPart (W.contents sink.old) (W.contents sink.new) (told_of status)) }
    ensures failed { OnErr result.told (W.failures sink.new ≡ raised (W.failures sink.old)) }
    ensures fine { OnOk result.told (W.failures sink.new ≡ W.failures sink.old) }
    ensures untouched { line_of status ≡ None → sink.new ≡ sink.old }
{
    let told = tell_line(sink, line(status));
    Ending {
        code: ExitCode::from(status.code()),
        told,
    }
}
