//! Published lines, read into the messages of one day.

ghost use Rattle.std.specs.Prelude.{◌≡◌, ◌+◌, ◌<◌, ◌≤◌, ◌⊎◌, ◌++◌, ◌^◌, ℕ, List, [], Some, Ok, true, false, length, IfOk, IfErr, OnOk, OnErr, IfSome};
ghost use Rattle.std.specs.Io.BufRead.{strip_last, take_through, DropsThrough};
ghost use Rattle.std.specs.Io.KnownBytes.{IsAtEnd};
ghost use Rattle.host_core.specs.declared.status.Status.TheVariants.{ReadFault, NoMemory, BadText};
ghost use Rattle.host_core.specs.Outside.{raised};
ghost use Rattle.wire_out.specs.declared.message.Frame.{Frame};
ghost use Rattle.text_core.specs.Lines.{PrintsFrame};
ghost use Rattle.picture_core.specs.Shown.{message_of};
ghost use Rattle.picture_core.specs.Days.{days_after};
ghost use Rattle.picture_core.specs.Reads.{HasRead, IsRead, Stops, Hinders};

use crate::day::DayKeeper;
use crate::shown::message_of;
use host_core::{LineSource, Status};
use std::alloc::Global;
use std::io::{self, ErrorKind};
use text_core::read_frame;
use wire_out::Frame;

/// The status of a failed read.
fn status_of(error: io::Error) -> Status
    ensures { (result ≡ NoMemory) ⊎ (result ≡ ReadFault) }
{
    if error.kind() == ErrorKind::OutOfMemory {
        Status::NoMemory
    } else {
        Status::ReadFault
    }
}

/// Reads a line with its newline into an empty buffer, and answers whether there was one.
fn next_line<R: LineSource>(reader: &mut R, line: &mut Vec<u8>) -> Result<bool, Status>
    ensures given { OnOk result (IfSome (R.remaining reader.old) (λ text. line.new.items ≡ take_through 10 text)) }
    ensures rest { OnOk result (DropsThrough (R.remaining reader.old) (R.remaining reader.new) 10) }
    ensures more { result ≡ Ok true → IfSome (R.remaining reader.old) (λ text. 0 < length text) }
    ensures end { result ≡ Ok false → IfSome (R.remaining reader.old) (λ text. text ≡ []) }
    ensures fault { IfErr result (λ s. (s ≡ NoMemory) ⊎ (s ≡ ReadFault)) }
    ensures failed { OnErr result (R.failures reader.new ≡ raised (R.failures reader.old)) }
    ensures fine { OnOk result (R.failures reader.new ≡ R.failures reader.old) }
{
    line.clear();
    match reader.read_line(line) {
        Ok(count) => Ok(count > 0),
        Err(error) => Err(status_of(error)),
    }
}

/// A line without the newline at its end.
fn without_newline(line: &[u8]) -> &[u8]
    ensures { result.now ≡ strip_last 10 line.now }
{
    if line.len() > 0 && line[line.len() - 1] == b'\n' {
        &line[..line.len() - 1]
    } else {
        line
    }
}

/// Takes the message of a frame, where it has one.
fn take(days: &mut DayKeeper, wanted: Option<u64>, frame: &Frame) -> Result<(), Status>
    requires { days.old.count + 1 < 2 ^ 64 }
    ensures exact { OnOk result (days.new ≡ days_after wanted days.old (message_of frame.now)) }
    ensures bound { OnOk result (days.new.count ≤ days.old.count + 1) }
    ensures memory { IfErr result (λ s. s ≡ NoMemory) }
{
    let Some(message) = message_of(frame) else {
        return Ok(());
    };
    match days.take(wanted, &message) {
        Ok(()) => Ok(()),
        Err(_) => Err(Status::NoMemory),
    }
}

/// Takes a line with its newline, which is of that number.
fn take_line(
    line: &[u8],
    number: u64,
    wanted: Option<u64>,
    days: &mut DayKeeper,
) -> Result<(), Status>
    requires { days.old.count + 1 < 2 ^ 64 }
    ensures printed { OnOk result ((frame : Frame) × PrintsFrame (strip_last 10 line.now) frame × (days.new ≡ days_after wanted days.old (message_of frame))) }
    ensures bound { OnOk result (days.new.count ≤ days.old.count + 1) }
    ensures stopped { IfErr result (λ s. (s ≡ NoMemory) ⊎ ((s ≡ BadText number) × ((frame : Frame) → PrintsFrame (strip_last 10 line.now) frame → ⊥))) }
{
    match read_frame(without_newline(line)) {
        Ok(frame) => take(days, wanted, &frame),
        Err(_) => Err(Status::BadText { line: number }),
    }
}

/// Reads and takes a line behind so many others, and answers whether there was one.
fn read_turn<R: LineSource>(
    reader: &mut R,
    line: &mut Vec<u8>,
    before: u64,
    wanted: Option<u64>,
    days: &mut DayKeeper,
) -> Result<bool, Status>
    requires lines { before + 1 < 2 ^ 64 }
    requires days { days.old.count ≤ before }
    ensures goes { result ≡ Ok true → (text : List ℕ) → HasRead wanted text (R.remaining reader.old) before days.old → HasRead wanted text (R.remaining reader.new) (before + 1) days.new }
    ensures ended { result ≡ Ok false → (text : List ℕ) → HasRead wanted text (R.remaining reader.old) before days.old → IsRead wanted text days.new }
    ensures stopped { IfErr result (λ s. (text : List ℕ) → HasRead wanted text (R.remaining reader.old) before days.old → Stops s text) }
    ensures bound { OnOk result (days.new.count ≤ before + 1) }
    ensures cause { IfErr result Hinders }
    ensures failed { IfErr result (λ s. s ≡ ReadFault → R.failures reader.new ≡ raised (R.failures reader.old)) }
    ensures fine { OnOk result (R.failures reader.new ≡ R.failures reader.old) }
{
    if next_line(reader, line)? {
        take_line(line, before + 1, wanted, days)?;
        Ok(true)
    } else {
        Ok(false)
    }
}

/// Reads all lines, and answers their days, with the messages of the one that is asked for.
pub fn read_days<R: LineSource>(
    alloc: Global,
    wanted: Option<u64>,
    reader: &mut R,
) -> Result<DayKeeper, Status>
    // The lines of the whole input print frames.
    ensures read { IfOk result (λ days. IfSome (R.remaining reader.old) (λ text. IsRead wanted text days)) }
    // A line that prints none, a failed read or want of memory.
    ensures stopped { IfErr result (λ s. IfSome (R.remaining reader.old) (Stops s)) }
    ensures cause { IfErr result Hinders }
    // A failed read is one that the reader told.
    ensures failed { IfErr result (λ s. s ≡ ReadFault → R.failures reader.new ≡ raised (R.failures reader.old)) }
    ensures fine { OnOk result (R.failures reader.new ≡ R.failures reader.old) }
{
    let mut line = Vec::new(alloc);
    let mut days = DayKeeper::new(alloc);
    for before in 0..u64::MAX {
        if !read_turn(reader, &mut line, before, wanted, &mut days)? {
            return Ok(days);
        }
    }
    // So many lines have no room.
    Err(Status::NoMemory)
}
