//! The lines of a cross, read into what they tell.

ghost use Rattle.std.specs.Prelude.{◌≡◌, ◌+◌, ◌<◌, ◌⊎◌, ◌^◌, ℕ, List, [], Some, None, Ok, true, false, length, IfOk, IfErr, OnOk, OnErr, IfSome};
ghost use Rattle.std.specs.Io.BufRead.{strip_last, take_through, DropsThrough};
ghost use Rattle.host_core.specs.declared.status.Status.TheVariants.{ReadFault, NoMemory, BadText};
ghost use Rattle.host_core.specs.Outside.{raised};
ghost use Rattle.cross_chart.specs.declared.line.CrossLine.{CrossLine};
ghost use Rattle.cross_chart.specs.Lines.{Says};
ghost use Rattle.cross_chart.specs.Sketches.{is_last, with_line};
ghost use Rattle.cross_chart.specs.Reads.{HasRead, IsRead, Stops, Hinders};

use crate::line_reading::read_line;
use crate::sketch::Sketch;
use host_core::{LineSource, Status};
use std::alloc::Global;
use std::io::{self, ErrorKind};

/// The status of a failed read.
fn status_of(error: io::Error) -> Status
    ensures { (result ≡ NoMemory) ⊎ (result ≡ ReadFault) }
{
    if error.kind() == ErrorKind::OutOfMemory {
        Status::NoMemory
    } else {
        Status::ReadFault
    }
}

/// Reads a line with its newline into an empty buffer, and answers whether there was one.
fn next_line<R: LineSource>(reader: &mut R, line: &mut Vec<u8>) -> Result<bool, Status>
    ensures given { OnOk result (IfSome (R.remaining reader.old) (λ text. line.new.items ≡ take_through 10 text)) }
    ensures rest { OnOk result (DropsThrough (R.remaining reader.old) (R.remaining reader.new) 10) }
    ensures more { result ≡ Ok true → IfSome (R.remaining reader.old) (λ text. 0 < length text) }
    ensures end { result ≡ Ok false → IfSome (R.remaining reader.old) (λ text. text ≡ []) }
    ensures fault { IfErr result (λ s. (s ≡ NoMemory) ⊎ (s ≡ ReadFault)) }
    ensures failed { OnErr result (R.failures reader.new ≡ raised (R.failures reader.old)) }
    ensures fine { OnOk result (R.failures reader.new ≡ R.failures reader.old) }
{
    line.clear();
    match reader.read_line(line) {
        Ok(count) => Ok(count > 0),
        Err(error) => Err(status_of(error)),
    }
}

/// A line without the newline at its end.
fn without_newline(line: &[u8]) -> &[u8]
    ensures { result.now ≡ strip_last 10 line.now }
{
    if line.len() > 0 && line[line.len() - 1] == b'\n' {
        &line[..line.len() - 1]
    } else {
        line
    }
}

/// Takes a line with its newline, which is of that number.
fn take_line(line: &[u8], number: u64, sketch: &mut Sketch) -> Result<(), Status>
    ensures told { OnOk result ((x : CrossLine) × Says (strip_last 10 line.now) x × (with_line sketch.old x ≡ Some sketch.new)) }
    ensures stopped { IfErr result (λ s. (s ≡ NoMemory) ⊎ ((s ≡ BadText number) × ((x : CrossLine) → Says (strip_last 10 line.now) x → with_line sketch.old x ≡ None))) }
{
    match read_line(without_newline(line)) {
        Ok(x) => sketch.take(&x, number),
        Err(_) => Err(Status::BadText { line: number }),
    }
}

/// Reads and takes a line behind so many others, and answers whether there was one.
fn read_turn<R: LineSource>(
    reader: &mut R,
    line: &mut Vec<u8>,
    before: u64,
    sketch: &mut Sketch,
) -> Result<bool, Status>
    requires { before + 1 < 2 ^ 64 }
    ensures goes { result ≡ Ok true → (text : List ℕ) → HasRead text (R.remaining reader.old) before sketch.old → HasRead text (R.remaining reader.new) (before + 1) sketch.new }
    ensures same { result ≡ Ok false → sketch.new ≡ sketch.old }
    ensures ended { result ≡ Ok false → IfSome (R.remaining reader.old) (λ text. text ≡ []) }
    ensures stopped { IfErr result (λ s. (text : List ℕ) → HasRead text (R.remaining reader.old) before sketch.old → Stops s text) }
    ensures cause { IfErr result Hinders }
    ensures failed { IfErr result (λ s. s ≡ ReadFault → R.failures reader.new ≡ raised (R.failures reader.old)) }
    ensures fine { OnOk result (R.failures reader.new ≡ R.failures reader.old) }
{
    if next_line(reader, line)? {
        take_line(line, before + 1, sketch)?;
        Ok(true)
    } else {
        Ok(false)
    }
}

/// What was read, where the lines may end there, behind so many.
fn whole(sketch: Sketch, before: u64) -> Result<Sketch, Status>
    requires { before + 1 < 2 ^ 64 }
    ensures whole { IfOk result (λ k. (k ≡ sketch) × (is_last sketch.stage ≡ true)) }
    ensures early { IfErr result (λ s. (s ≡ BadText (before + 1)) × (is_last sketch.stage ≡ false)) }
{
    if sketch.is_whole() {
        Ok(sketch)
    } else {
        Err(Status::BadText { line: before + 1 })
    }
}

/// Reads all lines of a cross, and answers what they tell.
pub fn read_cross<R: LineSource>(alloc: Global, reader: &mut R) -> Result<Sketch, Status>
    ensures read { IfOk result (λ sketch. IfSome (R.remaining reader.old) (λ text. IsRead text sketch)) }
    // A line that may not stand where it does, an end that comes early, a failed read or want of memory.
    ensures stopped { IfErr result (λ s. IfSome (R.remaining reader.old) (Stops s)) }
    ensures cause { IfErr result Hinders }
    // A failed read is one that the reader told.
    ensures failed { IfErr result (λ s. s ≡ ReadFault → R.failures reader.new ≡ raised (R.failures reader.old)) }
    ensures fine { OnOk result (R.failures reader.new ≡ R.failures reader.old) }
{
    let mut line = Vec::new(alloc);
    let mut sketch = Sketch::new(alloc);
    for before in 0..u64::MAX {
        if !read_turn(reader, &mut line, before, &mut sketch)? {
            return whole(sketch, before);
        }
    }
    // So many lines have no room.
    Err(Status::NoMemory)
}
