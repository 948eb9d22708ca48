//! The top call: an auction is read and drawn, over a reader and a sink.

ghost use Rattle.std.specs.Prelude.{◌≡◌, ◌⊎◌, IfOk, IfErr, OnOk, IfSome};
ghost use Rattle.std.specs.Io.KnownBytes.{Appends};
ghost use Rattle.std.specs.String.{string_bytes};
ghost use Rattle.host_core.specs.declared.status.Status.TheVariants.{Done, ReadFault, SendFault, NoMemory};
ghost use Rattle.host_core.specs.Outside.{raised};
ghost use Rattle.host_core.specs.Streams.{AppendsPart};
ghost use Rattle.cross_chart.specs.Pictures.{picture_of};
ghost use Rattle.cross_chart.specs.Reads.{Stops, Hinders};
ghost use Rattle.cross_chart.specs.Runs.{Drawn, Ran, Shows, streams};

use crate::input::read_cross;
use crate::picture::picture;
use crate::sketch::Sketch;
use host_core::{LineSource, Sink, Status, write_all};
use std::alloc::Global;

/// The picture of what was read.
fn picture_for(alloc: Global, sketch: &Sketch) -> Result<String, Status>
    ensures exact { IfOk result (λ text. string_bytes text ≡ picture_of sketch.now) }
    ensures memory { IfErr result (λ s. s ≡ NoMemory) }
{
    match picture(alloc, sketch) {
        Ok(text) => Ok(text),
        Err(_) => Err(Status::NoMemory),
    }
}

/// The picture of an auction, once the input is read whole.
fn drawn<R: LineSource>(alloc: Global, reader: &mut R) -> Result<String, Status>
    ensures exact { IfOk result (λ picture. IfSome (R.remaining reader.old) (λ text. Shows text (string_bytes picture))) }
    ensures stopped { IfErr result (λ s. IfSome (R.remaining reader.old) (Stops s)) }
    ensures cause { IfErr result Hinders }
    ensures failed { IfErr result (λ s. s ≡ ReadFault → R.failures reader.new ≡ raised (R.failures reader.old)) }
    ensures fine { OnOk result (R.failures reader.new ≡ R.failures reader.old) }
{
    match read_cross(alloc, reader) {
        Ok(sketch) => picture_for(alloc, &sketch),
        Err(status) => Err(status),
    }
}

/// Sends all of a text, and answers how that ended.
fn send<W: Sink>(sink: &mut W, text: &str) -> Status
    ensures ends { (result ≡ Done) ⊎ (result ≡ SendFault) }
    ensures whole { result ≡ Done → Appends (W.contents sink.old) (W.contents sink.new) text.now }
    ensures part { result ≡ SendFault → AppendsPart (W.contents sink.old) (W.contents sink.new) text.now }
    ensures failed { result ≡ SendFault → W.failures sink.new ≡ raised (W.failures sink.old) }
{
    match write_all(sink, text.as_bytes()) {
        Ok(()) => Status::Done,
        Err(_) => Status::SendFault,
    }
}

/// Reads an auction and draws it.
fn draw_cross<R: LineSource, W: Sink>(alloc: Global, reader: &mut R, sink: &mut W) -> Status
    ensures { Drawn result
        (streams (R.remaining reader.old) (W.contents sink.old) (R.failures reader.old) (W.failures sink.old))
        (streams (R.remaining reader.new) (W.contents sink.new) (R.failures reader.new) (W.failures sink.new)) }
{
    match drawn(alloc, reader) {
        Ok(text) => send(sink, text.as_str()),
        Err(status) => status,
    }
}

/// Does what so many words of a process ask for, the program's name among them, and answers how it ended.
pub fn draw<R: LineSource, W: Sink>(
    alloc: Global,
    words: usize,
    reader: &mut R,
    sink: &mut W,
) -> Status
    ensures { Ran words result
        (streams (R.remaining reader.old) (W.contents sink.old) (R.failures reader.old) (W.failures sink.old))
        (streams (R.remaining reader.new) (W.contents sink.new) (R.failures reader.new) (W.failures sink.new)) }
{
    if words == 1 {
        draw_cross(alloc, reader, sink)
    } else {
        Status::Usage
    }
}
