//! What is told of a text of details.

ghost use Rattle.std.specs.Prelude.{◌≡◌, ◌<◌, ◌≤◌, ◌⊎◌, ◌++◌, ◌∷◌, [], IfOk, OnOk, OnErr, IsOk, length, take};
ghost use Rattle.std.specs.Io.KnownBytes.{Appends};
ghost use Rattle.host_core.specs.Outside.{raised};
ghost use Rattle.host_core.specs.Streams.{AppendsPart};
ghost use Rattle.text_core.specs.Streams.{last_from};
ghost use Rattle.detail_core.specs.Details.{AreDetails, detail_of, details_of, told_line};

use crate::front::part_len;
use host_core::{Sink, write_all};
use std::io;

/// Writes a line and a newline.
fn write_ended<W: Sink>(sink: &mut W, line: &[u8]) -> io::Result<()>
    ensures written { OnOk result (Appends (W.contents sink.old) (W.contents sink.new) (line.now ++ 10 ∷ [])) }
    ensures partly { OnErr result (AppendsPart (W.contents sink.old) (W.contents sink.new) (line.now ++ 10 ∷ [])) }
    ensures failed { OnErr result (W.failures sink.new ≡ raised (W.failures sink.old)) }
    ensures fine { OnOk result (W.failures sink.new ≡ W.failures sink.old) }
{
    write_all(sink, line)?;
    write_all(sink, b"\n")
}

/// Writes a line of detail.
fn write_detail<W: Sink>(sink: &mut W, line: &[u8]) -> io::Result<()>
    ensures written { OnOk result (Appends (W.contents sink.old) (W.contents sink.new) (told_line line.now)) }
    ensures partly { OnErr result (AppendsPart (W.contents sink.old) (W.contents sink.new) (told_line line.now)) }
    ensures failed { OnErr result (W.failures sink.new ≡ raised (W.failures sink.old)) }
    ensures fine { OnOk result (W.failures sink.new ≡ W.failures sink.old) }
{
    write_all(sink, b"  ")?;
    write_ended(sink, line)
}

/// Tells a line that isn't empty.
fn tell_line<W: Sink>(sink: &mut W, line: &[u8]) -> io::Result<()>
    ensures told { OnOk result (Appends (W.contents sink.old) (W.contents sink.new) (detail_of line.now)) }
    ensures partly { OnErr result (AppendsPart (W.contents sink.old) (W.contents sink.new) (detail_of line.now)) }
    ensures failed { OnErr result (W.failures sink.new ≡ raised (W.failures sink.old)) }
    ensures fine { OnOk result (W.failures sink.new ≡ W.failures sink.old) }
{
    if line.is_empty() {
        return Ok(());
    }
    write_detail(sink, line)
}

/// Tells the line that a piece begins with, and answers how many bytes it takes there, with its newline where it has one.
fn tell_first<W: Sink>(sink: &mut W, piece: &[u8]) -> io::Result<usize>
    requires some { 0 < length piece.now }
    ensures told { IfOk result (λ n. Appends (W.contents sink.old) (W.contents sink.new) (details_of (take n piece.now))) }
    ensures partly { OnErr result (AppendsPart (W.contents sink.old) (W.contents sink.new) (details_of piece.now)) }
    ensures used { IfOk result (λ n. (0 < n) × (n ≤ length piece.now)) }
    ensures whole { IfOk result (λ n. (n ≡ length piece.now) ⊎ (last_from [] (take n piece.now) ≡ [])) }
    ensures failed { OnErr result (W.failures sink.new ≡ raised (W.failures sink.old)) }
    ensures fine { OnOk result (W.failures sink.new ≡ W.failures sink.old) }
{
    let len = part_len(piece);
    tell_line(sink, &piece[..len])?;
    Ok((len + 1).min(piece.len()))
}

/// Tells the lines of a text.
fn tell_lines<W: Sink>(sink: &mut W, text: &[u8]) -> io::Result<()>
    ensures told { OnOk result (Appends (W.contents sink.old) (W.contents sink.new) (details_of text.now)) }
    ensures partly { OnErr result (AppendsPart (W.contents sink.old) (W.contents sink.new) (details_of text.now)) }
    ensures failed { OnErr result (W.failures sink.new ≡ raised (W.failures sink.old)) }
    ensures fine { OnOk result (W.failures sink.new ≡ W.failures sink.old) }
{
    let mut done = 0;
    while done < text.len() {
        done += tell_first(sink, &text[done..])?;
    }
    Ok(())
}

/// Tells a sink a text of details: each of its lines that isn't empty, behind two blanks.
pub fn tell_details<W: Sink>(sink: &mut W, text: &[u8]) -> io::Result<()>
    ensures told { OnOk result (Appends (W.contents sink.old) (W.contents sink.new) (details_of text.now)) }
    ensures partly { OnErr result (AppendsPart (W.contents sink.old) (W.contents sink.new) (details_of text.now)) }
    // That is nothing but lines that begin with two blanks and end with a newline.
    ensures lines { AreDetails (details_of text.now) }
    // An error comes only where the sink told one.
    ensures failed { OnErr result (W.failures sink.new ≡ raised (W.failures sink.old)) }
    ensures fine { OnOk result (W.failures sink.new ≡ W.failures sink.old) }
    ensures silent { text.now ≡ [] → IsOk result }
    ensures untouched { text.now ≡ [] → sink.new ≡ sink.old }
{
    if text.is_empty() {
        return Ok(());
    }
    tell_lines(sink, text)
}
