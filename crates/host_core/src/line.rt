//! A line that tells of something, on a stream that may fail.

ghost use Rattle.std.specs.Prelude.{◌≡◌, [], ◌∷◌, ◌++◌, None, option_map, OnOk, OnErr, IsOk};
ghost use Rattle.std.specs.Io.KnownBytes.{Appends};
ghost use Rattle.host_core.specs.Outside.{raised};
ghost use Rattle.host_core.specs.Streams.{AppendsPart, digits_of, words_of, with_newline};

use crate::stream::{Sink, write_all};
use itoa::Buffer;
use std::io;

/// A line in three parts: words, a number where it has one, and the words behind that.
#[derive(Clone, Copy, Debug)]
pub struct StatusLine {
    pub before: &'static str,
    pub number: Option<u64>,
    pub after: &'static str,
}

impl StatusLine {
    /// A line of these words alone.
    pub fn plain(words: &'static str) -> StatusLine
        ensures { words_of result ≡ words.now }
    {
        StatusLine {
            before: words,
            number: None,
            after: "",
        }
    }
}

/// Writes two texts, one behind the other.
fn write_both<W: Sink>(sink: &mut W, first: &[u8], second: &[u8]) -> io::Result<()>
    ensures written { OnOk result (Appends (W.contents sink.old) (W.contents sink.new) (first.now ++ second.now)) }
    ensures partly { OnErr result (AppendsPart (W.contents sink.old) (W.contents sink.new) (first.now ++ second.now)) }
    ensures failed { OnErr result (W.failures sink.new ≡ raised (W.failures sink.old)) }
    ensures fine { OnOk result (W.failures sink.new ≡ W.failures sink.old) }
{
    write_all(sink, first)?;
    write_all(sink, second)
}

/// Writes words with the digits of a number behind them, where there is one.
fn write_counted<W: Sink>(sink: &mut W, words: &str, number: Option<u64>) -> io::Result<()>
    ensures written { OnOk result (Appends (W.contents sink.old) (W.contents sink.new) (words.now ++ digits_of number)) }
    ensures partly { OnErr result (AppendsPart (W.contents sink.old) (W.contents sink.new) (words.now ++ digits_of number)) }
    ensures failed { OnErr result (W.failures sink.new ≡ raised (W.failures sink.old)) }
    ensures fine { OnOk result (W.failures sink.new ≡ W.failures sink.old) }
{
    match number {
        Some(number) => {
            let mut buffer = Buffer::new();
            write_both(sink, words.as_bytes(), buffer.format(number).as_bytes())
        }
        None => write_both(sink, words.as_bytes(), b""),
    }
}

/// Writes a line and a newline. Where a write fails, a prefix of these was written.
fn write_line<W: Sink>(sink: &mut W, line: StatusLine) -> io::Result<()>
    ensures written { OnOk result (Appends (W.contents sink.old) (W.contents sink.new) (words_of line ++ (10 ∷ []))) }
    ensures partly { OnErr result (AppendsPart (W.contents sink.old) (W.contents sink.new) (words_of line ++ (10 ∷ []))) }
    ensures failed { OnErr result (W.failures sink.new ≡ raised (W.failures sink.old)) }
    ensures fine { OnOk result (W.failures sink.new ≡ W.failures sink.old) }
{
    let StatusLine {
        before,
        number,
        after,
    } = line;
    write_counted(sink, before, number)?;
    write_both(sink, after.as_bytes(), b"\n")
}

/// Writes a line with its newline, and nothing where there is none. Where a write fails, a prefix of these was written.
pub fn tell_line<W: Sink>(sink: &mut W, line: Option<StatusLine>) -> io::Result<()>
    ensures told { OnOk result (Appends (W.contents sink.old) (W.contents sink.new) (with_newline (option_map words_of line))) }
    ensures partly { OnErr result (AppendsPart (W.contents sink.old) (W.contents sink.new) (with_newline (option_map words_of line))) }
    // An error comes only where the sink told one.
    ensures failed { OnErr result (W.failures sink.new ≡ raised (W.failures sink.old)) }
    ensures fine { OnOk result (W.failures sink.new ≡ W.failures sink.old) }
    ensures silent { line ≡ None → IsOk result }
    ensures untouched { line ≡ None → sink.new ≡ sink.old }
{
    match line {
        Some(line) => write_line(sink, line),
        None => Ok(()),
    }
}
