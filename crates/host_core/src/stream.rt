//! The two ends of a process that are streams.

ghost use Rattle.std.specs.Prelude.{◌≡◌, ◌<◌, ◌≤◌, ◌+◌, ◌++◌, ℕ, List, Option, length, vec_len, IfOk, OnOk, OnErr, IfSome};
ghost use Rattle.std.specs.Io.BufRead.{take_through, DropsThrough};
ghost use Rattle.std.specs.Io.KnownBytes.{ReadConsumes, WriteAppends, Appends, IsAtEnd};
ghost use Rattle.host_core.specs.Outside.{raised};
ghost use Rattle.host_core.specs.Streams.{stream_of, failures_of, AppendsPart};

use crate::counts::raise;
use std::io::{self, BufRead, Read, Write};

/// What gives the bytes of an input.
pub trait Source {
    /// The bytes that it will give from here on, where they are known.
    ghost remaining: { Self → Option (List ℕ) };

    /// How many errors it told, up to the greatest number of 64 bits.
    ghost failures: { Self → ℕ };

    /// Gives a prefix of what is left, and answers how many bytes.
    fn read(&mut self, into: &mut [u8]) -> io::Result<usize>
        ensures bound { IfOk result (λ n. n ≤ length into.new) }
        ensures bytes { ReadConsumes (remaining self.old) (remaining self.new) result into.new }
        ensures failed { OnErr result (failures self.new ≡ raised (failures self.old)) }
        ensures fine { OnOk result (failures self.new ≡ failures self.old) };
}

/// What gives an input line by line.
pub trait LineSource {
    /// The bytes that it will give from here on, where they are known.
    ghost remaining: { Self → Option (List ℕ) };

    /// How many errors it told, up to the greatest number of 64 bits.
    ghost failures: { Self → ℕ };

    /// Appends the next line with its newline to a buffer, and answers how many bytes it has: none at the end of the input. Want of
    /// memory is an error of its own kind.
    fn read_line(&mut self, line: &mut Vec<u8>) -> io::Result<usize>
        ensures given { OnOk result (IfSome (remaining self.old) (λ text. line.new.items ≡ line.old.items ++ take_through 10 text)) }
        ensures rest { OnOk result (DropsThrough (remaining self.old) (remaining self.new) 10) }
        ensures count { IfOk result (λ n. vec_len line.new ≡ vec_len line.old + n) }
        ensures end { IfOk result (λ n. n ≡ 0 → IsAtEnd (remaining self.old)) }
        ensures failed { OnErr result (failures self.new ≡ raised (failures self.old)) }
        ensures fine { OnOk result (failures self.new ≡ failures self.old) };
}

/// What takes bytes.
pub trait Sink {
    /// The bytes that it holds, where they are known.
    ghost contents: { Self → Option (List ℕ) };

    /// How many errors it told, up to the greatest number of 64 bits.
    ghost failures: { Self → ℕ };

    /// Takes a prefix of a piece, and answers how many bytes. To take nothing is an error.
    fn write(&mut self, piece: &[u8]) -> io::Result<usize>
        ensures bound { IfOk result (λ n. n ≤ length piece.now) }
        ensures some { IfOk result (λ n. 0 < n) }
        ensures bytes { WriteAppends (contents self.old) (contents self.new) result piece.now }
        ensures failed { OnErr result (failures self.new ≡ raised (failures self.old)) }
        ensures fine { OnOk result (failures self.new ≡ failures self.old) };
}

/// A stream of the standard library, with a count of its errors. That it tells no other errors is trusted.
#[derive(Drop)]
pub struct Stream<T> {
    stream: T,
    failures: u64,
}

impl<T> Stream<T> {
    /// A stream that has told no error yet.
    pub fn new(stream: T) -> Self
        ensures stream { stream_of result ≡ stream }
        ensures failures { failures_of result ≡ 0 }
    {
        Stream {
            stream,
            failures: 0,
        }
    }
}

// Counts an error where there is one.
fn counted<T>(failures: &mut u64, outcome: io::Result<T>) -> io::Result<T>
    ensures same { result ≡ outcome }
    ensures failed { OnErr result (failures.new ≡ raised failures.old) }
    ensures fine { OnOk result (failures.new ≡ failures.old) }
{
    if outcome.is_err() {
        raise(failures);
    }
    outcome
}

// Writes some of a piece.
fn write_some<W: Write>(stream: &mut W, piece: &[u8]) -> io::Result<usize>
    ensures bound { IfOk result (λ n. n ≤ length piece.now) }
    ensures some { IfOk result (λ n. 0 < n) }
    ensures bytes { WriteAppends (W.contents stream.old) (W.contents stream.new) result piece.now }
{
    let count = stream.write(piece)?;
    if count == 0 {
        return Err(io::ErrorKind::WriteZero.into());
    }
    Ok(count)
}

impl<R: Read> Source for Stream<R> {
    ghost remaining = { λ s. R.remaining (stream_of s) };

    ghost failures = { λ s. failures_of s };

    fn read(&mut self, into: &mut [u8]) -> io::Result<usize> {
        counted(&mut self.failures, self.stream.read(into))
    }
}

impl<R: BufRead> LineSource for Stream<R> {
    ghost remaining = { λ s. R.remaining (stream_of s) };

    ghost failures = { λ s. failures_of s };

    fn read_line(&mut self, line: &mut Vec<u8>) -> io::Result<usize> {
        counted(&mut self.failures, self.stream.read_until(b'\n', line))
    }
}

impl<W: Write> Sink for Stream<W> {
    ghost contents = { λ s. W.contents (stream_of s) };

    ghost failures = { λ s. failures_of s };

    fn write(&mut self, piece: &[u8]) -> io::Result<usize> {
        counted(&mut self.failures, write_some(&mut self.stream, piece))
    }
}

/// Writes all of a piece, over as many writes as it needs. Where one fails, a prefix of the piece was written.
pub fn write_all<W: Sink>(sink: &mut W, piece: &[u8]) -> io::Result<()>
    ensures written { OnOk result (Appends (W.contents sink.old) (W.contents sink.new) piece.now) }
    ensures partly { OnErr result (AppendsPart (W.contents sink.old) (W.contents sink.new) piece.now) }
    ensures failed { OnErr result (W.failures sink.new ≡ raised (W.failures sink.old)) }
    ensures fine { OnOk result (W.failures sink.new ≡ W.failures sink.old) }
{
    let mut done = 0;
    while done < piece.len() {
        done += sink.write(&piece[done..])?;
    }
    Ok(())
}
