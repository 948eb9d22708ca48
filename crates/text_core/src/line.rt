//! A line that is being written.

ghost use Rattle.std.specs.Prelude.{◌≡◌, ◌==◌, ◌+◌, ◌<◌, ◌≤◌, ◌^◌, ◌++◌, [], ◌∷◌, IsAscii, IsTrue, decimal, length, take};
ghost use Rattle.session_core.specs.Dates.{digit};
ghost use Rattle.wire_core.specs.Names.{is_name};
ghost use Rattle.text_core.specs.Words.{time_word, date_word, price_word, optional_price_word, index_word, flags_word, name_word};

use crate::word::{hex_digit, name_text};
use itoa::Buffer;
use price_core::{Index, Price};
use session_core::{Date, Moment};
use std::marker::Model;
use std::str;

/// A line of words with one blank between them, or what is sent for a line or a frame: at most 256 bytes. No line of a
/// record or of a frame is that long.
#[derive(Drop)]
pub struct Line {
    bytes: [u8; 256],
    len: usize,
}

impl Model for Line {
    ghost use Rattle.std.specs.Prelude.{ℕ, ◌≤◌, List, take};

    ghost Value = { List ℕ };

    ghost view = { λ line. take line.len line.bytes };

    ghost invariant = { λ line. line.len ≤ 256 };
}

/// Copies bytes to an offset, and answers the offset behind them.
fn put(bytes: &mut [u8; 256], at: usize, piece: &[u8]) -> usize
    requires { at + length piece.now ≤ 256 }
    ensures end { result ≡ at + length piece.now }
    ensures prefix { take (at + length piece.now) bytes.new ≡ take at bytes.old ++ piece.now }
{
    let end = at + piece.len();
    bytes[at..end].copy_from_slice(piece);
    end
}

/// The last decimal digit of a number.
fn digit(n: u64) -> u8
    ensures { result ≡ digit n }
{
    b'0' + (n % 10) as u8
}

impl Line {
    /// Nothing is written.
    pub fn new() -> Line
        ensures { result ≡ [] }
    {
        Line {
            bytes: [0; 256],
            len: 0,
        }
    }

    /// Its bytes.
    pub fn as_slice(&self) -> &[u8]
        ensures value { result.now ≡ self.now }
        ensures short { length result.now ≤ 256 }
    {
        &self.bytes[..self.len]
    }

    /// How many bytes it has.
    fn len(&self) -> usize
        ensures value { result ≡ length self.now }
        ensures short { result ≤ 256 }
    {
        self.len
    }

    /// Whether nothing is written.
    pub fn is_empty(&self) -> bool
        ensures { result ≡ (length self.now == 0) }
    {
        self.len() == 0
    }

    /// Its text, where it is ASCII.
    pub fn as_str(&self) -> &str
        requires { IsAscii self.now }
        ensures { result.now ≡ self.now }
    {
        str::from_utf8(self.as_slice()).unwrap_or("")
    }

    /// Removes all bytes.
    pub fn clear(&mut self)
        ensures { self.new ≡ [] }
    {
        self.len = 0;
    }

    /// Appends bytes.
    pub fn append(&mut self, bytes: &[u8])
        requires { length self.old + length bytes.now ≤ 256 }
        ensures text { self.new ≡ self.old ++ bytes.now }
        ensures length { length self.new ≡ length self.old + length bytes.now }
    {
        self.len = put(&mut self.bytes, self.len, bytes);
    }

    /// Appends those bytes that are among the first 256.
    pub fn keep(&mut self, bytes: &[u8])
        ensures { self.new ≡ take 256 (self.old ++ bytes.now) }
    {
        let count = bytes.len().min(256 - self.len());
        self.append(&bytes[..count]);
    }

    /// Appends a newline.
    pub fn end(&mut self)
        requires { length self.old < 256 }
        ensures { self.new ≡ self.old ++ 10 ∷ [] }
    {
        self.append(b"\n");
    }

    /// Appends a further word.
    pub fn word(&mut self, word: &str)
        requires room { length self.old ≤ 200 }
        requires short { length word.now ≤ 24 }
        ensures text { self.new ≡ self.old ++ 32 ∷ word.now }
        ensures length { length self.new ≤ length self.old + 25 }
    {
        self.append(b" ");
        self.append(word.as_bytes());
    }

    /// Writes the first word.
    pub fn begin(&mut self, word: &str)
        requires empty { self.old ≡ [] }
        requires short { length word.now ≤ 24 }
        ensures text { self.new ≡ word.now }
        ensures length { length self.new ≤ 24 }
    {
        self.append(word.as_bytes());
    }

    /// Writes a decimal number as the first word.
    pub fn begin_number(&mut self, n: u64)
        requires { self.old ≡ [] }
        ensures text { self.new ≡ decimal n }
        ensures length { length self.new ≤ 24 }
    {
        let mut buffer = Buffer::new();
        self.begin(buffer.format(n));
    }

    /// Appends a decimal number as a further word.
    pub fn number(&mut self, n: u64)
        requires { length self.old ≤ 200 }
        ensures text { self.new ≡ self.old ++ 32 ∷ decimal n }
        ensures length { length self.new ≤ length self.old + 21 }
    {
        let mut buffer = Buffer::new();
        self.word(buffer.format(n));
    }

    /// Appends a moment as a further word.
    pub fn time(&mut self, moment: Moment)
        requires { length self.old ≤ 200 }
        ensures text { self.new ≡ self.old ++ 32 ∷ time_word moment }
        ensures length { length self.new ≤ length self.old + 21 }
    {
        let nanos = moment.nanos();
        let hours = nanos / 3_600_000_000_000;
        let minutes = nanos / 60_000_000_000 % 60;
        let seconds = nanos / 1_000_000_000 % 60;
        let part = nanos % 1_000_000_000;
        self.append(&[
            b' ',
            digit(hours / 10),
            digit(hours),
            b':',
            digit(minutes / 10),
            digit(minutes),
            b':',
            digit(seconds / 10),
            digit(seconds),
            b'.',
            digit(part / 100_000_000),
            digit(part / 10_000_000),
            digit(part / 1_000_000),
            digit(part / 100_000),
            digit(part / 10_000),
            digit(part / 1000),
            digit(part / 100),
            digit(part / 10),
            digit(part),
        ]);
    }

    /// Appends a date as a further word.
    pub fn date(&mut self, date: Date)
        requires { length self.old ≤ 200 }
        ensures text { self.new ≡ self.old ++ 32 ∷ date_word date }
        ensures length { length self.new ≤ length self.old + 21 }
    {
        let year = u64::from(date.year());
        let month = u64::from(date.month());
        let day = u64::from(date.day());
        self.append(&[
            b' ',
            digit(year / 1000),
            digit(year / 100),
            digit(year / 10),
            digit(year),
            b'-',
            digit(month / 10),
            digit(month),
            b'-',
            digit(day / 10),
            digit(day),
        ]);
    }

    /// Appends a price as a further word, in dollars.
    #[tactic(auto, using(std::proofs::Common::append_assoc, crate::proofs::Plain::price_digits))]
    pub fn price(&mut self, price: Price)
        requires { length self.old ≤ 200 }
        ensures text { self.new ≡ self.old ++ 32 ∷ price_word price }
        ensures length { length self.new ≤ length self.old + 26 }
    {
        let units = price.units();
        self.number(units / 10_000);
        let part = units % 10_000;
        self.append(&[
            b'.',
            digit(part / 1000),
            digit(part / 100),
            digit(part / 10),
            digit(part),
        ]);
    }

    /// Appends a price that may be absent as a further word, in dollars.
    pub fn optional_price(&mut self, price: Option<Price>)
        requires { length self.old ≤ 200 }
        ensures text { self.new ≡ self.old ++ 32 ∷ optional_price_word price }
        ensures length { length self.new ≤ length self.old + 26 }
    {
        match price {
            Some(price) => self.price(price),
            None => self.word("-"),
        }
    }

    /// Appends an index value as a further word, in points.
    #[tactic(auto, using(std::proofs::Common::append_assoc, crate::proofs::Plain::index_digits))]
    pub fn index(&mut self, value: Index)
        requires { length self.old ≤ 200 }
        ensures text { self.new ≡ self.old ++ 32 ∷ index_word value }
        ensures length { length self.new ≤ length self.old + 26 }
    {
        let hundredths = u64::from(value.hundredths());
        self.number(hundredths / 100);
        let part = hundredths % 100;
        self.append(&[b'.', digit(part / 10), digit(part)]);
    }

    /// Appends the flags of a trade as a further word.
    #[tactic(auto, unfolding(crate::specs::Words::flags_word))]
    pub fn flags(&mut self, flags: u16)
        requires { length self.old ≤ 200 }
        ensures text { self.new ≡ self.old ++ 32 ∷ flags_word flags }
        ensures length { length self.new ≤ length self.old + 21 }
    {
        self.append(&[
            b' ',
            hex_digit(flags / 4096),
            hex_digit(flags / 256),
            hex_digit(flags / 16),
            hex_digit(flags),
        ]);
    }

    /// Appends a name as a further word.
    pub fn name(&mut self, name: &[u8; 8])
        requires room { length self.old ≤ 200 }
        requires name { IsTrue (is_name name.now) }
        ensures text { self.new ≡ self.old ++ 32 ∷ name_word name.now }
        ensures length { length self.new ≤ length self.old + 21 }
    {
        self.word(name_text(name));
    }
}
