//! The words of a line, taken for values.

ghost use Rattle.std.specs.Prelude.{◌≡◌, ◌↔◌, ◌≤◌, ◌-◌, ◌^◌, IsTrue, min, length};
ghost use Rattle.wire_core.specs.Names.{is_name};
ghost use Rattle.text_core.specs.Reading.{word_len, word_at, behind, next_number, number_in, number8_in, number16_of, number16_in, number32_of, number32_in, moment_of, moment_in, price_of, price_in, optional_price_of, optional_price_in, index_in, date_in, leverage_in, name_in, hex_value, flags_in};

use price_core::{Index, Leverage, OptionalPrice, Price};
use session_core::{Date, Moment};
use wire_core::name_at;

/// Ten times a number below this, and a digit more, has 64 bits.
const SAFE: u64 = 1_000_000_000_000_000_000;

/// How long the first word of a line is.
fn word_len(line: &[u8]) -> usize
    ensures value { result ≡ word_len line.now }
    ensures bound { result ≤ length line.now }
{
    line.iter().take_while(|byte| **byte != b' ').count()
}

/// A word of a line, from 0 on; empty where the line has fewer.
#[tactic(auto, unfolding(crate::specs::Reading::word_at))]
pub fn word(line: &[u8], n: u8) -> &[u8]
    ensures { result.now ≡ word_at n line.now }
{
    let len = word_len(line);
    if n == 0 {
        return &line[..len];
    }
    let behind = (len + 1).min(line.len());
    word(&line[behind..], n - 1)
}

/// The first word of a line, and what stands behind the blank that ends it.
#[tactic(auto, unfolding(crate::specs::Reading::word_at, crate::specs::Reading::behind))]
pub fn split(line: &[u8]) -> (&[u8], &[u8])
    ensures word { result.0.now ≡ word_at 0 line.now }
    ensures rest { result.1.now ≡ behind line.now }
{
    let len = word_len(line);
    let end = (len + 1).min(line.len());
    (&line[..len], &line[end..])
}

/// How long the first word of a line is, and its number, where it has at most 19 characters.
#[tactic(auto, unfolding(crate::specs::Reading::word_at, crate::specs::Reading::number_in), using(std::proofs::lemmas::Bool::Decides::nat_tests, crate::proofs::Words::word_left, crate::proofs::Words::none_left, crate::proofs::Digits::next_few, crate::proofs::Digits::few_bits))]
fn short_number(line: &[u8]) -> (usize, u64)
    ensures len { result.0 ≡ word_len line.now }
    ensures bound { result.0 ≤ length line.now }
    ensures number { result.0 ≤ 19 → result.1 ≡ number_in (word_at 0 line.now) }
{
    let mut number = 0_u64;
    for len in 0..line.len() {
        let byte = line[len];
        if byte.is_ascii_digit() {
            number = number.wrapping_mul(10).wrapping_add(u64::from(byte - b'0'));
        } else if byte == b' ' {
            return (len, number);
        }
    }
    (line.len(), number)
}

/// The number of the first word of a line, and what stands behind the blank that ends it.
#[tactic(auto, unfolding(crate::specs::Reading::word_at, crate::specs::Reading::behind))]
pub fn split_number(line: &[u8]) -> (u64, &[u8])
    ensures number { result.0 ≡ number_in (word_at 0 line.now) }
    ensures rest { result.1.now ≡ behind line.now }
{
    let (len, short) = short_number(line);
    let rest = &line[(len + 1).min(line.len())..];
    if len > 19 {
        return (number(&line[..len]), rest);
    }
    (short, rest)
}

/// A number with one character more.
fn next_number(n: u64, byte: u8) -> u64
    ensures { result ≡ min (next_number n byte) (2 ^ 64 - 1) }
{
    if !byte.is_ascii_digit() {
        return n;
    }
    let digit = u64::from(byte - b'0');
    if n < SAFE {
        return n * 10 + digit;
    }
    n.saturating_mul(10).saturating_add(digit)
}

/// The number that the digits of a word give, all else left out; the greatest of 64 bits where it is greater.
#[tactic(auto, unfolding(crate::specs::Reading::number_in))]
pub fn number(word: &[u8]) -> u64
    ensures { result ≡ number_in word.now }
{
    let mut number = 0;
    for byte in word {
        number = next_number(number, *byte);
    }
    number
}

/// The number of a word, of 8 bits.
#[tactic(auto, unfolding(crate::specs::Reading::number8_in))]
pub fn number8(word: &[u8]) -> Option<u8>
    ensures { result ≡ number8_in word.now }
{
    u8::try_from(number(word)).ok()
}

/// A number, if it has 16 bits.
#[tactic(auto, unfolding(crate::specs::Reading::number16_of))]
pub fn number16_of(n: u64) -> Option<u16>
    ensures { result ≡ number16_of n }
{
    u16::try_from(n).ok()
}

/// The number that a word prints, of 16 bits; of a word that prints none any number or none.
#[tactic(auto, unfolding(crate::specs::Reading::number16_in))]
pub fn number16(word: &[u8]) -> Option<u16>
    ensures { result ≡ number16_in word.now }
{
    number16_of(number(word))
}

/// A number, if it has 32 bits.
#[tactic(auto, unfolding(crate::specs::Reading::number32_of))]
pub fn number32_of(n: u64) -> Option<u32>
    ensures { result ≡ number32_of n }
{
    u32::try_from(n).ok()
}

/// The number that a word prints, of 32 bits; of a word that prints none any number or none.
#[tactic(auto, unfolding(crate::specs::Reading::number32_in))]
pub fn number32(word: &[u8]) -> Option<u32>
    ensures { result ≡ number32_in word.now }
{
    number32_of(number(word))
}

/// The moment of the digits hhmmssnnnnnnnnn.
#[tactic(auto, unfolding(crate::specs::Reading::moment_of))]
pub fn moment_of(n: u64) -> Option<Moment>
    ensures { result ≡ moment_of n }
{
    let hours = n / 10_000_000_000_000 % 100;
    let minutes = n / 100_000_000_000 % 100;
    let seconds = n / 1_000_000_000 % 100;
    let nanos = (hours * 3600 + minutes * 60 + seconds) * 1_000_000_000 + n % 1_000_000_000;
    Moment::new(nanos).ok()
}

/// The moment that a word prints, as hh:mm:ss.nnnnnnnnn; of a word that prints none any moment or none.
#[tactic(auto, unfolding(crate::specs::Reading::moment_in))]
pub fn moment(word: &[u8]) -> Option<Moment>
    ensures { result ≡ moment_in word.now }
{
    moment_of(number(word))
}

/// The date of a word.
#[tactic(auto, unfolding(crate::specs::Reading::date_in))]
pub fn date(word: &[u8]) -> Option<Date>
    ensures { result ≡ date_in word.now }
{
    let n = number(word);
    let year = (n / 10_000 % 10_000) as u16;
    let month = (n / 100 % 100) as u8;
    let day = (n % 100) as u8;
    Date::of(year, month, day).ok()
}

/// The price of so many units, if they are in its range.
#[tactic(auto, unfolding(crate::specs::Reading::price_of))]
pub fn price_of(units: u64) -> Option<Price>
    ensures { result ≡ price_of units }
{
    Price::new(units).ok()
}

/// The price that a word prints, in dollars; of a word that prints none any price or none.
#[tactic(auto, unfolding(crate::specs::Reading::price_in))]
pub fn price(word: &[u8]) -> Option<Price>
    ensures { result ≡ price_in word.now }
{
    price_of(number(word))
}

/// The price of so many units, or that it is absent, where they are none.
#[tactic(auto, unfolding(crate::specs::Reading::optional_price_of))]
pub fn optional_price_of(units: u64) -> Option<OptionalPrice>
    ensures { result ≡ optional_price_of units }
{
    OptionalPrice::new(units).ok()
}

/// The price that a word prints, in dollars, or that it is absent; of a word that prints neither any of these or none.
#[tactic(auto, unfolding(crate::specs::Reading::optional_price_in))]
pub fn optional_price(word: &[u8]) -> Option<Option<Price>>
    ensures { result ≡ optional_price_in word.now }
{
    Some(optional_price_of(number(word))?.get())
}

/// The index value of a word.
#[tactic(auto, unfolding(crate::specs::Reading::index_in))]
pub fn index(word: &[u8]) -> Option<Index>
    ensures { result ≡ index_in word.now }
{
    let hundredths = number32(word)?;
    Index::new(hundredths).ok()
}

/// The leverage ratio of a word.
#[tactic(auto, unfolding(crate::specs::Reading::leverage_in))]
pub fn leverage(word: &[u8]) -> Option<Leverage>
    ensures { result ≡ leverage_in word.now }
{
    let tenths = number8(word)?;
    Leverage::new(tenths).ok()
}

/// The name of a word, if it is short enough for one.
#[tactic(auto, unfolding(crate::specs::Reading::name_in))]
pub fn name(word: &[u8]) -> Option<[u8; 8]>
    ensures { result ≡ name_in word.now }
{
    if word.len() > 8 {
        return None;
    }
    let mut name = [0; 8];
    name[..word.len()].copy_from_slice(word);
    Some(name)
}

/// Whether a name has one to eight visible characters, and then zero bytes.
pub fn is_name(name: [u8; 8]) -> bool
    ensures value { result ≡ is_name name }
    ensures tells { IsTrue result ↔ ((length name ≡ 8) × IsTrue (is_name name)) }
{
    name_at(&name, 0).is_some()
}

/// The value of a hexadecimal digit in lower case.
fn hex_value(byte: u8) -> u16
    ensures value { result ≡ hex_value byte }
    ensures bound { result ≤ 15 }
{
    if byte < b'0' + 10 {
        u16::from(byte.saturating_sub(b'0')) % 16
    } else {
        u16::from(byte.saturating_sub(b'a' - 10)) % 16
    }
}

/// The flags of a word.
#[tactic(auto, unfolding(crate::specs::Reading::flags_in))]
pub fn flags(word: &[u8]) -> Option<u16>
    ensures { result ≡ flags_in word.now }
{
    if word.len() != 4 {
        return None;
    }
    Some(
        hex_value(word[0]) * 4096
            + hex_value(word[1]) * 256
            + hex_value(word[2]) * 16
            + hex_value(word[3]),
    )
}
