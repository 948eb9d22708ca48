//! Single values, read from their words.

ghost use Rattle.std.specs.Prelude.{◌≡◌, ℕ, IfOk, Ok, bytes_eq};
ghost use Rattle.text_core.specs.Words.{price_word, time_word};
ghost use Rattle.text_core.specs.Values.{PrintsPrice, PrintsTime};

use crate::error::BadLine;
use crate::field_reading::{moment, price};
use crate::line::Line;
use price_core::Price;
use session_core::Moment;

/// Whether a word is the one of a price.
fn is_price_word(word: &[u8], price: Price) -> bool
    ensures { result ≡ bytes_eq word.now (price_word price) }
{
    let mut printed = Line::new();
    printed.price(price);
    word == &printed.as_slice()[1..]
}

/// Whether a word is the one of a moment.
fn is_time_word(word: &[u8], moment: Moment) -> bool
    ensures { result ≡ bytes_eq word.now (time_word moment) }
{
    let mut printed = Line::new();
    printed.time(moment);
    word == &printed.as_slice()[1..]
}

/// The price that a word prints, in dollars with four digits behind the point; an error exactly where it prints none.
pub fn read_price(word: &[u8]) -> Result<Price, BadLine>
    ensures found { IfOk result (PrintsPrice word.now) }
    ensures only { (units : ℕ) → PrintsPrice word.now units → result ≡ Ok units }
{
    let Some(price) = price(word) else {
        return Err(BadLine);
    };
    if is_price_word(word, price) {
        Ok(price)
    } else {
        Err(BadLine)
    }
}

/// The moment that a word prints, as hh:mm:ss.nnnnnnnnn; an error exactly where it prints none.
pub fn read_time(word: &[u8]) -> Result<Moment, BadLine>
    ensures found { IfOk result (PrintsTime word.now) }
    ensures only { (nanos : ℕ) → PrintsTime word.now nanos → result ≡ Ok nanos }
{
    let Some(moment) = moment(word) else {
        return Err(BadLine);
    };
    if is_time_word(word, moment) {
        Ok(moment)
    } else {
        Err(BadLine)
    }
}
