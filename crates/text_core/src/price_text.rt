//! Prices as text.

ghost use Rattle.std.specs.Prelude.{◌≡◌, ◌+◌, ◌≤◌, ◌++◌, ◌∷◌, IsOk, OnOk, OnErr, length};
ghost use Rattle.std.specs.String.{string_bytes, string_len, string_capacity};
ghost use Rattle.price_core.specs.Ranges.{IsPrice};
ghost use Rattle.text_core.specs.Words.{price_word};

use crate::line::Line;
use price_core::{NoMemory, Price};
use std::str;

/// The only word of a line, without the blank before it: that of a price of so many units.
fn behind_blank(line: &Line, units: u64) -> &str
    requires word { line.now ≡ 32 ∷ price_word units }
    requires range { IsPrice units }
    ensures { result.now ≡ price_word units }
{
    let _ = units;
    str::from_utf8(&line.as_slice()[1..]).unwrap_or("")
}

/// Appends a price as lines print it, in dollars with four digits behind the point. An error is want of memory, and leaves
/// the text as it was; there is none where the text has room for 25 bytes more.
pub fn put_price(price: Price, into: &mut String) -> Result<(), NoMemory>
    ensures text { OnOk result (string_bytes into.new ≡ string_bytes into.old ++ price_word price) }
    ensures kept { OnErr result (string_bytes into.new ≡ string_bytes into.old) }
    ensures short { length (price_word price) ≤ 25 }
    ensures length { string_len into.new ≤ string_len into.old + 25 }
    ensures capacity { string_capacity into.old ≤ string_capacity into.new }
    ensures room { string_len into.old + 25 ≤ string_capacity into.old → IsOk result }
{
    let mut line = Line::new();
    line.price(price);
    into.push_str(behind_blank(&line, price.units()))?;
    Ok(())
}
