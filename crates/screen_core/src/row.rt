//! What is shown last of one symbol, and its line.

ghost use Rattle.std.specs.Prelude.{◌≡◌, ◌+◌, ◌≤◌, ◌++◌, ◌∷◌, length};
ghost use Rattle.std.specs.String.{string_bytes, string_len, string_capacity};
ghost use Rattle.text_core.specs.Words.{optional_price_word};
ghost use Rattle.screen_core.specs.Rows.{restriction_word, row_line};

use board_core::Shown;
use itoa::Buffer;
use price_core::Price;
use text_core::{phase_word, put_price, straddle_word};

/// What a board shows of a symbol, with its price bands in ten-thousandths of a dollar where it has any.
#[derive(Drop)]
pub struct Row {
    pub symbol: u32,
    pub shown: Shown,
    pub lower: Option<Price>,
    pub upper: Option<Price>,
}

/// The word of a short sale restriction.
fn restriction_word(restricted: bool) -> &'static str
    ensures word { result.now ≡ restriction_word restricted }
    ensures short { length result.now ≤ 24 }
{
    if restricted { "restricted" } else { "free" }
}

/// Appends text to a line that has room for it.
fn push(line: &mut String, text: &str)
    requires { string_len line.old + length text.now ≤ string_capacity line.old }
    ensures text { string_bytes line.new ≡ string_bytes line.old ++ text.now }
    ensures length { string_len line.new ≡ string_len line.old + length text.now }
    ensures capacity { string_capacity line.old ≤ string_capacity line.new }
{
    // It has room for it.
    line.push_str(text).unwrap();
}

/// Appends a blank and a word.
fn push_word(line: &mut String, word: &str)
    requires short { length word.now ≤ 24 }
    requires room { string_len line.old + 25 ≤ string_capacity line.old }
    ensures text { string_bytes line.new ≡ string_bytes line.old ++ 32 ∷ word.now }
    ensures length { string_len line.new ≤ string_len line.old + 25 }
    ensures capacity { string_capacity line.old ≤ string_capacity line.new }
{
    push(line, " ");
    push(line, word);
}

/// Appends a blank and a price, or a dash where there is none.
fn push_price(line: &mut String, price: Option<Price>)
    requires room { string_len line.old + 26 ≤ string_capacity line.old }
    ensures text { string_bytes line.new ≡ string_bytes line.old ++ 32 ∷ optional_price_word price }
    ensures length { string_len line.new ≤ string_len line.old + 26 }
    ensures capacity { string_capacity line.old ≤ string_capacity line.new }
{
    push(line, " ");
    match price {
        // It has room for one.
        Some(price) => put_price(price, line).unwrap(),
        None => push(line, "-"),
    }
}

/// Writes the line of a row in the place of another one.
pub fn write_row(row: &Row, line: &mut String)
    requires { 200 ≤ string_capacity line.old }
    ensures text { string_bytes line.new ≡ row_line row.now }
    ensures length { string_len line.new ≤ 200 }
    ensures capacity { string_capacity line.old ≤ string_capacity line.new }
{
    let mut buffer = Buffer::new();
    line.clear();
    push(line, buffer.format(row.symbol));
    push_word(line, phase_word(row.shown.phase));
    push_word(line, straddle_word(row.shown.straddle));
    push_word(line, restriction_word(row.shown.short));
    push_price(line, row.lower);
    push_price(line, row.upper);
    push(line, "\n");
}
