//! From a line to what it says of a cross.

ghost use Rattle.std.specs.Prelude.{◌≡◌, ◌≤◌, ◌↔◌, ◌++◌, ◌∷◌, [], length, decimal, IsTrue, IfOk, Ok};
ghost use Rattle.cross_chart.specs.declared.line.CrossLine.{CrossLine};
ghost use Rattle.cross_chart.specs.declared.line.CrossLine.TheVariants as lines;
ghost use Rattle.cross_chart.specs.Lines.{line_text, HasTypes, Says};
ghost use Rattle.cross_chart.specs.InternalReading.{indication_of, row_of, taken_for};

use crate::line::CrossLine;
use cross_core::Row;
use price_core::Price;
use text_core::{
    BadLine, Line, is, moment, number, number16, price, split, unmatched, write_record,
};
use wire_in::Record;

#[tactic(auto, unfolding(crate::specs::InternalReading::indication_of), using(text_core::proofs::Words::word_1, text_core::proofs::Words::word_2, text_core::proofs::Words::word_3, text_core::proofs::Words::word_4))]
fn indication(line: &[u8]) -> Option<CrossLine>
    ensures { result ≡ indication_of line.now }
{
    let (_, rest) = split(line);
    let (word, rest) = split(rest);
    let moment = moment(word)?;
    let (word, rest) = split(rest);
    let symbol = number16(word)?;
    let (word, rest) = split(rest);
    let price = price(word)?;
    let (word, _) = split(rest);
    let left = unmatched(word)?;
    Some(CrossLine::Indication {
        moment,
        symbol,
        price,
        left,
    })
}

#[tactic(auto, unfolding(crate::specs::InternalReading::row_of), using(text_core::proofs::Words::word_1, text_core::proofs::Words::word_2, text_core::proofs::Words::word_3))]
fn row(line: &[u8]) -> Option<CrossLine>
    ensures { result ≡ row_of line.now }
{
    let (_, rest) = split(line);
    let (word, rest) = split(rest);
    let price = price(word)?;
    let (word, rest) = split(rest);
    let buy = number(word);
    let (word, _) = split(rest);
    let sell = number(word);
    Some(CrossLine::Compared(Row { price, buy, sell }))
}

/// What a line is taken for: what it says, if it says anything of a cross, and else anything.
#[tactic(auto, unfolding(crate::specs::InternalReading::taken_for), using(text_core::proofs::Words::word_1))]
fn taken_for(line: &[u8]) -> Option<CrossLine>
    ensures { result ≡ taken_for line.now }
{
    let (first, rest) = split(line);
    let (second, _) = split(rest);
    if is(first, "indication") {
        indication(line)
    } else if is(first, "volume") {
        Some(CrossLine::Volume(number(second)))
    } else if is(first, "imbalance") {
        Some(CrossLine::Imbalance(number(second)))
    } else if is(first, "row") {
        row(line)
    } else if is(first, "fill") {
        Some(CrossLine::Fill(number(second)))
    } else {
        None
    }
}

/// Writes a word and a number.
fn write_number(line: &mut Line, word: &str, n: u64)
    requires empty { line.old ≡ [] }
    requires short { length word.now ≤ 24 }
    ensures { line.new ≡ word.now ++ 32 ∷ decimal n }
{
    line.begin(word);
    line.number(n);
}

/// Writes a row.
fn write_row(line: &mut Line, price: Price, buy: u64, sell: u64)
    requires { line.old ≡ [] }
    ensures types { HasTypes (lines.Compared (record { price = price; buy = buy; sell = sell })) }
    ensures text { line.new ≡ line_text (lines.Compared (record { price = price; buy = buy; sell = sell })) }
{
    line.begin("row");
    line.price(price);
    line.number(buy);
    line.number(sell);
}

/// Writes what says this of a cross.
fn write(line: &mut Line, x: &CrossLine)
    requires { line.old ≡ [] }
    ensures types { HasTypes x.now }
    ensures text { line.new ≡ line_text x.now }
{
    match x {
        CrossLine::Indication {
            moment,
            symbol,
            price,
            left,
        } => {
            let record = Record::Indication {
                moment: *moment,
                symbol: *symbol,
                price: *price,
                unmatched: *left,
            };
            write_record(line, &record);
        }
        CrossLine::Volume(n) => write_number(line, "volume", *n),
        CrossLine::Imbalance(n) => write_number(line, "imbalance", *n),
        CrossLine::Compared(row) => write_row(line, row.price, row.buy, row.sell),
        CrossLine::Fill(n) => write_number(line, "fill", *n),
    }
}

/// Whether a line says this of a cross.
fn says(line: &[u8], x: &CrossLine) -> bool
    ensures { IsTrue result ↔ Says line.now x.now }
{
    let mut printed = Line::new();
    write(&mut printed, x);
    line == printed.as_slice()
}

/// What a line says of a cross, without its newline; an error exactly where it says nothing.
pub fn read_line(line: &[u8]) -> Result<CrossLine, BadLine>
    ensures found { IfOk result (Says line.now) }
    ensures only { (x : CrossLine) → Says line.now x → result ≡ Ok x }
{
    let Some(x) = taken_for(line) else {
        return Err(BadLine);
    };
    if says(line, &x) { Ok(x) } else { Err(BadLine) }
}
