//! From a line to its record.

ghost use Rattle.std.specs.Prelude.{◌≡◌, ◌↔◌, [], bytes_eq, IsTrue, IfOk, Ok};
ghost use Rattle.std.specs.Result.{result_ok};
ghost use Rattle.wire_in.specs.Spelling.{HasTypes, InRange};
ghost use Rattle.wire_in.specs.declared.record.Record.{Record};
ghost use Rattle.text_core.specs.Lines.{line_of_record, PrintsRecord};
ghost use Rattle.text_core.specs.Reading.{day_of, listing_of, trade_of, cancel_of, quote_of, index_tick_of, clock_of, notice_of, indication_of, record_of, is_in_range, is_line_of, record_in};

use crate::error::BadLine;
use crate::field_reading::{
    date, flags, index, is_name, leverage, moment_of, name, number16_of, number32_of,
    optional_price_of, price_of, split, split_number,
};
use crate::line::Line;
use crate::record_printing::write_record;
use crate::word_reading::{close, is, notice_kind, profile, tier, unmatched};
use session_core::Day;
use wire_in::Record;

#[tactic(auto, unfolding(crate::specs::Reading::day_of, crate::specs::Reading::moment_in), using(crate::proofs::Words::word_1, crate::proofs::Words::word_2, crate::proofs::Words::word_3, crate::proofs::Words::word_4))]
fn day(rest: &[u8]) -> Option<Record>
    ensures { result ≡ day_of rest.now }
{
    let (n, rest) = split_number(rest);
    let moment = moment_of(n)?;
    let (word, rest) = split(rest);
    let date = date(word)?;
    let (word, rest) = split(rest);
    let close = close(word)?;
    let (word, rest) = split(rest);
    let profile = profile(word)?;
    let (word, _) = split(rest);
    let index_close = index(word)?;
    let day = Day {
        date,
        close,
        profile,
    };
    Some(Record::Day {
        moment,
        day,
        index_close,
    })
}

#[tactic(auto, unfolding(crate::specs::Reading::listing_of, crate::specs::Reading::moment_in, crate::specs::Reading::optional_price_in), using(crate::proofs::Words::word_1, crate::proofs::Words::word_2, crate::proofs::Words::word_3, crate::proofs::Words::word_4))]
fn listing(rest: &[u8]) -> Option<Record>
    ensures { result ≡ listing_of rest.now }
{
    let (n, rest) = split_number(rest);
    let moment = moment_of(n)?;
    let (word, rest) = split(rest);
    let name = name(word)?;
    let (word, rest) = split(rest);
    let tier = tier(word)?;
    let (word, rest) = split(rest);
    let leverage = leverage(word)?;
    let (n, _) = split_number(rest);
    let close = optional_price_of(n)?;
    Some(Record::Listing {
        moment,
        name,
        tier,
        leverage,
        close: close.get(),
    })
}

#[tactic(auto, unfolding(crate::specs::Reading::trade_of, crate::specs::Reading::moment_in, crate::specs::Reading::number16_in, crate::specs::Reading::number32_in, crate::specs::Reading::price_in), using(crate::proofs::Words::word_1, crate::proofs::Words::word_2, crate::proofs::Words::word_3, crate::proofs::Words::word_4, crate::proofs::Words::word_5))]
fn trade(rest: &[u8]) -> Option<Record>
    ensures { result ≡ trade_of rest.now }
{
    let (n, rest) = split_number(rest);
    let moment = moment_of(n)?;
    let (n, rest) = split_number(rest);
    let symbol = number16_of(n)?;
    let (n, rest) = split_number(rest);
    let number = number32_of(n)?;
    let (n, rest) = split_number(rest);
    let price = price_of(n)?;
    let (n, rest) = split_number(rest);
    let size = number32_of(n)?;
    let (word, _) = split(rest);
    let flags = flags(word)?;
    Some(Record::Trade {
        moment,
        symbol,
        number,
        price,
        size,
        flags,
    })
}

#[tactic(auto, unfolding(crate::specs::Reading::cancel_of, crate::specs::Reading::moment_in, crate::specs::Reading::number16_in, crate::specs::Reading::number32_in), using(crate::proofs::Words::word_1, crate::proofs::Words::word_2))]
fn cancel(rest: &[u8]) -> Option<Record>
    ensures { result ≡ cancel_of rest.now }
{
    let (n, rest) = split_number(rest);
    let moment = moment_of(n)?;
    let (n, rest) = split_number(rest);
    let symbol = number16_of(n)?;
    let (n, _) = split_number(rest);
    let number = number32_of(n)?;
    Some(Record::Cancel {
        moment,
        symbol,
        number,
    })
}

#[tactic(auto, unfolding(crate::specs::Reading::quote_of, crate::specs::Reading::moment_in, crate::specs::Reading::number16_in, crate::specs::Reading::number32_in, crate::specs::Reading::optional_price_in), using(crate::proofs::Words::word_1, crate::proofs::Words::word_2, crate::proofs::Words::word_3, crate::proofs::Words::word_4, crate::proofs::Words::word_5))]
fn quote(rest: &[u8]) -> Option<Record>
    ensures { result ≡ quote_of rest.now }
{
    let (n, rest) = split_number(rest);
    let moment = moment_of(n)?;
    let (n, rest) = split_number(rest);
    let symbol = number16_of(n)?;
    let (n, rest) = split_number(rest);
    let bid = optional_price_of(n)?;
    let (n, rest) = split_number(rest);
    let offer = optional_price_of(n)?;
    let (n, rest) = split_number(rest);
    let bid_size = number32_of(n)?;
    let (n, _) = split_number(rest);
    let offer_size = number32_of(n)?;
    Some(Record::Quote {
        moment,
        symbol,
        bid,
        offer,
        bid_size,
        offer_size,
    })
}

#[tactic(auto, unfolding(crate::specs::Reading::index_tick_of, crate::specs::Reading::moment_in), using(crate::proofs::Words::word_1))]
fn index_tick(rest: &[u8]) -> Option<Record>
    ensures { result ≡ index_tick_of rest.now }
{
    let (n, rest) = split_number(rest);
    let moment = moment_of(n)?;
    let (word, _) = split(rest);
    let value = index(word)?;
    Some(Record::IndexTick { moment, value })
}

#[tactic(auto, unfolding(crate::specs::Reading::clock_of, crate::specs::Reading::moment_in))]
fn clock(rest: &[u8]) -> Option<Record>
    ensures { result ≡ clock_of rest.now }
{
    let (n, _) = split_number(rest);
    let moment = moment_of(n)?;
    Some(Record::Clock { moment })
}

#[tactic(auto, unfolding(crate::specs::Reading::notice_of, crate::specs::Reading::moment_in, crate::specs::Reading::number16_in), using(crate::proofs::Words::word_1, crate::proofs::Words::word_2))]
fn notice(rest: &[u8]) -> Option<Record>
    ensures { result ≡ notice_of rest.now }
{
    let (n, rest) = split_number(rest);
    let moment = moment_of(n)?;
    let (n, rest) = split_number(rest);
    let symbol = number16_of(n)?;
    let (word, _) = split(rest);
    let kind = notice_kind(word)?;
    Some(Record::Notice {
        moment,
        symbol,
        kind,
    })
}

#[tactic(auto, unfolding(crate::specs::Reading::indication_of, crate::specs::Reading::moment_in, crate::specs::Reading::number16_in, crate::specs::Reading::price_in), using(crate::proofs::Words::word_1, crate::proofs::Words::word_2, crate::proofs::Words::word_3))]
fn indication(rest: &[u8]) -> Option<Record>
    ensures { result ≡ indication_of rest.now }
{
    let (n, rest) = split_number(rest);
    let moment = moment_of(n)?;
    let (n, rest) = split_number(rest);
    let symbol = number16_of(n)?;
    let (n, rest) = split_number(rest);
    let price = price_of(n)?;
    let (word, _) = split(rest);
    let unmatched = unmatched(word)?;
    Some(Record::Indication {
        moment,
        symbol,
        price,
        unmatched,
    })
}

/// What a line is taken for: the record that it prints, if it prints one, and else any.
#[tactic(auto, unfolding(crate::specs::Reading::record_of))]
fn record(line: &[u8]) -> Option<Record>
    ensures { result ≡ record_of line.now }
{
    let (kind, rest) = split(line);
    if is(kind, "day") {
        day(rest)
    } else if is(kind, "listing") {
        listing(rest)
    } else if is(kind, "trade") {
        trade(rest)
    } else if is(kind, "cancel") {
        cancel(rest)
    } else if is(kind, "quote") {
        quote(rest)
    } else if is(kind, "index") {
        index_tick(rest)
    } else if is(kind, "clock") {
        clock(rest)
    } else if is(kind, "notice") {
        notice(rest)
    } else if is(kind, "indication") {
        indication(rest)
    } else {
        None
    }
}

/// Whether a record is in the ranges that its types don't keep.
fn is_in_range(x: &Record) -> bool
    ensures value { result ≡ is_in_range x.now }
    ensures tells { IsTrue result ↔ InRange x.now }
{
    match *x {
        Record::Listing { name, .. } => is_name(name),
        Record::Trade { flags, .. } => flags <= 0x03ff,
        _ => true,
    }
}

/// Whether a line is that of a record in its ranges, which is printed into the room.
fn is_line_of(room: &mut Line, line: &[u8], x: &Record) -> bool
    requires empty { room.old ≡ [] }
    requires ranges { InRange x.now }
    ensures value { result ≡ bytes_eq line.now (line_of_record x.now) }
    ensures types { HasTypes x.now }
{
    write_record(room, x);
    line == room.as_slice()
}

/// Whether a line prints a record.
fn prints(room: &mut Line, line: &[u8], x: &Record) -> bool
    requires empty { room.old ≡ [] }
    ensures value { result ≡ is_line_of line.now x.now }
    ensures tells { IsTrue result ↔ PrintsRecord line.now x.now }
{
    is_in_range(x) && is_line_of(room, line, x)
}

/// The record that a line prints, as `read_record` answers; its line is printed once more into the room.
#[tactic(auto, unfolding(crate::specs::Reading::record_in))]
pub fn read_record_in(room: &mut Line, line: &[u8]) -> Result<Record, BadLine>
    requires empty { room.old ≡ [] }
    ensures exact { result_ok result ≡ record_in line.now }
    ensures found { IfOk result (PrintsRecord line.now) }
    ensures only { (x : Record) → PrintsRecord line.now x → result ≡ Ok x }
{
    let Some(x) = record(line) else {
        return Err(BadLine);
    };
    if prints(room, line, &x) {
        Ok(x)
    } else {
        Err(BadLine)
    }
}

/// The record that a line prints, without its newline; an error exactly where it prints none.
pub fn read_record(line: &[u8]) -> Result<Record, BadLine>
    ensures exact { result_ok result ≡ record_in line.now }
    ensures found { IfOk result (PrintsRecord line.now) }
    ensures only { (x : Record) → PrintsRecord line.now x → result ≡ Ok x }
{
    read_record_in(&mut Line::new(), line)
}
