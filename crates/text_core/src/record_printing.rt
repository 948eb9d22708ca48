//! The lines of records.

ghost use Rattle.std.specs.Prelude.{◌≡◌, ◌≤◌, [], IsTrue, IfOk, length};
ghost use Rattle.std.specs.String.{string_bytes};
ghost use Rattle.wire_core.specs.Names.{is_name};
ghost use Rattle.wire_in.specs.Spelling.{HasTypes, InRange};
ghost use Rattle.wire_in.specs.declared.record.Record.TheVariants as records;
ghost use Rattle.text_core.specs.Lines.{line_of_record, PrintsRecord};

use crate::line::Line;
use crate::word::{close_word, notice_word, profile_word, tier_word, unmatched_word};
use price_core::{Index, Leverage, NoMemory, OptionalPrice, Price, Tier, Unmatched};
use session_core::{Day, Moment};
use std::alloc::Global;
use wire_in::{NoticeKind, Record};

fn write_day(line: &mut Line, moment: Moment, day: Day, index_close: Index)
    requires empty { line.old ≡ [] }
    ensures types { HasTypes (records.Day moment day index_close) }
    ensures text { line.new ≡ line_of_record (records.Day moment day index_close) }
    ensures short { length line.new ≤ 240 }
{
    line.begin("day");
    line.time(moment);
    line.date(day.date);
    line.word(close_word(day.close));
    line.word(profile_word(day.profile));
    line.index(index_close);
}

fn write_listing(
    line: &mut Line,
    moment: Moment,
    name: [u8; 8],
    tier: Tier,
    leverage: Leverage,
    close: Option<Price>,
)
    requires empty { line.old ≡ [] }
    requires name { IsTrue (is_name name) }
    ensures types { HasTypes (records.Listing moment name tier leverage close) }
    ensures text { line.new ≡ line_of_record (records.Listing moment name tier leverage close) }
    ensures short { length line.new ≤ 240 }
{
    line.begin("listing");
    line.time(moment);
    line.name(&name);
    line.word(tier_word(tier));
    line.number(u64::from(leverage.tenths()));
    line.optional_price(close);
}

fn write_trade(
    line: &mut Line,
    moment: Moment,
    symbol: u16,
    number: u32,
    price: Price,
    size: u32,
    flags: u16,
)
    requires empty { line.old ≡ [] }
    ensures types { HasTypes (records.Trade moment symbol number price size flags) }
    ensures text { line.new ≡ line_of_record (records.Trade moment symbol number price size flags) }
    ensures short { length line.new ≤ 240 }
{
    line.begin("trade");
    line.time(moment);
    line.number(u64::from(symbol));
    line.number(u64::from(number));
    line.price(price);
    line.number(u64::from(size));
    line.flags(flags);
}

fn write_cancel(line: &mut Line, moment: Moment, symbol: u16, number: u32)
    requires empty { line.old ≡ [] }
    ensures types { HasTypes (records.Cancel moment symbol number) }
    ensures text { line.new ≡ line_of_record (records.Cancel moment symbol number) }
    ensures short { length line.new ≤ 240 }
{
    line.begin("cancel");
    line.time(moment);
    line.number(u64::from(symbol));
    line.number(u64::from(number));
}

fn write_quote(
    line: &mut Line,
    moment: Moment,
    symbol: u16,
    bid: OptionalPrice,
    offer: OptionalPrice,
    bid_size: u32,
    offer_size: u32,
)
    requires empty { line.old ≡ [] }
    ensures types { HasTypes (records.Quote moment symbol bid offer bid_size offer_size) }
    ensures text { line.new ≡ line_of_record (records.Quote moment symbol bid offer bid_size offer_size) }
    ensures short { length line.new ≤ 240 }
{
    line.begin("quote");
    line.time(moment);
    line.number(u64::from(symbol));
    line.optional_price(bid.get());
    line.optional_price(offer.get());
    line.number(u64::from(bid_size));
    line.number(u64::from(offer_size));
}

fn write_index_tick(line: &mut Line, moment: Moment, value: Index)
    requires empty { line.old ≡ [] }
    ensures types { HasTypes (records.IndexTick moment value) }
    ensures text { line.new ≡ line_of_record (records.IndexTick moment value) }
    ensures short { length line.new ≤ 240 }
{
    line.begin("index");
    line.time(moment);
    line.index(value);
}

fn write_clock(line: &mut Line, moment: Moment)
    requires empty { line.old ≡ [] }
    ensures types { HasTypes (records.Clock moment) }
    ensures text { line.new ≡ line_of_record (records.Clock moment) }
    ensures short { length line.new ≤ 240 }
{
    line.begin("clock");
    line.time(moment);
}

fn write_notice(line: &mut Line, moment: Moment, symbol: u16, kind: NoticeKind)
    requires empty { line.old ≡ [] }
    ensures types { HasTypes (records.Notice moment symbol kind) }
    ensures text { line.new ≡ line_of_record (records.Notice moment symbol kind) }
    ensures short { length line.new ≤ 240 }
{
    line.begin("notice");
    line.time(moment);
    line.number(u64::from(symbol));
    line.word(notice_word(kind));
}

fn write_indication(
    line: &mut Line,
    moment: Moment,
    symbol: u16,
    price: Price,
    unmatched: Unmatched,
)
    requires empty { line.old ≡ [] }
    ensures types { HasTypes (records.Indication moment symbol price unmatched) }
    ensures text { line.new ≡ line_of_record (records.Indication moment symbol price unmatched) }
    ensures short { length line.new ≤ 240 }
{
    line.begin("indication");
    line.time(moment);
    line.number(u64::from(symbol));
    line.price(price);
    line.word(unmatched_word(unmatched));
}

/// Writes the line of a record that is in its ranges.
pub fn write_record(line: &mut Line, x: &Record)
    requires empty { line.old ≡ [] }
    requires ranges { InRange x.now }
    ensures types { HasTypes x.now }
    ensures text { line.new ≡ line_of_record x.now }
    ensures short { length line.new ≤ 240 }
{
    match *x {
        Record::Day {
            day,
            index_close,
            ..
        } => write_day(line, x.moment(), day, index_close),
        Record::Listing {
            name,
            tier,
            leverage,
            close,
            ..
        } => write_listing(line, x.moment(), name, tier, leverage, close),
        Record::Trade {
            symbol,
            number,
            price,
            size,
            flags,
            ..
        } => write_trade(line, x.moment(), symbol, number, price, size, flags),
        Record::Cancel { symbol, number, .. } => write_cancel(line, x.moment(), symbol, number),
        Record::Quote {
            symbol,
            bid,
            offer,
            bid_size,
            offer_size,
            ..
        } => write_quote(line, x.moment(), symbol, bid, offer, bid_size, offer_size),
        Record::IndexTick { value, .. } => write_index_tick(line, x.moment(), value),
        Record::Clock { .. } => write_clock(line, x.moment()),
        Record::Notice { symbol, kind, .. } => write_notice(line, x.moment(), symbol, kind),
        Record::Indication {
            symbol,
            price,
            unmatched,
            ..
        } => write_indication(line, x.moment(), symbol, price, unmatched),
    }
}

/// The line of a record in its ranges, without its newline.
#[tactic(auto, using(crate::proofs::Records::record_ascii))]
pub fn print_record(alloc: Global, x: &Record) -> Result<String, NoMemory>
    requires { InRange x.now }
    ensures text { IfOk result (λ line. string_bytes line ≡ line_of_record x.now) }
    ensures prints { IfOk result (λ line. PrintsRecord (string_bytes line) x.now) }
{
    let mut line = Line::new();
    write_record(&mut line, x);
    Ok(String::from_str(alloc, line.as_str())?)
}
