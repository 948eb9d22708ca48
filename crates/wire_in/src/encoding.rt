//! From a record to its frame.

ghost use Rattle.std.specs.Prelude.{◌≡◌, Ok};
ghost use Rattle.wire_core.specs.Frames.{Frames, framed};
ghost use Rattle.wire_in.specs.Reading.{record_of};
ghost use Rattle.wire_in.specs.Spelling.{InRange, HasTypes, body_of};
ghost use Rattle.wire_in.specs.declared.record.Record.TheVariants as records;

use crate::code::{close_byte, kind_byte, profile_byte, tier_byte, unmatched_byte};
use crate::record::{NoticeKind, Record};
use price_core::{Index, Leverage, OptionalPrice, Price, Tier, Unmatched};
use session_core::{Day, Moment};
use wire_core::{put, put_u16, put_u32, put_u64};

fn put_day(into: &mut [u8; 64], moment: Moment, day: Day, index_close: Index) -> usize
    ensures types { HasTypes (records.Day moment day index_close) }
    ensures frame { Frames (framed (body_of (records.Day moment day index_close))) into.old result into.new }
{
    let at = put(into, 0, &[19, 1]);
    let at = put_u64(into, at, moment.nanos());
    let at = put_u16(into, at, day.date.year());
    let at = put(into, at, &[day.date.month(), day.date.day()]);
    let at = put(
        into,
        at,
        &[close_byte(day.close), profile_byte(day.profile)],
    );
    put_u32(into, at, index_close.hundredths())
}

fn put_listing(
    into: &mut [u8; 64],
    moment: Moment,
    name: [u8; 8],
    tier: Tier,
    leverage: Leverage,
    close: Option<Price>,
) -> usize
    ensures types { HasTypes (records.Listing moment name tier leverage close) }
    ensures frame { Frames (framed (body_of (records.Listing moment name tier leverage close))) into.old result into.new }
{
    let at = put(into, 0, &[27, 2]);
    let at = put_u64(into, at, moment.nanos());
    let at = put(into, at, &name);
    let at = put(into, at, &[tier_byte(tier), leverage.tenths()]);
    put_u64(into, at, OptionalPrice::of(close).units())
}

fn put_trade(
    into: &mut [u8; 64],
    moment: Moment,
    symbol: u16,
    number: u32,
    price: Price,
    size: u32,
    flags: u16,
) -> usize
    ensures types { HasTypes (records.Trade moment symbol number price size flags) }
    ensures frame { Frames (framed (body_of (records.Trade moment symbol number price size flags))) into.old result into.new }
{
    let at = put(into, 0, &[29, 3]);
    let at = put_u64(into, at, moment.nanos());
    let at = put_u16(into, at, symbol);
    let at = put_u32(into, at, number);
    let at = put_u64(into, at, price.units());
    let at = put_u32(into, at, size);
    put_u16(into, at, flags)
}

fn put_cancel(into: &mut [u8; 64], moment: Moment, symbol: u16, number: u32) -> usize
    ensures types { HasTypes (records.Cancel moment symbol number) }
    ensures frame { Frames (framed (body_of (records.Cancel moment symbol number))) into.old result into.new }
{
    let at = put(into, 0, &[15, 4]);
    let at = put_u64(into, at, moment.nanos());
    let at = put_u16(into, at, symbol);
    put_u32(into, at, number)
}

fn put_quote(
    into: &mut [u8; 64],
    moment: Moment,
    symbol: u16,
    bid: OptionalPrice,
    offer: OptionalPrice,
    bid_size: u32,
    offer_size: u32,
) -> usize
    ensures types { HasTypes (records.Quote moment symbol bid offer bid_size offer_size) }
    ensures frame { Frames (framed (body_of (records.Quote moment symbol bid offer bid_size offer_size))) into.old result into.new }
{
    let at = put(into, 0, &[35, 5]);
    let at = put_u64(into, at, moment.nanos());
    let at = put_u16(into, at, symbol);
    let at = put_u64(into, at, bid.units());
    let at = put_u64(into, at, offer.units());
    let at = put_u32(into, at, bid_size);
    put_u32(into, at, offer_size)
}

fn put_index_tick(into: &mut [u8; 64], moment: Moment, value: Index) -> usize
    ensures types { HasTypes (records.IndexTick moment value) }
    ensures frame { Frames (framed (body_of (records.IndexTick moment value))) into.old result into.new }
{
    let at = put(into, 0, &[13, 6]);
    let at = put_u64(into, at, moment.nanos());
    put_u32(into, at, value.hundredths())
}

fn put_clock(into: &mut [u8; 64], moment: Moment) -> usize
    ensures types { HasTypes (records.Clock moment) }
    ensures frame { Frames (framed (body_of (records.Clock moment))) into.old result into.new }
{
    let at = put(into, 0, &[9, 7]);
    put_u64(into, at, moment.nanos())
}

fn put_notice(into: &mut [u8; 64], moment: Moment, symbol: u16, kind: NoticeKind) -> usize
    ensures types { HasTypes (records.Notice moment symbol kind) }
    ensures frame { Frames (framed (body_of (records.Notice moment symbol kind))) into.old result into.new }
{
    let at = put(into, 0, &[12, 8]);
    let at = put_u64(into, at, moment.nanos());
    let at = put_u16(into, at, symbol);
    put(into, at, &[kind_byte(kind)])
}

fn put_indication(
    into: &mut [u8; 64],
    moment: Moment,
    symbol: u16,
    price: Price,
    unmatched: Unmatched,
) -> usize
    ensures types { HasTypes (records.Indication moment symbol price unmatched) }
    ensures frame { Frames (framed (body_of (records.Indication moment symbol price unmatched))) into.old result into.new }
{
    let at = put(into, 0, &[20, 9]);
    let at = put_u64(into, at, moment.nanos());
    let at = put_u16(into, at, symbol);
    let at = put_u64(into, at, price.units());
    put(into, at, &[unmatched_byte(unmatched)])
}

/// Writes a record's frame into a prefix of a buffer, and answers its length. The other bytes are kept. What is written
/// decodes to the record.
pub fn encode(x: &Record, into: &mut [u8; 64]) -> usize
    requires { InRange x.now }
    ensures frame { Frames (framed (body_of x.now)) into.old result into.new }
    ensures decodes { record_of (body_of x.now) ≡ Ok x.now }
{
    match *x {
        Record::Day {
            day,
            index_close,
            ..
        } => put_day(into, x.moment(), day, index_close),
        Record::Listing {
            name,
            tier,
            leverage,
            close,
            ..
        } => put_listing(into, x.moment(), name, tier, leverage, close),
        Record::Trade {
            symbol,
            number,
            price,
            size,
            flags,
            ..
        } => put_trade(into, x.moment(), symbol, number, price, size, flags),
        Record::Cancel { symbol, number, .. } => put_cancel(into, x.moment(), symbol, number),
        Record::Quote {
            symbol,
            bid,
            offer,
            bid_size,
            offer_size,
            ..
        } => put_quote(into, x.moment(), symbol, bid, offer, bid_size, offer_size),
        Record::IndexTick { value, .. } => put_index_tick(into, x.moment(), value),
        Record::Clock { .. } => put_clock(into, x.moment()),
        Record::Notice { symbol, kind, .. } => put_notice(into, x.moment(), symbol, kind),
        Record::Indication {
            symbol,
            price,
            unmatched,
            ..
        } => put_indication(into, x.moment(), symbol, price, unmatched),
    }
}
