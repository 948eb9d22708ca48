//! From a body to its record.

ghost use Rattle.std.specs.Prelude.{◌≡◌, ◌+◌, ◌≤◌, length, IfOk, OnOk, Ok};
ghost use Rattle.wire_in.specs.Reading.{date_at, day_of, listing_of, trade_of, cancel_of, quote_of, index_tick_of, clock_of, notice_of, indication_of, placed, record_of};
ghost use Rattle.wire_in.specs.Spelling.{Spells};
ghost use Rattle.wire_in.specs.declared.record.Record.{Record};

use crate::code::{
    close_of_byte, flags_of_number, kind_of_byte, leverage_of_byte, profile_of_byte, tier_of_byte,
    unmatched_of_byte,
};
use crate::record::{Record, Refusal};
use session_core::{BadDate, Date, Day, Moment};
use wire_core::{index_at, moment_at, name_at, optional_price_at, price_at, u16_at, u32_at};

#[tactic(auto, unfolding(crate::specs::Reading::date_at))]
fn date_at(body: &[u8], at: usize) -> Result<Date, Refusal>
    requires { at + 4 ≤ length body.now }
    ensures { result ≡ date_at at body.now }
{
    match Date::of(u16_at(body, at), body[at + 2], body[at + 3]) {
        Ok(date) => Ok(date),
        Err(BadDate::Year) => Err(Refusal::BadField(2)),
        Err(BadDate::Month) => Err(Refusal::BadField(3)),
        Err(BadDate::DayOfMonth) => Err(Refusal::BadField(4)),
    }
}

// The readers of trades and quotations, which most records are, stand where they are called. Each of the others stays a call of
// its own: joined into one, they would bring every record's fields together by parts first.
#[tactic(auto, unfolding(crate::specs::Reading::day_of))]
#[inline(never)]
fn day(body: &[u8], into: &mut Record) -> Result<(), Refusal>
    ensures { placed into.new result ≡ day_of body.now }
{
    if body.len() != 19 {
        return Err(Refusal::BadLength);
    }
    let moment = moment_at(body, 1).ok_or(Refusal::BadField(1))?;
    let date = date_at(body, 9)?;
    let close = close_of_byte(body[13]).ok_or(Refusal::BadField(5))?;
    let profile = profile_of_byte(body[14]).ok_or(Refusal::BadField(6))?;
    let index_close = index_at(body, 15).ok_or(Refusal::BadField(7))?;
    let day = Day {
        date,
        close,
        profile,
    };
    *into = Record::Day {
        moment,
        day,
        index_close,
    };
    Ok(())
}

#[tactic(auto, unfolding(crate::specs::Reading::listing_of))]
#[inline(never)]
fn listing(body: &[u8], into: &mut Record) -> Result<(), Refusal>
    ensures { placed into.new result ≡ listing_of body.now }
{
    if body.len() != 27 {
        return Err(Refusal::BadLength);
    }
    let moment = moment_at(body, 1).ok_or(Refusal::BadField(1))?;
    let name = name_at(body, 9).ok_or(Refusal::BadField(2))?;
    let tier = tier_of_byte(body[17]).ok_or(Refusal::BadField(3))?;
    let leverage = leverage_of_byte(body[18]).ok_or(Refusal::BadField(4))?;
    let close = optional_price_at(body, 19).ok_or(Refusal::BadField(5))?;
    *into = Record::Listing {
        moment,
        name,
        tier,
        leverage,
        close: close.get(),
    };
    Ok(())
}

#[tactic(auto, unfolding(crate::specs::Reading::trade_of))]
#[inline(always)]
fn trade(body: &[u8], into: &mut Record) -> Result<(), Refusal>
    ensures { placed into.new result ≡ trade_of body.now }
{
    if body.len() != 29 {
        return Err(Refusal::BadLength);
    }
    let moment = moment_at(body, 1).ok_or(Refusal::BadField(1))?;
    let price = price_at(body, 15).ok_or(Refusal::BadField(4))?;
    let flags = flags_of_number(u16_at(body, 27)).ok_or(Refusal::BadField(6))?;
    *into = Record::Trade {
        moment,
        symbol: u16_at(body, 9),
        number: u32_at(body, 11),
        price,
        size: u32_at(body, 23),
        flags,
    };
    Ok(())
}

#[tactic(auto, unfolding(crate::specs::Reading::cancel_of))]
#[inline(never)]
fn cancel(body: &[u8], into: &mut Record) -> Result<(), Refusal>
    ensures { placed into.new result ≡ cancel_of body.now }
{
    if body.len() != 15 {
        return Err(Refusal::BadLength);
    }
    let moment = moment_at(body, 1).ok_or(Refusal::BadField(1))?;
    *into = Record::Cancel {
        moment,
        symbol: u16_at(body, 9),
        number: u32_at(body, 11),
    };
    Ok(())
}

#[tactic(auto, unfolding(crate::specs::Reading::quote_of))]
#[inline(always)]
fn quote(body: &[u8], into: &mut Record) -> Result<(), Refusal>
    ensures { placed into.new result ≡ quote_of body.now }
{
    if body.len() != 35 {
        return Err(Refusal::BadLength);
    }
    let moment = moment_at(body, 1).ok_or(Refusal::BadField(1))?;
    let bid = optional_price_at(body, 11).ok_or(Refusal::BadField(3))?;
    let offer = optional_price_at(body, 19).ok_or(Refusal::BadField(4))?;
    *into = Record::Quote {
        moment,
        symbol: u16_at(body, 9),
        bid,
        offer,
        bid_size: u32_at(body, 27),
        offer_size: u32_at(body, 31),
    };
    Ok(())
}

#[tactic(auto, unfolding(crate::specs::Reading::index_tick_of))]
#[inline(never)]
fn index_tick(body: &[u8], into: &mut Record) -> Result<(), Refusal>
    ensures { placed into.new result ≡ index_tick_of body.now }
{
    if body.len() != 13 {
        return Err(Refusal::BadLength);
    }
    let moment = moment_at(body, 1).ok_or(Refusal::BadField(1))?;
    let value = index_at(body, 9).ok_or(Refusal::BadField(2))?;
    *into = Record::IndexTick { moment, value };
    Ok(())
}

#[tactic(auto, unfolding(crate::specs::Reading::clock_of))]
#[inline(never)]
fn clock(body: &[u8], into: &mut Record) -> Result<(), Refusal>
    ensures { placed into.new result ≡ clock_of body.now }
{
    if body.len() != 9 {
        return Err(Refusal::BadLength);
    }
    let moment = moment_at(body, 1).ok_or(Refusal::BadField(1))?;
    *into = Record::Clock { moment };
    Ok(())
}

#[tactic(auto, unfolding(crate::specs::Reading::notice_of))]
#[inline(never)]
fn notice(body: &[u8], into: &mut Record) -> Result<(), Refusal>
    ensures { placed into.new result ≡ notice_of body.now }
{
    if body.len() != 12 {
        return Err(Refusal::BadLength);
    }
    let moment = moment_at(body, 1).ok_or(Refusal::BadField(1))?;
    let kind = kind_of_byte(body[11]).ok_or(Refusal::BadField(3))?;
    *into = Record::Notice {
        moment,
        symbol: u16_at(body, 9),
        kind,
    };
    Ok(())
}

#[tactic(auto, unfolding(crate::specs::Reading::indication_of))]
#[inline(never)]
fn indication(body: &[u8], into: &mut Record) -> Result<(), Refusal>
    ensures { placed into.new result ≡ indication_of body.now }
{
    if body.len() != 20 {
        return Err(Refusal::BadLength);
    }
    let moment = moment_at(body, 1).ok_or(Refusal::BadField(1))?;
    let price = price_at(body, 11).ok_or(Refusal::BadField(3))?;
    let unmatched = unmatched_of_byte(body[19]).ok_or(Refusal::BadField(4))?;
    *into = Record::Indication {
        moment,
        symbol: u16_at(body, 9),
        price,
        unmatched,
    };
    Ok(())
}

// A function of its own: the other clauses of `decode_into` follow from its one.
#[tactic(auto, unfolding(crate::specs::Reading::record_of))]
#[inline(always)]
fn record(body: &[u8], into: &mut Record) -> Result<(), Refusal>
    ensures { placed into.new result ≡ record_of body.now }
{
    match body {
        [] => Err(Refusal::BadLength),
        [1, ..] => day(body, into),
        [2, ..] => listing(body, into),
        [3, ..] => trade(body, into),
        [4, ..] => cancel(body, into),
        [5, ..] => quote(body, into),
        [6, ..] => index_tick(body, into),
        [7, ..] => clock(body, into),
        [8, ..] => notice(body, into),
        [9, ..] => indication(body, into),
        [_, ..] => Err(Refusal::UnknownType),
    }
}

/// A record to decode another one into: a clock at midnight.
pub fn blank() -> Record
    ensures { result ≡ Record.Clock 0 }
{
    Record::Clock {
        moment: Moment::new(0).unwrap(),
    }
}

/// Puts the record that a body says in the place of another one, so that it isn't copied; or answers the first refusal: of
/// its type, of its length, or of its first field that is outside its range. An empty body has a bad length. Each record has
/// one body, and each body that decodes is that of its record. What is there after a refusal isn't said.
#[inline(always)]
pub fn decode_into(body: &[u8], into: &mut Record) -> Result<(), Refusal>
    requires { length body.now ≤ 255 }
    ensures exact { placed into.new result ≡ record_of body.now }
    ensures found { OnOk result (Spells body.now into.new) }
    ensures only { (x : Record) → Spells body.now x → placed into.new result ≡ Ok x }
{
    record(body, into)
}

/// The record that a body says, or the first refusal, as of `decode_into`.
#[inline(always)]
pub fn decode(body: &[u8]) -> Result<Record, Refusal>
    requires { length body.now ≤ 255 }
    ensures exact { result ≡ record_of body.now }
    ensures found { IfOk result (Spells body.now) }
    ensures only { (x : Record) → Spells body.now x → result ≡ Ok x }
{
    let mut x = blank();
    decode_into(body, &mut x)?;
    Ok(x)
}
