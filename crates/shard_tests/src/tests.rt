//! Records in few words, on days of June 2024. Prices are ten-thousandths of a dollar.

mod anew;
mod blocks;
mod drawn;
mod meeting;
mod morning;
mod order;
mod parts;
mod yard;

use price_core::{Index, Leverage, OptionalPrice, Price, Tier};
use session_core::{Close, Date, Day, Moment, Profile};
use std::test::Fail;
use wire_in::Record;

/// The moment of that many seconds of the day, at most the last one.
fn at(seconds: u64) -> Moment {
    Moment::new(seconds.min(86_399) * 1_000_000_000).unwrap()
}

/// The moment that many seconds after 09:30:00.
fn after_open(seconds: u32) -> Moment {
    at(34_200 + u64::from(seconds))
}

fn price(units: u64) -> Price {
    Price::of(units.clamp(1, 99_999_999_999))
}

/// A day of June 2024, the 1st to the 28th, begins at 04:00:00, after an index close of 5000.00.
fn day(number: u8) -> Record {
    Record::Day {
        moment: at(14_400),
        day: Day {
            date: Date::of(2024, 6, number.clamp(1, 28)).unwrap(),
            close: Close::Regular,
            profile: Profile::Since18,
        },
        index_close: Index::new(500_000).unwrap(),
    }
}

/// A listing at a prior close of $20.00.
fn listing(moment: Moment, name: [u8; 8]) -> Record {
    Record::Listing {
        moment,
        name,
        tier: Tier::One,
        leverage: Leverage::new(10).unwrap(),
        close: Some(price(200_000)),
    }
}

/// The name of a symbol, one letter.
fn letter_of(symbol: u16) -> [u8; 8] {
    [b'A' + (symbol % 26) as u8, 0, 0, 0, 0, 0, 0, 0]
}

fn clock(moment: Moment) -> Record {
    Record::Clock { moment }
}

fn index_tick(moment: Moment, hundredths: u32) -> Record {
    Record::IndexTick {
        moment,
        value: Index::new(hundredths.clamp(1, 99_999_999)).unwrap(),
    }
}

fn quote(moment: Moment, symbol: u16, bid: u64, offer: u64) -> Record {
    Record::Quote {
        moment,
        symbol,
        bid: OptionalPrice::of(Some(price(bid))),
        offer: OptionalPrice::of(Some(price(offer))),
        bid_size: 1,
        offer_size: 1,
    }
}

fn trade(moment: Moment, symbol: u16, number: u32, units: u64, flags: u16) -> Record {
    Record::Trade {
        moment,
        symbol,
        number,
        price: price(units),
        size: 100,
        flags,
    }
}

/// An opening trade at $20.00.
fn opening(moment: Moment, symbol: u16) -> Record {
    trade(moment, symbol, 1, 200_000, 1)
}

/// A trade or a quotation of one of so many symbols, or a clock, that many seconds after 09:30:00.
fn of_session(second: u32, symbols: u16) -> Record {
    let moment = after_open(second);
    let symbol = (second % u32::from(symbols.max(1))) as u16;
    let units = 200_000 + u64::from(second % 31) * 700;
    match second % 5 {
        0 => clock(moment),
        1 => quote(moment, symbol, units, units + 100),
        _ => trade(moment, symbol, second, units, 1),
    }
}

/// Appends a record.
fn add(xs: &mut Vec<Record>, x: Record) -> Result<(), Fail> {
    xs.extend_from_slice(&[x])?;
    Ok(())
}

/// 3 June begins, and so many symbols are listed at 09:00:00.
fn list(symbols: u16, xs: &mut Vec<Record>) -> Result<(), Fail> {
    add(xs, day(3))?;
    for symbol in 0..symbols {
        add(xs, listing(at(32_400), letter_of(symbol)))?;
    }
    Ok(())
}

/// A day of so many symbols, and so many records of its session, one a second.
fn session(symbols: u16, count: u32, xs: &mut Vec<Record>) -> Result<(), Fail> {
    list(symbols, xs)?;
    for second in 0..count {
        add(xs, of_session(second, symbols))?;
    }
    Ok(())
}
