//! Lines of a day, in few words. Prices are ten-thousandths of a dollar. The stock of most lines is ABC, with the id 0.

use price_core::{Cause, Index, Leverage, OptionalPrice, Price, Tier, Unmatched};
use session_core::{Close, Date, Day, Level, Moment, Phase, Profile};
use wire_in::{Record, Refusal};
use wire_out::Message;

/// A line of a day: a frame that is read, or what the frame before gives.
#[derive(Clone, Copy, Debug)]
pub enum Line {
    /// A frame that says a record.
    Record(Record),
    /// A frame of these bytes, which says none.
    Bytes(&'static [u8]),
    /// A message of the record before, at its moment.
    Gives(Message),
    /// The frame before is refused.
    Refused(Refusal),
}

pub const ABC: [u8; 8] = *b"ABC\0\0\0\0\0";

pub const XYZ: [u8; 8] = *b"XYZ\0\0\0\0\0";

/// A name of three letters for a number, another for each up to 17,575.
pub fn name_of(number: u16) -> [u8; 8] {
    let letter = |n: u16| b'A' + (n % 26) as u8;
    let (first, second) = (letter(number / 676), letter(number / 26));
    [first, second, letter(number), 0, 0, 0, 0, 0]
}

/// A moment of that many nanoseconds, at most the last of the day.
fn moment(nanos: u64) -> Moment {
    Moment::new(nanos.min(86_399_999_999_999)).unwrap()
}

/// A time of the day.
pub fn at(hour: u8, minute: u8, second: u8) -> Moment {
    let minutes = u64::from(hour) * 60 + u64::from(minute);
    moment((minutes * 60 + u64::from(second)) * 1_000_000_000)
}

/// The moment a nanosecond before another.
pub fn before(t: Moment) -> Moment {
    moment(t.nanos().saturating_sub(1))
}

fn price(units: u64) -> Price {
    Price::of(units.clamp(1, 99_999_999_999))
}

fn index(hundredths: u32) -> Index {
    Index::new(hundredths.clamp(1, 99_999_999)).unwrap()
}

/// A day of June 2024, the 1st to the 28th, begins at 04:00:00, after an index close of 5000.00.
pub fn day_of(number: u8, close: Close, profile: Profile) -> Line {
    Line::Record(Record::Day {
        moment: at(4, 0, 0),
        day: Day {
            date: Date::of(2024, 6, number.clamp(1, 28)).unwrap(),
            close,
            profile,
        },
        index_close: index(500_000),
    })
}

/// A day of June 2024 with a regular close.
pub fn day(number: u8) -> Line {
    day_of(number, Close::Regular, Profile::Since18)
}

/// A listing with its leverage ratio in tenths and its prior close.
pub fn listing_of(moment: Moment, name: [u8; 8], tier: Tier, tenths: u8, close: u64) -> Line {
    Line::Record(Record::Listing {
        moment,
        name,
        tier,
        leverage: Leverage::new(tenths.clamp(10, 50)).unwrap(),
        close: Some(price(close)),
    })
}

/// A listing of ABC at 04:00:00.
pub fn listing(tier: Tier, tenths: u8, close: u64) -> Line {
    listing_of(at(4, 0, 0), ABC, tier, tenths, close)
}

/// A trade of 100 shares of a stock.
pub fn trade_of(symbol: u16, moment: Moment, number: u32, units: u64, flags: u16) -> Line {
    Line::Record(Record::Trade {
        moment,
        symbol,
        number,
        price: price(units),
        size: 100,
        flags,
    })
}

pub fn trade(moment: Moment, number: u32, units: u64, flags: u16) -> Line {
    trade_of(0, moment, number, units, flags)
}

/// The best bid and offer of a stock, each of one share.
pub fn quote_of(symbol: u16, moment: Moment, bid: u64, offer: u64) -> Line {
    Line::Record(Record::Quote {
        moment,
        symbol,
        bid: OptionalPrice::of(Some(price(bid))),
        offer: OptionalPrice::of(Some(price(offer))),
        bid_size: 1,
        offer_size: 1,
    })
}

pub fn quote(moment: Moment, bid: u64, offer: u64) -> Line {
    quote_of(0, moment, bid, offer)
}

pub fn tick(moment: Moment, hundredths: u32) -> Line {
    Line::Record(Record::IndexTick {
        moment,
        value: index(hundredths),
    })
}

pub fn clock(moment: Moment) -> Line {
    Line::Record(Record::Clock { moment })
}

pub fn indication(moment: Moment, units: u64, unmatched: Unmatched) -> Line {
    Line::Record(Record::Indication {
        moment,
        symbol: 0,
        price: price(units),
        unmatched,
    })
}

/// A frame of these bytes, which says no record.
pub fn bytes(frame: &'static [u8]) -> Line {
    Line::Bytes(frame)
}

pub fn refused(refusal: Refusal) -> Line {
    Line::Refused(refusal)
}

pub fn listed_as(symbol: u16, name: [u8; 8]) -> Line {
    Line::Gives(Message::Listed { symbol, name })
}

pub fn listed() -> Line {
    listed_as(0, ABC)
}

pub fn state(phase: Phase) -> Line {
    Line::Gives(Message::State { symbol: 0, phase })
}

pub fn band(cause: Cause, reference: u64, lower: u64, upper: u64) -> Line {
    Line::Gives(Message::Band {
        symbol: 0,
        cause,
        reference: price(reference),
        lower: price(lower),
        upper: price(upper),
    })
}

pub fn collar(round: u16, lower: u64, upper: u64) -> Line {
    Line::Gives(Message::Collar {
        symbol: 0,
        round,
        lower: price(lower),
        upper: price(upper),
    })
}

pub fn release(units: u64) -> Line {
    Line::Gives(Message::Release {
        symbol: 0,
        price: price(units),
    })
}

pub fn breaker(level: Level, hundredths: u32) -> Line {
    Line::Gives(Message::Breaker {
        level,
        index: index(hundredths),
    })
}
