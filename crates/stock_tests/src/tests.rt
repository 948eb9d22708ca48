//! Records in few words: of ABC, whose id is 0, on days of June 2024.

mod admission;
mod due;
mod market;
mod pace;
mod scene;
mod script;

use price_core::{Index, Leverage, Price, Tier};
use session_core::{Close, Date, Day, Moment, Profile};
use wire_in::Record;

/// The moment of that many nanoseconds of the day, at most the last one.
fn moment(nanos: u64) -> Moment {
    Moment::new(nanos.min(86_399_999_999_999)).unwrap()
}

/// The moment of that many seconds of the day, at most the last one.
fn at(seconds: u64) -> Moment {
    moment(seconds.min(86_399) * 1_000_000_000)
}

fn price(units: u64) -> Price {
    Price::of(units.clamp(1, 99_999_999_999))
}

/// A day of June 2024, the 1st to the 28th.
fn day(number: u8) -> Day {
    Day {
        date: Date::of(2024, 6, number.clamp(1, 28)).unwrap(),
        close: Close::Regular,
        profile: Profile::Since18,
    }
}

/// A day begins at 04:00:00, after an index close of 5000.00.
fn new_day(number: u8) -> Record {
    Record::Day {
        moment: at(14_400),
        day: day(number),
        index_close: Index::new(500_000).unwrap(),
    }
}

/// A letter for each number up to 25.
fn letter(number: u16) -> u8 {
    b'A' + (number % 26) as u8
}

/// A name of three letters for a number, another for each up to 17,575.
fn name_of(number: u16) -> [u8; 8] {
    let (first, second) = (letter(number / 676), letter(number / 26));
    [first, second, letter(number), 0, 0, 0, 0, 0]
}

/// The listing of a stock of that number, at a prior close of $50.00.
fn listing(seconds: u64, number: u16) -> Record {
    Record::Listing {
        moment: at(seconds),
        name: name_of(number),
        tier: Tier::One,
        leverage: Leverage::new(10).unwrap(),
        close: Some(price(500_000)),
    }
}

fn clock(moment: Moment) -> Record {
    Record::Clock { moment }
}

/// A record of the market. Times are seconds of the day.
#[derive(Clone, Copy)]
enum Entry {
    Day(u8),
    /// The stock of a number.
    Listing(u64, u16),
    Clock(u64),
    /// Hundredths of the index.
    Tick(u64, u32),
}

fn record(entry: Entry) -> Record {
    match entry {
        Entry::Day(number) => new_day(number),
        Entry::Listing(seconds, number) => listing(seconds, number),
        Entry::Clock(seconds) => clock(at(seconds)),
        Entry::Tick(seconds, hundredths) => Record::IndexTick {
            moment: at(seconds),
            value: Index::new(hundredths.clamp(1, 99_999_999)).unwrap(),
        },
    }
}

fn trade(moment: Moment, number: u32, units: u64, flags: u16) -> Record {
    Record::Trade {
        moment,
        symbol: 0,
        number,
        price: price(units),
        size: 100,
        flags,
    }
}
