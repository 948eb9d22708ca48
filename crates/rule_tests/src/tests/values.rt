//! Values of the rules, in few words. A number outside of its range is brought to the end of the range.

use price_core::{Index, Price};
use session_core::{Close, Date, Day, Moment, Profile};

/// The day 2024-06-03.
pub fn day(close: Close) -> Day {
    Day {
        date: Date::of(2024, 6, 3).unwrap(),
        close,
        profile: Profile::Since18,
    }
}

/// The moment of so many nanoseconds of the day.
pub fn moment(nanos: u64) -> Moment {
    Moment::new(nanos.min(86_399_999_999_999)).unwrap()
}

/// A price in ten-thousandths of a dollar.
pub fn price(units: u64) -> Price {
    Price::of(units.clamp(1, 99_999_999_999))
}

/// A price in ten-thousandths of a dollar, where there is one.
pub fn price_or_none(units: Option<u64>) -> Option<Price> {
    match units {
        Some(units) => Some(price(units)),
        None => None,
    }
}

/// An index value in hundredths of a point.
pub fn index(hundredths: u32) -> Index {
    Index::new(hundredths.clamp(1, 99_999_999)).unwrap()
}
