//! Prices, their ranges and their rounding.

use super::script::{Step, check};
use super::values::{index, price};
use Arithmetic::{Fell, Mean, Moved, RoundCent};
use Number::{OfIndex, OfLeverage, OfOptionalPrice, OfPrice};
use price_core::{
    Index, Leverage, OptionalPrice, OutOfRange, Price, fell, mean, moved_one_percent, round_cent,
};

/// A number, and whether it stands in the range of a type.
#[derive(Clone, Copy)]
enum Number {
    OfPrice(u64, bool),
    OfOptionalPrice(u64, bool),
    OfIndex(u32, bool),
    OfLeverage(u8, bool),
}

/// Whether there is a price of a number, which it then has.
fn is_price(units: u64, stands: bool) -> bool {
    match Price::new(units) {
        Ok(price) => stands && price.units() == units,
        Err(OutOfRange) => !stands,
    }
}

/// Whether there is a price that may be absent of a number, which it then has, and which is absent at 0 alone.
fn is_optional_price(units: u64, stands: bool) -> bool {
    match OptionalPrice::new(units) {
        Ok(price) => {
            let there = Price::new(units).ok();
            stands
                && price.units() == units
                && price.get() == there
                && price == OptionalPrice::of(there)
        }
        Err(OutOfRange) => !stands,
    }
}

fn is_index(hundredths: u32, stands: bool) -> bool {
    match Index::new(hundredths) {
        Ok(index) => stands && index.hundredths() == hundredths,
        Err(OutOfRange) => !stands,
    }
}

fn is_leverage(tenths: u8, stands: bool) -> bool {
    match Leverage::new(tenths) {
        Ok(leverage) => stands && leverage.tenths() == tenths,
        Err(OutOfRange) => !stands,
    }
}

impl Step<()> for Number {
    fn holds(&self, _: &mut ()) -> bool {
        match *self {
            OfPrice(units, stands) => is_price(units, stands),
            OfOptionalPrice(units, stands) => is_optional_price(units, stands),
            OfIndex(hundredths, stands) => is_index(hundredths, stands),
            OfLeverage(tenths, stands) => is_leverage(tenths, stands),
        }
    }
}

/// An operation, with the wanted result. Prices are in ten-thousandths of a dollar, and index values in hundredths of a point.
#[derive(Clone, Copy)]
enum Arithmetic {
    /// The sum of some prices and how many they are, with their mean.
    Mean(u128, u64, u64),
    /// Whether a price has moved by one per cent from 50.0000.
    Moved(u64, bool),
    /// A number of ten-thousandths of a dollar over another, in whole cents.
    RoundCent(u128, u128, u128),
    /// Whether an index value has fallen by a percentage from 5000.00.
    Fell(u32, u32, bool),
}

fn is_mean(sum: u128, n: u64, want: u64) -> bool {
    let has_mean = 0 < n && u128::from(n) <= sum && sum <= 99_999_999_999 * u128::from(n);
    has_mean && mean(sum, n).units() == want
}

fn is_rounded(num: u128, den: u128, want: u128) -> bool {
    let is_small = 0 < den && den <= 1_000_000 && num < 1 << 100;
    is_small && round_cent(num, den) == want
}

impl Step<()> for Arithmetic {
    fn holds(&self, _: &mut ()) -> bool {
        match *self {
            Mean(sum, n, want) => is_mean(sum, n, want),
            Moved(units, want) => moved_one_percent(price(units), price(500_000)) == want,
            RoundCent(num, den, want) => is_rounded(num, den, want),
            Fell(value, percent, want) => {
                percent <= 100 && fell(index(value), index(500_000), percent) == want
            }
        }
    }
}

#[test]
fn values_stand_in_their_ranges(rt: HostRuntime) {
    check(
        &rt,
        &[
            OfPrice(0, false),
            OfPrice(1, true),
            OfPrice(99_999_999_999, true),
            OfPrice(100_000_000_000, false),
            OfOptionalPrice(0, true),
            OfOptionalPrice(1, true),
            OfOptionalPrice(99_999_999_999, true),
            OfOptionalPrice(100_000_000_000, false),
            OfIndex(0, false),
            OfIndex(1, true),
            OfIndex(99_999_999, true),
            OfIndex(100_000_000, false),
            OfLeverage(9, false),
            OfLeverage(10, true),
            OfLeverage(50, true),
            OfLeverage(51, false),
        ],
    );
}

#[test]
fn a_mean_is_rounded_half_up(rt: HostRuntime) {
    check(
        &rt,
        &[
            Mean(990_000, 2, 495_000),
            Mean(3, 2, 2),
            Mean(4, 3, 1),
            Mean(5, 3, 2),
            Mean(7, 2, 4),
            Mean(99_999_999_999, 1, 99_999_999_999),
        ],
    );
}

#[test]
fn a_mean_of_a_sum_of_more_than_62_bits_is_rounded_half_up(rt: HostRuntime) {
    check(
        &rt,
        &[
            Mean((1 << 62) - 1, 50_000_000, 92_233_720_369),
            Mean(1 << 62, 50_000_000, 92_233_720_369),
            Mean(
                92_233_720_369 * 50_000_000 + 25_000_000,
                50_000_000,
                92_233_720_370,
            ),
            Mean(
                92_233_720_369 * 50_000_000 + 24_999_999,
                50_000_000,
                92_233_720_369,
            ),
        ],
    );
}

#[test]
fn a_reference_price_moves_by_one_per_cent(rt: HostRuntime) {
    check(
        &rt,
        &[
            Moved(505_000, true),
            Moved(504_999, false),
            Moved(495_000, true),
            Moved(495_001, false),
        ],
    );
}

#[test]
fn half_a_cent_is_rounded_up(rt: HostRuntime) {
    check(
        &rt,
        &[
            RoundCent(150, 1, 200),
            RoundCent(149, 1, 100),
            RoundCent(23_750, 1, 23_800),
            RoundCent(299, 2, 100),
        ],
    );
}

#[test]
fn an_index_falls_by_the_percentage(rt: HostRuntime) {
    check(
        &rt,
        &[
            Fell(465_000, 7, true),
            Fell(465_001, 7, false),
            Fell(435_000, 13, true),
            Fell(400_000, 20, true),
            Fell(400_001, 20, false),
        ],
    );
}
