//! Percentages by tier, price and time of the day.

use super::script::{Step, check};
use super::values::{day, moment, price, price_or_none};
use Row::{BandsAt, CategoryOf, SpanAt};
use percent_core::{bands, category, percent, span};
use price_core::{Bands, Category, Leverage, Tier};
use session_core::{Close, Profile, Span};

/// A row with the wanted answer. Prices are in ten-thousandths of a dollar, and times nanoseconds of the day.
#[derive(Clone, Copy)]
enum Row {
    /// The category of a prior close.
    CategoryOf(Option<u64>, Category),
    /// The part of the session at a time of a day with that close.
    SpanAt(Close, u64, Span),
    /// The bands of a stock at a reference price and a time of a regular day.
    BandsAt(Stock, u64, u64, (u64, u64)),
}

/// A stock with its prior close and its leverage ratio in tenths.
#[derive(Clone, Copy)]
struct Stock {
    close: u64,
    tier: Tier,
    leverage: u8,
}

fn bands_at(stock: Stock, reference: u64, nanos: u64) -> Bands {
    let category = category(Some(price(stock.close)));
    let span = span(moment(nanos), &day(Close::Regular));
    let percent = percent(stock.tier, category, span, Profile::Since18);
    let leverage = Leverage::new(stock.leverage.clamp(10, 50)).unwrap();
    bands(price(reference), category, percent, leverage)
}

impl Step<()> for Row {
    fn holds(&self, _: &mut ()) -> bool {
        match *self {
            CategoryOf(close, want) => category(price_or_none(close)) == want,
            SpanAt(close, nanos, want) => span(moment(nanos), &day(close)) == want,
            BandsAt(stock, reference, nanos, (lower, upper)) => {
                let bands = bands_at(stock, reference, nanos);
                bands.lower.units() == lower && bands.upper.units() == upper
            }
        }
    }
}

const AT_9_30: u64 = 34_200_000_000_000;

const AT_9_45: u64 = 35_100_000_000_000;

const AT_10_00: u64 = 36_000_000_000_000;

/// 25 minutes before an early close.
const AT_12_35: u64 = 45_300_000_000_000;

/// 25 minutes before a regular close.
const AT_15_35: u64 = 56_100_000_000_000;

const TIER_1_AT_50: Stock = Stock {
    close: 500_000,
    tier: Tier::One,
    leverage: 10,
};

const TIER_1_AT_3: Stock = Stock {
    close: 30_000,
    ..TIER_1_AT_50
};

const TIER_2_AT_10: Stock = Stock {
    close: 100_000,
    tier: Tier::Two,
    leverage: 10,
};

const TIER_2_AT_3: Stock = Stock {
    close: 30_000,
    ..TIER_2_AT_10
};

const TIER_2_AT_70_CENTS: Stock = Stock {
    close: 7_000,
    ..TIER_2_AT_10
};

const TIER_2_AT_70_CENTS_LEVERAGED: Stock = Stock {
    leverage: 20,
    ..TIER_2_AT_70_CENTS
};

const TIER_2_AT_ONE_CENT: Stock = Stock {
    close: 100,
    ..TIER_2_AT_10
};

#[test]
fn the_price_category_comes_from_the_prior_close(rt: HostRuntime) {
    check(
        &rt,
        &[
            CategoryOf(None, Category::Above),
            CategoryOf(Some(30_001), Category::Above),
            CategoryOf(Some(30_000), Category::Middle),
            CategoryOf(Some(7_500), Category::Middle),
            CategoryOf(Some(7_499), Category::Below),
            CategoryOf(Some(1), Category::Below),
        ],
    )
}

#[test]
fn the_first_15_and_the_last_25_minutes_are_spans(rt: HostRuntime) {
    check(
        &rt,
        &[
            SpanAt(Close::Regular, AT_9_30, Span::First15),
            SpanAt(Close::Regular, AT_9_45 - 1, Span::First15),
            SpanAt(Close::Regular, AT_9_45, Span::Middle),
            SpanAt(Close::Regular, AT_15_35 - 1, Span::Middle),
            SpanAt(Close::Regular, AT_15_35, Span::Last25),
            SpanAt(Close::Early, AT_12_35 - 1, Span::Middle),
            SpanAt(Close::Early, AT_12_35, Span::Last25),
        ],
    )
}

#[test]
fn bands_are_a_percentage_away_in_whole_cents(rt: HostRuntime) {
    check(
        &rt,
        &[
            BandsAt(TIER_1_AT_50, 500_000, AT_10_00, (475_000, 525_000)),
            BandsAt(TIER_1_AT_50, 500_000, AT_15_35, (450_000, 550_000)),
            BandsAt(TIER_1_AT_50, 475_000, AT_10_00, (451_300, 498_800)),
            BandsAt(TIER_2_AT_10, 100_500, AT_9_30, (90_500, 110_600)),
            BandsAt(TIER_2_AT_10, 100_500, AT_15_35, (90_500, 110_600)),
            BandsAt(TIER_1_AT_3, 30_000, AT_10_00, (24_000, 36_000)),
            BandsAt(TIER_2_AT_3, 30_000, AT_15_35, (18_000, 42_000)),
            BandsAt(TIER_2_AT_70_CENTS, 7_000, AT_10_00, (5_500, 8_500)),
            BandsAt(TIER_2_AT_70_CENTS, 7_000, AT_15_35, (4_000, 10_000)),
            BandsAt(
                TIER_2_AT_70_CENTS_LEVERAGED,
                7_000,
                AT_10_00,
                (4_000, 10_000),
            ),
            BandsAt(
                TIER_2_AT_70_CENTS_LEVERAGED,
                7_000,
                AT_15_35,
                (1_000, 13_000),
            ),
            BandsAt(TIER_2_AT_ONE_CENT, 100, AT_10_00, (100, 200)),
            BandsAt(TIER_1_AT_50, 1_000, AT_10_00, (1_000, 1_100)),
            BandsAt(
                TIER_1_AT_50,
                99_999_999_999,
                AT_10_00,
                (95_000_000_000, 99_999_999_900),
            ),
        ],
    )
}
