//! Limit states and straddle states.

use super::script::{Step, check};
use super::values::{moment, price};
use Row::{Expires, Quote};
use limit_core::{LimitTimer, at_limit, straddles};
use price_core::{Bands, OptionalPrice, Price, Quotation, Side};

/// A row with the wanted answer. Prices are in ten-thousandths of a dollar, and times nanoseconds of the day.
#[derive(Clone, Copy)]
enum Row {
    /// A bid and an offer, each 0 for none, at bands of 47.5000 and 52.5000: the side that they're at, and whether they straddle.
    Quote(u64, u64, Option<Side>, bool),
    /// Whether a limit state of 10:00:00 has expired at a time.
    Expires(u64, bool),
}

fn bands() -> Bands {
    Bands {
        lower: price(475_000),
        upper: price(525_000),
    }
}

impl Step<()> for Row {
    fn holds(&self, _: &mut ()) -> bool {
        match *self {
            Quote(bid, offer, side, straddling) => {
                let bands = bands();
                let quotation = Quotation {
                    bid: OptionalPrice::of(Price::new(bid).ok()),
                    offer: OptionalPrice::of(Price::new(offer).ok()),
                };
                bands.lower.units() < bands.upper.units()
                    && at_limit(&quotation, &bands) == side
                    && straddles(&quotation, &bands) == straddling
            }
            Expires(nanos, want) => {
                let timer = LimitTimer::enter(moment(36_000_000_000_000), Side::High);
                timer.expired(moment(nanos)) == want && timer.side() == Side::High
            }
        }
    }
}

#[test]
fn a_quotation_is_at_a_band_or_straddles_it(rt: HostRuntime) {
    check(
        &rt,
        &[
            Quote(474_900, 475_000, Some(Side::Low), true),
            Quote(475_000, 475_100, None, false),
            Quote(475_000, 475_001, None, false),
            Quote(0, 474_000, Some(Side::Low), false),
            Quote(475_000, 475_000, Some(Side::Low), false),
            Quote(525_000, 525_000, Some(Side::High), false),
            Quote(525_000, 525_100, Some(Side::High), true),
            Quote(524_999, 525_001, None, true),
            Quote(526_000, 0, Some(Side::High), false),
            Quote(474_000, 480_000, None, true),
            Quote(474_999, 0, None, true),
            Quote(480_000, 475_000, None, false),
            Quote(530_000, 520_000, None, false),
            Quote(480_000, 520_000, None, false),
            Quote(0, 0, None, false),
        ],
    )
}

#[test]
fn a_limit_state_expires_at_15_seconds(rt: HostRuntime) {
    check(
        &rt,
        &[
            Expires(0, false),
            Expires(36_000_000_000_000, false),
            Expires(36_014_999_999_999, false),
            Expires(36_015_000_000_000, true),
            Expires(86_399_999_999_999, true),
        ],
    )
}
