//! The short sale restriction of two days.

use super::script::{Step, play};
use super::values::{price, price_or_none};
use Call::{IsCarried, IsRestricted, Listed, NextDay, Relisted, RestrictsNextDay, Trade};
use short_core::Short;

/// A call of the short sale restriction of a stock, with the wanted answer. Prices are in ten-thousandths of a dollar.
#[derive(Clone, Copy)]
enum Call {
    /// A day after one that carries nothing over, with the prior close.
    Listed(Option<u64>),
    /// The day after this one, with the prior close.
    NextDay(Option<u64>),
    /// A further listing of the day.
    Relisted(Option<u64>),
    /// A trade at a price: whether it's the first that triggers.
    Trade(u64, bool),
    IsRestricted(bool),
    IsCarried(bool),
    RestrictsNextDay(bool),
}

impl Step<Short> for Call {
    fn holds(&self, short: &mut Short) -> bool {
        match *self {
            Listed(close) => {
                *short = Short::listed(price_or_none(close), false);
                true
            }
            NextDay(close) => {
                *short = Short::listed(price_or_none(close), short.next_day());
                true
            }
            Relisted(close) => {
                short.list(price_or_none(close));
                true
            }
            Trade(units, want) => short.trade(price(units)) == want,
            IsRestricted(want) => short.restricted() == want,
            IsCarried(want) => short.is_carried() == want,
            RestrictsNextDay(want) => short.next_day() == want,
        }
    }
}

#[test]
fn the_first_trade_ten_per_cent_below_triggers(rt: HostRuntime) {
    play(
        &rt,
        &mut Short::listed(None, false),
        &[
            Listed(Some(200_000)),
            Trade(180_001, false),
            IsRestricted(false),
            RestrictsNextDay(false),
            Trade(180_000, true),
            IsRestricted(true),
            RestrictsNextDay(true),
            Trade(180_000, false),
            IsRestricted(true),
            RestrictsNextDay(true),
            Trade(200_000, false),
            IsRestricted(true),
            RestrictsNextDay(true),
        ],
    )
}

#[test]
fn a_restriction_is_carried_over_one_day_alone(rt: HostRuntime) {
    play(
        &rt,
        &mut Short::listed(None, false),
        &[
            Listed(Some(200_000)),
            Trade(180_000, true),
            NextDay(Some(200_000)),
            IsRestricted(true),
            IsCarried(true),
            NextDay(Some(200_000)),
            IsRestricted(false),
        ],
    )
}

#[test]
fn a_further_listing_measures_later_trades(rt: HostRuntime) {
    play(
        &rt,
        &mut Short::listed(None, false),
        &[
            Listed(Some(200_000)),
            Relisted(Some(100_000)),
            Trade(180_000, false),
            Trade(90_000, true),
            Relisted(None),
            IsRestricted(true),
        ],
    )
}

#[test]
fn no_trade_triggers_without_a_prior_close(rt: HostRuntime) {
    play(
        &rt,
        &mut Short::listed(None, false),
        &[Trade(1, false), IsRestricted(false)],
    )
}
