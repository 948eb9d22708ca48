//! Auctions, their rounds and collars.

use super::script::{Step, play};
use super::values::{moment, price};
use Call::{Begin, Closes, Collars, Due, Extends, Indicate, NotDue, Releases, Round};
use price_core::{Bands, Unmatched};
use reopen_core::{Auction, Origin, Trial};
use session_core::Moment;

/// A call of an auction, with the wanted answer. Times are nanoseconds after 10:00:00, and prices are in ten-thousandths of
/// a dollar.
#[derive(Clone, Copy)]
enum Call {
    /// An auction at 10:00:00 with these bands and a reference price of 50.0000.
    Begin(Origin, u64, u64),
    Indicate(u64, Unmatched),
    Collars(u64, u64),
    /// The time of the next trial, in nanoseconds of the day.
    Due(u64),
    Round(u16),
    /// A trial at a time that is too early.
    NotDue(u64),
    /// A trial at a time that gives these collars.
    Extends(u64, u64, u64),
    /// A trial at a time that gives a price.
    Releases(u64, u64),
    /// A trial at a time of the last ten minutes.
    Closes(u64),
}

/// A moment so many nanoseconds after 10:00:00.
fn after(nanos: u64) -> Moment {
    moment(nanos.wrapping_add(36_000_000_000_000))
}

fn collars(lower: u64, upper: u64) -> price_core::Collars {
    price_core::Collars {
        lower: price(lower),
        upper: price(upper),
    }
}

fn begin(origin: Origin, lower: u64, upper: u64) -> Auction {
    let bands = Bands {
        lower: price(lower),
        upper: price(upper),
    };
    Auction::begin(after(0), origin, &bands, price(500_000))
}

impl Step<Auction> for Call {
    fn holds(&self, auction: &mut Auction) -> bool {
        match *self {
            Begin(origin, lower, upper) => {
                *auction = begin(origin, lower, upper);
                true
            }
            Indicate(units, unmatched) => {
                auction.indicate(price(units), unmatched);
                true
            }
            Collars(lower, upper) => auction.collars() == collars(lower, upper),
            Due(nanos) => auction.due() == nanos,
            Round(number) => auction.round() == number,
            NotDue(nanos) => auction.trial(after(nanos), false) == Trial::NotDue,
            Extends(nanos, lower, upper) => {
                auction.trial(after(nanos), false) == Trial::Extend(collars(lower, upper))
            }
            Releases(nanos, units) => {
                auction.trial(after(nanos), false) == Trial::Release(price(units))
            }
            Closes(nanos) => auction.trial(after(nanos), true) == Trial::Closing,
        }
    }
}

#[test]
fn a_price_below_widens_the_lower_collar_and_then_releases(rt: HostRuntime) {
    play(
        &rt,
        &mut begin(Origin::Low, 475_000, 525_000),
        &[
            Collars(451_200, 525_000),
            Due(36_300_000_000_000),
            Indicate(440_000, Unmatched::Nothing),
            NotDue(299_999_999_999),
            Round(0),
            Extends(300_000_000_000, 427_400, 525_000),
            Collars(427_400, 525_000),
            Round(1),
            NotDue(599_999_999_999),
            Closes(600_000_000_000),
            Releases(600_000_000_000, 440_000),
            Round(1),
        ],
    )
}

#[test]
fn the_side_that_an_indication_widens(rt: HostRuntime) {
    play(
        &rt,
        &mut begin(Origin::Low, 475_000, 525_000),
        &[
            Indicate(470_000, Unmatched::Sell),
            Extends(300_000_000_000, 427_400, 525_000),
            Begin(Origin::Low, 475_000, 525_000),
            Indicate(470_000, Unmatched::Buy),
            Extends(300_000_000_000, 451_200, 548_800),
            Begin(Origin::Low, 475_000, 525_000),
            Indicate(530_000, Unmatched::Sell),
            Extends(300_000_000_000, 451_200, 548_800),
            Begin(Origin::Low, 475_000, 525_000),
            Indicate(440_000, Unmatched::Buy),
            Extends(300_000_000_000, 427_400, 525_000),
        ],
    )
}

#[test]
fn the_first_collars_of_each_origin(rt: HostRuntime) {
    play(
        &rt,
        &mut begin(Origin::High, 475_000, 525_000),
        &[
            Collars(475_000, 551_300),
            Begin(Origin::Straddle, 475_000, 525_000),
            Collars(475_000, 525_000),
            Begin(Origin::Low, 30_000, 40_000),
            Collars(28_500, 40_000),
            Begin(Origin::Low, 31_000, 40_000),
            Collars(29_400, 40_000),
            Begin(Origin::Low, 100, 200),
            Collars(1, 200),
            Begin(Origin::High, 1, 99_999_999_900),
            Collars(1, 99_999_999_999),
        ],
    )
}

#[test]
fn without_an_indication_it_releases_at_the_auction_reference(rt: HostRuntime) {
    play(
        &rt,
        &mut begin(Origin::Low, 475_000, 525_000),
        &[
            Releases(300_000_000_000, 475_000),
            Begin(Origin::High, 475_000, 525_000),
            Releases(300_000_000_000, 525_000),
            Begin(Origin::Straddle, 475_000, 525_000),
            Releases(300_000_000_000, 500_000),
        ],
    )
}
