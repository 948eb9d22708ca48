//! The records before the session: the day and its listings.

ghost use Rattle.std.specs.Prelude.{◌≡◌, ◌<◌};
ghost use Rattle.session_core.specs.Dates.{digit};
ghost use Rattle.session_core.specs.Moments.{seconds};
ghost use Rattle.gen_core.specs.Generated.{day_record, listing, name_of, close_of, tier_of};

use price_core::{Index, Leverage, Price, Tier};
use session_core::{Close, Date, Day, Moment, Profile};
use wire_in::Record;

/// The moment of the day and its listings: 04:00:00.
fn begin() -> Moment
    ensures { result ≡ seconds 14400 }
{
    Moment::new(14_400_000_000_000).unwrap()
}

/// The day.
#[tactic(auto, unfolding(crate::specs::Generated::day_record))]
pub fn day_record() -> Record
    ensures { result ≡ day_record }
{
    let day = Day {
        date: Date::of(2024, 6, 3).unwrap(),
        close: Close::Regular,
        profile: Profile::Since18,
    };
    Record::Day {
        moment: begin(),
        day,
        index_close: Index::new(500_000).unwrap(),
    }
}

/// The prior close of a symbol, in ten-thousandths of a dollar.
pub fn close_of(symbol: u16) -> u64
    ensures { result ≡ close_of symbol }
{
    200_000 + 100 * u64::from(symbol)
}

/// The last digit of a number, in ASCII.
fn digit(n: u16) -> u8
    ensures { result ≡ digit n }
{
    b'0' + (n % 10) as u8
}

/// The name of a symbol.
fn name_of(symbol: u16) -> [u8; 8]
    ensures { result ≡ name_of symbol }
{
    [
        b'S',
        digit(symbol / 10_000),
        digit(symbol / 1_000),
        digit(symbol / 100),
        digit(symbol / 10),
        digit(symbol),
        0,
        0,
    ]
}

/// The tier of a symbol.
fn tier_of(symbol: u16) -> Tier
    ensures { result ≡ tier_of symbol }
{
    if symbol % 2 == 0 {
        Tier::One
    } else {
        Tier::Two
    }
}

/// The listing of a symbol.
#[tactic(auto, unfolding(crate::specs::Generated::listing))]
pub fn listing(symbol: u16) -> Record
    ensures { result ≡ listing symbol }
{
    Record::Listing {
        moment: begin(),
        name: name_of(symbol),
        tier: tier_of(symbol),
        leverage: Leverage::new(10).unwrap(),
        close: Some(Price::of(close_of(symbol))),
    }
}
