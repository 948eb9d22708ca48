//! The collars of an auction, and how they widen.

ghost use Rattle.std.specs.Prelude.{◌≡◌, ◌<◌, ◌^◌};
ghost use Rattle.reopen_core.specs.Collars.{auction_reference, collar_step, below, above, first_collars, with_lower, with_upper};

use crate::auction::Origin;
use price_core::{Bands, Collars, Price, round_cent};

/// The reference of an auction: the lower band after a limit state at it, the upper after one at that, and the reference
/// price after a straddle state (after Nasdaq Rule 4120).
pub fn auction_reference(origin: Origin, bands: &Bands, reference: Price) -> Price
    ensures { result ≡ auction_reference origin bands.now reference }
{
    match origin {
        Origin::Low => bands.lower,
        Origin::High => bands.upper,
        Origin::Straddle => reference,
    }
}

/// By how much a collar widens, in ten-thousandths of a dollar: 5 per cent of the auction reference to the nearest cent
/// above $3.00, else $0.15.
pub(crate) fn collar_step(reference: Price) -> u64
    ensures value { result ≡ collar_step reference }
    ensures range { result < 2 ^ 40 }
{
    if reference.units() > 30_000 {
        round_cent(5 * u128::from(reference.units()), 100) as u64
    } else {
        1_500
    }
}

/// The price less a step, at least the least price.
fn below(price: Price, step: u64) -> Price
    ensures { result ≡ below price step }
{
    Price::of(price.units().saturating_sub(step).max(1))
}

/// The price and a step, at most the greatest price.
fn above(price: Price, step: u64) -> Price
    requires { step < 2 ^ 40 }
    ensures { result ≡ above price step }
{
    Price::of((price.units() + step).min(99_999_999_999))
}

/// The collars of round 0, with the price bands and the reference price of the stock (after Nasdaq Rule 4120).
pub fn first_collars(origin: Origin, bands: &Bands, reference: Price) -> Collars
    ensures { result ≡ first_collars origin bands.now reference }
{
    match origin {
        Origin::Low => Collars {
            lower: below(bands.lower, collar_step(bands.lower)),
            upper: bands.upper,
        },
        Origin::High => Collars {
            lower: bands.lower,
            upper: above(bands.upper, collar_step(bands.upper)),
        },
        Origin::Straddle => Collars {
            lower: below(reference, collar_step(reference)),
            upper: above(reference, collar_step(reference)),
        },
    }
}

/// The collars with the lower one a step lower.
pub(crate) fn with_lower(collars: &Collars, step: u64) -> Collars
    ensures { result ≡ with_lower collars.now step }
{
    Collars {
        lower: below(collars.lower, step),
        upper: collars.upper,
    }
}

/// The collars with the upper one a step higher.
pub(crate) fn with_upper(collars: &Collars, step: u64) -> Collars
    requires { step < 2 ^ 40 }
    ensures { result ≡ with_upper collars.now step }
{
    Collars {
        lower: collars.lower,
        upper: above(collars.upper, step),
    }
}
