//! Whether a quotation stands at a price band (LULD Plan, Section VI).

ghost use Rattle.std.specs.Prelude.{◌≡◌, ◌↔◌, ◌<◌, Some, IsTrue};
ghost use Rattle.limit_core.specs.Limits.{is_at_lower, is_at_upper, is_crossed, straddles, at_limit};

use price_core::{Bands, Price, Quotation, Side};

/// The side of the bands that a quotation is at: an offer at or below the lower band, or a bid at or above the upper
/// (LULD Plan, Section VI). None exactly where it is at neither, or crossed.
pub fn at_limit(q: &Quotation, b: &Bands) -> Option<Side>
    requires { b.now.lower < b.now.upper }
    ensures value { result ≡ at_limit q.now b.now }
    ensures low { (result ≡ Some Side.Low) ↔ IsTrue (is_at_lower q.now b.now) }
    ensures high { (result ≡ Some Side.High) ↔ IsTrue (is_at_upper q.now b.now) }
{
    if is_at_lower(q, b) {
        Some(Side::Low)
    } else if is_at_upper(q, b) {
        Some(Side::High)
    } else {
        None
    }
}

/// Whether a quotation is at the lower band: not crossed, with an offer at it or below it (LULD Plan, Section VI).
pub fn is_at_lower(q: &Quotation, b: &Bands) -> bool
    ensures { result ≡ is_at_lower q.now b.now }
{
    !is_crossed(q) && q.offer.get().is_some_and(|offer| offer <= b.lower)
}

/// Whether a quotation is at the upper band: not crossed, with a bid at it or above it (LULD Plan, Section VI).
pub fn is_at_upper(q: &Quotation, b: &Bands) -> bool
    ensures { result ≡ is_at_upper q.now b.now }
{
    !is_crossed(q) && q.bid.get().is_some_and(|bid| b.upper <= bid)
}

/// Whether a quotation straddles the bands: a bid below the lower band or an offer above the upper (LULD Plan,
/// Section VII).
pub fn straddles(q: &Quotation, b: &Bands) -> bool
    ensures { result ≡ straddles q.now b.now }
{
    q.bid.get().is_some_and(|bid| bid < b.lower)
        || q.offer.get().is_some_and(|offer| b.upper < offer)
}

/// Whether a bid is above its own offer.
fn is_crossed(q: &Quotation) -> bool
    ensures { result ≡ is_crossed q.now }
{
    match (q.bid.get(), q.offer.get()) {
        (Some(bid), Some(offer)) => offer < bid,
        _ => false,
    }
}
