//! What the first line of an auction says.

use price_core::{Collars, Price};
use session_core::Moment;

/// An auction: when it is held, of which symbol, its reference price and its collars.
#[derive(Clone, Copy, Debug, PartialEq, Eq)]
pub struct Auction {
    pub moment: Moment,
    pub symbol: u16,
    pub reference: Price,
    pub collars: Collars,
}
