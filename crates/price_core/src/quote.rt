//! What is said of a stock's prices: its tier and category, its price bands, quotations and collars.

use crate::value::{OptionalPrice, Price};

/// The tier of a stock (LULD Plan, Appendix A).
#[derive(Clone, Copy, Debug, PartialEq, Eq)]
pub enum Tier {
    One,
    Two,
}

/// The price category of a stock by its prior close: above $3.00, from $0.75 to $3.00, below $0.75
/// (LULD Plan, Appendix A).
#[derive(Clone, Copy, Debug, PartialEq, Eq)]
pub enum Category {
    Above,
    Middle,
    Below,
}

/// A side of the price bands.
#[derive(Clone, Copy, Debug, PartialEq, Eq)]
pub enum Side {
    Low,
    High,
}

/// Why a band was published: the first reference price of a run, a mean that moved by one per cent, the end of
/// a limit state, or the time of day (LULD Plan, Section V).
#[derive(Clone, Copy, Debug, PartialEq, Eq)]
pub enum Cause {
    First,
    Moved,
    Forced,
    Times,
}

/// The side of the market orders that an auction leaves unmatched.
#[derive(Clone, Copy, Debug, PartialEq, Eq)]
pub enum Unmatched {
    Nothing,
    Buy,
    Sell,
}

/// The price bands of a stock (LULD Plan, Section V).
#[derive(Clone, Copy, Debug, PartialEq, Eq)]
pub struct Bands {
    pub lower: Price,
    pub upper: Price,
}

/// The collars of a reopening auction (after Nasdaq Rule 4120).
#[derive(Clone, Copy, Debug, PartialEq, Eq)]
pub struct Collars {
    pub lower: Price,
    pub upper: Price,
}

/// The best bid and the best offer, each where there is one.
#[derive(Clone, Copy, Debug, PartialEq, Eq)]
pub struct Quotation {
    pub bid: OptionalPrice,
    pub offer: OptionalPrice,
}
