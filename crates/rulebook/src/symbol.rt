//! What is said of one stock: its listing terms, and its price bands.

use price_core::{Bands, Cause, Leverage, Price, Tier};

/// What a listing says of its symbol for the day: its tier, its leverage ratio in tenths, and the prior closing price in
/// ten-thousandths of a dollar, where there is one.
#[derive(Clone, Copy, Debug, PartialEq, Eq)]
pub struct Terms {
    pub tier: Tier,
    pub leverage: Leverage,
    pub prior_close: Option<Price>,
}

/// The price bands of a symbol in ten-thousandths of a dollar, with their reference price and why they were published.
#[derive(Clone, Copy, Debug, PartialEq, Eq)]
pub struct Banded {
    pub cause: Cause,
    pub reference: Price,
    pub bands: Bands,
}
