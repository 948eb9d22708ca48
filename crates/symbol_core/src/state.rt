//! What is kept of a stock, and what holds during a step.

use price_core::{Price, Quotation};
use refprice_core::Reference;
use reopen_core::Auction;
use rulebook::{Banded, Terms};
use session_core::{Day, Moment, Phase};
use short_core::Short;
use window_core::Deal;
use wire_in::Record;

/// What is kept of a run of continuous trading.
#[derive(Clone, Copy, Debug)]
pub struct Run {
    pub reference: Reference,
    /// Its last quotation.
    pub quote: Option<Quotation>,
    /// Its last bands.
    pub band: Option<Banded>,
}

/// What is kept of one symbol. The small fields stand together, so that no room is left between them.
#[derive(Clone, Copy, Debug)]
pub struct Kept {
    pub id: u16,
    pub phase: Phase,
    pub straddling: bool,
    /// Whether a regulatory halt is in effect.
    pub halted: bool,
    /// The moment of the phase.
    pub since: Moment,
    /// Today's listing.
    pub terms: Option<Terms>,
    /// Today's last run.
    pub run: Option<Run>,
    /// The reopening auction, while the symbol is paused.
    pub auction: Option<Auction>,
    /// The short sale restriction.
    pub short: Short,
}

/// What belongs to the open step alone, and is gone at its end.
#[derive(Clone, Copy, Debug)]
pub struct OpenStep {
    /// Whether it has left a limit state.
    pub left_limit: bool,
    /// Whether the kept deals are of before the window's begin.
    pub is_fresh: bool,
    /// Whether its trade is the first of today that triggers the short sale restriction.
    pub restricts: bool,
    /// The price at which it released the symbol.
    pub released: Option<Price>,
    /// Its own deal, not yet among the kept ones.
    pub deal: Option<Deal>,
}

/// What the open step has for each rule.
#[derive(Clone, Copy, Debug)]
pub struct Step {
    pub moment: Moment,
    pub day: Day,
    /// Whether a market-wide halt is in effect.
    pub stopped: bool,
    pub input: Record,
}
