//! Reopening auctions after a trading pause, with collars that widen (after Nasdaq Rule 4120).
#![tactic(auto)]

mod auction;
mod collars;

pub use auction::{Auction, Indication, Origin, Round, Trial, try_round};
pub use collars::{auction_reference, first_collars};
