//! The lines of a reopening auction, and what is sent for them: its cross and what each order gets.
#![tactic(auto)]

mod auction;
mod law;
mod line_reading;
mod listing;
mod reading;
mod sending;
mod stream;
mod taking;

pub use auction::Auction;
pub use law::{lines_are_read, sends_its_cross};
pub use line_reading::{read_auction, read_order};
pub use stream::cross_stream;
