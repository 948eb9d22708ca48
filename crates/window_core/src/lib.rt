//! The window of five minutes, whose mean is a stock's reference price (LULD Plan, Section V).
#![tactic(auto)]

mod leaving;
mod queue;
mod tally;
mod window;

pub use tally::live_mean;
pub use window::{Deal, Window};
