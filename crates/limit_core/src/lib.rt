//! Limit states and straddle states: where a quotation stands to the price bands, and how long a limit state lasts.
#![tactic(auto)]

mod limit;
mod timer;

pub use limit::{at_limit, is_at_lower, is_at_upper, straddles};
pub use timer::{LimitTimer, has_lasted};
