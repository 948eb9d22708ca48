//! The market-wide circuit breakers of a day (NYSE Rule 7.12).
#![tactic(auto)]

mod breaker;
mod level;

pub use breaker::{Breaker, Halt};
pub use level::{declares, ends, percent_of};
