//! The phases that the close, a market-wide halt, the session, a regulatory halt and a trading pause bring.
#![tactic(auto)]

mod pausing;
mod phases;
mod turning;

pub use pausing::pause;
pub use phases::{
    can_market_halt, can_start, is_done, is_in_regulatory_halt, is_limit, is_trading,
};
pub use turning::{Brakes, Turned, market_halt, regulatory_halt, session_close, start, turn};
