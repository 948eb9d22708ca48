//! What a history says, of the records, of the market and of one symbol: each value is found by searching back from the
//! newest event.
#![tactic(auto)]

mod admission;
mod auction;
mod history;
mod market;
mod runs;
mod symbol;
mod trades;

pub use admission::{id_of, is_listed, names, verdict};
pub use auction::{indication, is_paused, last_round, origin, origin_of};
pub use history::{before_step, messages, now, open_step, records, with_first};
pub use market::{day_record, declare_at, is_market_halted, resume_at};
pub use runs::{adopted, begins_trading, begun, last_band, quote};
pub use symbol::{
    is_under_regulatory_halt, phase, prior_close, prior_close_of, since, terms, was_straddling,
};
pub use trades::{mean, opening_price, traded_price};
