//! The rules of one symbol over a kept state, in place of the history that they are defined by.
#![tactic(auto)]

mod bands;
mod due;
mod ingest;
mod messages;
mod passing;
mod pausing;
mod phase_rules;
mod publish;
mod record_fields;
mod reopening;
mod restriction;
mod rules;
mod state;
mod symbol;

pub use due::Due;
pub use messages::{MOST_OF_SYMBOL, Messages};
pub use symbol::{MarketView, Symbol};
