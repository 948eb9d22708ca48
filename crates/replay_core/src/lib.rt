//! A replay: the messages and the refusals that an input gives over no records, with no journal.
#![tactic(auto)]

mod input;
mod keeper;

pub use input::{ReplayOptions, replay};
