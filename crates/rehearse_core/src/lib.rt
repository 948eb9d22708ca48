//! A generated day, evaluated and summed up: how many of its records are accepted, and how many messages they give.
#![tactic(auto)]

mod rehearsal;

pub use rehearsal::rehearse;
