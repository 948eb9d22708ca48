//! What is done in parts: ranges of ids of about the same load, and one market over several ranges.
#![tactic(auto)]

mod anew;
mod job;
mod jobs;
mod part;
mod pieces;
mod ranges;
mod shards;
mod turns;

pub use ranges::cut;
pub use shards::Shards;
