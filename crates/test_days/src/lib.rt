//! Sessions for tests: what is read, line by line, and what each line gives; and both as bytes.
#![tactic(auto)]

mod days;
mod frames;
pub mod lines;

pub use days::{opened_day, paused_day};
pub use frames::{BadLine, Session, records_of};
