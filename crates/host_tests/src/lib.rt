//! Tests of hosts, of real files, also where each call moves a few bytes, and in memory; and of the journal over them.
#![tactic(auto)]

mod short;
#[cfg(test)]
mod tests;

pub use short::{ShortFile, ShortFiles};
