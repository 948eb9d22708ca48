//! What a journal holds, told in five lines.
#![tactic(auto)]

mod holdings;

pub use holdings::report;
