//! Which trades count: by the moment, and by the condition bits that a trade carries.
#![tactic(auto)]

mod condition;
mod trade;

pub use condition::Condition;
pub use trade::{eligible, opening};
