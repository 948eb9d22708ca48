//! A journal that is read from its begin to its end: its records are evaluated again, and their messages sent again.
#![tactic(auto)]

mod recovery;
mod waiting;

pub use recovery::Recovery;
pub use waiting::Waiting;
