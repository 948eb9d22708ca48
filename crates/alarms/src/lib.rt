//! Moments by place, and the first of them that is due.
#![tactic(auto)]

mod alarms;

pub use alarms::Alarms;
