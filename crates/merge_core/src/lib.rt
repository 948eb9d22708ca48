//! Messages of several parts in one order.
#![tactic(auto)]

mod order;
mod tagged;

pub use order::merge;
pub use tagged::Tagged;
