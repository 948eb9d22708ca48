//! The price at which the orders of a reopening auction cross, within its collars.
#![tactic(auto)]

mod candidates;
mod checking;
mod crossing;
mod filling;
mod order;
mod steps;

pub use checking::check;
pub use crossing::cross;
pub use filling::fills;
pub use order::{Crossed, Order, Row, Rows};
