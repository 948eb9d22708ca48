//! The base of all records of a journal that ends with a day.
#![tactic(auto)]

mod rolling;

pub use rolling::roll;
