//! The short sale restriction of a stock (17 CFR 242.201, Rule 201 of Regulation SHO).
#![tactic(auto)]

mod short;

pub use short::{Short, triggers};
