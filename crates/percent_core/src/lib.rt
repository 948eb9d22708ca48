//! The percentage parameters of the price bands, and the price bands of a reference price.
#![tactic(auto)]

mod parameter;
mod price_bands;

pub use parameter::{category, percent, span};
pub use price_bands::bands;
