//! Prices, index values and the small values that every rule speaks of, with their exact arithmetic.
#![tactic(auto)]

mod arithmetic;
mod error;
mod quote;
mod value;

pub use arithmetic::{fell, mean, moved_one_percent, round_cent};
pub use error::{NoMemory, OutOfRange};
pub use quote::{Bands, Category, Cause, Collars, Quotation, Side, Tier, Unmatched};
pub use value::{Index, Leverage, OptionalPrice, Price};
