//! Tables of cases: rows of a mask, a value and an answer, of which each key matches exactly one.
#![tactic(auto)]

mod row;
mod table;

pub use row::Case;
pub use table::Cases;
