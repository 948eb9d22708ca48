//! One market, evaluated record by record, or in blocks of records by several workers.
#![tactic(auto)]

mod ahead;
mod evaluator;
mod resting;

pub use ahead::Ahead;
pub use evaluator::Evaluator;
pub use resting::Resting;
