//! The generated day: records drawn from a seed, for trials and measures.
#![tactic(auto)]

mod draws;
mod generator;
mod law;
mod modulus;
mod plan;
mod send;
mod session;
mod start;
mod summary;
mod tally;

pub use generator::Generator;
pub use law::a_day_by_indexes;
pub use plan::DayPlan;
pub use send::send_day;
pub use summary::send_summary;
pub use tally::Tally;
