//! Pictures of a day, of one symbol or of the market, drawn from published lines.
#![tactic(auto)]

mod axis;
mod data_end;
mod day;
mod element;
mod frame;
mod head;
mod label;
mod law;
mod market;
mod outcome;
mod picture;
mod place;
mod reading;
mod room;
mod run;
mod send;
mod shown;
mod span;
mod stop;
mod table;
mod told;
mod words;

pub use outcome::Outcome;
pub use run::chart;
pub use told::{Ending, end};
