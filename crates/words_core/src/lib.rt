//! The command line: what the words of a process ask for.
#![tactic(auto)]

mod asked;
mod command;
mod fault;
mod help;
mod line;
mod number;
mod options;
mod plain;
mod rows;
mod setting;

pub use asked::{Asked, WordsError, parse};
pub use command::Command;
pub use fault::fault_text;
