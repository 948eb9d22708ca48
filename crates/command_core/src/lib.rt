//! What a command line asks for, done over any host; and how a process ends.
#![tactic(auto)]

mod process;
mod program;
mod told;

pub use process::{host_of, perform};
pub use program::run;
pub use told::{Ending, end, status_line, tell};
