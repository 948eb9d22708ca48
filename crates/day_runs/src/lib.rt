//! Worked days that stand in files: each is run in every way that the program has, and compared line by line. Files that say
//! what a command answers are compared in the same way.
#![tactic(auto)]

mod compared;
mod day;
mod files;
mod folder;
mod published;
mod replies;
mod rolled;
mod said;
mod shown;
mod stated;
mod taken_over;
mod tally;
mod text;
mod way;

pub use compared::{agree, files_agree};
pub use said::Command;
