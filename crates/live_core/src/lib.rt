//! A session over a journal: a live input is answered, and each acknowledged record is kept.
#![tactic(auto)]

mod keeper;
mod serving;
mod start;

pub use serving::{ServeOptions, serve};
