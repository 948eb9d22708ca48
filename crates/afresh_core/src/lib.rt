//! The plain evaluation of a list of records. It keeps nothing but the list of events and searches it for everything: what
//! tests compare with, and what shows someone why a day gave its messages.
#![tactic(auto)]

mod book;
mod context;
mod halting;
mod limits;
mod prices;
mod reference;
mod restriction;
mod rules;

pub use reference::{afresh, is_lawful};
