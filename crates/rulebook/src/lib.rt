//! The rules as definitions: what may follow a list of records, what each record gives, and what is sent for a list of
//! frames.
#![tactic(auto)]

mod event;
mod law;
mod symbol;

pub use event::Event;
pub use law::{a_base_has_ranges, a_base_is_enough, a_base_is_read, a_base_stands_for};
pub use symbol::{Banded, Terms};

/// The most names that are ever listed.
pub const MOST_NAMES: usize = 16_384;
