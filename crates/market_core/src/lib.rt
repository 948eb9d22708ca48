//! Admission of records, one market, and the law of its single symbols.
#![tactic(auto)]

mod admission;
mod among;
mod directory;
mod law;
mod lead;
mod market;
mod section;
mod since;
mod symbols;

pub use admission::Admission;
pub use directory::Directory;
pub use law::{a_symbol_is_isolated, sections_are_one};
pub use lead::{Lead, Today};
pub use market::{MOST_MESSAGES, Market, most_messages_of};
pub use section::Section;
