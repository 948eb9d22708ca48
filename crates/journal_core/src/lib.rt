//! The journal: accepted records on a disk, in batches that a stop at any moment leaves whole or out.
#![tactic(auto)]

mod ahead;
mod at_gate;
mod batch;
mod error;
mod frames;
mod header;
mod journal;
mod law;
mod mark;
mod room;
mod scan;
mod store;
mod walk;

pub use batch::{BATCH_MAX, Batch};
pub use error::{AppendError, FormatError, RollError, ScanError};
pub use journal::{Journal, format};
pub use law::{a_held_list_is_read, a_journal_has_one_start, an_image_holds_one_list};
pub use room::Room;
pub use scan::Scan;
