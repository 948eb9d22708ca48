//! Lines of detail: what a run saw of its streams and its files, and what is told of it behind the line of its end.
#![tactic(auto)]

mod asking;
mod cause;
mod details;
mod field;
mod files;
mod form;
mod front;
mod input;
mod look;
mod shown;
mod sink;
mod slip;
mod source;
mod telling;
mod watch;

pub use asking::command_words;
pub use files::{Call, DiskNotes, WatchedFile, WatchedFiles};
pub use input::InputNotes;
pub use sink::WatchedSink;
pub use source::WatchedSource;
pub use telling::tell_details;
pub use watch::Watch;
