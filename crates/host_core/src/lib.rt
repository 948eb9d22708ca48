//! The outside of a program: an input, a sink and a disk behind one trait, and the real one.
#![tactic(auto)]

mod counts;
mod failed;
mod fault;
mod file;
mod host;
mod line;
mod raw;
mod real;
mod send;
mod status;
mod stream;
mod whole;

pub use counts::{FaultCounts, Side, raise};
pub use failed::Failed;
pub use fault::Fault;
pub use file::{Disk, JournalFile};
pub use host::Host;
pub use line::{StatusLine, tell_line};
pub use raw::{Held, Opens, RawFile, SystemFile, SystemFiles};
pub use real::RealHost;
pub use send::send_all;
pub use status::Status;
pub use stream::{LineSource, Sink, Source, Stream, write_all};
