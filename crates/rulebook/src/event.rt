//! The events of a history.

use wire_in::Record;
use wire_out::Message;

/// An event of a history: a record that was accepted, or a message that was published at it.
#[derive(Clone, Copy, Debug, PartialEq, Eq)]
pub enum Event {
    Accepted(Record),
    Published(Message),
}
