//! What a seat of a board knows.

use crate::entry::Entry;
use std::collections::LinkedList;

/// What a seat of a board knows, for proofs alone. Each list has the latest first.
pub struct SeatView {
    /// Whether it is the writer's.
    pub writes: bool,
    /// The entries that the writer has made; at a note, those that it had made by then.
    pub entries: LinkedList<Entry>,
    /// The entries of each note that a reader has met.
    pub notes: LinkedList<LinkedList<Entry>>,
    /// What was answered.
    pub answers: LinkedList<Entry>,
}
