//! What a seat of a yard knows.

use std::collections::LinkedList;

/// What a seat has done, for proofs alone: the pieces that it claimed and still has, and those that it gave back.
pub struct SeatView<J> {
    pub claimed: LinkedList<u32>,
    pub given: LinkedList<u32>,
    /// How often it answered that no piece is left.
    pub done: u32,
    /// How many seats it stands for, and how many there are in all.
    pub seats: u32,
    pub asked: u32,
    /// The jobs as they were made, in order of places.
    pub jobs: LinkedList<J>,
}
