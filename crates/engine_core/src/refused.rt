//! Frames of a round that are refused.

use wire_in::Refusal;

/// A refused frame of a round: how many accepted ones come before it, and why it is refused.
#[derive(Clone, Copy, Debug)]
pub struct Refused {
    pub before: usize,
    pub refusal: Refusal,
}
