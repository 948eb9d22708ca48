//! What a word of a board said from some moment on.

use crate::shown::{Edge, Shown};
use price_core::Side;

/// An entry of a board: what one of its words said from some moment on.
pub enum Entry {
    State { symbol: u32, shown: Shown },
    Band { symbol: u32, side: Side, edge: Edge },
}
