//! Why nothing is told.

use price_core::NoMemory;
use thiserror::Error;

/// Why the program ends without having told what it was asked for.
#[derive(Clone, Copy, Debug, PartialEq, Eq, Error)]
pub enum GatewayError {
    #[error("out of memory")]
    NoMemory,
    #[error("the input could not be read")]
    ReadFault,
    #[error("the output could not be written")]
    SendFault,
    #[error("the input isn't published frames, or a board can't show them")]
    BadFrame,
    #[error("the words aren't understood: none, or pace and a count from 1 to 100000000")]
    BadWords,
    #[error("the clock could not be read")]
    ClockFault,
}

impl From<NoMemory> for GatewayError {
    fn from(_: NoMemory) -> GatewayError {
        GatewayError::NoMemory
    }
}
