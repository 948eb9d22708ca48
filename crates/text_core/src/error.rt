//! Why a text names no value.

use thiserror::Error;

/// A line prints no value.
#[derive(Clone, Copy, Debug, PartialEq, Eq, Error)]
#[error("the line prints no value")]
pub struct BadLine;
