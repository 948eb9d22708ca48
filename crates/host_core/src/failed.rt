//! That a call of a host failed.

use thiserror::Error;

/// A call failed, and the count of its kind of faults rose.
#[derive(Clone, Copy, Debug, PartialEq, Eq, Error)]
#[error("the call failed")]
pub struct Failed;
