//! Room for the jobs that a yard gives back.

ghost use Rattle.std.specs.Prelude.{◌≡◌, ◌≤◌, [], vec_capacity};

use std::alloc::{AllocError, Global};

/// Room for as many jobs as a yard may have.
#[derive(Drop)]
pub struct Room<J> {
    pub jobs: Vec<J>,
    ghost empty: { jobs.items ≡ [] },
    ghost wide: { 64 ≤ vec_capacity jobs },
}

impl<J> Room<J> {
    /// Room for 64 jobs.
    pub fn new(alloc: Global) -> Result<Room<J>, AllocError> {
        let jobs = Vec::with_capacity(alloc, 64)?;
        Ok(Room { jobs })
    }
}
