//! Messages with the index of their record.

use wire_out::Stamped;

/// A message, and the index in its block of the record that it answers, from 0.
#[derive(Clone, Copy, Debug, PartialEq, Eq)]
pub struct Tagged {
    pub input: u32,
    pub stamped: Stamped,
}
