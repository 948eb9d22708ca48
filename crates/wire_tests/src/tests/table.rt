//! Frames with their documented bytes.

use std::process::Abort;

/// What is looked at by itself, with the answer that it has to give.
pub trait Row {
    /// Whether the answer is as wanted.
    fn holds(&self) -> bool;
}

/// Goes over the rows of a table.
pub fn check<T: Row, R: Abort>(rt: &R, rows: &[T]) {
    for (place, row) in rows.iter().enumerate() {
        assert!(rt; row.holds(), "row {place}");
    }
}
