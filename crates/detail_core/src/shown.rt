//! Bytes as a reader may see them.

use crate::front::front;
use std::alloc::{AllocError, Global};

/// The most characters that are shown.
const MOST: usize = 120;

/// A byte as a character: a point for one that isn't printable.
fn shown_byte(byte: u8) -> char {
    if byte >= b' ' && byte <= b'~' {
        char::from(byte)
    } else {
        '.'
    }
}

/// The first 120 of these bytes as text.
pub fn shown(alloc: Global, bytes: &[u8]) -> Result<String, AllocError> {
    let mut text = String::new(alloc);
    for byte in front(bytes, MOST) {
        text.push(shown_byte(*byte))?;
    }
    Ok(text)
}
