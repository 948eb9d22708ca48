//! The bytes of a buffer.

/// The byte of a buffer where nothing was written.
pub const UNWRITTEN: u8 = 0xee;

/// The most bytes of a body.
pub const MOST: usize = 45;

/// Writes bytes from an offset on, as far as there is room.
fn put(into: &mut [u8], at: usize, bytes: &[u8]) {
    let start = at.min(into.len());
    let count = bytes.len().min(into.len() - start);
    into[start..start + count].copy_from_slice(&bytes[..count]);
}

/// A body with other bytes at an offset, and with zeros behind it.
pub fn changed(body: &[u8], at: usize, bytes: &[u8]) -> [u8; MOST] {
    let mut all = [0; MOST];
    put(&mut all, 0, body);
    put(&mut all, at, bytes);
    all
}

/// Whether a frame with that body, of so many bytes in all, is all that was written into a buffer.
pub fn is_written(body: &[u8], len: usize, buffer: &[u8; 64]) -> bool {
    let mut want = [UNWRITTEN; 64];
    put(&mut want, 1, body);
    usize::from(buffer[0]) == body.len()
        && len == body.len().wrapping_add(1)
        && buffer[1..] == want[1..]
}
