//! Whether an input looks like lines or like frames.

use crate::front::front;
use wire_in::decode;
use wire_out::get_frame;

/// How many bytes of an input are looked at for lines.
const LOOK: usize = 16;

/// Whether a byte stands in lines.
fn is_text(byte: u8) -> bool {
    byte == b'\n' || byte >= b' ' && byte <= b'~'
}

/// Whether an input that begins so looks like lines: its first bytes are printable.
pub fn looks_like_lines(begin: &[u8]) -> bool {
    begin.len() != 0 && front(begin, LOOK).iter().all(|byte| is_text(*byte))
}

/// Whether an input that begins so looks like frames: it begins with one.
pub fn looks_like_frames(begin: &[u8]) -> bool {
    let Some((len, rest)) = begin.split_first() else {
        return false;
    };
    match rest.get(..usize::from(*len)) {
        Some(body) => decode(body).is_ok() || get_frame(body).is_ok(),
        None => false,
    }
}
