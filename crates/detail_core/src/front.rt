//! The first bytes of a piece, and a part of it up to a newline.

ghost use Rattle.std.specs.Prelude.{◌≡◌, ◌<◌, ◌≤◌, ◌+◌, ◌++◌, ◌∷◌, [], length, min, take};
ghost use Rattle.text_core.specs.InternalStreams.{IsOneLine};

use text_core::line_len;

/// The first bytes of a piece; all where it has fewer.
pub fn front(piece: &[u8], count: usize) -> &[u8]
    ensures { result.now ≡ take (min count (length piece.now)) piece.now }
{
    &piece[..count.min(piece.len())]
}

/// How many bytes stand before the first newline, all where there is none.
pub fn part_len(piece: &[u8]) -> usize
    ensures within { result ≤ length piece.now }
    ensures line { IsOneLine (take result piece.now) }
    ensures ended { result < length piece.now → take (result + 1) piece.now ≡ take result piece.now ++ 10 ∷ [] }
{
    match line_len(piece) {
        Some(len) => len,
        None => piece.len(),
    }
}
