//! What a stream is taken for.

/// What a stream is taken for: frames that are printed as lines, or lines that are packed as frames.
#[derive(Clone, Copy, Debug, PartialEq, Eq)]
pub enum Task {
    Print,
    Pack,
}
