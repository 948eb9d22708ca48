//! What lines are of: records or published frames.

/// What the lines of a text print, or the frames of a stream spell: input records or published frames.
#[derive(Clone, Copy, Debug, PartialEq, Eq)]
pub enum Kind {
    Records,
    Published,
}
