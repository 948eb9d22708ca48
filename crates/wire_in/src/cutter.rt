//! Bodies from the pieces of a stream.

ghost use Rattle.std.specs.Prelude.{◌≡◌, ◌≢◌, ◌↔◌, ◌⊎◌, ◌+◌, ◌-◌, ◌<◌, ◌≤◌, ◌++◌, [], min, IsTrue, List, ℕ, length, take};
ghost use Rattle.wire_core.specs.Frames.{framed};
ghost use Rattle.wire_in.specs.Cutting.{IsPartial, IsPrefix, need, is_frame, pending, rest_of, GoesOn};

use std::marker::Model;

/// How many bytes of a piece were taken, and whether a frame is whole now.
#[derive(Clone, Copy, Debug, PartialEq, Eq)]
pub struct Cut {
    pub used: usize,
    pub whole: bool,
}

/// Cuts a stream into frames, whatever its pieces are. It holds the bytes taken of the frame that was begun, or the
/// frame that was taken last.
#[derive(Drop)]
pub struct Cutter {
    bytes: [u8; 256],
    len: usize,
}

impl Model for Cutter {
    ghost use Rattle.std.specs.Prelude.{ℕ, ◌≤◌, List, take};
    ghost use Rattle.wire_in.specs.Cutting.{IsPrefix};

    ghost Value = { List ℕ };

    ghost view = { λ c. take c.len c.bytes };

    ghost invariant = { λ c. (c.len ≤ 256) × IsPrefix (take c.len c.bytes) };
}

impl Cutter {
    /// A cutter between frames.
    pub fn new() -> Cutter
        ensures { result ≡ [] }
    {
        Cutter {
            bytes: [0; 256],
            len: 0,
        }
    }

    /// How long the frame is that is held or begun, with its length byte.
    fn need(&self) -> usize
        ensures need { result ≡ need self.now }
        ensures prefix { IsPrefix self.now }
        ensures bound { result ≤ 256 }
    {
        if self.len == 0 {
            1
        } else {
            self.bytes[0] as usize + 1
        }
    }

    /// Whether the frame that is held is whole.
    fn is_frame(&self) -> bool
        ensures value { result ≡ is_frame self.now }
        ensures prefix { IsPrefix self.now }
    {
        self.len == self.need()
    }

    /// Whether bytes of an unfinished frame were taken.
    pub fn inside(&self) -> bool
        ensures { IsTrue result ↔ (pending self.now ≢ []) }
    {
        self.len > 0 && !self.is_frame()
    }

    /// The body of the frame that was taken last.
    pub fn body(&self) -> &[u8]
        requires { IsTrue (is_frame self.now) }
        ensures frame { framed result.now ≡ self.now }
        ensures short { length result.now ≤ 255 }
    {
        &self.bytes[1..self.len]
    }

    /// Takes bytes up to the end of the frame or of the piece: at least one of a piece that isn't empty. The frames that
    /// a sequence of calls finds are those of all the bytes taken, one after the other, whatever the pieces are.
    #[inline(never)]
    pub fn take(&mut self, piece: &[u8]) -> Cut
        ensures bytes { self.new ≡ pending self.old ++ take result.used piece.now }
        ensures used { result.used ≤ length piece.now }
        ensures some { 0 < length piece.now → 0 < result.used }
        ensures whole { result.whole ≡ is_frame self.new }
        ensures prefix { IsPrefix self.new }
        ensures all { IsTrue result.whole ⊎ (result.used ≡ length piece.now) }

        // Whatever bytes were read before: with those taken now they have one frame more if one is whole, and what
        // they leave is pending.
        ensures goes_on { (read : List ℕ) → pending self.old ≡ rest_of read
            → GoesOn read (take result.used piece.now) self.new }
    {
        self.restart();
        let begun = self.fill(piece);
        let used = begun + self.fill(&piece[begun..]);
        Cut {
            used,
            whole: self.is_frame(),
        }
    }

    /// Removes a whole frame.
    fn restart(&mut self)
        ensures pending { self.new ≡ pending self.old }
        ensures partial { IsPartial self.new }
    {
        if self.is_frame() {
            self.len = 0;
        }
    }

    /// Takes bytes that are known to be of this frame.
    fn fill(&mut self, piece: &[u8]) -> usize
        ensures used { result ≡ min (need self.old - length self.old) (length piece.now) }
        ensures bytes { self.new ≡ self.old ++ take result piece.now }
        ensures prefix { IsPrefix self.old }
    {
        let count = self.missing().min(piece.len());
        self.len = put(&mut self.bytes, self.len, &piece[..count]);
        count
    }

    /// How many bytes are known to be missing: the length byte, or the rest of the body.
    fn missing(&self) -> usize
        ensures missing { result ≡ need self.now - length self.now }
        ensures prefix { IsPrefix self.now }
        ensures bound { need self.now ≤ 256 }
    {
        self.need() - self.len
    }
}

/// Copies bytes to an offset, and answers the offset behind them.
fn put(bytes: &mut [u8; 256], at: usize, piece: &[u8]) -> usize
    requires { at + length piece.now ≤ 256 }
    ensures end { result ≡ at + length piece.now }
    ensures prefix { take (at + length piece.now) bytes.new ≡ take at bytes.old ++ piece.now }
{
    let end = at + piece.len();
    bytes[at..end].copy_from_slice(piece);
    end
}
