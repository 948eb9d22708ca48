//! What stands at the offset of a gate.

ghost use Rattle.std.specs.Prelude.{◌≡◌, ◌≢◌, ◌+◌, ◌≤◌, ◌<◌, ◌++◌, ◌∷◌, [], ℕ, List, false, IsTrue, MatchOption, length, drop};
ghost use Rattle.wire_in.specs.declared.record.Record.{Record};
ghost use Rattle.journal_core.specs.Layout.{IsBatch, frame_of, frames_of, content};
ghost use Rattle.wire_in.specs.Laws.{IsSound};

use crate::batch::Batch;
use wire_core::u32_at;
use wire_in::Record;

/// What stands at the prefix of some bytes: a closed gate, a batch of so many bytes with its gate, or neither.
#[derive(Clone, Copy, Debug, PartialEq, Eq)]
pub enum AtGate {
    Closed,
    Batch { len: usize },
    Damaged,
}

impl AtGate {
    ghost use Rattle.journal_core.specs.AtGate.{IsAtGate};

    /// Reads the prefix of some bytes. The records of a batch go into an empty one.
    pub fn read(bytes: &[u8], into: &mut Batch) -> AtGate
        requires { into.old ≡ [] }
        ensures { IsAtGate result bytes.now into.new }
    {
        match bytes {
            [] => AtGate::Damaged,
            [0, ..] => AtGate::Closed,
            [_, after @ ..] => match read_content(after, into) {
                Some(len) => AtGate::Batch { len: len + 1 },
                None => AtGate::Damaged,
            },
        }
    }
}

/// Reads the length and the frames of a batch, and answers how many bytes these are; none exactly where no batch begins
/// there.
fn read_content(bytes: &[u8], into: &mut Batch) -> Option<usize>
    requires { into.old ≡ [] }
    ensures { MatchOption result
        ((batch : List Record) (rest : List ℕ) → IsBatch batch → bytes.now ≢ content batch ++ rest)
        (λ len. IsBatch into.new × (bytes.now ≡ content into.new ++ drop len bytes.now) × (len ≡ length (frames_of into.new) + 4) × (len ≤ length bytes.now)) }
{
    if bytes.len() < 4 {
        return None;
    }
    let end = u32_at(bytes, 0) as usize + 4;
    if bytes.len() < end || !read_frames(&bytes[4..end], into) {
        return None;
    }
    Some(end)
}

/// Reads the frames of a batch; false exactly where they are not one to 64 whole frames, each of which decodes.
fn read_frames(frames: &[u8], into: &mut Batch) -> bool
    requires { into.old ≡ [] }
    ensures taken { IsTrue result → IsBatch into.new × (frames.now ≡ frames_of into.new) }
    ensures refused { result ≡ false → (batch : List Record) → IsBatch batch → frames.now ≢ frames_of batch }
{
    let mut rest = frames;
    while !rest.is_empty() {
        if into.is_full() {
            return false;
        }
        let Some(after) = take_frame(rest, into) else {
            return false;
        };
        rest = after;
    }
    !into.is_empty()
}

/// Adds the record of the frame at the prefix to a batch that has room, and answers what follows it; none exactly where no
/// frame of a record stands there. The record is decoded where it then lies.
fn take_frame<'a>(frames: &'a [u8], into: &mut Batch) -> Option<&'a [u8]>
    requires some { 0 < length frames.now }
    requires room { length into.old < 64 }
    ensures { MatchOption result
        ((x : Record) (rest : List ℕ) → IsSound x → frames.now ≢ frame_of x ++ rest)
        (λ after. (x : Record) × IsSound x × (frames.now ≡ frame_of x ++ after.now) × (into.new ≡ into.old ++ x ∷ [])) }
{
    let end = frames[0] as usize + 1;
    if frames.len() < end {
        return None;
    }
    if !into.decode(&frames[1..end]) {
        return None;
    }
    Some(&frames[end..])
}
