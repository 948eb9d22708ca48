//! The content of a batch in bytes.

ghost use Rattle.std.specs.Prelude.{◌≡◌, ◌+◌, ◌≤◌, ◌<◌, ◌++◌, ◌∷◌, [], All, length, take};
ghost use Rattle.wire_in.specs.Laws.{IsSound};
ghost use Rattle.wire_in.specs.Spelling.{InRange};
ghost use Rattle.journal_core.specs.Layout.{frame_of, frames_of, content};

use crate::batch::BATCH_MAX;
use wire_in::{Record, encode};

/// The most bytes of the frame of a record: one for its length, and 35 for the record.
const FRAME_MAX: usize = 36;

/// The most bytes of a batch with its gate: the gate, four bytes of length, and 64 frames of 36 bytes. As many at most
/// are written behind an open gate: the length, the frames, and the closed gate that follows them.
pub const BATCH_BYTES: usize = 2309;

/// Writes what stands behind the gate of a batch, and a closed gate. Answers how many bytes these are.
pub fn put_content(batch: &[Record], into: &mut [u8; BATCH_BYTES]) -> usize
    requires most { length batch.now ≤ BATCH_MAX }
    requires ranges { All InRange batch.now }
    ensures len { result ≡ length (frames_of batch.now) + 5 }
    ensures bytes { take result into.new ≡ content batch.now ++ 0 ∷ [] }
    ensures sound { All IsSound batch.now }
{
    let end = put_frames(batch, into);
    into[..4].copy_from_slice(&((end - 4) as u32).to_be_bytes());
    into[end] = 0;
    end + 1
}

/// Writes the frames of a batch from offset 4 on, and answers the offset behind them.
fn put_frames(batch: &[Record], into: &mut [u8; BATCH_BYTES]) -> usize
    requires most { length batch.now ≤ BATCH_MAX }
    requires ranges { All InRange batch.now }
    ensures end { result ≡ length (frames_of batch.now) + 4 }
    ensures bytes { take result into.new ≡ take 4 into.old ++ frames_of batch.now }
    ensures most { result < BATCH_BYTES }
    ensures sound { All IsSound batch.now }
{
    let mut end = 4;
    for x in batch {
        end = put_frame(x, end, into);
    }
    end
}

/// Writes the frame of a record at an offset, and answers the offset behind it.
fn put_frame(x: &Record, at: usize, into: &mut [u8; BATCH_BYTES]) -> usize
    requires range { InRange x.now }
    requires room { at + FRAME_MAX ≤ BATCH_BYTES }
    ensures end { result ≡ at + length (frame_of x.now) }
    ensures bytes { take result into.new ≡ take at into.old ++ frame_of x.now }
    ensures short { length (frame_of x.now) ≤ FRAME_MAX }
    ensures sound { IsSound x.now }
{
    let mut frame = [0; 64];
    let len = encode(x, &mut frame);
    put(&frame[..len], at, into)
}

fn put(bytes: &[u8], at: usize, into: &mut [u8; BATCH_BYTES]) -> usize
    requires { at + length bytes.now ≤ BATCH_BYTES }
    ensures end { result ≡ at + length bytes.now }
    ensures bytes { take result into.new ≡ take at into.old ++ bytes.now }
    ensures range { All (λ byte. byte < 256) bytes.now }
{
    let end = at + bytes.len();
    into[at..end].copy_from_slice(bytes);
    end
}
