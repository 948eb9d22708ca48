//! From a record with its number, and from a count, to their frames.

ghost use Rattle.std.specs.Prelude.{◌≡◌, ◌≢◌, ◌+◌, ◌≤◌, ◌∷◌, length, Some};
ghost use Rattle.std.specs.Int.{w64, to_be_bytes};
ghost use Rattle.wire_core.specs.Frames.{Frames, Puts};
ghost use Rattle.wire_in.specs.Spelling.{InRange};
ghost use Rattle.standby_core.specs.Parts.{have_bytes, have_of, have_body, part_bytes, part_of, part_body};

use wire_core::{put, put_u64};
use wire_in::{Record, encode};

/// How many bytes of a Part's body stand before the record's frame: the type and the number.
const HEAD: usize = 9;

/// Writes what a Part begins with: its length byte, its type and its number.
fn put_head(into: &mut [u8; 64], number: u64, len: usize) -> usize
    requires { len ≤ 36 }
    ensures { Puts ((len + 9) ∷ 161 ∷ to_be_bytes w64 number) 0 into.old result into.new }
{
    let at = put(into, 0, &[(HEAD + len) as u8, 0xa1]);
    put_u64(into, at, number)
}

/// Writes the Part of a record of this number at the begin of a buffer, its length byte first, and answers how many bytes it
/// has. The other bytes are kept. What is written is read as that Part.
pub fn put_part(number: u64, x: &Record, into: &mut [u8; 64]) -> usize
    requires some { number ≢ 0 }
    requires range { InRange x.now }
    ensures frame { Frames (part_bytes number x.now) into.old result into.new }
    ensures bound { result ≤ 46 }
    ensures read { part_of (part_body number x.now) ≡ Some (number, x.now) }
{
    let mut cell = [0; 64];
    let len = encode(x, &mut cell);
    let at = put_head(into, number, len);
    put(into, at, &cell[..len])
}

/// Writes the Have of a count at the begin of a buffer, its length byte first, and answers how many bytes it has. The other
/// bytes are kept. What is written is read as that Have.
pub fn put_have(count: u64, into: &mut [u8; 64]) -> usize
    ensures frame { Frames (have_bytes count) into.old result into.new }
    ensures bound { result ≡ 10 }
    ensures read { have_of (have_body count) ≡ Some count }
{
    let at = put(into, 0, &[9, 0xa2]);
    put_u64(into, at, count)
}
