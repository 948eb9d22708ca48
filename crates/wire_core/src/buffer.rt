//! Writing a frame into its buffer, field by field. Each call answers the offset behind what it wrote.

ghost use Rattle.std.specs.Prelude.{◌+◌, ◌≤◌, length};
ghost use Rattle.std.specs.Int.{w16, w32, w64, to_be_bytes};
ghost use Rattle.wire_core.specs.Frames.{Puts};

/// Writes bytes at an offset, and answers the offset behind them.
pub fn put(into: &mut [u8; 64], at: usize, bytes: &[u8]) -> usize
    requires { at + length bytes.now ≤ 64 }
    ensures { Puts bytes.now at into.old result into.new }
{
    let end = at + bytes.len();
    into[at..end].copy_from_slice(bytes);
    end
}

/// Writes a number in two bytes at an offset, and answers the offset behind it.
pub fn put_u16(into: &mut [u8; 64], at: usize, n: u16) -> usize
    requires { at + 2 ≤ 64 }
    ensures { Puts (to_be_bytes w16 n) at into.old result into.new }
{
    put(into, at, &n.to_be_bytes())
}

/// Writes a number in four bytes at an offset, and answers the offset behind it.
pub fn put_u32(into: &mut [u8; 64], at: usize, n: u32) -> usize
    requires { at + 4 ≤ 64 }
    ensures { Puts (to_be_bytes w32 n) at into.old result into.new }
{
    put(into, at, &n.to_be_bytes())
}

/// Writes a number in eight bytes at an offset, and answers the offset behind it.
pub fn put_u64(into: &mut [u8; 64], at: usize, n: u64) -> usize
    requires { at + 8 ≤ 64 }
    ensures { Puts (to_be_bytes w64 n) at into.old result into.new }
{
    put(into, at, &n.to_be_bytes())
}
