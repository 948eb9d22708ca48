//! The header of a journal.

ghost use Rattle.std.specs.Prelude.{◌≡◌, ◌⊎◌, ◌↔◌, ◌≤◌, ◌++◌, ◌∷◌, [], true, IsTrue, length, drop, MatchOption};
ghost use Rattle.std.specs.Int.{w64};
ghost use Rattle.wire_core.specs.Fields.{number};
ghost use Rattle.journal_core.specs.Layout.{IsLimit, header_of};
ghost use Rattle.journal_core.specs.Walk.{IsSigned, BeginsWith};

use wire_core::u64_at;

/// The most records that a journal may take.
pub const LIMIT_MAX: u64 = 2_000_000_000;

/// The offset of the first gate.
pub const FIRST_GATE: u64 = 16;

/// The bytes of an empty journal.
pub fn fresh(capacity: u64) -> [u8; 17]
    ensures { result ≡ header_of true capacity ++ 0 ∷ [] }
{
    let mut bytes = [0; 17];
    bytes[..8].copy_from_slice(b"HALTJNL2");
    bytes[8..16].copy_from_slice(&capacity.to_be_bytes());
    bytes
}

/// The capacity of the header that some bytes begin with; none exactly where they begin with no header.
pub fn limit_of(bytes: &[u8]) -> Option<u64>
    requires { 16 ≤ length bytes.now }
    ensures { MatchOption result
        ((¬ IsSigned bytes.now) ⊎ (¬ IsLimit (number w64 8 bytes.now)))
        (λ capacity. IsLimit capacity × (capacity ≡ number w64 8 bytes.now) × BeginsWith capacity bytes.now (drop 16 bytes.now)) }
{
    let capacity = u64_at(bytes, 8);
    if !is_signed(bytes) || capacity < 1 || LIMIT_MAX < capacity {
        return None;
    }
    Some(capacity)
}

/// Whether some bytes begin with the signature of a journal, of the first version or the second.
fn is_signed(bytes: &[u8]) -> bool
    ensures { IsTrue result ↔ IsSigned bytes.now }
{
    bytes.starts_with(b"HALTJNL1") || bytes.starts_with(b"HALTJNL2")
}
