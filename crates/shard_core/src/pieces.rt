//! A block, taken piece by piece.

ghost use Rattle.std.specs.Prelude.{◌≡◌, ℕ, ◌≤◌, ◌++◌, true, List, OnOk, is_ok, length};
ghost use Rattle.wire_in.specs.declared.record.Record.{Record};
ghost use Rattle.shard_core.specs.Block.{AreAdmissible, Represents, followed, given};
ghost use Rattle.merge_core.specs.Merged.{GoesOn};

use crate::shards::Shards;
use merge_core::Tagged;
use price_core::NoMemory;
use std::thread::Threads;
use wire_in::Record;
use yard_core::Gate;

/// Takes the pieces of a block one after the other. An error leaves the messages of those before.
pub fn pieces<Rt: Threads + Sync, G: Gate>(
    rt: &Rt,
    shards: &mut Shards,
    xs: &[Record],
    gate: &G,
    out: &mut Vec<Tagged>,
) -> Result<(), NoMemory>
    requires working { shards.old.working ≡ true }
    requires few { length xs.now ≤ 65536 }
    ensures given { (capacity : ℕ) (applied : List Record) → Represents shards.old applied → AreAdmissible capacity applied xs.now
        → OnOk result (out.new.items ≡ out.old.items ++ given applied xs.now) }
    ensures stands { (capacity : ℕ) (applied : List Record) → Represents shards.old applied → AreAdmissible capacity applied xs.now
        → OnOk result (Represents shards.new (followed applied xs.now)) }
    ensures behind { GoesOn out.old.items out.new.items }
    ensures working { shards.new.working ≡ is_ok result }
    ensures parts { length shards.new.parts ≡ length shards.old.parts }
{
    let mut rest = xs;
    let mut first = 0u32;
    while !rest.is_empty() {
        let most = shards.most_of_piece();
        let (piece, later) = rest.split_at(most.min(rest.len()));
        shards.piece(rt, piece, first, gate, out)?;
        first += piece.len() as u32;
        rest = later;
    }
    Ok(())
}
