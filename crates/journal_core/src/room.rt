//! The bytes of a base, in room that is taken before it is rolled.

ghost use Rattle.std.specs.Prelude.{◌≡◌, ◌+◌, ◌*◌, ◌≤◌, ◌++◌, ◌∷◌, [], IfOk, length};
ghost use Rattle.wire_in.specs.Bases.{IsInRange, SpellsBase, base_bytes};
ghost use Rattle.journal_core.specs.Layout.{base_block, content_of};

use crate::mark::{BASE_LEAST, BASE_MARK};
use price_core::NoMemory;
use std::alloc::Global;
use std::marker::Model;
use std::snapshot::Snapshot;
use wire_in::{Base, put_base};

/// The bytes that a roll of a base writes behind a gate. Contracts see the base.
#[derive(Drop)]
pub struct Room {
    bytes: Vec<u8>,
    base: Snapshot<Base>,
}

impl Model for Room {
    ghost use Rattle.wire_in.specs.declared.base.Base.{Base};
    ghost use Rattle.journal_core.specs.Room.{IsRoom};

    ghost Value = { Base };

    ghost view = { λ r. r.base.value };

    ghost invariant = { λ r. IsRoom r.base.value r.bytes.items };
}

/// The number of the mark of a base.
fn mark_of(base: &Base) -> u32
    requires { IsInRange base.now }
    ensures { result ≡ 2147483648 + 40 + 8 * length base.now.names + 2 * length base.now.carried }
{
    let names = base.names.list().len() as u32;
    let carried = base.carried.list().len() as u32;
    BASE_MARK + BASE_LEAST + 8 * names + 2 * carried
}

impl Room {
    /// Room for this base.
    pub fn new(alloc: Global, base: &Base) -> Result<Room, NoMemory>
        requires { IsInRange base.now }
        ensures { IfOk result (λ room. room ≡ base.now) }
    {
        let mark = mark_of(base);
        let mut bytes = Vec::new(alloc);
        bytes.extend_from_slice(&mark.to_be_bytes())?;
        put_base(base, &mut bytes)?;
        bytes.push(0)?;
        Ok(Room {
            bytes,
            base: Snapshot::of(base),
        })
    }

    /// What stands behind the gate of the base, and a closed gate.
    pub(crate) fn bytes(&self) -> &[u8]
        ensures bytes { result.now ≡ content_of (base_block self.now) ++ 0 ∷ [] }
        ensures spelled { SpellsBase (base_bytes self.now) self.now }
        ensures most { length result.now ≤ 163885 }
    {
        &self.bytes
    }
}
