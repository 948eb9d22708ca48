//! The changes that a call of a host in memory makes, each whole or not at all.

ghost use Rattle.std.specs.Prelude.{◌≡◌, ◌≤◌, [], ◌∷◌, ◌++◌, length, OnOk, OnErr};
ghost use Rattle.host_core.specs.Outside.{written};
ghost use Rattle.memory_host.specs.declared.effect.Effect.TheVariants.{Wrote, Tore, Synced, Sent};

use crate::effect::{Effect, Request};
use crate::replay::overwritten;
use price_core::NoMemory;
use std::alloc::Global;

// Writes a piece from its offset on.
pub fn wrote_at(
    alloc: Global,
    effects: &mut Vec<Effect>,
    disk: &mut Vec<u8>,
    at: u64,
    piece: &[u8],
) -> Result<(), NoMemory>
    ensures effect { OnOk result ((v : _) × (v.items ≡ piece.now) × (effects.new.items ≡ effects.old.items ++ Wrote at v ∷ [])) }
    ensures bytes { OnOk result (disk.new.items ≡ written at piece.now disk.old.items) }
    ensures same_effects { OnErr result (effects.new.items ≡ effects.old.items) }
    ensures same_bytes { OnErr result (disk.new.items ≡ disk.old.items) }
{
    let new = overwritten(alloc, disk, at as usize, piece)?;
    keep(
        effects,
        Effect::Wrote(at, Vec::from_slice(alloc, piece)?),
        disk,
        new,
    )
}

// Adds a piece to what was sent.
pub fn sent_on(
    alloc: Global,
    effects: &mut Vec<Effect>,
    sent: &mut Vec<u8>,
    piece: &[u8],
) -> Result<(), NoMemory>
    ensures effect { OnOk result ((v : _) × (v.items ≡ piece.now) × (effects.new.items ≡ effects.old.items ++ Sent v ∷ [])) }
    ensures bytes { OnOk result (sent.new.items ≡ sent.old.items ++ piece.now) }
    ensures same_effects { OnErr result (effects.new.items ≡ effects.old.items) }
    ensures same_bytes { OnErr result (sent.new.items ≡ sent.old.items) }
{
    let mut new = Vec::from_slice(alloc, sent)?;
    new.extend_from_slice(piece)?;
    keep(
        effects,
        Effect::Sent(Vec::from_slice(alloc, piece)?),
        sent,
        new,
    )
}

// A write failed, and may have torn what stood in the range of its piece.
pub fn tore_at(
    alloc: Global,
    effects: &mut Vec<Effect>,
    at: u64,
    piece: &[u8],
) -> Result<(), NoMemory>
    ensures effect { OnOk result ((v : _) × (v.items ≡ piece.now) × (effects.new.items ≡ effects.old.items ++ Tore at v ∷ [])) }
    ensures same { OnErr result (effects.new.items ≡ effects.old.items) }
{
    effects.push(Effect::Tore(at, Vec::from_slice(alloc, piece)?))?;
    Ok(())
}

// What a read gives is what a stop leaves.
pub fn synced(effects: &mut Vec<Effect>) -> Result<(), NoMemory>
    ensures effect { OnOk result (effects.new.items ≡ effects.old.items ++ Synced ∷ []) }
    ensures same { OnErr result (effects.new.items ≡ effects.old.items) }
{
    effects.push(Effect::Synced)?;
    Ok(())
}

// Keeps a read of the input.
pub fn requested(requests: &mut Vec<Request>, taken: usize, sent: usize) -> Result<(), NoMemory>
    ensures request { OnOk result (requests.new.items ≡ requests.old.items ++ record { taken = taken; sent = sent } ∷ []) }
    ensures same { OnErr result (requests.new.items ≡ requests.old.items) }
{
    requests.push(Request { taken, sent })?;
    Ok(())
}

// Keeps an effect, and puts other bytes in the place of those that are there.
fn keep(
    effects: &mut Vec<Effect>,
    effect: Effect,
    bytes: &mut Vec<u8>,
    new: Vec<u8>,
) -> Result<(), NoMemory>
    ensures effects { OnOk result (effects.new.items ≡ effects.old.items ++ effect ∷ []) }
    ensures bytes { OnOk result (bytes.new.items ≡ new.items) }
    ensures same_effects { OnErr result (effects.new.items ≡ effects.old.items) }
    ensures same_bytes { OnErr result (bytes.new.items ≡ bytes.old.items) }
{
    effects.push(effect)?;
    *bytes = new;
    Ok(())
}
