//! The disk that a stop may leave, effect by effect.

ghost use Rattle.std.specs.Prelude.{◌≡◌, IfOk};
ghost use Rattle.host_core.specs.Outside.{written};
ghost use Rattle.memory_host.specs.Effects.{disk_after, filled, image_after, image_of};

use crate::effect::{Effect, Pick};
use price_core::NoMemory;
use std::alloc::Global;

// The image after these effects on a disk, with the picked bytes in each range that was not synced.
pub fn replayed(
    alloc: Global,
    start: &[u8],
    effects: &[Effect],
    pick: Pick,
) -> Result<Vec<u8>, NoMemory>
    ensures { IfOk result (λ image. image.items ≡ image_of pick start.now start.now effects.now) }
{
    let mut disk = Vec::from_slice(alloc, start)?;
    let mut image = Vec::from_slice(alloc, start)?;
    for effect in effects {
        image = image_left(alloc, effect, &disk, &image, pick)?;
        disk = disk_read(alloc, effect, &disk)?;
    }
    Ok(image)
}

// What a read gives after an effect.
fn disk_read(alloc: Global, effect: &Effect, disk: &[u8]) -> Result<Vec<u8>, NoMemory>
    ensures { IfOk result (λ new. new.items ≡ disk_after disk.now effect.now) }
{
    match effect {
        Effect::Wrote(at, piece) => overwritten(alloc, disk, *at as usize, piece),
        Effect::Tore(..) | Effect::Synced | Effect::Sent(_) => Ok(Vec::from_slice(alloc, disk)?),
    }
}

// The image after an effect.
fn image_left(
    alloc: Global,
    effect: &Effect,
    disk: &[u8],
    image: &[u8],
    pick: Pick,
) -> Result<Vec<u8>, NoMemory>
    ensures { IfOk result (λ new. new.items ≡ image_after pick disk.now image.now effect.now) }
{
    match effect {
        Effect::Wrote(at, piece) | Effect::Tore(at, piece) => {
            fill(alloc, image, *at as usize, piece, pick)
        }
        Effect::Synced => Ok(Vec::from_slice(alloc, disk)?),
        Effect::Sent(_) => Ok(Vec::from_slice(alloc, image)?),
    }
}

// The image with the picked bytes in the range of a piece.
fn fill(
    alloc: Global,
    image: &[u8],
    at: usize,
    piece: &[u8],
    pick: Pick,
) -> Result<Vec<u8>, NoMemory>
    ensures { IfOk result (λ new. new.items ≡ filled pick at piece.now image.now) }
{
    match pick {
        Pick::Old => Ok(Vec::from_slice(alloc, image)?),
        Pick::New => overwritten(alloc, image, at, piece),
        Pick::Bytes(byte) => {
            let bytes = vec![in alloc; byte; piece.len()]?;
            overwritten(alloc, image, at, &bytes)
        }
    }
}

// The bytes with a piece from its offset on.
pub fn overwritten(alloc: Global, old: &[u8], at: usize, piece: &[u8]) -> Result<Vec<u8>, NoMemory>
    ensures { IfOk result (λ new. new.items ≡ written at piece.now old.now) }
{
    let begin = at.min(old.len());
    let mut new = Vec::from_slice(alloc, &old[..begin])?;
    new.extend_from_slice(piece)?;
    if piece.len() < old.len() - begin {
        new.extend_from_slice(&old[begin + piece.len()..])?;
    }
    Ok(new)
}
