//! The command that keeps a second journal.

ghost use Rattle.std.specs.Prelude.{◌≡◌, ◌<◌, ◌≤◌, [], IfOk, length, vec_len};
ghost use Rattle.standby_core.specs.Running.{HasTaken};
ghost use Rattle.standby_core.specs.Standing.{IsReady};
ghost use Rattle.standby_core.specs.StoodBy.{StoodBy};

use crate::opening::open;
use crate::round::Round;
use crate::standing::Standby;
use host_core::{Host, Status};
use price_core::NoMemory;
use std::alloc::Global;
use stream_core::{Outbox, PIECE, answer_input, answer_of};

/// The most bytes that a standby reads.
const BYTES_MAX: u64 = 1_099_511_627_776;

/// Room for what a standby sends, gathers and reads.
fn room(alloc: Global, batch: u32) -> Result<(Outbox, Round, Vec<u8>), NoMemory>
    requires { (1 ≤ batch) × (batch ≤ 64) }
    ensures outbox { IfOk result (λ room. room.0 ≡ []) }
    ensures replies { IfOk result (λ room. room.1.replies ≡ []) }
    ensures records { IfOk result (λ room. room.1.records ≡ []) }
    ensures most { IfOk result (λ room. room.1.most ≡ batch) }
    ensures buffer { IfOk result (λ room. vec_len room.2 ≡ PIECE) }
{
    let outbox = Outbox::new(alloc)?;
    let round = Round::new(alloc, batch as usize)?;
    Ok((outbox, round, vec![in alloc; 0; PIECE]?))
}

/// Takes the frames of the input, up to its end or up to so many bytes.
fn take_input<H: Host>(
    standby: &mut Standby,
    outbox: &mut Outbox,
    host: &mut H,
    buffer: &mut [u8],
    bytes: u64,
) -> Status
    requires buffer { 0 < length buffer.old }
    requires outbox { outbox.old ≡ [] }
    requires ready { IsReady bytes standby.old (H.outside host.old) }
    ensures { HasTaken bytes standby.old result (H.outside host.old) (H.outside host.new) }
{
    answer_of(answer_input(standby, outbox, host, buffer, bytes))
}

/// As `standby`, with the room that it was given.
fn stand_by<H: Host>(
    alloc: Global,
    host: &mut H,
    outbox: &mut Outbox,
    round: Round,
    buffer: &mut [u8],
    bytes: u64,
) -> Status
    requires outbox { outbox.old ≡ [] }
    requires replies { round.replies ≡ [] }
    requires records { round.records ≡ [] }
    requires most { (1 ≤ round.most) × (round.most ≤ 64) }
    requires buffer { 0 < length buffer.old }
    requires bytes { bytes ≤ BYTES_MAX }
    ensures { StoodBy (host.new ≡ host.old) round.most bytes result (H.outside host.old) (H.outside host.new) }
{
    match open(alloc, host, round) {
        Ok(mut standby) => take_input(&mut standby, outbox, host, buffer, bytes),
        Err(status) => status,
    }
}

/// Reads a journal to its end, and then takes the frames of the input, up to its end or up to so many bytes, at most 1,099,511,627,776,
/// in batches of at most so many frames, 1 to 64. The record of a Part is kept where it comes next behind those of the journal and is
/// admissible there. The new records of a batch are in the journal, by one append, before any reply to one of its frames is sent: a Have
/// with the number of records that are kept, or a Refused. Memory is short only before the first call of the host, or for the last base
/// of the journal.
pub fn standby<H: Host>(alloc: Global, host: &mut H, batch: u32, bytes: u64) -> Status
    requires batch { (1 ≤ batch) × (batch ≤ 64) }
    requires bytes { bytes ≤ BYTES_MAX }
    ensures { StoodBy (host.new ≡ host.old) batch bytes result (H.outside host.old) (H.outside host.new) }
{
    match room(alloc, batch) {
        Ok((mut outbox, round, mut buffer)) => {
            stand_by(alloc, host, &mut outbox, round, &mut buffer, bytes)
        }
        Err(_) => Status::NoMemory,
    }
}
