//! A session over a journal and a live input.

ghost use Rattle.std.specs.Prelude.{◌≡◌, ◌<◌, ◌≤◌, [], IfOk, length, vec_len};
ghost use Rattle.engine_core.specs.Serving.{IsReady};
ghost use Rattle.live_core.specs.Served.{Served};
ghost use Rattle.live_core.specs.InternalKeeping.{HasRoom};
ghost use Rattle.live_core.specs.InternalServing.{IsRoom, IsAnswered};

use crate::start::{Restoring, Serving, restore};
use engine_core::{Round, serve_input};
use host_core::{Host, Status};
use journal_core::{BATCH_MAX, Batch};
use price_core::NoMemory;
use recovery_core::{Recovery, Waiting};
use std::alloc::Global;
use std::thread::Threads;
use stream_core::{Outbox, PIECE, answer_of};
use yard_core::Gate;

/// The most bytes that one session reads.
const BYTES_MAX: u64 = 1_099_511_627_776;

/// What a session is told.
#[derive(Clone, Copy, Debug, PartialEq, Eq)]
pub struct ServeOptions {
    /// The number from which on the messages of the journal are sent again; none without it.
    pub from: Option<u64>,
    /// By how many workers the records of the journal are evaluated at its start, from 1 to 64. Those of the session are
    /// evaluated by one: a batch is sooner done than a thread begins.
    pub workers: u32,
    /// The most frames of a batch, from 1 to 64: its accepted records are appended by one append, before any answer to one of
    /// its frames is sent.
    pub batch: u32,
    /// The most bytes that the session reads, up to 1,099,511,627,776.
    pub bytes: u64,
}

/// Room for what a session sends, keeps and reads.
fn room(alloc: Global, options: &ServeOptions) -> Result<(Restoring, Vec<u8>), NoMemory>
    requires batch { (1 ≤ options.now.batch) × (options.now.batch ≤ BATCH_MAX) }
    ensures room { IfOk result (λ room. IsRoom room.0) }
    ensures frames { IfOk result (λ room. room.0.round.most ≡ options.now.batch) }
    ensures buffer { IfOk result (λ room. vec_len room.1 ≡ PIECE) }
{
    let restoring = Restoring {
        outbox: Outbox::new(alloc)?,
        batch: Batch::new(alloc)?,
        waiting: Waiting::new(alloc, Recovery::most_waiting(options.workers))?,
        round: Round::new(alloc, options.batch as usize)?,
    };
    Ok((restoring, vec![in alloc; 0; PIECE]?))
}

/// Answers the input in batches, up to its end or up to so many bytes.
fn answer<Rt: Threads + Sync, H: Host, G: Gate>(
    rt: &Rt,
    serving: &mut Serving,
    host: &mut H,
    gate: &G,
    buffer: &mut [u8],
    bytes: u64,
) -> Status
    requires buffer { 0 < length buffer.old }
    requires bytes { bytes ≤ BYTES_MAX }
    requires ready { IsReady (HasRoom serving.old.keeper.journal (H.outside host.old).disk) 64 serving.old.session }
    requires empty { serving.old.session.round.outcomes ≡ [] }
    requires fresh { serving.old.session.answered ≡ 0 }
    ensures { IsAnswered serving.old.session.round.most bytes serving.old.keeper.journal serving.new.keeper.journal serving.old.session result (H.outside host.old) (H.outside host.new) }
{
    answer_of(serve_input(
        rt,
        &mut serving.session,
        &mut serving.keeper,
        host,
        gate,
        buffer,
        bytes,
    ))
}

/// Serves with the room that it was given.
fn serve_in<Rt: Threads + Sync, H: Host, G: Gate>(
    rt: &Rt,
    alloc: Global,
    host: &mut H,
    gate: &G,
    options: &ServeOptions,
    room: Restoring,
    buffer: &mut [u8],
) -> Status
    requires workers { (1 ≤ options.now.workers) × (options.now.workers ≤ 64) }
    requires bytes { options.now.bytes ≤ BYTES_MAX }
    requires room { IsRoom room }
    requires frames { room.round.most ≡ options.now.batch }
    requires buffer { 0 < length buffer.old }
    ensures served { Served (host.new ≡ host.old) options.now.workers options.now.from options.now.batch options.now.bytes result (H.outside host.old) (H.outside host.new) }
{
    match restore(rt, alloc, host, gate, options.workers, options.from, room) {
        Ok(mut serving) => answer(rt, &mut serving, host, gate, buffer, options.bytes),
        Err(status) => status,
    }
}

/// Reads a journal and evaluates its records, sends the messages that are asked for again, and tells how many records and
/// messages there are. Then it answers the frames of the input, up to its end or up to so many bytes, in batches of at most so
/// many frames. A batch is closed when it is full and before each further read. Its accepted records are in the journal, by
/// one append, before any answer to one of its frames is sent. Several workers evaluate the records of the journal, each of which
/// passes the gate before it works, and one those of the input.
pub fn serve<Rt: Threads + Sync, H: Host, G: Gate>(
    rt: &Rt,
    alloc: Global,
    host: &mut H,
    gate: &G,
    options: &ServeOptions,
) -> Status
    requires workers { (1 ≤ options.now.workers) × (options.now.workers ≤ 64) }
    requires bytes { options.now.bytes ≤ BYTES_MAX }
    requires batch { (1 ≤ options.now.batch) × (options.now.batch ≤ BATCH_MAX) }
    ensures served { Served (host.new ≡ host.old) options.now.workers options.now.from options.now.batch options.now.bytes result (H.outside host.old) (H.outside host.new) }
{
    match room(alloc, options) {
        Ok((room, mut buffer)) => serve_in(rt, alloc, host, gate, options, room, &mut buffer),
        Err(_) => Status::NoMemory,
    }
}
