//! A replay over a host: reads, evaluates and sends, up to the end of the input or to so many bytes.

ghost use Rattle.std.specs.Prelude.{◌≡◌, ◌<◌, ◌≤◌, IfOk, length};
ghost use Rattle.replay_core.specs.InternalSession.{IsFresh};
ghost use Rattle.replay_core.specs.Replayed.{Replayed};

use crate::keeper::NoKeeper;
use engine_core::{Engine, Round, Session, serve_input};
use host_core::{Host, Status};
use price_core::NoMemory;
use std::alloc::Global;
use std::thread::Threads;
use stream_core::{Outbox, PIECE, answer_of};
use yard_core::Gate;

/// The most bytes that one replay reads.
const BYTES_MAX: u64 = 1_099_511_627_776;

/// How many frames one worker judges before it answers them.
const FRAMES: usize = 64;

/// How many frames at most are judged before several workers evaluate their records together: mostly all that were read at once.
const MANY_FRAMES: usize = 65_536;

/// The most bytes that are read at once for several workers: what is kept of so many stays in the cache.
const BLOCK: usize = 1_048_576;

/// What a replay is told.
#[derive(Clone, Copy, Debug, PartialEq, Eq)]
pub struct ReplayOptions {
    /// How many workers evaluate, from 1 to 64.
    pub workers: u32,
    /// The most bytes that it reads, up to 1,099,511,627,776.
    pub bytes: u64,
}

/// How many frames are judged before so many workers evaluate and answer them.
fn frames_of(workers: u32) -> usize
    ensures { (1 ≤ result) × (result ≤ 65536) }
{
    if workers == 1 { FRAMES } else { MANY_FRAMES }
}

/// The most bytes that are read at once for so many workers.
fn piece_of(workers: u32) -> usize
    ensures { 0 < result }
{
    if workers == 1 { PIECE } else { BLOCK }
}

/// A session that begins with no records.
fn begin(alloc: Global, workers: u32) -> Result<Session, NoMemory>
    requires workers { (1 ≤ workers) × (workers ≤ 64) }
    ensures { IfOk result (IsFresh workers) }
{
    let engine = Engine::new(alloc, u64::MAX, workers)?;
    let round = Round::new(alloc, frames_of(workers))?;
    let outbox = Outbox::new(alloc)?;
    Ok(Session::new(engine, round, outbox))
}

/// What is needed before the host is called.
#[derive(Drop)]
struct Room {
    session: Session,
    buffer: Vec<u8>,
}

/// Takes the room.
fn take_room(alloc: Global, workers: u32) -> Result<Room, NoMemory>
    requires workers { (1 ≤ workers) × (workers ≤ 64) }
    ensures fresh { IfOk result (λ room. IsFresh workers room.session) }
    ensures buffer { IfOk result (λ room. 0 < length room.buffer.items) }
{
    Ok(Room {
        session: begin(alloc, workers)?,
        buffer: vec![in alloc; 0; piece_of(workers)]?,
    })
}

/// Evaluates the frames of an input over no records, up to its end or up to so many bytes of it, and sends the messages
/// and the refusals, which are the same for any number of workers. The disk is not touched.
pub fn replay<Rt: Threads + Sync, H: Host, G: Gate>(
    rt: &Rt,
    alloc: Global,
    host: &mut H,
    gate: &G,
    options: &ReplayOptions,
) -> Status
    requires workers { (1 ≤ options.now.workers) × (options.now.workers ≤ 64) }
    requires bytes { options.now.bytes ≤ BYTES_MAX }
    ensures replayed { Replayed (host.new ≡ host.old) options.now.workers options.now.bytes result (H.outside host.old) (H.outside host.new) }
{
    let Ok(mut room) = take_room(alloc, options.workers) else {
        return Status::NoMemory;
    };
    answer_of(serve_input(
        rt,
        &mut room.session,
        &mut NoKeeper,
        host,
        gate,
        &mut room.buffer,
        options.bytes,
    ))
}
