//! The start of a session over a journal: its records are evaluated again, and then the journal keeps what is accepted.

ghost use Rattle.std.specs.Prelude.{◌≡◌, ◌≤◌, [], IfOk, IfErr, IsTrue};
ghost use Rattle.live_core.specs.InternalServing.{IsRoom, IsFinished, IsRestored, IsUnread};

use crate::keeper::JournalKeeper;
use engine_core::{Round, Session};
use host_core::{Host, Status};
use journal_core::{BATCH_MAX, Batch};
use recovery_core::{Recovery, Waiting};
use std::alloc::Global;
use std::thread::Threads;
use stream_core::Outbox;
use yard_core::Gate;

/// A session over a journal that was read to its end, and the journal as the keeper of what it accepts.
#[derive(Drop)]
pub struct Serving {
    pub session: Session,
    pub keeper: JournalKeeper,
}

/// A session over a journal that was read to its end. Its keeper gathers records in this batch.
fn finish(recovery: Recovery, round: Round, batch: Batch) -> Serving
    requires closed { IsTrue recovery.scan.is_closed }
    requires empty { round.outcomes ≡ [] }
    requires most { (1 ≤ round.most) × (round.most ≤ BATCH_MAX) }
    ensures { IsFinished recovery round result }
{
    Serving {
        session: Session::new(recovery.engine, round, recovery.outbox),
        keeper: JournalKeeper {
            journal: recovery.scan.finish(),
            batch,
        },
    }
}

/// Room for what is sent again, for a batch of the journal, for its records that wait to be evaluated, and for the frames of
/// the session that wait to be answered.
#[derive(Drop)]
pub struct Restoring {
    pub outbox: Outbox,
    pub batch: Batch,
    pub waiting: Waiting,
    pub round: Round,
}

/// Evaluates the records of a journal, by so many workers, from 1 to 64, and appends what a session sends before its first
/// frame is answered. One worker goes on from there.
pub fn restore<Rt: Threads + Sync, H: Host, G: Gate>(
    rt: &Rt,
    alloc: Global,
    host: &mut H,
    gate: &G,
    workers: u32,
    from: Option<u64>,
    room: Restoring,
) -> Result<Serving, Status>
    requires workers { (1 ≤ workers) × (workers ≤ 64) }
    requires room { IsRoom room }
    ensures frames { IfOk result (λ serving. serving.session.round.most ≡ room.round.most) }
    ensures restored { IfOk result (λ serving. IsRestored from serving (H.outside host.old) (H.outside host.new)) }
    ensures unread { IfErr result (λ status. IsUnread (host.new ≡ host.old) workers from status (H.outside host.old) (H.outside host.new)) }
{
    let Restoring {
        outbox,
        mut batch,
        waiting,
        round,
    } = room;
    let mut recovery = Recovery::begin(alloc, host, workers, outbox, waiting)?;
    recovery.recover(rt, alloc, host, gate, from, &mut batch)?;
    Ok(finish(recovery, round, batch))
}
