//! A journal that is read to its end, and to which the base of all its records is added where the last one is a day.

ghost use Rattle.std.specs.Prelude.{◌≡◌, ◌+◌, ◌≤◌, [], true, false, Some, IfOk, IfErr, IsTrue};
ghost use Rattle.journal_core.specs.Journal.{HasBytes};
ghost use Rattle.evaluator_core.specs.Evaluating.{workers_of};
ghost use Rattle.recovery_core.specs.Recoveries.{IsReading};
ghost use Rattle.recovery_core.specs.declared.recovery.Recovery.{Recovery};
ghost use Rattle.wire_in.specs.Records.{is_day};
ghost use Rattle.roll_core.specs.InternalRoll.{Adds, AddsBase, IsFinished, IsGathered, IsRoomFor, IsUngathered};
ghost use Rattle.roll_core.specs.Rolled.{Rolled};

use engine_core::Engine;
use host_core::{Host, Status};
use journal_core::{BATCH_MAX, Batch, Journal, Room};
use price_core::NoMemory;
use recovery_core::{Recovery, Waiting};
use std::alloc::Global;
use std::thread::Threads;
use stream_core::Outbox;
use wire_in::Record;
use yard_core::OpenGate;

/// Room for what is read.
#[derive(Drop)]
struct Reading {
    outbox: Outbox,
    batch: Batch,
    waiting: Waiting,
}

impl Reading {
    fn new(alloc: Global) -> Result<Reading, NoMemory>
        ensures outbox { IfOk result (λ room. room.outbox ≡ []) }
        ensures waiting { IfOk result (λ room. BATCH_MAX ≤ room.waiting.most) }
    {
        Ok(Reading {
            outbox: Outbox::new(alloc)?,
            batch: Batch::new(alloc)?,
            waiting: Waiting::new(alloc, Recovery::most_waiting(1))?,
        })
    }
}

/// Reads a journal, by one worker, with the room that it was given. Nothing is sent.
fn gather<Rt: Threads + Sync, H: Host>(
    rt: &Rt,
    alloc: Global,
    host: &mut H,
    outbox: Outbox,
    waiting: Waiting,
    batch: &mut Batch,
) -> Result<Recovery, Status>
    requires outbox { outbox ≡ [] }
    requires waiting { BATCH_MAX ≤ waiting.most }
    ensures gathered { IfOk result (λ recovery. IsGathered recovery (H.outside host.old) (H.outside host.new)) }
    ensures ungathered { IfErr result (λ status. IsUngathered (host.new ≡ host.old) status (H.outside host.old) (H.outside host.new)) }
{
    let mut recovery = Recovery::begin(alloc, host, 1, outbox, waiting)?;
    recovery.read(rt, host, &OpenGate, None, batch)?;
    Ok(recovery)
}

/// Room for the base of all records, of which this day is the last one. None: no lawful list has this base.
fn room_for(alloc: Global, engine: &Engine, day: &Record) -> Result<Option<Room>, NoMemory>
    requires alone { workers_of engine.now.evaluator ≡ 1 }
    ensures { IfOk result (IsRoomFor engine.now day.now) }
{
    let base = engine.base(alloc, day)?;
    if !base.is_in_range(alloc)? {
        return Ok(None);
    }
    Ok(Some(Room::new(alloc, &base)?))
}

/// Adds this base to a journal.
fn add_base<H: Host>(host: &mut H, journal: &mut Journal, room: &Room) -> Status
    requires whole { IsTrue journal.old.whole }
    requires unrolled { journal.old.rolled ≡ false }
    requires count { room.now.records ≡ journal.old.count }
    requires gate { HasBytes (journal.old.gate + 1) (H.outside host.old).disk }
    ensures { AddsBase journal.old room.now result (H.outside host.old) (H.outside host.new) }
{
    match journal.roll(host, room) {
        Ok(()) => Status::Done,
        Err(_) => Status::DiskFault,
    }
}

/// Adds the base of all records of an engine, of which this day is the last one, to their journal. Where no lawful list has this
/// base, the gate at that offset is told as damaged.
fn add_base_of<H: Host>(
    alloc: Global,
    host: &mut H,
    journal: &mut Journal,
    engine: &Engine,
    day: &Record,
    at: u64,
) -> Status
    requires whole { IsTrue journal.old.whole }
    requires unrolled { journal.old.rolled ≡ false }
    requires count { engine.now.evaluated ≡ journal.old.count }
    requires gate { HasBytes (journal.old.gate + 1) (H.outside host.old).disk }
    requires alone { workers_of engine.now.evaluator ≡ 1 }
    ensures { (recovery : Recovery) → IsFinished recovery engine.now journal.old → recovery.newest ≡ Some day.now → is_day day.now ≡ true
        → Adds recovery result (H.outside host.old) (H.outside host.new) }
{
    match room_for(alloc, engine, day) {
        Ok(Some(room)) => add_base(host, journal, &room),
        Ok(None) => Status::Damaged { at },
        Err(_) => Status::NoMemory,
    }
}

/// Adds the base of all records of an engine to their journal, unless the newest of them is no day, or the journal ends with that
/// base.
fn add<H: Host>(
    alloc: Global,
    host: &mut H,
    journal: &mut Journal,
    engine: &Engine,
    newest: Option<Record>,
    at: u64,
) -> Status
    requires whole { IsTrue journal.old.whole }
    requires count { engine.now.evaluated ≡ journal.old.count }
    requires gate { HasBytes (journal.old.gate + 1) (H.outside host.old).disk }
    requires alone { workers_of engine.now.evaluator ≡ 1 }
    ensures { (recovery : Recovery) → IsFinished recovery engine.now journal.old → recovery.newest ≡ newest → Adds recovery result (H.outside host.old) (H.outside host.new) }
{
    let Some(day) = newest else {
        return Status::NotAtDay;
    };
    if !day.is_day() {
        return Status::NotAtDay;
    }
    if journal.rolled() {
        return Status::Done;
    }
    add_base_of(alloc, host, journal, engine, &day, at)
}

/// Ends the reading of a journal, and adds the base of its records where they end with a day.
fn finish<H: Host>(alloc: Global, host: &mut H, recovery: Recovery) -> Status
    requires closed { IsTrue recovery.scan.is_closed }
    requires reading { IsReading recovery.scan recovery.engine 0 (H.outside host.old).disk }
    requires alone { workers_of recovery.engine.evaluator ≡ 1 }
    ensures { Adds recovery result (H.outside host.old) (H.outside host.new) }
{
    let Recovery {
        scan,
        engine,
        newest,
        ..
    } = recovery;
    let at = scan.at();
    let mut journal = scan.finish();
    add(alloc, host, &mut journal, &engine, newest, at)
}

/// Reads a journal to its end, and adds the base of all its records, so that later starts begin there. `NotAtDay` where the last
/// record is no day. Where the journal ends with that base, it stays as it is. Nothing is sent, and no input is read.
pub fn roll<Rt: Threads + Sync, H: Host>(rt: &Rt, alloc: Global, host: &mut H) -> Status
    ensures { Rolled (host.new ≡ host.old) result (H.outside host.old) (H.outside host.new) }
{
    let Ok(room) = Reading::new(alloc) else {
        return Status::NoMemory;
    };
    let Reading {
        outbox,
        mut batch,
        waiting,
    } = room;
    match gather(rt, alloc, host, outbox, waiting, &mut batch) {
        Ok(recovery) => finish(alloc, host, recovery),
        Err(status) => status,
    }
}
