//! The records of a journal behind its last base, evaluated again from the first to the last.

ghost use Rattle.std.specs.Prelude.{if◌then◌else◌, ◌==◌, ◌≡◌, ◌≢◌, ◌⊎◌, ◌+◌, ◌<◌, ◌≤◌, ◌^◌, ◌++◌, ◌∷◌, [], ℕ, List, Option, Some, None, Ok, Err, OnOk, IfOk, IfErr, IsOk, IsTrue, All, length, option_map, true, false, drop};
ghost use Rattle.std.specs.Option.{option_copied};
ghost use Rattle.host_core.specs.Outside.{Outside, NoFault, Elapses};
ghost use Rattle.wire_in.specs.declared.base.Base.{Base};
ghost use Rattle.wire_in.specs.declared.record.Record.{Record};
ghost use Rattle.wire_in.specs.Spelling.{InRange};
ghost use Rattle.journal_core.specs.Layout.{with_batch};
ghost use Rattle.rulebook.specs.Sent.{spelled, numbered, passed_over};
ghost use Rattle.wire_out.specs.Spelling.{spelling};
ghost use Rattle.evaluator_core.specs.Evaluating.{workers_of, IsIdle, IsWorking};
ghost use Rattle.engine_core.specs.EngineState as engines;
ghost use Rattle.stream_core.specs.Outcomes.{Sent, SentOrStarved};
ghost use Rattle.stream_core.specs.Pending.{Expects, SendsPrefix};
ghost use Rattle.recovery_core.specs.Origins.{again};
ghost use Rattle.recovery_core.specs.Starved.{StarvedAtRecord};
ghost use Rattle.recovery_core.specs.Recoveries.{IsSmall, IsBefore, Admits, Refuses, Resumes};

use crate::waiting::Waiting;
use engine_core::{Engine, ROUND_MAX, append_messages, evaluate};
use host_core::{Fault, Host, Status};
use journal_core::{BATCH_MAX, Batch, Scan};
use price_core::NoMemory;
use std::alloc::Global;
use std::thread::Threads;
use stream_core::Outbox;
use wire_in::{Base, Record};
use wire_out::{Frame, Stamped};
use yard_core::Gate;

/// How many records of a journal several workers evaluate together at most: what is kept of them stays in the cache.
const MANY_WAITING: usize = 16_384;

/// How many of a record's messages are not asked for again, where so many messages came before them.
fn passed_over(from: Option<u64>, before: u64, count: usize) -> usize
    ensures exact { result ≡ passed_over from before count }
    ensures most { result ≤ count }
{
    match from {
        None => count,
        Some(from) => from
            .saturating_sub(1)
            .saturating_sub(before)
            .min(count as u64) as usize,
    }
}

/// Appends those of a record's messages that are asked for again.
fn append_again<H: Host>(
    outbox: &mut Outbox,
    host: &mut H,
    from: Option<u64>,
    before: u64,
    messages: &[Stamped],
) -> Result<(), Fault>
    requires { before + length messages.now < 2 ^ 64 }
    ensures pending { (begin : Option (List ℕ)) (text : List ℕ) → Expects begin (H.outside host.old).sent outbox.old text
        → let skipped = passed_over from before (length messages.now) in
        OnOk result (Expects begin (H.outside host.new).sent outbox.new (text ++ spelled (numbered (before + skipped) (drop skipped messages.now)))) }
    ensures moments { (begin : Option (List ℕ)) (text : List ℕ) → Expects begin (H.outside host.old).sent outbox.old text
        → let skipped = passed_over from before (length messages.now) in
        Elapses (H.outside host.old) (H.outside host.new) (SendsPrefix begin (text ++ spelled (numbered (before + skipped) (drop skipped messages.now))) (H.outside host.old)) }
    ensures outside { Sent result (H.outside host.old) (H.outside host.new) }
    ensures unasked { from ≡ None → (IsOk result) × (outbox.new ≡ outbox.old) × (host.new ≡ host.old) }
{
    let skipped = passed_over(from, before, messages.len());
    append_messages(outbox, host, before + skipped as u64, &messages[skipped..])
}

/// Admits records of the journal, one after the other. False: one may not follow those before it, and those from it on are
/// left out.
fn admit_all(engine: &mut Engine, records: &[Record]) -> bool
    requires small { IsSmall engine.old }
    ensures admits { (capacity : ℕ) (base : Option Base) (accepted evaluated : List Record) → Admits capacity base accepted evaluated engine.old
        → IsTrue result → Admits capacity base (with_batch accepted records.now) evaluated engine.new }
    ensures refuses { (capacity : ℕ) (base : Option Base) (accepted evaluated : List Record) → Admits capacity base accepted evaluated engine.old
        → ¬ IsTrue result → Refuses capacity base accepted records.now }
    ensures rest { engine.new ≡ record engine.old { admission = engine.new.admission } }
    ensures small { IsSmall engine.new }
    ensures count { IsTrue result → engine.new.admission.count ≡ engine.old.admission.count + length records.now }
    ensures capacity { engine.new.admission.capacity ≡ engine.old.admission.capacity }
{
    for x in records {
        if engine.admission.verdict(x).is_some() {
            return false;
        }
        engine.admit(x);
    }
    true
}

/// Evaluates the oldest record of the journal that was admitted and waits, and appends its messages that are asked for again.
fn resume_record<H: Host>(
    engine: &mut Engine,
    outbox: &mut Outbox,
    host: &mut H,
    from: Option<u64>,
    x: &Record,
) -> Result<(), Fault>
    requires small { IsSmall engine.old }
    requires some { engine.old.evaluated < engine.old.admission.count }
    requires roomy { engines.IsRoomy engine.old }
    ensures resumes { (capacity : ℕ) (base : Option Base) (accepted later : List Record) (begin : Option (List ℕ)) → Resumes from capacity base accepted (x.now ∷ later) (x.now ∷ later) begin engine.old outbox.old (H.outside host.old)
        → OnOk result (Resumes from capacity base accepted later later begin engine.new outbox.new (H.outside host.new)) }
    ensures moments { (capacity : ℕ) (base : Option Base) (accepted later : List Record) (begin : Option (List ℕ)) → Resumes from capacity base accepted (x.now ∷ later) (x.now ∷ later) begin engine.old outbox.old (H.outside host.old)
        → Elapses (H.outside host.old) (H.outside host.new) (SendsPrefix begin (again from base accepted) (H.outside host.old)) }
    ensures small { OnOk result (IsSmall engine.new) }
    ensures evaluated { OnOk result (engine.new.evaluated ≡ engine.old.evaluated + 1) }
    ensures roomy { OnOk result (engines.IsRoomy engine.new) }
    ensures working { OnOk result (IsWorking engine.new.evaluator) }
    ensures workers { workers_of engine.new.evaluator ≡ workers_of engine.old.evaluator }
    ensures admission { engine.new.admission ≡ engine.old.admission }
    ensures outside { SentOrStarved result (H.outside host.old) (H.outside host.new) }
    ensures unasked { from ≡ None → outbox.old ≡ [] → (host.new ≡ host.old) × (result ≢ Err Fault.Send) × OnOk result (outbox.new ≡ []) }
    ensures starved { (capacity : ℕ) (base : Option Base) (accepted later : List Record) (begin : Option (List ℕ)) → Resumes from capacity base accepted (x.now ∷ later) (x.now ∷ later) begin engine.old outbox.old (H.outside host.old)
        → result ≡ Err Fault.Memory → StarvedAtRecord (workers_of engine.old.evaluator) (again from base) accepted begin (H.outside host.new).sent }
{
    let before = engine.published;
    evaluate(engine, outbox, host, x)?;
    append_again(outbox, host, from, before, &engine.messages)
}

/// Evaluates the records of the journal that were admitted and wait, one after the other, and appends their messages that
/// are asked for again.
fn resume_all<H: Host>(
    engine: &mut Engine,
    outbox: &mut Outbox,
    host: &mut H,
    from: Option<u64>,
    records: &[Record],
) -> Result<(), Fault>
    requires small { IsSmall engine.old }
    requires count { engine.old.admission.count ≡ engine.old.evaluated + length records.now }
    requires roomy { engines.IsRoomy engine.old }
    ensures resumes { (capacity : ℕ) (base : Option Base) (accepted : List Record) (begin : Option (List ℕ)) → Resumes from capacity base accepted records.now records.now begin engine.old outbox.old (H.outside host.old)
        → OnOk result (Resumes from capacity base accepted [] [] begin engine.new outbox.new (H.outside host.new)) }
    ensures moments { (capacity : ℕ) (base : Option Base) (accepted : List Record) (begin : Option (List ℕ)) → Resumes from capacity base accepted records.now records.now begin engine.old outbox.old (H.outside host.old)
        → Elapses (H.outside host.old) (H.outside host.new) (SendsPrefix begin (again from base accepted) (H.outside host.old)) }
    ensures small { OnOk result (IsSmall engine.new) }
    ensures all { OnOk result (engine.new.admission.count ≡ engine.new.evaluated) }
    ensures roomy { OnOk result (engines.IsRoomy engine.new) }
    ensures working { (records.now ≡ [] → IsWorking engine.old.evaluator) → OnOk result (IsWorking engine.new.evaluator) }
    ensures workers { workers_of engine.new.evaluator ≡ workers_of engine.old.evaluator }
    ensures admission { engine.new.admission ≡ engine.old.admission }
    ensures outside { SentOrStarved result (H.outside host.old) (H.outside host.new) }
    ensures unasked { from ≡ None → outbox.old ≡ [] → (host.new ≡ host.old) × (result ≢ Err Fault.Send) × OnOk result (outbox.new ≡ []) }
    ensures starved { (capacity : ℕ) (base : Option Base) (accepted : List Record) (begin : Option (List ℕ)) → Resumes from capacity base accepted records.now records.now begin engine.old outbox.old (H.outside host.old)
        → result ≡ Err Fault.Memory → StarvedAtRecord (workers_of engine.old.evaluator) (again from base) accepted begin (H.outside host.new).sent }
{
    for x in records {
        resume_record(engine, outbox, host, from, x)?;
    }
    Ok(())
}

/// What is kept while a journal is read: how far it was read, the engine of the records so far, what waits to be sent, the
/// records that wait to be evaluated, and the newest record that was read, or the day of the last base behind which none was.
#[derive(Drop)]
pub struct Recovery {
    pub scan: Scan,
    pub engine: Engine,
    pub outbox: Outbox,
    pub waiting: Waiting,
    pub newest: Option<Record>,
}

impl Recovery {
    ghost use Rattle.host_core.specs.Frames.{OnlyReadsDisk};
    ghost use Rattle.journal_core.specs.Walk.{HasBase, HasNoHeader};
    ghost use Rattle.recovery_core.specs.Ends.{TellsNoStart};
    ghost use Rattle.recovery_core.specs.Origins.{opening};
    ghost use Rattle.recovery_core.specs.Recoveries.{SendsAgain, HasDamage, StarvesAgain, IsReading, Recovers, Gathers, OnlyRecovers, Hinders};

    /// Reads the next batch, and admits its records behind those that wait. False: the journal is at its end.
    fn gather<H: Host>(&mut self, host: &mut H, batch: &mut Batch) -> Result<bool, Status>
        requires reading { IsReading self.old.scan self.old.engine (length self.old.waiting.records) (H.outside host.old).disk }
        requires room { length self.old.waiting.records + BATCH_MAX ≤ self.old.waiting.most }
        ensures gathers { (from : Option ℕ) (begin : Option (List ℕ)) (disk : List ℕ) → Gathers from begin disk self.old (H.outside host.old)
            → OnOk result (Gathers from begin disk self.new (H.outside host.new)) }
        ensures reading { OnOk result (IsReading self.new.scan self.new.engine (length self.new.waiting.records) (H.outside host.new).disk) }
        ensures goes_on { result ≡ Ok true → self.old.scan.gate < self.new.scan.gate }
        ensures within { self.new.scan.gate ≤ self.new.scan.size }
        ensures size { self.new.scan.size ≡ self.old.scan.size }
        ensures base { self.new.scan.base ≡ self.old.scan.base }
        ensures closed { result ≡ Ok false → IsTrue self.new.scan.is_closed }
        ensures workers { workers_of self.new.engine.evaluator ≡ workers_of self.old.engine.evaluator }
        ensures most { self.new.waiting.most ≡ self.old.waiting.most }
        ensures outbox { self.new.outbox ≡ self.old.outbox }
        ensures unsent { result ≢ Err Status.SendFault }
        ensures keeps { OnlyReadsDisk (H.outside host.old) (H.outside host.new) }
        ensures none { OnOk result (NoFault (H.outside host.old) (H.outside host.new)) }
        ensures hindered { IfErr result (λ status. Hinders (λ at. (from : Option ℕ) (begin : Option (List ℕ)) (disk : List ℕ) → Gathers from begin disk self.old (H.outside host.old) → HasDamage at disk)
            ⊥ ⊥ status (H.outside host.old) (H.outside host.new)) }
    {
        let more = self.scan.next(host, batch)?;
        if !more {
            return Ok(false);
        }
        let records = batch.list();
        let all = admit_all(&mut self.engine, records);
        if !all {
            return Err(Status::Damaged { at: self.scan.at() });
        }
        self.waiting.append(records);
        self.newest = records.last().copied();
        Ok(true)
    }

    /// Evaluates the records that wait: first ahead, where there are several workers, and then one after the other. Where
    /// there is more to read, they wait on while a further batch has room behind them.
    fn settle<Rt: Threads + Sync, H: Host, G: Gate>(
        &mut self,
        rt: &Rt,
        host: &mut H,
        gate: &G,
        from: Option<u64>,
        more: bool,
    ) -> Result<(), Fault>
        requires reading { IsReading self.old.scan self.old.engine (length self.old.waiting.records) (H.outside host.old).disk }
        requires most { BATCH_MAX ≤ self.old.waiting.most }
        ensures settles { (begin : Option (List ℕ)) (disk : List ℕ) → Gathers from begin disk self.old (H.outside host.old)
            → OnOk result (Gathers from begin disk self.new (H.outside host.new)) }
        ensures moments { (begin : Option (List ℕ)) (disk : List ℕ) → Gathers from begin disk self.old (H.outside host.old)
            → SendsAgain from self.old.scan.base begin disk (H.outside host.old) (H.outside host.new) }
        ensures reading { OnOk result (IsReading self.new.scan self.new.engine (length self.new.waiting.records) (H.outside host.new).disk) }
        ensures all { ¬ IsTrue more → OnOk result (self.new.waiting.records ≡ []) }
        ensures room { OnOk result (length self.new.waiting.records + BATCH_MAX ≤ self.new.waiting.most) }
        ensures scan { self.new.scan ≡ self.old.scan }
        ensures workers { workers_of self.new.engine.evaluator ≡ workers_of self.old.engine.evaluator }
        ensures outside { SentOrStarved result (H.outside host.old) (H.outside host.new) }
        ensures unasked { from ≡ None → self.old.outbox ≡ [] → (host.new ≡ host.old) × (result ≢ Err Fault.Send) × OnOk result (self.new.outbox ≡ []) }
        ensures starved { (begin : Option (List ℕ)) (disk : List ℕ) → Gathers from begin disk self.old (H.outside host.old)
            → result ≡ Err Fault.Memory → StarvesAgain (workers_of self.old.engine.evaluator) from self.old.scan.base begin disk (H.outside host.new) }
    {
        if more && self.waiting.has_room(BATCH_MAX) {
            return Ok(());
        }
        let waiting = self.waiting.list();
        self.engine.prepare(rt, gate, waiting);
        resume_all(&mut self.engine, &mut self.outbox, host, from, waiting)?;
        self.waiting.clear();
        Ok(())
    }

    /// Reads a journal to its end, and evaluates its records. Batches are gathered until a further one may have no room
    /// behind the records that wait, and then are evaluated together.
    pub fn read<Rt: Threads + Sync, H: Host, G: Gate>(
        &mut self,
        rt: &Rt,
        host: &mut H,
        gate: &G,
        from: Option<u64>,
        batch: &mut Batch,
    ) -> Result<(), Status>
        requires reading { IsReading self.old.scan self.old.engine 0 (H.outside host.old).disk }
        requires most { BATCH_MAX ≤ self.old.waiting.most }
        ensures recovers { (begin : Option (List ℕ)) (disk : List ℕ) → Recovers (again from) begin disk self.old (H.outside host.old)
            → OnOk result (Recovers (again from) begin disk self.new (H.outside host.new)) }
        ensures base { self.new.scan.base ≡ self.old.scan.base }
        ensures moments { (begin : Option (List ℕ)) (disk : List ℕ) → Recovers (again from) begin disk self.old (H.outside host.old)
            → SendsAgain from self.old.scan.base begin disk (H.outside host.old) (H.outside host.new) }
        ensures reading { OnOk result (IsReading self.new.scan self.new.engine 0 (H.outside host.new).disk) }
        ensures workers { workers_of self.new.engine.evaluator ≡ workers_of self.old.engine.evaluator }
        ensures closed { OnOk result (IsTrue self.new.scan.is_closed) }
        ensures keeps { OnlyRecovers (H.outside host.old) (H.outside host.new) }
        ensures unasked { from ≡ None → self.old.outbox ≡ [] → (result ≢ Err Status.SendFault) × OnlyReadsDisk (H.outside host.old) (H.outside host.new) }
        ensures none { OnOk result (NoFault (H.outside host.old) (H.outside host.new)) }
        ensures hindered { IfErr result (λ status. Hinders (λ at. (begin : Option (List ℕ)) (disk : List ℕ) → Recovers (again from) begin disk self.old (H.outside host.old) → HasDamage at disk)
            ⊥ ((begin : Option (List ℕ)) (disk : List ℕ) → Recovers (again from) begin disk self.old (H.outside host.old)
            → StarvesAgain (workers_of self.old.engine.evaluator) from self.old.scan.base begin disk (H.outside host.new))
            status (H.outside host.old) (H.outside host.new)) }
    {
        self.waiting.clear();
        'batches: loop {
            let more = self.gather(host, batch)?;
            self.settle(rt, host, gate, from, more)?;
            if !more {
                return Ok(());
            }
        }
    }

    /// Reads a journal to its end, evaluates its records, and appends what a session sends before its first frame is answered.
    /// From then on one worker evaluates.
    pub fn recover<Rt: Threads + Sync, H: Host, G: Gate>(
        &mut self,
        rt: &Rt,
        alloc: Global,
        host: &mut H,
        gate: &G,
        from: Option<u64>,
        batch: &mut Batch,
    ) -> Result<(), Status>
        requires reading { IsReading self.old.scan self.old.engine 0 (H.outside host.old).disk }
        requires most { BATCH_MAX ≤ self.old.waiting.most }
        ensures recovers { (begin : Option (List ℕ)) (disk : List ℕ) → Recovers (again from) begin disk self.old (H.outside host.old)
            → OnOk result (Recovers (opening from) begin disk self.new (H.outside host.new)) }
        ensures base { self.new.scan.base ≡ self.old.scan.base }
        ensures moments { (begin : Option (List ℕ)) (disk : List ℕ) → Recovers (again from) begin disk self.old (H.outside host.old)
            → SendsAgain from self.old.scan.base begin disk (H.outside host.old) (H.outside host.new) }
        ensures reading { OnOk result (IsReading self.new.scan self.new.engine 0 (H.outside host.new).disk) }
        ensures alone { OnOk result (workers_of self.new.engine.evaluator ≡ 1) }
        ensures closed { OnOk result (IsTrue self.new.scan.is_closed) }
        ensures keeps { OnlyRecovers (H.outside host.old) (H.outside host.new) }
        ensures none { OnOk result (NoFault (H.outside host.old) (H.outside host.new)) }
        ensures hindered { IfErr result (λ status. Hinders (λ at. (begin : Option (List ℕ)) (disk : List ℕ) → Recovers (again from) begin disk self.old (H.outside host.old) → HasDamage at disk)
            ⊥ ((begin : Option (List ℕ)) (disk : List ℕ) → Recovers (again from) begin disk self.old (H.outside host.old)
            → StarvesAgain (workers_of self.old.engine.evaluator) from self.old.scan.base begin disk (H.outside host.new))
            status (H.outside host.old) (H.outside host.new)) }
    {
        self.read(rt, host, gate, from, batch)?;
        // It takes no memory.
        let Ok(()) = self.engine.unite(alloc) else {
            return Err(Status::NoMemory);
        };
        greet(&self.engine, &mut self.outbox, host)?;
        Ok(())
    }

    /// How many records of a journal wait at most for so many workers. Those of a batch stay in the cache of one worker, and
    /// several do best with many.
    pub fn most_waiting(workers: u32) -> usize
        ensures exact { result ≡ (if workers == 1 then 64 else 16384) }
        ensures room { BATCH_MAX ≤ result }
        ensures few { result ≤ ROUND_MAX }
    {
        if workers == 1 {
            BATCH_MAX
        } else {
            MANY_WAITING
        }
    }

    /// Begins behind the last base of a journal, or at its header where it has none, for so many workers, from 1 to 64. What
    /// waits has room for a batch.
    pub fn begin<H: Host>(
        alloc: Global,
        host: &mut H,
        workers: u32,
        outbox: Outbox,
        waiting: Waiting,
    ) -> Result<Recovery, Status>
        requires workers { (1 ≤ workers) × (workers ≤ 64) }
        requires outbox { outbox ≡ [] }
        ensures recovers { IfOk result (λ recovery. (from : Option ℕ) (disk : List ℕ) → (H.outside host.new).disk ≡ Some disk
            → Recovers (again from) (H.outside host.new).sent disk recovery (H.outside host.new)) }
        ensures reading { IfOk result (λ recovery. IsReading recovery.scan recovery.engine 0 (H.outside host.new).disk) }
        ensures workers { IfOk result (λ recovery. workers_of recovery.engine.evaluator ≡ workers) }
        ensures outbox { IfOk result (λ recovery. recovery.outbox ≡ []) }
        ensures waiting { IfOk result (λ recovery. recovery.waiting ≡ waiting) }
        ensures header { OnOk result ((disk : List ℕ) → (H.outside host.new).disk ≡ Some disk → ¬ HasNoHeader disk) }
        ensures kind { IfErr result TellsNoStart }
        ensures keeps { OnlyReadsDisk (H.outside host.old) (H.outside host.new) }
        ensures none { OnOk result (NoFault (H.outside host.old) (H.outside host.new)) }
        ensures hindered { IfErr result (λ status. Hinders (λ at. (disk : List ℕ) → (H.outside host.new).disk ≡ Some disk → HasDamage at disk)
            ((disk : List ℕ) → (H.outside host.new).disk ≡ Some disk → HasNoHeader disk)
            ((host.new ≡ host.old) ⊎ ((disk : List ℕ) → (H.outside host.new).disk ≡ Some disk → HasBase disk)) status (H.outside host.old) (H.outside host.new)) }
    {
        // It is made first: want of memory is told before the journal is read, where that has no base.
        let Ok(fresh) = Engine::new(alloc, 0, workers) else {
            return Err(Status::NoMemory);
        };
        let scan = Scan::begin(alloc, host)?;
        let Ok(engine) = engine_before(alloc, &scan, workers, fresh) else {
            return Err(Status::NoMemory);
        };
        let newest = day_of(scan.base());
        Ok(Recovery {
            scan,
            engine,
            outbox,
            waiting,
            newest,
        })
    }
}

/// The engine of the records before a scan: that of its base, or this one of no records, under the limit of the journal.
fn engine_before(
    alloc: Global,
    scan: &Scan,
    workers: u32,
    mut fresh: Engine,
) -> Result<Engine, NoMemory>
    requires workers { (1 ≤ workers) × (workers ≤ 64) }
    requires fresh { engines.Represents fresh 0 [] [] }
    requires roomy { engines.IsRoomy fresh }
    requires idle { IsIdle fresh.evaluator }
    requires working { IsWorking fresh.evaluator }
    requires many { workers_of fresh.evaluator ≡ workers }
    ensures before { IfOk result (IsBefore scan.now.capacity scan.now.base) }
    ensures roomy { IfOk result engines.IsRoomy }
    ensures idle { IfOk result (λ engine. IsIdle engine.evaluator) }
    ensures working { IfOk result (λ engine. IsWorking engine.evaluator) }
    ensures workers { IfOk result (λ engine. workers_of engine.evaluator ≡ workers) }
    ensures succeeds { scan.now.base ≡ None → IsOk result }
{
    let capacity = scan.limit();
    if let Some(base) = scan.base() {
        return fresh.restore(alloc, capacity, workers, base);
    }
    fresh.limit(capacity);
    Ok(fresh)
}

/// The record of the day of a base; none where there is no base.
fn day_of(base: Option<&Base>) -> Option<Record>
    ensures { result ≡ option_map (λ b. b.day) (option_copied base.entry) }
{
    base.map(|base| base.day)
}

/// Appends the first frame of a session, which tells how many records and messages there are.
fn greet<H: Host>(engine: &Engine, outbox: &mut Outbox, host: &mut H) -> Result<(), Fault>
    ensures pending { (begin : Option (List ℕ)) (text : List ℕ) → Expects begin (H.outside host.old).sent outbox.old text
        → OnOk result (Expects begin (H.outside host.new).sent outbox.new (text ++ spelling (Frame.Hello engine.now.evaluated engine.now.published))) }
    ensures moments { (begin : Option (List ℕ)) (text : List ℕ) → Expects begin (H.outside host.old).sent outbox.old text
        → Elapses (H.outside host.old) (H.outside host.new) (SendsPrefix begin text (H.outside host.old)) }
    ensures outside { Sent result (H.outside host.old) (H.outside host.new) }
{
    let hello = Frame::Hello {
        inputs: engine.evaluated,
        messages: engine.published,
    };
    outbox.append(host, &hello)
}
