//! A generated day, evaluated and summed up.

ghost use Rattle.std.specs.Prelude.{◌≡◌, ◌+◌, ◌<◌, ◌≤◌, ◌^◌, ◌∷◌, ◌++◌, [], List, None, Err, OnOk, IfOk, length, vec_len, vec_capacity};
ghost use Rattle.std.specs.Io.KnownBytes.{append_known};
ghost use Rattle.host_core.specs.Outside.{Elapses};
ghost use Rattle.wire_in.specs.declared.record.Record.{Record};
ghost use Rattle.market_core.specs.AdmissionState.{refusal_of};
ghost use Rattle.rulebook.specs.Admission.{verdict};
ghost use Rattle.stream_core.specs.Outcomes.{SentOrStarved};
ghost use Rattle.stream_core.specs.Pending.{SendsPrefix};
ghost use Rattle.gen_core.specs.Generated.{IsPlan, generated};
ghost use Rattle.replay_core.specs.Replayed.{capacity};
ghost use Rattle.rehearse_core.specs.Rehearsed.{Rehearsed, summary_of};
ghost use Rattle.rehearse_core.specs.InternalRehearsal.{HasRoom, IsSound, Rehearses, accepted_by};

use engine_core::Engine;
use gen_core::{DayPlan, Generator, Tally, send_summary};
use host_core::{Fault, Host, Status};
use price_core::NoMemory;
use std::alloc::Global;
use std::slice;
use std::thread::Threads;
use stream_core::answer_of;
use wire_in::Record;
use yard_core::Gate;

/// How many accepted records several workers evaluate together: they stay in the cache.
const MANY: usize = 16_384;

/// The accepted ones of the records so far, what messages they gave, and those that wait to be evaluated, the oldest first.
/// So many are evaluated together.
#[derive(Drop)]
pub struct Rehearsal {
    pub engine: Engine,
    pub tally: Tally,
    pub block: Vec<Record>,
    pub most: usize,
}

/// How many accepted records so many workers evaluate together. Of one worker none waits.
fn block_of(workers: u32) -> usize
    ensures { (1 ≤ result) × (result ≤ 65536) }
{
    if workers == 1 { 1 } else { MANY }
}

/// Adds a record to a list that has room.
fn put(block: &mut Vec<Record>, x: &Record)
    requires room { vec_len block.old < vec_capacity block.old }
    ensures items { block.new.items ≡ block.old.items ++ x.now ∷ [] }
    ensures capacity { vec_capacity block.old ≤ vec_capacity block.new }
{
    block.extend_from_slice(slice::from_ref(x)).unwrap();
}

/// Evaluates the oldest of the records that wait, and counts its messages.
#[inline(always)]
fn evaluate(engine: &mut Engine, tally: &mut Tally, x: &Record) -> Result<(), NoMemory>
    requires sound { IsSound engine.old tally.old }
    requires few { engine.old.evaluated < 2 ^ 42 }
    ensures sound { OnOk result (IsSound engine.new tally.new) }
    ensures more { OnOk result (engine.new.evaluated ≡ engine.old.evaluated + 1) }
    ensures rehearses { (all left later : List Record) → Rehearses all left (x.now ∷ later) (x.now ∷ later) engine.old tally.old
        → OnOk result (Rehearses all left later later engine.new tally.new) }
{
    engine.evaluate(x)?;
    tally.count(&engine.messages);
    Ok(())
}

/// Evaluates the records that wait, which were evaluated ahead, and counts their messages.
fn evaluate_each(engine: &mut Engine, tally: &mut Tally, block: &[Record]) -> Result<(), NoMemory>
    requires sound { IsSound engine.old tally.old }
    requires few { engine.old.evaluated + length block.now < 2 ^ 42 }
    ensures sound { OnOk result (IsSound engine.new tally.new) }
    ensures more { OnOk result (engine.new.evaluated ≡ engine.old.evaluated + length block.now) }
    ensures rehearses { (all left : List Record) → Rehearses all left block.now block.now engine.old tally.old
        → OnOk result (Rehearses all left [] [] engine.new tally.new) }
{
    for x in block {
        evaluate(engine, tally, x)?;
    }
    Ok(())
}

impl Rehearsal {
    /// No records.
    fn new(alloc: Global, workers: u32) -> Result<Rehearsal, NoMemory>
        requires workers { (1 ≤ workers) × (workers ≤ 64) }
        ensures sound { IfOk result (λ rehearsal. IsSound rehearsal.engine rehearsal.tally) }
        ensures room { IfOk result HasRoom }
        ensures none { IfOk result (λ rehearsal. rehearsal.engine.evaluated ≡ 0) }
        ensures empty { IfOk result (λ rehearsal. rehearsal.block.items ≡ []) }
        ensures rehearses { (all : List Record) → IfOk result (λ rehearsal. Rehearses all all [] [] rehearsal.engine rehearsal.tally) }
    {
        let engine = Engine::new(alloc, u64::MAX, workers)?;
        let most = block_of(workers);
        let block = Vec::with_capacity(alloc, most)?;
        Ok(Rehearsal {
            engine,
            tally: Tally::new(),
            block,
            most,
        })
    }

    /// Evaluates all records that wait.
    fn settle<Rt: Threads + Sync, G: Gate>(&mut self, rt: &Rt, gate: &G) -> Result<(), NoMemory>
        requires sound { IsSound self.old.engine self.old.tally }
        requires few { self.old.engine.evaluated + vec_len self.old.block < 2 ^ 42 }
        requires block { vec_len self.old.block ≤ 65536 }
        ensures sound { OnOk result (IsSound self.new.engine self.new.tally) }
        ensures more { OnOk result (self.new.engine.evaluated ≡ self.old.engine.evaluated + vec_len self.old.block) }
        ensures rehearses { (all left : List Record) → Rehearses all left self.old.block.items [] self.old.engine self.old.tally
            → OnOk result (Rehearses all left [] [] self.new.engine self.new.tally) }
        ensures empty { OnOk result (self.new.block.items ≡ []) }
        ensures capacity { vec_capacity self.old.block ≤ vec_capacity self.new.block }
        ensures most { self.new.most ≡ self.old.most }
    {
        self.engine.prepare(rt, gate, &self.block);
        evaluate_each(&mut self.engine, &mut self.tally, &self.block)?;
        self.block.clear();
        Ok(())
    }

    /// Admits a record that is accepted. One worker evaluates it at once. For several it waits, and all that wait are evaluated
    /// where they are as many as are evaluated together.
    fn accept<Rt: Threads + Sync, G: Gate>(
        &mut self,
        rt: &Rt,
        gate: &G,
        x: &Record,
    ) -> Result<(), NoMemory>
        requires sound { IsSound self.old.engine self.old.tally }
        requires room { HasRoom self.old }
        requires few { self.old.engine.evaluated + vec_len self.old.block + 1 < 2 ^ 42 }
        requires admissible { refusal_of self.old.engine.admission x.now ≡ None }
        ensures sound { OnOk result (IsSound self.new.engine self.new.tally) }
        ensures room { OnOk result (HasRoom self.new) }
        ensures more { OnOk result (self.new.engine.evaluated + vec_len self.new.block ≡ self.old.engine.evaluated + vec_len self.old.block + 1) }
        ensures rehearses { (all left : List Record) → (was : Rehearses all (x.now ∷ left) self.old.block.items [] self.old.engine self.old.tally)
            → verdict capacity (accepted_by was) x.now ≡ None → OnOk result (Rehearses all left self.new.block.items [] self.new.engine self.new.tally) }
    {
        self.engine.admit(x);
        if self.block.is_empty() && self.engine.evaluator.is_alone() {
            return evaluate(&mut self.engine, &mut self.tally, x);
        }
        put(&mut self.block, x);
        if self.block.len() < self.most {
            return Ok(());
        }
        self.settle(rt, gate)
    }

    /// Judges one record more, and accepts it where it may follow.
    fn judge<Rt: Threads + Sync, G: Gate>(
        &mut self,
        rt: &Rt,
        gate: &G,
        x: &Record,
    ) -> Result<(), NoMemory>
        requires sound { IsSound self.old.engine self.old.tally }
        requires room { HasRoom self.old }
        requires few { self.old.engine.evaluated + vec_len self.old.block + 1 < 2 ^ 42 }
        ensures sound { OnOk result (IsSound self.new.engine self.new.tally) }
        ensures room { OnOk result (HasRoom self.new) }
        ensures more { OnOk result (self.new.engine.evaluated + vec_len self.new.block ≤ self.old.engine.evaluated + vec_len self.old.block + 1) }
        ensures rehearses { (all left : List Record) → Rehearses all (x.now ∷ left) self.old.block.items [] self.old.engine self.old.tally
            → OnOk result (Rehearses all left self.new.block.items [] self.new.engine self.new.tally) }
    {
        match self.engine.admission.verdict(x) {
            None => self.accept(rt, gate, x),
            Some(_) => Ok(()),
        }
    }

    /// Judges all records that are left, and evaluates those that are accepted.
    fn judge_all<Rt: Threads + Sync, G: Gate>(
        &mut self,
        rt: &Rt,
        gate: &G,
        generator: &mut Generator,
    ) -> Result<(), NoMemory>
        requires sound { IsSound self.old.engine self.old.tally }
        requires room { HasRoom self.old }
        requires few { self.old.engine.evaluated + vec_len self.old.block + length generator.old < 2 ^ 42 }
        ensures rehearses { (all : List Record) → Rehearses all generator.old self.old.block.items [] self.old.engine self.old.tally
            → OnOk result (Rehearses all [] [] [] self.new.engine self.new.tally) }
    {
        while let Some(x) = generator.next() {
            self.judge(rt, gate, &x)?;
        }
        self.settle(rt, gate)
    }
}

/// Judges the records of a plan, each after those before it, and evaluates those that are accepted.
fn rehearsed<Rt: Threads + Sync, G: Gate>(
    rt: &Rt,
    alloc: Global,
    gate: &G,
    plan: &DayPlan,
    workers: u32,
) -> Result<Rehearsal, NoMemory>
    requires plan { IsPlan plan.now }
    requires workers { (1 ≤ workers) × (workers ≤ 64) }
    ensures { IfOk result (λ rehearsal. Rehearses (generated plan.now) [] [] [] rehearsal.engine rehearsal.tally) }
{
    let mut generator = Generator::new(alloc, plan)?;
    let mut rehearsal = Rehearsal::new(alloc, workers)?;
    rehearsal.judge_all(rt, gate, &mut generator)?;
    Ok(rehearsal)
}

/// Judges the records of a plan, and sends the summary.
fn sum_up<Rt: Threads + Sync, H: Host, G: Gate>(
    rt: &Rt,
    alloc: Global,
    host: &mut H,
    gate: &G,
    plan: &DayPlan,
    workers: u32,
) -> Result<Status, Fault>
    requires plan { IsPlan plan.now }
    requires workers { (1 ≤ workers) × (workers ≤ 64) }
    ensures done { IfOk result (λ status. status ≡ Status.Done) }
    ensures sent { OnOk result ((H.outside host.new).sent ≡ append_known (H.outside host.old).sent (summary_of plan.now)) }
    ensures moments { Elapses (H.outside host.old) (H.outside host.new) (SendsPrefix (H.outside host.old).sent (summary_of plan.now) (H.outside host.old)) }
    ensures outside { SentOrStarved result (H.outside host.old) (H.outside host.new) }
    ensures unsent { result ≡ Err Fault.Memory → (H.outside host.new).sent ≡ (H.outside host.old).sent }
{
    let rehearsal = rehearsed(rt, alloc, gate, plan, workers)?;
    let records = 1 + u64::from(plan.symbols) + u64::from(plan.records);
    let refused = records - rehearsal.engine.evaluated;
    send_summary(alloc, host, records, refused, &rehearsal.tally)
}

/// Evaluates the records of a plan as a replay does, by one worker or by several, and sends no frames but twelve lines: how many records there are, how
/// many of them are refused, and how many messages the others give, together and by kind. It answers `Done` where all
/// lines were sent, `SendFault` where the output failed, and `NoMemory` before anything was sent. Nothing is read, and the
/// disk is not touched.
pub fn rehearse<Rt: Threads + Sync, H: Host, G: Gate>(
    rt: &Rt,
    alloc: Global,
    host: &mut H,
    gate: &G,
    plan: &DayPlan,
    workers: u32,
) -> Status
    requires plan { IsPlan plan.now }
    requires workers { (1 ≤ workers) × (workers ≤ 64) }
    ensures { Rehearsed plan.now result (H.outside host.old) (H.outside host.new) }
{
    answer_of(sum_up(rt, alloc, host, gate, plan, workers))
}
