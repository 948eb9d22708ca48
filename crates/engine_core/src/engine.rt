//! Admission and the evaluator, kept from record to record.

ghost use Rattle.std.specs.Prelude.{◌≡◌, ◌+◌, ◌*◌, ◌<◌, ◌≤◌, ◌^◌, ◌∷◌, [], true, ℕ, List, None, Some, IfOk, IfErr, IsOk, OnOk, OnErr, length, vec_len, vec_capacity};
ghost use Rattle.wire_in.specs.declared.record.Record.{Record};
ghost use Rattle.wire_in.specs.Bases.{IsInRange};
ghost use Rattle.wire_in.specs.Reading.{placed};
ghost use Rattle.wire_in.specs.Records.{is_day};
ghost use Rattle.wire_in.specs.Spelling.{InRange};
ghost use Rattle.rulebook.specs.Admission.{IsLawful, verdict};
ghost use Rattle.rulebook.specs.Base.{base_of, stand_in};
ghost use Rattle.rulebook.specs.Sent.{admitted, record_or_refusal};
ghost use Rattle.rulebook.specs.Book.{newest_messages};
ghost use Rattle.market_core.specs.AdmissionState as admissions;
ghost use Rattle.market_core.specs.AdmissionState.{refusal_of};
ghost use Rattle.market_core.specs.Kinds.{TakesMemory};
ghost use Rattle.market_core.specs.MarketState.{most_messages};
ghost use Rattle.shard_core.specs.Block.{AreAdmissible};
ghost use Rattle.evaluator_core.specs.Evaluating.{shares_out, workers_of, HasRoomFor, IsAhead, IsIdle, IsWorking};

use evaluator_core::Evaluator;
use market_core::{Admission, MOST_MESSAGES};
use price_core::NoMemory;
use std::alloc::Global;
use std::thread::Threads;
use wire_in::{Base, Record, Refusal};
use wire_out::Stamped;
use yard_core::Gate;

/// The accepted records as admission and the evaluator have them, the messages of the record that was evaluated last, and
/// how many records were evaluated and messages given.
#[derive(Drop)]
pub struct Engine {
    pub admission: Admission,
    pub evaluator: Evaluator,
    pub messages: Vec<Stamped>,
    pub evaluated: u64,
    pub published: u64,
}

/// Why what was read of a body isn't accepted next, if it isn't: that it is no record, or the first refusal that the accepted
/// records bring.
#[inline(always)]
pub fn judge(admission: &Admission, x: &Record, read: Result<(), Refusal>) -> Option<Refusal>
    ensures exact { (held : List Record) → admissions.Represents admission.now held → record_or_refusal x.now result ≡ admitted admission.now.capacity held (placed x.now read) }
    ensures admissible { result ≡ None → refusal_of admission.now x.now ≡ None }
    ensures range { IfOk (placed x.now read) InRange → IfOk (record_or_refusal x.now result) InRange }
{
    match read {
        Ok(()) => admission.verdict(x),
        Err(refusal) => Some(refusal),
    }
}

impl Engine {
    ghost use Rattle.engine_core.specs.EngineState.{Represents, Stands, IsRoomy};

    /// An engine of no records, under a capacity of records, with 1 to 64 workers. It takes room for the messages of any record.
    pub fn new(alloc: Global, capacity: u64, workers: u32) -> Result<Engine, NoMemory>
        requires workers { (1 ≤ workers) × (workers ≤ 64) }
        ensures represents { IfOk result (λ engine. Represents engine capacity [] []) }
        ensures roomy { IfOk result IsRoomy }
        ensures idle { IfOk result (λ engine. IsIdle engine.evaluator) }
        ensures working { IfOk result (λ engine. IsWorking engine.evaluator) }
        ensures workers { IfOk result (λ engine. workers_of engine.evaluator ≡ workers) }
        ensures none { IfOk result (λ engine. engine.admission.count ≡ 0) }
        ensures evaluated { IfOk result (λ engine. engine.evaluated ≡ 0) }
        ensures published { IfOk result (λ engine. engine.published ≡ 0) }
    {
        let admission = Admission::new(alloc, capacity)?;
        let evaluator = Evaluator::new(alloc, workers)?;
        let messages = Vec::with_capacity(alloc, MOST_MESSAGES)?;
        Ok(Engine {
            admission,
            evaluator,
            messages,
            evaluated: 0,
            published: 0,
        })
    }

    /// The engine of whatever records have a base, under a capacity of records, with 1 to 64 workers. It takes over an engine of
    /// no records with as many workers, and its room, which is for the messages of any record.
    pub fn restore(
        self,
        alloc: Global,
        capacity: u64,
        workers: u32,
        base: &Base,
    ) -> Result<Engine, NoMemory>
        requires fresh { (limit : ℕ) × Represents self limit [] [] }
        requires roomy { IsRoomy self }
        requires many { workers_of self.evaluator ≡ workers }
        requires workers { (1 ≤ workers) × (workers ≤ 64) }
        requires range { IsInRange base.now }
        ensures represents { IfOk result (λ engine. (limit : ℕ) (held : List Record) → base_of held ≡ Some base.now → IsLawful limit held
            → Represents engine capacity held held) }
        ensures stand_in { IfOk result (λ engine. Stands engine capacity (stand_in base.now) (stand_in base.now)) }
        ensures roomy { IfOk result IsRoomy }
        ensures idle { IfOk result (λ engine. IsIdle engine.evaluator) }
        ensures working { IfOk result (λ engine. IsWorking engine.evaluator) }
        ensures workers { IfOk result (λ engine. workers_of engine.evaluator ≡ workers) }
        ensures count { IfOk result (λ engine. engine.admission.count ≡ base.now.records) }
        ensures evaluated { IfOk result (λ engine. engine.evaluated ≡ base.now.records) }
        ensures published { IfOk result (λ engine. engine.published ≡ base.now.messages) }
    {
        let admission = self.admission.restore(capacity, base);
        let evaluator = self.evaluator.restore(alloc, workers, base)?;
        Ok(Engine {
            admission,
            evaluator,
            messages: self.messages,
            evaluated: base.records,
            published: base.messages,
        })
    }

    /// The base of the records, which were all evaluated, and of which this day is the last one. By one worker.
    pub fn base(&self, alloc: Global, day: &Record) -> Result<Base, NoMemory>
        requires alone { workers_of self.now.evaluator ≡ 1 }
        ensures base { IfOk result (λ base. (capacity : ℕ) (earlier : List Record) → is_day day.now ≡ true
            → Represents self.now capacity (day.now ∷ earlier) (day.now ∷ earlier) → base_of (day.now ∷ earlier) ≡ Some base) }
        ensures numbers { IfOk result (λ base. (base.records ≡ self.now.evaluated) × (base.messages ≡ self.now.published)) }
        ensures day { IfOk result (λ base. base.day ≡ day.now) }
    {
        self.evaluator
            .base(alloc, self.evaluated, self.published, day)
    }

    /// Puts another capacity of records in.
    pub fn limit(&mut self, capacity: u64)
        ensures { self.new ≡ record self.old { admission = record self.old.admission { capacity = capacity } } }
    {
        self.admission.limit(capacity);
    }

    /// Admits a record that is admissible after the accepted ones. It waits to be evaluated.
    #[inline(always)]
    pub fn admit(&mut self, x: &Record)
        requires { refusal_of self.old.admission x.now ≡ None }
        ensures represents { (capacity : ℕ) (accepted evaluated : List Record) → Represents self.old capacity accepted evaluated
            → Represents self.new capacity (x.now ∷ accepted) evaluated }
        ensures stands { (capacity : ℕ) (accepted evaluated : List Record) → Stands self.old capacity accepted evaluated
            → Stands self.new capacity (x.now ∷ accepted) evaluated }
        ensures rest { self.new ≡ record self.old { admission = self.new.admission } }
        ensures count { self.new.admission.count ≡ self.old.admission.count + 1 }
        ensures capacity { self.new.admission.capacity ≡ self.old.admission.capacity }
    {
        self.admission.admit(x).unwrap();
    }

    /// Goes on by one worker, where no record is evaluated ahead: from then on memory is taken at a Trade alone. It takes none
    /// itself. An error tells that several workers found none before, and then the engine is of no further use. One worker goes on
    /// as it is.
    pub fn unite(&mut self, alloc: Global) -> Result<(), NoMemory>
        ensures represents { (capacity : ℕ) (accepted evaluated : List Record) → Represents self.old capacity accepted evaluated → IsIdle self.old.evaluator
            → OnOk result (Represents self.new capacity accepted evaluated) }
        ensures stands { (capacity : ℕ) (accepted evaluated : List Record) → Stands self.old capacity accepted evaluated → IsIdle self.old.evaluator
            → OnOk result (Stands self.new capacity accepted evaluated) }
        ensures idle { IsIdle self.old.evaluator → OnOk result (IsIdle self.new.evaluator) }
        ensures workers { OnOk result (workers_of self.new.evaluator ≡ 1) }
        ensures roomy { IsRoomy self.old → OnOk result (IsRoomy self.new) }
        ensures rest { self.new ≡ record self.old { evaluator = self.new.evaluator } }
        ensures alone { workers_of self.old.evaluator ≡ 1 → IsOk result }
        ensures working { OnOk result (IsWorking self.new.evaluator) }
        ensures succeeds { (capacity : ℕ) (accepted evaluated : List Record) → Stands self.old capacity accepted evaluated → IsIdle self.old.evaluator
            → IsWorking self.old.evaluator → IsOk result }
    {
        self.evaluator.unite(alloc)
    }

    /// Whether many accepted records would be shared out to several workers.
    pub fn shares_out(&self) -> bool
        ensures { result ≡ shares_out self.now.evaluator }
    {
        self.evaluator.shares_out()
    }

    /// Evaluates the oldest of the accepted records that wait ahead, which are at most 65,536, by all workers: `evaluate` then
    /// takes one after the other. One worker evaluates nothing ahead. Where there is no memory for it, `evaluate` tells so.
    pub fn prepare<Rt: Threads + Sync, G: Gate>(&mut self, rt: &Rt, gate: &G, xs: &Vec<Record>)
        requires few { length xs.now.items ≤ 65536 }
        ensures represents { (capacity : ℕ) (accepted evaluated : List Record) → Represents self.old capacity accepted evaluated → IsIdle self.old.evaluator
            → AreAdmissible capacity evaluated xs.now.items → Represents self.new capacity accepted evaluated }
        ensures stands { (capacity limit : ℕ) (accepted evaluated : List Record) → Stands self.old capacity accepted evaluated → IsIdle self.old.evaluator
            → AreAdmissible limit evaluated xs.now.items → Stands self.new capacity accepted evaluated }
        ensures ahead { IsIdle self.old.evaluator → IsAhead self.new.evaluator xs.now.items }
        ensures alone { workers_of self.old.evaluator ≡ 1 → self.new ≡ self.old }
        ensures none { xs.now.items ≡ [] → self.new ≡ self.old }
        ensures rest { self.new ≡ record self.old { evaluator = self.new.evaluator } }
        ensures workers { workers_of self.new.evaluator ≡ workers_of self.old.evaluator }
        ensures roomy { IsRoomy self.old → IsRoomy self.new }
    {
        if !xs.is_empty() {
            self.evaluator.prepare(rt, gate, xs);
        }
    }

    /// Evaluates the oldest of the accepted records that wait, and keeps its messages. Where there is one worker, it takes
    /// memory at a Trade alone, and none where the stock of the trade has room for it. Several workers may have found none
    /// ahead. After an error the engine is of no further use.
    #[inline(always)]
    pub fn evaluate(&mut self, x: &Record) -> Result<(), NoMemory>
        requires room { self.old.published + most_messages < 2 ^ 64 }
        requires count { self.old.evaluated + 1 < 2 ^ 64 }
        ensures represents { (capacity : ℕ) (accepted evaluated later : List Record) → Represents self.old capacity accepted evaluated → IsAhead self.old.evaluator (x.now ∷ later)
            → verdict capacity evaluated x.now ≡ None → OnOk result (Represents self.new capacity accepted (x.now ∷ evaluated)) }
        ensures stands { (capacity limit : ℕ) (accepted evaluated later : List Record) → Stands self.old capacity accepted evaluated → IsAhead self.old.evaluator (x.now ∷ later)
            → verdict limit evaluated x.now ≡ None → OnOk result (Stands self.new capacity accepted (x.now ∷ evaluated)) }
        ensures messages { (capacity limit : ℕ) (accepted evaluated later : List Record) → Stands self.old capacity accepted evaluated → IsAhead self.old.evaluator (x.now ∷ later)
            → verdict limit evaluated x.now ≡ None → OnOk result (self.new.messages.items ≡ newest_messages (x.now ∷ evaluated)) }
        ensures ahead { (later : List Record) → IsAhead self.old.evaluator (x.now ∷ later) → OnOk result (IsAhead self.new.evaluator later) }
        ensures working { OnOk result (IsWorking self.new.evaluator) }
        ensures workers { workers_of self.new.evaluator ≡ workers_of self.old.evaluator }
        ensures admission { self.new.admission ≡ self.old.admission }
        ensures evaluated { OnOk result (self.new.evaluated ≡ self.old.evaluated + 1) }
        ensures published { OnOk result (self.new.published ≡ self.old.published + vec_len self.new.messages) }
        ensures few { OnOk result (vec_len self.new.messages ≤ most_messages) }
        ensures roomy { IsRoomy self.old → OnOk result (IsRoomy self.new) }
        ensures starved { IsRoomy self.old → workers_of self.old.evaluator ≡ 1 → OnErr result (TakesMemory x.now) }
        ensures never_refused { IsRoomy self.old → HasRoomFor self.old.evaluator x.now → IsOk result }
    {
        self.messages.clear();
        self.evaluator.apply(x, &mut self.messages)?;
        self.evaluated += 1;
        self.published += self.messages.len() as u64;
        Ok(())
    }
}
