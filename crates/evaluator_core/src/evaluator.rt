//! A market, evaluated by one worker or by several.

ghost use Rattle.std.specs.Prelude.{◌≡◌, ◌==◌, ◌+◌, ◌<◌, ◌≤◌, ◌++◌, ◌∷◌, ℕ, [], false, true, List, None, Some, IfOk, OnOk, IsOk, length, vec_len, vec_capacity};
ghost use Rattle.wire_in.specs.declared.record.Record.{Record};
ghost use Rattle.wire_in.specs.Bases.{IsInRange};
ghost use Rattle.wire_in.specs.Records.{is_day, name_of};
ghost use Rattle.rulebook.specs.Admission.{IsLawful, most_names, verdict};
ghost use Rattle.rulebook.specs.Base.{base_of, stand_in};
ghost use Rattle.rulebook.specs.Book.{messages_of, newest_messages};
ghost use Rattle.market_core.specs.Kinds.{is_trade};
ghost use Rattle.market_core.specs.MarketState.{most_messages, most_of_names};
ghost use Rattle.shard_core.specs.Block.{AreAdmissible};

use crate::ahead::Ahead;
use crate::resting::Resting;
use market_core::Market;
use price_core::NoMemory;
use std::alloc::Global;
use std::mem;
use std::thread::Threads;
use wire_in::{Base, Record};
use wire_out::Stamped;
use yard_core::Gate;

/// One market: by one worker, record by record, or by several. These rest, which is to evaluate record by record as one does,
/// or they evaluate blocks of records ahead, each a part of the market.
#[derive(Drop)]
pub enum Evaluator {
    One(Market),
    Resting(Resting),
    Many(Ahead),
}

impl Evaluator {
    ghost use Rattle.evaluator_core.specs.Evaluating.{HasRoomFor, IsAhead, IsIdle, IsWorking, Represents, names_of, shares_out, workers_of};

    /// A market of no records, for so many workers, from 1 to 64.
    pub fn new(alloc: Global, workers: u32) -> Result<Evaluator, NoMemory>
        requires workers { (0 < workers) × (workers ≤ 64) }
        ensures represents { IfOk result (λ evaluator. Represents evaluator []) }
        ensures idle { IfOk result IsIdle }
        ensures working { IfOk result IsWorking }
        ensures workers { IfOk result (λ evaluator. workers_of evaluator ≡ workers) }
    {
        let market = Market::new(alloc)?;
        if workers == 1 {
            return Ok(Evaluator::One(market));
        }
        Ok(Evaluator::Resting(Resting::of(alloc, workers, market)))
    }

    /// The market of whatever records have a base, for so many workers, from 1 to 64. It takes over one of no records for as many
    /// workers, and its room. An error tells that these don't work any more.
    pub fn restore(self, alloc: Global, workers: u32, base: &Base) -> Result<Evaluator, NoMemory>
        requires none { Represents self [] }
        requires many { workers_of self ≡ workers }
        requires workers { (0 < workers) × (workers ≤ 64) }
        requires range { IsInRange base.now }
        ensures stands { IfOk result (λ evaluator. (capacity : ℕ) (evaluated : List Record) → base_of evaluated ≡ Some base.now → IsLawful capacity evaluated
            → Represents evaluator evaluated) }
        ensures stand_in { IfOk result (λ evaluator. Represents evaluator (stand_in base.now)) }
        ensures idle { IfOk result IsIdle }
        ensures working { IfOk result IsWorking }
        ensures workers { IfOk result (λ evaluator. workers_of evaluator ≡ workers) }
    {
        match self {
            Evaluator::One(market) => Ok(Evaluator::One(market.restore(base))),
            Evaluator::Resting(mut resting) => {
                let market = resting.end()?.restore(base);
                Ok(Evaluator::Resting(Resting::of(alloc, workers, market)))
            }
            Evaluator::Many(block) => {
                // For the proof: it says that there are several.
                let _alone = block.is_alone();
                let market = Market::new(alloc)?.restore(base);
                Ok(Evaluator::Resting(Resting::of(alloc, workers, market)))
            }
        }
    }

    /// The base of the applied records, of which the last one is this day; how many records and messages there are is given. By
    /// one worker.
    pub fn base(
        &self,
        alloc: Global,
        records: u64,
        messages: u64,
        day: &Record,
    ) -> Result<Base, NoMemory>
        requires alone { workers_of self.now ≡ 1 }
        ensures base { IfOk result (λ base. (earlier : List Record) → is_day day.now ≡ true → Represents self.now (day.now ∷ earlier) → records ≡ length (day.now ∷ earlier)
            → messages ≡ length (messages_of (day.now ∷ earlier)) → base_of (day.now ∷ earlier) ≡ Some base) }
        ensures numbers { IfOk result (λ base. (base.records ≡ records) × (base.messages ≡ messages)) }
        ensures day { IfOk result (λ base. base.day ≡ day.now) }
    {
        match self {
            Evaluator::One(market) => market.base(alloc, records, messages, day),
            Evaluator::Resting(_) | Evaluator::Many(_) => Err(NoMemory),
        }
    }

    /// How many names were ever listed.
    pub fn names(&self) -> u32
        ensures names { result ≡ names_of self.now }
        ensures bound { result ≤ most_names }
    {
        match self {
            Evaluator::One(market) => market.names(),
            Evaluator::Resting(resting) => resting.names(),
            Evaluator::Many(block) => block.names(),
        }
    }

    /// Whether a block of many records would be shared out to several workers.
    pub fn shares_out(&self) -> bool
        ensures { result ≡ shares_out self.now }
    {
        match self {
            Evaluator::One(_) => false,
            Evaluator::Resting(resting) => resting.has_many(),
            Evaluator::Many(_) => true,
        }
    }

    /// Whether there is one worker, which evaluates nothing ahead.
    pub fn is_alone(&self) -> bool
        ensures exact { result ≡ (workers_of self.now == 1) }
        ensures ahead { result ≡ true → (xs : List Record) → IsAhead self.now xs }
    {
        match self {
            Evaluator::One(_) => true,
            Evaluator::Resting(resting) => resting.is_alone(),
            Evaluator::Many(block) => block.is_alone(),
        }
    }

    /// Goes on by one worker, where no record is evaluated ahead. It takes no memory. An error tells that a block before found
    /// none, and what is left then is of no further use.
    pub fn unite(&mut self, alloc: Global) -> Result<(), NoMemory>
        ensures represents { (evaluated : List Record) → Represents self.old evaluated → IsIdle self.old → OnOk result (Represents self.new evaluated) }
        ensures idle { OnOk result (IsIdle self.new) }
        ensures working { OnOk result (IsWorking self.new) }
        ensures alone { OnOk result (workers_of self.new ≡ 1) }
        ensures succeeds { (evaluated : List Record) → Represents self.old evaluated → IsIdle self.old → IsWorking self.old → IsOk result }
        ensures unchanged { workers_of self.old ≡ 1 → IsOk result × (self.new ≡ self.old) }
    {
        match self {
            Evaluator::One(_) => {}
            Evaluator::Resting(resting) => {
                let market = resting.end()?;
                drop(mem::replace(self, Evaluator::One(market)));
            }
            Evaluator::Many(block) => {
                let market = block.unite(alloc)?;
                drop(mem::replace(self, Evaluator::One(market)));
            }
        }
        Ok(())
    }

    /// Shares the market out to several workers that rest, where so many records outweigh that, and lets them rest where few blocks
    /// did for long. Where it finds no memory, each record that is then applied fails.
    fn begin_or_rest(&mut self, records: usize)
        ensures represents { (evaluated : List Record) → Represents self.old evaluated → IsIdle self.old → Represents self.new evaluated }
        ensures idle { IsIdle self.old → IsIdle self.new }
        ensures alone { workers_of self.old ≡ 1 → self.new ≡ self.old }
        ensures workers { workers_of self.new ≡ workers_of self.old }
    {
        match self {
            Evaluator::One(_) => {}
            Evaluator::Resting(resting) => {
                if resting.is_outweighed(records) {
                    let Ok(block) = resting.share_out() else {
                        return;
                    };
                    drop(mem::replace(self, Evaluator::Many(block)));
                }
            }
            Evaluator::Many(block) => {
                if block.is_idle_for_long() {
                    let Ok(resting) = block.rest() else {
                        return;
                    };
                    drop(mem::replace(self, Evaluator::Resting(resting)));
                }
            }
        }
    }

    /// As `prepare`, for several workers. It stays a call of its own, for whose large frame one worker, and several that rest on,
    /// make no room.
    #[inline(never)]
    fn prepare_several<Rt: Threads + Sync, G: Gate>(&mut self, rt: &Rt, gate: &G, xs: &Vec<Record>)
        requires few { length xs.now.items ≤ 65536 }
        ensures represents { (capacity : ℕ) (evaluated : List Record) → Represents self.old evaluated → IsIdle self.old → AreAdmissible capacity evaluated xs.now.items
            → Represents self.new evaluated }
        ensures ahead { IsIdle self.old → IsAhead self.new xs.now.items }
        ensures alone { workers_of self.old ≡ 1 → self.new ≡ self.old }
        ensures workers { workers_of self.new ≡ workers_of self.old }
    {
        self.begin_or_rest(xs.len());
        if let Evaluator::Many(block) = self {
            block.prepare(rt, gate, xs);
        }
    }

    /// Evaluates a block of records ahead, by as many workers as there are, each of which passes the gate before it works,
    /// where the records outweigh that: they are admissible one after the other, and each record of the block before was applied. One worker does
    /// nothing here. At most 65,536 records. Where several workers find no memory, each record that is then applied fails.
    #[inline(always)]
    pub fn prepare<Rt: Threads + Sync, G: Gate>(&mut self, rt: &Rt, gate: &G, xs: &Vec<Record>)
        requires few { length xs.now.items ≤ 65536 }
        ensures represents { (capacity : ℕ) (evaluated : List Record) → Represents self.old evaluated → IsIdle self.old → AreAdmissible capacity evaluated xs.now.items
            → Represents self.new evaluated }
        ensures ahead { IsIdle self.old → IsAhead self.new xs.now.items }
        ensures alone { workers_of self.old ≡ 1 → self.new ≡ self.old }
        ensures workers { workers_of self.new ≡ workers_of self.old }
    {
        if let Evaluator::One(_) = self {
            return;
        }
        if let Evaluator::Resting(resting) = self {
            if !resting.is_outweighed(xs.len()) {
                return;
            }
        }
        self.prepare_several(rt, gate, xs);
    }

    /// Applies a record that is admissible after the applied ones, and of several workers the oldest that is evaluated
    /// ahead: it appends the messages of its step. One worker takes no memory where the list has room for the most messages
    /// of a record, but at a Trade whose stock has no room for its deal; several ones may take room in the list, and fail
    /// where they found no memory for a block.
    pub fn apply(&mut self, x: &Record, out: &mut Vec<Stamped>) -> Result<(), NoMemory>
        ensures given { (capacity : ℕ) (applied later : List Record) → Represents self.old applied → IsAhead self.old (x.now ∷ later) → verdict capacity applied x.now ≡ None
            → OnOk result (out.new.items ≡ out.old.items ++ newest_messages (x.now ∷ applied)) }
        ensures stands { (capacity : ℕ) (applied later : List Record) → Represents self.old applied → IsAhead self.old (x.now ∷ later) → verdict capacity applied x.now ≡ None
            → OnOk result (Represents self.new (x.now ∷ applied)) }
        ensures ahead { (later : List Record) → IsAhead self.old (x.now ∷ later) → OnOk result (IsAhead self.new later) }
        ensures working { OnOk result (IsWorking self.new) }
        ensures few { vec_len out.new ≤ vec_len out.old + most_messages }
        ensures room { workers_of self.old ≡ 1 → name_of x.now ≡ None → is_trade x.now ≡ false
            → vec_len out.old + most_of_names (names_of self.old) ≤ vec_capacity out.old → IsOk result }
        ensures room_for_most { workers_of self.old ≡ 1 → is_trade x.now ≡ false → vec_len out.old + most_messages ≤ vec_capacity out.old → IsOk result }
        ensures never_refused { HasRoomFor self.old x.now → vec_len out.old + most_messages ≤ vec_capacity out.old → IsOk result }
        ensures keeps_room { vec_capacity out.old ≤ vec_capacity out.new }
        ensures names { workers_of self.old ≡ 1 → name_of x.now ≡ None → names_of self.new ≡ names_of self.old }
        ensures one_more { workers_of self.old ≡ 1 → names_of self.new ≤ names_of self.old + 1 }
        ensures workers { workers_of self.new ≡ workers_of self.old }
    {
        match self {
            Evaluator::One(market) => market.apply(x, out),
            Evaluator::Resting(resting) => resting.apply(x, out),
            Evaluator::Many(block) => block.apply(out),
        }
    }
}
