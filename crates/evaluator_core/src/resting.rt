//! A market of several workers that rest: its records are evaluated one by one, until a block outweighs the start of threads.

ghost use Rattle.std.specs.Prelude.{◌≡◌, ◌==◌, ◌&&◌, ◌+◌, false, ◌<◌, ◌≤◌, ◌++◌, ◌∷◌, ℕ, [], true, List, None, Some, IfOk, IsOk, IsSome, OnOk, length, nat_le, vec_len, vec_capacity};
ghost use Rattle.wire_in.specs.declared.record.Record.{Record};
ghost use Rattle.rulebook.specs.Admission.{most_names, verdict};
ghost use Rattle.rulebook.specs.Book.{newest_messages};
ghost use Rattle.market_core.specs.MarketState.{most_messages};
ghost use Rattle.evaluator_core.specs.AheadState.{HasAhead, RepresentsAhead};

use crate::ahead::Ahead;
use market_core::Market;
use price_core::NoMemory;
use std::alloc::Global;
use wire_in::Record;
use wire_out::Stamped;

/// The fewest records of a block that are worth threads.
const FEWEST_RECORDS: usize = 4_096;

/// The fewest names of which a block's records are worth threads: with fewer, a record costs less than to share it out.
const FEWEST_NAMES: u32 = 2_048;

/// The fewest workers that are worth threads: it costs as much to note each record for its part as two or three workers save.
const FEWEST_WORKERS: u32 = 4;

/// Whether a block of so many records, of a market of so many names, is worth the threads of so many workers.
pub(crate) fn are_worth_threads(records: usize, names: u32, workers: u32) -> bool {
    records >= FEWEST_RECORDS && names >= FEWEST_NAMES && workers >= FEWEST_WORKERS
}

/// A market that rests, and how many workers it has, from 2 to 64. Where it found no memory to be shared out, there is none,
/// and nothing is given from then on.
#[derive(Drop)]
pub struct Resting {
    alloc: Global,
    workers: u32,
    market: Option<Market>,
    ghost several: { (1 < workers) × (workers ≤ 64) },
}

impl Resting {
    ghost use Rattle.evaluator_core.specs.RestingState.{RepresentsResting, fewest_names, fewest_workers, names_in};

    /// A market of several workers, from 2 to 64, that rest.
    pub(crate) fn of(alloc: Global, workers: u32, market: Market) -> Resting
        requires workers { (1 < workers) × (workers ≤ 64) }
        ensures market { result.market ≡ Some market }
        ensures workers { result.workers ≡ workers }
    {
        Resting {
            alloc,
            workers,
            market: Some(market),
        }
    }

    /// How many names were ever listed; none are known where it doesn't work any more.
    pub(crate) fn names(&self) -> u32
        ensures names { result ≡ names_in self.now.market }
        ensures bound { result ≤ most_names }
    {
        match &self.market {
            Some(market) => market.names(),
            None => 0,
        }
    }

    /// Whether there is one worker, which is never so.
    pub(crate) fn is_alone(&self) -> bool
        ensures exact { result ≡ (self.now.workers == 1) }
        ensures never { result ≡ false }
    {
        self.workers == 1
    }

    /// Whether it has so many workers, and so many names, that a block of many records is worth threads.
    pub(crate) fn has_many(&self) -> bool
        ensures { result ≡ (nat_le fewest_workers self.now.workers && nat_le fewest_names (names_in self.now.market)) }
    {
        self.workers >= FEWEST_WORKERS && self.names() >= FEWEST_NAMES
    }

    /// Whether so many records outweigh what it costs to share them out.
    pub(crate) fn is_outweighed(&self, records: usize) -> bool {
        are_worth_threads(records, self.names(), self.workers)
    }

    /// Takes the market out. From then on nothing is given here. It fails where that was done before.
    pub(crate) fn end(&mut self) -> Result<Market, NoMemory>
        ensures market { IfOk result (λ market. self.old.market ≡ Some market) }
        ensures succeeds { IsSome self.old.market → IsOk result }
        ensures ended { self.new.market ≡ None }
        ensures workers { self.new.workers ≡ self.old.workers }
    {
        self.market.take().ok_or(NoMemory)
    }

    /// Shares the market out to the workers. From then on nothing is given here. An error is want of memory.
    pub(crate) fn share_out(&mut self) -> Result<Ahead, NoMemory>
        ensures represents { (evaluated : List Record) → RepresentsResting self.old evaluated → IfOk result (λ block. RepresentsAhead block evaluated) }
        ensures idle { IfOk result (λ block. HasAhead block []) }
        ensures parts { IfOk result (λ block. length block.shards.parts ≡ self.old.workers) }
        ensures ended { self.new.market ≡ None }
        ensures workers { self.new.workers ≡ self.old.workers }
    {
        let market = self.end()?;
        Ahead::of(self.alloc, self.workers, market)
    }

    /// Evaluates a record that is admissible after those before. It takes room for its messages, and an error is want of memory.
    /// It stays a call of its own, so that one worker's way past it is a jump.
    #[inline(never)]
    pub(crate) fn apply(&mut self, x: &Record, out: &mut Vec<Stamped>) -> Result<(), NoMemory>
        ensures given { (capacity : ℕ) (applied : List Record) → RepresentsResting self.old applied → verdict capacity applied x.now ≡ None
            → OnOk result (out.new.items ≡ out.old.items ++ newest_messages (x.now ∷ applied)) }
        ensures stands { (capacity : ℕ) (applied : List Record) → RepresentsResting self.old applied → verdict capacity applied x.now ≡ None
            → OnOk result (RepresentsResting self.new (x.now ∷ applied)) }
        ensures working { OnOk result (IsSome self.new.market) }
        ensures few { vec_len out.new ≤ vec_len out.old + most_messages }
        ensures keeps_room { vec_capacity out.old ≤ vec_capacity out.new }
        ensures workers { self.new.workers ≡ self.old.workers }
    {
        match &mut self.market {
            Some(market) => market.apply(x, out),
            None => Err(NoMemory),
        }
    }
}
