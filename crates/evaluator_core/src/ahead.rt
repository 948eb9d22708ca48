//! A market that evaluates a block of records ahead, and hands out their messages record by record.

ghost use Rattle.std.specs.Prelude.{◌≡◌, ◌==◌, ◌+◌, ◌<◌, ◌≤◌, ◌++◌, ◌∷◌, ℕ, [], false, true, List, IfOk, IsOk, OnOk, drop, length, map, nat_lt, take, vec_len, vec_capacity};
ghost use Rattle.wire_in.specs.declared.record.Record.{Record};
ghost use Rattle.rulebook.specs.Admission.{most_names};
ghost use Rattle.rulebook.specs.Book.{newest_messages};
ghost use Rattle.market_core.specs.MarketState.{most_messages};
ghost use Rattle.market_core.specs.MarketState as markets;
ghost use Rattle.shard_core.specs.Block.{AreAdmissible};
ghost use Rattle.evaluator_core.specs.AheadState.{RepresentsAhead, HasAhead};
ghost use Rattle.evaluator_core.specs.Leading.{leading};
ghost use Rattle.evaluator_core.specs.RestingState.{RepresentsResting};

use crate::resting::{Resting, are_worth_threads};
use market_core::{MOST_MESSAGES, Market};
use merge_core::Tagged;
use price_core::NoMemory;
use shard_core::Shards;
use std::alloc::Global;
use std::marker::Model;
use std::snapshot::Snapshot;
use std::thread::Threads;
use wire_in::Record;
use wire_out::Stamped;
use yard_core::Gate;

/// How many blocks that aren't worth threads come one after the other until the workers rest. To rest and to begin again costs
/// as much as some of them.
const SMALL_BLOCKS: u32 = 256;

/// A market in several parts, and what a block of records gave that wasn't handed out yet. Where a block found no memory,
/// the parts don't work any more, and nothing is given from then on. While they work, the room of one market is kept, so that
/// it takes no memory to go on by one worker. What the records of the block were is for contracts alone.
#[derive(Drop)]
pub struct Ahead {
    shards: Shards,
    given: Vec<Tagged>,
    at: usize,
    index: u32,
    records: Snapshot<Vec<Record>>,
    room: Option<Market>,
    small_blocks: u32,
}

impl Model for Ahead {
    ghost use Rattle.std.specs.Prelude.{◌≡◌, ◌<◌, ◌≤◌, [], true, IsSomeAnd, drop, length};
    ghost use Rattle.evaluator_core.specs.AheadState.{AheadState};

    ghost Value = { AheadState };

    ghost view = { λ block. record { shards = block.shards; index = block.index; ahead = drop block.index block.records.value.items; left = drop block.at block.given.items } };

    ghost invariant = { λ block. (1 < length block.shards.parts) × (block.at ≤ length block.given.items) × (length block.records.value.items ≤ 65536) × (block.shards.working ≡ true → IsSomeAnd block.room (λ market. market.symbols ≡ [])) };
}

/// Whether the first message is of the record at an index.
fn is_of(messages: &[Tagged], index: u32) -> bool
    ensures { result ≡ nat_lt 0 (leading index messages.now) }
{
    match messages.first() {
        Some(message) => message.input == index,
        None => false,
    }
}

/// How many of the first messages are of the record at an index.
fn count_of(messages: &[Tagged], index: u32) -> usize
    ensures value { result ≡ leading index messages.now }
    ensures within { result ≤ length messages.now }
{
    let mut count = 0;
    while count < messages.len() && messages[count].input == index {
        count += 1;
    }
    count
}

/// Appends messages without their indexes.
fn append(messages: &[Tagged], out: &mut Vec<Stamped>)
    requires room { vec_len out.old + length messages.now ≤ vec_capacity out.old }
    ensures items { out.new.items ≡ out.old.items ++ map (λ message. message.stamped) messages.now }
    ensures capacity { vec_capacity out.new ≡ vec_capacity out.old }
{
    for message in messages {
        out.push_reserved(message.stamped);
    }
}

impl Ahead {
    /// One market in so many parts, from 2 to 64.
    pub(crate) fn of(alloc: Global, workers: u32, market: Market) -> Result<Ahead, NoMemory>
        requires workers { (1 < workers) × (workers ≤ 64) }
        ensures represents { (evaluated : List Record) → markets.Represents market evaluated → IfOk result (λ block. RepresentsAhead block evaluated) }
        ensures idle { IfOk result (λ block. HasAhead block []) }
        ensures working { IfOk result (λ block. block.shards.working ≡ true) }
        ensures parts { IfOk result (λ block. length block.shards.parts ≡ workers) }
    {
        Ok(Ahead {
            shards: Shards::of(alloc, workers, market)?,
            given: Vec::new(alloc),
            at: 0,
            index: 0,
            records: Snapshot::of(&Vec::new(alloc)),
            room: Some(Market::new(alloc)?),
            small_blocks: 0,
        })
    }

    /// How many names were ever listed.
    pub(crate) fn names(&self) -> u32
        ensures names { result ≡ length self.now.shards.lead.directory }
        ensures bound { result ≤ most_names }
    {
        self.shards.names()
    }

    /// Whether it has one part, which it never has.
    pub(crate) fn is_alone(&self) -> bool
        ensures exact { result ≡ (length self.now.shards.parts == 1) }
        ensures never { result ≡ false }
    {
        // For the proof: it has the invariant, that there are several parts.
        let _ = &self.shards;
        false
    }

    /// Makes one market of the parts, where no record is evaluated ahead. After it nothing is evaluated here. It takes no memory,
    /// and fails where a block found none.
    pub(crate) fn unite(&mut self, alloc: Global) -> Result<Market, NoMemory>
        ensures represents { (evaluated : List Record) → RepresentsAhead self.old evaluated → HasAhead self.old []
            → IfOk result (λ market. markets.Represents market evaluated) }
        ensures succeeds { (evaluated : List Record) → RepresentsAhead self.old evaluated → HasAhead self.old [] → self.old.shards.working ≡ true → IsOk result }
        ensures ended { self.new.shards.working ≡ false }
        ensures parts { length self.new.shards.parts ≡ length self.old.shards.parts }
        ensures several { 1 < length self.old.shards.parts }
    {
        if !self.shards.working() {
            return Err(NoMemory);
        }
        let room = self.room.take().ok_or(NoMemory)?;
        self.shards.unite(alloc, room)
    }

    /// Whether the last blocks weren't worth threads, so many one after the other that the workers may rest.
    pub(crate) fn is_idle_for_long(&self) -> bool {
        self.small_blocks >= SMALL_BLOCKS
    }

    /// Counts a block of so many records.
    fn count_block(&mut self, records: usize)
        ensures same { self.new ≡ self.old }
    {
        if are_worth_threads(records, self.names(), self.shards.workers()) {
            self.small_blocks = 0;
        } else {
            self.small_blocks = self.small_blocks.saturating_add(1);
        }
    }

    /// Lets the workers rest, where no record is evaluated ahead. After it nothing is evaluated here. It takes no memory, and fails
    /// where a block found none.
    pub(crate) fn rest(&mut self) -> Result<Resting, NoMemory>
        ensures represents { (evaluated : List Record) → RepresentsAhead self.old evaluated → HasAhead self.old []
            → IfOk result (λ resting. RepresentsResting resting evaluated) }
        ensures workers { IfOk result (λ resting. resting.workers ≡ length self.old.shards.parts) }
        ensures ended { self.new.shards.working ≡ false }
        ensures parts { length self.new.shards.parts ≡ length self.old.shards.parts }
        ensures several { 1 < length self.old.shards.parts }
    {
        let alloc = *self.given.allocator();
        let workers = self.shards.workers();
        let market = self.unite(alloc)?;
        Ok(Resting::of(alloc, workers, market))
    }

    /// Evaluates a block of records ahead, when those of the block before were handed out. Where it finds no memory, that is
    /// told when the first of them is asked for. After that it does nothing.
    pub(crate) fn prepare<Rt: Threads + Sync, G: Gate>(
        &mut self,
        rt: &Rt,
        gate: &G,
        xs: &Vec<Record>,
    )
        requires few { length xs.now.items ≤ 65536 }
        ensures represents { (capacity : ℕ) (evaluated : List Record) → RepresentsAhead self.old evaluated → HasAhead self.old [] → AreAdmissible capacity evaluated xs.now.items
            → RepresentsAhead self.new evaluated }
        ensures ahead { HasAhead self.new xs.now.items }
        ensures parts { length self.new.shards.parts ≡ length self.old.shards.parts }
        ensures several { 1 < length self.old.shards.parts }
    {
        self.count_block(xs.len());
        if !self.shards.working() {
            return;
        }
        self.given.clear();
        self.at = 0;
        self.index = 0;
        self.records = Snapshot::of(xs);
        // Where it fails, nothing works from then on.
        let _ = self.shards.block(rt, xs, gate, &mut self.given);
    }

    /// Hands out the messages of the oldest record that is evaluated ahead. It stays a call of its own, for which the records
    /// that bring no message make no room.
    #[inline(never)]
    fn hand_out(&mut self, out: &mut Vec<Stamped>) -> Result<(), NoMemory>
        ensures said { OnOk result (out.new.items ≡ out.old.items ++ map (λ message. message.stamped) (take (leading self.old.index self.old.left) self.old.left)) }
        ensures left { OnOk result (self.new ≡ record self.old { left = drop (leading self.old.index self.old.left) self.old.left }) }
        ensures parts { self.new.shards ≡ self.old.shards }
        ensures few { vec_len out.new ≤ vec_len out.old + most_messages }
        ensures keeps_room { vec_capacity out.old ≤ vec_capacity out.new }
    {
        let left = &self.given[self.at..];
        let count = count_of(left, self.index);
        // No record gives so many messages.
        if count > MOST_MESSAGES {
            return Err(NoMemory);
        }
        out.reserve(count)?;
        append(&left[..count], out);
        self.at += count;
        Ok(())
    }

    /// Hands out the messages of the oldest record that is evaluated ahead. It fails where its block, or one before, found
    /// no memory. It stays a call of its own, so that one worker's way past it is a jump.
    #[inline(never)]
    pub(crate) fn apply(&mut self, out: &mut Vec<Stamped>) -> Result<(), NoMemory>
        ensures given { (x : Record) (applied later : List Record) → RepresentsAhead self.old applied → HasAhead self.old (x ∷ later)
            → OnOk result (out.new.items ≡ out.old.items ++ newest_messages (x ∷ applied)) }
        ensures stands { (x : Record) (applied later : List Record) → RepresentsAhead self.old applied → HasAhead self.old (x ∷ later)
            → OnOk result (RepresentsAhead self.new (x ∷ applied)) }
        ensures ahead { (x : Record) (later : List Record) → HasAhead self.old (x ∷ later) → OnOk result (HasAhead self.new later) }
        ensures working { OnOk result (self.new.shards.working ≡ true) }
        ensures few { vec_len out.new ≤ vec_len out.old + most_messages }
        ensures keeps_room { vec_capacity out.old ≤ vec_capacity out.new }
        ensures parts { self.new.shards ≡ self.old.shards }
        ensures several { 1 < length self.old.shards.parts }
    {
        // The parts don't work after a block that found no memory.
        if !self.shards.working() {
            return Err(NoMemory);
        }
        if is_of(&self.given[self.at..], self.index) {
            self.hand_out(out)?;
        }
        self.index = self.index.wrapping_add(1);
        Ok(())
    }
}
