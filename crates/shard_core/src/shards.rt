//! One market in several parts.

ghost use Rattle.std.specs.Prelude.{◌≡◌, ℕ, ◌+◌, ◌<◌, ◌≤◌, ◌++◌, [], true, false, List, Some, IfOk, IsOk, OnOk, OnErr, is_ok, length};
ghost use Rattle.wire_in.specs.declared.record.Record.{Record};
ghost use Rattle.rulebook.specs.Admission.{most_names};
ghost use Rattle.shard_core.specs.Block.{AreAdmissible, Represents, followed, given, given_from, market_of};
ghost use Rattle.merge_core.specs.Merged.{GoesOn};
ghost use Rattle.shard_core.specs.Turns.{AreEmpty};

use crate::anew::{Counts, count, deal_evenly, even_out, gather};
use crate::jobs::work_parts;
use crate::pieces::pieces;
use crate::turns::{Turn, is_begun, lead_all};
use market_core::{Lead, Market, Section};
use merge_core::{Tagged, merge};
use price_core::NoMemory;
use std::alloc::Global;
use std::marker::Model;
use std::mem;
use std::thread::Threads;
use wire_in::Record;
use wire_out::Stamped;
use yard_core::Gate;

/// The most records of a piece that a single part takes: its notes and messages stay in the nearest cache then.
const PIECE_OF_ONE: usize = 256;

/// The most records of a piece that several parts take. Threads begin anew for each piece, and ranges are cut anew before it.
const PIECE_OF_SEVERAL: usize = 65_536;

/// The same while names are listed, which all go to the last part: so few that they are done here, before ranges are cut anew.
const PIECE_OF_LISTINGS: usize = 1_000;

/// One market in parts: the market's part, and sections of symbols whose ranges of ids lie one behind the other. New names
/// belong to the last part. A block is taken piece by piece, and between pieces the ranges are cut anew where their loads are
/// uneven. The room that a piece needs is kept for the next one.
#[derive(Drop)]
pub struct Shards {
    lead: Lead,
    parts: Vec<Section>,
    working: bool,
    counts: Counts,
    turns: Vec<Turn>,
    said: Vec<Stamped>,
    market: Vec<Tagged>,
    told: Vec<Vec<Tagged>>,
}

impl Model for Shards {
    ghost use Rattle.std.specs.Prelude.{◌≡◌, ◌<◌, ◌≤◌, length};
    ghost use Rattle.shard_core.specs.Block.{ShardsState};
    ghost use Rattle.shard_core.specs.Turns.{AreFew};

    ghost Value = { ShardsState };

    ghost view = { λ shards. record { lead = shards.lead; parts = shards.parts.items; working = shards.working } };

    ghost invariant = { λ shards. (0 < length shards.parts.items) × (length shards.parts.items ≤ 64) × (length shards.told.items ≡ length shards.parts.items) × AreFew shards.parts.items };
}

/// So many sections with no symbols.
fn sections(alloc: Global, count: u32) -> Result<Vec<Section>, NoMemory>
    ensures { IfOk result (λ parts. AreEmpty count parts.items) }
{
    let mut parts = Vec::with_capacity(alloc, count as usize)?;
    for _index in 0..count {
        let part = Section::new(alloc)?;
        parts.push_reserved(part);
    }
    Ok(parts)
}

/// So many lists of no messages.
fn lists(alloc: Global, count: u32) -> Result<Vec<Vec<Tagged>>, NoMemory>
    ensures { IfOk result (λ lists. length lists.items ≡ count) }
{
    let mut lists = Vec::with_capacity(alloc, count as usize)?;
    for _index in 0..count {
        lists.push_reserved(Vec::new(alloc));
    }
    Ok(lists)
}

impl Shards {
    /// A market of no records, in so many parts, from 1 to 64.
    pub fn new(alloc: Global, workers: u32) -> Result<Shards, NoMemory>
        requires workers { (0 < workers) × (workers ≤ 64) }
        ensures stands { IfOk result (λ shards. Represents shards []) }
        ensures parts { IfOk result (λ shards. length shards.parts ≡ workers) }
        ensures working { IfOk result (λ shards. shards.working ≡ true) }
    {
        let lead = Lead::new(alloc)?;
        let parts = sections(alloc, workers)?;
        let told = lists(alloc, workers)?;
        Ok(Shards {
            lead,
            parts,
            working: true,
            counts: Counts::new(alloc),
            turns: Vec::new(alloc),
            said: Vec::new(alloc),
            market: Vec::new(alloc),
            told,
        })
    }

    /// One market in so many parts, from 1 to 64. Each has as many of its stocks as the others, but for the first one, which has
    /// about two thirds of that.
    pub fn of(alloc: Global, workers: u32, market: Market) -> Result<Shards, NoMemory>
        requires workers { (0 < workers) × (workers ≤ 64) }
        ensures one { IfOk result (λ shards. market_of shards ≡ market) }
        ensures parts { IfOk result (λ shards. length shards.parts ≡ workers) }
        ensures working { IfOk result (λ shards. shards.working ≡ true) }
    {
        let (lead, all) = market.into_parts();
        let mut parts = sections(alloc, workers)?;
        let counts = deal_evenly(alloc, all, &mut parts)?;
        let told = lists(alloc, workers)?;
        Ok(Shards {
            lead,
            parts,
            working: true,
            counts,
            turns: Vec::new(alloc),
            said: Vec::new(alloc),
            market: Vec::new(alloc),
            told,
        })
    }

    /// How many names were ever listed.
    pub fn names(&self) -> u32
        ensures names { result ≡ length self.now.lead.directory }
        ensures bound { result ≤ most_names }
    {
        self.lead.names()
    }

    /// In how many parts it is.
    pub fn workers(&self) -> u32
        ensures workers { result ≡ length self.now.parts }
        ensures bounds { (0 < result) × (result ≤ 64) }
    {
        self.parts.len() as u32
    }

    /// Whether no block has failed. A market of which a block failed gives nothing more.
    pub fn working(&self) -> bool
        ensures { result ≡ self.now.working }
    {
        self.working
    }

    /// Makes one market of the parts: their stocks lie behind those of another, whose room they take, and have the names and the
    /// day of the parts. It takes no memory where that other has no stocks. Nothing works from then on, also after an error, which
    /// is want of memory or that a block has failed.
    pub fn unite(&mut self, alloc: Global, room: Market) -> Result<Market, NoMemory>
        ensures one { IfOk result (λ market. market ≡ record (market_of self.old) { symbols = room.symbols ++ (market_of self.old).symbols }) }
        ensures succeeds { (applied : List Record) → Represents self.old applied → self.old.working ≡ true → room.symbols ≡ [] → IsOk result }
        ensures ended { self.new.working ≡ false }
        ensures parts { length self.new.parts ≡ length self.old.parts }
    {
        // For the proof: it has the invariant, that there are no more names than may be listed.
        let _names = self.lead.names();
        if !mem::replace(&mut self.working, false) {
            return Err(NoMemory);
        }
        let (mut lead, mut symbols) = room.into_parts();
        mem::swap(&mut self.lead, &mut lead);
        gather(&mut symbols, &mut self.parts)?;
        Market::of(alloc, lead, symbols)?.ok_or(NoMemory)
    }

    /// How many records a piece of a block has at most.
    pub(crate) fn most_of_piece(&self) -> usize
        ensures { (0 < result) × (result ≤ 65536) }
    {
        if self.parts.len() == 1 {
            PIECE_OF_ONE
        } else if self.counts.awaits_cut() {
            PIECE_OF_LISTINGS
        } else {
            PIECE_OF_SEVERAL
        }
    }

    /// Appends what one market gives for the records of a piece, each message with the index of its record, from that of the
    /// first one on.
    pub(crate) fn piece<Rt: Threads + Sync, G: Gate>(
        &mut self,
        rt: &Rt,
        xs: &[Record],
        first: u32,
        gate: &G,
        out: &mut Vec<Tagged>,
    ) -> Result<(), NoMemory>
        requires working { self.old.working ≡ true }
        requires few { first + length xs.now ≤ 65536 }
        ensures given { (capacity : ℕ) (applied : List Record) → Represents self.old applied → AreAdmissible capacity applied xs.now
            → OnOk result (out.new.items ≡ out.old.items ++ given_from first applied xs.now) }
        ensures stands { (capacity : ℕ) (applied : List Record) → Represents self.old applied → AreAdmissible capacity applied xs.now
            → OnOk result (Represents self.new (followed applied xs.now)) }
        ensures behind { OnOk result (GoesOn out.old.items out.new.items) }
        ensures err { OnErr result (out.new.items ≡ out.old.items) }
        ensures working { self.new.working ≡ is_ok result }
        ensures parts { length self.new.parts ≡ length self.old.parts }
    {
        if !is_begun(xs, &self.lead) {
            return Ok(());
        }
        self.working = false;
        even_out(*self.said.allocator(), &mut self.parts, &mut self.counts)?;
        lead_all(
            &mut self.lead,
            xs,
            &mut self.said,
            &mut self.turns,
            &mut self.market,
        )?;
        count(
            &self.parts,
            &self.turns,
            self.lead.names(),
            &mut self.counts,
        )?;
        work_parts(
            rt,
            gate,
            &mut self.parts,
            xs,
            &self.turns,
            &mut self.said,
            &mut self.told,
        )?;
        merge(&self.market, &self.told, first, out)?;
        self.working = true;
        Ok(())
    }

    /// Appends what one market gives for records that are admissible, one after the other, after those before: each
    /// message with the index of its record in the block, from 0. At most 65,536 records, and no block before has failed.
    /// Several parts pass the gate, each on a thread of its own, where a piece has 1,024 records or more; with fewer, and by
    /// one part, no gate is passed and no thread begun. An error leaves the list as it was, and nothing works from then on.
    /// Records before any day, which admission refuses, are passed over.
    pub fn block<Rt: Threads + Sync, G: Gate>(
        &mut self,
        rt: &Rt,
        xs: &[Record],
        gate: &G,
        out: &mut Vec<Tagged>,
    ) -> Result<(), NoMemory>
        requires working { self.old.working ≡ true }
        requires few { length xs.now ≤ 65536 }
        ensures given { (capacity : ℕ) (applied : List Record) → Represents self.old applied → AreAdmissible capacity applied xs.now
            → OnOk result (out.new.items ≡ out.old.items ++ given applied xs.now) }
        ensures stands { (capacity : ℕ) (applied : List Record) → Represents self.old applied → AreAdmissible capacity applied xs.now
            → OnOk result (Represents self.new (followed applied xs.now)) }
        ensures err { OnErr result (out.new.items ≡ out.old.items) }
        ensures working { self.new.working ≡ is_ok result }
        ensures parts { length self.new.parts ≡ length self.old.parts }
    {
        let before = out.len();
        let Ok(()) = pieces(rt, self, xs, gate, out) else {
            out.truncate(before);
            return Err(NoMemory);
        };
        Ok(())
    }
}
