//! The records that one append writes.

ghost use Rattle.std.specs.Prelude.{◌≡◌, ◌+◌, ◌<◌, ◌≤◌, ◌++◌, ◌∷◌, [], All, IfOk, IsTrue, false, ◌↔◌, length, vec_len, vec_capacity};
ghost use Rattle.wire_in.specs.declared.record.Record.{Record};
ghost use Rattle.wire_in.specs.Spelling.{InRange, Spells};

use price_core::NoMemory;
use std::alloc::Global;
use std::marker::Model;
use wire_in::{Record, blank, decode_into};

/// The most records of a batch.
pub const BATCH_MAX: usize = 64;

/// Up to 64 records, the oldest first, which are appended together. Their places are made when it is made; how many are taken
/// is a number of its own, so that a record is decoded where it then lies.
#[derive(Debug, Drop)]
pub struct Batch {
    places: Vec<Record>,
    count: usize,
}

impl Model for Batch {
    ghost use Rattle.std.specs.Prelude.{List, take};
    ghost use Rattle.wire_in.specs.declared.record.Record.{Record};
    ghost use Rattle.journal_core.specs.Batch.{IsBatchState};

    ghost Value = { List Record };

    ghost view = { λ b. take b.count b.places.items };

    ghost invariant = { λ b. IsBatchState b.count b.places.items };
}

/// Adds a place behind the others, where there is room for it.
fn add_place(places: &mut Vec<Record>)
    requires { vec_len places.old + 1 ≤ vec_capacity places.old }
    ensures len { vec_len places.new ≡ vec_len places.old + 1 }
    ensures capacity { vec_capacity places.old ≤ vec_capacity places.new }
{
    places.extend_from_slice(&[blank()]).unwrap();
}

/// 64 places for records.
fn places(alloc: Global) -> Result<Vec<Record>, NoMemory>
    ensures { IfOk result (λ places. length places.items ≡ BATCH_MAX) }
{
    let mut places = Vec::with_capacity(alloc, BATCH_MAX)?;
    for _place in 0..BATCH_MAX {
        add_place(&mut places);
    }
    Ok(places)
}

impl Batch {
    /// An empty batch.
    pub fn new(alloc: Global) -> Result<Batch, NoMemory>
        ensures { IfOk result (λ batch. batch ≡ []) }
    {
        Ok(Batch {
            places: places(alloc)?,
            count: 0,
        })
    }

    /// Adds a record behind the others.
    pub fn push(&mut self, x: Record)
        requires room { length self.old < BATCH_MAX }
        requires range { InRange x }
        ensures { self.new ≡ self.old ++ x ∷ [] }
    {
        self.places[self.count] = x;
        self.count += 1;
    }

    /// Adds the record of a body behind the others. False: the body is of no record, and all is as it was.
    pub(crate) fn decode(&mut self, body: &[u8]) -> bool
        requires room { length self.old < BATCH_MAX }
        requires short { length body.now ≤ 255 }
        ensures taken { IsTrue result → (x : Record) × Spells body.now x × (self.new ≡ self.old ++ x ∷ []) }
        ensures refused { result ≡ false → (x : Record) → ¬ Spells body.now x }
        ensures none { result ≡ false → self.new ≡ self.old }
    {
        if decode_into(body, &mut self.places[self.count]).is_err() {
            return false;
        }
        self.count += 1;
        true
    }

    /// The records, the oldest first.
    pub fn list(&self) -> &[Record]
        ensures records { result.now ≡ self.now }
        ensures most { length self.now ≤ BATCH_MAX }
        ensures ranges { All InRange self.now }
    {
        &self.places[..self.count]
    }

    /// How many records it holds.
    pub fn len(&self) -> usize
        ensures len { result ≡ length self.now }
        ensures most { length self.now ≤ BATCH_MAX }
    {
        self.count
    }

    /// Whether it holds no record.
    pub fn is_empty(&self) -> bool
        ensures { IsTrue result ↔ (self.now ≡ []) }
    {
        self.count == 0
    }

    /// Whether it takes no further record.
    pub fn is_full(&self) -> bool
        ensures full { IsTrue result ↔ (length self.now ≡ BATCH_MAX) }
        ensures most { length self.now ≤ BATCH_MAX }
    {
        self.count == BATCH_MAX
    }

    /// Removes all records. The places stay.
    pub fn clear(&mut self)
        ensures { self.new ≡ [] }
    {
        self.count = 0;
    }
}
