//! Records of a journal that wait to be evaluated.

ghost use Rattle.std.specs.Prelude.{◌≡◌, ◌+◌, ◌<◌, ◌≤◌, ◌++◌, ◌∷◌, [], All, IfOk, length, nat_le};
ghost use Rattle.wire_in.specs.Spelling.{InRange};

use engine_core::ROUND_MAX;
use price_core::NoMemory;
use std::alloc::Global;
use std::marker::Model;
use wire_in::Record;

/// Up to so many accepted records, the oldest first. Their room is taken when it is made.
#[derive(Drop)]
pub struct Waiting {
    records: Vec<Record>,
    most: usize,
}

impl Model for Waiting {
    ghost use Rattle.std.specs.Prelude.{vec_capacity};
    ghost use Rattle.recovery_core.specs.Waiting.{WaitingState, IsWaiting};

    ghost Value = { WaitingState };

    ghost view = { λ waiting. record { records = waiting.records.items; most = waiting.most } };

    ghost invariant = { λ waiting. IsWaiting (record { records = waiting.records.items; most = waiting.most }) (vec_capacity waiting.records) };
}

impl Waiting {
    /// No records, in room for up to so many.
    pub fn new(alloc: Global, most: usize) -> Result<Waiting, NoMemory>
        requires most { most ≤ ROUND_MAX }
        ensures empty { IfOk result (λ waiting. waiting.records ≡ []) }
        ensures most { IfOk result (λ waiting. waiting.most ≡ most) }
    {
        Ok(Waiting {
            records: Vec::with_capacity(alloc, most)?,
            most,
        })
    }

    /// Adds records behind the others.
    pub(crate) fn append(&mut self, records: &[Record])
        requires room { length self.old.records + length records.now ≤ self.old.most }
        requires ranges { All InRange records.now }
        ensures { self.new ≡ record self.old { records = self.old.records ++ records.now } }
    {
        // It has room for them all.
        self.records.extend_from_slice(records).unwrap();
    }

    /// The records, the oldest first.
    pub(crate) fn list(&self) -> &Vec<Record>
        ensures records { result.now.items ≡ self.now.records }
        ensures few { length result.now.items ≤ self.now.most }
        ensures most { self.now.most ≤ ROUND_MAX }
        ensures ranges { All InRange result.now.items }
    {
        &self.records
    }

    /// Whether so many records more have room behind these.
    pub(crate) fn has_room(&self, count: usize) -> bool
        ensures exact { result ≡ nat_le (length self.now.records + count) self.now.most }
    {
        count <= self.most - self.records.len()
    }

    /// Removes all records. The room stays.
    pub(crate) fn clear(&mut self)
        ensures { self.new ≡ record self.old { records = [] } }
    {
        self.records.clear();
    }
}
