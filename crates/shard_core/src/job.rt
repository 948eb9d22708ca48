//! The work of one part at a block, as a job that a worker can take.

ghost use Rattle.std.specs.Prelude.{◌≡◌, ◌≤◌, true, false, length};
ghost use Rattle.rulebook.specs.Admission.{most_names};
ghost use Rattle.shard_core.specs.Turns.{Tells, noted};

use crate::part::{Ids, take_turns};
use crate::turns::Turn;
use market_core::Section;
use merge_core::Tagged;
use std::alloc::Global;
use std::snapshot::Snapshot;
use wire_in::Record;
use yard_core::Job;

/// A part that takes the turns of a block. It has its own symbols, and reads the records and their turns, which are lent to
/// all parts. What its symbols were before is for contracts alone.
#[derive(Drop)]
pub struct PartJob<'a> {
    pub index: u32,
    pub alloc: Global,
    pub ids: Ids,
    pub before: Snapshot<Section>,
    pub section: Section,
    pub xs: &'a [Record],
    pub turns: &'a [Turn],
    pub told: Vec<Tagged>,
    pub is_done: bool,
    pub lacks_memory: bool,
    ghost count: { length turns.now ≡ length xs.now },
    ghost short: { length xs.now ≤ 65536 },
    ghost few: { length section.symbols ≤ most_names },
    ghost fresh: { is_done ≡ false → section ≡ before.value },
    ghost right: { is_done ≡ true → lacks_memory ≡ false → ∥ Tells ids.start ids.is_last (noted xs.now turns.now) before.value.symbols section.symbols told.items ∥₁ },
}

impl<'a> Job for PartJob<'a> {
    ghost use Rattle.std.specs.Prelude.{◌≡◌, true, false};
    ghost use Rattle.shard_core.specs.Turns.{Tells, noted};

    type Origin = (Section, Ids, [Record; 0], [Turn; 0]);

    ghost place_of = { λ job. job.index };

    ghost origin_of = { λ job. (job.before.value, job.ids, job.xs.now, job.turns.now) };

    ghost has_result = { λ job. (job.is_done ≡ true) × (job.lacks_memory ≡ false → ∥ Tells job.ids.start job.ids.is_last (noted job.xs.now job.turns.now) job.before.value.symbols job.section.symbols job.told.items ∥₁) };

    fn place(&self) -> u32 {
        self.index
    }

    fn work(&mut self) {
        if !self.is_done {
            self.take_turns();
        }
    }

    fn worked(&self) -> bool {
        self.is_done
    }
}

impl<'a> PartJob<'a> {
    /// Takes the turns. Want of memory is kept as what came of it.
    fn take_turns(&mut self)
        requires { self.old.is_done ≡ false }
        ensures same { (self.new.index ≡ self.old.index) × (self.new.before.value ≡ self.old.before.value) × (self.new.ids ≡ self.old.ids) }
        ensures block { (self.new.xs.now ≡ self.old.xs.now) × (self.new.turns.now ≡ self.old.turns.now) }
        ensures done { self.new.is_done ≡ true }
    {
        let mut said = Vec::new(self.alloc);
        let taken = take_turns(
            self.alloc,
            &mut self.section,
            self.ids,
            self.xs,
            self.turns,
            &mut said,
            &mut self.told,
        );
        self.lacks_memory = taken.is_err();
        self.is_done = true;
    }
}
