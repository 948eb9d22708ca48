//! The journal as the keeper of a session's accepted records.

ghost use Rattle.std.specs.Prelude.{◌≡◌, ◌<◌, ◌≤◌, ◌+◌, ℕ, List, All, length, true, OnOk};
ghost use Rattle.host_core.specs.Outside.{Elapses};
ghost use Rattle.host_core.specs.Frames.{OnlyWrites};
ghost use Rattle.host_core.specs.Faults.{Causes};
ghost use Rattle.wire_in.specs.declared.record.Record.{Record};
ghost use Rattle.wire_in.specs.Spelling.{InRange};
ghost use Rattle.journal_core.specs.Layout.{with_batch};
ghost use Rattle.journal_core.specs.Journal.{IsAtRest};
ghost use Rattle.engine_core.specs.Serving.{Keeps};
ghost use Rattle.journal_core.specs.Extended.{Extends};
ghost use Rattle.live_core.specs.InternalKeeping.{HasRoom, Regains, rests_still, regained_before, regained_now, room_for_fewer, extends_still, extends_both, extends_more};

use engine_core::Keeper;
use host_core::{Fault, Host};
use journal_core::{BATCH_MAX, Batch, Journal};
use wire_in::Record;

/// Keeps accepted records in a journal, after which they are acknowledged. They are gathered in a batch.
#[derive(Drop)]
pub struct JournalKeeper {
    pub journal: Journal,
    pub batch: Batch,
}

/// Puts these records in the place of those of a batch.
fn refill(batch: &mut Batch, records: &[Record])
    requires few { length records.now ≤ BATCH_MAX }
    requires ranges { All InRange records.now }
    ensures { batch.new ≡ records.now }
{
    batch.clear();
    for x in records {
        batch.push(*x);
    }
}

impl Keeper for JournalKeeper {
    ghost acknowledges = { true };

    ghost most = { 64 };

    ghost holds = { λ keeper records now. IsAtRest keeper.journal records now };

    ghost recovers = { λ keeper now records pending image. Regains keeper.journal now records pending image };

    ghost has_room = { λ keeper known more. HasRoom keeper.journal known more };

    ghost fails = { Unit {0} };

    ghost touches = { λ most old new. Extends most old new };

    ghost still_held = { λ keeper records old new rest same left. rests_still keeper.journal records old new rest same left };

    ghost recovered_before = { λ keeper records pending image old new left regained. regained_before keeper.journal records pending image old new left regained };

    ghost recovers_now = { λ keeper records now image rest left. regained_now keeper.journal records now image rest left };

    ghost room_for_fewer = { λ keeper known fewer more le has. room_for_fewer keeper.journal known fewer more le has };

    ghost untouched = { λ most old new same faults. extends_still most old new same faults };

    ghost touches_both = { λ most old mid new first second. extends_both most old mid new first second };

    ghost touches_more = { λ fewer more old new le extends. extends_more fewer more old new le extends };

    fn acknowledges(&self) -> bool {
        true
    }

    fn keep<H: Host>(&mut self, host: &mut H, records: &[Record]) -> Result<(), Fault> {
        refill(&mut self.batch, records);
        self.journal.append(host, &self.batch)?;
        Ok(())
    }
}
