//! The keeper of a replay, which keeps no records.

ghost use Rattle.std.specs.Prelude.{◌≡◌, ◌≤◌, ℕ, List, Option, false};
ghost use Rattle.host_core.specs.Outside.{Outside, MayLeave};
ghost use Rattle.wire_in.specs.declared.record.Record.{Record};
ghost use Rattle.replay_core.specs.Replayed.{LeavesDisk};
ghost use Rattle.replay_core.specs.InternalKeeping.{left_on};

use engine_core::Keeper;
use host_core::{Fault, Host};
use wire_in::Record;

/// Keeps nothing: accepted records aren't acknowledged, and the disk has what it had.
#[derive(Clone, Copy, Debug, PartialEq, Eq)]
pub struct NoKeeper;

impl Keeper for NoKeeper {
    ghost acknowledges = { false };

    ghost most = { 65536 };

    ghost holds = { λ _ _ _. Unit {0} };

    ghost recovers = { λ _ now _ _ image. MayLeave now image };

    ghost has_room = { λ _ _ _. Unit {0} };

    ghost fails = { ⊥ };

    ghost touches = { λ _ old new. LeavesDisk old new };

    ghost still_held = { λ _ _ _ _ held _ _. held };

    ghost recovered_before = { λ _ _ _ image _ _ before left. before image left };

    ghost recovers_now = { λ _ _ _ _ _ left. left };

    ghost room_for_fewer = { λ _ _ _ _ _ room. room };

    ghost untouched = { λ _ _ _ disk faults. record { disk = disk; disk_faults = faults } };

    ghost touches_both = { λ _ old mid new first second. left_on old mid new first second };

    ghost touches_more = { λ _ _ _ _ _ left. left };

    fn acknowledges(&self) -> bool {
        false
    }

    fn keep<H: Host>(&mut self, host: &mut H, batch: &[Record]) -> Result<(), Fault> {
        let _ = host;
        let _ = batch;
        Ok(())
    }
}
