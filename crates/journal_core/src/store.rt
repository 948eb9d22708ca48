//! A write that is on the disk before the next step.

ghost use Rattle.std.specs.Prelude.{◌≡◌, ◌≤◌, ◌<◌, ◌+◌, ◌^◌, ℕ, List, length, Some, option_map, OnOk, OnErr};
ghost use Rattle.host_core.specs.Outside.{Outside, Changes, written, Torn, IsSettled, Rose, Elapses};
ghost use Rattle.host_core.specs.Frames.{OnlyWrites};

use host_core::{Failed, Host};

/// Writes the piece at an offset of the disk and syncs.
pub fn store<H: Host>(host: &mut H, at: u64, piece: &[u8]) -> Result<(), Failed>
    requires within { (disk : List ℕ) → (H.outside host.old).disk ≡ Some disk → at ≤ length disk }
    requires fits { at + length piece.now < 2 ^ 64 }
    ensures written { OnOk result ((H.outside host.new).disk ≡ option_map (written at piece.now) (H.outside host.old).disk) }
    ensures settled { OnOk result (IsSettled (H.outside host.new)) }
    ensures moments { Elapses (H.outside host.old) (H.outside host.new) (Changes (Torn at (length piece.now)) (H.outside host.old)) }
    ensures keeps { OnlyWrites (H.outside host.old) (H.outside host.new) }
    ensures cause { OnErr result (Rose (H.outside host.old).disk_faults (H.outside host.new).disk_faults) }
    ensures faultless { OnOk result ((H.outside host.new).disk_faults ≡ (H.outside host.old).disk_faults) }
{
    host.disk_write(at, piece)?;
    host.disk_sync()
}
