//! A piece that is sent whole, however the sink takes it.

ghost use Rattle.std.specs.Prelude.{◌≡◌, ℕ, OnOk, OnErr};
ghost use Rattle.std.specs.Io.KnownBytes.{append_known};
ghost use Rattle.host_core.specs.Outside.{Outside, Sends, Grows, Rose, Elapses};
ghost use Rattle.host_core.specs.Frames.{OnlySends};

use crate::failed::Failed;
use crate::host::Host;

/// Sends all of a piece, over as many sends as it needs. Where one fails, a prefix of the piece was sent.
pub fn send_all<H: Host>(host: &mut H, piece: &[u8]) -> Result<(), Failed>
    ensures sent { OnOk result ((H.outside host.new).sent ≡ append_known (H.outside host.old).sent piece.now) }
    ensures partly { OnErr result ((n : ℕ) × Grows (H.outside host.old).sent (H.outside host.new).sent piece.now n) }
    ensures moments { Elapses (H.outside host.old) (H.outside host.new) (Sends piece.now (H.outside host.old)) }
    ensures keeps { OnlySends (H.outside host.old) (H.outside host.new) }
    ensures cause { OnErr result (Rose (H.outside host.old).send_faults (H.outside host.new).send_faults) }
    ensures faultless { OnOk result ((H.outside host.new).send_faults ≡ (H.outside host.old).send_faults) }
{
    let mut done = 0;
    while done < piece.len() {
        done += host.send(&piece[done..])?;
    }
    Ok(())
}
