//! The opening of a standby: its journal is read to its end.

ghost use Rattle.std.specs.Prelude.{◌≡◌, ◌≤◌, [], ℕ, List, Some, IfErr, IfOk, IsTrue, OnOk};
ghost use Rattle.host_core.specs.Outside.{NoFault};
ghost use Rattle.host_core.specs.Frames.{OnlyReadsDisk};
ghost use Rattle.recovery_core.specs.Recoveries.{HasDamage, Hinders};
ghost use Rattle.standby_core.specs.Reading.{IsInStep};
ghost use Rattle.standby_core.specs.Running.{IsFinished, IsOpened, IsRead, IsUnopened};

use crate::reading::Reading;
use crate::round::Round;
use crate::standing::Standby;
use host_core::{Host, Status};
use std::alloc::Global;
use wire_in::Cutter;

/// Reads a journal on to its end.
fn read_all<H: Host>(reading: &mut Reading, host: &mut H) -> Result<(), Status>
    requires { IsInStep reading.old.scan reading.old.admission (H.outside host.old).disk }
    ensures reads { (disk : List ℕ) → IsRead disk reading.old (H.outside host.old) → OnOk result (IsRead disk reading.new (H.outside host.new)) }
    ensures in_step { OnOk result (IsInStep reading.new.scan reading.new.admission (H.outside host.new).disk) }
    ensures closed { OnOk result (IsTrue reading.new.scan.is_closed) }
    ensures keeps { OnlyReadsDisk (H.outside host.old) (H.outside host.new) }
    ensures none { OnOk result (NoFault (H.outside host.old) (H.outside host.new)) }
    ensures hindered { IfErr result (λ status. Hinders (λ at. (disk : List ℕ) → IsRead disk reading.old (H.outside host.old) → HasDamage at disk)
        ⊥ ⊥ status (H.outside host.old) (H.outside host.new)) }
{
    'batches: loop {
        let more = reading.next(host)?;
        if !more {
            return Ok(());
        }
    }
}

/// A standby over a journal that was read to its end, with this round.
fn finish(reading: Reading, round: Round) -> Standby
    requires { IsTrue reading.scan.is_closed }
    ensures { IsFinished reading round result }
{
    Standby {
        cutter: Cutter::new(),
        admission: reading.admission,
        journal: reading.scan.finish(),
        round,
        answered: 0,
    }
}

/// Reads a journal to its end, admits its records, and goes on from there with this round. Memory is short only before the first call
/// of the host, or for the last base of the journal.
pub fn open<H: Host>(alloc: Global, host: &mut H, round: Round) -> Result<Standby, Status>
    requires replies { round.replies ≡ [] }
    requires records { round.records ≡ [] }
    requires most { (1 ≤ round.most) × (round.most ≤ 64) }
    ensures opened { IfOk result (λ standby. IsOpened standby (H.outside host.old) (H.outside host.new)) }
    ensures frames { IfOk result (λ standby. standby.round.most ≡ round.most) }
    ensures unopened { IfErr result (λ status. IsUnopened (host.new ≡ host.old) status (H.outside host.old) (H.outside host.new)) }
{
    let mut reading = Reading::begin(alloc, host)?;
    read_all(&mut reading, host)?;
    Ok(finish(reading, round))
}
