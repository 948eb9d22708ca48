//! A journal that is read batch by batch, each record admitted and none evaluated.

ghost use Rattle.std.specs.Prelude.{◌≡◌, ◌⊎◌, ◌+◌, ◌<◌, ◌≤◌, ◌++◌, ◌∷◌, [], ℕ, List, Option, Some, None, Ok, IfOk, IfErr, IsTrue, OnOk, length, true, false};
ghost use Rattle.host_core.specs.Outside.{NoFault};
ghost use Rattle.host_core.specs.Frames.{OnlyReadsDisk};
ghost use Rattle.wire_in.specs.declared.base.Base.{Base};
ghost use Rattle.wire_in.specs.declared.record.Record.{Record};
ghost use Rattle.journal_core.specs.Layout.{with_batch};
ghost use Rattle.journal_core.specs.Walk.{HasBase, HasNoHeader};
ghost use Rattle.market_core.specs.AdmissionState as admissions;
ghost use Rattle.recovery_core.specs.Ends.{TellsNoStart};
ghost use Rattle.recovery_core.specs.Recoveries.{HasDamage, Hinders, Refuses};
ghost use Rattle.standby_core.specs.Reading.{Admits, IsInStep, Reads};

use host_core::{Host, Status};
use journal_core::{Batch, Scan};
use market_core::Admission;
use price_core::NoMemory;
use std::alloc::Global;
use wire_in::Record;

/// Admits a record that no refusal applies to. It takes no memory.
pub fn admit(admission: &mut Admission, x: &Record)
    requires { admissions.refusal_of admission.old x.now ≡ None }
    ensures stands { (admitted : List Record) → admissions.Stands admission.old admitted → admissions.Stands admission.new (x.now ∷ admitted) }
    ensures capacity { admission.new.capacity ≡ admission.old.capacity }
    ensures count { admission.new.count ≡ admission.old.count + 1 }
{
    admission.admit(x).unwrap();
}

/// Admits records, one after the other. False: one may not follow those before it, and those from it on are left out.
fn admit_all(admission: &mut Admission, records: &[Record]) -> bool
    requires within { admission.old.count ≤ admission.old.capacity }
    ensures admits { (capacity : ℕ) (base : Option Base) (accepted : List Record) → Admits capacity base accepted admission.old
        → IsTrue result → Admits capacity base (with_batch accepted records.now) admission.new }
    ensures refuses { (capacity : ℕ) (base : Option Base) (accepted : List Record) → Admits capacity base accepted admission.old
        → ¬ IsTrue result → Refuses capacity base accepted records.now }
    ensures within { admission.new.count ≤ admission.new.capacity }
    ensures count { IsTrue result → admission.new.count ≡ admission.old.count + length records.now }
    ensures capacity { admission.new.capacity ≡ admission.old.capacity }
{
    for x in records {
        if admission.verdict(x).is_some() {
            return false;
        }
        admit(admission, x);
    }
    true
}

/// The admission of the records before a scan: that of its base, or this one of no records, under the limit of the journal.
fn admission_before(scan: &Scan, mut fresh: Admission) -> Admission
    requires fresh { admissions.Represents fresh [] }
    ensures before { Admits scan.now.capacity scan.now.base [] result }
    ensures few { result.capacity ≤ 2000000000 }
    ensures within { result.count ≤ result.capacity }
{
    let capacity = scan.limit();
    if let Some(base) = scan.base() {
        return fresh.restore(capacity, base);
    }
    fresh.limit(capacity);
    fresh
}

/// How far a journal was read, the admission of its records so far, and the batch that was read last.
#[derive(Drop)]
pub struct Reading {
    pub scan: Scan,
    pub admission: Admission,
    pub batch: Batch,
}

impl Reading {
    /// Begins behind the last base of a journal, or at its first gate where it has none. It takes memory before the first call
    /// of the host, and for the base.
    pub fn begin<H: Host>(alloc: Global, host: &mut H) -> Result<Reading, Status>
        ensures reads { IfOk result (λ reading. (disk : List ℕ) → (H.outside host.new).disk ≡ Some disk → Reads [] disk reading (H.outside host.new)) }
        ensures in_step { IfOk result (λ reading. IsInStep reading.scan reading.admission (H.outside host.new).disk) }
        ensures header { OnOk result ((disk : List ℕ) → (H.outside host.new).disk ≡ Some disk → ¬ HasNoHeader disk) }
        ensures kind { IfErr result TellsNoStart }
        ensures keeps { OnlyReadsDisk (H.outside host.old) (H.outside host.new) }
        ensures none { OnOk result (NoFault (H.outside host.old) (H.outside host.new)) }
        ensures hindered { IfErr result (λ status. Hinders (λ at. (disk : List ℕ) → (H.outside host.new).disk ≡ Some disk → HasDamage at disk)
            ((disk : List ℕ) → (H.outside host.new).disk ≡ Some disk → HasNoHeader disk)
            ((host.new ≡ host.old) ⊎ ((disk : List ℕ) → (H.outside host.new).disk ≡ Some disk → HasBase disk)) status (H.outside host.old) (H.outside host.new)) }
    {
        let Ok((batch, fresh)) = room(alloc) else {
            return Err(Status::NoMemory);
        };
        let scan = Scan::begin(alloc, host)?;
        let admission = admission_before(&scan, fresh);
        Ok(Reading {
            scan,
            admission,
            batch,
        })
    }

    /// Reads the next batch, and admits its records behind those before. False: the journal is at its end, and the batch is empty.
    pub fn next<H: Host>(&mut self, host: &mut H) -> Result<bool, Status>
        requires { IsInStep self.old.scan self.old.admission (H.outside host.old).disk }
        ensures batch { (batches : List (List Record)) (disk : List ℕ) → Reads batches disk self.old (H.outside host.old)
            → result ≡ Ok true → Reads (batches ++ self.new.batch ∷ []) disk self.new (H.outside host.new) }
        ensures end { (batches : List (List Record)) (disk : List ℕ) → Reads batches disk self.old (H.outside host.old)
            → result ≡ Ok false → Reads batches disk self.new (H.outside host.new) }
        ensures in_step { OnOk result (IsInStep self.new.scan self.new.admission (H.outside host.new).disk) }
        ensures count { OnOk result (self.new.admission.count ≡ self.old.admission.count + length self.new.batch) }
        ensures goes_on { result ≡ Ok true → self.old.scan.gate < self.new.scan.gate }
        ensures within { self.new.scan.gate ≤ self.new.scan.size }
        ensures size { self.new.scan.size ≡ self.old.scan.size }
        ensures base { self.new.scan.base ≡ self.old.scan.base }
        ensures closed { result ≡ Ok false → IsTrue self.new.scan.is_closed }
        ensures keeps { OnlyReadsDisk (H.outside host.old) (H.outside host.new) }
        ensures none { OnOk result (NoFault (H.outside host.old) (H.outside host.new)) }
        ensures hindered { IfErr result (λ status. Hinders (λ at. (batches : List (List Record)) (disk : List ℕ) → Reads batches disk self.old (H.outside host.old) → HasDamage at disk)
            ⊥ ⊥ status (H.outside host.old) (H.outside host.new)) }
    {
        let more = self.scan.next(host, &mut self.batch)?;
        if !more {
            return Ok(false);
        }
        let all = admit_all(&mut self.admission, self.batch.list());
        if !all {
            return Err(Status::Damaged { at: self.scan.at() });
        }
        Ok(true)
    }
}

/// Room for a batch, and an admission of no records.
fn room(alloc: Global) -> Result<(Batch, Admission), NoMemory>
    ensures { IfOk result (λ room. admissions.Represents room.1 []) }
{
    Ok((Batch::new(alloc)?, Admission::new(alloc, 0)?))
}
