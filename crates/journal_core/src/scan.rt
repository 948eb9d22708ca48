//! A journal that is read, batch by batch.

ghost use Rattle.std.specs.Prelude.{◌≡◌, ◌≢◌, ◌⊎◌, ◌≤◌, ◌<◌, ◌+◌, ◌-◌, ◌∷◌, ◌++◌, [], ◌^◌, ◌↔◌, ℕ, true, false, List, length, drop, Some, Ok, Err, IsTrue, IsSome, IfSome, IfOk, OnOk, OnErr};
ghost use Rattle.std.specs.Option.{option_copied};
ghost use Rattle.host_core.specs.Outside.{Outside, Rose, IsSettled};
ghost use Rattle.host_core.specs.Frames.{OnlyReadsDisk};
ghost use Rattle.host_core.specs.HostCalls.{SyncsDisk};
ghost use Rattle.wire_in.specs.Bases.{IsInRange};
ghost use Rattle.wire_in.specs.declared.record.Record.{Record};
ghost use Rattle.journal_core.specs.Layout.{IsBatch, IsLimit, Opens, frames_of, records_of};
ghost use Rattle.journal_core.specs.Scan.{is_rolled};

use crate::ahead::Ahead;
use crate::at_gate::AtGate;
use crate::batch::Batch;
use crate::error::ScanError;
use crate::frames::BATCH_BYTES;
use crate::journal::Journal;
use crate::walk::Walk;
use host_core::{Failed, Host};
use std::alloc::Global;
use std::marker::Model;
use wire_in::Base;

/// A journal that is read batch by batch, from its last base on. It writes nothing, and takes no memory once it was begun.
#[derive(Drop)]
pub struct Scan {
    capacity: u64,
    base: Option<Base>,
    count: u64,
    at: u64,
    gate: u64,
    closed: bool,
    size: u64,
    ahead: Ahead,
}

impl Model for Scan {
    ghost use Rattle.journal_core.specs.Scan.{ScanState, IsOrdered};

    ghost Value = { ScanState };

    ghost view = { λ s. record { capacity = s.capacity; base = s.base; count = s.count; at = s.at; gate = s.gate; is_closed = s.closed; size = s.size; ahead = s.ahead } };

    ghost invariant = { λ s. IsOrdered s.capacity s.base s.count s.gate s.size s.ahead };
}

impl Scan {
    ghost use Rattle.journal_core.specs.AtGate.{IsDamaged};
    ghost use Rattle.journal_core.specs.Journal.{Represents, IsOfDisk, HasBytes};
    ghost use Rattle.journal_core.specs.Layout.{Holds};
    ghost use Rattle.journal_core.specs.Scan.{HasRead, IsScanOf, IsBegun, records_before};
    ghost use Rattle.journal_core.specs.Walk.{HasBase, HasHeader, HasNoHeader, IsUnreadableAt};

    /// Begins behind the last base of a journal, or at its first gate where there is none, after a sync of the disk and a walk from
    /// gate to gate. It takes a buffer, and memory for the base. `NoJournal` comes exactly where the disk has fewer than 17 bytes,
    /// another signature, or a capacity outside its range. `Damaged` comes exactly where the walk has no way on at that offset, or
    /// where the last base, whose gate stands there, spells none or has more records than the journal takes.
    pub fn begin<H: Host>(alloc: Global, host: &mut H) -> Result<Scan, ScanError>
        ensures begun { IfOk result IsBegun }
        ensures header { IfOk result (λ scan. (disk : List ℕ) → (H.outside host.new).disk ≡ Some disk → HasHeader scan.capacity disk) }
        ensures read { IfOk result (λ scan. (disk : List ℕ) → (H.outside host.new).disk ≡ Some disk → HasRead scan [] disk) }
        ensures of_disk { IfOk result (λ scan. IsScanOf scan (H.outside host.new).disk) }
        ensures settled { OnOk result (IsSettled (H.outside host.new)) }
        ensures no_journal { result ≡ Err ScanError.NoJournal → (disk : List ℕ) → (H.outside host.new).disk ≡ Some disk → HasNoHeader disk }
        ensures damaged { (at : ℕ) → result ≡ Err (ScanError.Damaged at) → (disk : List ℕ) → (H.outside host.new).disk ≡ Some disk
            → (capacity : ℕ) × IsUnreadableAt capacity at disk }
        ensures unbegun { result ≡ Err ScanError.NoMemory
            → (host.new ≡ host.old) ⊎ ((disk : List ℕ) → (H.outside host.new).disk ≡ Some disk → HasBase disk) }
        ensures cause { result ≡ Err ScanError.DiskFault → Rose (H.outside host.old).disk_faults (H.outside host.new).disk_faults }
        ensures faultless { result ≢ Err ScanError.DiskFault → (H.outside host.new).disk_faults ≡ (H.outside host.old).disk_faults }
        ensures keeps { OnlyReadsDisk (H.outside host.old) (H.outside host.new) }
    {
        let ahead = Ahead::new(alloc)?;
        settle(host)?;
        Scan::walked(alloc, host, ahead)
    }

    /// Begins with this buffer.
    fn walked<H: Host>(alloc: Global, host: &mut H, ahead: Ahead) -> Result<Scan, ScanError>
        ensures begun { IfOk result IsBegun }
        ensures header { IfOk result (λ scan. (disk : List ℕ) → (H.outside host.new).disk ≡ Some disk → HasHeader scan.capacity disk) }
        ensures read { IfOk result (λ scan. (disk : List ℕ) → (H.outside host.new).disk ≡ Some disk → HasRead scan [] disk) }
        ensures no_journal { result ≡ Err ScanError.NoJournal → (disk : List ℕ) → (H.outside host.new).disk ≡ Some disk → HasNoHeader disk }
        ensures damaged { (at : ℕ) → result ≡ Err (ScanError.Damaged at) → (disk : List ℕ) → (H.outside host.new).disk ≡ Some disk
            → (capacity : ℕ) × IsUnreadableAt capacity at disk }
        ensures starved { result ≡ Err ScanError.NoMemory → (disk : List ℕ) → (H.outside host.new).disk ≡ Some disk → HasBase disk }
        ensures cause { result ≡ Err ScanError.DiskFault → Rose (H.outside host.old).disk_faults (H.outside host.new).disk_faults }
        ensures faultless { result ≢ Err ScanError.DiskFault → (H.outside host.new).disk_faults ≡ (H.outside host.old).disk_faults }
        ensures keeps { OnlyReadsDisk (H.outside host.old) (H.outside host.new) }
    {
        let walk = Walk::over(host, ahead)?;
        walk.scan(alloc, host)
    }

    /// A scan that begins at this gate.
    pub(crate) fn at_gate(
        capacity: u64,
        base: Option<Base>,
        size: u64,
        gate: u64,
        ahead: Ahead,
    ) -> Scan
        requires range { IsLimit capacity }
        requires base { IfSome base IsInRange }
        requires few { IfSome base (λ b. b.records ≤ capacity) }
        requires within { gate + length ahead ≤ size }
        requires small { size < 2 ^ 63 }
        ensures { result ≡ record { capacity = capacity; base = base; count = records_before base; at = gate; gate = gate; is_closed = false; size = size; ahead = ahead } }
    {
        let count = base.as_ref().map_or(0, |base| base.records);
        Scan {
            capacity,
            base,
            count,
            at: gate,
            gate,
            closed: false,
            size,
            ahead,
        }
    }

    /// Reads the next batch. True: the batch holds it. False: the next gate is closed. `Damaged` comes exactly where the
    /// gate at that offset stands before no batch, or none stands there. After any answer but true the batch is empty.
    pub fn next<H: Host>(&mut self, host: &mut H, into: &mut Batch) -> Result<bool, ScanError>
        requires { HasBytes self.old.size (H.outside host.old).disk }

        // On a disk of which it has handed out some batches behind the last base.
        ensures batch { result ≡ Ok true → (batches : List (List Record)) (disk : List ℕ) → (H.outside host.old).disk ≡ Some disk
            → HasRead self.old batches disk → HasRead self.new (batches ++ into.new ∷ []) disk }
        ensures same { result ≢ Ok true → (batches : List (List Record)) (disk : List ℕ) → (H.outside host.old).disk ≡ Some disk
            → HasRead self.old batches disk → HasRead self.new batches disk }
        ensures damaged { (at : ℕ) → result ≡ Err (ScanError.Damaged at) → (batches : List (List Record)) (disk : List ℕ) → (H.outside host.old).disk ≡ Some disk
            → HasRead self.old batches disk → IsDamaged (drop at disk) }
        ensures of_disk { IsScanOf self.old (H.outside host.old).disk → IsScanOf self.new (H.outside host.new).disk }

        ensures valid { result ≡ Ok true → IsBatch into.new }
        ensures empty { result ≢ Ok true → into.new ≡ [] }
        ensures count { self.new.count ≡ self.old.count + length into.new }
        ensures closed { result ≡ Ok false → IsTrue self.new.is_closed }
        ensures at_batch { result ≡ Ok true → self.new.at ≡ self.old.gate }
        ensures at_same { result ≢ Ok true → (self.new.at ≡ self.old.at) × (self.new.gate ≡ self.old.gate) }
        ensures at_damage { (at : ℕ) → result ≡ Err (ScanError.Damaged at) → at ≡ self.old.gate }
        ensures goes_on { result ≡ Ok true → self.old.gate < self.new.gate }
        ensures within { self.new.gate ≤ self.new.size }
        ensures size { self.new.size ≡ self.old.size }
        ensures capacity { self.new.capacity ≡ self.old.capacity }
        ensures base { self.new.base ≡ self.old.base }

        ensures no_memory { result ≢ Err ScanError.NoMemory }
        ensures no_journal { result ≢ Err ScanError.NoJournal }
        ensures cause { result ≡ Err ScanError.DiskFault → Rose (H.outside host.old).disk_faults (H.outside host.new).disk_faults }
        ensures settled { IsSettled (H.outside host.old) → IsSettled (H.outside host.new) }
        ensures faultless { result ≢ Err ScanError.DiskFault → (H.outside host.new).disk_faults ≡ (H.outside host.old).disk_faults }
        ensures keeps { OnlyReadsDisk (H.outside host.old) (H.outside host.new) }
    {
        into.clear();
        self.fill(host)?;
        self.take_at_gate(into)
    }

    /// The offset of the gate of the batch that was read last, or of the first gate, in bytes of the disk.
    pub fn at(&self) -> u64
        ensures { result ≡ self.now.at }
    {
        self.at
    }

    /// How many records the journal takes.
    pub fn limit(&self) -> u64
        ensures capacity { result ≡ self.now.capacity }
        ensures range { IsLimit result }
    {
        self.capacity
    }

    /// The last base of the journal; none exactly where it has none.
    pub fn base(&self) -> Option<&Base>
        ensures base { option_copied result ≡ self.now.base }
        ensures range { IfSome self.now.base IsInRange }
        ensures few { IfSome self.now.base (λ b. b.records ≤ self.now.capacity) }
    {
        self.base.as_ref()
    }

    /// The journal, once it was read to its end.
    pub fn finish(self) -> Journal
        requires { IsTrue self.is_closed }
        ensures capacity { result.capacity ≡ self.capacity }
        ensures count { result.count ≡ self.count }
        ensures rolled { result.rolled ≡ is_rolled self.base self.count }
        ensures whole { IsTrue result.whole }
        ensures keeps { (batches : List (List Record)) (disk : List ℕ) (capacity : ℕ) (records : List Record) → HasRead self batches disk
            → Holds disk capacity records → Represents result records disk }
        ensures of_disk { (known : _) → IsScanOf self known → IsOfDisk result known }
    {
        let rolled = is_rolled(&self.base, self.count);
        Journal::at(self.capacity, self.count, self.gate, rolled)
    }

    /// Reads on where a batch may not be there as a whole.
    fn fill<H: Host>(&mut self, host: &mut H) -> Result<(), Failed>
        requires size { HasBytes self.old.size (H.outside host.old).disk }
        ensures rest { self.new ≡ record self.old { ahead = self.new.ahead } }
        ensures within { self.new.gate ≤ self.new.size }
        ensures enough { OnOk result ((self.new.gate + length self.new.ahead ≡ self.new.size) ⊎ (BATCH_BYTES ≤ length self.new.ahead)) }
        ensures reads { (batches : List (List Record)) (disk : List ℕ) → (H.outside host.old).disk ≡ Some disk
            → HasRead self.old batches disk → HasRead self.new batches disk }
        ensures keeps { OnlyReadsDisk (H.outside host.old) (H.outside host.new) }
        ensures cause { OnErr result (Rose (H.outside host.old).disk_faults (H.outside host.new).disk_faults) }
        ensures faultless { OnOk result ((H.outside host.new).disk_faults ≡ (H.outside host.old).disk_faults) }
    {
        let left = self.size - self.gate;
        if (self.ahead.bytes().len() as u64) < left.min(BATCH_BYTES as u64) {
            self.ahead.read(host, self.gate, left)?;
        }
        Ok(())
    }

    /// Takes what stands at the next gate of what was read ahead.
    fn take_at_gate(&mut self, into: &mut Batch) -> Result<bool, ScanError>
        requires { into.old ≡ [] }
        ensures batch { result ≡ Ok true → Opens into.new self.old.ahead self.new.ahead
            × (self.new.gate ≡ self.old.gate + (length (frames_of into.new) + 5))
            × (self.new.count ≡ self.old.count + length into.new) × (self.new.at ≡ self.old.gate) × (self.new.is_closed ≡ false) }
        ensures closed { result ≡ Ok false → (into.new ≡ []) × (self.new ≡ record self.old { is_closed = true })
            × ((rest : List ℕ) × (self.old.ahead ≡ 0 ∷ rest)) }
        ensures damaged { (at : ℕ) → result ≡ Err (ScanError.Damaged at) → (at ≡ self.old.gate) × (self.new ≡ self.old) × IsDamaged self.old.ahead }
        ensures only { (error : _) → result ≡ Err error → (at : ℕ) × (error ≡ ScanError.Damaged at) }
        ensures none { (result ≡ Ok true) ⊎ (into.new ≡ []) }
        ensures reads { (result ≡ Ok true) ⊎ ((batches : List (List Record)) (disk : List ℕ) → HasRead self.old batches disk → HasRead self.new batches disk) }
        ensures capacity { self.new.capacity ≡ self.old.capacity }
        ensures base { self.new.base ≡ self.old.base }
        ensures size { self.new.size ≡ self.old.size }
        ensures within { self.new.gate ≤ self.new.size }
    {
        match AtGate::read(self.ahead.bytes(), into) {
            AtGate::Closed => {
                self.closed = true;
                Ok(false)
            }
            AtGate::Batch { len } => {
                self.ahead.skip(len);
                self.at = self.gate;
                self.gate += len as u64;
                self.count += into.len() as u64;
                self.closed = false;
                Ok(true)
            }
            AtGate::Damaged => {
                into.clear();
                Err(ScanError::Damaged { at: self.gate })
            }
        }
    }
}

/// Puts on the disk what an earlier run left pending.
fn settle<H: Host>(host: &mut H) -> Result<(), Failed>
    ensures syncs { SyncsDisk result (H.outside host.old) (H.outside host.new) }
{
    host.disk_sync()
}

/// Whether a base is there that has so many records.
fn is_rolled(base: &Option<Base>, count: u64) -> bool
    ensures { result ≡ is_rolled base.now count }
{
    base.as_ref().is_some_and(|base| base.records == count)
}
