//! A journal that may be written.

ghost use Rattle.std.specs.Prelude.{◌≡◌, ◌≤◌, ◌<◌, ◌+◌, ◌*◌, ◌∷◌, ◌++◌, [], ◌^◌, ◌↔◌, ◌≢◌, ◌⊎◌, if◌then◌else◌, ℕ, true, false, List, All, length, Some, option_map, IsTrue, IsOk, IfOk, OnOk, OnErr, IfErr};
ghost use Rattle.host_core.specs.Outside.{Outside, MayLeave, Rose, Elapses, Changes, Torn, IsSettled, written};
ghost use Rattle.host_core.specs.Frames.{OnlyWrites};
ghost use Rattle.rulebook.specs.Base.{base_of};
ghost use Rattle.wire_in.specs.declared.record.Record.{Record};
ghost use Rattle.wire_in.specs.Bases.{base_bytes};
ghost use Rattle.wire_in.specs.Spelling.{InRange};
ghost use Rattle.journal_core.specs.Layout.{IsLimit, IsBatch, Holds, base_block, frames_of, stored_batch, stored_block, with_batch};
ghost use Rattle.journal_core.specs.Journal.{HasBytes, IsSettledAt, Appends, Stages};

use crate::batch::{BATCH_MAX, Batch};
use crate::error::{AppendError, FormatError, RollError};
use crate::frames::{BATCH_BYTES, put_content};
use crate::header::fresh;
use crate::room::Room;
use crate::store::store;
use host_core::{Failed, Host};
use std::marker::Model;
use wire_in::Record;

/// The most bytes that a record takes in a journal: a frame of 36 bytes, and the gate and the four bytes of length of its
/// batch.
const RECORD_BYTES: u64 = 41;

/// The most bytes of a base with its gate.
const BASE_BYTES: u64 = 163_885;

/// The greatest length of a file: offsets in it are signed numbers of 64 bits.
const FILE_BYTES: u64 = 1 << 63;

/// Makes an empty journal that takes up to a number of records, 1 to 2,000,000,000, over what stands there.
pub fn format<H: Host>(host: &mut H, capacity: u64) -> Result<(), FormatError>
    requires { IsLimit capacity }
    ensures stored { OnOk result ((disk : List ℕ) → (H.outside host.new).disk ≡ Some disk → Holds disk capacity []) }
    ensures settled { OnOk result (IsSettled (H.outside host.new)) }
    ensures moments { Elapses (H.outside host.old) (H.outside host.new) (Changes (Torn 0 17) (H.outside host.old)) }
    ensures keeps { OnlyWrites (H.outside host.old) (H.outside host.new) }
    ensures cause { OnErr result (Rose (H.outside host.old).disk_faults (H.outside host.new).disk_faults) }
    ensures faultless { OnOk result ((H.outside host.new).disk_faults ≡ (H.outside host.old).disk_faults) }
{
    store(host, 0, &fresh(capacity))?;
    Ok(())
}

/// Adds a block at a gate: it writes what stands behind the gate, with a closed gate at the end, and syncs, and then opens the gate
/// and syncs. Answers the offset of the closed gate.
fn add<H: Host>(host: &mut H, gate: u64, content: &[u8]) -> Result<u64, Failed>
    requires gate { HasBytes (gate + 1) (H.outside host.old).disk }
    requires fits { gate + 1 + length content.now < 2 ^ 64 }
    ensures stages { IsSettled (H.outside host.old) → Elapses (H.outside host.old) (H.outside host.new) (Stages gate content.now (H.outside host.old)) }
    ensures within { Elapses (H.outside host.old) (H.outside host.new) (Changes (Torn gate (length (1 ∷ content.now))) (H.outside host.old)) }
    ensures written { OnOk result ((H.outside host.new).disk ≡ option_map (written gate (1 ∷ content.now)) (H.outside host.old).disk) }
    ensures settled { OnOk result (IsSettled (H.outside host.new)) }
    ensures next { IfOk result (λ next. next ≡ gate + length content.now) }
    ensures keeps { OnlyWrites (H.outside host.old) (H.outside host.new) }
    ensures cause { OnErr result (Rose (H.outside host.old).disk_faults (H.outside host.new).disk_faults) }
    ensures faultless { OnOk result ((H.outside host.new).disk_faults ≡ (H.outside host.old).disk_faults) }
{
    store(host, gate + 1, content)?;
    store(host, gate, &[1])?;
    Ok(gate + content.len() as u64)
}

/// Adds a batch at a gate. Answers the offset of the next gate.
fn add_batch<H: Host>(host: &mut H, gate: u64, batch: &[Record]) -> Result<u64, Failed>
    requires gate { HasBytes (gate + 1) (H.outside host.old).disk }
    requires fits { gate + 1 + BATCH_BYTES < 2 ^ 64 }
    requires least { 0 < length batch.now }
    requires most { length batch.now ≤ BATCH_MAX }
    requires ranges { All InRange batch.now }
    ensures moments { (capacity : ℕ) (records : List Record) → IsSettledAt capacity gate records (H.outside host.old)
        → Elapses (H.outside host.old) (H.outside host.new) (Appends capacity gate records batch.now (H.outside host.old)) }
    ensures within { Elapses (H.outside host.old) (H.outside host.new) (Changes (Torn gate (length (stored_batch batch.now))) (H.outside host.old)) }
    ensures written { OnOk result ((H.outside host.new).disk ≡ option_map (written gate (stored_batch batch.now)) (H.outside host.old).disk) }
    ensures settled { OnOk result (IsSettled (H.outside host.new)) }
    ensures valid { OnOk result (IsBatch batch.now) }
    ensures offset { IfOk result (λ next. next ≡ gate + (length (frames_of batch.now) + 5)) }
    ensures next { IfOk result (λ next. (gate ≤ next) × (next ≤ gate + RECORD_BYTES * length batch.now)) }
    ensures keeps { OnlyWrites (H.outside host.old) (H.outside host.new) }
    ensures cause { OnErr result (Rose (H.outside host.old).disk_faults (H.outside host.new).disk_faults) }
    ensures faultless { OnOk result ((H.outside host.new).disk_faults ≡ (H.outside host.old).disk_faults) }
{
    let mut content = [0; BATCH_BYTES];
    let end = put_content(batch, &mut content);
    add(host, gate, &content[..end])
}

/// A journal that was read to its end, to which batches and bases can be added.
#[derive(Debug, Drop)]
pub struct Journal {
    capacity: u64,
    count: u64,
    gate: u64,
    rolled: bool,
    whole: bool,
}

impl Model for Journal {
    ghost use Rattle.journal_core.specs.Journal.{JournalState, IsBounded};

    ghost Value = { JournalState };

    ghost view = { λ j. record { capacity = j.capacity; count = j.count; gate = j.gate; rolled = j.rolled; whole = j.whole } };

    ghost invariant = { λ j. IsBounded j.capacity j.count j.gate j.rolled };
}

impl Journal {
    ghost use Rattle.journal_core.specs.Journal.{IsOfDisk, IsAtRest};

    /// A journal that holds some records up to a gate, and whose last block is a base or not.
    pub(crate) fn at(capacity: u64, count: u64, gate: u64, rolled: bool) -> Journal
        requires capacity { IsLimit capacity }
        requires gate { gate ≤ FILE_BYTES }
        ensures { result ≡ record { capacity = capacity; count = count; gate = gate; rolled = rolled; whole = true } }
    {
        Journal {
            capacity,
            count,
            gate,
            rolled,
            whole: true,
        }
    }

    /// How many records it takes.
    pub fn limit(&self) -> u64
        ensures capacity { result ≡ self.now.capacity }
        ensures range { IsLimit result }
    {
        self.capacity
    }

    /// How many records it holds: those of its last base, those that were read, and those of the appends that answered Ok.
    pub fn count(&self) -> u64
        ensures { result ≡ self.now.count }
    {
        self.count
    }

    /// Whether its last base is that of all records that it holds.
    pub fn rolled(&self) -> bool
        ensures { result ≡ self.now.rolled }
    {
        self.rolled
    }

    /// Whether it may be written: true until a call found a fault of the disk.
    pub fn whole(&self) -> bool
        ensures { result ≡ self.now.whole }
    {
        self.whole
    }

    /// Adds a batch behind the records that it holds, in four calls of the disk. A stop at any moment leaves the records
    /// as they were or with the batch. `Full` comes before any call, exactly where the capacity would be passed. After
    /// `DiskFault` the journal is not whole; which of the two the disk holds shows once it is read again.
    pub fn append<H: Host>(&mut self, host: &mut H, batch: &Batch) -> Result<(), AppendError>
        requires whole { IsTrue self.old.whole }
        requires some { 0 < length batch.now }
        requires gate { HasBytes (self.old.gate + 1) (H.outside host.old).disk }

        // Whenever the call is stopped, and whatever it answered.
        ensures moments { (records : List Record) → IsAtRest self.old records (H.outside host.old)
            → Elapses (H.outside host.old) (H.outside host.new) (Appends self.old.capacity self.old.gate records batch.now (H.outside host.old)) }
        ensures left { (records : List Record) (image : List ℕ) → IsAtRest self.old records (H.outside host.old) → MayLeave (H.outside host.new) image
            → Holds image self.old.capacity records ⊎ Holds image self.old.capacity (with_batch records batch.now) }
        ensures stored { OnOk result ((records : List Record) → IsAtRest self.old records (H.outside host.old)
            → IsAtRest self.new (with_batch records batch.now) (H.outside host.new)) }
        ensures of_disk { OnOk result (IsOfDisk self.old (H.outside host.old).disk → IsOfDisk self.new (H.outside host.new).disk) }
        ensures next { OnOk result (self.new.gate ≡ self.old.gate + (length (frames_of batch.now) + 5)) }
        ensures gate { OnOk result (HasBytes (self.new.gate + 1) (H.outside host.new).disk) }

        // The batch is written at the gate's offset, and outside of its range nothing changes, whatever the answer.
        ensures written { OnOk result ((H.outside host.new).disk ≡ option_map (written self.old.gate (stored_batch batch.now)) (H.outside host.old).disk) }
        ensures valid { OnOk result (IsBatch batch.now) }
        ensures within { Elapses (H.outside host.old) (H.outside host.new) (Changes (Torn self.old.gate (length (stored_batch batch.now))) (H.outside host.old)) }
        ensures settled { OnOk result (IsSettled (H.outside host.new)) }

        ensures count { OnOk result (self.new.count ≡ self.old.count + length batch.now) }
        ensures rolled { OnOk result (self.new.rolled ≡ false) }
        ensures capacity { self.new.capacity ≡ self.old.capacity }
        ensures whole { IsTrue self.new.whole ↔ (result ≢ Err AppendError.DiskFault) }

        ensures full { (result ≡ Err (AppendError.Full self.old.capacity)) ↔ (self.old.capacity < self.old.count + length batch.now) }
        ensures full_limit { (capacity : ℕ) → result ≡ Err (AppendError.Full capacity) → capacity ≡ self.old.capacity }
        ensures before { (capacity : ℕ) → result ≡ Err (AppendError.Full capacity) → (self.new ≡ self.old) × (host.new ≡ host.old) }
        ensures cause { result ≡ Err AppendError.DiskFault → Rose (H.outside host.old).disk_faults (H.outside host.new).disk_faults }
        ensures faultless { result ≢ Err AppendError.DiskFault → (H.outside host.new).disk_faults ≡ (H.outside host.old).disk_faults }
        ensures keeps { OnlyWrites (H.outside host.old) (H.outside host.new) }
    {
        if batch.len() as u64 > self.capacity.saturating_sub(self.count) {
            return Err(AppendError::Full {
                limit: self.capacity,
            });
        }
        self.whole = false;
        self.gate = add_batch(host, self.gate, batch.list())?;
        self.count += batch.len() as u64;
        self.rolled = false;
        self.whole = true;
        Ok(())
    }

    /// Adds the base of the records that it holds, in four calls of the disk. A stop at any moment leaves these records. After
    /// `DiskFault` the journal is not whole; whether the disk has the base shows once it is read again.
    pub fn roll<H: Host>(&mut self, host: &mut H, room: &Room) -> Result<(), RollError>
        requires whole { IsTrue self.old.whole }
        requires unrolled { self.old.rolled ≡ false }
        requires count { room.now.records ≡ self.old.count }
        requires gate { HasBytes (self.old.gate + 1) (H.outside host.old).disk }

        // Whenever the call is stopped, and whatever it answered.
        ensures moments { (records : List Record) → IsAtRest self.old records (H.outside host.old) → base_of records ≡ Some room.now
            → Elapses (H.outside host.old) (H.outside host.new) (λ image _. Holds image self.old.capacity records) }
        ensures left { (records : List Record) (image : List ℕ) → IsAtRest self.old records (H.outside host.old) → base_of records ≡ Some room.now
            → MayLeave (H.outside host.new) image → Holds image self.old.capacity records }
        ensures stored { OnOk result ((records : List Record) → IsAtRest self.old records (H.outside host.old) → base_of records ≡ Some room.now
            → IsAtRest self.new records (H.outside host.new)) }
        ensures of_disk { OnOk result (IsOfDisk self.old (H.outside host.old).disk → IsOfDisk self.new (H.outside host.new).disk) }
        ensures next { OnOk result (self.new.gate ≡ self.old.gate + (length (base_bytes room.now) + 5)) }
        ensures gate { OnOk result (HasBytes (self.new.gate + 1) (H.outside host.new).disk) }

        // The base is written at the gate's offset, and outside of its range nothing changes, whatever the answer.
        ensures written { OnOk result ((H.outside host.new).disk ≡ option_map (written self.old.gate (stored_block (base_block room.now))) (H.outside host.old).disk) }
        ensures within { Elapses (H.outside host.old) (H.outside host.new) (Changes (Torn self.old.gate (length (stored_block (base_block room.now)))) (H.outside host.old)) }
        ensures settled { OnOk result (IsSettled (H.outside host.new)) }

        ensures rolled { OnOk result (self.new.rolled ≡ true) }
        ensures count { self.new.count ≡ self.old.count }
        ensures capacity { self.new.capacity ≡ self.old.capacity }
        ensures whole { IsTrue self.new.whole ↔ IsOk result }
        ensures cause { OnErr result (Rose (H.outside host.old).disk_faults (H.outside host.new).disk_faults) }
        ensures faultless { OnOk result ((H.outside host.new).disk_faults ≡ (H.outside host.old).disk_faults) }
        ensures keeps { OnlyWrites (H.outside host.old) (H.outside host.new) }
    {
        self.whole = false;
        self.gate = add(host, self.gate, room.bytes())?;
        self.rolled = true;
        self.whole = true;
        Ok(())
    }
}
