//! A walk over a journal from gate to gate, which reads the marks alone.

ghost use Rattle.std.specs.Prelude.{◌≡◌, ◌≢◌, ◌⊎◌, ◌≤◌, ◌<◌, ◌+◌, ◌++◌, [], ◌^◌, ℕ, List, true, false, length, take, drop, Some, None, Ok, Err, OnOk, OnErr, IfOk, IfSome};
ghost use Rattle.host_core.specs.Outside.{Outside, Rose};
ghost use Rattle.host_core.specs.Frames.{OnlyReadsDisk};
ghost use Rattle.wire_in.specs.Bases.{SpellsBase};
ghost use Rattle.wire_in.specs.declared.base.Base.{Base};
ghost use Rattle.journal_core.specs.Journal.{HasBytes};
ghost use Rattle.journal_core.specs.Layout.{IsLength, OpensMark};
ghost use Rattle.journal_core.specs.Scan.{HasRead, IsBegun};
ghost use Rattle.journal_core.specs.Walk.{HasBase, HasHeader, HasNoHeader, IsBrokenAt, IsUnreadableAt};
ghost use Rattle.journal_core.specs.declared.mark.Mark.{Mark};

use crate::ahead::{Ahead, read_apart};
use crate::error::ScanError;
use crate::header::{FIRST_GATE, limit_of};
use crate::mark::{MARK_BYTES, Mark};
use crate::scan::Scan;
use host_core::{Failed, Host};
use std::alloc::Global;
use wire_in::{Base, BaseError, get_base};

/// A base that a walk has passed: the offset of its gate, and how many bytes its body has.
#[derive(Clone, Copy, Debug, PartialEq, Eq)]
pub struct BaseAt {
    pub gate: u64,
    pub count: u32,
}

/// How far a walk has come: the offset of the next gate, how many batches it has passed, whether it has just passed one, and the
/// last base. Of the disk, whose length is known, it has read ahead what stands from an offset on.
#[derive(Debug, Drop)]
pub struct Walk {
    pub capacity: u64,
    pub size: u64,
    pub ahead: Ahead,
    pub start: u64,
    pub gate: u64,
    pub batches: u64,
    pub is_behind: bool,
    pub base: Option<BaseAt>,
}

impl Walk {
    ghost use Rattle.journal_core.specs.Walking.{HasWalked, IsClosedAt, IsThere, IsWalking, IsWithin, passed, takes};

    /// Walks over the whole of a journal, up to the closed gate.
    pub fn over<H: Host>(host: &mut H, ahead: Ahead) -> Result<Walk, ScanError>
        ensures walking { IfOk result IsWalking }
        ensures walked { IfOk result (λ walk. (disk : List ℕ) → (H.outside host.new).disk ≡ Some disk → HasWalked walk disk) }
        ensures closed { IfOk result (λ walk. (disk : List ℕ) → (H.outside host.new).disk ≡ Some disk → IsClosedAt walk.gate disk) }
        ensures size { IfOk result (λ walk. HasBytes walk.size (H.outside host.new).disk) }
        ensures no_journal { result ≡ Err ScanError.NoJournal → (disk : List ℕ) → (H.outside host.new).disk ≡ Some disk → HasNoHeader disk }
        ensures damaged { (at : ℕ) → result ≡ Err (ScanError.Damaged at) → (disk : List ℕ) → (H.outside host.new).disk ≡ Some disk
            → (capacity : ℕ) × IsBrokenAt capacity at disk }
        ensures no_memory { result ≢ Err ScanError.NoMemory }
        ensures cause { result ≡ Err ScanError.DiskFault → Rose (H.outside host.old).disk_faults (H.outside host.new).disk_faults }
        ensures faultless { result ≢ Err ScanError.DiskFault → (H.outside host.new).disk_faults ≡ (H.outside host.old).disk_faults }
        ensures keeps { OnlyReadsDisk (H.outside host.old) (H.outside host.new) }
    {
        let mut walk = Walk::open(host, ahead)?;
        walk.to_end(host)?;
        Ok(walk)
    }

    /// Reads the header.
    fn open<H: Host>(host: &mut H, ahead: Ahead) -> Result<Walk, ScanError>
        ensures walking { IfOk result IsWalking }
        ensures walked { IfOk result (λ walk. (disk : List ℕ) → (H.outside host.new).disk ≡ Some disk → HasWalked walk disk) }
        ensures size { IfOk result (λ walk. HasBytes walk.size (H.outside host.new).disk) }
        ensures no_journal { result ≡ Err ScanError.NoJournal → (disk : List ℕ) → (H.outside host.new).disk ≡ Some disk → HasNoHeader disk }
        ensures only { (error : _) → result ≡ Err error → (error ≡ ScanError.NoJournal) ⊎ (error ≡ ScanError.DiskFault) }
        ensures cause { result ≡ Err ScanError.DiskFault → Rose (H.outside host.old).disk_faults (H.outside host.new).disk_faults }
        ensures faultless { result ≢ Err ScanError.DiskFault → (H.outside host.new).disk_faults ≡ (H.outside host.old).disk_faults }
        ensures keeps { OnlyReadsDisk (H.outside host.old) (H.outside host.new) }
    {
        let mut ahead = ahead;
        let size = host.disk_len()?;
        if size < 17 {
            return Err(ScanError::NoJournal);
        }
        ahead.read(host, 0, size)?;
        let Some(capacity) = limit_of(ahead.bytes()) else {
            return Err(ScanError::NoJournal);
        };
        Ok(Walk {
            capacity,
            size,
            ahead,
            start: 0,
            gate: FIRST_GATE,
            batches: 0,
            is_behind: false,
            base: None,
        })
    }

    /// Goes on to the closed gate.
    fn to_end<H: Host>(&mut self, host: &mut H) -> Result<(), ScanError>
        requires walking { IsWalking self.old }
        requires size { HasBytes self.old.size (H.outside host.old).disk }
        ensures walking { IsWalking self.new }
        ensures walked { (disk : List ℕ) → (H.outside host.old).disk ≡ Some disk → HasWalked self.old disk → OnOk result (HasWalked self.new disk) }
        ensures closed { (disk : List ℕ) → (H.outside host.old).disk ≡ Some disk → HasWalked self.old disk → OnOk result (IsClosedAt self.new.gate disk) }
        ensures capacity { self.new.capacity ≡ self.old.capacity }
        ensures size { self.new.size ≡ self.old.size }
        ensures damaged { (at : ℕ) → result ≡ Err (ScanError.Damaged at) → (disk : List ℕ) → (H.outside host.old).disk ≡ Some disk
            → HasWalked self.old disk → IsBrokenAt self.old.capacity at disk }
        ensures no_memory { result ≢ Err ScanError.NoMemory }
        ensures no_journal { result ≢ Err ScanError.NoJournal }
        ensures cause { result ≡ Err ScanError.DiskFault → Rose (H.outside host.old).disk_faults (H.outside host.new).disk_faults }
        ensures faultless { result ≢ Err ScanError.DiskFault → (H.outside host.new).disk_faults ≡ (H.outside host.old).disk_faults }
        ensures keeps { OnlyReadsDisk (H.outside host.old) (H.outside host.new) }
    {
        'gates: loop {
            let more = self.next(host)?;
            if !more {
                return Ok(());
            }
        }
    }

    /// Passes the block at the gate. False: the gate is closed.
    fn next<H: Host>(&mut self, host: &mut H) -> Result<bool, ScanError>
        requires walking { IsWalking self.old }
        requires size { HasBytes self.old.size (H.outside host.old).disk }
        ensures walking { IsWalking self.new }
        ensures walked { (disk : List ℕ) → (H.outside host.old).disk ≡ Some disk → HasWalked self.old disk → OnOk result (HasWalked self.new disk) }
        ensures closed { result ≡ Ok false → (disk : List ℕ) → (H.outside host.old).disk ≡ Some disk → HasWalked self.old disk → IsClosedAt self.new.gate disk }
        ensures goes_on { result ≡ Ok true → self.old.gate < self.new.gate }
        ensures capacity { self.new.capacity ≡ self.old.capacity }
        ensures size { self.new.size ≡ self.old.size }
        ensures damaged { (at : ℕ) → result ≡ Err (ScanError.Damaged at) → (disk : List ℕ) → (H.outside host.old).disk ≡ Some disk
            → HasWalked self.old disk → IsBrokenAt self.old.capacity at disk }
        ensures no_memory { result ≢ Err ScanError.NoMemory }
        ensures no_journal { result ≢ Err ScanError.NoJournal }
        ensures cause { result ≡ Err ScanError.DiskFault → Rose (H.outside host.old).disk_faults (H.outside host.new).disk_faults }
        ensures faultless { result ≢ Err ScanError.DiskFault → (H.outside host.new).disk_faults ≡ (H.outside host.old).disk_faults }
        ensures keeps { OnlyReadsDisk (H.outside host.old) (H.outside host.new) }
    {
        self.fill(host)?;
        self.step()
    }

    /// Reads on where the gate and its mark may not be there as a whole.
    fn fill<H: Host>(&mut self, host: &mut H) -> Result<(), Failed>
        requires walking { IsWalking self.old }
        requires size { HasBytes self.old.size (H.outside host.old).disk }
        ensures walking { IsWalking self.new }
        ensures there { OnOk result (IsThere self.new) }
        ensures rest { self.new ≡ record self.old { ahead = self.new.ahead; start = self.new.start } }
        ensures walked { (disk : List ℕ) → (H.outside host.old).disk ≡ Some disk → HasWalked self.old disk → HasWalked self.new disk }
        ensures keeps { OnlyReadsDisk (H.outside host.old) (H.outside host.new) }
        ensures cause { OnErr result (Rose (H.outside host.old).disk_faults (H.outside host.new).disk_faults) }
        ensures faultless { OnOk result ((H.outside host.new).disk_faults ≡ (H.outside host.old).disk_faults) }
    {
        let end = self.start + self.ahead.bytes().len() as u64;
        if end < self.size.min(self.gate + MARK_BYTES as u64) {
            self.start = self.gate;
            self.ahead.read(host, self.gate, self.size - self.gate)?;
        }
        Ok(())
    }

    /// Passes the block whose mark was read. False: the gate is closed.
    fn step(&mut self) -> Result<bool, ScanError>
        requires walking { IsWalking self.old }
        requires there { IsThere self.old }
        ensures walking { IsWalking self.new }
        ensures walked { (disk : List ℕ) → HasWalked self.old disk → OnOk result (HasWalked self.new disk) }
        ensures closed { result ≡ Ok false → (disk : List ℕ) → HasWalked self.old disk → IsClosedAt self.new.gate disk }
        ensures goes_on { result ≡ Ok true → self.old.gate < self.new.gate }
        ensures capacity { self.new.capacity ≡ self.old.capacity }
        ensures size { self.new.size ≡ self.old.size }
        ensures damaged { (at : ℕ) → result ≡ Err (ScanError.Damaged at) → (disk : List ℕ) → HasWalked self.old disk → IsBrokenAt self.old.capacity at disk }
        ensures only { (error : _) → result ≡ Err error → (at : ℕ) × (error ≡ ScanError.Damaged at) }
    {
        let Some(mark) = self.mark()? else {
            return Ok(false);
        };
        let next = self.gate + MARK_BYTES as u64 + u64::from(mark.count);
        if self.size <= next {
            return Err(ScanError::Damaged { at: next });
        }
        self.pass(mark, next);
        Ok(true)
    }

    /// The mark at the gate; none where the gate is closed.
    fn mark(&self) -> Result<Option<Mark>, ScanError>
        requires walking { IsWalking self.now }
        requires there { IsThere self.now }
        ensures closed { result ≡ Ok None → (disk : List ℕ) → HasWalked self.now disk → IsClosedAt self.now.gate disk }
        ensures found { (mark : Mark) → result ≡ Ok (Some mark) → (disk : List ℕ) → HasWalked self.now disk
            → (rest : List ℕ) × OpensMark mark (drop self.now.gate disk) rest }
        ensures form { (mark : Mark) → result ≡ Ok (Some mark) → IsLength mark.is_base mark.count × (takes self.now mark ≡ true) }
        ensures damaged { (at : ℕ) → result ≡ Err (ScanError.Damaged at) → (at ≡ self.now.gate)
            × ((disk : List ℕ) → HasWalked self.now disk → IsBrokenAt self.now.capacity at disk) }
        ensures only { (error : _) → result ≡ Err error → (at : ℕ) × (error ≡ ScanError.Damaged at) }
    {
        let bytes = &self.ahead.bytes()[(self.gate - self.start) as usize..];
        if bytes[0] == 0 {
            return Ok(None);
        }
        let Some(mark) = Mark::read(bytes) else {
            return Err(ScanError::Damaged { at: self.gate });
        };
        if !self.takes(mark) {
            return Err(ScanError::Damaged { at: self.gate });
        }
        Ok(Some(mark))
    }

    /// Whether a block with this mark may stand at the gate: a base directly behind a batch, and a batch where fewer stand before it
    /// than the journal takes records.
    fn takes(&self, mark: Mark) -> bool
        ensures { result ≡ takes self.now mark }
    {
        if mark.is_base {
            self.is_behind
        } else {
            self.batches < self.capacity
        }
    }

    /// Goes on behind a block with this mark, where the next gate is.
    fn pass(&mut self, mark: Mark, next: u64)
        requires next { next ≡ self.old.gate + 5 + mark.count }
        requires range { self.old.capacity ≤ 2000000000 }
        requires takes { takes self.old mark ≡ true }
        ensures { self.new ≡ passed self.old mark }
    {
        if mark.is_base {
            self.pass_base(mark.count, next);
        } else {
            self.pass_batch(next);
        }
    }

    fn pass_base(&mut self, count: u32, next: u64)
        ensures { self.new ≡ record self.old { gate = next; is_behind = false; base = Some (record { gate = self.old.gate; count = count }) } }
    {
        self.base = Some(BaseAt {
            gate: self.gate,
            count,
        });
        self.is_behind = false;
        self.gate = next;
    }

    fn pass_batch(&mut self, next: u64)
        requires { self.old.batches < 2 ^ 63 }
        ensures { self.new ≡ record self.old { gate = next; is_behind = true; batches = self.old.batches + 1 } }
    {
        self.batches += 1;
        self.is_behind = true;
        self.gate = next;
    }

    /// The scan of the batches behind the last base.
    pub fn scan<H: Host>(self, alloc: Global, host: &mut H) -> Result<Scan, ScanError>
        requires walking { IsWalking self }
        requires size { HasBytes self.size (H.outside host.old).disk }
        ensures begun { IfOk result IsBegun }
        ensures read { (disk : List ℕ) → (H.outside host.old).disk ≡ Some disk → HasWalked self disk → IsClosedAt self.gate disk → IfOk result (λ scan. HasRead scan [] disk) }
        ensures capacity { IfOk result (λ scan. scan.capacity ≡ self.capacity) }
        ensures damaged { (at : ℕ) → result ≡ Err (ScanError.Damaged at) → (disk : List ℕ) → (H.outside host.old).disk ≡ Some disk
            → HasWalked self disk → IsClosedAt self.gate disk → IsUnreadableAt self.capacity at disk }
        ensures starved { result ≡ Err ScanError.NoMemory → (disk : List ℕ) → (H.outside host.old).disk ≡ Some disk
            → HasWalked self disk → IsClosedAt self.gate disk → HasBase disk }
        ensures no_journal { result ≢ Err ScanError.NoJournal }
        ensures cause { result ≡ Err ScanError.DiskFault → Rose (H.outside host.old).disk_faults (H.outside host.new).disk_faults }
        ensures faultless { result ≢ Err ScanError.DiskFault → (H.outside host.new).disk_faults ≡ (H.outside host.old).disk_faults }
        ensures keeps { OnlyReadsDisk (H.outside host.old) (H.outside host.new) }
    {
        match self.base {
            None => self.scan_first(host),
            Some(base) => self.scan_behind(alloc, host, base),
        }
    }

    /// The scan of all batches, where no base was passed.
    fn scan_first<H: Host>(self, host: &mut H) -> Result<Scan, ScanError>
        requires walking { IsWalking self }
        requires none { self.base ≡ None }
        requires size { HasBytes self.size (H.outside host.old).disk }
        ensures begun { IfOk result IsBegun }
        ensures read { (disk : List ℕ) → (H.outside host.old).disk ≡ Some disk → HasWalked self disk → IsClosedAt self.gate disk → IfOk result (λ scan. HasRead scan [] disk) }
        ensures capacity { IfOk result (λ scan. scan.capacity ≡ self.capacity) }
        ensures only { (error : _) → result ≡ Err error → error ≡ ScanError.DiskFault }
        ensures cause { result ≡ Err ScanError.DiskFault → Rose (H.outside host.old).disk_faults (H.outside host.new).disk_faults }
        ensures faultless { result ≢ Err ScanError.DiskFault → (H.outside host.new).disk_faults ≡ (H.outside host.old).disk_faults }
        ensures keeps { OnlyReadsDisk (H.outside host.old) (H.outside host.new) }
    {
        let (capacity, size) = (self.capacity, self.size);
        let ahead = self.read_from(host, FIRST_GATE)?;
        Ok(Scan::at_gate(capacity, None, size, FIRST_GATE, ahead))
    }

    /// The scan of the batches behind this base, which is the last that was passed.
    fn scan_behind<H: Host>(
        self,
        alloc: Global,
        host: &mut H,
        base: BaseAt,
    ) -> Result<Scan, ScanError>
        requires walking { IsWalking self }
        requires base { self.base ≡ Some base }
        requires size { HasBytes self.size (H.outside host.old).disk }
        ensures begun { IfOk result IsBegun }
        ensures read { (disk : List ℕ) → (H.outside host.old).disk ≡ Some disk → HasWalked self disk → IsClosedAt self.gate disk → IfOk result (λ scan. HasRead scan [] disk) }
        ensures capacity { IfOk result (λ scan. scan.capacity ≡ self.capacity) }
        ensures damaged { (at : ℕ) → result ≡ Err (ScanError.Damaged at) → (disk : List ℕ) → (H.outside host.old).disk ≡ Some disk
            → HasWalked self disk → IsClosedAt self.gate disk → IsUnreadableAt self.capacity at disk }
        ensures no_journal { result ≢ Err ScanError.NoJournal }
        ensures cause { result ≡ Err ScanError.DiskFault → Rose (H.outside host.old).disk_faults (H.outside host.new).disk_faults }
        ensures faultless { result ≢ Err ScanError.DiskFault → (H.outside host.new).disk_faults ≡ (H.outside host.old).disk_faults }
        ensures keeps { OnlyReadsDisk (H.outside host.old) (H.outside host.new) }
    {
        let (capacity, size) = (self.capacity, self.size);
        let begin = base.gate + MARK_BYTES as u64;
        let end = begin + u64::from(base.count);
        let body = read_apart(alloc, host, begin, base.count as usize)?;
        let found = base_in(alloc, &body, capacity, base.gate)?;
        let ahead = self.read_from(host, end)?;
        Ok(Scan::at_gate(capacity, Some(found), size, end, ahead))
    }

    /// What stands from an offset on: what was read ahead, or what is read now.
    fn read_from<H: Host>(self, host: &mut H, at: u64) -> Result<Ahead, Failed>
        requires walking { IsWalking self }
        requires within { at < self.size }
        requires size { HasBytes self.size (H.outside host.old).disk }
        ensures within { IfOk result (λ ahead. at + length ahead ≤ self.size) }
        ensures bytes { (disk : List ℕ) → (H.outside host.old).disk ≡ Some disk → HasWalked self disk → IfOk result (λ ahead. (rest : List ℕ) × (drop at disk ≡ ahead ++ rest)) }
        ensures keeps { OnlyReadsDisk (H.outside host.old) (H.outside host.new) }
        ensures cause { OnErr result (Rose (H.outside host.old).disk_faults (H.outside host.new).disk_faults) }
        ensures faultless { OnOk result ((H.outside host.new).disk_faults ≡ (H.outside host.old).disk_faults) }
    {
        let Walk {
            mut ahead,
            start,
            size,
            ..
        } = self;
        let end = start + ahead.bytes().len() as u64;
        if start <= at && at <= end {
            ahead.skip((at - start) as usize);
            return Ok(ahead);
        }
        ahead.read(host, at, size - at)?;
        Ok(ahead)
    }
}

/// The base of a body that stands at a gate, which has at most so many records.
fn base_in(alloc: Global, body: &[u8], capacity: u64, gate: u64) -> Result<Base, ScanError>
    ensures found { IfOk result (SpellsBase body.now) }
    ensures few { IfOk result (λ base. base.records ≤ capacity) }
    ensures bad { (at : ℕ) → result ≡ Err (ScanError.Damaged at) → (at ≡ gate) × ((base : Base) → SpellsBase body.now base → capacity < base.records) }
    ensures only { (error : _) → result ≡ Err error → (error ≡ ScanError.NoMemory) ⊎ (error ≡ ScanError.Damaged gate) }
{
    let base = match get_base(alloc, body) {
        Ok(base) => base,
        Err(BaseError::NoMemory) => return Err(ScanError::NoMemory),
        Err(BaseError::BadBase) => return Err(ScanError::Damaged { at: gate }),
    };
    if base.records > capacity {
        return Err(ScanError::Damaged { at: gate });
    }
    Ok(base)
}
