//! What keeps the accepted records of a session.

ghost use Rattle.std.specs.Prelude.{◌≡◌, ◌≢◌, ◌<◌, ◌≤◌, ◌+◌, [], ℕ, Bool, List, Option, All, length, Err, OnOk};
ghost use Rattle.host_core.specs.Outside.{Outside, MayLeave, Elapses};
ghost use Rattle.host_core.specs.Frames.{OnlyWrites};
ghost use Rattle.host_core.specs.Faults.{Causes};
ghost use Rattle.wire_in.specs.declared.record.Record.{Record};
ghost use Rattle.wire_in.specs.Spelling.{InRange};
ghost use Rattle.journal_core.specs.Layout.{with_batch};
ghost use Rattle.engine_core.specs.Serving.{Keeps};

use host_core::{Fault, Host};
use wire_in::Record;

/// Keeps the accepted records of a batch before they are evaluated, and says whether they are acknowledged then.
pub trait Keeper {
    /// Whether accepted records are acknowledged.
    ghost acknowledges: { Bool };

    /// The most records that it keeps at once.
    ghost most: { ℕ };

    /// These records are held, the newest first.
    ghost holds: { Self → List Record → Outside → Type 0 };

    /// An image recovers these records while these batches are being kept.
    ghost recovers: { Self → Outside → List Record → List (List Record) → List ℕ → Type 0 };

    /// So many records more may be kept, over this disk.
    ghost has_room: { Self → Option (List ℕ) → ℕ → Type 0 };

    /// A keep may fail for the disk.
    ghost fails: { Type 0 };

    /// What it may do to the disk, where it keeps at most so many records at once.
    ghost touches: { ℕ → Outside → Outside → Type 0 };

    /// What is held stays held while nothing is written.
    ghost still_held: { (keeper : Self) (records : List Record) (old new : Outside) → holds keeper records old
        → new.disk ≡ old.disk → ((image : List ℕ) → MayLeave new image → MayLeave old image) → holds keeper records new };

    /// And what recovers records then has recovered them before.
    ghost recovered_before: { (keeper : Self) (records : List Record) (pending : List (List Record)) (image : List ℕ) (old new : Outside)
        → ((image : List ℕ) → MayLeave new image → MayLeave old image) → recovers keeper new records pending image → recovers keeper old records pending image };

    /// A stop where nothing is kept leaves what is held.
    ghost recovers_now: { (keeper : Self) (records : List Record) (now : Outside) (image : List ℕ) → holds keeper records now → MayLeave now image → recovers keeper now records [] image };

    /// Room for some records is room for fewer.
    ghost room_for_fewer: { (keeper : Self) (known : Option (List ℕ)) (fewer more : ℕ) → fewer ≤ more → has_room keeper known more → has_room keeper known fewer };

    /// Calls that don't write leave the disk alone.
    ghost untouched: { (most : ℕ) (old new : Outside) → new.disk ≡ old.disk → new.disk_faults ≡ old.disk_faults → touches most old new };

    /// What two runs do to the disk, one does after the other.
    ghost touches_both: { (most : ℕ) (old mid new : Outside) → touches most old mid → touches most mid new → touches most old new };

    /// What is done where fewer records are kept at once may be done where more are.
    ghost touches_more: { (fewer more : ℕ) (old new : Outside) → fewer ≤ more → touches fewer old new → touches more old new };

    /// Whether accepted records are acknowledged once they are kept and evaluated.
    fn acknowledges(&self) -> bool
        ensures { result ≡ acknowledges };

    /// Keeps the records of a batch at once, the oldest first. A stop at any moment leaves them all or none.
    fn keep<H: Host>(&mut self, host: &mut H, batch: &[Record]) -> Result<(), Fault>
        requires some { 0 < length batch.now }
        requires few { length batch.now ≤ most }
        requires ranges { All InRange batch.now }
        requires room { has_room self.old (H.outside host.old).disk (length batch.now) }
        ensures moments { (records : List Record) → holds self.old records (H.outside host.old)
            → Elapses (H.outside host.old) (H.outside host.new) (Keeps (recovers self.old (H.outside host.old)) records batch.now (H.outside host.old)) }
        ensures held { OnOk result ((records : List Record) → holds self.old records (H.outside host.old)
            → holds self.new (with_batch records batch.now) (H.outside host.new)) }
        ensures before { OnOk result ((records : List Record) (pending : List (List Record)) (image : List ℕ) → recovers self.new (H.outside host.new) records pending image
            → recovers self.old (H.outside host.old) records pending image) }
        ensures room { OnOk result ((more : ℕ) → has_room self.old (H.outside host.old).disk (length batch.now + more)
            → has_room self.new (H.outside host.new).disk more) }
        ensures touches { touches (length batch.now) (H.outside host.old) (H.outside host.new) }
        ensures keeps { OnlyWrites (H.outside host.old) (H.outside host.new) }
        ensures causes { Causes result (H.outside host.old) (H.outside host.new) }
        ensures unread { result ≢ Err Fault.Read }
        ensures unkept { result ≡ Err Fault.Disk → fails }
        ensures unstarved { result ≢ Err Fault.Memory };
}
