//! The records of a journal, sent to a standby.

ghost use Rattle.std.specs.Prelude.{◌≡◌, ◌≢◌, ◌+◌, ◌<◌, ◌^◌, ◌++◌, [], ℕ, List, Option, All, IfErr, IsTrue, OnOk, length};
ghost use Rattle.host_core.specs.Outside.{Elapses, NoFault};
ghost use Rattle.wire_in.specs.declared.record.Record.{Record};
ghost use Rattle.wire_in.specs.Spelling.{InRange};
ghost use Rattle.journal_core.specs.Layout.{with_batch};
ghost use Rattle.stream_core.specs.Outcomes.{Sent};
ghost use Rattle.stream_core.specs.Pending.{Expects, SendsPrefix};
ghost use Rattle.recovery_core.specs.Recoveries.{HasDamage, Hinders, OnlyRecovers};
ghost use Rattle.standby_core.specs.Reading.{IsInStep, Reads};
ghost use Rattle.standby_core.specs.Shipped.{Shipped, part_at, parts_behind};
ghost use Rattle.standby_core.specs.Shipping.{HasShipped, IsShipped, IsUnshipped, Ships};

use crate::encoding::put_part;
use crate::reading::Reading;
use host_core::{Fault, Host, Status};
use std::alloc::Global;
use stream_core::Outbox;
use wire_in::Record;

/// Appends the Part of the record of a number, where that is at least `from`.
fn ship_record<H: Host>(
    outbox: &mut Outbox,
    host: &mut H,
    from: u64,
    number: u64,
    x: &Record,
) -> Result<(), Fault>
    requires some { number ≢ 0 }
    requires range { InRange x.now }
    ensures pending { (begin : Option (List ℕ)) (text : List ℕ) → Expects begin (H.outside host.old).sent outbox.old text
        → OnOk result (Expects begin (H.outside host.new).sent outbox.new (text ++ part_at from number x.now)) }
    ensures moments { (begin : Option (List ℕ)) (text : List ℕ) → Expects begin (H.outside host.old).sent outbox.old text
        → Elapses (H.outside host.old) (H.outside host.new) (SendsPrefix begin text (H.outside host.old)) }
    ensures outside { Sent result (H.outside host.old) (H.outside host.new) }
{
    if number < from {
        return Ok(());
    }
    let mut cell = [0; 64];
    let len = put_part(number, x, &mut cell);
    outbox.append_bytes(host, &cell[..len])
}

/// Appends the Parts of some records behind so many others, the oldest first, of those with a number of at least `from`.
fn ship_records<H: Host>(
    outbox: &mut Outbox,
    host: &mut H,
    from: u64,
    before: u64,
    records: &[Record],
) -> Result<(), Fault>
    requires ranges { All InRange records.now }
    requires few { before + length records.now < 2 ^ 64 }
    ensures pending { (begin : Option (List ℕ)) (past : ℕ) (held : List Record) → before ≡ past + length held → Expects begin (H.outside host.old).sent outbox.old (parts_behind past from held)
        → OnOk result (Expects begin (H.outside host.new).sent outbox.new (parts_behind past from (with_batch held records.now))) }
    ensures moments { (begin : Option (List ℕ)) (past : ℕ) (held : List Record) → before ≡ past + length held → Expects begin (H.outside host.old).sent outbox.old (parts_behind past from held)
        → Elapses (H.outside host.old) (H.outside host.new) (SendsPrefix begin (parts_behind past from (with_batch held records.now)) (H.outside host.old)) }
    ensures outside { Sent result (H.outside host.old) (H.outside host.new) }
{
    let mut number = before;
    for x in records {
        number += 1;
        ship_record(outbox, host, from, number, x)?;
    }
    Ok(())
}

/// Reads a journal to its end, and appends the Parts of its records with a number of at least `from`.
fn ship_batches<H: Host>(
    reading: &mut Reading,
    outbox: &mut Outbox,
    host: &mut H,
    from: u64,
) -> Result<(), Status>
    requires { IsInStep reading.old.scan reading.old.admission (H.outside host.old).disk }
    ensures ships { (begin : Option (List ℕ)) (disk : List ℕ) → HasShipped from begin disk reading.old outbox.old (H.outside host.old)
        → OnOk result (HasShipped from begin disk reading.new outbox.new (H.outside host.new)) }
    ensures moments { (begin : Option (List ℕ)) (disk : List ℕ) → HasShipped from begin disk reading.old outbox.old (H.outside host.old)
        → Ships from reading.old.scan.base begin disk (H.outside host.old) (H.outside host.new) }
    ensures base { reading.new.scan.base ≡ reading.old.scan.base }
    ensures closed { OnOk result (IsTrue reading.new.scan.is_closed) }
    ensures keeps { OnlyRecovers (H.outside host.old) (H.outside host.new) }
    ensures none { OnOk result (NoFault (H.outside host.old) (H.outside host.new)) }
    ensures hindered { IfErr result (λ status. Hinders (λ at. (begin : Option (List ℕ)) (disk : List ℕ) → HasShipped from begin disk reading.old outbox.old (H.outside host.old) → HasDamage at disk)
        ⊥ ⊥ status (H.outside host.old) (H.outside host.new)) }
{
    'batches: loop {
        let before = reading.admission.count();
        let more = reading.next(host)?;
        if !more {
            return Ok(());
        }
        ship_records(outbox, host, from, before, reading.batch.list())?;
    }
}

/// As `ship`, with room for what waits to be sent.
fn ship_journal<H: Host>(
    alloc: Global,
    host: &mut H,
    outbox: &mut Outbox,
    from: u64,
) -> Result<(), Status>
    requires { outbox.old ≡ [] }
    ensures shipped { OnOk result (IsShipped from (H.outside host.old) (H.outside host.new)) }
    ensures unshipped { IfErr result (λ status. IsUnshipped (host.new ≡ host.old) from status (H.outside host.old) (H.outside host.new)) }
{
    let mut reading = Reading::begin(alloc, host)?;
    ship_batches(&mut reading, outbox, host, from)?;
    outbox.flush(host)?;
    Ok(())
}

/// Reads a journal, and sends a Part for each record behind its last base with a number of at least `from`, in rising order.
/// The journal and the input stay as they are. Memory is short only before the first call of the host, or for the base.
pub fn ship<H: Host>(alloc: Global, host: &mut H, from: u64) -> Status
    ensures { Shipped (host.new ≡ host.old) from result (H.outside host.old) (H.outside host.new) }
{
    let Ok(mut outbox) = Outbox::new(alloc) else {
        return Status::NoMemory;
    };
    match ship_journal(alloc, host, &mut outbox, from) {
        Ok(()) => Status::Done,
        Err(status) => status,
    }
}
