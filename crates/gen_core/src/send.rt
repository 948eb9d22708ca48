//! A generated day, sent as frames.

ghost use Rattle.std.specs.Prelude.{◌≡◌, ◌++◌, [], ℕ, List, Option, Err, OnOk, IfOk};
ghost use Rattle.std.specs.Io.KnownBytes.{append_known};
ghost use Rattle.host_core.specs.Outside.{Elapses};
ghost use Rattle.wire_core.specs.Frames.{framed};
ghost use Rattle.wire_in.specs.Spelling.{InRange, body_of};
ghost use Rattle.stream_core.specs.Outcomes.{Sent, SentOrStarved};
ghost use Rattle.stream_core.specs.Pending.{Expects, SendsPrefix};
ghost use Rattle.gen_core.specs.Generated.{IsPlan, generated};
ghost use Rattle.gen_core.specs.Sent.{frames_of, SentDay};

use crate::generator::Generator;
use crate::plan::DayPlan;
use host_core::{Fault, Host, Status};
use std::alloc::Global;
use stream_core::{Outbox, answer_of};
use wire_in::{Record, encode};

/// The most bytes of one frame.
const FRAME: usize = 64;

/// Appends the frame of a record to the bytes that wait.
fn append_record<H: Host>(outbox: &mut Outbox, host: &mut H, record: &Record) -> Result<(), Fault>
    requires range { InRange record.now }
    ensures pending { (begin : Option (List ℕ)) (text : List ℕ) → Expects begin (H.outside host.old).sent outbox.old text
        → OnOk result (Expects begin (H.outside host.new).sent outbox.new (text ++ framed (body_of record.now))) }
    ensures moments { (begin : Option (List ℕ)) (text : List ℕ) → Expects begin (H.outside host.old).sent outbox.old text
        → Elapses (H.outside host.old) (H.outside host.new) (SendsPrefix begin text (H.outside host.old)) }
    ensures outside { Sent result (H.outside host.old) (H.outside host.new) }
{
    let mut cell = [0; FRAME];
    let len = encode(record, &mut cell);
    outbox.append_bytes(host, &cell[..len])
}

/// Sends the frames of all records that are left.
fn send_rest<H: Host>(
    outbox: &mut Outbox,
    host: &mut H,
    generator: &mut Generator,
) -> Result<(), Fault>
    requires fresh { outbox.old ≡ [] }
    ensures sent { OnOk result ((H.outside host.new).sent ≡ append_known (H.outside host.old).sent (frames_of generator.old)) }
    ensures moments { Elapses (H.outside host.old) (H.outside host.new) (SendsPrefix (H.outside host.old).sent (frames_of generator.old) (H.outside host.old)) }
    ensures outside { Sent result (H.outside host.old) (H.outside host.new) }
{
    while let Some(record) = generator.next() {
        append_record(outbox, host, &record)?;
    }
    outbox.flush(host)
}

/// Sends the frames of a plan's records.
fn send_frames<H: Host>(alloc: Global, host: &mut H, plan: &DayPlan) -> Result<Status, Fault>
    requires { IsPlan plan.now }
    ensures done { IfOk result (λ status. status ≡ Status.Done) }
    ensures sent { OnOk result ((H.outside host.new).sent ≡ append_known (H.outside host.old).sent (frames_of (generated plan.now))) }
    ensures moments { Elapses (H.outside host.old) (H.outside host.new) (SendsPrefix (H.outside host.old).sent (frames_of (generated plan.now)) (H.outside host.old)) }
    ensures outside { SentOrStarved result (H.outside host.old) (H.outside host.new) }
    ensures unsent { result ≡ Err Fault.Memory → (H.outside host.new).sent ≡ (H.outside host.old).sent }
{
    let mut generator = Generator::new(alloc, plan)?;
    let mut outbox = Outbox::new(alloc)?;
    send_rest(&mut outbox, host, &mut generator)?;
    Ok(Status::Done)
}

/// Sends the frames of a plan's records, in order. It answers `Done` where all were sent, `SendFault` where the output
/// failed, and `NoMemory` before anything was sent. Nothing is read, and the disk is not touched.
pub fn send_day<H: Host>(alloc: Global, host: &mut H, plan: &DayPlan) -> Status
    requires { IsPlan plan.now }
    ensures { SentDay plan.now result (H.outside host.old) (H.outside host.new) }
{
    answer_of(send_frames(alloc, host, plan))
}
