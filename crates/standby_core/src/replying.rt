//! The replies of a round, appended to what waits to be sent.

ghost use Rattle.std.specs.Prelude.{◌≡◌, ◌++◌, ℕ, List, Option, OnOk};
ghost use Rattle.host_core.specs.Outside.{Elapses};
ghost use Rattle.stream_core.specs.Outcomes.{Sent};
ghost use Rattle.stream_core.specs.Pending.{Expects, SendsPrefix};
ghost use Rattle.standby_core.specs.Parts.{have_bytes};
ghost use Rattle.standby_core.specs.Rounds.{bytes_of, spelled};

use crate::encoding::put_have;
use crate::round::Reply;
use host_core::{Fault, Host};
use stream_core::Outbox;
use wire_out::Frame;

/// Appends the Have of a count.
fn append_have<H: Host>(outbox: &mut Outbox, host: &mut H, count: u64) -> Result<(), Fault>
    ensures pending { (begin : Option (List ℕ)) (text : List ℕ) → Expects begin (H.outside host.old).sent outbox.old text
        → OnOk result (Expects begin (H.outside host.new).sent outbox.new (text ++ have_bytes count)) }
    ensures moments { (begin : Option (List ℕ)) (text : List ℕ) → Expects begin (H.outside host.old).sent outbox.old text
        → Elapses (H.outside host.old) (H.outside host.new) (SendsPrefix begin text (H.outside host.old)) }
    ensures outside { Sent result (H.outside host.old) (H.outside host.new) }
{
    let mut cell = [0; 64];
    let len = put_have(count, &mut cell);
    outbox.append_bytes(host, &cell[..len])
}

/// Appends a reply.
fn append_reply<H: Host>(outbox: &mut Outbox, host: &mut H, reply: &Reply) -> Result<(), Fault>
    ensures pending { (begin : Option (List ℕ)) (text : List ℕ) → Expects begin (H.outside host.old).sent outbox.old text
        → OnOk result (Expects begin (H.outside host.new).sent outbox.new (text ++ bytes_of reply.now)) }
    ensures moments { (begin : Option (List ℕ)) (text : List ℕ) → Expects begin (H.outside host.old).sent outbox.old text
        → Elapses (H.outside host.old) (H.outside host.new) (SendsPrefix begin text (H.outside host.old)) }
    ensures outside { Sent result (H.outside host.old) (H.outside host.new) }
{
    match *reply {
        Reply::Have(count) => append_have(outbox, host, count),
        Reply::Refused { place, refusal } => {
            let frame = Frame::Refused {
                frame_number: place,
                code: refusal.code(),
                field: 0,
            };
            outbox.append(host, &frame)
        }
    }
}

/// Appends replies, one after the other.
pub fn append_replies<H: Host>(
    outbox: &mut Outbox,
    host: &mut H,
    replies: &[Reply],
) -> Result<(), Fault>
    ensures pending { (begin : Option (List ℕ)) (text : List ℕ) → Expects begin (H.outside host.old).sent outbox.old text
        → OnOk result (Expects begin (H.outside host.new).sent outbox.new (text ++ spelled replies.now)) }
    ensures moments { (begin : Option (List ℕ)) (text : List ℕ) → Expects begin (H.outside host.old).sent outbox.old text
        → Elapses (H.outside host.old) (H.outside host.new) (SendsPrefix begin (text ++ spelled replies.now) (H.outside host.old)) }
    ensures outside { Sent result (H.outside host.old) (H.outside host.new) }
{
    for reply in replies {
        append_reply(outbox, host, reply)?;
    }
    Ok(())
}
