//! What is sent for a frame, appended to what waits.

ghost use Rattle.std.specs.Prelude.{◌≡◌, ◌≢◌, ◌+◌, ◌*◌, ◌<◌, ◌≤◌, ◌^◌, ◌++◌, ◌∷◌, [], ℕ, Bool, List, Option, None, Ok, Err, IsOk, OnOk, length, vec_len};
ghost use Rattle.std.specs.Io.KnownBytes.{append_known};
ghost use Rattle.host_core.specs.Outside.{Elapses};
ghost use Rattle.host_core.specs.Frames.{OnlySends};
ghost use Rattle.host_core.specs.Faults.{HasCause};
ghost use Rattle.wire_in.specs.declared.record.Record.{Record};
ghost use Rattle.rulebook.specs.Admission.{verdict};
ghost use Rattle.rulebook.specs.Sent.{spelled, numbered, refused, accepted};
ghost use Rattle.rulebook.specs.Book.{newest_messages};
ghost use Rattle.market_core.specs.MarketState.{most_messages};
ghost use Rattle.stream_core.specs.Outcomes.{Sent, SentOrStarved};
ghost use Rattle.stream_core.specs.Pending.{Expects, SendsPrefix};
ghost use Rattle.engine_core.specs.EngineState.{Represents, Stands, IsRoomy};
ghost use Rattle.engine_core.specs.Answering.{IsShort, Appends};
ghost use Rattle.evaluator_core.specs.Evaluating.{workers_of, IsAhead, IsWorking};
ghost use Rattle.engine_core.specs.Sessions.{with_acknowledgements};

use crate::engine::Engine;
use host_core::{Fault, Host};
use stream_core::Outbox;
use wire_in::{Record, Refusal};
use wire_out::{Frame, Stamped};

/// As `append_messages`. It stays a call of its own, for which the records that bring no message make no room.
#[inline(never)]
fn append_each<H: Host>(
    outbox: &mut Outbox,
    host: &mut H,
    before: u64,
    messages: &[Stamped],
) -> Result<(), Fault>
    requires { before + length messages.now < 2 ^ 64 }
    ensures pending { (begin : Option (List ℕ)) (text : List ℕ) → Expects begin (H.outside host.old).sent outbox.old text
        → OnOk result (Expects begin (H.outside host.new).sent outbox.new (text ++ spelled (numbered before messages.now))) }
    ensures moments { (begin : Option (List ℕ)) (text : List ℕ) → Expects begin (H.outside host.old).sent outbox.old text
        → Elapses (H.outside host.old) (H.outside host.new) (SendsPrefix begin (text ++ spelled (numbered before messages.now)) (H.outside host.old)) }
    ensures outside { Sent result (H.outside host.old) (H.outside host.new) }
    ensures none { messages.now ≡ [] → (IsOk result) × (outbox.new ≡ outbox.old) × (host.new ≡ host.old) }
{
    let mut number = before;
    for message in messages {
        number += 1;
        outbox.append_numbered(host, number, message)?;
    }
    Ok(())
}

/// Appends messages, numbered on from those before them.
#[inline(always)]
pub fn append_messages<H: Host>(
    outbox: &mut Outbox,
    host: &mut H,
    before: u64,
    messages: &[Stamped],
) -> Result<(), Fault>
    requires { before + length messages.now < 2 ^ 64 }
    ensures pending { (begin : Option (List ℕ)) (text : List ℕ) → Expects begin (H.outside host.old).sent outbox.old text
        → OnOk result (Expects begin (H.outside host.new).sent outbox.new (text ++ spelled (numbered before messages.now))) }
    ensures moments { (begin : Option (List ℕ)) (text : List ℕ) → Expects begin (H.outside host.old).sent outbox.old text
        → Elapses (H.outside host.old) (H.outside host.new) (SendsPrefix begin (text ++ spelled (numbered before messages.now)) (H.outside host.old)) }
    ensures outside { Sent result (H.outside host.old) (H.outside host.new) }
    ensures none { messages.now ≡ [] → (IsOk result) × (outbox.new ≡ outbox.old) × (host.new ≡ host.old) }
{
    if messages.is_empty() {
        return Ok(());
    }
    append_each(outbox, host, before, messages)
}

/// Appends the acknowledgement of a record, where records are acknowledged.
fn acknowledge<H: Host>(
    outbox: &mut Outbox,
    host: &mut H,
    acknowledges: bool,
    input: u64,
) -> Result<(), Fault>
    ensures pending { (begin : Option (List ℕ)) (text : List ℕ) → Expects begin (H.outside host.old).sent outbox.old text
        → OnOk result (Expects begin (H.outside host.new).sent outbox.new (text ++ spelled (with_acknowledgements acknowledges (Frame.Ack input ∷ [])))) }
    ensures moments { (begin : Option (List ℕ)) (text : List ℕ) → Expects begin (H.outside host.old).sent outbox.old text
        → Elapses (H.outside host.old) (H.outside host.new) (SendsPrefix begin text (H.outside host.old)) }
    ensures outside { Sent result (H.outside host.old) (H.outside host.new) }
{
    if !acknowledges {
        return Ok(());
    }
    outbox.append(host, &Frame::Ack { input })
}

/// Sends what waits, since memory is short. It answers so, or that the send failed.
fn give_up<H: Host>(outbox: &mut Outbox, host: &mut H) -> Fault
    ensures sent { (begin : Option (List ℕ)) (text : List ℕ) → Expects begin (H.outside host.old).sent outbox.old text
        → result ≡ Fault.Memory → (H.outside host.new).sent ≡ append_known begin text }
    ensures moments { (begin : Option (List ℕ)) (text : List ℕ) → Expects begin (H.outside host.old).sent outbox.old text
        → Elapses (H.outside host.old) (H.outside host.new) (SendsPrefix begin text (H.outside host.old)) }
    ensures keeps { OnlySends (H.outside host.old) (H.outside host.new) }
    ensures cause { HasCause result (H.outside host.old) (H.outside host.new) }
    ensures unread { result ≢ Fault.Read }
    ensures unkept { result ≢ Fault.Disk }
    ensures idle { outbox.old ≡ [] → (result ≡ Fault.Memory) × (host.new ≡ host.old) }
{
    match outbox.flush(host) {
        Ok(()) => Fault::Memory,
        Err(fault) => fault,
    }
}

/// Evaluates a record. Where memory is short, what waits is sent before that is told.
#[inline(always)]
pub fn evaluate<H: Host>(
    engine: &mut Engine,
    outbox: &mut Outbox,
    host: &mut H,
    x: &Record,
) -> Result<(), Fault>
    requires room { engine.old.published + most_messages < 2 ^ 64 }
    requires count { engine.old.evaluated + 1 < 2 ^ 64 }
    ensures represents { (capacity : ℕ) (accepted evaluated later : List Record) → Represents engine.old capacity accepted evaluated → IsAhead engine.old.evaluator (x.now ∷ later) → verdict capacity evaluated x.now ≡ None
        → OnOk result (Represents engine.new capacity accepted (x.now ∷ evaluated)) }
    ensures stands { (capacity limit : ℕ) (accepted evaluated later : List Record) → Stands engine.old capacity accepted evaluated → IsAhead engine.old.evaluator (x.now ∷ later) → verdict limit evaluated x.now ≡ None
        → OnOk result (Stands engine.new capacity accepted (x.now ∷ evaluated)) }
    ensures messages { (capacity limit : ℕ) (accepted evaluated later : List Record) → Stands engine.old capacity accepted evaluated → IsAhead engine.old.evaluator (x.now ∷ later) → verdict limit evaluated x.now ≡ None
        → OnOk result (engine.new.messages.items ≡ newest_messages (x.now ∷ evaluated)) }
    ensures ahead { (later : List Record) → IsAhead engine.old.evaluator (x.now ∷ later) → OnOk result (IsAhead engine.new.evaluator later) }
    ensures working { OnOk result (IsWorking engine.new.evaluator) }
    ensures workers { workers_of engine.new.evaluator ≡ workers_of engine.old.evaluator }
    ensures admission { engine.new.admission ≡ engine.old.admission }
    ensures evaluated { OnOk result (engine.new.evaluated ≡ engine.old.evaluated + 1) }
    ensures published { OnOk result (engine.new.published ≡ engine.old.published + vec_len engine.new.messages) }
    ensures few { OnOk result (vec_len engine.new.messages ≤ most_messages) }
    ensures pending { (begin : Option (List ℕ)) (text : List ℕ) → Expects begin (H.outside host.old).sent outbox.old text
        → OnOk result (Expects begin (H.outside host.new).sent outbox.new text) }
    ensures moments { (begin : Option (List ℕ)) (text : List ℕ) → Expects begin (H.outside host.old).sent outbox.old text
        → Elapses (H.outside host.old) (H.outside host.new) (SendsPrefix begin text (H.outside host.old)) }
    ensures outside { SentOrStarved result (H.outside host.old) (H.outside host.new) }
    ensures unsent { OnOk result ((outbox.new ≡ outbox.old) × (host.new ≡ host.old)) }
    ensures idle { outbox.old ≡ [] → (result ≢ Err Fault.Send) × (host.new ≡ host.old) }
    ensures roomy { IsRoomy engine.old → OnOk result (IsRoomy engine.new) }
    ensures starved { (begin : Option (List ℕ)) (text : List ℕ) → IsRoomy engine.old → Expects begin (H.outside host.old).sent outbox.old text
        → result ≡ Err Fault.Memory → IsShort (workers_of engine.old.evaluator) (Ok x.now) begin (H.outside host.new).sent text }
{
    match engine.evaluate(x) {
        Ok(()) => Ok(()),
        Err(_) => Err(give_up(outbox, host)),
    }
}

/// Appends the messages of an accepted record, numbered on from those before them, and its acknowledgement.
fn append_accepted<H: Host>(
    outbox: &mut Outbox,
    host: &mut H,
    acknowledges: bool,
    before: u64,
    messages: &[Stamped],
    input: u64,
) -> Result<(), Fault>
    requires { before + length messages.now < 2 ^ 64 }
    ensures appends { (begin : Option (List ℕ)) (text : List ℕ) → Expects begin (H.outside host.old).sent outbox.old text
        → Appends result begin (text ++ spelled (with_acknowledgements acknowledges (numbered before messages.now ++ Frame.Ack input ∷ []))) outbox.new (H.outside host.old) (H.outside host.new) }
    ensures outside { Sent result (H.outside host.old) (H.outside host.new) }
{
    append_messages(outbox, host, before, messages)?;
    acknowledge(outbox, host, acknowledges, input)
}

/// Evaluates an accepted record, and appends its messages and its acknowledgement.
pub fn answer_record<H: Host>(
    engine: &mut Engine,
    outbox: &mut Outbox,
    host: &mut H,
    acknowledges: bool,
    x: &Record,
) -> Result<(), Fault>
    requires room { engine.old.published + 2 * most_messages < 2 ^ 64 }
    requires count { engine.old.evaluated + 1 < 2 ^ 64 }
    ensures represents { (capacity : ℕ) (accepted evaluated later : List Record) → Represents engine.old capacity accepted evaluated → IsAhead engine.old.evaluator (x.now ∷ later) → verdict capacity evaluated x.now ≡ None
        → OnOk result (Represents engine.new capacity accepted (x.now ∷ evaluated)) }
    ensures appends { (capacity : ℕ) (held evaluated later : List Record) (begin : Option (List ℕ)) (text : List ℕ) → Represents engine.old capacity held evaluated
        → IsAhead engine.old.evaluator (x.now ∷ later) → verdict capacity evaluated x.now ≡ None → Expects begin (H.outside host.old).sent outbox.old text
        → Appends result begin (text ++ spelled (with_acknowledgements acknowledges (accepted evaluated x.now))) outbox.new (H.outside host.old) (H.outside host.new) }
    ensures ahead { (later : List Record) → IsAhead engine.old.evaluator (x.now ∷ later) → OnOk result (IsAhead engine.new.evaluator later) }
    ensures workers { workers_of engine.new.evaluator ≡ workers_of engine.old.evaluator }
    ensures admission { engine.new.admission ≡ engine.old.admission }
    ensures evaluated { OnOk result (engine.new.evaluated ≡ engine.old.evaluated + 1) }
    ensures published { OnOk result (engine.new.published ≤ engine.old.published + most_messages) }
    ensures outside { SentOrStarved result (H.outside host.old) (H.outside host.new) }
    ensures roomy { IsRoomy engine.old → OnOk result (IsRoomy engine.new) }
    ensures starved { (begin : Option (List ℕ)) (text : List ℕ) → IsRoomy engine.old → Expects begin (H.outside host.old).sent outbox.old text
        → result ≡ Err Fault.Memory → IsShort (workers_of engine.old.evaluator) (Ok x.now) begin (H.outside host.new).sent text }
{
    let before = engine.published;
    evaluate(engine, outbox, host, x)?;
    append_accepted(
        outbox,
        host,
        acknowledges,
        before,
        &engine.messages,
        engine.evaluated,
    )
}

/// Appends the refusal of the frame of that number.
pub fn refuse<H: Host>(
    outbox: &mut Outbox,
    host: &mut H,
    number: u64,
    refusal: Refusal,
) -> Result<(), Fault>
    ensures pending { (acknowledges : Bool) (begin : Option (List ℕ)) (text : List ℕ) → Expects begin (H.outside host.old).sent outbox.old text
        → OnOk result (Expects begin (H.outside host.new).sent outbox.new (text ++ spelled (with_acknowledgements acknowledges (refused number refusal)))) }
    ensures moments { (begin : Option (List ℕ)) (text : List ℕ) → Expects begin (H.outside host.old).sent outbox.old text
        → Elapses (H.outside host.old) (H.outside host.new) (SendsPrefix begin text (H.outside host.old)) }
    ensures outside { Sent result (H.outside host.old) (H.outside host.new) }
{
    let frame = Frame::Refused {
        frame_number: number,
        code: refusal.code(),
        field: refusal.field(),
    };
    outbox.append(host, &frame)
}
