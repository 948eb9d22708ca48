//! An audit of the frames of an input, over a host.

ghost use Rattle.std.specs.Prelude.{◌≡◌, ◌<◌, ◌≤◌, ◌^◌, ◌+◌, ◌++◌, ◌∷◌, [], ℕ, List, Option, None, true, IsSome, IfOk, IfSome, OnOk, length, take, refl, is_none};
ghost use Rattle.host_core.specs.Outside.{Elapses};
ghost use Rattle.wire_core.specs.Frames.{framed};
ghost use Rattle.wire_in.specs.Cutting.{pending};
ghost use Rattle.std.specs.Io.KnownBytes.{append_known};
ghost use Rattle.stream_core.specs.Outcomes.{Sent};
ghost use Rattle.stream_core.specs.Pending.{Expects, SendsPrefix};
ghost use Rattle.stream_core.specs.Taking.{OnlyExchanges};
ghost use Rattle.stream_core.proofs.Pieces.{exchanges_both};
ghost use Rattle.stream_core.proofs.Sending.{sends_longer, sends_whole};
ghost use Rattle.audit_core.specs.Audited.{Audited, IsAnswer, IsEnd};
ghost use Rattle.audit_core.specs.Streams.{clean_line, end_of, sent_at, text_of};
ghost use Rattle.audit_core.specs.InternalStreams.{Audits, Given, IsFresh, IsReadyFor, Knows, Reads, expects_none, ready_for_fewer, status_by, still_none};

use crate::audit::Audit;
use host_core::{Fault, Host, Status};
use itoa::Buffer;
use price_core::NoMemory;
use std::alloc::Global;
use stream_core::{Answerer, Outbox, PIECE, answer_input, answer_of};
use wire_in::Cutter;
use wire_out::get_frame;

/// The most bytes that an audit reads.
const BYTES_MAX: u64 = 1_099_511_627_776;

/// What is wrong with a frame.
#[derive(Clone, Copy, Debug, PartialEq, Eq)]
pub enum Flaw {
    /// Its body spells no frame.
    NoFrame,
    /// It breaks this law, and none before it.
    Law(u8),
}

/// The frames that were taken, how many they are, and what is wrong with the one behind them.
#[derive(Drop)]
pub struct Inspection {
    pub audit: Audit,
    pub taken: u64,
    pub flaw: Option<Flaw>,
}

/// An audit on its way, with the frame that is begun.
#[derive(Drop)]
pub struct Auditing {
    pub cutter: Cutter,
    pub inspection: Inspection,
}

/// The body of the whole frame that a piece begins with, where none was begun before. It is audited where it lies.
fn whole_frame<'a>(cutter: &Cutter, piece: &'a [u8]) -> Option<&'a [u8]>
    ensures between { IsSome result → pending cutter.now ≡ [] }
    ensures prefix { IfSome result (λ body. framed body.now ≡ take (length body.now + 1) piece.now) }
    ensures within { IfSome result (λ body. length body.now < length piece.now) }
    ensures short { IfSome result (λ body. length body.now ≤ 255) }
{
    if cutter.inside() {
        return None;
    }
    let (len, rest) = piece.split_first()?;
    rest.get(..usize::from(*len))
}

impl Inspection {
    /// Takes the frame of a body, or finds what is wrong with it.
    fn take(&mut self, body: &[u8]) -> Result<(), NoMemory>
        requires sound { self.old.flaw ≡ None }
        requires clean { self.old.audit.clean ≡ true }
        requires few { self.old.taken < 2 ^ 42 }
        ensures audits { (bodies : List (List ℕ)) → Audits bodies self.old → OnOk result (Audits (bodies ++ body.now ∷ []) self.new) }
        ensures clean { OnOk result (self.new.flaw ≡ None → self.new.audit.clean ≡ true) }
        ensures few { self.new.taken ≤ self.old.taken + 1 }
    {
        let Ok(frame) = get_frame(body) else {
            self.flaw = Some(Flaw::NoFrame);
            return Ok(());
        };
        match self.audit.take(&frame)? {
            Some(law) => self.flaw = Some(Flaw::Law(law)),
            None => self.taken += 1,
        }
        Ok(())
    }

    /// How an audit ends that has read so many bytes of at most so many, inside a frame or between frames.
    fn status(&self, inside: bool, read: u64, most: u64) -> Status
        requires few { self.now.taken < 2 ^ 43 }
        ensures { result ≡ status_by self.now inside read most }
    {
        match self.flaw {
            Some(Flaw::NoFrame) => Status::BadText {
                line: self.taken + 1,
            },
            Some(Flaw::Law(law)) => Status::Breach {
                place: self.taken + 1,
                law,
            },
            None if read >= most => Status::SessionFull,
            None if inside => Status::Truncated,
            None => Status::Done,
        }
    }
}

impl Auditing {
    /// Nothing was read yet.
    fn new(audit: Audit) -> Auditing
        ensures { result ≡ record { cutter = []; inspection = record { audit = audit; taken = 0; flaw = None } } }
    {
        Auditing {
            cutter: Cutter::new(),
            inspection: Inspection {
                audit,
                taken: 0,
                flaw: None,
            },
        }
    }

    /// Takes bytes up to the end of a frame or of the piece, and the frame if it is whole. Answers how many bytes it took.
    fn advance(&mut self, piece: &[u8]) -> Result<usize, NoMemory>
        requires sound { self.old.inspection.flaw ≡ None }
        requires clean { self.old.inspection.audit.clean ≡ true }
        requires few { self.old.inspection.taken < 2 ^ 42 }
        ensures used { IfOk result (λ n. (n ≤ length piece.now) × (0 < length piece.now → 0 < n)) }
        ensures reads { (read : List ℕ) → Reads read self.old → IfOk result (λ n. Reads (read ++ take n piece.now) self.new) }
        ensures clean { OnOk result (self.new.inspection.flaw ≡ None → self.new.inspection.audit.clean ≡ true) }
        ensures few { self.new.inspection.taken ≤ self.old.inspection.taken + 1 }
    {
        if let Some(body) = whole_frame(&self.cutter, piece) {
            self.inspection.take(body)?;
            return Ok(body.len() + 1);
        }
        let cut = self.cutter.take(piece);
        if !cut.whole {
            return Ok(cut.used);
        }
        self.inspection.take(self.cutter.body())?;
        Ok(cut.used)
    }

    /// Takes all bytes of a piece, or those up to the first frame with which something is wrong.
    fn read(&mut self, piece: &[u8]) -> Result<(), NoMemory>
        requires clean { self.old.inspection.flaw ≡ None → self.old.inspection.audit.clean ≡ true }
        requires few { self.old.inspection.taken + length piece.now < 2 ^ 42 }
        ensures reads { (read : List ℕ) → Reads read self.old → OnOk result (Reads (read ++ piece.now) self.new) }
        ensures clean { OnOk result (self.new.inspection.flaw ≡ None → self.new.inspection.audit.clean ≡ true) }
        ensures few { OnOk result (self.new.inspection.taken ≤ self.old.inspection.taken + length piece.now) }
    {
        let mut at = 0;
        while at < piece.len() && self.inspection.flaw.is_none() {
            at += self.advance(&piece[at..])?;
        }
        Ok(())
    }
}

/// Sends the line of a clean day with so many messages.
fn send_clean<H: Host>(outbox: &mut Outbox, host: &mut H, messages: u64) -> Result<(), Fault>
    ensures sent { (begin : Option (List ℕ)) → Expects begin (H.outside host.old).sent outbox.old []
        → OnOk result ((H.outside host.new).sent ≡ append_known begin (clean_line messages)) }
    ensures moments { (begin : Option (List ℕ)) → Expects begin (H.outside host.old).sent outbox.old []
        → Elapses (H.outside host.old) (H.outside host.new) (SendsPrefix begin (clean_line messages) (H.outside host.old)) }
    ensures outside { Sent result (H.outside host.old) (H.outside host.new) }
{
    let mut buffer = Buffer::new();
    outbox.append_bytes(host, "clean ".as_bytes())?;
    outbox.append_bytes(host, buffer.format(messages).as_bytes())?;
    outbox.append_bytes(host, "\n".as_bytes())?;
    outbox.flush(host)
}

/// Sends what is sent at this end.
fn send_end<H: Host>(
    status: Status,
    outbox: &mut Outbox,
    host: &mut H,
    messages: u64,
) -> Result<Status, Fault>
    ensures same { IfOk result (λ end. end ≡ status) }
    ensures sent { (begin : Option (List ℕ)) → Expects begin (H.outside host.old).sent outbox.old []
        → OnOk result ((H.outside host.new).sent ≡ append_known begin (sent_at status messages)) }
    ensures moments { (begin : Option (List ℕ)) → Expects begin (H.outside host.old).sent outbox.old []
        → Elapses (H.outside host.old) (H.outside host.new) (SendsPrefix begin (sent_at status messages) (H.outside host.old)) }
    ensures outside { Sent result (H.outside host.old) (H.outside host.new) }
{
    match status {
        Status::Done => send_clean(outbox, host, messages)?,
        _ => outbox.flush(host)?,
    }
    Ok(status)
}

impl Answerer for Auditing {
    ghost Given = { Given };

    ghost input = { λ given. given.input };

    ghost limit = { λ given. given.most };

    ghost begin = { λ given. given.begin };

    ghost text = { λ _ _. [] };

    ghost whole = { λ given. text_of given.most given.input };

    ghost end_of = { λ given. end_of given.most given.input };

    ghost may_end = { λ _ status. IsEnd status × IsAnswer status };

    ghost reads = { λ auditing given count waiting now. Knows given count waiting auditing now };

    ghost holds = { λ _ _ _ _. Unit {0} };

    ghost ready = { λ auditing _ more. IsReadyFor more auditing.inspection };

    ghost goes_on = { λ auditing. is_none auditing.inspection.flaw };

    ghost runs = { λ given _ old _ new. Elapses old new (SendsPrefix given.begin (text_of given.most given.input) old) };

    ghost leaves = { λ given _ old _ new. Elapses old new (SendsPrefix given.begin (text_of given.most given.input) old) };

    ghost starved = { λ given now. now.sent ≡ given.begin };

    ghost does = { λ _ old _ new. OnlyExchanges old new };

    ghost fails = { ⊥ };

    ghost starves = { Unit {0} };

    ghost expects = { λ _ _ _ _ _ knows. expects_none knows };

    ghost sent_on = { λ _ _ _ _ _ _ knows _ sent. still_none knows sent };

    ghost held_on = { λ _ _ _ _ _ _ _ _. tt };

    ghost ready_on = { λ _ _ _ _ _ ready. ready };

    ghost ready_for_fewer = { λ auditing _ fewer more le ready. ready_for_fewer fewer more auditing.inspection le ready };

    ghost runs_sending = { λ _ given _ _ _ _ _ run _. sends_longer [] (text_of given.most given.input) _ refl run };

    ghost runs_on = { λ _ _ _ _ _ _ _ first second. sends_whole first second };

    ghost leaves_on = { λ _ _ _ _ _ _ _ first second. sends_whole first second };

    ghost leaves_so = { λ _ _ _ _ _ run. run };

    ghost does_on = { λ _ _ _ _ _ _ first second. exchanges_both first second };

    ghost does_exchange = { λ _ _ _ keeps. keeps };

    ghost ends_on = { λ _ _ _ _ _ _ end. end };

    fn goes_on(&self) -> bool {
        self.inspection.flaw.is_none()
    }

    fn feed<H: Host>(
        &mut self,
        outbox: &mut Outbox,
        host: &mut H,
        piece: &[u8],
    ) -> Result<(), Fault> {
        let _ = outbox;
        let _ = host;
        self.read(piece)?;
        Ok(())
    }

    fn finish<H: Host>(
        &mut self,
        outbox: &mut Outbox,
        host: &mut H,
        read: u64,
        most: u64,
    ) -> Result<Status, Fault> {
        let status = self.inspection.status(self.cutter.inside(), read, most);
        send_end(status, outbox, host, self.inspection.audit.messages())
    }
}

/// What an audit needs memory for before the host is called.
#[derive(Drop)]
struct Room {
    auditing: Auditing,
    outbox: Outbox,
    buffer: Vec<u8>,
}

/// Takes the room of an audit.
fn take_room(alloc: Global) -> Result<Room, NoMemory>
    ensures fresh { IfOk result (λ room. IsFresh room.auditing) }
    ensures outbox { IfOk result (λ room. room.outbox ≡ []) }
    ensures buffer { IfOk result (λ room. length room.buffer.items ≡ 65536) }
{
    Ok(Room {
        auditing: Auditing::new(Audit::new(alloc)?),
        outbox: Outbox::new(alloc)?,
        buffer: vec![in alloc; 0; PIECE]?,
    })
}

/// Audits the published frames of one day, as a replay sends them, up to the end of the input or to 1,099,511,627,776 bytes. Where all
/// keep the laws of what is published, it sends `clean` with the number of messages. It answers `Breach` at the first frame that
/// breaks a law, with the least that it breaks, and `BadText` at a body that spells no frame, each with the number of the frame,
/// counted from 1, and `Truncated` where the input ends inside a frame. The disk is not touched. `NoMemory` comes at the start, or
/// where a further symbol has no room, and then nothing was sent.
pub fn audit_stream<H: Host>(alloc: Global, host: &mut H) -> Status
    ensures audited { Audited result (H.outside host.old) (H.outside host.new) }
{
    let Ok(mut room) = take_room(alloc) else {
        return Status::NoMemory;
    };
    answer_of(answer_input(
        &mut room.auditing,
        &mut room.outbox,
        host,
        &mut room.buffer,
        BYTES_MAX,
    ))
}
