//! A standby that takes the frames of an input: its journal, and what it keeps from frame to frame.

ghost use Rattle.std.specs.Prelude.{◌≡◌, ◌≢◌, ◌<◌, ◌≤◌, ◌^◌, ◌+◌, ◌++◌, ◌==◌, [], ℕ, List, Option, true, Err, IsTrue, IsSome, IfErr, IfSome, OnOk, if◌then◌else◌, nat_le, length, take};
ghost use Rattle.host_core.specs.Outside.{Elapses};
ghost use Rattle.host_core.specs.Frames.{OnlyWrites};
ghost use Rattle.host_core.specs.Faults.{Causes};
ghost use Rattle.wire_core.specs.Frames.{framed};
ghost use Rattle.wire_in.specs.declared.record.Record.{Record};
ghost use Rattle.wire_in.specs.Cutting.{pending, rest_of};
ghost use Rattle.journal_core.specs.Extended.{Extends};
ghost use Rattle.journal_core.specs.Journal.{IsAtRest, IsOfDisk};
ghost use Rattle.journal_core.specs.Layout.{with_batch};
ghost use Rattle.stream_core.specs.Outcomes.{Sent};
ghost use Rattle.stream_core.specs.Answering.{LeavesInput};
ghost use Rattle.stream_core.specs.Ends.{IsEnd, end_of};
ghost use Rattle.stream_core.specs.Pending.{Expects, SendsPrefix};
ghost use Rattle.standby_core.specs.Rounds.{spelled};
ghost use Rattle.standby_core.specs.Standing.{Does, Follows, Gathers, Given, IsReady, IsSound, Keeps, Leaves, Serves, does_both, does_exchange, follows_sent, kept_after, leaves_both, ready_for_fewer, ready_still, replies_after, rests_still, sends_leave};

use crate::judging::judge;
use crate::replying::append_replies;
use crate::round::Round;
use host_core::{Fault, Host, Status};
use journal_core::Journal;
use market_core::Admission;
use stream_core::{Answerer, Outbox};
use wire_in::Cutter;

/// What is kept from piece to piece: the frame begun, the admission of the records in the journal, the journal, the frames that
/// wait to be kept and replied to, and how many frames were replied to.
#[derive(Drop)]
pub struct Standby {
    pub cutter: Cutter,
    pub admission: Admission,
    pub journal: Journal,
    pub round: Round,
    pub answered: u64,
}

/// The body of the whole frame that a piece begins with, where none was begun before. It is judged where it lies.
fn whole_frame<'a>(cutter: &Cutter, piece: &'a [u8]) -> Option<&'a [u8]>
    ensures between { IsSome result → pending cutter.now ≡ [] }
    ensures prefix { IfSome result (λ body. framed body.now ≡ take (length body.now + 1) piece.now) }
    ensures within { IfSome result (λ body. length body.now < length piece.now) }
{
    if cutter.inside() {
        return None;
    }
    let (len, rest) = piece.split_first()?;
    rest.get(..usize::from(*len))
}

/// How an input ends of which so many bytes were read, of at most so many, and all where they are fewer.
fn ended(cutter: &Cutter, read: u64, most: u64) -> Status
    ensures end { IsEnd result }
    ensures status { (bytes : List ℕ) → pending cutter.now ≡ rest_of bytes
        → result ≡ (if nat_le most read then Status.SessionFull else if length (rest_of bytes) == 0 then Status.Done else Status.Truncated) }
{
    if read >= most {
        Status::SessionFull
    } else if cutter.inside() {
        Status::Truncated
    } else {
        Status::Done
    }
}

/// Keeps the new records of the frames that wait, by one append.
fn keep_round<H: Host>(journal: &mut Journal, round: &Round, host: &mut H) -> Result<(), Fault>
    requires whole { IsTrue journal.old.whole }
    requires of_disk { IsOfDisk journal.old (H.outside host.old).disk }
    requires room { journal.old.count + length round.now.records ≤ journal.old.capacity }
    ensures moments { (records : List Record) → IsAtRest journal.old records (H.outside host.old)
        → Elapses (H.outside host.old) (H.outside host.new) (Keeps journal.old.capacity records round.now.records (H.outside host.old)) }
    ensures held { OnOk result ((records : List Record) → IsAtRest journal.old records (H.outside host.old)
        → IsAtRest journal.new (with_batch records round.now.records) (H.outside host.new)) }
    ensures whole { OnOk result (IsTrue journal.new.whole) }
    ensures of_disk { OnOk result (IsOfDisk journal.new (H.outside host.new).disk) }
    ensures count { OnOk result (journal.new.count ≡ journal.old.count + length round.now.records) }
    ensures capacity { journal.new.capacity ≡ journal.old.capacity }
    ensures extends { Extends round.now.most (H.outside host.old) (H.outside host.new) }
    ensures keeps { OnlyWrites (H.outside host.old) (H.outside host.new) }
    ensures causes { Causes result (H.outside host.old) (H.outside host.new) }
    ensures fault { IfErr result (λ fault. fault ≡ Fault.Disk) }
{
    let records = round.records();
    if records.is_empty() {
        return Ok(());
    }
    journal.append(host, records)?;
    Ok(())
}

impl Standby {
    /// Appends the replies to the frames that wait, none of whose records waits to be kept.
    fn reply_round<H: Host>(&mut self, outbox: &mut Outbox, host: &mut H) -> Result<(), Fault>
        requires kept { self.old.round.records ≡ [] }
        requires few { self.old.answered < 2 ^ 63 }
        ensures pending { (begin : Option (List ℕ)) (text : List ℕ) → Expects begin (H.outside host.old).sent outbox.old text
            → OnOk result (Expects begin (H.outside host.new).sent outbox.new (text ++ spelled self.old.round.replies)) }
        ensures moments { (begin : Option (List ℕ)) (text : List ℕ) → Expects begin (H.outside host.old).sent outbox.old text
            → Elapses (H.outside host.old) (H.outside host.new) (SendsPrefix begin (text ++ spelled self.old.round.replies) (H.outside host.old)) }
        ensures round { OnOk result (self.new.round ≡ record self.old.round { replies = [] }) }
        ensures most { self.new.round.most ≡ self.old.round.most }
        ensures answered { OnOk result (self.new.answered ≡ self.old.answered + length self.old.round.replies) }
        ensures rest { self.new ≡ record self.old { round = self.new.round; answered = self.new.answered } }
        ensures outside { Sent result (H.outside host.old) (H.outside host.new) }
    {
        append_replies(outbox, host, self.round.replies())?;
        self.answered += self.round.len() as u64;
        self.round.clear_replies();
        Ok(())
    }

    /// Keeps the new records of the frames that wait, and then replies to these frames.
    fn settle<H: Host>(&mut self, outbox: &mut Outbox, host: &mut H) -> Result<(), Fault>
        requires sound { IsSound self.old (H.outside host.old).disk }
        requires few { self.old.answered < 2 ^ 63 }
        ensures follows { (given : Given) (count : ℕ) → Serves given count outbox.old self.old (H.outside host.old)
            → OnOk result (Follows given count outbox.new self.new (H.outside host.new)) }
        ensures leaves { (given : Given) (count : ℕ) → Serves given count outbox.old self.old (H.outside host.old)
            → Elapses (H.outside host.old) (H.outside host.new) (Leaves given) }
        ensures sound { OnOk result (IsSound self.new (H.outside host.new).disk) }
        ensures round { OnOk result (self.new.round ≡ record self.old.round { replies = []; records = [] }) }
        ensures answered { OnOk result (self.new.answered ≡ self.old.answered + length self.old.round.replies) }
        ensures does { Does self.old self.new (H.outside host.old) (H.outside host.new) }
        ensures keeps { LeavesInput (H.outside host.old) (H.outside host.new) }
        ensures causes { Causes result (H.outside host.old) (H.outside host.new) }
        ensures unread { result ≢ Err Fault.Read }
        ensures unstarved { result ≢ Err Fault.Memory }
    {
        keep_round(&mut self.journal, &self.round, host)?;
        self.round.clear_records();
        self.reply_round(outbox, host)
    }

    /// The place of the next frame that is judged, from 1 on.
    fn next_place(&self) -> u64
        requires { self.now.answered < 2 ^ 63 }
        ensures { result ≡ self.now.answered + length self.now.round.replies + 1 }
    {
        self.answered + self.round.len() as u64 + 1
    }

    /// Takes bytes up to the end of a frame or of the piece, and judges the frame if it is whole. Answers how many bytes
    /// it took.
    fn advance(&mut self, piece: &[u8]) -> usize
        requires room { length self.old.round.replies < self.old.round.most }
        requires few { self.old.answered < 2 ^ 63 }
        ensures used { (result ≤ length piece.now) × (0 < length piece.now → 0 < result) }
        ensures gathers { (given : Given) (answered : List (List ℕ)) (read : List ℕ) → Gathers given answered read self.old
            → Gathers given answered (read ++ take result piece.now) self.new }
        ensures more { length self.new.round.replies ≤ length self.old.round.replies + 1 }
        ensures most { self.new.round.most ≡ self.old.round.most }
        ensures sound { (known : Option (List ℕ)) → IsSound self.old known → IsSound self.new known }
        ensures journal { self.new.journal ≡ self.old.journal }
        ensures answered { self.new.answered ≡ self.old.answered }
    {
        let place = self.next_place();
        if let Some(body) = whole_frame(&self.cutter, piece) {
            judge(&mut self.admission, &mut self.round, place, body);
            return body.len() + 1;
        }
        let cut = self.cutter.take(piece);
        if !cut.whole {
            return cut.used;
        }
        judge(
            &mut self.admission,
            &mut self.round,
            place,
            self.cutter.body(),
        );
        cut.used
    }

    /// Takes bytes of a piece from an offset on, up to its end or until as many frames wait as the round takes. Answers the
    /// offset behind them.
    fn fill(&mut self, piece: &[u8], from: usize) -> usize
        requires some { 1 ≤ self.old.round.most }
        requires empty { self.old.round.replies ≡ [] }
        requires left { from < length piece.now }
        requires few { self.old.answered < 2 ^ 63 }
        ensures offset { (from < result) × (result ≤ length piece.now) }
        ensures gathers { (given : Given) (answered : List (List ℕ)) (read : List ℕ) → Gathers given answered (read ++ take from piece.now) self.old
            → Gathers given answered (read ++ take result piece.now) self.new }
        ensures few { from + length self.new.round.replies ≤ result }
        ensures most { self.new.round.most ≡ self.old.round.most }
        ensures sound { (known : Option (List ℕ)) → IsSound self.old known → IsSound self.new known }
        ensures journal { self.new.journal ≡ self.old.journal }
        ensures answered { self.new.answered ≡ self.old.answered }
    {
        let mut at = from;
        while at < piece.len() && self.round.len() < self.round.most() {
            at += self.advance(&piece[at..]);
        }
        at
    }
}

impl Answerer for Standby {
    ghost Given = { Given };

    ghost input = { λ given. given.input };

    ghost limit = { λ given. given.most };

    ghost begin = { λ given. given.begin };

    ghost text = { λ given read. replies_after given read };

    ghost whole = { λ given. replies_after given (take given.most given.input) };

    ghost end_of = { λ given. end_of given.most given.input };

    ghost may_end = { λ _ status. IsEnd status };

    ghost reads = { λ standby given count waiting now. Follows given count waiting standby now };

    ghost holds = { λ standby given count now. (standby.journal.capacity ≡ given.capacity) × IsAtRest standby.journal (kept_after given (take count given.input)) now };

    ghost ready = { λ standby now more. IsReady more standby now };

    ghost goes_on = { λ _. true };

    ghost runs = { λ given _ old _ new. Elapses old new (Leaves given) };

    ghost leaves = { λ given _ old _ new. Elapses old new (Leaves given) };

    ghost starved = { λ _ _. ⊥ };

    ghost does = { λ first old next new. Does first next old new };

    ghost fails = { Unit {0} };

    ghost starves = { ⊥ };

    ghost expects = { λ _ _ _ _ _ follows. follows.pending_is };

    ghost sent_on = { λ standby given count waiting old new follows keeps sent. follows_sent given count waiting standby old new follows keeps sent };

    ghost held_on = { λ _ _ _ _ _ _ follows keeps. (follows.limit, rests_still follows.at_rest keeps) };

    ghost ready_on = { λ standby old new more keeps ready. ready_still standby old new more keeps ready };

    ghost ready_for_fewer = { λ standby now fewer more le ready. ready_for_fewer standby now fewer more le ready };

    ghost runs_sending = { λ standby given count waiting old new follows run _. sends_leave given count waiting standby old new follows run };

    ghost runs_on = { λ given _ _ _ old mid new first second. leaves_both given old mid new first second };

    ghost leaves_on = { λ given _ _ _ old mid new first second. leaves_both given old mid new first second };

    ghost leaves_so = { λ _ _ _ _ _ run. run };

    ghost does_on = { λ first next last old mid new one two. does_both first next last old mid new one two };

    ghost does_exchange = { λ standby old new keeps. does_exchange standby old new keeps };

    ghost ends_on = { λ _ _ _ _ _ _ end. end };

    fn goes_on(&self) -> bool {
        true
    }

    fn feed<H: Host>(
        &mut self,
        outbox: &mut Outbox,
        host: &mut H,
        piece: &[u8],
    ) -> Result<(), Fault> {
        let mut at = 0;
        while at < piece.len() {
            at = self.fill(piece, at);
            self.settle(outbox, host)?;
        }
        Ok(())
    }

    fn finish<H: Host>(
        &mut self,
        outbox: &mut Outbox,
        host: &mut H,
        read: u64,
        most: u64,
    ) -> Result<Status, Fault> {
        let _ = outbox;
        let _ = host;
        Ok(ended(&self.cutter, read, most))
    }
}
