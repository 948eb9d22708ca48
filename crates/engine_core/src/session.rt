//! A session: from pieces of the input to what is kept and sent.

ghost use Rattle.std.specs.Prelude.{◌≡◌, ◌≢◌, ◌-◌, ◌+◌, ◌<◌, ◌≤◌, ◌^◌, ◌++◌, ◌∷◌, [], ℕ, List, Option, Ok, Err, OnOk, IfSome, length, map, take};
ghost use Rattle.host_core.specs.Outside.{Elapses};
ghost use Rattle.host_core.specs.Frames.{OnlyWrites};
ghost use Rattle.host_core.specs.Faults.{Causes};
ghost use Rattle.wire_in.specs.declared.record.Record.{Record};
ghost use Rattle.wire_core.specs.Frames.{framed};
ghost use Rattle.wire_in.specs.Cutting.{pending};
ghost use Rattle.stream_core.specs.Outcomes.{SentOrStarved};
ghost use Rattle.journal_core.specs.Layout.{with_batch};
ghost use Rattle.engine_core.specs.Rounds.{Outcome, records_in};
ghost use Rattle.engine_core.specs.Sessions.{Start};
ghost use Rattle.engine_core.specs.Answering.{Answers, Replies};
ghost use Rattle.engine_core.specs.Unwritten.{WritesNothing};
ghost use Rattle.engine_core.specs.Serving.{Serves, Runs, IsSound, IsReady, Keeps, OnlyAnswers};

use crate::engine::Engine;
use crate::keeper::Keeper;
use crate::reply::{answer_record, refuse};
use crate::round::Round;
use host_core::{Fault, Host};
use std::thread::Threads;
use stream_core::{Outbox, PIECE};
use wire_in::{Cutter, Record, Refusal};
use yard_core::Gate;

/// How many frames are judged before they are answered where no records are shared out: what is kept of them stays in the
/// nearest cache.
const ENOUGH_ALONE: usize = 64;

/// What is kept from piece to piece: the frame begun, the accepted records' engine, the frames that were judged and wait to
/// be answered, what waits to be sent, and how many frames were answered.
#[derive(Drop)]
pub struct Session {
    pub cutter: Cutter,
    pub engine: Engine,
    pub round: Round,
    pub outbox: Outbox,
    pub answered: u64,
}

/// The body of the whole frame that a piece begins with. It is judged where it lies.
fn whole_frame<'a>(piece: &'a [u8]) -> Option<&'a [u8]>
    ensures prefix { IfSome result (λ body. framed body.now ≡ take (length body.now + 1) piece.now) }
    ensures within { IfSome result (λ body. length body.now < length piece.now) }
    ensures short { IfSome result (λ body. length body.now ≤ 255) }
{
    let (len, rest) = piece.split_first()?;
    rest.get(..usize::from(*len))
}

/// Answers accepted frames that come one behind the other, by their records, which were evaluated ahead.
#[inline(never)]
fn answer_run<H: Host>(
    engine: &mut Engine,
    outbox: &mut Outbox,
    host: &mut H,
    acknowledges: bool,
    records: &[Record],
) -> Result<(), Fault>
    requires sound { (later : List Outcome) × (answered : ℕ) × (answered + length records.now < 2 ^ 43) × IsSound engine.old (map Ok records.now ++ later) answered }
    ensures replies { (start : Start) (before all : List (List ℕ)) (number : ℕ) (later : List Outcome) → acknowledges ≡ start.acknowledges
        → Answers start before all number (map Ok records.now ++ later) (records_in (map Ok records.now ++ later)) engine.old outbox.old (H.outside host.old).sent
        → Replies result start all (number + length records.now) later (records_in later) engine.new outbox.new (H.outside host.old) (H.outside host.new) }
    ensures sound { (later : List Outcome) (answered : ℕ) → IsSound engine.old (map Ok records.now ++ later) answered → OnOk result (IsSound engine.new later (answered + length records.now)) }
    ensures admission { engine.new.admission ≡ engine.old.admission }
    ensures outside { SentOrStarved result (H.outside host.old) (H.outside host.new) }
{
    for x in records {
        answer_record(engine, outbox, host, acknowledges, x)?;
    }
    Ok(())
}

/// Answers the accepted frames in front of a refused one, by their records, and then that one. So many were answered before.
fn answer_up_to<H: Host>(
    engine: &mut Engine,
    outbox: &mut Outbox,
    host: &mut H,
    acknowledges: bool,
    answered: u64,
    records: &[Record],
    refusal: Refusal,
) -> Result<(), Fault>
    requires sound { (later : List Outcome) × IsSound engine.old (map Ok records.now ++ Err refusal ∷ later) answered }
    requires answered { answered + length records.now < 2 ^ 43 }
    ensures replies { (start : Start) (before all : List (List ℕ)) (later : List Outcome) → acknowledges ≡ start.acknowledges
        → Answers start before all answered (map Ok records.now ++ Err refusal ∷ later) (records_in (map Ok records.now ++ Err refusal ∷ later)) engine.old outbox.old (H.outside host.old).sent
        → Replies result start all (answered + length records.now + 1) later (records_in later) engine.new outbox.new (H.outside host.old) (H.outside host.new) }
    ensures sound { (later : List Outcome) → IsSound engine.old (map Ok records.now ++ Err refusal ∷ later) answered → OnOk result (IsSound engine.new later (answered + length records.now + 1)) }
    ensures admission { engine.new.admission ≡ engine.old.admission }
    ensures outside { SentOrStarved result (H.outside host.old) (H.outside host.new) }
{
    answer_run(engine, outbox, host, acknowledges, records)?;
    let number = answered + records.len() as u64 + 1;
    refuse(outbox, host, number, refusal)
}

/// Answers the frames of a round, the first of which comes behind so many answered ones, and whose accepted records were
/// evaluated ahead.
fn answer_each<H: Host>(
    engine: &mut Engine,
    outbox: &mut Outbox,
    host: &mut H,
    acknowledges: bool,
    answered: u64,
    round: &Round,
) -> Result<(), Fault>
    requires sound { IsSound engine.old round.now.outcomes answered }
    requires answered { answered < 2 ^ 42 }
    ensures replies { (start : Start) (before all : List (List ℕ)) → acknowledges ≡ start.acknowledges
        → Answers start before all answered round.now.outcomes (records_in round.now.outcomes) engine.old outbox.old (H.outside host.old).sent
        → Replies result start all (answered + length round.now.outcomes) [] [] engine.new outbox.new (H.outside host.old) (H.outside host.new) }
    ensures admission { engine.new.admission ≡ engine.old.admission }
    ensures sound { OnOk result (IsSound engine.new [] (answered + length round.now.outcomes)) }
    ensures outside { SentOrStarved result (H.outside host.old) (H.outside host.new) }
{
    let records: &[Record] = round.accepted();
    let mut number = answered;
    let mut begin = 0;
    for refused in round.refused() {
        let run = &records[begin..refused.before];
        answer_up_to(
            engine,
            outbox,
            host,
            acknowledges,
            number,
            run,
            refused.refusal,
        )?;
        number += run.len() as u64 + 1;
        begin = refused.before;
    }
    answer_run(engine, outbox, host, acknowledges, &records[begin..])
}

/// Evaluates the accepted records of the frames that wait ahead.
fn prepare_round<Rt: Threads + Sync, G: Gate>(rt: &Rt, session: &mut Session, gate: &G)
    ensures answers { (start : Start) (before all : List (List ℕ)) (sent : Option (List ℕ)) → Answers start before all session.old.answered session.old.round.outcomes [] session.old.engine session.old.outbox sent
        → Answers start before all session.new.answered session.new.round.outcomes (records_in session.new.round.outcomes) session.new.engine session.new.outbox sent }
    ensures rest { session.new ≡ record session.old { engine = session.new.engine } }
    ensures admission { session.new.engine.admission ≡ session.old.engine.admission }
    ensures sound { IsSound session.old.engine session.old.round.outcomes session.old.answered → IsSound session.new.engine session.new.round.outcomes session.new.answered }
{
    session.engine.prepare(rt, gate, session.round.accepted());
}

/// Evaluates the frames that wait, whose accepted records are kept, and answers them.
fn answer_round<Rt: Threads + Sync, H: Host, G: Gate>(
    rt: &Rt,
    session: &mut Session,
    host: &mut H,
    gate: &G,
    acknowledges: bool,
) -> Result<(), Fault>
    requires sound { IsSound session.old.engine session.old.round.outcomes session.old.answered }
    requires answered { session.old.answered < 2 ^ 42 }
    ensures replies { (start : Start) (before all : List (List ℕ)) → acknowledges ≡ start.acknowledges
        → Answers start before all session.old.answered session.old.round.outcomes [] session.old.engine session.old.outbox (H.outside host.old).sent
        → Replies result start all session.new.answered session.new.round.outcomes [] session.new.engine session.new.outbox (H.outside host.old) (H.outside host.new) }
    ensures empty { OnOk result (session.new.round.outcomes ≡ []) }
    ensures answered { OnOk result (session.new.answered ≡ session.old.answered + length session.old.round.outcomes) }
    ensures most { session.new.round.most ≡ session.old.round.most }
    ensures cutter { session.new.cutter ≡ session.old.cutter }
    ensures admission { session.new.engine.admission ≡ session.old.engine.admission }
    ensures sound { OnOk result (IsSound session.new.engine session.new.round.outcomes session.new.answered) }
    ensures outside { SentOrStarved result (H.outside host.old) (H.outside host.new) }
{
    prepare_round(rt, session, gate);
    answer_each(
        &mut session.engine,
        &mut session.outbox,
        host,
        acknowledges,
        session.answered,
        &session.round,
    )?;
    session.answered += session.round.len() as u64;
    session.round.clear();
    Ok(())
}

/// Keeps the accepted records of the frames that wait.
fn keep_round<K: Keeper, H: Host>(
    session: &Session,
    keeper: &mut K,
    host: &mut H,
) -> Result<(), Fault>
    requires room { K.has_room keeper.old (H.outside host.old).disk (length (records_in session.now.round.outcomes)) }
    requires most { session.now.round.most ≤ K.most }
    ensures moments { (records : List Record) → K.holds keeper.old records (H.outside host.old)
        → Elapses (H.outside host.old) (H.outside host.new) (Keeps (K.recovers keeper.old (H.outside host.old)) records (records_in session.now.round.outcomes) (H.outside host.old)) }
    ensures held { OnOk result ((records : List Record) → K.holds keeper.old records (H.outside host.old)
        → K.holds keeper.new (with_batch records (records_in session.now.round.outcomes)) (H.outside host.new)) }
    ensures before { OnOk result ((records : List Record) (pending : List (List Record)) (image : List ℕ) → K.recovers keeper.new (H.outside host.new) records pending image
        → K.recovers keeper.old (H.outside host.old) records pending image) }
    ensures room { OnOk result ((more : ℕ) → K.has_room keeper.old (H.outside host.old).disk (length (records_in session.now.round.outcomes) + more)
        → K.has_room keeper.new (H.outside host.new).disk more) }
    ensures nothing { records_in session.now.round.outcomes ≡ [] → WritesNothing (H.outside host.old) (H.outside host.new) }
    ensures few { length (records_in session.now.round.outcomes) ≤ session.now.round.most }
    ensures touches { K.touches session.now.round.most (H.outside host.old) (H.outside host.new) }
    ensures keeps { OnlyWrites (H.outside host.old) (H.outside host.new) }
    ensures causes { Causes result (H.outside host.old) (H.outside host.new) }
    ensures unread { result ≢ Err Fault.Read }
    ensures unkept { result ≡ Err Fault.Disk → K.fails }
    ensures unstarved { result ≢ Err Fault.Memory }
{
    let batch = session.round.accepted();
    if batch.is_empty() {
        return Ok(());
    }
    keeper.keep(host, batch)
}

/// Keeps the accepted records of the frames that wait, evaluates them, and answers the frames.
fn settle<Rt: Threads + Sync, K: Keeper, H: Host, G: Gate>(
    rt: &Rt,
    session: &mut Session,
    keeper: &mut K,
    host: &mut H,
    gate: &G,
) -> Result<(), Fault>
    requires ready { IsReady (K.has_room keeper.old (H.outside host.old).disk) K.most session.old }
    requires few { session.old.answered < 2 ^ 42 }
    ensures runs { (start : Start) (read : List ℕ) → start.acknowledges ≡ K.acknowledges → Serves (K.holds keeper.old) start read session.old (H.outside host.old)
        → Runs session.old.round.most (K.holds keeper.new) (K.recovers keeper.old (H.outside host.old)) (K.recovers keeper.new (H.outside host.new)) start read read result session.new (H.outside host.old) (H.outside host.new) }
    ensures empty { OnOk result (session.new.round.outcomes ≡ []) }
    ensures most { session.new.round.most ≡ session.old.round.most }
    ensures ready { OnOk result (IsReady (K.has_room keeper.new (H.outside host.new).disk) K.most session.new) }
    ensures answered { OnOk result (session.new.answered ≡ session.old.answered + length session.old.round.outcomes) }
    ensures keeps { OnlyAnswers (K.touches session.old.round.most) (H.outside host.old) (H.outside host.new) }
    ensures causes { Causes result (H.outside host.old) (H.outside host.new) }
    ensures unread { result ≢ Err Fault.Read }
    ensures unkept { result ≡ Err Fault.Disk → K.fails }
{
    keep_round(session, keeper, host)?;
    answer_round(rt, session, host, gate, keeper.acknowledges())
}

impl Session {
    ghost use Rattle.engine_core.specs.Serving.{Judges};

    /// A session that has read nothing.
    pub fn new(engine: Engine, round: Round, outbox: Outbox) -> Session
        ensures cutter { result.cutter ≡ [] }
        ensures engine { result.engine ≡ engine }
        ensures round { result.round ≡ round }
        ensures outbox { result.outbox ≡ outbox }
        ensures answered { result.answered ≡ 0 }
    {
        Session {
            cutter: Cutter::new(),
            engine,
            round,
            outbox,
            answered: 0,
        }
    }

    /// Takes bytes up to the end of the frame that they go on with, or of the piece, and judges the frame if it is whole.
    /// Answers how many bytes it took. What a piece cuts comes here, and whole frames don't.
    #[inline(never)]
    fn go_on(&mut self, piece: &[u8]) -> usize
        requires room { length self.old.round.outcomes < self.old.round.most }
        ensures used { (result ≤ length piece.now) × (0 < length piece.now → 0 < result) }
        ensures judges { (start : Start) (answered : List (List ℕ)) (read : List ℕ) (sent : Option (List ℕ)) → Judges start answered read sent self.old
            → Judges start answered (read ++ take result piece.now) sent self.new }
        ensures between { result < length piece.now → pending self.new.cutter ≡ [] }
        ensures more { length self.new.round.outcomes ≤ length self.old.round.outcomes + 1 }
        ensures most { self.new.round.most ≡ self.old.round.most }
        ensures sound { (answered : ℕ) → IsSound self.old.engine self.old.round.outcomes answered → IsSound self.new.engine self.new.round.outcomes answered }
        ensures capacity { self.new.engine.admission.capacity ≡ self.old.engine.admission.capacity }
        ensures evaluated { self.new.engine.evaluated ≡ self.old.engine.evaluated }
        ensures answered { self.new.answered ≡ self.old.answered }
    {
        let cut = self.cutter.take(piece);
        if !cut.whole {
            return cut.used;
        }
        self.round.judge(&mut self.engine, self.cutter.body());
        cut.used
    }

    /// Takes bytes of the frame that was begun before, as `go_on`: none where none was.
    fn finish(&mut self, piece: &[u8]) -> usize
        requires room { length self.old.round.outcomes < self.old.round.most }
        requires some { 0 < length piece.now }
        ensures used { result ≤ length piece.now }
        ensures judges { (start : Start) (answered : List (List ℕ)) (read : List ℕ) (sent : Option (List ℕ)) → Judges start answered read sent self.old
            → Judges start answered (read ++ take result piece.now) sent self.new }
        ensures between { result < length piece.now → pending self.new.cutter ≡ [] }
        ensures more { length self.new.round.outcomes ≤ length self.old.round.outcomes + result }
        ensures most { self.new.round.most ≡ self.old.round.most }
        ensures sound { (answered : ℕ) → IsSound self.old.engine self.old.round.outcomes answered → IsSound self.new.engine self.new.round.outcomes answered }
        ensures capacity { self.new.engine.admission.capacity ≡ self.old.engine.admission.capacity }
        ensures evaluated { self.new.engine.evaluated ≡ self.old.engine.evaluated }
        ensures answered { self.new.answered ≡ self.old.answered }
    {
        if self.cutter.inside() {
            return self.go_on(piece);
        }
        0
    }

    /// Takes the frame that a piece begins with, and judges it if it is whole. None was begun before. Answers how many bytes
    /// it took.
    #[inline(always)]
    fn advance(&mut self, piece: &[u8]) -> usize
        requires room { length self.old.round.outcomes < self.old.round.most }
        requires between { pending self.old.cutter ≡ [] }
        ensures used { (result ≤ length piece.now) × (0 < length piece.now → 0 < result) }
        ensures judges { (start : Start) (answered : List (List ℕ)) (read : List ℕ) (sent : Option (List ℕ)) → Judges start answered read sent self.old
            → Judges start answered (read ++ take result piece.now) sent self.new }
        ensures between { result < length piece.now → pending self.new.cutter ≡ [] }
        ensures more { length self.new.round.outcomes ≤ length self.old.round.outcomes + 1 }
        ensures most { self.new.round.most ≡ self.old.round.most }
        ensures sound { (answered : ℕ) → IsSound self.old.engine self.old.round.outcomes answered → IsSound self.new.engine self.new.round.outcomes answered }
        ensures capacity { self.new.engine.admission.capacity ≡ self.old.engine.admission.capacity }
        ensures evaluated { self.new.engine.evaluated ≡ self.old.engine.evaluated }
        ensures answered { self.new.answered ≡ self.old.answered }
    {
        if let Some(body) = whole_frame(piece) {
            self.round.judge(&mut self.engine, body);
            return body.len() + 1;
        }
        self.go_on(piece)
    }

    /// How many frames are judged before they are answered: as many as the round takes, and fewer where their records aren't
    /// shared out to several workers.
    fn enough(&self) -> usize
        requires some { 1 ≤ self.now.round.most }
        ensures some { 1 ≤ result }
        ensures within { result ≤ self.now.round.most }
    {
        let most = self.round.most();
        if self.engine.shares_out() {
            most
        } else {
            most.min(ENOUGH_ALONE)
        }
    }

    /// How many bytes are read at once into so much room: all of it, and fewer where records aren't shared out, so that what is
    /// read stays in the nearest cache.
    pub fn at_once(&self, room: usize) -> usize
        ensures some { 0 < room → 0 < result }
        ensures within { result ≤ room }
    {
        if self.engine.shares_out() {
            room
        } else {
            room.min(PIECE)
        }
    }

    /// Takes frames of a piece from an offset on, at which none is begun, up to its end or until enough frames wait. Answers
    /// the offset behind them.
    fn take_frames(&mut self, piece: &[u8], from: usize) -> usize
        requires some { 1 ≤ self.old.round.most }
        requires within { from ≤ length piece.now }
        requires between { from < length piece.now → pending self.old.cutter ≡ [] }
        ensures within { result ≤ length piece.now }
        ensures some { result < length piece.now → 0 < length self.new.round.outcomes }
        ensures judges { (start : Start) (answered : List (List ℕ)) (read : List ℕ) (sent : Option (List ℕ)) → Judges start answered (read ++ take from piece.now) sent self.old
            → Judges start answered (read ++ take result piece.now) sent self.new }
        ensures few { from + length self.new.round.outcomes ≤ result + length self.old.round.outcomes }
        ensures most { self.new.round.most ≡ self.old.round.most }
        ensures sound { IsSound self.old.engine self.old.round.outcomes self.old.answered → IsSound self.new.engine self.new.round.outcomes self.new.answered }
        ensures capacity { self.new.engine.admission.capacity ≡ self.old.engine.admission.capacity }
        ensures evaluated { self.new.engine.evaluated ≡ self.old.engine.evaluated }
        ensures answered { self.new.answered ≡ self.old.answered }
    {
        let enough = self.enough();
        let mut at = from;
        while at < piece.len() && self.round.len() < enough {
            at += self.advance(&piece[at..]);
        }
        at
    }

    /// Takes bytes of a piece from an offset on, up to its end or until enough frames wait. Answers the offset behind them.
    fn fill(&mut self, piece: &[u8], from: usize) -> usize
        requires some { 1 ≤ self.old.round.most }
        requires empty { self.old.round.outcomes ≡ [] }
        requires left { from < length piece.now }
        ensures offset { (from < result) × (result ≤ length piece.now) }
        ensures judges { (start : Start) (answered : List (List ℕ)) (read : List ℕ) (sent : Option (List ℕ)) → Judges start answered (read ++ take from piece.now) sent self.old
            → Judges start answered (read ++ take result piece.now) sent self.new }
        ensures few { from + length self.new.round.outcomes ≤ result }
        ensures most { self.new.round.most ≡ self.old.round.most }
        ensures sound { IsSound self.old.engine self.old.round.outcomes self.old.answered → IsSound self.new.engine self.new.round.outcomes self.new.answered }
        ensures capacity { self.new.engine.admission.capacity ≡ self.old.engine.admission.capacity }
        ensures evaluated { self.new.engine.evaluated ≡ self.old.engine.evaluated }
        ensures answered { self.new.answered ≡ self.old.answered }
    {
        let begun = self.finish(&piece[from..]);
        self.take_frames(piece, from + begun)
    }
}

/// Takes all bytes of a piece, and answers each frame that is whole, in rounds of at most as many frames as the session's takes.
pub fn feed<Rt: Threads + Sync, K: Keeper, H: Host, G: Gate>(
    rt: &Rt,
    session: &mut Session,
    keeper: &mut K,
    host: &mut H,
    gate: &G,
    piece: &[u8],
) -> Result<(), Fault>
    requires empty { session.old.round.outcomes ≡ [] }
    requires ready { IsReady (K.has_room keeper.old (H.outside host.old).disk) K.most session.old }
    requires few { session.old.answered + length piece.now < 2 ^ 42 }
    ensures runs { (start : Start) (read : List ℕ) → start.acknowledges ≡ K.acknowledges → Serves (K.holds keeper.old) start read session.old (H.outside host.old)
        → Runs session.old.round.most (K.holds keeper.new) (K.recovers keeper.old (H.outside host.old)) (K.recovers keeper.new (H.outside host.new)) start (read ++ piece.now) (read ++ piece.now) result session.new (H.outside host.old) (H.outside host.new) }
    ensures still { length piece.now ≡ 0 → OnOk result ((H.outside host.new).sent ≡ (H.outside host.old).sent) }
    ensures empty { OnOk result (session.new.round.outcomes ≡ []) }
    ensures most { OnOk result (session.new.round.most ≡ session.old.round.most) }
    ensures ready { OnOk result (IsReady (K.has_room keeper.new (H.outside host.new).disk) K.most session.new) }
    ensures few { OnOk result (session.new.answered ≤ session.old.answered + length piece.now) }
    ensures keeps { OnlyAnswers (K.touches session.old.round.most) (H.outside host.old) (H.outside host.new) }
    ensures causes { Causes result (H.outside host.old) (H.outside host.new) }
    ensures unread { result ≢ Err Fault.Read }
    ensures unkept { result ≡ Err Fault.Disk → K.fails }
{
    let mut at = 0;
    while at < piece.len() {
        at = session.fill(piece, at);
        settle(rt, session, keeper, host, gate)?;
    }
    Ok(())
}
