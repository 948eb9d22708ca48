//! Frames that are judged, and then wait to be kept and answered together.

ghost use Rattle.std.specs.Prelude.{◌≡◌, ◌<◌, ◌≤◌, ◌+◌, ◌++◌, ◌∷◌, [], ℕ, List, Option, None, All, IfOk, length, vec_len, vec_capacity};
ghost use Rattle.wire_in.specs.declared.record.Record.{Record};
ghost use Rattle.wire_in.specs.Spelling.{InRange};
ghost use Rattle.rulebook.specs.Sent.{judged, record_or_refusal};
ghost use Rattle.market_core.specs.AdmissionState as admissions;
ghost use Rattle.market_core.specs.AdmissionState.{refusal_of};
ghost use Rattle.engine_core.specs.Rounds.{joined, records_in, Rise};

use crate::engine::{Engine, judge};
use crate::refused::Refused;
use market_core::Admission;
use price_core::NoMemory;
use std::alloc::Global;
use std::marker::Model;
use wire_in::{Record, Refusal, blank, decode_into};

/// The most frames of a round.
pub const ROUND_MAX: usize = 65_536;

/// The outcomes of up to so many frames, the oldest first: of the accepted ones the records, and the refused ones among them.
/// Its room is taken when it is made.
#[derive(Drop)]
pub struct Round {
    refused: Vec<Refused>,
    accepted: Vec<Record>,
    most: usize,
}

impl Model for Round {
    ghost use Rattle.std.specs.Prelude.{List, vec_capacity};
    ghost use Rattle.engine_core.specs.Rounds.{RoundState, IsRound, joined};

    ghost Value = { RoundState };

    ghost view = { λ round. record { outcomes = joined 0 round.refused.items round.accepted.items; most = round.most } };

    ghost invariant = { λ round. IsRound (record { outcomes = joined 0 round.refused.items round.accepted.items; most = round.most }) round.refused.items round.accepted.items (vec_capacity round.refused) (vec_capacity round.accepted) };
}

/// Why the frame of a body, whose record is put in a place, isn't accepted next, if it isn't.
#[inline(always)]
#[tactic(auto, using(crate::proofs::Rounds::placed_range))]
fn judge_in(admission: &Admission, place: &mut Record, body: &[u8]) -> Option<Refusal>
    requires short { length body.now ≤ 255 }
    ensures exact { (held : List Record) → admissions.Represents admission.now held
        → record_or_refusal place.new result ≡ judged admission.now.capacity held body.now }
    ensures admissible { result ≡ None → refusal_of admission.now place.new ≡ None }
    ensures range { IfOk (record_or_refusal place.new result) InRange }
{
    let read = decode_into(body, place);
    judge(admission, place, read)
}

/// Adds a copy of a value behind the others of a list that has room.
#[inline(always)]
fn push_copy<T: Copy>(list: &mut Vec<T>, x: &T)
    requires room { vec_len list.old < vec_capacity list.old }
    ensures items { list.new.items ≡ list.old.items ++ x.now ∷ [] }
    ensures capacity { vec_capacity list.new ≡ vec_capacity list.old }
{
    list.push_reserved(*x);
}

/// Removes the last record of a list, and has its frame among the refused ones.
fn refuse(refused: &mut Vec<Refused>, records: &mut Vec<Record>, refusal: Refusal)
    requires room { vec_len refused.old < vec_capacity refused.old }
    ensures records { (before : List Record) (x : Record) → records.old.items ≡ before ++ x ∷ [] → records.new.items ≡ before }
    ensures refused { (before : List Record) (x : Record) → records.old.items ≡ before ++ x ∷ []
        → refused.new.items ≡ refused.old.items ++ record { before = length before; refusal = refusal } ∷ [] }
    ensures capacity { vec_capacity refused.new ≡ vec_capacity refused.old }
    ensures room { vec_capacity records.new ≡ vec_capacity records.old }
{
    records.pop();
    let before = records.len();
    push_copy(refused, &Refused { before, refusal });
}

impl Round {
    ghost use Rattle.engine_core.specs.Sessions.{Start};
    ghost use Rattle.engine_core.specs.Answering.{Answers};
    ghost use Rattle.engine_core.specs.Serving.{IsSound};

    /// A round of no frames, which takes up to so many.
    pub fn new(alloc: Global, most: usize) -> Result<Round, NoMemory>
        requires most { most ≤ ROUND_MAX }
        ensures empty { IfOk result (λ round. round.outcomes ≡ []) }
        ensures most { IfOk result (λ round. round.most ≡ most) }
    {
        Ok(Round {
            refused: Vec::with_capacity(alloc, most)?,
            accepted: Vec::with_capacity(alloc, most)?,
            most,
        })
    }

    /// Judges the frame of a body, and admits its record where it is accepted. The record is read into its place behind the
    /// accepted ones. The frame waits to be answered.
    #[inline(always)]
    pub fn judge(&mut self, engine: &mut Engine, body: &[u8])
        requires short { length body.now ≤ 255 }
        requires room { length self.old.outcomes < self.old.most }
        ensures answers { (start : Start) (answered all after : List (List ℕ)) (number : ℕ) (outbox : List ℕ) (sent : Option (List ℕ)) → after ≡ all ++ body.now ∷ []
            → Answers start answered all number self.old.outcomes [] engine.old outbox sent → Answers start answered after number self.new.outcomes [] engine.new outbox sent }
        ensures more { length self.new.outcomes ≡ length self.old.outcomes + 1 }
        ensures most { self.new.most ≡ self.old.most }
        ensures sound { (answered : ℕ) → IsSound engine.old self.old.outcomes answered → IsSound engine.new self.new.outcomes answered }
        ensures rest { engine.new ≡ record engine.old { admission = engine.new.admission } }
        ensures capacity { engine.new.admission.capacity ≡ engine.old.admission.capacity }
    {
        // It has room for them all.
        let place = self.accepted.len();
        push_copy(&mut self.accepted, &blank());
        match judge_in(&engine.admission, &mut self.accepted[place], body) {
            None => engine.admit(&self.accepted[place]),
            Some(refusal) => refuse(&mut self.refused, &mut self.accepted, refusal),
        }
    }

    /// The refused frames, the oldest first.
    pub fn refused(&self) -> &[Refused]
        ensures whole { joined 0 result.now (records_in self.now.outcomes) ≡ self.now.outcomes }
        ensures rise { Rise 0 result.now (length (records_in self.now.outcomes)) }
        ensures count { length self.now.outcomes ≡ length (records_in self.now.outcomes) + length result.now }
        ensures most { length self.now.outcomes ≤ ROUND_MAX }
    {
        &self.refused
    }

    /// The accepted records among them, the oldest first.
    #[tactic(auto, using(crate::proofs::Rounds::few_records))]
    pub fn accepted(&self) -> &Vec<Record>
        ensures accepted { result.now.items ≡ records_in self.now.outcomes }
        ensures few { length result.now.items ≤ self.now.most }
        ensures most { self.now.most ≤ ROUND_MAX }
        ensures ranges { All InRange result.now.items }
    {
        &self.accepted
    }

    /// How many frames it has.
    pub fn len(&self) -> usize
        ensures len { result ≡ length self.now.outcomes }
        ensures most { length self.now.outcomes ≤ ROUND_MAX }
    {
        self.accepted.len() + self.refused.len()
    }

    /// The most frames that it takes.
    pub fn most(&self) -> usize
        ensures { result ≡ self.now.most }
    {
        self.most
    }

    /// Removes all outcomes. The room stays.
    pub fn clear(&mut self)
        ensures { self.new ≡ record self.old { outcomes = [] } }
    {
        self.refused.clear();
        self.accepted.clear();
    }
}
