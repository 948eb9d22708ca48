//! Frames that were judged and wait for their new records to be kept, and to be replied to.

ghost use Rattle.std.specs.Prelude.{◌≡◌, ◌<◌, ◌≤◌, ◌++◌, ◌∷◌, [], IfOk, length, vec_len, vec_capacity};
ghost use Rattle.wire_in.specs.Spelling.{InRange};

use journal_core::Batch;
use price_core::NoMemory;
use std::alloc::Global;
use std::marker::Model;
use std::slice;
use wire_in::{Record, Refusal};

/// The most frames of a round.
pub const ROUND_MAX: usize = 64;

/// What is replied to a frame: how many records are kept after it, or why the frame at that place is refused.
#[derive(Clone, Copy, Debug, PartialEq, Eq)]
pub enum Reply {
    Have(u64),
    Refused { place: u64, refusal: Refusal },
}

/// The replies to up to so many frames, the oldest first, and the new records among them. Its room is taken when it is made.
#[derive(Drop)]
pub struct Round {
    replies: Vec<Reply>,
    batch: Batch,
    most: usize,
}

impl Model for Round {
    ghost use Rattle.std.specs.Prelude.{vec_capacity};
    ghost use Rattle.standby_core.specs.Rounds.{RoundState, IsRound};

    ghost Value = { RoundState };

    ghost view = { λ round. record { replies = round.replies.items; records = round.batch; most = round.most } };

    ghost invariant = { λ round. IsRound (record { replies = round.replies.items; records = round.batch; most = round.most }) (vec_capacity round.replies) };
}

/// Adds a reply to a list that has room.
fn add_reply(replies: &mut Vec<Reply>, reply: Reply)
    requires room { vec_len replies.old < vec_capacity replies.old }
    ensures items { replies.new.items ≡ replies.old.items ++ reply ∷ [] }
    ensures capacity { vec_capacity replies.old ≤ vec_capacity replies.new }
{
    replies.extend_from_slice(slice::from_ref(&reply)).unwrap();
}

impl Round {
    /// A round of no frames, which takes up to so many, at most 64.
    pub fn new(alloc: Global, most: usize) -> Result<Round, NoMemory>
        requires { most ≤ ROUND_MAX }
        ensures { IfOk result (λ round. round ≡ record { replies = []; records = []; most = most }) }
    {
        Ok(Round {
            replies: Vec::with_capacity(alloc, most)?,
            batch: Batch::new(alloc)?,
            most,
        })
    }

    /// Adds a reply behind the others.
    pub fn push_reply(&mut self, reply: Reply)
        requires { length self.old.replies < self.old.most }
        ensures { self.new ≡ record self.old { replies = self.old.replies ++ reply ∷ [] } }
    {
        // It has room for them all.
        add_reply(&mut self.replies, reply);
    }

    /// Adds a reply behind the others, and the new record of its frame.
    pub fn push(&mut self, reply: Reply, x: &Record)
        requires room { length self.old.replies < self.old.most }
        requires range { InRange x.now }
        ensures { self.new ≡ record self.old { replies = self.old.replies ++ reply ∷ []; records = self.old.records ++ x.now ∷ [] } }
    {
        self.batch.push(*x);
        add_reply(&mut self.replies, reply);
    }

    /// The replies, the oldest first.
    pub fn replies(&self) -> &[Reply]
        ensures replies { result.now ≡ self.now.replies }
        ensures most { length self.now.replies ≤ self.now.most }
    {
        &self.replies
    }

    /// The new records, the oldest first.
    pub fn records(&self) -> &Batch
        ensures records { result.now ≡ self.now.records }
        ensures most { length self.now.records ≤ self.now.most }
    {
        &self.batch
    }

    /// How many frames it has.
    pub fn len(&self) -> usize
        ensures len { result ≡ length self.now.replies }
        ensures most { length self.now.replies ≤ ROUND_MAX }
    {
        self.replies.len()
    }

    /// The most frames that it takes.
    pub fn most(&self) -> usize
        ensures { result ≡ self.now.most }
    {
        self.most
    }

    /// Removes the records, once they are kept. The replies to their frames stay.
    pub fn clear_records(&mut self)
        ensures { self.new ≡ record self.old { records = [] } }
    {
        self.batch.clear();
    }

    /// Removes all replies, where no record waits to be kept. The room stays.
    pub fn clear_replies(&mut self)
        requires kept { self.old.records ≡ [] }
        ensures { self.new ≡ record self.old { replies = [] } }
    {
        self.replies.clear();
    }
}
