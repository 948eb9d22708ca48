//! A yard and its seats.

ghost use Rattle.std.specs.Prelude.{◌≡◌, ℕ, ◌+◌, ◌<◌, ◌≤◌, [], All, map, Some, IfOk, vec_len, vec_capacity, length, slice_get};

use crate::close::{join_seats, take_all};
use crate::job::Job;
use crate::open::{in_slots, split_seats};
use crate::room::Room;
use crate::rule::{ClaimStep, GiveStep, YardKey, YardRule};
use crate::view::SeatView;
use atomic_table::{Refused, Seat, Table};
use price_core::NoMemory;
use std::alloc::Global;
use std::snapshot::Snapshot;
use std::sync::Mutex;

/// What a claim answers: the number of a piece, or that none is left.
#[derive(Clone, Copy, Debug, PartialEq, Eq)]
pub enum Claim {
    Piece(u32),
    Done,
}

/// Work that threads share: at most 64 jobs, each a piece with the number of its place, and at most 64 seats.
#[derive(Drop)]
pub struct Yard<J: Job> {
    pub(crate) table: Table<Option<J>, SeatView<J>, YardKey<J>, YardRule<J>, Global>,
    jobs: u32,
    /// Where the jobs go when the yard is closed.
    room: Mutex<Room<J>>,
    ghost sized: { (table.shared.table_id.words ≡ 2) × (table.shared.table_id.slots ≡ jobs) × (jobs ≤ 64) },
    ghost counted: { jobs ≡ length table.shared.key.jobs.value.items },
    ghost seated: { 0 < table.shared.key.seats },
}

/// The right to claim pieces of a yard, one at a time.
#[derive(Drop)]
pub struct YardSeat<J> {
    /// It gives the seat a size, so that seats can lie in a slice.
    pub(crate) number: u32,
    pub(crate) seat: Seat<Option<J>, SeatView<J>>,
}

impl<J: Job> Yard<J> {
    ghost use Rattle.yard_core.specs.Seats.{jobs_of, seats_of, view_of, given_count, IsIdle, IsDone, IsSeatOf, HasTaken, HasClaimed, HasPlaceIn, Answers, IsFresh, IsDoneAt};

    /// A yard of these jobs, of which the job k has the place k, and as many seats as are asked for. An error drops the
    /// jobs.
    pub fn new(
        alloc: Global,
        jobs: Vec<J>,
        seats: u32,
    ) -> Result<(Yard<J>, Vec<YardSeat<J>>), NoMemory>
        requires jobs { (0 < vec_len jobs) × (vec_len jobs ≤ 64) }
        requires places { (k : ℕ) (job : J) → slice_get jobs.items k ≡ Some job → J.place_of job ≡ k }
        requires seats { (0 < seats) × (seats ≤ 64) }
        ensures jobs { IfOk result (λ made. jobs_of made.0 ≡ jobs.items) }
        ensures seats { IfOk result (λ made. (seats_of made.0 ≡ seats) × (vec_len made.1 ≡ seats)) }
        ensures fresh { IfOk result (λ made. All (IsFresh J.origin_of made.0) made.1.items) }
    {
        let count = jobs.len() as u32;
        let key = YardKey {
            jobs: Snapshot::of(&jobs),
            seats,
        };
        let room = Mutex::new(Room::new(alloc)?);
        let row = Vec::with_capacity(alloc, seats as usize)?;
        let slots = in_slots(alloc, jobs)?;
        let (table, first) = match Table::new(alloc, &[0, 0], slots, &key) {
            Ok(made) => made,
            Err(Refused { slots: _ }) => return Err(NoMemory),
        };
        let yard = Yard {
            table,
            jobs: count,
            room,
        };
        let row = split_seats(&yard, first, seats, row);
        Ok((yard, row))
    }

    /// Claims a piece, by one atomic addition; Done exactly where as many claims came before as there are jobs. The seat
    /// hasn't answered Done, and has given back what it claimed.
    pub fn claim(&self, seat: &mut YardSeat<J>) -> Claim
        requires seat { IsSeatOf J.origin_of self.now seat.old }
        requires idle { IsIdle seat.old }
        ensures seat { IsSeatOf J.origin_of self.now seat.new }
        ensures answer { (found : ℕ) × Answers J.place_of J.origin_of (length (jobs_of self.now)) seat.old seat.new found result }
    {
        let found = self
            .table
            .shared
            .fetch_add::<ClaimStep<J>>(&mut seat.seat, 0, 1);
        if found < u64::from(self.jobs) {
            Claim::Piece(found as u32)
        } else {
            Claim::Done
        }
    }

    /// Takes the job of the piece that the seat claimed.
    pub fn take(&self, seat: &mut YardSeat<J>, piece: u32) -> J
        requires seat { IsSeatOf J.origin_of self.now seat.old }
        requires claimed { HasClaimed J.place_of J.origin_of seat.old piece }
        ensures seat { IsSeatOf J.origin_of self.now seat.new }
        ensures taken { HasTaken seat.new piece }
        ensures count { given_count seat.new ≡ given_count seat.old }
        ensures job { HasPlaceIn J.place_of J.origin_of self.now piece result }
    {
        let slot = piece as usize;
        let held = self.table.shared.exchange(&mut seat.seat, slot, None);
        held.unwrap()
    }

    /// Gives the job of the piece back, worked.
    pub fn give(&self, seat: &mut YardSeat<J>, piece: u32, job: J)
        requires seat { IsSeatOf J.origin_of self.now seat.old }
        requires taken { HasTaken seat.old piece }
        requires job { HasPlaceIn J.place_of J.origin_of self.now piece job }
        requires worked { J.has_result job }
        ensures seat { IsSeatOf J.origin_of self.now seat.new }
        ensures idle { IsIdle seat.new }
        ensures count { given_count seat.new ≡ given_count seat.old + 1 }
    {
        let shared = &self.table.shared;
        drop(shared.exchange(&mut seat.seat, piece as usize, Some(job)));
        shared.fetch_or::<GiveStep>(&mut seat.seat, 1, 1 << piece);
    }

    /// Ends the yard: every job, worked, in order of places. It takes all seats of the yard, each of which has answered
    /// Done.
    pub fn close(self, seats: Vec<YardSeat<J>>) -> Vec<J>
        requires count { vec_len seats ≡ seats_of self }
        requires done { All (IsDoneAt J.origin_of self) seats.items }
        ensures count { vec_len result ≡ length (jobs_of self) }
        ensures jobs { (k : ℕ) (job : J) → slice_get result.items k ≡ Some job → HasPlaceIn J.place_of J.origin_of self k job × J.has_result job }
    {
        let last = join_seats(&self, seats);
        let Yard {
            table,
            jobs: _,
            room,
        } = self;
        let closed = table.close_with(last.seat);
        take_all(closed, room.into_inner().jobs)
    }
}
