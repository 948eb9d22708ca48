//! The end of a yard: its seats become one, and its jobs leave their slots.

ghost use Rattle.std.specs.Prelude.{◌≡◌, ℕ, ◌<◌, ◌≤◌, [], All, map, Some, vec_len, vec_capacity};
ghost use Rattle.std.specs.Slots.{slots_items, slots_len, IsFull};
ghost use mathlib.Core.Option.{some};
ghost use lib.ListN.{get_elem?};
ghost use Rattle.yard_core.specs.Views.{IsLast};
ghost use Rattle.yard_core.specs.Seats.{jobs_of, seats_of, table_of, view_of, hand_of, IsDoneAt};

use crate::job::Job;
use crate::rule::{CheckStep, JoinStep};
use crate::yard::{Yard, YardSeat};
use atomic_table::Closed;
use std::alloc::Global;

/// One seat that stands for all.
pub fn join_seats<J: Job>(yard: &Yard<J>, mut seats: Vec<YardSeat<J>>) -> YardSeat<J>
    requires count { (vec_len seats ≡ seats_of yard.now) × (0 < vec_len seats) }
    requires done { All (IsDoneAt J.origin_of yard.now) seats.items }
    ensures table { result.seat.table_id ≡ table_of yard.now }
    ensures last { IsLast (view_of result) }
    ensures hand { hand_of result ≡ [] }
{
    let mut last = seats.pop().unwrap();
    while let Some(other) = seats.pop() {
        yard.table
            .shared
            .join_seat::<JoinStep>(&mut last.seat, other.seat);
    }
    yard.table.shared.load::<CheckStep>(&mut last.seat, 1);
    last
}

/// The jobs, in order of their slots.
pub fn take_all<J: Drop>(mut closed: Closed<Option<J>, Global>, mut jobs: Vec<J>) -> Vec<J>
    requires full { IsFull closed.slots }
    requires jobs { (k : ℕ) → k < slots_len closed.slots → (job : J) × (get_elem? (slots_items closed.slots) k ≡ some (Some job)) }
    requires room { (jobs.items ≡ []) × (slots_len closed.slots ≤ vec_capacity jobs) }
    ensures { map Some result.items ≡ slots_items closed.slots }
{
    for i in 0..closed.slot_count() {
        jobs.push_reserved(closed.take(i).unwrap());
    }
    closed.free();
    jobs
}
