//! The slots and the seats of a new yard.

ghost use Rattle.std.specs.Prelude.{◌≡◌, ◌<◌, ◌≤◌, [], All, map, Some, IfOk, vec_len, vec_capacity};
ghost use Rattle.yard_core.specs.Views.{first_view};
ghost use Rattle.yard_core.specs.Seats.{jobs_of, seats_of, table_of, IsFresh};

use crate::job::Job;
use crate::rule::SplitStep;
use crate::view::SeatView;
use crate::yard::{Yard, YardSeat};
use atomic_table::Seat;
use std::alloc::{AllocError, Global};

/// A seat of the table that a yard stands on.
pub type TableSeat<J> = Seat<Option<J>, SeatView<J>>;

/// The jobs, each in a slot of its own.
pub fn in_slots<J: Drop>(alloc: Global, jobs: Vec<J>) -> Result<Vec<Option<J>>, AllocError>
    ensures { IfOk result (λ slots. slots.items ≡ map Some jobs.items) }
{
    jobs.into_iter().map(|job| Some(job)).collect(alloc)
}

/// As many seats as were asked for, split from the first one, which stands for all.
pub fn split_seats<J: Job>(
    yard: &Yard<J>,
    mut first: TableSeat<J>,
    seats: u32,
    mut row: Vec<YardSeat<J>>,
) -> Vec<YardSeat<J>>
    requires table { first.table_id ≡ table_of yard.now }
    requires first { first.me ≡ (first_view seats (jobs_of yard.now), []) }
    requires seats { (0 < seats) × (seats ≡ seats_of yard.now) }
    requires room { (row.items ≡ []) × (seats ≤ vec_capacity row) }
    ensures count { vec_len result ≡ seats }
    ensures fresh { All (IsFresh J.origin_of yard.now) result.items }
{
    for number in 1..seats {
        let seat = yard.table.shared.split_seat::<SplitStep>(&mut first);
        row.push_reserved(YardSeat { number, seat });
    }
    row.push_reserved(YardSeat {
        number: 0,
        seat: first,
    });
    row
}
