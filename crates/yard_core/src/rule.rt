//! The rule of a yard's table, and the names of its steps.

ghost use Rattle.std.specs.Prelude.{map};
ghost use Rattle.yard_core.specs.Views.{first_view, left_view, right_view, joined, spent};
ghost use Rattle.yard_core.specs.YardState.{YardState};
ghost use Rattle.yard_core.specs.Steps.{Claims, Gives, Counts};

use crate::job::Job;
use crate::view::SeatView;
use atomic_table::{Join, Play, Split, TableRule};
use std::marker::PhantomData;
use std::snapshot::Snapshot;

/// What a yard was made of, for proofs alone.
#[derive(Drop)]
pub struct YardKey<J> {
    pub jobs: Snapshot<Vec<J>>,
    pub seats: u32,
}

/// What each step on a yard's table keeps.
pub struct YardRule<J> {
    job: PhantomData<J>,
}

impl<J: Job> TableRule<Option<J>, SeatView<J>, YardKey<J>> for YardRule<J> {
    ghost holds = { λ key. YardState J.place_of J.origin_of J.has_result key.seats (map J.origin_of key.jobs.value.items) };

    ghost first = { λ key. first_view key.seats key.jobs.value.items };
}

/// Hands one of the seats that a seat stands for to a new one.
pub struct SplitStep;

impl<J> Split<SeatView<J>> for SplitStep {
    ghost left = { left_view };

    ghost right = { right_view };
}

/// Takes in another seat.
pub struct JoinStep;

impl<J> Join<SeatView<J>> for JoinStep {
    ghost both = { joined };

    ghost spent = { spent };
}

/// Adds one to the count of claims.
pub struct ClaimStep<J> {
    job: PhantomData<J>,
}

impl<J: Job> Play<Option<J>, SeatView<J>> for ClaimStep<J> {
    ghost then = { Claims J.place_of J.origin_of };
}

/// Marks a piece as given.
pub struct GiveStep;

impl<J> Play<Option<J>, SeatView<J>> for GiveStep {
    ghost then = { Gives };
}

/// Reads which pieces are given.
pub struct CheckStep;

impl<J> Play<Option<J>, SeatView<J>> for CheckStep {
    ghost then = { Counts };
}
