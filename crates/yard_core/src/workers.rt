//! All jobs of a yard, worked in several threads.

ghost use Rattle.std.specs.Prelude.{◌≡◌, ℕ, ◌<◌, ◌≤◌, All, map, Some, IfOk, vec_len, slice_get};
ghost use Rattle.yard_core.specs.YardState.{HasPlace};
ghost use Rattle.yard_core.specs.Seats.{IsFresh, IsDoneAt};

use crate::gate::Gate;
use crate::job::Job;
use crate::yard::{Claim, Yard, YardSeat};
use price_core::NoMemory;
use std::alloc::Global;
use std::thread::{self, Threads};

/// One seat claims, works and gives back until no piece is left.
fn run_seat<J: Job, G: Gate>(yard: &Yard<J>, gate: &G, seat: &mut YardSeat<J>)
    requires { IsFresh J.origin_of yard.now seat.old }
    ensures { IsDoneAt J.origin_of yard.now seat.new }
{
    while let Claim::Piece(piece) = yard.claim(seat) {
        let mut job = yard.take(seat, piece);
        gate.enter(piece);
        job.work();
        yard.give(seat, piece, job);
    }
}

/// All seats run, in so many threads.
fn run_seats<J: Job, G: Gate, R: Threads + Sync>(
    rt: &R,
    yard: &Yard<J>,
    gate: &G,
    threads: usize,
    seats: &mut [YardSeat<J>],
)
    requires threads { 0 < threads }
    requires fresh { All (IsFresh J.origin_of yard.now) seats.old }
    ensures { All (IsDoneAt J.origin_of yard.now) seats.new }
{
    thread::for_each_mut(
        rt,
        seats,
        threads,
        &|_: usize, seat: &mut YardSeat<J>|
            requires { IsFresh J.origin_of yard.now seat.now }
            ensures { IsDoneAt J.origin_of yard.entry.now seat.exit.now }
        { run_seat(yard, gate, seat) },
    );
}

/// Works all jobs, of which the job k has the place k, by as many workers as are asked for, each in a thread of its own
/// where one can be started. Each worker passes the gate before it works a piece. The jobs come back in order of places.
/// An error drops them.
pub fn work_all<J: Job, G: Gate, R: Threads + Sync>(
    rt: &R,
    alloc: Global,
    jobs: Vec<J>,
    workers: u32,
    gate: &G,
) -> Result<Vec<J>, NoMemory>
    requires jobs { (0 < vec_len jobs) × (vec_len jobs ≤ 64) }
    requires places { (k : ℕ) (job : J) → slice_get jobs.items k ≡ Some job → J.place_of job ≡ k }
    requires workers { (0 < workers) × (workers ≤ 64) }
    ensures count { IfOk result (λ done. vec_len done ≡ vec_len jobs) }
    ensures jobs { IfOk result (λ done. (k : ℕ) (job : J) → slice_get done.items k ≡ Some job → HasPlace J.place_of J.origin_of (map J.origin_of jobs.items) k job × J.has_result job) }
{
    let (yard, mut seats) = Yard::new(alloc, jobs, workers)?;
    run_seats(rt, &yard, gate, workers as usize, seats.as_mut_slice());
    Ok(yard.close(seats))
}
