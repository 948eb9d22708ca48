//! Jobs that workers share.

ghost use Rattle.std.specs.Prelude.{◌≡◌, ℕ, ◌<◌, ◌≤◌, IfOk, Some, slice_get, vec_len};
ghost use Rattle.yard_core.specs.Seats.{IsIdle, IsSeatOf, IsAfterRound};

use super::meeting::Meeting;
use crate::square::{Square, square_of};
use std::alloc::Global;
use std::process::Abort;
use std::test::Fail;
use std::thread::Threads;
use yard_core::{Claim, Gate, Job, OpenGate, Yard, YardSeat, work_all};

/// The jobs to square so many numbers from that one on.
fn squares(alloc: Global, first: u32, count: u32) -> Result<Vec<Square>, Fail>
    requires { count ≤ 64 }
    ensures count { IfOk result (λ jobs. vec_len jobs ≡ count) }
    ensures places { IfOk result (λ jobs. (k : ℕ) (job : Square) → slice_get jobs.items k ≡ Some job → job.place ≡ k) }
{
    let mut jobs = Vec::with_capacity(alloc, 64)?;
    for place in 0..count {
        jobs.push_reserved(square_of(place, first.wrapping_add(place)));
    }
    Ok(jobs)
}

/// The squares of so many numbers from that one on, in order.
fn expect_squares<R: Abort>(rt: &R, done: &[Square], first: u32, count: u32) {
    assert!(rt; done.len() == count as usize);
    let mut place = 0u32;
    for job in done {
        let number = u64::from(first.wrapping_add(place));
        assert!(rt; job.worked() && job.place() == place && job.answer == number * number);
        place = place.wrapping_add(1);
    }
}

/// Squares so many numbers from that one on by so many workers, which pass the gate.
fn expect_worked<R: Abort + AllocGlobal + Threads + Sync, G: Gate>(
    rt: &R,
    first: u32,
    count: u32,
    workers: u32,
    gate: &G,
) -> Result<(), Fail>
    requires count { (0 < count) × (count ≤ 64) }
    requires workers { (0 < workers) × (workers ≤ 64) }
{
    let jobs = squares(rt.alloc(), first, count)?;
    let done = work_all(rt, rt.alloc(), jobs, workers, gate)?;
    expect_squares(rt, &done, first, count);
    Ok(())
}

#[test]
fn every_job_comes_back_worked_and_in_order(rt: HostRuntime) -> Result<(), Fail> {
    for workers in [1, 2, 64] {
        expect_worked(&rt, 0, 1, workers, &OpenGate)?;
        expect_worked(&rt, 0, 2, workers, &OpenGate)?;
        expect_worked(&rt, 0, 64, workers, &OpenGate)?;
    }
    Ok(())
}

/// One round of a seat, in which it claims what is wanted.
fn expect_round<R: Abort>(rt: &R, yard: &Yard<Square>, seat: &mut YardSeat<Square>, want: Claim)
    requires seat { IsSeatOf ⟦<Square as Job>⟧.origin_of yard.now seat.old }
    requires idle { IsIdle seat.old }
    ensures seat { IsSeatOf ⟦<Square as Job>⟧.origin_of yard.now seat.new }
    ensures after { IsAfterRound seat.new want }
{
    let claim = yard.claim(seat);
    if let Claim::Piece(piece) = claim {
        let mut job = yard.take(seat, piece);
        job.work();
        yard.give(seat, piece, job);
    }
    assert!(rt; claim == want);
}

#[test]
fn pieces_are_claimed_in_order_whichever_seat_claims(rt: HostRuntime) -> Result<(), Fail> {
    let jobs = squares(rt.alloc(), 3, 3)?;
    let (yard, mut seats) = Yard::new(rt.alloc(), jobs, 2)?;
    let mut second = seats.pop().unwrap();
    let mut first = seats.pop().unwrap();
    expect_round(&rt, &yard, &mut first, Claim::Piece(0));
    expect_round(&rt, &yard, &mut second, Claim::Piece(1));
    expect_round(&rt, &yard, &mut first, Claim::Piece(2));
    expect_round(&rt, &yard, &mut first, Claim::Done);
    expect_round(&rt, &yard, &mut second, Claim::Done);
    seats.push(first)?;
    seats.push(second)?;
    expect_squares(&rt, &yard.close(seats), 3, 3);
    Ok(())
}

#[test]
fn two_pieces_meet(rt: HostRuntime) -> Result<(), Fail> {
    let meeting = Meeting::new();
    expect_worked(&rt, 3, 2, 2, &meeting)?;
    assert!(rt; meeting.have_met());
    Ok(())
}
