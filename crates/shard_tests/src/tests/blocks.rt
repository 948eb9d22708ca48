//! Blocks in any number of parts.

use super::meeting::Meeting;
use super::parts::{Blocks, Parts, expect_blocks, expect_messages};
use super::{add, after_open, at, clock, day, index_tick, letter_of, listing, opening, session};
use std::process::Abort;
use std::test::Fail;
use std::thread::Threads;
use wire_in::Record;
use yard_core::OpenGate;

/// Two days of three stocks, with a market-wide halt.
fn two_days() -> [Record; 13] {
    let (listed, start) = (at(32_400), at(36_000));
    [
        day(3),
        listing(listed, letter_of(0)),
        listing(listed, letter_of(1)),
        clock(start),
        opening(start, 0),
        opening(start, 1),
        index_tick(start, 465_000),
        clock(at(36_900)),
        day(4),
        listing(listed, letter_of(2)),
        listing(listed, letter_of(0)),
        clock(start),
        opening(start, 2),
    ]
}

#[test]
fn two_days_give_the_same_in_any_number_of_parts(rt: HostRuntime) -> Result<(), Fail> {
    for most in [65_536, 1, 5] {
        expect_blocks(&rt, &two_days(), &[1, 2, 3, 64], most)?;
    }
    Ok(())
}

#[test]
fn some_hundred_records_give_the_same_in_any_number_of_parts(rt: HostRuntime) -> Result<(), Fail> {
    let mut xs = Vec::new(rt.alloc());
    session(8, 400, &mut xs)?;
    for most in [65_536, 100] {
        expect_blocks(&rt, &xs, &[1, 2, 3, 7, 64], most)?;
    }
    Ok(())
}

#[test]
fn one_symbol_gives_the_same_in_many_parts(rt: HostRuntime) -> Result<(), Fail> {
    let mut xs = Vec::new(rt.alloc());
    session(1, 200, &mut xs)?;
    for most in [65_536, 7] {
        expect_blocks(&rt, &xs, &[64], most)?;
    }
    Ok(())
}

/// A block of no records gives nothing, before and behind two days.
fn expect_nothing<R: Abort + Threads + Sync>(rt: &R, parts: &mut Parts) -> Result<(), Fail> {
    let before = parts.give(rt, &[], &OpenGate)?;
    let given = parts.give(rt, &two_days(), &OpenGate)?;
    let behind = parts.give(rt, &[], &OpenGate)?;
    assert!(rt; before == 0 && given > 0 && behind == given);
    Ok(())
}

#[test]
fn a_block_of_no_records_gives_nothing(rt: HostRuntime) -> Result<(), Fail> {
    let mut parts = Parts::new(&rt, 3)?;
    expect_nothing(&rt, &mut parts)
}

/// What comes behind a session, one a second.
#[derive(Clone, Copy)]
enum Tail {
    Clocks,
    TradesOf(u16),
}

/// A session of eight symbols of 100 records, and 100 records behind it.
fn with_tail(tail: Tail, xs: &mut Vec<Record>) -> Result<(), Fail> {
    session(8, 91, xs)?;
    for second in 100..200 {
        let moment = after_open(second);
        add(
            xs,
            match tail {
                Tail::Clocks => clock(moment),
                Tail::TradesOf(symbol) => opening(moment, symbol),
            },
        )?;
    }
    Ok(())
}

#[test]
fn a_block_of_ticks_alone_gives_the_same_in_any_number_of_parts(
    rt: HostRuntime,
) -> Result<(), Fail> {
    let mut xs = Vec::new(rt.alloc());
    with_tail(Tail::Clocks, &mut xs)?;
    expect_blocks(&rt, &xs, &[1, 2, 7, 64], 100)
}

#[test]
fn a_block_of_one_symbol_alone_gives_the_same_in_any_number_of_parts(
    rt: HostRuntime,
) -> Result<(), Fail> {
    let mut xs = Vec::new(rt.alloc());
    with_tail(Tail::TradesOf(3), &mut xs)?;
    expect_blocks(&rt, &xs, &[1, 2, 7, 64], 100)
}

#[test]
fn two_pieces_meet(rt: HostRuntime) -> Result<(), Fail> {
    let mut xs = Vec::new(rt.alloc());
    session(8, 4_000, &mut xs)?;
    let meeting = Meeting::new();
    let blocks = Blocks {
        xs: &xs,
        most: 65_536,
    };
    assert!(rt; expect_messages(&rt, 2, blocks, &meeting)? > 0 && meeting.have_met());
    Ok(())
}
