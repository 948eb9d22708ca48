//! A generated day.

ghost use Rattle.gen_core.specs.Generated.{IsPlan};

use super::add;
use super::parts::{Blocks, expect_messages};
use gen_core::{DayPlan, Generator};
use std::process::Abort;
use std::test::Fail;
use std::thread::Threads;
use wire_in::Record;
use yard_core::OpenGate;

/// 20 symbols: 50,021 records with the day and the listings.
fn plan() -> DayPlan
    ensures { IsPlan result }
{
    DayPlan {
        seed: 1,
        symbols: 20,
        records: 50_000,
    }
}

/// Adds the records of that day.
fn draw(generator: &mut Generator, xs: &mut Vec<Record>) -> Result<(), Fail> {
    for _ in 0..100_000u32 {
        match generator.next() {
            Some(x) => add(xs, x)?,
            None => break,
        }
    }
    Ok(())
}

/// In one, two and four parts the day gives what one market gives.
fn expect_day<R: Abort + AllocGlobal + Threads + Sync>(rt: &R, xs: &[Record]) -> Result<(), Fail> {
    let most = 4_000;
    assert!(rt; xs.len() == 50_021);
    for workers in [1, 2, 4] {
        let messages = expect_messages(rt, workers, Blocks { xs, most }, &OpenGate)?;
        assert!(rt; messages == 4_829);
    }
    Ok(())
}

#[test]
fn a_generated_day_gives_the_same_in_one_two_and_four_parts(rt: HostRuntime) -> Result<(), Fail> {
    let mut generator = Generator::new(rt.alloc(), &plan())?;
    let mut xs = Vec::new(rt.alloc());
    draw(&mut generator, &mut xs)?;
    expect_day(&rt, &xs)
}
