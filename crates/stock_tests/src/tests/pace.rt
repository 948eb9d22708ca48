//! Ticks take no time for each trade.

use super::scene::Scene;
use super::{clock, moment, trade};
use std::process::Abort;
use std::rt::Clock;
use std::time::{Duration, Instant};
use wire_in::Record;

/// The nanoseconds of 09:30:00.
const OPEN: u64 = 34_200_000_000_000;

/// Whether a record brings messages where it is to bring some, and else none.
fn brings(scene: &mut Scene, x: &Record, some: bool) -> bool {
    scene.take(x) && scene.out.items().is_empty() != some
}

/// An opening trade at 09:30:00 and as many of the same price as asked for, a nanosecond apart. Whether the first one alone
/// brings messages.
fn trade_all(scene: &mut Scene, trades: u32) -> bool {
    let mut is_right = true;
    for number in 0..trades {
        let is_first = number == 0;
        let t = moment(OPEN + u64::from(number));
        is_right &= brings(
            scene,
            &trade(t, number, 500_000, u16::from(is_first)),
            is_first,
        );
    }
    is_right
}

/// As many ticks as asked for, a nanosecond apart, from a nanosecond of the session on. Whether they bring nothing.
fn are_quiet(scene: &mut Scene, ticks: u64, from: u64) -> bool {
    let mut is_right = true;
    for tick in 0..ticks {
        let nanos = OPEN.saturating_add(from).saturating_add(tick);
        is_right &= brings(scene, &clock(moment(nanos)), false);
    }
    is_right
}

/// Whether a new stock, trades and then ticks from a nanosecond of the session on bring what they should.
fn is_right<R: Abort + AllocGlobal>(rt: &R, trades: u32, ticks: u64, from: u64) -> bool {
    let mut scene = Scene::new(rt);
    scene.begin() && trade_all(&mut scene, trades) && are_quiet(&mut scene, ticks, from)
}

/// Trades, and then ticks from a nanosecond of the session on, take less than five seconds.
fn expect_fast<R: Abort + AllocGlobal + Clock>(rt: &R, trades: u32, ticks: u64, from: u64) {
    let start = Instant::now(rt).expect(rt, "the time");
    assert!(rt; is_right(rt, trades, ticks, from));
    let taken = start.elapsed(rt).expect(rt, "the time");
    assert!(rt; taken < Duration::from_secs(5));
}

// A look at each trade at each tick would be 20,000,000,000 looks.
#[test]
fn clock_ticks_take_no_time_for_each_of_50_000_trades(rt: HostRuntime) {
    expect_fast(&rt, 50_000, 400_000, 60_000_000_000)
}

// A look at each trade that is left at each tick would be 200,000,000 looks.
#[test]
fn trades_that_leave_one_by_one_take_no_time_for_each_of_20_000(rt: HostRuntime) {
    expect_fast(&rt, 20_000, 20_000, 300_000_000_000)
}
