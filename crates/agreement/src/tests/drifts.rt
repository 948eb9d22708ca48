//! Prices that drift by more than one per cent, while old trades leave the mean.

use super::agrees;
use Stretch::{Clocks, Trades};
use price_core::Tier;
use session_core::Moment;
use std::alloc::Global;
use test_days::lines::{Line, clock, day, listing, trade};
use test_days::records_of;

/// Lines 20 seconds apart: so many trades, whose prices rise by so much from one to the next, or so many clocks.
#[derive(Clone, Copy)]
enum Stretch {
    Trades { count: u32, rise: u64 },
    Clocks { count: u32 },
}

/// The second of the day, and the number and the price of the next trade.
#[derive(Clone, Copy)]
struct Drift {
    seconds: u64,
    number: u32,
    units: u64,
}

impl Drift {
    /// A moment, after which the next one is 20 seconds later.
    fn moment(&mut self) -> Moment {
        let seconds = self.seconds.min(86_399);
        self.seconds = seconds + 20;
        Moment::new(seconds * 1_000_000_000).unwrap()
    }

    /// The next trade; the first of the day opens.
    fn trade(&mut self, rise: u64) -> Line {
        let (number, units) = (self.number, self.units);
        self.number = number.wrapping_add(1);
        self.units = units.wrapping_add(rise);
        trade(self.moment(), number, units, u16::from(number == 0))
    }

    /// The next line of a stretch.
    fn line(&mut self, stretch: Stretch) -> Line {
        match stretch {
            Trades { rise, .. } => self.trade(rise),
            Clocks { .. } => clock(self.moment()),
        }
    }

    /// Adds the lines of a stretch. Whether there is memory for them.
    fn add(&mut self, stretch: Stretch, lines: &mut Vec<Line>) -> bool {
        let (Trades { count, .. } | Clocks { count }) = stretch;
        let mut is_right = true;
        for _ in 0..count {
            let line = self.line(stretch);
            is_right &= lines.extend_from_slice(&[line]).is_ok();
        }
        is_right
    }
}

/// Adds stretches from 09:30:00 on. Whether there is memory for them.
fn add_all(stretches: &[Stretch], lines: &mut Vec<Line>) -> bool {
    let mut drift = Drift {
        seconds: 34_200,
        number: 0,
        units: 500_000,
    };
    let mut is_right = true;
    for stretch in stretches {
        is_right &= drift.add(*stretch, lines);
    }
    is_right
}

/// Adds a day on which ABC is listed, with these stretches. Whether there is memory for it.
fn add_day(stretches: &[Stretch], lines: &mut Vec<Line>) -> bool {
    let head = [day(3), listing(Tier::One, 10, 500_000)];
    lines.extend_from_slice(&head).is_ok() && add_all(stretches, lines)
}

/// Whether the market gives the messages that the list gives of these lines, and moves the bands so many times at least.
fn agrees_on(alloc: Global, lines: &[Line], least_moves: usize) -> bool {
    match records_of(alloc, lines) {
        Ok(xs) => agrees(alloc, &xs, least_moves),
        Err(_) => false,
    }
}

/// The same of a day with these stretches.
fn agree(alloc: Global, stretches: &[Stretch], least_moves: usize) -> bool {
    let mut lines = Vec::new(alloc);
    add_day(stretches, &mut lines) && agrees_on(alloc, &lines, least_moves)
}

#[test]
fn slow_drifts_whose_old_trades_leave_at_ticks_move_the_bands_where_the_list_does(rt: HostRuntime) {
    let slow = Trades {
        count: 10,
        rise: 400,
    };
    let ticks = Clocks { count: 6 };
    let stretches = [
        slow, ticks, slow, ticks, slow, ticks, slow, ticks, slow, ticks,
    ];
    assert!(&rt; agree(rt.alloc(), &stretches, 3));
}

#[test]
fn a_far_trade_moves_the_bands_where_those_before_it_leave(rt: HostRuntime) {
    let near = Trades { count: 8, rise: 0 };
    let jump = Trades {
        count: 2,
        rise: 6_000,
    };
    let alone = Clocks { count: 20 };
    let stretches = [near, jump, alone, near, alone];
    assert!(&rt; agree(rt.alloc(), &stretches, 1));
}
