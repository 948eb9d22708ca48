//! Levels of the index, and the halts that they bring.

use super::script::{Step, play};
use super::values::{day, index, moment};
use Event::{Start, Stopped, Time, Value};
use breaker_core::Breaker;
use session_core::Close::{self, Early, Regular};
use session_core::Level;

/// What comes to the circuit breakers of a day after an index close of 5000.00, with the wanted answer. Times are nanoseconds
/// of the day, and index values are in hundredths of a point.
#[derive(Clone, Copy)]
enum Event {
    /// The day begins.
    Start,
    /// An index value at a time of a day with that close, and the level that it declares.
    Value(Close, u64, u32, Option<Level>),
    /// A time comes: whether a halt ends.
    Time(u64, bool),
    /// Whether a halt is in effect.
    Stopped(bool),
}

fn start() -> Breaker {
    Breaker::start(index(500_000))
}

impl Step<Breaker> for Event {
    fn holds(&self, breaker: &mut Breaker) -> bool {
        match *self {
            Start => {
                *breaker = start();
                true
            }
            Value(close, nanos, value, want) => {
                breaker.index(moment(nanos), index(value), &day(close)) == want
            }
            Time(nanos, want) => breaker.time(moment(nanos)) == want,
            Stopped(want) => breaker.stopped() == want,
        }
    }
}

const MINUTE: u64 = 60_000_000_000;

const AT_9_30: u64 = 570 * MINUTE;

const AT_10_00: u64 = 600 * MINUTE;

const AT_12_25: u64 = 745 * MINUTE;

const AT_12_40: u64 = 760 * MINUTE;

const AT_13_00: u64 = 780 * MINUTE;

const AT_15_25: u64 = 925 * MINUTE;

const AT_15_30: u64 = 930 * MINUTE;

const AT_15_40: u64 = 940 * MINUTE;

#[test]
fn a_level_is_reached_at_its_percentage(rt: HostRuntime) {
    play(
        &rt,
        &mut start(),
        &[
            Value(Regular, AT_10_00, 465_001, None),
            Stopped(false),
            Start,
            Value(Regular, AT_10_00, 465_000, Some(Level::One)),
            Stopped(true),
            Start,
            Value(Regular, AT_10_00, 435_001, Some(Level::One)),
            Stopped(true),
            Start,
            Value(Regular, AT_10_00, 435_000, Some(Level::Two)),
            Stopped(true),
            Start,
            Value(Regular, AT_10_00, 400_001, Some(Level::Two)),
            Stopped(true),
            Start,
            Value(Regular, AT_10_00, 400_000, Some(Level::Three)),
            Stopped(true),
        ],
    )
}

#[test]
fn a_level_2_halt_of_15_25_ends_at_15_40(rt: HostRuntime) {
    play(
        &rt,
        &mut start(),
        &[
            Value(Regular, AT_15_25, 435_000, Some(Level::Two)),
            Value(Regular, AT_15_30, 400_000, None),
            Time(AT_15_40 - 1, false),
            Stopped(true),
            Time(AT_15_40, true),
            Stopped(false),
            Time(AT_15_40, false),
        ],
    )
}

#[test]
fn an_early_close_moves_the_last_moments(rt: HostRuntime) {
    play(
        &rt,
        &mut start(),
        &[
            Value(Early, AT_9_30 - 1, 400_000, None),
            Value(Early, AT_12_25 + 1, 435_000, None),
            Value(Early, AT_12_25, 435_000, Some(Level::Two)),
            Time(AT_12_40, true),
            Value(Early, AT_13_00, 400_000, None),
            Value(Early, AT_13_00 - 1, 400_000, Some(Level::Three)),
        ],
    )
}
