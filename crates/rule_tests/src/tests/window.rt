//! Trades that come, go and are cancelled.

use super::script::{Step, play};
use super::values::{moment, price, price_or_none};
use Call::{Add, Advance, Cancel, IsLive, LiveUntil, Mean, MovesFrom, Oldest, Restart, Trade};
use session_core::Moment;
use std::process::Abort;
use std::time::{Duration, Instant};
use window_core::{Deal, Window};

/// A call of a window, with the wanted answer. Times are nanoseconds after 09:30:00, and prices are in ten-thousandths of a
/// dollar.
#[derive(Clone, Copy)]
enum Call {
    /// A time comes, and a trade at it: its number and price.
    Trade(u64, u32, u64),
    /// The same with no time that comes.
    Add(u64, u32, u64),
    Advance(u64),
    Cancel(u32),
    Restart,
    Mean(Option<u64>),
    Oldest(Option<u64>),
    /// Whether all deals are live at a time.
    IsLive(u64, bool),
    LiveUntil(Option<u64>),
    /// From a time on, against a reference price: when the mean moves, if it does.
    MovesFrom(u64, u64, Option<u64>),
}

const OPEN: u64 = 34_200_000_000_000;

/// A moment that many nanoseconds after 09:30:00.
fn after(nanos: u64) -> Moment {
    moment(OPEN.wrapping_add(nanos))
}

/// The nanoseconds of the day of an answer that may be never.
fn time_of(nanos: Option<u64>) -> u64 {
    match nanos {
        Some(nanos) => OPEN.wrapping_add(nanos),
        None => u64::MAX,
    }
}

/// Whether the oldest deal is of a time, or there is none.
fn is_oldest(window: &Window, want: Option<u64>) -> bool {
    let nanos = match window.oldest() {
        Some(oldest) => oldest.nanos(),
        None => u64::MAX,
    };
    nanos == time_of(want)
}

/// Adds a deal. Whether there is memory for it.
fn add(window: &mut Window, nanos: u64, number: u32, units: u64) -> bool {
    let Ok(()) = window.reserve() else {
        return false;
    };
    window.add(Deal {
        moment: after(nanos),
        number,
        price: price(units),
    });
    true
}

/// A time comes, and a trade at it. Whether there is memory for it.
fn trade(window: &mut Window, nanos: u64, number: u32, units: u64) -> bool {
    window.advance(after(nanos));
    add(window, nanos, number, units)
}

impl Step<Window> for Call {
    fn holds(&self, window: &mut Window) -> bool {
        match *self {
            Trade(nanos, number, units) => trade(window, nanos, number, units),
            Add(nanos, number, units) => add(window, nanos, number, units),
            Advance(nanos) => {
                window.advance(after(nanos));
                true
            }
            Cancel(number) => {
                window.cancel(number);
                true
            }
            Restart => {
                window.restart();
                true
            }
            Mean(want) => window.mean() == price_or_none(want),
            Oldest(want) => is_oldest(window, want),
            IsLive(nanos, want) => window.are_live(after(nanos)) == want,
            LiveUntil(want) => window.live_until() == time_of(want),
            MovesFrom(nanos, units, want) => {
                window.moves_from(after(nanos).nanos(), price(units)) == time_of(want)
            }
        }
    }
}

/// Takes the steps from a new window on.
fn follow<R: Abort + AllocGlobal>(rt: &R, steps: &[Call]) {
    let mut window = Window::new(rt.alloc()).unwrap();
    play(rt, &mut window, steps);
}

#[test]
fn a_mean_is_rounded_half_up(rt: HostRuntime) {
    follow(
        &rt,
        &[
            Mean(None),
            Oldest(None),
            Trade(0, 1, 500_000),
            Trade(29_999_999_999, 2, 510_000),
            Mean(Some(505_000)),
            Cancel(2),
            Trade(30_000_000_000, 3, 500_001),
            Mean(Some(500_001)),
            Oldest(Some(0)),
        ],
    )
}

#[test]
fn a_mean_moves_when_a_deal_leaves(rt: HostRuntime) {
    // Of all three the mean is 50.4000, and behind the first one 50.6000.
    follow(
        &rt,
        &[
            MovesFrom(0, 500_000, None),
            Trade(0, 1, 500_000),
            Trade(1, 2, 500_000),
            Trade(2, 3, 512_000),
            MovesFrom(2, 500_000, Some(300_000_000_000)),
            MovesFrom(299_999_999_999, 500_000, Some(300_000_000_000)),
            MovesFrom(300_000_000_000, 500_000, Some(300_000_000_000)),
            MovesFrom(300_000_000_002, 500_000, None),
            Cancel(3),
            MovesFrom(0, 500_000, None),
        ],
    )
}

/// Nine deals, a nanosecond one after the other, of which the last has a price of its own. The first of them leaves after five
/// minutes.
fn nine<R: Abort + AllocGlobal>(rt: &R, last: u64) {
    follow(
        rt,
        &[
            Trade(0, 0, 500_000),
            Trade(1, 1, 500_000),
            Trade(2, 2, 500_000),
            Trade(3, 3, 500_000),
            Trade(4, 4, 500_000),
            Trade(5, 5, 500_000),
            Trade(6, 6, 500_000),
            Trade(7, 7, 500_000),
            Trade(8, 8, last),
            MovesFrom(0, 500_000, Some(300_000_000_000)),
        ],
    )
}

#[test]
fn of_nine_deals_the_first_alone_is_looked_at(rt: HostRuntime) {
    nine(&rt, 510_000);
    nine(&rt, 504_999);
}

#[test]
fn a_trade_of_exactly_five_minutes_does_not_count(rt: HostRuntime) {
    follow(
        &rt,
        &[
            Trade(0, 1, 490_000),
            Trade(1, 2, 500_000),
            Advance(299_999_999_999),
            Mean(Some(495_000)),
            Advance(300_000_000_000),
            Mean(Some(500_000)),
            Oldest(Some(1)),
            Cancel(2),
            Mean(None),
        ],
    )
}

#[test]
fn a_cancel_removes_each_trade_of_its_number(rt: HostRuntime) {
    follow(
        &rt,
        &[
            Cancel(2),
            Trade(0, 2, 490_000),
            Trade(0, 1, 500_000),
            Trade(0, 2, 510_000),
            Mean(Some(500_000)),
            Cancel(2),
            Mean(Some(500_000)),
            Cancel(2),
            Mean(Some(500_000)),
            Cancel(1),
            Mean(None),
        ],
    )
}

#[test]
fn a_restart_begins_a_new_day(rt: HostRuntime) {
    follow(
        &rt,
        &[
            Trade(600_000_000_000, 1, 490_000),
            Restart,
            Mean(None),
            Trade(0, 1, 99_999_999_999),
            Mean(Some(99_999_999_999)),
            Oldest(Some(0)),
        ],
    )
}

#[test]
fn after_a_restart_earlier_deals_are_in_order(rt: HostRuntime) {
    follow(
        &rt,
        &[
            Add(600_000_000_000, 1, 500_000),
            Restart,
            LiveUntil(None),
            Add(0, 1, 500_000),
            IsLive(299_999_999_999, true),
            IsLive(300_000_000_000, false),
            LiveUntil(Some(300_000_000_000)),
        ],
    )
}

#[test]
fn deals_out_of_order_leave_when_they_are_five_minutes_old(rt: HostRuntime) {
    follow(
        &rt,
        &[
            Add(60_000_000_000, 1, 500_000),
            Add(0, 2, 500_000),
            IsLive(299_999_999_999, true),
            IsLive(300_000_000_000, false),
            Advance(300_000_000_000),
            Oldest(Some(60_000_000_000)),
            Advance(360_000_000_000),
            Oldest(None),
        ],
    )
}

#[test]
fn a_price_moves_the_mean_at_one_per_cent(rt: HostRuntime) {
    for (units, from) in [
        (495_000, Some(0)),
        (495_001, None),
        (504_999, None),
        (505_000, Some(0)),
    ] {
        follow(
            &rt,
            &[
                MovesFrom(0, 500_000, None),
                Trade(0, 1, units),
                MovesFrom(0, 500_000, from),
            ],
        );
    }
}

/// A trade at a price, near which the mean is then until a trade leaves, and not near one a little more than one per cent above.
fn is_near_alone(window: &mut Window, nanos: u64, number: u32, units: u64) -> bool {
    let beyond = units.saturating_add(5_100);
    let now = after(nanos).nanos();
    trade(window, nanos, number, units)
        && window.moves_from(now, price(units)) > now
        && window.moves_from(now, price(beyond)) == now
}

/// Whether the mean of prices that drift, a trade every ten seconds, is near the last one and not near the first.
fn drifts(window: &mut Window) -> bool {
    let mut is_right = true;
    for step in 0..96_u32 {
        let units = 500_000 + 80 * u64::from(step);
        let nanos = 10_000_000_000 * u64::from(step);
        is_right &= is_near_alone(window, nanos, step, units);
    }
    let end = after(950_000_000_000).nanos();
    is_right && window.moves_from(end, price(500_000)) == end
}

#[test]
fn the_mean_of_prices_that_drift_by_one_per_cent_and_a_half_stays_near_the_last(rt: HostRuntime) {
    let mut window = Window::new(rt.alloc()).unwrap();
    assert!(&rt; drifts(&mut window));
}

#[test]
fn a_far_price_is_forgotten_once_it_has_left(rt: HostRuntime) {
    follow(
        &rt,
        &[
            Trade(0, 1, 600_000),
            Trade(200_000_000_000, 2, 500_000),
            MovesFrom(200_000_000_000, 500_000, Some(200_000_000_000)),
            Trade(400_000_000_000, 3, 500_000),
            MovesFrom(400_000_000_000, 500_000, None),
            Advance(500_000_000_000),
            MovesFrom(500_000_000_000, 500_000, None),
        ],
    )
}

#[test]
fn a_far_price_is_forgotten_with_the_last_deal(rt: HostRuntime) {
    follow(
        &rt,
        &[
            Trade(0, 1, 600_000),
            Advance(300_000_000_000),
            MovesFrom(300_000_000_000, 500_000, None),
            Trade(300_000_000_001, 2, 600_000),
            Restart,
            Trade(0, 1, 500_000),
            MovesFrom(0, 500_000, None),
        ],
    )
}

#[test]
fn deals_out_of_order_may_move_the_mean_at_any_time(rt: HostRuntime) {
    follow(
        &rt,
        &[
            Trade(100_000_000_000, 1, 500_000),
            Add(60_000_000_000, 2, 600_000),
            Add(0, 3, 500_000),
            Advance(300_000_000_000),
            MovesFrom(300_000_000_000, 500_000, Some(300_000_000_000)),
            Advance(360_000_000_000),
            Mean(Some(500_000)),
        ],
    )
}

/// A trade, a new day, and 50,000 trades of it a nanosecond apart. Whether there is memory for them.
fn fill(window: &mut Window) -> bool {
    let mut is_right = trade(window, 600_000_000_000, 1, 500_000);
    window.restart();
    for number in 0..50_000_u32 {
        is_right &= trade(window, u64::from(number), number, 500_000);
    }
    is_right
}

/// 50,000 times come, a nanosecond apart.
fn advance_all(window: &mut Window) {
    for tick in 0..50_000_u64 {
        window.advance(after(tick + 60_000_000_000));
    }
}

#[test]
fn an_advance_of_the_next_day_takes_no_time_for_each_of_50_000_trades(rt: HostRuntime) {
    let mut window = Window::new(rt.alloc()).unwrap();
    assert!(&rt; fill(&mut window));
    let start = Instant::now(&rt).expect(&rt, "the time");
    advance_all(&mut window);
    let taken = start.elapsed(&rt).expect(&rt, "the time");
    // A look at each trade at each advance would be 2,500,000,000 looks.
    assert!(&rt; taken < Duration::from_secs(5));
    assert!(&rt; window.mean() == Some(price(500_000)));
}
