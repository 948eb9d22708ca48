//! Lines of days on which ABC is listed, opened or paused.

use crate::frames::BadLine;
use crate::lines::{Line, at, band, clock, collar, day, listed, listing, quote, state, trade};
use price_core::{Cause, Tier};
use session_core::Phase;
use std::alloc::Global;

/// The lines of two lists, one behind the other.
fn joined(alloc: Global, first: &[Line], then: &[Line]) -> Result<Vec<Line>, BadLine> {
    let mut lines = Vec::from_slice(alloc, first)?;
    lines.extend_from_slice(then)?;
    Ok(lines)
}

/// ABC is listed on 3 June in Tier 1 at a prior close of $50.00, and then come these lines.
fn listed_day(alloc: Global, then: &[Line]) -> Result<Vec<Line>, BadLine> {
    joined(
        alloc,
        &[day(3), listing(Tier::One, 10, 500_000), listed()],
        then,
    )
}

/// ABC is listed, its opening trade at 09:30:00 is at $50.00, and then come these lines.
pub fn opened_day(alloc: Global, then: &[Line]) -> Result<Vec<Line>, BadLine> {
    let open = at(9, 30, 0);
    let opening = [
        clock(open),
        state(Phase::Trading),
        trade(open, 1, 500_000, 1),
        band(Cause::First, 500_000, 475_000, 525_000),
    ];
    listed_day(alloc, &joined(alloc, &opening, then)?)
}

/// ABC is opened, is paused after 15 seconds in a limit state at its lower band, and then come these lines.
pub fn paused_day(alloc: Global, then: &[Line]) -> Result<Vec<Line>, BadLine> {
    let pause = [
        quote(at(10, 0, 0), 474_900, 475_000),
        state(Phase::LimitLow),
        trade(at(10, 0, 5), 2, 475_000, 0),
        quote(at(10, 0, 15), 474_900, 476_000),
        state(Phase::Paused),
        collar(0, 451_200, 525_000),
    ];
    opened_day(alloc, &joined(alloc, &pause, then)?)
}
