//! How the phase of a stock turns.

ghost use Rattle.std.specs.Prelude.{◌≡◌, ◌++◌, option_to_list};
ghost use Rattle.pause_core.specs.Turns.{session_close, regulatory_halt, phase_after_regulatory_halt, in_order, start, starts, market_halt, market_halts, turns};

use crate::phases::{can_market_halt, can_start, is_done, is_in_regulatory_halt};
use session_core::Phase;

/// What brakes a stock: the session close has come, it is in the session, a market-wide halt is in effect, a regulatory
/// halt is in effect.
#[derive(Clone, Copy, Debug, PartialEq, Eq)]
pub struct Brakes {
    pub closed: bool,
    pub in_session: bool,
    pub stopped: bool,
    pub halted: bool,
}

/// The phases that the brakes bring, in order.
#[derive(Clone, Copy, Debug, PartialEq, Eq)]
pub struct Turned {
    pub first: Option<Phase>,
    pub second: Option<Phase>,
}

/// The phases that the session close, a market-wide halt, the start of trading and a regulatory halt bring, one rule after
/// the other (NYSE Rule 7.12 for the market-wide halt).
pub fn turn(phase: Phase, b: &Brakes) -> Turned
    ensures all { option_to_list result.first ++ option_to_list result.second ≡ turns phase b.now }
    ensures value { result ≡ in_order (turns phase b.now) }
{
    let (first, second) = if is_done(phase) {
        (None, None)
    } else if b.closed {
        (Some(Phase::Closed), None)
    } else if market_halts(phase, b) {
        (Some(Phase::Stopped), regulatory_halt(Phase::Stopped, b))
    } else if starts(phase, b) {
        (Some(Phase::Trading), regulatory_halt(Phase::Trading, b))
    } else {
        (regulatory_halt(phase, b), None)
    };
    Turned { first, second }
}

fn market_halts(phase: Phase, b: &Brakes) -> bool
    ensures { result ≡ market_halts phase b.now }
{
    b.stopped && can_market_halt(phase)
}

fn starts(phase: Phase, b: &Brakes) -> bool
    ensures { result ≡ starts phase b.now }
{
    can_start(phase) && b.in_session && !b.stopped
}

/// The phase that the session close brings, None exactly before it.
pub fn session_close(phase: Phase, b: &Brakes) -> Option<Phase>
    ensures { result ≡ session_close phase b.now }
{
    // Each rule takes the phase. This one needs none.
    let _phase = phase;
    b.closed.then_some(Phase::Closed)
}

/// The phase that a market-wide halt brings, None exactly where there is none or it doesn't halt the stock
/// (NYSE Rule 7.12).
pub fn market_halt(phase: Phase, b: &Brakes) -> Option<Phase>
    ensures { result ≡ market_halt phase b.now }
{
    market_halts(phase, b).then_some(Phase::Stopped)
}

/// The phase that the start of trading brings, None exactly where it doesn't start.
pub fn start(phase: Phase, b: &Brakes) -> Option<Phase>
    ensures { result ≡ start phase b.now }
{
    starts(phase, b).then_some(Phase::Trading)
}

/// The phase that a regulatory halt or its end brings, None exactly where neither does.
pub fn regulatory_halt(phase: Phase, b: &Brakes) -> Option<Phase>
    ensures { result ≡ regulatory_halt phase b.now }
{
    if b.halted {
        (!is_in_regulatory_halt(phase)).then_some(Phase::Halted)
    } else {
        is_in_regulatory_halt(phase).then_some(after_regulatory_halt(b))
    }
}

fn after_regulatory_halt(b: &Brakes) -> Phase
    ensures { result ≡ phase_after_regulatory_halt b.now }
{
    if b.stopped {
        Phase::Stopped
    } else if b.in_session {
        Phase::Trading
    } else {
        Phase::Shut
    }
}
