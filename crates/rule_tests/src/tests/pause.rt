//! Turns of the phase of a stock.

use super::script::{Step, check};
use Row::{Pause, Turn, TurnTwice};
use pause_core::{Brakes, Turned, pause, turn};
use session_core::Phase::{
    self, Closed, Closing, Halted, LimitHigh, LimitLow, Paused, Shut, Stopped, Trading,
};

/// A row with the wanted answer.
#[derive(Clone, Copy)]
enum Row {
    /// The phase that brakes bring from another.
    Turn(Phase, Brakes, Option<Phase>),
    /// The two phases that they bring.
    TurnTwice(Phase, Brakes, Phase, Phase),
    /// The pause from a phase: whether its 15 seconds have expired, one is asked for, and it's in a straddle state and in the
    /// last ten minutes.
    Pause(bool, bool, bool, Phase, bool, Option<Phase>),
}

impl Step<()> for Row {
    fn holds(&self, _: &mut ()) -> bool {
        match *self {
            Turn(phase, brakes, first) => {
                let want = Turned {
                    first,
                    second: None,
                };
                turn(phase, &brakes) == want
            }
            TurnTwice(phase, brakes, first, second) => {
                let want = Turned {
                    first: Some(first),
                    second: Some(second),
                };
                turn(phase, &brakes) == want
            }
            Pause(expired, asked, straddling, phase, last_10, want) => {
                pause(expired, asked, straddling, phase, last_10) == want
            }
        }
    }
}

const FREE: Brakes = Brakes {
    closed: false,
    in_session: true,
    stopped: false,
    halted: false,
};

const CLOSED: Brakes = Brakes {
    closed: true,
    in_session: false,
    stopped: true,
    halted: true,
};

const EARLY: Brakes = Brakes {
    in_session: false,
    ..FREE
};

const STOPPED: Brakes = Brakes {
    stopped: true,
    ..FREE
};

const HALTED: Brakes = Brakes {
    halted: true,
    ..FREE
};

const STOPPED_AND_HALTED: Brakes = Brakes {
    stopped: true,
    ..HALTED
};

#[test]
fn the_close_and_the_session_bring_their_phases(rt: HostRuntime) {
    check(
        &rt,
        &[
            Turn(Trading, CLOSED, Some(Closed)),
            Turn(Halted, CLOSED, Some(Closed)),
            Turn(Closed, CLOSED, None),
            Turn(Closed, FREE, None),
            Turn(Shut, EARLY, None),
            Turn(Stopped, EARLY, None),
            Turn(Halted, EARLY, Some(Shut)),
            Turn(Shut, FREE, Some(Trading)),
            Turn(Stopped, FREE, Some(Trading)),
            Turn(Halted, FREE, Some(Trading)),
            Turn(Paused, FREE, None),
            Turn(Closing, FREE, None),
        ],
    )
}

#[test]
fn a_market_halt_and_a_regulatory_halt_bring_theirs(rt: HostRuntime) {
    check(
        &rt,
        &[
            Turn(Shut, STOPPED, Some(Stopped)),
            Turn(LimitHigh, STOPPED, Some(Stopped)),
            Turn(Paused, STOPPED, Some(Stopped)),
            Turn(Closing, STOPPED, Some(Stopped)),
            Turn(Stopped, STOPPED, None),
            Turn(Halted, STOPPED, Some(Stopped)),
            Turn(LimitLow, HALTED, Some(Halted)),
            Turn(Halted, HALTED, None),
        ],
    )
}

#[test]
fn a_regulatory_halt_follows_a_start_or_a_market_halt(rt: HostRuntime) {
    check(
        &rt,
        &[
            TurnTwice(Shut, STOPPED_AND_HALTED, Stopped, Halted),
            TurnTwice(Shut, HALTED, Trading, Halted),
        ],
    )
}

#[test]
fn a_pause_follows_15_seconds_or_a_request_in_a_straddle(rt: HostRuntime) {
    check(
        &rt,
        &[
            Pause(true, false, false, LimitLow, false, Some(Paused)),
            Pause(true, false, false, LimitHigh, true, Some(Closing)),
            Pause(false, true, true, LimitLow, false, None),
            Pause(true, false, true, Trading, false, None),
            Pause(false, true, true, Trading, false, Some(Paused)),
            Pause(false, true, true, Trading, true, Some(Closing)),
            Pause(false, true, false, Trading, false, None),
            Pause(false, false, true, Trading, false, None),
            Pause(true, true, true, Paused, false, None),
            Pause(true, true, true, Stopped, false, None),
        ],
    )
}
