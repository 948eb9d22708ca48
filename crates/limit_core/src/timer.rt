//! The 15 seconds of a limit state (LULD Plan, Section VII).

ghost use Rattle.std.specs.Prelude.{◌≡◌};
ghost use Rattle.limit_core.specs.Timers.{has_lasted};

use price_core::Side;
use session_core::{FIFTEEN_SECONDS, Moment};
use std::marker::Model;

/// Whether a limit state that was entered at a moment has lasted for 15 seconds (LULD Plan, Section VII).
pub fn has_lasted(entered: Moment, t: Moment) -> bool
    ensures { result ≡ has_lasted entered t }
{
    entered.nanos() + FIFTEEN_SECONDS <= t.nanos()
}

/// A limit state: when it was entered, and at which side of the bands.
#[derive(Clone, Copy, Debug, PartialEq, Eq)]
pub struct LimitTimer {
    entered: Moment,
    side: Side,
}

impl Model for LimitTimer {
    ghost use Rattle.limit_core.specs.Timers.{LimitState};

    ghost Value = { LimitState };

    ghost view = { λ timer. record { entered = timer.entered; side = timer.side } };

    ghost inverse = { λ state. record { entered = state.entered; side = state.side } };
}

impl LimitTimer {
    /// The limit state that is entered at a moment.
    pub fn enter(t: Moment, side: Side) -> LimitTimer
        ensures { result ≡ record { entered = t; side = side } }
    {
        LimitTimer { entered: t, side }
    }

    /// The side of the bands.
    pub fn side(&self) -> Side
        ensures { result ≡ self.now.side }
    {
        self.side
    }

    /// Whether the limit state has lasted for 15 seconds, which are enough for a pause (LULD Plan, Section VII). It hasn't before
    /// it is entered.
    pub fn expired(&self, t: Moment) -> bool
        ensures { result ≡ has_lasted self.now.entered t }
    {
        has_lasted(self.entered, t)
    }
}
