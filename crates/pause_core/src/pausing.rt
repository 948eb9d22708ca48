//! The trading pause of a stock (LULD Plan, Section VII).

ghost use Rattle.std.specs.Prelude.{◌≡◌};
ghost use Rattle.pause_core.specs.Pauses.{pause};

use crate::phases::{is_limit, is_trading};
use session_core::Phase;

/// The phase of a trading pause: after 15 seconds in a limit state, or in a straddle state when the primary listing
/// exchange asks for it (LULD Plan, Section VII). In the last ten minutes there is no reopening before the close. None
/// exactly where there is no pause.
pub fn pause(
    expired: bool,
    asked: bool,
    straddling: bool,
    phase: Phase,
    last_10: bool,
) -> Option<Phase>
    ensures { result ≡ pause expired asked straddling phase last_10 }
{
    let limited = is_limit(phase) && expired;
    let requested = asked && is_trading(phase) && straddling;
    let paused = if last_10 {
        Phase::Closing
    } else {
        Phase::Paused
    };
    (limited || requested).then_some(paused)
}
