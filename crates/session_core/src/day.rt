//! A trading day: its date, its close and its profile.

ghost use Rattle.std.specs.Prelude.{◌≡◌};
ghost use Rattle.session_core.specs.Times.{session_close, in_session, in_last_25_minutes, in_last_10_minutes, may_declare_brief};

use crate::date::Date;
use crate::moment::Moment;
use crate::times::{
    EARLY_CLOSE, REGULAR_CLOSE, SESSION_OPEN, TEN_MINUTES, THIRTY_FIVE_MINUTES, TWENTY_FIVE_MINUTES,
};

/// When the session ends: at 16:00:00, or at 13:00:00 on an early close.
#[derive(Clone, Copy, Debug, PartialEq, Eq)]
pub enum Close {
    Regular,
    Early,
}

/// The form of the percentages: since Amendment 18, or before it (after the LULD Plan, Appendix A).
#[derive(Clone, Copy, Debug, PartialEq, Eq)]
pub enum Profile {
    Since18,
    Before18,
}

/// A trading day.
#[derive(Clone, Copy, Debug, PartialEq, Eq)]
pub struct Day {
    pub date: Date,
    pub close: Close,
    pub profile: Profile,
}

/// The moment at which the day's session ends.
pub fn close_moment(day: &Day) -> Moment
    ensures { result ≡ session_close day.now.close }
{
    match day.close {
        Close::Regular => Moment::of(REGULAR_CLOSE),
        Close::Early => Moment::of(EARLY_CLOSE),
    }
}

/// Whether a moment is in the day's session: from 09:30:00 to before the close.
pub fn in_session(t: Moment, day: &Day) -> bool
    ensures { result ≡ in_session t day.now }
{
    SESSION_OPEN <= t.nanos() && t < close_moment(day)
}

/// Whether a moment is not before the close less 25 minutes (LULD Plan, Appendix A).
pub fn last_25(t: Moment, day: &Day) -> bool
    ensures { result ≡ in_last_25_minutes t day.now }
{
    t.nanos() >= close_moment(day).nanos() - TWENTY_FIVE_MINUTES
}

/// Whether a moment is not before the close less ten minutes (LULD Plan, Section VII).
pub fn last_10(t: Moment, day: &Day) -> bool
    ensures { result ≡ in_last_10_minutes t day.now }
{
    t.nanos() >= close_moment(day).nanos() - TEN_MINUTES
}

/// Whether a halt of Level 1 or 2 may be declared: in the session and not later than 15:25:00, or 12:25:00 on an
/// early close (NYSE Rule 7.12).
pub fn breaker_open(t: Moment, day: &Day) -> bool
    ensures { result ≡ may_declare_brief t day.now }
{
    in_session(t, day) && t.nanos() <= close_moment(day).nanos() - THIRTY_FIVE_MINUTES
}
