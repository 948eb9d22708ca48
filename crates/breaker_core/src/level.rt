//! The levels of a decline of the index (NYSE Rule 7.12).

ghost use Rattle.std.specs.Prelude.{◌≡◌};
ghost use Rattle.breaker_core.specs.Levels.{percent_of, is_brief, is_over, ends, level_reached, may_declare, declares};

use crate::breaker::Halt;
use price_core::{Index, fell};
use session_core::{Day, FIFTEEN_MINUTES, Level, Moment, breaker_open, in_session};

/// The decline of the index that reaches a level, in per cent (NYSE Rule 7.12(a)).
pub fn percent_of(level: Level) -> u32
    ensures { result ≡ percent_of level }
{
    match level {
        Level::One => 7,
        Level::Two => 13,
        Level::Three => 20,
    }
}

/// Whether a halt of that level lasts 15 minutes, and not the rest of the day.
fn is_brief(level: Level) -> bool
    ensures { result ≡ is_brief level }
{
    match level {
        Level::One | Level::Two => true,
        Level::Three => false,
    }
}

/// Whether a halt is over at a moment: one of Level 1 or 2 after 15 minutes.
fn is_over(t: Moment, halt: Halt) -> bool
    ensures { result ≡ is_over t halt }
{
    is_brief(halt.level) && halt.since.nanos() + FIFTEEN_MINUTES <= t.nanos()
}

/// Whether there is a halt that is over at a moment: one of Level 1 or 2 after 15 minutes (NYSE Rule 7.12(b)).
pub fn ends(t: Moment, halt: Option<Halt>) -> bool
    ensures { result ≡ ends t halt }
{
    match halt {
        Some(halt) => is_over(t, halt),
        None => false,
    }
}

/// The greatest level that an index value reaches, both in hundredths of an index point (NYSE Rule 7.12(a)).
pub fn level_reached(value: Index, index_close: Index) -> Option<Level>
    ensures { result ≡ level_reached value index_close }
{
    if fell(value, index_close, percent_of(Level::Three)) {
        Some(Level::Three)
    } else if fell(value, index_close, percent_of(Level::Two)) {
        Some(Level::Two)
    } else if fell(value, index_close, percent_of(Level::One)) {
        Some(Level::One)
    } else {
        None
    }
}

/// Whether a level may be declared at a moment, with this halt in effect, where greatest is the percentage of the
/// greatest level declared today, 0 for none (NYSE Rule 7.12(b)).
pub fn may_declare(halt: Option<Halt>, greatest: u32, day: &Day, t: Moment, level: Level) -> bool
    ensures { result ≡ may_declare halt greatest day.now t level }
{
    in_session(t, day)
        && halt.is_none()
        && greatest < percent_of(level)
        && (!is_brief(level) || breaker_open(t, day))
}

/// The level that an index value declares at a moment, both in hundredths of an index point, where greatest is the
/// percentage of the greatest level declared today, 0 for none; None exactly where it declares none (NYSE Rule 7.12).
pub fn declares(
    halt: Option<Halt>,
    greatest: u32,
    index_close: Index,
    day: &Day,
    t: Moment,
    value: Index,
) -> Option<Level>
    ensures { result ≡ declares halt greatest index_close day.now t value }
{
    let level = level_reached(value, index_close)?;
    if may_declare(halt, greatest, day, t, level) {
        Some(level)
    } else {
        None
    }
}
