//! Moments of a day, in nanoseconds since midnight.

ghost use Rattle.std.specs.Prelude.{◌≡◌, ◌↔◌, ◌-◌, ◌<◌, ◌≤◌, IsOk, IfOk};
ghost use Rattle.session_core.specs.Moments.{IsMoment};

use std::marker::Model;
use thiserror::Error;

/// A number is no moment of a day.
#[derive(Clone, Copy, Debug, PartialEq, Eq, Error)]
#[error("the number is no moment of a day")]
pub struct BadMoment;

/// A moment of a day in nanoseconds since midnight, Eastern time, from 0 to 86,399,999,999,999.
#[derive(Clone, Copy, Debug, PartialEq, Eq, PartialOrd, Ord)]
pub struct Moment {
    nanos: u64,
}

impl Model for Moment {
    ghost use Rattle.std.specs.Prelude.{ℕ};
    ghost use Rattle.session_core.specs.Moments.{IsMoment};

    ghost Value = { ℕ };

    ghost view = { λ moment. moment.nanos };

    ghost invariant = { λ moment. IsMoment moment.nanos };

    ghost inverse = { λ n. record { nanos = n } };
}

impl Moment {
    /// The moment of a number of nanoseconds since midnight, an error exactly outside the range.
    pub fn new(nanos: u64) -> Result<Moment, BadMoment>
        ensures range { IsOk result ↔ IsMoment nanos }
        ensures value { IfOk result (λ moment. moment ≡ nanos) }
    {
        if nanos > 86_399_999_999_999 {
            return Err(BadMoment);
        }
        Ok(Moment { nanos })
    }

    /// The moment of a number of nanoseconds that is known to be in the range.
    pub(crate) fn of(nanos: u64) -> Moment
        requires { IsMoment nanos }
        ensures { result ≡ nanos }
    {
        Moment { nanos }
    }

    /// The nanoseconds since midnight.
    pub fn nanos(self) -> u64
        ensures value { result ≡ self }
        ensures range { IsMoment result }
    {
        self.nanos
    }
}

/// The moment at which a day begins.
pub fn midnight() -> Moment
    ensures { result ≡ 0 }
{
    Moment { nanos: 0 }
}

/// How much later the first moment is than the second, in nanoseconds.
pub fn age(now: Moment, then: Moment) -> u64
    requires { then ≤ now }
    ensures { result ≡ now - then }
{
    now.nanos - then.nanos
}
