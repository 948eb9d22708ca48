//! The market-wide circuit breakers of a day (NYSE Rule 7.12).

ghost use Rattle.std.specs.Prelude.{◌≡◌, ◌∷◌, [], List, is_some};
ghost use Rattle.breaker_core.specs.Levels.{ends, declares};
ghost use Rattle.breaker_core.specs.Days.{Call, Time, Tick, answers, halt_in, declared_after};

use crate::level::{ends, level_reached, may_declare, percent_of};
use price_core::Index;
use session_core::{Day, Level, Moment};
use std::marker::Model;

/// A market-wide halt: its level, and the moment at which it was declared (NYSE Rule 7.12).
#[derive(Clone, Copy, Debug, PartialEq, Eq)]
pub struct Halt {
    pub level: Level,
    pub since: Moment,
}

/// The market-wide circuit breakers of a day: the index close before it, the greatest level declared, and the halt in
/// effect.
#[derive(Debug, Drop)]
pub struct Breaker {
    index_close: Index,
    greatest: Option<Level>,
    halt: Option<Halt>,
}

impl Model for Breaker {
    ghost use Rattle.std.specs.Option.{option_map_or};
    ghost use Rattle.breaker_core.specs.Levels.{percent_of};
    ghost use Rattle.breaker_core.specs.BreakerState.{BreakerState};

    ghost Value = { BreakerState };

    ghost view = { λ b. record { index_close = b.index_close; greatest = option_map_or percent_of b.greatest 0; halt = b.halt } };
}

impl Breaker {
    ghost use Rattle.breaker_core.specs.BreakerState.{started, resumed, with_declared, Represents};

    /// No level declared, with the index close of the day before in hundredths of an index point.
    pub fn start(index_close: Index) -> Breaker
        ensures value { result ≡ started index_close }
        ensures stands { Represents result [] }
    {
        Breaker {
            index_close,
            greatest: None,
            halt: None,
        }
    }

    /// Whether a halt ends at a moment: true exactly where one of Level 1 or 2 was declared at least 15 minutes before
    /// it (NYSE Rule 7.12).
    pub fn time(&mut self, t: Moment) -> bool
        ensures ends { result ≡ ends t self.old.halt }
        ensures value { self.new ≡ resumed t self.old }
        ensures answer { (calls : List Call) → Represents self.old calls → result ≡ ends t (halt_in (answers self.old.index_close calls)) }
        ensures stands { (calls : List Call) → Represents self.old calls → Represents self.new (Time t ∷ calls) }
    {
        let is_over = ends(t, self.halt);
        if is_over {
            self.halt = None;
        }
        is_over
    }

    /// The level that an index value declares at a moment of the day, None exactly where it declares none
    /// (NYSE Rule 7.12).
    pub fn index(&mut self, t: Moment, now: Index, day: &Day) -> Option<Level>
        ensures level { result ≡ declares self.old.halt self.old.greatest self.old.index_close day.now t now }
        ensures value { self.new ≡ with_declared t result self.old }
        ensures answer { (calls : List Call) → Represents self.old calls
            → result ≡ declared_after (answers self.old.index_close calls) self.old.index_close day.now t now }
        ensures stands { (calls : List Call) → Represents self.old calls → Represents self.new (Tick t now day.now ∷ calls) }
    {
        let level = level_reached(now, self.index_close)?;
        if !may_declare(self.halt, self.greatest(), day, t, level) {
            return None;
        }
        self.greatest = Some(level);
        self.halt = Some(Halt { level, since: t });
        Some(level)
    }

    /// Whether a halt is in effect.
    pub fn stopped(&self) -> bool
        ensures value { result ≡ is_some self.now.halt }
        ensures answer { (calls : List Call) → Represents self.now calls → result ≡ is_some (halt_in (answers self.now.index_close calls)) }
    {
        self.halt.is_some()
    }

    /// The percentage of the greatest level declared, 0 for none.
    fn greatest(&self) -> u32
        ensures { result ≡ self.now.greatest }
    {
        match self.greatest {
            Some(level) => percent_of(level),
            None => 0,
        }
    }
}
