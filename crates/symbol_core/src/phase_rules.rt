//! The rules that turn a phase: the close, a market-wide halt, the start, a regulatory halt, and limit and straddle states.

ghost use Rattle.std.specs.Prelude.{◌≡◌, ◌+◌, ◌≤◌, ◌&&◌, true, false, List, option_to_list, length};
ghost use Rattle.std.specs.Option.{option_map_or};
ghost use Rattle.session_core.specs.Times.{is_closed};
ghost use Rattle.limit_core.specs.Limits.{straddles};
ghost use Rattle.pause_core.specs.Phases.{is_done, is_trading};
ghost use Rattle.window_core.specs.declared.window.Deal.{Deal};
ghost use Rattle.rulebook.specs.Auction.{is_paused};
ghost use Rattle.rulebook.specs.Rules as rules;
ghost use Rattle.rulebook.specs.Rules.{at_band, meets};
ghost use Rattle.symbol_core.specs.Evaluates.{most_of_symbol};
ghost use Rattle.symbol_core.specs.Idle.{HasEntered, changes_bands};
ghost use Rattle.symbol_core.specs.InStep.{in_step};
ghost use Rattle.symbol_core.specs.Kept.{brakes, is_straddling_now, states, straddles_at, straddling};
ghost use Rattle.symbol_core.specs.Runs.{run_band, run_quote};
ghost use Rattle.symbol_core.specs.Stands.{Obeys, ObeysAll, Says, turning_rules};

use crate::messages::Messages;
use crate::state::{Kept, OpenStep, Step};
use limit_core::{is_at_lower, is_at_upper, straddles};
use pause_core::{Brakes, is_limit, is_trading, turn};
use price_core::Quotation;
use rulebook::Banded;
use session_core::{Day, Moment, Phase, close_moment, in_session};

fn is_closed(t: Moment, day: &Day) -> bool
    ensures { result ≡ is_closed t day.now }
{
    close_moment(day).nanos() <= t.nanos()
}

impl Kept {
    fn brakes(&self, step: &Step) -> Brakes
        ensures { result ≡ brakes self.now step.now }
    {
        Brakes {
            closed: is_closed(step.moment, &step.day),
            in_session: in_session(step.moment, &step.day),
            stopped: step.stopped,
            halted: self.halted,
        }
    }

    /// The phase that a rule brings, where it brings one.
    fn turn_to(&mut self, step: &Step, opened: &mut OpenStep, to: Option<Phase>, out: &mut Messages)
        requires unpaused { option_map_or is_paused to false ≡ false }
        requires room { length out.old + 1 ≤ most_of_symbol }
        ensures says { Says (states self.old.id (option_to_list to)) step.now (in_step self.old opened.old) (in_step self.new opened.new) out.old out.new }
        ensures len { length out.new ≤ length out.old + 1 }
    {
        if let Some(phase) = to {
            self.becomes(step, opened, phase, out);
        }
    }

    /// The session close, a market-wide halt (NYSE Rule 7.12), the start of trading and a regulatory halt by notice, with its
    /// end.
    pub fn turn(&mut self, step: &Step, opened: &mut OpenStep, out: &mut Messages)
        requires { length out.old + 2 ≤ most_of_symbol }
        ensures obeys { (deals : List Deal) → ObeysAll deals turning_rules step.now (in_step self.old opened.old) (in_step self.new opened.new) out.old out.new }
        ensures len { length out.new ≤ length out.old + 2 }
    {
        let turned = turn(self.phase, &self.brakes(step));
        self.turn_to(step, opened, turned.first, out);
        self.turn_to(step, opened, turned.second, out);
    }
}

/// Whether a quotation is at that side of the bands.
pub fn at_band(side: Phase, quote: &Option<Quotation>, band: &Option<Banded>) -> bool
    ensures { result ≡ at_band side quote.now band.now }
{
    match (quote, band) {
        (Some(q), Some(b)) => match side {
            Phase::LimitLow => is_at_lower(q, &b.bands),
            Phase::LimitHigh => is_at_upper(q, &b.bands),
            _ => false,
        },
        _ => false,
    }
}

fn straddles_bands(quote: &Option<Quotation>, band: &Option<Banded>) -> bool
    ensures { result ≡ meets straddles quote.now band.now }
{
    match (quote, band) {
        (Some(q), Some(b)) => straddles(q, &b.bands),
        _ => false,
    }
}

impl Kept {
    /// The run's last quotation.
    pub fn last_quote(&self) -> Option<Quotation>
        ensures { result ≡ run_quote self.now }
    {
        match &self.run {
            Some(run) => run.quote,
            None => None,
        }
    }

    /// The run's last bands.
    pub fn last_band(&self) -> Option<Banded>
        ensures { result ≡ run_band self.now }
    {
        match &self.run {
            Some(run) => run.band,
            None => None,
        }
    }

    /// Whether the run's last quotation is at that side of its last bands.
    fn is_at_band(&self, side: Phase) -> bool
        ensures { result ≡ at_band side (run_quote self.now) (run_band self.now) }
    {
        at_band(side, &self.last_quote(), &self.last_band())
    }
}

impl Kept {
    /// A limit state is left when the quotation leaves the band (LULD Plan, Section VI).
    pub fn leave_limit(&mut self, step: &Step, opened: &mut OpenStep, out: &mut Messages)
        requires goes_on { is_done self.old.phase ≡ false }
        requires room { length out.old + 1 ≤ most_of_symbol }
        ensures obeys { Obeys rules.leave_limit step.now (in_step self.old opened.old) (in_step self.new opened.new) out.old out.new }
        ensures len { length out.new ≤ length out.old + 1 }
    {
        if is_limit(self.phase) && !self.is_at_band(self.phase) {
            self.becomes(step, opened, Phase::Trading, out);
        }
    }

    /// A limit state begins where the quotation is at a band (LULD Plan, Section VI).
    pub fn enter_limit(&mut self, step: &Step, opened: &mut OpenStep, out: &mut Messages)
        requires goes_on { is_done self.old.phase ≡ false }
        requires room { length out.old + 1 ≤ most_of_symbol }
        ensures obeys { Obeys rules.enter_limit step.now (in_step self.old opened.old) (in_step self.new opened.new) out.old out.new }
        ensures enters { is_trading self.old.phase ≡ true → HasEntered self.old self.new }
        ensures bands { changes_bands self.old step.now ≡ false → changes_bands self.new step.now ≡ false }
        ensures len { length out.new ≤ length out.old + 1 }
    {
        if !is_trading(self.phase) {
            return;
        }
        if self.is_at_band(Phase::LimitLow) {
            self.becomes(step, opened, Phase::LimitLow, out);
        } else if self.is_at_band(Phase::LimitHigh) {
            self.becomes(step, opened, Phase::LimitHigh, out);
        }
    }

    /// Whether that quotation straddles the bands.
    pub fn straddles_at(&self, quote: &Option<Quotation>) -> bool
        ensures { result ≡ straddles_at self.now quote.now }
    {
        is_trading(self.phase) && straddles_bands(quote, &self.last_band())
    }

    fn is_straddling_now(&self) -> bool
        ensures { result ≡ is_straddling_now self.now }
    {
        self.straddles_at(&self.last_quote())
    }

    fn straddling(&mut self, step: &Step, out: &mut Messages)
        requires { length out.old + 1 ≤ most_of_symbol }
        ensures says { (opened : OpenStep) → Says (straddling self.old step.now) step.now (in_step self.old opened) (in_step self.new opened) out.old out.new }
        ensures straddles { self.new ≡ record self.old { straddling = is_straddling_now self.old } }
        ensures bands { changes_bands self.new step.now ≡ changes_bands self.old step.now }
        ensures len { length out.new ≤ length out.old + 1 }
    {
        let is_straddling = self.is_straddling_now();
        if is_straddling && !self.straddling {
            self.say_straddle(step, true, out);
        } else if self.straddling && !is_straddling {
            self.say_straddle(step, false, out);
        }
    }

    /// A straddle state begins or ends (LULD Plan, Section VII).
    pub fn straddle(&mut self, step: &Step, out: &mut Messages)
        requires goes_on { is_done self.old.phase ≡ false }
        requires room { length out.old + 1 ≤ most_of_symbol }
        ensures obeys { (opened : OpenStep) → Obeys rules.straddle step.now (in_step self.old opened) (in_step self.new opened) out.old out.new }
        ensures straddles { self.new ≡ record self.old { straddling = is_straddling_now self.old } }
        ensures bands { changes_bands self.new step.now ≡ changes_bands self.old step.now }
        ensures len { length out.new ≤ length out.old + 1 }
    {
        self.straddling(step, out);
    }
}
