//! Trading pauses (LULD Plan, Section VII).

ghost use Rattle.std.specs.Prelude.{◌≡◌, ◌+◌, ◌≤◌, [], List, true, false, length};
ghost use Rattle.std.specs.Option.{option_map_or};
ghost use Rattle.pause_core.specs.Phases.{is_done};
ghost use Rattle.rulebook.specs.Auction.{is_paused};
ghost use Rattle.rulebook.specs.Rules as rules;
ghost use Rattle.symbol_core.specs.Evaluates.{most_of_symbol};
ghost use Rattle.symbol_core.specs.Idle.{pauses_at};
ghost use Rattle.symbol_core.specs.InStep.{in_step};
ghost use Rattle.symbol_core.specs.Kept.{pause_now, pausing, pausing_as};
ghost use Rattle.symbol_core.specs.Stands.{Obeys, Says};

use crate::messages::Messages;
use crate::publish::is_paused;
use crate::record_fields::asks_to_pause;
use crate::state::{Kept, OpenStep, Step};
use limit_core::LimitTimer;
use pause_core::pause;
use price_core::Side;
use session_core::{Moment, Phase, last_10};

impl Kept {
    /// Whether it has been in a limit state for 15 seconds.
    fn has_expired(&self, t: Moment) -> bool
        ensures { result ≡ pauses_at self.now t }
    {
        match self.phase {
            Phase::LimitLow => LimitTimer::enter(self.since, Side::Low).expired(t),
            Phase::LimitHigh => LimitTimer::enter(self.since, Side::High).expired(t),
            _ => false,
        }
    }

    fn pause_now(&self, step: &Step) -> Option<Phase>
        ensures { result ≡ pause_now self.now step.now }
    {
        pause(
            self.has_expired(step.moment),
            asks_to_pause(self.id, &step.input),
            self.straddling,
            self.phase,
            last_10(step.moment, &step.day),
        )
    }

    fn begin_pause(&mut self, step: &Step, opened: &mut OpenStep, phase: Phase, out: &mut Messages)
        requires paused { is_paused phase ≡ true }
        requires room { length out.old + 2 ≤ most_of_symbol }
        ensures says { Says (pausing_as self.old step.now phase) step.now (in_step self.old opened.old) (in_step self.new opened.new) out.old out.new }
        ensures len { length out.new ≤ length out.old + 2 }
    {
        match self.last_band() {
            Some(b) => self.say_pause(step, opened, phase, &b, out),
            None => self.becomes(step, opened, phase, out),
        }
    }

    fn pause_as(&mut self, step: &Step, opened: &mut OpenStep, phase: Phase, out: &mut Messages)
        requires { length out.old + 2 ≤ most_of_symbol }
        ensures says { Says (pausing_as self.old step.now phase) step.now (in_step self.old opened.old) (in_step self.new opened.new) out.old out.new }
        ensures len { length out.new ≤ length out.old + 2 }
    {
        if is_paused(phase) {
            self.begin_pause(step, opened, phase, out);
        } else {
            self.becomes(step, opened, phase, out);
        }
    }

    fn pausing(&mut self, step: &Step, opened: &mut OpenStep, out: &mut Messages)
        requires { length out.old + 2 ≤ most_of_symbol }
        ensures says { Says (pausing self.old step.now) step.now (in_step self.old opened.old) (in_step self.new opened.new) out.old out.new }
        ensures len { length out.new ≤ length out.old + 2 }
    {
        if let Some(phase) = self.pause_now(step) {
            self.pause_as(step, opened, phase, out);
        }
    }

    /// A trading pause, after 15 seconds in a limit state or where the listing exchange asks for it.
    pub fn pause(&mut self, step: &Step, opened: &mut OpenStep, out: &mut Messages)
        requires goes_on { is_done self.old.phase ≡ false }
        requires room { length out.old + 2 ≤ most_of_symbol }
        ensures obeys { Obeys rules.pause step.now (in_step self.old opened.old) (in_step self.new opened.new) out.old out.new }
        ensures len { length out.new ≤ length out.old + 2 }
    {
        self.pausing(step, opened, out);
    }
}
