//! The short sale restriction (17 CFR 242.201).

ghost use Rattle.std.specs.Prelude.{◌≡◌, ◌+◌, ◌≤◌, List, false, length};
ghost use Rattle.pause_core.specs.Phases.{is_done};
ghost use Rattle.rulebook.specs.Rules as rules;
ghost use Rattle.symbol_core.specs.Evaluates.{most_of_symbol};
ghost use Rattle.symbol_core.specs.Idle.{changes_bands};
ghost use Rattle.symbol_core.specs.InStep.{in_step};
ghost use Rattle.symbol_core.specs.Stands.{Obeys};

use crate::messages::Messages;
use crate::state::{Kept, OpenStep, Step};

impl Kept {
    /// The restriction begins with the first trade of the day that triggers it.
    pub fn restrict(&mut self, step: &Step, opened: &OpenStep, out: &mut Messages)
        requires goes_on { is_done self.old.phase ≡ false }
        requires room { length out.old + 1 ≤ most_of_symbol }
        ensures obeys { Obeys rules.restrict step.now (in_step self.old opened.now) (in_step self.new opened.now) out.old out.new }
        ensures same { self.new ≡ self.old }
        ensures bands { changes_bands self.new step.now ≡ changes_bands self.old step.now }
        ensures len { length out.new ≤ length out.old + 1 }
    {
        if opened.restricts {
            self.say_triggered(step, out);
        }
    }
}
