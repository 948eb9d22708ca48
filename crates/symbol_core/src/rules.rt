//! The rules of a stock, in the order in which each step tries them.

ghost use Rattle.std.specs.Prelude.{◌≡◌, ◌+◌, ◌≤◌, false, length};
ghost use Rattle.rulebook.specs.Book.{symbol_rules};
ghost use Rattle.symbol_core.specs.Evaluates.{most_of_symbol};
ghost use Rattle.symbol_core.specs.Idle.{AwaitsPrice, IsSettled, MeanMoves, changes_bands};
ghost use Rattle.symbol_core.specs.InStep.{in_step};
ghost use Rattle.symbol_core.specs.Stands.{ObeysAll};

use crate::messages::Messages;
use crate::state::{Kept, OpenStep, Step};
use pause_core::is_done;
use window_core::Window;

impl Kept {
    /// The rules of the symbol, in order. The others read that it isn't closed, which those that turn its phase tell. Once they
    /// are obeyed, time gives no other bands at the same step.
    pub fn obey(&mut self, step: &Step, opened: &mut OpenStep, deals: &Window, out: &mut Messages)
        requires { length out.old + 13 ≤ most_of_symbol }
        ensures obeys { ObeysAll deals.now.deals symbol_rules step.now (in_step self.old opened.old) (in_step self.new opened.new) out.old out.new }
        ensures bands { changes_bands self.new step.now ≡ false }
    {
        self.turn(step, opened, out);
        if is_done(self.phase) {
            return;
        }
        self.pause(step, opened, out);
        self.reopen(step, opened, out);
        self.leave_limit(step, opened, out);
        self.publish_band(step, opened, deals, out);
        self.enter_limit(step, opened, out);
        self.straddle(step, out);
        self.restrict(step, opened, out);
    }

    /// The same where only a new reference price was awaited, and the mean is one: the rules before that of the bands then say
    /// nothing.
    pub fn obey_moved(
        &mut self,
        step: &Step,
        opened: &mut OpenStep,
        deals: &Window,
        out: &mut Messages,
    )
        requires awaits { AwaitsPrice self.old step.now }
        requires moves { MeanMoves (in_step self.old opened.old) deals.now.deals step.now }
        requires room { length out.old + 13 ≤ most_of_symbol }
        ensures obeys { ObeysAll deals.now.deals symbol_rules step.now (in_step self.old opened.old) (in_step self.new opened.new) out.old out.new }
        ensures settled { IsSettled self.new step.now.stopped }
        ensures bands { changes_bands self.new step.now ≡ false }
    {
        self.publish_moved(step, opened, deals, out);
        self.enter_limit(step, opened, out);
        self.straddle(step, out);
        self.restrict(step, opened, out);
    }
}
