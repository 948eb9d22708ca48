//! Reopening auctions (after Nasdaq Rule 4120).

ghost use Rattle.std.specs.Prelude.{◌≡◌, ◌+◌, ◌≤◌, ◌∷◌, Some, List, false, option_map, length};
ghost use Rattle.pause_core.specs.Phases.{is_done};
ghost use Rattle.reopen_core.specs.AuctionState.{with_trial};
ghost use Rattle.rulebook.specs.Rules as rules;
ghost use Rattle.symbol_core.specs.Evaluates.{most_of_symbol};
ghost use Rattle.symbol_core.specs.InStep.{in_step};
ghost use Rattle.symbol_core.specs.Kept.{becoming, reopened, reopening, reopening_with};
ghost use Rattle.symbol_core.specs.Stands.{Obeys, Says};

use crate::messages::Messages;
use crate::state::{Kept, OpenStep, Step};
use price_core::Price;
use reopen_core::{Auction, Trial};
use session_core::{Phase, last_10};
use wire_out::Message;

impl Kept {
    fn release(&mut self, step: &Step, opened: &mut OpenStep, price: Price, out: &mut Messages)
        requires { length out.old + 2 ≤ most_of_symbol }
        ensures says { Says (Message.Release self.old.id price ∷ becoming self.old Phase.Trading) step.now (in_step self.old opened.old) (in_step self.new opened.new) out.old out.new }
        ensures len { length out.new ≤ length out.old + 2 }
    {
        self.say_release(step, opened, price, out);
        self.becomes(step, opened, Phase::Trading, out);
    }

    /// Takes what a trial gave, and the auction as it left it.
    fn take_trial(
        &mut self,
        step: &Step,
        opened: &mut OpenStep,
        auction: &Auction,
        trial: Trial,
        out: &mut Messages,
    )
        requires tried { option_map (with_trial step.now.moment trial) self.old.auction ≡ Some auction.now }
        requires room { length out.old + 2 ≤ most_of_symbol }
        ensures says { Says (reopened self.old auction.now trial) step.now (in_step self.old opened.old) (in_step self.new opened.new) out.old out.new }
        ensures len { length out.new ≤ length out.old + 2 }
    {
        match trial {
            Trial::NotDue => {}
            Trial::Extend(_) => self.say_round(step, auction, out),
            Trial::Release(price) => self.release(step, opened, price, out),
            Trial::Closing => self.becomes(step, opened, Phase::Closing, out),
        }
    }

    fn try_auction(
        &mut self,
        step: &Step,
        opened: &mut OpenStep,
        auction: &Auction,
        out: &mut Messages,
    )
        requires auction { self.old.auction ≡ Some auction.now }
        requires room { length out.old + 2 ≤ most_of_symbol }
        ensures says { Says (reopening_with self.old step.now auction.now) step.now (in_step self.old opened.old) (in_step self.new opened.new) out.old out.new }
        ensures len { length out.new ≤ length out.old + 2 }
    {
        let mut tried = *auction;
        let trial = tried.trial(step.moment, last_10(step.moment, &step.day));
        self.take_trial(step, opened, &tried, trial, out);
    }

    fn reopening(&mut self, step: &Step, opened: &mut OpenStep, out: &mut Messages)
        requires { length out.old + 2 ≤ most_of_symbol }
        ensures says { Says (reopening self.old step.now) step.now (in_step self.old opened.old) (in_step self.new opened.new) out.old out.new }
        ensures len { length out.new ≤ length out.old + 2 }
    {
        if let Some(auction) = self.auction {
            self.try_auction(step, opened, &auction, out);
        }
    }

    /// A trial of the reopening auction, five minutes after its last round began.
    pub fn reopen(&mut self, step: &Step, opened: &mut OpenStep, out: &mut Messages)
        requires goes_on { is_done self.old.phase ≡ false }
        requires room { length out.old + 2 ≤ most_of_symbol }
        ensures obeys { Obeys rules.reopen step.now (in_step self.old opened.old) (in_step self.new opened.new) out.old out.new }
        ensures len { length out.new ≤ length out.old + 2 }
    {
        self.reopening(step, opened, out);
    }
}
