//! Reference prices and price bands (LULD Plan, Section V).

ghost use Rattle.std.specs.Prelude.{◌≡◌, ◌+◌, ◌≤◌, [], true, false, Some, ℕ, List, Option, option_map, length};
ghost use Rattle.std.specs.Option.{option_map_or};
ghost use Rattle.price_core.specs.Moves.{moved_one_percent};
ghost use Rattle.pause_core.specs.Phases.{is_done, is_trading};
ghost use Rattle.window_core.specs.Deals.{live, mean_of};
ghost use Rattle.refprice_core.specs.Prices.{observed};
ghost use Rattle.rulebook.specs.Auction.{is_paused};
ghost use Rattle.rulebook.specs.Rules as rules;
ghost use Rattle.rulebook.specs.Symbol.{bands_of, is_times, prior_close_of};
ghost use Rattle.symbol_core.specs.Evaluates.{most_of_symbol};
ghost use Rattle.symbol_core.specs.Idle.{MeanMoves, changes_bands};
ghost use Rattle.symbol_core.specs.InStep.{in_step};
ghost use Rattle.symbol_core.specs.Pricing as pricing;
ghost use Rattle.symbol_core.specs.Runs.{run_band, run_reference};
ghost use Rattle.symbol_core.specs.Stands.{ObeysWith, Says};
ghost use Rattle.symbol_core.specs.Window.{window};

use crate::messages::Messages;
use crate::publish::midnight;
use crate::record_fields::{opening_price, opens_on_quotes};
use crate::state::{Kept, OpenStep, Step};
use pause_core::is_trading;
use percent_core::{bands, category, percent, span};
use price_core::{Bands, Cause, Price, moved_one_percent};
use refprice_core::{Priced, Reference, because, forced};
use rulebook::{Banded, Terms};
use session_core::{Day, Moment};
use window_core::{Window, live_mean};

/// The bands that a reference price gives at a moment of the day.
fn bands_of(terms: &Terms, day: &Day, t: Moment, reference: Price) -> Bands
    ensures { result ≡ bands_of terms.now day.now t reference }
{
    let category = category(terms.prior_close);
    let percent = percent(terms.tier, category, span(t, day), day.profile);
    bands(reference, category, percent, terms.leverage)
}

fn differs(a: &Bands, b: &Bands) -> bool
    ensures { result ≡ rules.differs a.now b.now }
{
    !(a.lower.units() == b.lower.units() && a.upper.units() == b.upper.units())
}

impl OpenStep {
    /// The price at which it released the symbol, where the run has taken none yet.
    fn released_first(&self, reference: &Reference) -> Option<Price>
        ensures { result ≡ pricing.released_first self.now.released reference.now.last }
    {
        match reference.last() {
            Some(_) => None,
            None => self.released,
        }
    }
}

impl Kept {
    /// The mean of the window, with the open step's own deal.
    fn mean(&self, t: Moment, opened: &OpenStep, deals: &Window) -> Option<Price>
        ensures { result ≡ mean_of (live t (window (in_step self.now opened.now) deals.now.deals)) }
    {
        let last = if self.run.is_some() {
            opened.deal
        } else {
            None
        };
        if opened.is_fresh {
            live_mean(t, &[], &last)
        } else {
            deals.mean_with(t, &last)
        }
    }

    /// The run's reference price, and outside a run that of one that began at midnight.
    pub fn last_reference(&self) -> Reference
        ensures { result ≡ run_reference self.now }
    {
        match &self.run {
            Some(run) => run.reference,
            None => Reference::begin(midnight()),
        }
    }

    /// The prior closing price.
    pub fn close_price(&self) -> Option<Price>
        ensures { result ≡ prior_close_of self.now.terms }
    {
        match self.terms {
            Some(listed) => listed.prior_close,
            None => None,
        }
    }

    /// The price that the step's record offers as the first of a run.
    fn offered(&self, step: &Step) -> Option<Price>
        ensures { result ≡ pricing.offered self.now step.now }
    {
        let price = opening_price(self.id, step);
        if price.is_some() {
            return price;
        }
        if opens_on_quotes(self.id, &step.input) {
            self.close_price()
        } else {
            None
        }
    }

    /// Whether the mean of the window, with the open step's own deal, is at least one per cent away from a reference price.
    fn mean_has_moved(&self, t: Moment, opened: &OpenStep, deals: &Window, reference: Price) -> bool
        ensures { result ≡ option_map_or (λ m. moved_one_percent m reference) (mean_of (live t (window (in_step self.now opened.now) deals.now.deals))) false }
    {
        let last = if self.run.is_some() {
            opened.deal
        } else {
            None
        };
        if opened.is_fresh {
            match self.mean(t, opened, deals) {
                Some(mean) => moved_one_percent(mean, reference),
                None => false,
            }
        } else {
            deals.mean_has_moved_with(t, &last, reference)
        }
    }

    /// The mean of the window, where it may be a new reference price.
    fn awaited_mean(
        &self,
        t: Moment,
        opened: &OpenStep,
        deals: &Window,
        reference: &Reference,
    ) -> Option<Price>
        ensures { (offered : Option ℕ) → observed reference.now.begun reference.now.last t offered result ≡ observed reference.now.begun reference.now.last t offered (mean_of (live t (window (in_step self.now opened.now) deals.now.deals))) }
    {
        if !reference.awaits_mean(t) {
            return None;
        }
        match reference.last() {
            Some(last) if !self.mean_has_moved(t, opened, deals, last.price) => None,
            _ => self.mean(t, opened, deals),
        }
    }
}

impl Kept {
    fn later_price(&self, step: &Step, opened: &OpenStep, deals: &Window) -> Option<Priced>
        ensures { result ≡ pricing.later_price (in_step self.now opened.now) step.now (mean_of (live step.now.moment (window (in_step self.now opened.now) deals.now.deals))) }
    {
        let reference = self.last_reference();
        let released = opened.released_first(&reference);
        if released.is_some() {
            return because(Cause::First, released);
        }
        let mean = self.awaited_mean(step.moment, opened, deals, &reference);
        reference.observed(step.moment, self.offered(step), mean)
    }

    /// A new reference price, where there is one.
    pub fn reference(&self, step: &Step, opened: &OpenStep, deals: &Window) -> Option<Priced>
        ensures { result ≡ pricing.reference (in_step self.now opened.now) step.now (mean_of (live step.now.moment (window (in_step self.now opened.now) deals.now.deals))) }
    {
        if !is_trading(self.phase) {
            None
        } else if opened.left_limit {
            forced(self.mean(step.moment, opened, deals))
        } else {
            self.later_price(step, opened, deals)
        }
    }

    fn band(
        &mut self,
        step: &Step,
        opened: &mut OpenStep,
        cause: Cause,
        price: Price,
        out: &mut Messages,
    )
        requires unpaused { is_paused self.old.phase ≡ false }
        requires times { is_times cause ≡ true → option_map (λ last. last.reference) (run_band self.old) ≡ Some price }
        requires room { length out.old + 1 ≤ most_of_symbol }
        ensures says { Says (pricing.band self.old step.now cause price) step.now (in_step self.old opened.old) (in_step self.new opened.new) out.old out.new }
        ensures rest { self.new ≡ record self.old { run = self.new.run } }
        ensures bands { changes_bands self.new step.now ≡ false }
        ensures len { length out.new ≤ length out.old + 1 }
    {
        if let Some(listed) = self.terms {
            let bands = bands_of(&listed, &step.day, step.moment, price);
            self.say_band(
                step,
                opened,
                &Banded {
                    cause,
                    reference: price,
                    bands,
                },
                out,
            );
        }
    }

    /// Whether time gives other bands than these last ones.
    pub fn time_changes(&self, step: &Step, last: &Banded) -> bool
        ensures { result ≡ pricing.time_changes self.now step.now last.now }
    {
        match self.terms {
            Some(listed) => differs(
                &bands_of(&listed, &step.day, step.moment, last.reference),
                &last.bands,
            ),
            None => false,
        }
    }

    fn band_by_time(&mut self, step: &Step, opened: &mut OpenStep, out: &mut Messages)
        requires { length out.old + 1 ≤ most_of_symbol }
        ensures says { Says (option_map_or (pricing.band_by_time self.old step.now) (run_band self.old) []) step.now (in_step self.old opened.old) (in_step self.new opened.new) out.old out.new }
        ensures rest { self.new ≡ record self.old { run = self.new.run } }
        ensures bands { changes_bands self.new step.now ≡ false }
        ensures len { length out.new ≤ length out.old + 1 }
    {
        if let Some(last) = self.last_band() {
            if is_trading(self.phase) && self.time_changes(step, &last) {
                self.band(step, opened, Cause::Times, last.reference, out);
            }
        }
    }

    fn banding(&mut self, step: &Step, opened: &mut OpenStep, deals: &Window, out: &mut Messages)
        requires { length out.old + 1 ≤ most_of_symbol }
        ensures says { Says (pricing.banding (mean_of (live step.now.moment (window (in_step self.old opened.old) deals.now.deals))) (in_step self.old opened.old) step.now) step.now (in_step self.old opened.old) (in_step self.new opened.new) out.old out.new }
        ensures rest { self.new ≡ record self.old { run = self.new.run } }
        ensures bands { changes_bands self.new step.now ≡ false }
        ensures len { length out.new ≤ length out.old + 1 }
    {
        match self.reference(step, opened, deals) {
            Some(r) => self.band(step, opened, r.cause, r.price, out),
            None => self.band_by_time(step, opened, out),
        }
    }

    /// Bands, with a new reference price or where the time of day changes them.
    pub fn publish_band(
        &mut self,
        step: &Step,
        opened: &mut OpenStep,
        deals: &Window,
        out: &mut Messages,
    )
        requires goes_on { is_done self.old.phase ≡ false }
        requires room { length out.old + 1 ≤ most_of_symbol }
        ensures obeys { ObeysWith deals.now.deals rules.publish_band step.now (in_step self.old opened.old) (in_step self.new opened.new) out.old out.new }
        ensures rest { self.new ≡ record self.old { run = self.new.run } }
        ensures bands { changes_bands self.new step.now ≡ false }
        ensures len { length out.new ≤ length out.old + 1 }
    {
        self.banding(step, opened, deals, out);
    }

    /// The same where the mean, with the step's own deal, is known to be a new reference price, which isn't asked again.
    pub fn publish_moved(
        &mut self,
        step: &Step,
        opened: &mut OpenStep,
        deals: &Window,
        out: &mut Messages,
    )
        requires trading { is_trading self.old.phase ≡ true }
        requires moves { MeanMoves (in_step self.old opened.old) deals.now.deals step.now }
        requires room { length out.old + 1 ≤ most_of_symbol }
        ensures obeys { ObeysWith deals.now.deals rules.publish_band step.now (in_step self.old opened.old) (in_step self.new opened.new) out.old out.new }
        ensures rest { self.new ≡ record self.old { run = self.new.run } }
        ensures bands { changes_bands self.new step.now ≡ false }
        ensures len { length out.new ≤ length out.old + 1 }
    {
        if let Some(mean) = deals.mean_with(step.moment, &opened.deal) {
            self.band(step, opened, Cause::Moved, mean, out);
        }
    }
}
