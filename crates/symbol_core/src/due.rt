//! When a symbol is next due: before that, clocks and index ticks bring nothing of it.

ghost use Rattle.std.specs.Prelude.{◌≡◌, ◌<◌, ◌≤◌, ◌&&◌, ◌||◌, ℕ, true, false, None, Some, IfSome, List, is_some, not};
ghost use Rattle.session_core.specs.declared.day.Day.{Day};
ghost use Rattle.session_core.specs.Times.{is_closed};
ghost use Rattle.pause_core.specs.Phases.{can_start, is_trading};
ghost use Rattle.percent_core.specs.Percentages.{span};
ghost use Rattle.window_core.specs.declared.window.Deal.{Deal};
ghost use Rattle.rulebook.specs.Rules.{at_band};
ghost use Rattle.symbol_core.specs.Idle.{ChangesBandsFrom, IsDue, IsSettled, IsSettledAt, PausesFrom, PricesFrom, ReopensFrom, StartsFrom, Waits, WaitsAt, changes_bands, is_out, leaves_limit};
ghost use Rattle.window_core.specs.Deals.{live, mean_of};
ghost use Rattle.symbol_core.specs.InStep.{in_step};
ghost use Rattle.symbol_core.specs.Pricing.{reference};
ghost use Rattle.symbol_core.specs.Runs.{run_band, run_reference};
ghost use Rattle.symbol_core.specs.Window.{window};

use crate::phase_rules::at_band;
use crate::record_fields::comes_often;
use crate::state::{Kept, OpenStep, Step};
use crate::symbol::MarketView;
use pause_core::{
    can_market_halt, can_start, is_done, is_in_regulatory_halt, is_limit, is_trading,
};
use price_core::Quotation;
use refprice_core::Adoption;
use session_core::{
    Day, END_OF_FIRST_15_MINUTES, FIFTEEN_SECONDS, Moment, Phase, SESSION_OPEN,
    TWENTY_FIVE_MINUTES, close_moment,
};
use window_core::Window;

/// From when on and until when ticks of one market bring a stock nothing.
#[derive(Clone, Copy, Debug)]
pub struct Due {
    pub from: Moment,
    /// In nanoseconds of the day.
    pub until: u64,
    /// Until when time brings nothing but perhaps a new reference price, in nanoseconds of the day.
    pub waits: u64,
    pub market: MarketView,
}

impl Due {
    /// From a step on, over its market.
    fn of(step: &Step, waits: u64, until: u64) -> Due
        ensures { result ≡ record { from = step.now.moment; until = until; waits = waits; market = record { day = step.now.day; stopped = step.now.stopped } } }
    {
        Due {
            from: step.moment,
            until,
            waits,
            market: MarketView {
                day: step.day,
                stopped: step.stopped,
            },
        }
    }

    /// From a moment on, without an end.
    pub(crate) fn without_end(t: Moment, market: &MarketView) -> Due {
        Due {
            from: t,
            until: u64::MAX,
            waits: u64::MAX,
            market: *market,
        }
    }

    /// Until when time brings nothing but perhaps a new reference price, where that is known at a step of a record that
    /// comes often, in nanoseconds of the day.
    fn waits_at(&self, step: &Step) -> Option<u64>
        ensures { IfSome result (λ until. (k : Kept) (deals : List Deal) → IsDue (Some self.now) k deals → is_out k ≡ false → WaitsAt k step.now until) }
    {
        let market = MarketView {
            day: step.day,
            stopped: step.stopped,
        };
        let waits = self.from.nanos() <= step.moment.nanos() && step.moment.nanos() < self.waits;
        if comes_often(&step.input) && waits && market.is_same(self.market) {
            Some(self.waits)
        } else {
            None
        }
    }

    /// Whether a tick at a moment of a market brings nothing.
    pub(crate) fn holds(&self, t: Moment, market: &MarketView) -> bool
        ensures from { result ≡ true → self.now.from ≤ t }
        ensures until { result ≡ true → t < self.now.until }
        ensures market { result ≡ true → market.now ≡ self.now.market }
    {
        self.from.nanos() <= t.nanos() && t.nanos() < self.until && market.is_same(self.market)
    }
}

/// The close, or before it the next moment at which the percentages change, in nanoseconds of the day.
fn next_change(t: Moment, day: &Day) -> u64
    ensures { (u : ℕ) → t ≤ u → u < result → span u day.now ≡ span t day.now }
{
    let close = close_moment(day).nanos();
    let last_25 = close.saturating_sub(TWENTY_FIVE_MINUTES);
    if last_25 <= t.nanos() {
        close
    } else if t.nanos() < END_OF_FIRST_15_MINUTES {
        END_OF_FIRST_15_MINUTES.min(last_25)
    } else {
        last_25
    }
}

fn close_of(day: &Day) -> u64
    ensures { (u : ℕ) → u < result → is_closed u day.now ≡ false }
{
    close_moment(day).nanos()
}

pub fn earlier(a: u64, b: u64) -> u64
    ensures first { result ≤ a }
    ensures second { result ≤ b }
{
    if a < b { a } else { b }
}

impl Kept {
    fn leaves_limit(&self, quote: &Option<Quotation>) -> bool
        ensures { result ≡ leaves_limit self.now quote.now }
    {
        is_limit(self.phase) && !at_band(self.phase, quote, &self.last_band())
    }

    fn enters_limit(&self, side: Phase, quote: &Option<Quotation>) -> bool
        ensures { result ≡ (is_trading self.now.phase && at_band side quote.now (run_band self.now)) }
    {
        is_trading(self.phase) && at_band(side, quote, &self.last_band())
    }

    /// Whether no rule says anything at a tick, whatever its time, where that is the run's last quotation.
    fn is_settled_at(&self, quote: &Option<Quotation>, stopped: bool) -> bool
        ensures { result ≡ true → IsSettledAt self.now quote.now stopped }
    {
        !(stopped && can_market_halt(self.phase))
            && self.halted == is_in_regulatory_halt(self.phase)
            && !self.leaves_limit(quote)
            && !self.enters_limit(Phase::LimitLow, quote)
            && !self.enters_limit(Phase::LimitHigh, quote)
            && self.straddles_at(quote) == self.straddling
    }

    /// Whether no rule says anything at a tick, whatever its time.
    fn is_settled(&self, stopped: bool) -> bool
        ensures { result ≡ true → IsSettled self.now stopped }
    {
        self.is_settled_at(&self.last_quote(), stopped)
    }

    /// Whether a quotation leaves a stock in a run in peace, whatever the time.
    pub fn is_settled_by(&self, quote: &Quotation, stopped: bool) -> bool
        ensures listed { result ≡ true → is_out self.now ≡ false }
        ensures run { result ≡ true → is_some self.now.run ≡ true }
        ensures settled { result ≡ true → IsSettledAt self.now (Some quote.now) stopped }
    {
        !self.is_out() && self.run.is_some() && self.is_settled_at(&Some(*quote), stopped)
    }
}

// From when on a rule may say something at a tick, in nanoseconds of the day; `u64::MAX` where there is no such moment.
impl Kept {
    fn can_start(&self, stopped: bool) -> bool
        ensures { result ≡ (can_start self.now.phase && not stopped) }
    {
        can_start(self.phase) && !stopped
    }

    fn starts_from(&self, stopped: bool) -> u64
        ensures { (day : Day) → StartsFrom self.now day stopped result }
    {
        if self.can_start(stopped) {
            SESSION_OPEN
        } else {
            u64::MAX
        }
    }

    /// 15 seconds after the begin of a limit state (LULD Plan, Section VII(A)).
    fn pauses_from(&self) -> u64
        ensures { PausesFrom self.now result }
    {
        if is_limit(self.phase) {
            self.since.nanos() + FIFTEEN_SECONDS
        } else {
            u64::MAX
        }
    }

    /// Five minutes after the last collars (after Nasdaq Rule 4120).
    fn reopens_from(&self) -> u64
        ensures { ReopensFrom self.now result }
    {
        match &self.auction {
            Some(auction) => auction.due(),
            None => u64::MAX,
        }
    }

    /// When the percentages change next (LULD Plan, Appendix A).
    fn changes_bands_from(&self, step: &Step) -> u64
        requires { changes_bands self.now step.now ≡ false }
        ensures { ChangesBandsFrom self.now step.now.day step.now.moment result }
    {
        if is_trading(self.phase) {
            next_change(step.moment, &step.day)
        } else {
            u64::MAX
        }
    }
}

// The same of a new reference price (LULD Plan, Section V).
impl Kept {
    /// After a reference price, once another mean is awaited: when that of the deals that are left may be far from it.
    fn moves_from(&self, t: Moment, last: &Adoption, deals: &Window) -> u64
        ensures { (run_reference self.now).last ≡ Some last.now → PricesFrom self.now deals.now.deals t result }
    {
        let awaits = self.last_reference().awaits_from();
        deals.moves_from(t.nanos().max(awaits), last.price)
    }

    /// From when on time may bring a new reference price, in nanoseconds of the day.
    pub fn prices_from(&self, t: Moment, deals: &Window) -> u64
        ensures { PricesFrom self.now deals.now.deals t result }
    {
        if !is_trading(self.phase) {
            return u64::MAX;
        }
        let reference = self.last_reference();
        match &reference.last() {
            Some(last) => self.moves_from(t, last, deals),
            None if deals.oldest().is_none() => u64::MAX,
            None => reference.awaits_from(),
        }
    }
}

impl Kept {
    /// Until when time brings nothing but perhaps a new reference price, in nanoseconds of the day.
    pub fn waits(&self, step: &Step) -> u64
        requires { changes_bands self.now step.now ≡ false }
        ensures { Waits self.now step.now.day step.now.stopped step.now.moment result }
    {
        let close = close_of(&step.day);
        let starts = self.starts_from(step.stopped);
        let pauses = self.pauses_from();
        let reopens = self.reopens_from();
        let bands = self.changes_bands_from(step);
        earlier(
            earlier(close, bands),
            earlier(starts, earlier(pauses, reopens)),
        )
    }

    pub fn is_out(&self) -> bool
        ensures { result ≡ is_out self.now }
    {
        is_done(self.phase) || !self.terms.is_some()
    }

    /// The same by when the stock was due before the step; None where that doesn't tell it.
    pub fn waits_by(&self, step: &Step, due: &Option<Due>) -> Option<u64>
        ensures { IfSome result (λ until. (deals : List Deal) → IsDue due.now self.now deals → WaitsAt self.now step.now until) }
    {
        match due {
            Some(due) if !self.is_out() => due.waits_at(step),
            _ => None,
        }
    }

    /// Whether no rule says anything at the step of a record that comes often, where time brings nothing but perhaps a new
    /// reference price.
    pub fn is_quiet(&self, step: &Step, opened: &OpenStep, deals: &Window) -> bool
        ensures settled { result ≡ true → IsSettled self.now step.now.stopped }
        ensures prices { result ≡ true → reference (in_step self.now opened.now) step.now (mean_of (live step.now.moment (window (in_step self.now opened.now) deals.now.deals))) ≡ None }
        ensures restricts { result ≡ true → opened.now.restricts ≡ false }
    {
        self.is_settled(step.stopped)
            && self.reference(step, opened, deals).is_none()
            && !opened.restricts
    }

    /// When the symbol is next due after a step, where only time can bring something, and before a moment only a new
    /// reference price.
    pub fn due_within(&self, step: &Step, deals: &Window, waits: u64) -> Due
        ensures { IsSettled self.now step.now.stopped → Waits self.now step.now.day step.now.stopped step.now.moment waits → IsDue (Some result) self.now deals.now.deals }
    {
        let prices = self.prices_from(step.moment, deals);
        Due::of(step, waits, earlier(waits, prices))
    }

    /// When the symbol is next due after a step, at which time gives no other bands. None where a rule says something at the
    /// next tick, whenever that comes.
    pub fn due(&self, step: &Step, deals: &Window) -> Option<Due>
        requires bands { changes_bands self.now step.now ≡ false }
        ensures { IsDue result self.now deals.now.deals }
    {
        if self.is_out() {
            Some(Due::of(step, u64::MAX, u64::MAX))
        } else if self.is_settled(step.stopped) {
            Some(self.due_within(step, deals, self.waits(step)))
        } else {
            None
        }
    }
}
