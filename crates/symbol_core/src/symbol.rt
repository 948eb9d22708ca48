//! One stock, kept from record to record.

ghost use Rattle.std.specs.Prelude.{◌≡◌, ◌+◌, ◌<◌, ◌≤◌, ◌++◌, ℕ, Bool, true, false, None, Some, IfSome, List, [], ◌∷◌, ◌&&◌, not, IsOk, IfOk, OnOk, OnErr, is_some, length, option_to_list};
ghost use Rattle.wire_in.specs.Records.{is_day, is_tick, moment_of};
ghost use Rattle.pause_core.specs.Phases.{is_trading};
ghost use Rattle.window_core.specs.declared.window.Deal.{Deal};
ghost use Rattle.window_core.specs.Deals.{live, mean_of};
ghost use Rattle.wire_out.specs.declared.message.Message.{Message as Said};
ghost use Rattle.rulebook.specs.declared.event.Event.{Event};
ghost use Rattle.rulebook.specs.Symbol as of;
ghost use Rattle.rulebook.specs.Symbol.{traded_price};
ghost use Rattle.symbol_core.specs.Evaluates.{most_of_symbol};
ghost use Rattle.symbol_core.specs.Idle.{HasTaken, IsAwaited, IsDue, IsSettled, IsStill, MayMove, Waits, WaitsAt, brings_deal_or_time, changes_bands, keeps_price};
ghost use Rattle.symbol_core.specs.InStep.{in_step};
ghost use Rattle.symbol_core.specs.Stands.{Speaks};
ghost use Rattle.symbol_core.specs.Steps.{Steps, step_for};
ghost use Rattle.symbol_core.specs.Taken.{deal_of};
ghost use Rattle.symbol_core.specs.Ticks.{Idles};

use crate::due::Due;
use crate::ingest::{drop_cancelled, keep_deals};
use crate::messages::Messages;
use crate::passing::{add_one, deal_in, drop_old, reserve_deal};
use crate::record_fields::{quoted_by, traded_price};
use crate::state::{Kept, OpenStep, Step};
use price_core::NoMemory;
use session_core::{Day, Moment, Phase};
use std::alloc::Global;
use std::marker::Model;
use window_core::{Deal, Window};
use wire_in::Record;

/// What the market is to each symbol: the day, and whether a market-wide halt is in effect.
#[derive(Clone, Copy, Debug, PartialEq, Eq)]
pub struct MarketView {
    pub day: Day,
    pub stopped: bool,
}

impl MarketView {
    /// Whether it is the same as another. Both come as values, so that they are compared as one number and not field by field.
    pub fn is_same(self, other: MarketView) -> bool
        ensures same { result ≡ true → self ≡ other }
        ensures other { self ≡ other → result ≡ true }
    {
        (self.day.date == other.day.date)
            & (self.day.close == other.day.close)
            & (self.day.profile == other.day.profile)
            & (self.stopped == other.stopped)
    }
}

/// One symbol of the directory, from its first listing on.
#[derive(Debug, Drop)]
pub struct Symbol {
    kept: Kept,
    deals: Window,
    due: Option<Due>,
}

impl Model for Symbol {
    ghost use Rattle.symbol_core.specs.Idle.{IsDue};
    ghost use Rattle.symbol_core.specs.Rests.{SymbolState};

    ghost Value = { SymbolState };

    ghost view = { λ s. record { kept = s.kept; deals = s.deals.deals; spare = s.deals.spare } };

    ghost invariant = { λ s. IsDue s.due s.kept s.deals.deals };
}

/// The step of a record.
fn step_of(x: &Record, market: &MarketView) -> Step
    ensures { result ≡ step_for market.now x.now }
{
    Step {
        moment: x.moment(),
        day: market.day,
        stopped: market.stopped,
        input: *x,
    }
}

/// Takes room for the step's deal, where it has one.
fn reserve_for(id: u16, step: &Step, deals: &mut Window) -> Result<(), NoMemory>
    ensures ok { OnOk result (length (option_to_list (deal_of step.now.day id step.now.input)) ≤ deals.new.spare) }
    ensures succeeds { traded_price step.now.day id step.now.input ≡ None → IsOk result }
    ensures room { 1 ≤ deals.old.spare → IsOk result }
    ensures deals { deals.new.deals ≡ deals.old.deals }
    ensures err { OnErr result (deals.new ≡ deals.old) }
{
    match traded_price(id, step) {
        Some(_) => deals.reserve(),
        None => Ok(()),
    }
}

impl Symbol {
    ghost use Rattle.rulebook.specs.Rules.{is_carried};
    ghost use Rattle.symbol_core.specs.Evaluates.{Evaluates};
    ghost use Rattle.symbol_core.specs.Fresh.{IsFresh};
    ghost use Rattle.symbol_core.specs.Rests.{Rests};
    ghost use Rattle.symbol_core.specs.Silent.{SaysNothing};

    /// The symbol of an id before its first listing. It takes no memory yet.
    pub fn new(alloc: Global, id: u16) -> Result<Symbol, NoMemory>
        ensures succeeds { IsOk result }
        ensures id { IfOk result (λ s. s.kept.id ≡ id) }
        ensures rests { IfOk result (λ s. (own : List ℕ → Bool) (h : List Event) → SaysNothing own id h → Rests own s h) }
    {
        Ok(Symbol {
            kept: Kept::renewed(id, false),
            deals: Window::new(alloc)?,
            due: None,
        })
    }

    /// The symbol of an id on a day on which nothing was said of it yet, and which carries its short sale restriction or not: it
    /// stands for whatever came before that leaves just that. It takes no memory.
    pub fn restore(alloc: Global, id: u16, carried: bool) -> Result<Symbol, NoMemory>
        ensures succeeds { IsOk result }
        ensures fresh { IfOk result (IsFresh id carried) }
        ensures rests { IfOk result (λ s. (own : List ℕ → Bool) (day : Record) (h : List Event) → is_day day ≡ true → is_carried (Event.Accepted day ∷ h) own id ≡ carried → Rests own s (Event.Accepted day ∷ h)) }
    {
        Ok(Symbol {
            kept: Kept::renewed(id, carried),
            deals: Window::new(alloc)?,
            due: None,
        })
    }

    /// Whether the day carries its short sale restriction from the day before.
    pub fn is_carried(&self) -> bool
        ensures value { result ≡ self.now.kept.short.carried }
        ensures carried { (own : List ℕ → Bool) (h : List Event) → Rests own self.now h → result ≡ is_carried h own self.now.kept.id }
    {
        self.kept.short.is_carried()
    }

    /// The phase of its trading.
    pub fn phase(&self) -> Phase
        ensures value { result ≡ self.now.kept.phase }
        ensures phase { (own : List ℕ → Bool) (h : List Event) → Rests own self.now h → result ≡ of.phase h self.now.kept.id }
    {
        self.kept.phase
    }

    /// Whether it is listed today.
    pub fn is_listed(&self) -> bool
        ensures value { result ≡ is_some self.now.kept.terms }
        ensures listed { (own : List ℕ → Bool) (h : List Event) → Rests own self.now h → result ≡ is_some (of.terms h own) }
    {
        self.kept.terms.is_some()
    }

    /// When the stock is next due: ticks of that market from that moment on and before that one bring it nothing. None where
    /// that isn't known.
    pub fn due(&self) -> Option<Due>
        ensures idles { IfSome result (λ due. Idles due.market due.from due.until self.now) }
        ensures nothing { IfSome result (λ due. (x : Record) → is_tick x ≡ true → due.from ≤ moment_of x → moment_of x < due.until → (before : List Said) → Evaluates due.market x self.now self.now before before) }
    {
        self.due
    }

    fn begin_day(&mut self, x: &Record, market: &MarketView)
        requires { is_day x.now ≡ true }
        ensures begins { (own : List ℕ → Bool) (h : List Event) → Rests own self.old h → Rests own self.new (Event.Accepted x.now ∷ h) }
        ensures id { self.new.kept.id ≡ self.old.kept.id }
        ensures none { self.new.deals ≡ [] }
    {
        let _day = x.is_day();
        let renewed = Kept::renewed(self.kept.id, self.kept.short.next_day());
        self.due = Some(Due::without_end(x.moment(), market));
        self.kept = renewed;
        self.deals.restart();
    }

    fn stay_away(&mut self, t: Moment, market: &MarketView)
        requires { is_some self.old.kept.terms ≡ false }
        ensures { self.new ≡ self.old }
    {
        self.due = Some(Due::without_end(t, market));
    }

    /// Passes over a clock or an index tick that brings nothing, but removes the trades that are five minutes old. False: it is
    /// no such tick, and all is as it was.
    fn pass(&mut self, x: &Record, market: &MarketView) -> bool
        requires { is_tick x.now ≡ true }
        ensures nothing { result ≡ true → (before : List Said) → Evaluates market.now x.now self.old self.new before before }
        ensures recent { result ≡ true → live (moment_of x.now) self.new.deals ≡ self.new.deals }
        ensures others { result ≡ false → self.new ≡ self.old }
    {
        let t = x.moment();
        match &mut self.due {
            Some(due) if due.holds(t, market) => {
                due.from = t;
                drop_old(t, &mut self.deals);
                true
            }
            _ => false,
        }
    }

    /// Takes a quotation in, where it and its moment bring the run nothing else, and removes the trades that are five minutes
    /// old. Ticks that brought the stock nothing still do, so it is due when it was. False: the record is no such quotation, and
    /// all is as it was.
    #[inline(always)]
    pub fn pass_quote(&mut self, x: &Record, market: &MarketView) -> bool
        ensures nothing { result ≡ true → (before : List Said) → Evaluates market.now x.now self.old self.new before before }
        ensures idles { result ≡ true → (over : MarketView) (from until : ℕ) → moment_of x.now ≤ from → Idles over from until self.old → Idles over from until self.new }
        ensures recent { result ≡ true → live (moment_of x.now) self.new.deals ≡ self.new.deals }
        ensures others { result ≡ false → self.new ≡ self.old }
    {
        let Some(quote) = quoted_by(self.kept.id, x) else {
            return false;
        };
        let t = x.moment();
        match &mut self.due {
            Some(due) if due.holds(t, market) && self.kept.stays_settled(&quote, market.stopped) =>
                {
                    due.from = t;
                    self.kept.take_quote(quote);
                    drop_old(t, &mut self.deals);
                    true
                }
            _ => false,
        }
    }

    /// Whether a trade or a tick brings nothing but its deal and perhaps a new reference price. When the stock is due is then
    /// known from its moment on.
    #[inline(always)]
    fn awaits(&mut self, x: &Record, market: &MarketView, deal: &Option<Deal>) -> bool
        requires kind { brings_deal_or_time x.now ≡ true }
        requires own { deal.now ≡ deal_of market.now.day self.old.kept.id x.now }
        ensures awaited { result ≡ true → IsAwaited self.new.kept market.now x.now deal.now }
        ensures same { self.new ≡ self.old }
    {
        let t = x.moment();
        let Some(due) = &mut self.due else {
            return false;
        };
        if due.waits_for(t, market) && self.kept.awaits_price(deal) {
            due.from = t;
            return true;
        }
        false
    }

    /// Evaluates a trade or a tick that may bring a new reference price and nothing else.
    #[inline(always)]
    fn take_awaited(
        &mut self,
        x: &Record,
        market: &MarketView,
        deal: &Option<Deal>,
        out: &mut Messages,
    ) -> Result<(), NoMemory>
        requires awaited { IsAwaited self.old.kept market.now x.now deal.now }
        requires room { length out.old + 15 ≤ most_of_symbol }
        ensures ok { OnOk result (Evaluates market.now x.now self.old self.new out.old out.new) }
        ensures err { OnErr result ((self.new ≡ self.old) × (out.new ≡ out.old)) }
        ensures succeeds { traded_price market.now.day self.old.kept.id x.now ≡ None → IsOk result }
        ensures room { 1 ≤ self.old.spare → IsOk result }
        ensures recent { OnOk result (live (moment_of x.now) self.new.deals ≡ self.new.deals) }
    {
        reserve_deal(deal, &mut self.deals)?;
        take_deal(
            &mut self.kept,
            &mut self.deals,
            &mut self.due,
            x,
            market,
            deal,
            out,
        );
        Ok(())
    }

    /// Whether time may bring a new reference price at a moment of a market, and nothing else.
    #[inline(always)]
    fn awaits_price_at(&self, t: Moment, market: &MarketView) -> bool {
        match &self.due {
            Some(due) => due.brings_price(t, market),
            None => false,
        }
    }

    /// Evaluates a quotation whose moment may bring a new reference price, where it brings nothing else. False: the record is no
    /// such quotation, and all is as it was. It stays a call of its own, for which the other records make no room.
    #[inline(never)]
    fn take_awaited_quote(&mut self, x: &Record, market: &MarketView, out: &mut Messages) -> bool
        requires room { length out.old + 15 ≤ most_of_symbol }
        ensures takes { result ≡ true → Evaluates market.now x.now self.old self.new out.old out.new }
        ensures recent { result ≡ true → live (moment_of x.now) self.new.deals ≡ self.new.deals }
        ensures others { result ≡ false → (self.new ≡ self.old) × (out.new ≡ out.old) }
    {
        let Some(quote) = quoted_by(self.kept.id, x) else {
            return false;
        };
        let t = x.moment();
        match &mut self.due {
            Some(due) if due.brings_price(t, market) && self.kept.may_move_by(&quote, market) => {
                due.from = t;
                self.kept.take_quote(quote);
                take_deal(
                    &mut self.kept,
                    &mut self.deals,
                    &mut self.due,
                    x,
                    market,
                    &None,
                    out,
                );
                true
            }
            _ => false,
        }
    }

    /// Evaluates a trade or a tick that isn't passed over.
    #[inline(always)]
    fn take_deal_or_time(
        &mut self,
        x: &Record,
        market: &MarketView,
        out: &mut Messages,
    ) -> Result<(), NoMemory>
        requires kind { brings_deal_or_time x.now ≡ true }
        requires listed { (is_tick x.now && not (is_some self.old.kept.terms)) ≡ false }
        requires room { length out.old + 15 ≤ most_of_symbol }
        ensures ok { OnOk result (Evaluates market.now x.now self.old self.new out.old out.new) }
        ensures err { OnErr result ((self.new ≡ self.old) × (out.new ≡ out.old)) }
        ensures succeeds { traded_price market.now.day self.old.kept.id x.now ≡ None → IsOk result }
        ensures room { 1 ≤ self.old.spare → IsOk result }
        ensures recent { OnOk result (live (moment_of x.now) self.new.deals ≡ self.new.deals) }
    {
        let deal = deal_in(self.kept.id, x, &market.day);
        if self.awaits(x, market, &deal) {
            self.take_awaited(x, market, &deal, out)
        } else {
            self.obey(x, market, out)
        }
    }

    /// Evaluates a clock or an index tick. It brings nothing on a day on which the symbol isn't listed.
    #[inline(always)]
    fn take_time(
        &mut self,
        x: &Record,
        market: &MarketView,
        out: &mut Messages,
    ) -> Result<(), NoMemory>
        requires kind { is_tick x.now ≡ true }
        requires room { length out.old + 15 ≤ most_of_symbol }
        ensures ok { OnOk result (Evaluates market.now x.now self.old self.new out.old out.new) }
        ensures err { OnErr result ((self.new ≡ self.old) × (out.new ≡ out.old)) }
        ensures succeeds { traded_price market.now.day self.old.kept.id x.now ≡ None → IsOk result }
        ensures room { 1 ≤ self.old.spare → IsOk result }
        ensures recent { is_some self.new.kept.terms ≡ true → OnOk result (live (moment_of x.now) self.new.deals ≡ self.new.deals) }
    {
        if !self.is_listed() {
            self.stay_away(x.moment(), market);
            return Ok(());
        }
        if self.pass(x, market) {
            return Ok(());
        }
        self.take_deal_or_time(x, market, out)
    }

    /// Evaluates a record: leaves what it announces of the symbol and what the rules then give, in place of the messages that
    /// were there. It leaves none at a Day record, which begins the day, nor at a clock or an index tick of a day on which the
    /// symbol isn't listed. Out of memory, it leaves none and doesn't change the symbol; that can't come of a record that is no
    /// eligible trade of the symbol, nor where there is room for one more deal. Of a listed symbol, no trade that is five minutes old is kept.
    #[inline(always)]
    pub fn evaluate(
        &mut self,
        x: &Record,
        market: &MarketView,
        out: &mut Messages,
    ) -> Result<(), NoMemory>
        ensures ok { OnOk result (Evaluates market.now x.now self.old self.new [] out.new) }
        ensures err { OnErr result ((self.new ≡ self.old) × (out.new ≡ [])) }
        ensures succeeds { traded_price market.now.day self.old.kept.id x.now ≡ None → IsOk result }
        ensures room { 1 ≤ self.old.spare → IsOk result }
        ensures recent { is_some self.new.kept.terms ≡ true → OnOk result (live (moment_of x.now) self.new.deals ≡ self.new.deals) }
    {
        out.clear();
        self.evaluate_behind(x, market, out)
    }

    /// The same behind the messages that there are.
    #[inline(always)]
    fn evaluate_behind(
        &mut self,
        x: &Record,
        market: &MarketView,
        out: &mut Messages,
    ) -> Result<(), NoMemory>
        requires room { length out.old + 15 ≤ most_of_symbol }
        ensures ok { OnOk result (Evaluates market.now x.now self.old self.new out.old out.new) }
        ensures err { OnErr result ((self.new ≡ self.old) × (out.new ≡ out.old)) }
        ensures succeeds { traded_price market.now.day self.old.kept.id x.now ≡ None → IsOk result }
        ensures room { 1 ≤ self.old.spare → IsOk result }
        ensures recent { is_some self.new.kept.terms ≡ true → OnOk result (live (moment_of x.now) self.new.deals ≡ self.new.deals) }
    {
        match x {
            Record::Trade { .. } => return self.take_deal_or_time(x, market, out),
            Record::IndexTick { .. } | Record::Clock { .. } => {
                return self.take_time(x, market, out);
            }
            Record::Day { .. } => {
                self.begin_day(x, market);
                return Ok(());
            }
            _ => {}
        }
        if self.awaits_price_at(x.moment(), market) && self.take_awaited_quote(x, market, out) {
            return Ok(());
        }
        self.obey(x, market, out)
    }

    /// Evaluates a record to which the rules apply. It stays a call of its own, whose large frame the other records don't pay for.
    #[inline(never)]
    fn obey(&mut self, x: &Record, market: &MarketView, out: &mut Messages) -> Result<(), NoMemory>
        requires day { is_day x.now ≡ false }
        requires listed { (is_tick x.now && not (is_some self.old.kept.terms)) ≡ false }
        requires room { length out.old + 15 ≤ most_of_symbol }
        ensures ok { OnOk result (Evaluates market.now x.now self.old self.new out.old out.new) }
        ensures err { OnErr result ((self.new ≡ self.old) × (out.new ≡ out.old)) }
        ensures succeeds { traded_price market.now.day self.old.kept.id x.now ≡ None → IsOk result }
        ensures room { 1 ≤ self.old.spare → IsOk result }
        ensures recent { OnOk result (live (moment_of x.now) self.new.deals ≡ self.new.deals) }
    {
        let step = step_of(x, market);
        reserve_for(self.kept.id, &step, &mut self.deals)?;
        let waits = self.kept.waits_by(&step, &self.due);
        self.due = take_step(&mut self.kept, &mut self.deals, &step, waits, out);
        Ok(())
    }
}

/// Says what the record announces, and then what the rules give. The answer is whether it is known without evaluating
/// them one by one that this is nothing.
fn speak(
    k: &mut Kept,
    opened: &mut OpenStep,
    deals: &Window,
    step: &Step,
    waits: Option<u64>,
    out: &mut Messages,
) -> bool
    requires waits { IfSome waits (λ until. WaitsAt k.old step.now until) }
    requires room { length out.old + 15 ≤ most_of_symbol }
    ensures speaks { Speaks deals.now.deals step.now (in_step k.old opened.old) (in_step k.new opened.new) out.old out.new }
    ensures quiet { result ≡ true → (k.new ≡ k.old) × IsSettled k.old step.now.stopped }
    ensures bands { changes_bands k.new step.now ≡ false }
{
    if waits.is_some() && k.is_quiet(step, opened, deals) {
        return true;
    }
    k.announce(step, out);
    k.obey(step, opened, deals, out);
    false
}

/// When the stock is next due after a step, where it is known or isn't that no rule said anything.
fn due_after(
    k: &Kept,
    deals: &Window,
    step: &Step,
    waits: Option<u64>,
    is_quiet: bool,
) -> Option<Due>
    requires bands { changes_bands k.now step.now ≡ false }
    requires quiet { is_quiet ≡ true → IsSettled k.now step.now.stopped }
    requires waits { is_quiet ≡ true → IfSome waits (λ until. Waits k.now step.now.day step.now.stopped step.now.moment until) }
    ensures { IsDue result k.now deals.now.deals }
{
    match waits {
        Some(waits) if is_quiet => Some(k.due_within(step, deals, waits)),
        _ => k.due(step, deals),
    }
}

/// Takes a record in that is no day, and obeys the rules. The answer is when the stock is next due.
fn take_step(
    k: &mut Kept,
    deals: &mut Window,
    step: &Step,
    waits: Option<u64>,
    out: &mut Messages,
) -> Option<Due>
    requires waits { IfSome waits (λ until. WaitsAt k.old step.now until) }
    requires deals { length (option_to_list (deal_of step.now.day k.old.id step.now.input)) ≤ deals.old.spare }
    requires room { length out.old + 15 ≤ most_of_symbol }
    ensures steps { Steps step.now k.old k.new deals.old.deals deals.new.deals out.old out.new }
    ensures recent { step.now.moment ≡ moment_of step.now.input → live step.now.moment deals.new.deals ≡ deals.new.deals }
    ensures due { IsDue result k.new deals.new.deals }
{
    drop_cancelled(k.id, &step.input, deals);
    drop_old(step.moment, deals);
    let mut opened = k.take(step);
    let deal = opened.deal;
    let is_quiet = speak(k, &mut opened, deals, step, waits, out);
    keep_deals(k, opened.is_fresh, step.moment, &deal, deals);
    due_after(k, deals, step, waits, is_quiet)
}

/// Takes a record in that brings a new reference price, obeys the rules, and sets when the stock is next due. It stays a call of
/// its own, whose large frame the other records don't pay for.
#[inline(never)]
fn take_moved(
    k: &mut Kept,
    deals: &mut Window,
    due: &mut Option<Due>,
    x: &Record,
    market: &MarketView,
    deal: &Option<Deal>,
    out: &mut Messages,
)
    requires moves { MayMove k.old market.now x.now deal.now }
    requires trading { is_trading k.old.phase ≡ true }
    requires mean { keeps_price k.old (moment_of x.now) (mean_of (live (moment_of x.now) (deals.old.deals ++ option_to_list deal.now))) ≡ false }
    requires deals { length (option_to_list deal.now) ≤ deals.old.spare }
    requires room { length out.old + 15 ≤ most_of_symbol }
    ensures steps { (was : Kept) (kept : List Deal) → HasTaken was k.old market.now x.now deal.now → live (moment_of x.now) kept ≡ deals.old.deals
        → Steps (step_for market.now x.now) was k.new kept deals.new.deals out.old out.new }
    ensures recent { live (moment_of x.now) deals.new.deals ≡ deals.new.deals }
    ensures due { IsDue due.new k.new deals.new.deals }
{
    let step = step_of(x, market);
    let mut opened = OpenStep::begin(*deal, false);
    k.obey_moved(&step, &mut opened, deals, out);
    keep_deals(k, opened.is_fresh, step.moment, deal, deals);
    *due = Some(k.due_within(&step, deals, k.waits(&step)));
}

/// Evaluates a record that is taken in but for its deal, and that may bring a new reference price and nothing else: where it
/// brings none, no rule is asked. The trades that are five minutes old go first, so that the mean takes no time for each trade.
#[inline(always)]
fn take_deal(
    k: &mut Kept,
    deals: &mut Window,
    due: &mut Option<Due>,
    x: &Record,
    market: &MarketView,
    deal: &Option<Deal>,
    out: &mut Messages,
)
    requires moves { MayMove k.old market.now x.now deal.now }
    requires due { IfSome due.old (λ due. IsStill k.old due) }
    requires deals { length (option_to_list deal.now) ≤ deals.old.spare }
    requires room { length out.old + 15 ≤ most_of_symbol }
    ensures steps { (was : Kept) → HasTaken was k.old market.now x.now deal.now → Steps (step_for market.now x.now) was k.new deals.old.deals deals.new.deals out.old out.new }
    ensures recent { live (moment_of x.now) deals.new.deals ≡ deals.new.deals }
    ensures due { IsDue due.new k.new deals.new.deals }
{
    let t = x.moment();
    drop_old(t, deals);
    if k.keeps_price(t, deal, deals) {
        add_one(deal, deals);
        k.stay_due(due, deals);
        return;
    }
    take_moved(k, deals, due, x, market, deal, out);
}
