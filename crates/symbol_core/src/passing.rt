//! Quotations that bring nothing but themselves, and records that bring nothing but perhaps a new reference price.

ghost use Rattle.std.specs.Prelude.{◌≡◌, ◌<◌, ◌≤◌, ◌++◌, ◌&&◌, [], Bool, None, Some, IfSome, if◌then◌else◌, true, false, is_some, length, nat_le, nat_lt, not, option_to_list, IsOk, OnErr, OnOk};
ghost use Rattle.wire_in.specs.Records.{is_tick};
ghost use Rattle.window_core.specs.Deals.{live, mean_of};
ghost use Rattle.limit_core.specs.Limits.{straddles};
ghost use Rattle.rulebook.specs.Rules.{at_band, meets};
ghost use Rattle.refprice_core.specs.Prices.{moved_price};
ghost use Rattle.symbol_core.specs.Idle.{IsDue, IsSettled, IsSettledAt, IsStill, PricesFrom, brings_deal_or_time, is_out, has_price, keeps_price};
ghost use Rattle.symbol_core.specs.Runs.{run_band, run_reference};
ghost use Rattle.symbol_core.specs.Taken.{deal_of, triggers_by};

use crate::due::{Due, earlier};
use crate::state::Kept;
use crate::symbol::MarketView;
use eligible_core::eligible;
use pause_core::is_trading;
use price_core::{Bands, NoMemory, Price, Quotation};
use refprice_core::Adoption;
use rulebook::Banded;
use session_core::{Day, Moment, Phase};
use window_core::{Deal, Window};
use wire_in::Record;

/// The eligible trade that a record is.
#[inline(always)]
pub fn deal_in(id: u16, x: &Record, day: &Day) -> Option<Deal>
    ensures { result ≡ deal_of day.now id x.now }
{
    match *x {
        Record::Trade {
            moment,
            symbol,
            number,
            price,
            flags,
            ..
        } if symbol == id && eligible(flags, moment, day) => Some(Deal {
            moment,
            number,
            price,
        }),
        _ => None,
    }
}

/// Removes the deals that are five minutes old. Mostly there are none, which one comparison tells.
pub fn drop_old(t: Moment, deals: &mut Window)
    ensures deals { deals.new.deals ≡ live t deals.old.deals }
    ensures spare { deals.old.spare ≤ deals.new.spare }
{
    if !deals.are_live(t) {
        deals.advance(t);
    }
}

/// Takes room for a deal, where there is one.
pub fn reserve_deal(deal: &Option<Deal>, deals: &mut Window) -> Result<(), NoMemory>
    ensures ok { OnOk result (length (option_to_list deal.now) ≤ deals.new.spare) }
    ensures succeeds { deal.now ≡ None → IsOk result }
    ensures room { 1 ≤ deals.old.spare → IsOk result }
    ensures deals { deals.new.deals ≡ deals.old.deals }
    ensures err { OnErr result (deals.new ≡ deals.old) }
{
    match deal {
        Some(_) => deals.reserve(),
        None => Ok(()),
    }
}

/// Adds a deal, where there is one.
pub fn add_one(deal: &Option<Deal>, deals: &mut Window)
    requires { length (option_to_list deal.now) ≤ deals.old.spare }
    ensures { deals.new.deals ≡ deals.old.deals ++ option_to_list deal.now }
{
    if let Some(deal) = deal {
        deals.add(*deal);
    }
}

/// Whether a bid and an offer lie within two bands: neither is at a band that it could meet, nor beyond one.
#[inline(always)]
fn lies_within(bid: Price, offer: Price, bands: &Bands) -> bool
    ensures { result ≡ (nat_le bands.now.lower bid && nat_lt bid bands.now.upper && nat_lt bands.now.lower offer && nat_le offer bands.now.upper) }
{
    bands.lower <= bid && bid < bands.upper && bands.lower < offer && offer <= bands.upper
}

/// Whether a quotation is known to be at no band and to straddle none.
#[inline(always)]
fn is_within(quote: &Quotation, band: &Option<Banded>) -> bool
    ensures low { result ≡ true → at_band Phase.LimitLow (Some quote.now) band.now ≡ false }
    ensures high { result ≡ true → at_band Phase.LimitHigh (Some quote.now) band.now ≡ false }
    ensures straddles { result ≡ true → meets straddles (Some quote.now) band.now ≡ false }
{
    match (band, quote.bid.get(), quote.offer.get()) {
        (Some(last), Some(bid), Some(offer)) => lies_within(bid, offer, &last.bands),
        _ => false,
    }
}

/// Whether the mean of the kept deals and one more is no new reference price in place of the last one.
#[inline(always)]
fn is_kept(last: &Adoption, t: Moment, deal: &Option<Deal>, deals: &Window) -> bool
    ensures { result ≡ not (is_some (moved_price last.now t (mean_of (live t (deals.now.deals ++ option_to_list deal.now))))) }
{
    !last.has_stood(t) || !deals.mean_has_moved_with(t, deal, last.price)
}

impl Due {
    /// Whether time brings nothing but perhaps a new reference price at a moment of a market.
    pub fn waits_for(&self, t: Moment, market: &MarketView) -> bool
        ensures from { result ≡ true → self.now.from ≤ t }
        ensures until { result ≡ true → t < self.now.waits }
        ensures market { result ≡ true → market.now ≡ self.now.market }
    {
        self.from.nanos() <= t.nanos() && t.nanos() < self.waits && market.is_same(self.market)
    }

    /// Whether time may bring a new reference price at a moment of a market, and nothing else.
    pub fn brings_price(&self, t: Moment, market: &MarketView) -> bool
        ensures from { result ≡ true → self.now.from ≤ t }
        ensures until { result ≡ true → t < self.now.waits }
        ensures market { result ≡ true → market.now ≡ self.now.market }
    {
        self.until <= t.nanos() && self.waits_for(t, market)
    }
}

impl Kept {
    /// Whether a quotation lies within the bands of a run.
    #[inline(always)]
    fn has_within(&self, quote: &Quotation) -> bool
        ensures run { result ≡ true → is_some self.now.run ≡ true }
        ensures low { result ≡ true → at_band Phase.LimitLow (Some quote.now) (run_band self.now) ≡ false }
        ensures high { result ≡ true → at_band Phase.LimitHigh (Some quote.now) (run_band self.now) ≡ false }
        ensures straddles { result ≡ true → meets straddles (Some quote.now) (run_band self.now) ≡ false }
    {
        match &self.run {
            Some(run) => is_within(quote, &run.band),
            None => false,
        }
    }

    /// Whether a quotation lies within the bands of a stock that is trading and isn't straddling.
    #[inline(always)]
    fn stays_within(&self, quote: &Quotation) -> bool
        ensures listed { result ≡ true → is_out self.now ≡ false }
        ensures run { result ≡ true → is_some self.now.run ≡ true }
        ensures settled { result ≡ true → (stopped : Bool) → IsSettled self.now stopped → IsSettledAt self.now (Some quote.now) stopped }
    {
        is_trading(self.phase) && !self.straddling && self.terms.is_some() && self.has_within(quote)
    }

    /// Whether a quotation leaves a settled stock in a run in peace, whatever the time.
    #[inline(always)]
    pub fn stays_settled(&self, quote: &Quotation, stopped: bool) -> bool
        ensures listed { result ≡ true → is_out self.now ≡ false }
        ensures run { result ≡ true → is_some self.now.run ≡ true }
        ensures settled { result ≡ true → IsSettled self.now stopped → IsSettledAt self.now (Some quote.now) stopped }
    {
        self.stays_within(quote) || self.is_settled_by(quote, stopped)
    }

    /// Whether a deal counts, where there is one: its run has begun.
    fn counts(&self, deal: &Option<Deal>) -> bool
        ensures { result ≡ true → (if is_some self.now.run then option_to_list deal.now else []) ≡ option_to_list deal.now }
    {
        self.run.is_some() || deal.is_none()
    }

    /// Whether a deal is the first of today that triggers the short sale restriction.
    #[inline(always)]
    fn is_restricted_by(&self, deal: &Option<Deal>) -> bool
        ensures { result ≡ (triggers_by self.now.short.prior_close deal.now && not self.now.short.triggered) }
    {
        let mut short = self.short;
        match deal {
            Some(deal) => short.trade(deal.price),
            None => false,
        }
    }

    /// Whether the mean of the kept deals and one more is no new reference price.
    #[inline(always)]
    pub fn keeps_price(&self, t: Moment, deal: &Option<Deal>, deals: &Window) -> bool
        ensures { result ≡ keeps_price self.now t (mean_of (live t (deals.now.deals ++ option_to_list deal.now))) }
    {
        if !is_trading(self.phase) {
            return true;
        }
        match &self.last_reference().last() {
            Some(last) => is_kept(last, t, deal, deals),
            None => false,
        }
    }

    /// Whether the stock has a reference price, where it is trading. The first price of a run is left to its rule.
    #[inline(always)]
    fn has_price(&self) -> bool
        ensures { result ≡ has_price self.now }
    {
        self.last_reference().last().is_some() || !is_trading(self.phase)
    }

    /// Whether a deal, where there is one, brings a settled stock nothing but perhaps a new reference price.
    #[inline(always)]
    pub fn awaits_price(&self, deal: &Option<Deal>) -> bool
        ensures priced { result ≡ true → has_price self.now ≡ true }
        ensures listed { result ≡ true → is_out self.now ≡ false }
        ensures counts { result ≡ true → (if is_some self.now.run then option_to_list deal.now else []) ≡ option_to_list deal.now }
        ensures restricts { result ≡ true → (triggers_by self.now.short.prior_close deal.now && not self.now.short.triggered) ≡ false }
    {
        self.has_price() && !self.is_out() && self.counts(deal) && !self.is_restricted_by(deal)
    }

    /// Whether a quotation brings a settled stock nothing but perhaps a new reference price.
    #[inline(always)]
    pub fn may_move_by(&self, quote: &Quotation, market: &MarketView) -> bool
        ensures priced { result ≡ true → has_price self.now ≡ true }
        ensures listed { result ≡ true → is_out self.now ≡ false }
        ensures run { result ≡ true → is_some self.now.run ≡ true }
        ensures settled { result ≡ true → IsSettled self.now market.now.stopped → IsSettledAt self.now (Some quote.now) market.now.stopped }
    {
        self.has_price() && self.stays_settled(quote, market.stopped)
    }

    /// Sets when the stock is next due once other deals are kept, where no rule says anything.
    pub fn stay_due(&self, due: &mut Option<Due>, deals: &Window)
        requires { IfSome due.old (λ due. IsStill self.now due) }
        ensures { IsDue due.new self.now deals.now.deals }
    {
        if let Some(due) = due {
            due.until = earlier(due.waits, self.prices_from(due.from, deals));
        }
    }
}
