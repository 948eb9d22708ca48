//! Taking a record in, and the deals that are kept at the end of a step.

ghost use Rattle.std.specs.Prelude.{◌≡◌, ◌≤◌, ◌++◌, [], is_some, if◌then◌else◌, filter, length, option_to_list};
ghost use Rattle.window_core.specs.Deals.{live};
ghost use Rattle.symbol_core.specs.InStep.{in_step, just_opened};
ghost use Rattle.symbol_core.specs.Kept.{heard, requoted, with_quote};
ghost use Rattle.symbol_core.specs.Taken.{leaves, renewed, restricts, shorted, taken};
ghost use Rattle.symbol_core.specs.Window.{SameLive};

use crate::publish::midnight;
use crate::record_fields::{cancelled_by, deal_of, halted_by, indicated_by, listed_by, quoted_by};
use crate::state::{Kept, OpenStep, Run, Step};
use price_core::Quotation;
use reopen_core::{Auction, Indication};
use session_core::{Moment, Phase};
use short_core::Short;
use window_core::{Deal, Window};
use wire_in::Record;

impl Run {
    /// Takes the quotation that a record is, where it is one.
    pub fn take_quote(&mut self, quote: Option<Quotation>)
        ensures { self.new ≡ requoted quote self.old }
    {
        if quote.is_some() {
            self.quote = quote;
        }
    }
}

impl OpenStep {
    /// A step that has said nothing yet, with its own deal and whether that begins the short sale restriction.
    pub fn begin(deal: Option<Deal>, restricts: bool) -> OpenStep
        ensures { result ≡ just_opened deal restricts }
    {
        OpenStep {
            left_limit: false,
            is_fresh: false,
            restricts,
            released: None,
            deal,
        }
    }
}

impl Kept {
    /// The kept state of an id at the begin of a day, with whether the day before triggered the short sale restriction.
    pub fn renewed(id: u16, carried: bool) -> Kept
        ensures { result ≡ renewed id carried }
    {
        Kept {
            id,
            terms: None,
            phase: Phase::Shut,
            since: midnight(),
            run: None,
            straddling: false,
            halted: false,
            auction: None,
            short: Short::listed(None, carried),
        }
    }

    /// Takes a quotation in, where there is a run.
    pub fn take_quote(&mut self, quote: Quotation)
        ensures { self.new ≡ with_quote self.old quote }
    {
        if let Some(run) = &mut self.run {
            run.take_quote(Some(quote));
        }
    }

    /// Takes a record in that is no day, and opens its step.
    pub fn take(&mut self, step: &Step) -> OpenStep
        ensures { in_step self.new result ≡ taken self.old step.now }
    {
        self.terms = listed_by(&step.input, self.terms);
        if let Some(run) = &mut self.run {
            run.take_quote(quoted_by(self.id, &step.input));
        }
        self.halted = halted_by(self.id, &step.input, self.halted);
        hear(indicated_by(self.id, &step.input), &mut self.auction);
        let deal = deal_of(self.id, step);
        let restricts = self.take_short(&step.input, &deal);
        OpenStep::begin(deal, restricts)
    }

    /// Takes what the record and its deal are to the short sale restriction. The answer is whether the deal begins it.
    fn take_short(&mut self, x: &Record, deal: &Option<Deal>) -> bool
        ensures short { self.new ≡ record self.old { short = shorted x.now deal.now self.old.short } }
        ensures restricts { result ≡ restricts x.now deal.now self.old.short }
    {
        if let Record::Listing { close, .. } = *x {
            self.short.list(close);
        }
        match deal {
            Some(deal) => self.short.trade(deal.price),
            None => false,
        }
    }
}

/// Takes what is indicated to an auction, where there is one.
fn hear(indication: Option<Indication>, auction: &mut Option<Auction>)
    ensures { auction.new ≡ heard indication auction.old }
{
    if let Some(i) = indication {
        if let Some(heard) = auction {
            heard.indicate(i.price, i.unmatched);
        }
    }
}

/// A cancel takes its deals away.
pub fn drop_cancelled(id: u16, x: &Record, deals: &mut Window)
    ensures items { deals.new.deals ≡ filter (leaves id x.now) deals.old.deals }
    ensures spare { deals.old.spare ≤ deals.new.spare }
{
    if let Some(number) = cancelled_by(id, x) {
        deals.cancel(number);
    }
}

/// A new window keeps none of the deals before it.
fn begin_window(is_fresh: bool, deals: &mut Window)
    ensures items { deals.new.deals ≡ (if is_fresh then [] else deals.old.deals) }
    ensures spare { deals.old.spare ≤ deals.new.spare }
{
    if is_fresh {
        deals.restart();
    }
}

/// Adds the step's deal, where it counts.
fn add_deal(k: &Kept, deal: &Option<Deal>, deals: &mut Window)
    requires { length (option_to_list deal.now) ≤ deals.old.spare }
    ensures { deals.new.deals ≡ deals.old.deals ++ (if is_some k.now.run then option_to_list deal.now else []) }
{
    match deal {
        Some(deal) if k.run.is_some() => deals.add(*deal),
        _ => {}
    }
}

/// The deals of the window that are less than five minutes old become the kept ones, with the step's deal.
pub fn keep_deals(k: &Kept, is_fresh: bool, t: Moment, deal: &Option<Deal>, deals: &mut Window)
    requires { length (option_to_list deal.now) ≤ deals.old.spare }
    ensures same { SameLive t deals.new.deals ((if is_fresh then [] else deals.old.deals) ++ (if is_some k.now.run then option_to_list deal.now else [])) }
    ensures recent { live t (option_to_list deal.now) ≡ option_to_list deal.now → live t deals.new.deals ≡ deals.new.deals }
{
    begin_window(is_fresh, deals);
    deals.advance(t);
    add_deal(k, deal, deals);
}
