//! The short sale restriction of one stock (17 CFR 242.201).

ghost use Rattle.std.specs.Prelude.{◌≡◌, ◌&&◌, ◌||◌, [], ◌∷◌, List, not};
ghost use Rattle.short_core.specs.Restriction.{Trades, relisted, traded, triggers, has_triggered, is_carried, is_restricted};

use price_core::Price;
use std::marker::Model;

/// Whether a trade at that price triggers the restriction after that prior close, both in ten-thousandths of a dollar
/// (17 CFR 242.201(b)).
pub fn triggers(prior_close: Option<Price>, price: Price) -> bool
    ensures { result ≡ triggers prior_close price }
{
    prior_close.is_some_and(|prior_close| 10 * price.units() <= 9 * prior_close.units())
}

/// The short sale restriction of a stock on a day: triggered by a trade at least 10 per cent below the prior close, it
/// stays for the rest of the day and the following day (17 CFR 242.201).
#[derive(Clone, Copy, Debug, PartialEq, Eq)]
pub struct Short {
    prior_close: Option<Price>,
    triggered: bool,
    carried: bool,
}

impl Model for Short {
    ghost use Rattle.short_core.specs.ShortState.{ShortState};

    ghost Value = { ShortState };

    ghost view = { λ s. record { prior_close = s.prior_close; triggered = s.triggered; carried = s.carried } };

    ghost inverse = { λ kept. record { prior_close = kept.prior_close; triggered = kept.triggered; carried = kept.carried } };
}

impl Short {
    ghost use Rattle.short_core.specs.ShortState.{listed, with_prior_close, with_trade, triggers_first, Represents};

    /// A day without a trade yet, with the prior close in ten-thousandths of a dollar, where there is one, and whether
    /// the day before carries the restriction over.
    pub fn listed(prior_close: Option<Price>, carried: bool) -> Short
        ensures value { result ≡ listed prior_close carried }
        ensures stands { (earlier : List Trades) → carried ≡ is_carried earlier
            → Represents result (record { prior_close = prior_close; trades = [] }) earlier }
    {
        Short {
            prior_close,
            triggered: false,
            carried,
        }
    }

    /// Takes a further listing of the day, with the prior close in ten-thousandths of a dollar, where there is one: trades from
    /// now on are measured by it.
    pub fn list(&mut self, prior_close: Option<Price>)
        ensures value { self.new ≡ with_prior_close prior_close self.old }
        ensures stands { (day : Trades) (earlier : List Trades) → Represents self.old day earlier → Represents self.new (relisted prior_close day) earlier }
    {
        self.prior_close = prior_close;
    }

    /// Takes an eligible trade of the session, with its price in ten-thousandths of a dollar: true exactly at the first
    /// of the day that triggers the restriction (17 CFR 242.201(b)).
    pub fn trade(&mut self, p: Price) -> bool
        ensures first { result ≡ triggers_first p self.old }
        ensures value { self.new ≡ with_trade p self.old }
        ensures answer { (day : Trades) (earlier : List Trades) → Represents self.old day earlier
            → result ≡ triggers day.prior_close p && not (has_triggered day) }
        ensures stands { (day : Trades) (earlier : List Trades) → Represents self.old day earlier → Represents self.new (traded p day) earlier }
    {
        let first = !self.triggered && triggers(self.prior_close, p);
        self.triggered |= first;
        first
    }

    /// Whether short sales are restricted: a trade of today triggered it, or it is carried over.
    pub fn restricted(&self) -> bool
        ensures value { result ≡ self.now.triggered || self.now.carried }
        ensures answer { (day : Trades) (earlier : List Trades) → Represents self.now day earlier → result ≡ is_restricted day earlier }
    {
        self.triggered || self.carried
    }

    /// Whether the restriction is carried over from the day before.
    pub fn is_carried(&self) -> bool
        ensures value { result ≡ self.now.carried }
        ensures answer { (day : Trades) (earlier : List Trades) → Represents self.now day earlier → result ≡ is_carried earlier }
    {
        self.carried
    }

    /// Whether the following day carries the restriction: a trade of today triggered it.
    pub fn next_day(&self) -> bool
        ensures value { result ≡ self.now.triggered }
        ensures answer { (day : Trades) (earlier : List Trades) → Represents self.now day earlier → result ≡ is_carried (day ∷ earlier) }
    {
        self.triggered
    }
}
