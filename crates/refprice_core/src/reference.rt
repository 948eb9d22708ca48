//! The reference price of a stock (LULD Plan, Section V).

ghost use Rattle.std.specs.Prelude.{◌≡◌, ◌∷◌, ℕ, false, List, Option, None, Some};
ghost use Rattle.refprice_core.specs.Prices.{awaits_from, awaits_mean, because, observed, forced, first_price, is_in_opening_period, cause_of, price_of, adopted_at};
ghost use Rattle.refprice_core.specs.Runs.{Call, Adopt, Begin, Release, Observe, Force, events, begun_in, last_in};

use price_core::{Cause, Price, moved_one_percent};
use session_core::{FIVE_MINUTES, Moment, THIRTY_SECONDS};
use std::marker::Model;

/// A reference price in ten-thousandths of a dollar, and the moment of its adoption.
#[derive(Clone, Copy, Debug, PartialEq, Eq)]
pub struct Adoption {
    pub moment: Moment,
    pub price: Price,
}

/// A new reference price in ten-thousandths of a dollar, and why it is one.
#[derive(Clone, Copy, Debug, PartialEq, Eq)]
pub struct Priced {
    pub cause: Cause,
    pub price: Price,
}

/// A price as a new reference price, None exactly where there is none.
pub fn because(cause: Cause, price: Option<Price>) -> Option<Priced>
    ensures { result ≡ because cause price }
{
    let price = price?;
    Some(Priced { cause, price })
}

/// The mean as the new reference price at the end of a limit state, None exactly where there is no mean (LULD Plan,
/// Section VI).
pub fn forced(mean: Option<Price>) -> Option<Priced>
    ensures { result ≡ forced mean }
{
    because(Cause::Forced, mean)
}

/// The reference price of a run of continuous trading (LULD Plan, Section V).
#[derive(Clone, Copy, Debug, PartialEq, Eq)]
pub struct Reference {
    begun: Moment,
    last: Option<Adoption>,
}

impl Model for Reference {
    ghost use Rattle.refprice_core.specs.ReferenceState.{ReferenceState};

    ghost Value = { ReferenceState };

    ghost view = { λ r. record { begun = r.begun; last = r.last } };

    ghost inverse = { λ kept. record { begun = kept.begun; last = kept.last } };
}

/// Whether a moment is in the first five minutes of a run (LULD Plan, Section V(A)).
pub fn is_in_opening_period(begun: Moment, t: Moment) -> bool
    ensures { result ≡ is_in_opening_period begun t }
{
    t.nanos() < begun.nanos() + FIVE_MINUTES
}

/// The first price of a run in ten-thousandths of a dollar: within five minutes after its begin the price that is offered,
/// by an opening trade or an opening on quotations, and then the mean; None exactly where there is none (LULD Plan,
/// Section V(B)).
pub fn first_price(
    begun: Moment,
    t: Moment,
    offered: Option<Price>,
    mean: Option<Price>,
) -> Option<Price>
    ensures { result ≡ first_price begun t offered mean }
{
    if is_in_opening_period(begun, t) {
        offered
    } else {
        mean
    }
}

impl Adoption {
    ghost use Rattle.refprice_core.specs.Prices.{has_stood, moved_price};

    /// Whether it has stood for 30 seconds, before which no mean replaces it (LULD Plan, Section V(A)).
    pub fn has_stood(&self, t: Moment) -> bool
        ensures { result ≡ has_stood self.now t }
    {
        self.moment.nanos() + THIRTY_SECONDS <= t.nanos()
    }

    /// The mean, where it has moved by one per cent and 30 seconds have passed (LULD Plan, Section V(A)).
    pub fn moved_price(&self, t: Moment, mean: Option<Price>) -> Option<Price>
        ensures { result ≡ moved_price self.now t mean }
    {
        mean.filter(|price| { moved_one_percent(*price, self.price) && self.has_stood(t) })
    }
}

impl Reference {
    ghost use Rattle.refprice_core.specs.ReferenceState.{with_adopted, Represents};

    /// A run that begins with no price yet.
    pub fn begin(t: Moment) -> Reference
        ensures value { result ≡ record { begun = t; last = None } }
        ensures stands { (calls : List Call) → Represents result (Begin t ∷ calls) }
    {
        Reference {
            begun: t,
            last: None,
        }
    }

    /// A run that begins at the price of a reopening, in ten-thousandths of a dollar.
    pub fn released(t: Moment, p: Price) -> Reference
        ensures value { result ≡ record { begun = t; last = Some (record { moment = t; price = p }) } }
        ensures stands { (calls : List Call) → Represents result (Release t p ∷ calls) }
    {
        Reference {
            begun: t,
            last: Some(Adoption {
                moment: t,
                price: p,
            }),
        }
    }

    /// What is known at a moment as the new reference price, None exactly where it is none: the price that an opening trade or
    /// an opening on quotations offers, and the mean (LULD Plan, Section V(A) and (B)).
    pub fn observed(&self, t: Moment, offered: Option<Price>, mean: Option<Price>) -> Option<Priced>
        ensures value { result ≡ observed self.now.begun self.now.last t offered mean }
        ensures answer { (calls : List Call) → Represents self.now calls
            → result ≡ observed (begun_in (events calls)) (last_in (events calls)) t offered mean }
    {
        match &self.last {
            None => because(Cause::First, first_price(self.begun, t, offered, mean)),
            Some(last) => because(Cause::Moved, last.moved_price(t, mean)),
        }
    }

    /// From when on a mean can be a new reference price, in nanoseconds of the day: the first one from five minutes after the
    /// begin of the run on, another from 30 seconds after the last (LULD Plan, Section V(A) and (B)).
    pub fn awaits_from(&self) -> u64
        ensures value { result ≡ awaits_from self.now.begun self.now.last }
        ensures answer { (calls : List Call) → Represents self.now calls → result ≡ awaits_from (begun_in (events calls)) (last_in (events calls)) }
    {
        match &self.last {
            None => self.begun.nanos() + FIVE_MINUTES,
            Some(last) => last.moment.nanos() + THIRTY_SECONDS,
        }
    }

    /// Whether a mean can be a new reference price at a moment: else none needs to be computed.
    pub fn awaits_mean(&self, t: Moment) -> bool
        ensures value { result ≡ awaits_mean self.now.begun self.now.last t }
        ensures answer { (calls : List Call) → Represents self.now calls → result ≡ awaits_mean (begun_in (events calls)) (last_in (events calls)) t }
        ensures nothing { result ≡ false → (offered mean : Option ℕ) → observed self.now.begun self.now.last t offered mean ≡ observed self.now.begun self.now.last t offered None }
    {
        self.awaits_from() <= t.nanos()
    }

    /// Takes what is known at a moment: the price that an opening trade or an opening on quotations offers, and the mean.
    /// The answer is the cause of the new reference price, None exactly where there is none (LULD Plan, Section V(A) and
    /// (B)).
    pub fn observe(
        &mut self,
        t: Moment,
        offered: Option<Price>,
        mean: Option<Price>,
    ) -> Option<Cause>
        ensures cause { result ≡ cause_of (observed self.old.begun self.old.last t offered mean) }
        ensures value { self.new ≡ with_adopted t (observed self.old.begun self.old.last t offered mean) self.old }
        ensures answer { (calls : List Call) → Represents self.old calls
            → result ≡ cause_of (observed (begun_in (events calls)) (last_in (events calls)) t offered mean) }
        ensures stands { (calls : List Call) → Represents self.old calls → Represents self.new (Observe t offered mean ∷ calls) }
    {
        let priced = self.observed(t, offered, mean)?;
        self.adopt(t, priced.price);
        Some(priced.cause)
    }

    /// Takes the mean at the end of a limit state, as the new reference price; None exactly where there is no mean
    /// (LULD Plan, Section VI).
    pub fn force(&mut self, t: Moment, mean: Option<Price>) -> Option<Cause>
        ensures cause { result ≡ cause_of (forced mean) }
        ensures value { self.new ≡ with_adopted t (forced mean) self.old }
        ensures stands { (calls : List Call) → Represents self.old calls → Represents self.new (Force t mean ∷ calls) }
    {
        self.adopt(t, mean?);
        Some(Cause::Forced)
    }

    /// Takes a new reference price in ten-thousandths of a dollar, whatever it comes of.
    pub fn adopt(&mut self, t: Moment, price: Price)
        ensures value { self.new ≡ record self.old { last = Some (record { moment = t; price = price }) } }
        ensures stands { (calls : List Call) → Represents self.old calls → Represents self.new (Adopt t price ∷ calls) }
    {
        self.last = Some(Adoption { moment: t, price });
    }

    /// The moment at which the run began.
    pub fn begun(&self) -> Moment
        ensures value { result ≡ self.now.begun }
        ensures answer { (calls : List Call) → Represents self.now calls → result ≡ begun_in (events calls) }
    {
        self.begun
    }

    /// The last adoption, None exactly where there was none.
    pub fn last(&self) -> Option<Adoption>
        ensures value { result ≡ self.now.last }
        ensures answer { (calls : List Call) → Represents self.now calls → result ≡ last_in (events calls) }
    {
        self.last
    }

    /// The price last adopted in ten-thousandths of a dollar, None exactly where there was none.
    pub fn current(&self) -> Option<Price>
        ensures value { result ≡ price_of self.now.last }
        ensures answer { (calls : List Call) → Represents self.now calls → result ≡ price_of (last_in (events calls)) }
    {
        self.last.map(|last| last.price)
    }

    /// The moment of the last adoption, or that of the begin where there was none.
    pub fn adopted(&self) -> Moment
        ensures value { result ≡ adopted_at self.now.begun self.now.last }
        ensures answer { (calls : List Call) → Represents self.now calls
            → result ≡ adopted_at (begun_in (events calls)) (last_in (events calls)) }
    {
        self.last.map_or(self.begun, |last| last.moment)
    }
}
