//! The reopening auction of one stock (after Nasdaq Rule 4120).

ghost use Rattle.std.specs.Prelude.{◌≡◌, ◌+◌, ◌*◌, ◌<◌, ◌≤◌, ◌∷◌, ℕ, Bool, List};
ghost use Rattle.session_core.specs.Durations.{five_minutes};
ghost use Rattle.price_core.specs.declared.quote.Collars.{Collars};
ghost use Rattle.reopen_core.specs.Trials.{outcome, trial};
ghost use Rattle.reopen_core.specs.Calls.{Call, Begin, Indicate, Try, trial_after};

use crate::collars::{auction_reference, collar_step, first_collars, with_lower, with_upper};
use price_core::{Bands, Collars, Price, Unmatched};
use session_core::{FIVE_MINUTES, Moment};
use std::marker::Model;

/// What a trading pause came out of: a limit state at the lower or the upper price band, or a straddle state.
#[derive(Clone, Copy, Debug, PartialEq, Eq)]
pub enum Origin {
    Low,
    High,
    Straddle,
}

/// The price that an auction would have, in ten-thousandths of a dollar, and the side of the market orders that it would
/// leave unmatched.
#[derive(Clone, Copy, Debug, PartialEq, Eq)]
pub struct Indication {
    pub price: Price,
    pub unmatched: Unmatched,
}

/// A round of an auction: its number, from 0 on, the moment at which it began, and its collars.
#[derive(Clone, Copy, Debug, PartialEq, Eq)]
pub struct Round {
    pub number: u16,
    pub moment: Moment,
    pub collars: Collars,
}

/// What a trial gives: nothing yet, collars of the next round, a release at a price, or a pause up to the close.
#[derive(Clone, Copy, Debug, PartialEq, Eq)]
pub enum Trial {
    NotDue,
    Extend(Collars),
    Release(Price),
    Closing,
}

/// The outcome of a trial that is due.
fn outcome(indication: &Option<Indication>, reference: Price, collars: &Collars) -> Trial
    ensures { result ≡ outcome indication.now reference collars.now }
{
    let Some(indication) = indication else {
        return Trial::Release(reference);
    };
    let step = collar_step(reference);
    if indication.price > collars.upper {
        Trial::Extend(with_upper(collars, step))
    } else if indication.price < collars.lower {
        Trial::Extend(with_lower(collars, step))
    } else {
        match indication.unmatched {
            Unmatched::Nothing => Trial::Release(indication.price),
            Unmatched::Buy => Trial::Extend(with_upper(collars, step)),
            Unmatched::Sell => Trial::Extend(with_lower(collars, step)),
        }
    }
}

/// A trial at a moment, in the last ten minutes of the session or before them, of a round, with the auction reference and
/// the last indication: NotDue exactly where the round began less than five minutes before it (after Nasdaq Rule 4120).
pub fn try_round(
    t: Moment,
    last_10: bool,
    round: &Round,
    reference: Price,
    indication: &Option<Indication>,
) -> Trial
    ensures value { result ≡ trial t last_10 round.now reference indication.now }
    ensures due { (collars : Collars) → result ≡ Trial.Extend collars → round.now.moment + five_minutes ≤ t }
{
    if t.nanos() < round.moment.nanos() + FIVE_MINUTES {
        return Trial::NotDue;
    }
    if last_10 {
        return Trial::Closing;
    }
    outcome(indication, reference, &round.collars)
}

/// A reopening auction (after Nasdaq Rule 4120). Each round lasts at least five minutes, so that the rounds of a day are
/// few.
#[derive(Clone, Copy, Debug, PartialEq, Eq)]
pub struct Auction {
    reference: Price,
    indication: Option<Indication>,
    round: Round,
}

impl Model for Auction {
    ghost use Rattle.reopen_core.specs.AuctionState.{AuctionState, IsTimely};

    ghost Value = { AuctionState };

    ghost view = { λ a. record { reference = a.reference; indication = a.indication; round = a.round } };

    ghost invariant = { λ a. IsTimely a.round };

    ghost inverse = { λ kept. record { reference = kept.reference; indication = kept.indication; round = kept.round } };
}

impl Auction {
    ghost use Rattle.reopen_core.specs.AuctionState.{begun, with_indication, with_trial, Represents};

    /// An auction that begins at a moment, with the price bands and the reference price of the stock.
    pub fn begin(t: Moment, origin: Origin, bands: &Bands, reference: Price) -> Auction
        ensures value { result ≡ begun t origin bands.now reference }
        ensures stands { (calls : List Call) → Represents result (Begin t origin bands.now reference ∷ calls) }
    {
        Auction {
            reference: auction_reference(origin, bands, reference),
            indication: None,
            round: Round {
                number: 0,
                moment: t,
                collars: first_collars(origin, bands, reference),
            },
        }
    }

    /// The collars of the last round.
    pub fn collars(&self) -> Collars
        ensures { result ≡ self.now.round.collars }
    {
        self.round.collars
    }

    /// The number of the last round, from 0 to 287.
    pub fn round(&self) -> u16
        ensures value { result ≡ self.now.round.number }
        ensures few { result ≤ 287 }
    {
        let _moment = self.round.moment.nanos();
        self.round.number
    }

    /// From when on a trial is due, in nanoseconds of the day: five minutes after the last round began.
    pub fn due(&self) -> u64
        ensures value { result ≡ self.now.round.moment + five_minutes }
        ensures waits { (calls : List Call) → Represents self.now calls → (t : ℕ) (last_10 : Bool) → t < result → trial_after t last_10 calls ≡ Trial.NotDue }
    {
        self.round.moment.nanos() + FIVE_MINUTES
    }

    /// Takes an indication of the price and of the side of unmatched orders, in place of an earlier one.
    pub fn indicate(&mut self, price: Price, unmatched: Unmatched)
        ensures value { self.new ≡ with_indication price unmatched self.old }
        ensures stands { (calls : List Call) → Represents self.old calls → Represents self.new (Indicate price unmatched ∷ calls) }
    {
        self.indication = Some(Indication { price, unmatched });
    }

    /// A trial at a moment, in the last ten minutes of the session or before them: NotDue exactly where the last round
    /// began less than five minutes before it. An extension begins the next round; else the auction stays as it was.
    pub fn trial(&mut self, t: Moment, last_10: bool) -> Trial
        ensures trial { result ≡ trial t last_10 self.old.round self.old.reference self.old.indication }
        ensures value { self.new ≡ with_trial t result self.old }
        ensures answer { (calls : List Call) → Represents self.old calls → result ≡ trial_after t last_10 calls }
        ensures stands { (calls : List Call) → Represents self.old calls → Represents self.new (Try t last_10 ∷ calls) }
    {
        let trial = try_round(t, last_10, &self.round, self.reference, &self.indication);
        if let Trial::Extend(collars) = &trial {
            self.extend(t, collars);
        }
        trial
    }

    /// Begins the next round.
    fn extend(&mut self, t: Moment, collars: &Collars)
        requires { self.old.round.moment + five_minutes ≤ t }
        ensures { self.new ≡ with_trial t (Trial.Extend collars.now) self.old }
    {
        let number = self.round.number + 1;
        self.round = Round {
            number,
            moment: t,
            collars: *collars,
        };
    }
}
