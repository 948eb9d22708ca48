//! What a symbol says, and what is then kept of it.

ghost use Rattle.std.specs.Prelude.{true, false, None, Some, ◌≡◌, ◌+◌, ◌≤◌, ◌++◌, ◌∷◌, [], List, option_map, length};
ghost use Rattle.rulebook.specs.Auction.{is_paused, origin_of};
ghost use Rattle.rulebook.specs.Symbol.{is_times};
ghost use Rattle.symbol_core.specs.Evaluates.{most_of_symbol};
ghost use Rattle.symbol_core.specs.Idle.{changes_bands};
ghost use Rattle.symbol_core.specs.InStep.{in_step};
ghost use Rattle.symbol_core.specs.Kept.{auction_begun, becoming, begins_auction, in_round, collars_of, run_banded, run_of, turned};
ghost use Rattle.symbol_core.specs.Runs.{run_band};
ghost use Rattle.symbol_core.specs.Stands.{Says};

use crate::messages::Messages;
use crate::record_fields::{indicated_by, opens_early, quoted_by};
use crate::state::{Kept, OpenStep, Run, Step};
use pause_core::{is_limit, is_trading};
use price_core::{Cause, Price};
use refprice_core::Reference;
use reopen_core::{Auction, Origin};
use rulebook::Banded;
use session_core::{Moment, Phase};
use wire_in::Record;
use wire_out::{Message, ShortKind};

pub fn is_paused(phase: Phase) -> bool
    ensures { result ≡ is_paused phase }
{
    matches!(phase, Phase::Paused)
}

/// What a pause out of that phase comes from.
pub fn origin_of(phase: Phase) -> Origin
    ensures { result ≡ origin_of phase }
{
    match phase {
        Phase::LimitLow => Origin::Low,
        Phase::LimitHigh => Origin::High,
        _ => Origin::Straddle,
    }
}

fn is_times(cause: Cause) -> bool
    ensures { result ≡ is_times cause }
{
    matches!(cause, Cause::Times)
}

pub fn midnight() -> Moment
    ensures { result ≡ 0 }
{
    Moment::new(0).unwrap()
}

impl Kept {
    fn begin_run(&mut self, step: &Step, opened: &mut OpenStep)
        ensures run { self.new ≡ record self.old { run = Some (run_of self.old.id step.now) } }
        ensures fresh { opened.new ≡ record opened.old { is_fresh = true } }
    {
        self.run = Some(Run {
            reference: Reference::begin(step.moment),
            quote: quoted_by(self.id, &step.input),
            band: None,
        });
        opened.is_fresh = true;
    }

    fn set_phase(&mut self, step: &Step, opened: &mut OpenStep, phase: Phase)
        ensures { in_step self.new opened.new ≡ turned (in_step self.old opened.old) step.now phase }
    {
        let trades = is_trading(phase);
        if is_limit(self.phase) {
            opened.left_limit = trades || opened.left_limit;
        } else if trades {
            self.begin_run(step, opened);
        }
        self.phase = phase;
        self.since = step.moment;
        self.auction = None;
    }

    /// The symbol's phase becomes this one, without an auction.
    pub fn becomes(&mut self, step: &Step, opened: &mut OpenStep, phase: Phase, out: &mut Messages)
        requires alone { begins_auction self.old phase ≡ false }
        requires room { length out.old + 1 ≤ most_of_symbol }
        ensures says { Says (Message.State self.old.id phase ∷ []) step.now (in_step self.old opened.old) (in_step self.new opened.new) out.old out.new }
        ensures turned { in_step self.new opened.new ≡ turned (in_step self.old opened.old) step.now phase }
        ensures len { length out.new ≡ length out.old + 1 }
    {
        out.push(Message::State {
            symbol: self.id,
            phase,
        });
        self.set_phase(step, opened, phase);
    }
}

impl Kept {
    /// The auction that begins where the symbol is paused with these bands.
    fn auction_begun(&self, step: &Step, b: &Banded) -> Auction
        ensures { result ≡ auction_begun self.now step.now b.now }
    {
        let mut auction = Auction::begin(step.moment, origin_of(self.phase), &b.bands, b.reference);
        if let Some(i) = indicated_by(self.id, &step.input) {
            auction.indicate(i.price, i.unmatched);
        }
        auction
    }

    /// The collars of the auction's last round.
    fn collar(&self, auction: &Auction) -> Message
        ensures { result ≡ Message.Collar self.now.id auction.now.round.number auction.now.round.collars.lower auction.now.round.collars.upper }
    {
        let collars = auction.collars();
        Message::Collar {
            symbol: self.id,
            round: auction.round(),
            lower: collars.lower,
            upper: collars.upper,
        }
    }

    /// The symbol is paused, and the first round of its auction begins.
    pub fn say_pause(
        &mut self,
        step: &Step,
        opened: &mut OpenStep,
        phase: Phase,
        b: &Banded,
        out: &mut Messages,
    )
        requires paused { is_paused phase ≡ true }
        requires band { run_band self.old ≡ Some b.now }
        requires room { length out.old + 2 ≤ most_of_symbol }
        ensures says { Says (becoming self.old phase ++ collars_of self.old.id (auction_begun self.old step.now b.now)) step.now (in_step self.old opened.old) (in_step self.new opened.new) out.old out.new }
        ensures len { length out.new ≡ length out.old + 2 }
    {
        let auction = self.auction_begun(step, b);
        out.push(Message::State {
            symbol: self.id,
            phase,
        });
        out.push(self.collar(&auction));
        self.set_phase(step, opened, phase);
        self.auction = Some(auction);
    }
}

impl Run {
    /// Bands, with a reference price that the run takes with them where they aren't those of the time of day.
    fn take_band(&mut self, step: &Step, b: &Banded)
        ensures { self.new ≡ run_banded step.now b.now self.old }
    {
        self.band = Some(*b);
        if !is_times(b.cause) {
            self.reference.adopt(step.moment, b.reference);
        }
    }
}

impl Kept {
    ghost use Rattle.symbol_core.specs.Kept.{announcing, announcing_name, banded};

    /// A straddle state begins or ends.
    pub fn say_straddle(&mut self, step: &Step, on: bool, out: &mut Messages)
        requires { length out.old + 1 ≤ most_of_symbol }
        ensures says { (opened : OpenStep) → Says (Message.Straddle self.old.id on ∷ []) step.now (in_step self.old opened) (in_step self.new opened) out.old out.new }
        ensures on { self.new ≡ record self.old { straddling = on } }
        ensures bands { changes_bands self.new step.now ≡ changes_bands self.old step.now }
        ensures len { length out.new ≡ length out.old + 1 }
    {
        out.push(Message::Straddle {
            symbol: self.id,
            on,
        });
        self.straddling = on;
    }

    /// The next round of the auction begins.
    pub fn say_round(&mut self, step: &Step, auction: &Auction, out: &mut Messages)
        requires same { option_map (in_round auction.now.round) self.old.auction ≡ Some auction.now }
        requires now { auction.now.round.moment ≡ step.now.moment }
        requires room { length out.old + 1 ≤ most_of_symbol }
        ensures says { (opened : OpenStep) → Says (collars_of self.old.id auction.now) step.now (in_step self.old opened) (in_step self.new opened) out.old out.new }
        ensures len { length out.new ≡ length out.old + 1 }
    {
        out.push(self.collar(auction));
        self.auction = Some(*auction);
    }

    /// The auction releases the symbol.
    pub fn say_release(&self, step: &Step, opened: &mut OpenStep, price: Price, out: &mut Messages)
        requires { length out.old + 1 ≤ most_of_symbol }
        ensures says { Says (Message.Release self.now.id price ∷ []) step.now (in_step self.now opened.old) (in_step self.now opened.new) out.old out.new }
        ensures len { length out.new ≡ length out.old + 1 }
    {
        out.push(Message::Release {
            symbol: self.id,
            price,
        });
        opened.released = Some(price);
    }

    fn say_listed(&mut self, step: &Step, name: [u8; 8], out: &mut Messages)
        requires { length out.old + 1 ≤ most_of_symbol }
        ensures says { (opened : OpenStep) → Says (Message.Listed self.old.id name ∷ []) step.now (in_step self.old opened) (in_step self.new opened) out.old out.new }
        ensures len { length out.new ≡ length out.old + 1 }
    {
        out.push(Message::Listed {
            symbol: self.id,
            name,
        });
    }

    fn say_carried(&mut self, step: &Step, out: &mut Messages)
        requires { length out.old + 1 ≤ most_of_symbol }
        ensures says { (opened : OpenStep) → Says (Message.Short self.old.id ShortKind.Carried ∷ []) step.now (in_step self.old opened) (in_step self.new opened) out.old out.new }
        ensures len { length out.new ≡ length out.old + 1 }
    {
        out.push(Message::Short {
            symbol: self.id,
            kind: ShortKind::Carried,
        });
    }

    fn announce_carried(&mut self, step: &Step, name: [u8; 8], out: &mut Messages)
        requires { length out.old + 2 ≤ most_of_symbol }
        ensures says { (opened : OpenStep) → Says (Message.Listed self.old.id name ∷ Message.Short self.old.id ShortKind.Carried ∷ []) step.now (in_step self.old opened) (in_step self.new opened) out.old out.new }
        ensures len { length out.new ≤ length out.old + 2 }
    {
        self.say_listed(step, name, out);
        self.say_carried(step, out);
    }

    fn announce_name(&mut self, step: &Step, name: [u8; 8], out: &mut Messages)
        requires { length out.old + 2 ≤ most_of_symbol }
        ensures says { (opened : OpenStep) → Says (announcing_name self.old name) step.now (in_step self.old opened) (in_step self.new opened) out.old out.new }
        ensures len { length out.new ≤ length out.old + 2 }
    {
        if self.short.is_carried() {
            self.announce_carried(step, name, out);
        } else {
            self.say_listed(step, name, out);
        }
    }

    /// What a listing announces.
    pub fn announce(&mut self, step: &Step, out: &mut Messages)
        requires { length out.old + 2 ≤ most_of_symbol }
        ensures says { (opened : OpenStep) → Says (announcing self.old step.now.input) step.now (in_step self.old opened) (in_step self.new opened) out.old out.new }
        ensures len { length out.new ≤ length out.old + 2 }
    {
        if let Record::Listing { name, .. } = step.input {
            self.announce_name(step, name, out);
        }
    }

    /// The short sale restriction is triggered.
    pub fn say_triggered(&mut self, step: &Step, out: &mut Messages)
        requires { length out.old + 1 ≤ most_of_symbol }
        ensures says { (opened : OpenStep) → Says (Message.Short self.old.id ShortKind.Triggered ∷ []) step.now (in_step self.old opened) (in_step self.new opened) out.old out.new }
        ensures same { self.new ≡ self.old }
        ensures bands { changes_bands self.new step.now ≡ changes_bands self.old step.now }
        ensures len { length out.new ≡ length out.old + 1 }
    {
        out.push(Message::Short {
            symbol: self.id,
            kind: ShortKind::Triggered,
        });
    }

    fn take_band(&mut self, step: &Step, opened: &mut OpenStep, b: &Banded)
        ensures banded { in_step self.new opened.new ≡ banded (in_step self.old opened.old) step.now b.now }
        ensures rest { self.new ≡ record self.old { run = self.new.run } }
    {
        if let Some(run) = &mut self.run {
            if run.band.is_none() && opens_early(self.id, run.reference.begun(), step) {
                opened.is_fresh = true;
            }
            run.take_band(step, b);
        }
    }

    /// Price bands.
    pub fn say_band(&mut self, step: &Step, opened: &mut OpenStep, b: &Banded, out: &mut Messages)
        requires unpaused { is_paused self.old.phase ≡ false }
        requires times { is_times b.now.cause ≡ true → option_map (λ last. last.reference) (run_band self.old) ≡ Some b.now.reference }
        requires room { length out.old + 1 ≤ most_of_symbol }
        ensures says { Says (Message.Band self.old.id b.now.cause b.now.reference b.now.bands.lower b.now.bands.upper ∷ []) step.now (in_step self.old opened.old) (in_step self.new opened.new) out.old out.new }
        ensures banded { in_step self.new opened.new ≡ banded (in_step self.old opened.old) step.now b.now }
        ensures rest { self.new ≡ record self.old { run = self.new.run } }
        ensures len { length out.new ≡ length out.old + 1 }
    {
        out.push(Message::Band {
            symbol: self.id,
            cause: b.cause,
            reference: b.reference,
            lower: b.bands.lower,
            upper: b.bands.upper,
        });
        self.take_band(step, opened, b);
    }
}
