//! The runs of continuous trading of one symbol, by a search of the history from its newest event: a run begins where
//! trading begins other than out of a limit state.

ghost use Rattle.std.specs.Prelude.{◌≡◌, ◌∷◌, false, IfOk, option_map};
ghost use Rattle.std.specs.Option.{option_map_or};
ghost use Rattle.pause_core.specs.Phases.{is_trading};
ghost use Rattle.rulebook.specs.declared.event.Event.TheVariants.{Published};
ghost use Rattle.rulebook.specs.History.{newest, step_record, last};
ghost use Rattle.rulebook.specs.Symbol.{state_of, phase_in, begins_run, run_in, run, begun_in, begun, quote_in, quote, band_of, is_times, adoption_of, last_band, adopted};

use crate::history::{now, today, with_first};
use crate::symbol::{phase_in, state_of};
use pause_core::{is_limit, is_trading};
use price_core::{Bands, Cause, NoMemory, Quotation};
use rulebook::{Banded, Event};
use session_core::{Moment, midnight};
use std::alloc::Global;
use wire_in::Record;
use wire_out::Message;

/// The newest record.
pub fn newest(h: &[Event]) -> Option<Record>
    ensures { result ≡ newest h.now }
{
    let (last, earlier) = h.split_first()?;
    match last {
        Event::Accepted(x) => Some(*x),
        Event::Published(_) => newest(earlier),
    }
}

/// The open step without its messages.
pub fn step_record(alloc: Global, h: &[Event]) -> Result<Vec<Event>, NoMemory>
    ensures { IfOk result (λ step. step.items ≡ step_record h.now) }
{
    with_first(newest(h).map(Event::Accepted), Vec::new(alloc))
}

/// Whether a message gives a symbol the phase of trading.
pub fn begins_trading(symbol: u16, m: &Message) -> bool
    ensures { result ≡ option_map_or is_trading (state_of symbol m.now) false }
{
    match state_of(symbol, m) {
        Some(phase) => is_trading(phase),
        None => false,
    }
}

/// Whether a message begins a run of a symbol after these events.
fn begins_run(symbol: u16, m: &Message, h: &[Event]) -> bool
    ensures { result ≡ begins_run symbol m.now h.now }
{
    begins_trading(symbol, m) && !is_limit(phase_in(symbol, h))
}

/// The events of a run that begins with a message after these events.
pub fn new_run(alloc: Global, m: Message, h: &[Event]) -> Result<Vec<Event>, NoMemory>
    ensures { IfOk result (λ events. events.items ≡ Published m ∷ step_record h.now) }
{
    let step = step_record(alloc, h)?;
    with_first(Some(Event::Published(m)), step)
}

/// A run, where there is one, with one more event.
fn longer(event: Event, run: Option<Vec<Event>>) -> Result<Option<Vec<Event>>, NoMemory>
    ensures { IfOk result (λ more. option_map (λ r. r.items) more ≡ option_map (λ r. event ∷ r.items) run) }
{
    match run {
        Some(run) => Ok(Some(with_first(Some(event), run)?)),
        None => Ok(None),
    }
}

/// The events of the last run: the record of the step that began it, and what came from there on.
fn run_in(alloc: Global, symbol: u16, h: &[Event]) -> Result<Option<Vec<Event>>, NoMemory>
    ensures { IfOk result (λ run. option_map (λ r. r.items) run ≡ run_in symbol h.now) }
{
    let Some((last, earlier)) = h.split_first() else {
        return Ok(None);
    };
    match last {
        Event::Accepted(_) => longer(*last, run_in(alloc, symbol, earlier)?),
        Event::Published(m) => {
            if begins_run(symbol, m, earlier) {
                Ok(Some(new_run(alloc, *m, earlier)?))
            } else {
                longer(*last, run_in(alloc, symbol, earlier)?)
            }
        }
    }
}

/// The events of the last run of today, none where there is no run.
pub fn run(alloc: Global, h: &[Event], symbol: u16) -> Result<Vec<Event>, NoMemory>
    ensures { IfOk result (λ events. events.items ≡ run h.now symbol) }
{
    match run_in(alloc, symbol, today(h))? {
        Some(run) => Ok(run),
        None => Ok(Vec::new(alloc)),
    }
}

/// The moment at which the last run among these events began.
fn begun_in(symbol: u16, h: &[Event]) -> Option<Moment>
    ensures { result ≡ begun_in symbol h.now }
{
    let (last, earlier) = h.split_first()?;
    match last {
        Event::Accepted(_) => begun_in(symbol, earlier),
        Event::Published(m) => {
            if begins_run(symbol, m, earlier) {
                Some(now(earlier))
            } else {
                begun_in(symbol, earlier)
            }
        }
    }
}

/// The moment at which the last run of today began, midnight where there is no run.
pub fn begun(h: &[Event], symbol: u16) -> Moment
    ensures { result ≡ begun h.now symbol }
{
    match begun_in(symbol, today(h)) {
        Some(begun) => begun,
        None => midnight(),
    }
}

/// The last quotation of a symbol among these events.
fn quote_in(symbol: u16, h: &[Event]) -> Option<Quotation>
    ensures { result ≡ quote_in symbol h.now }
{
    let (last, earlier) = h.split_first()?;
    match *last {
        Event::Accepted(
            Record::Quote {
                symbol: of,
                bid,
                offer,
                ..
            },
        ) => {
            if of == symbol {
                Some(Quotation { bid, offer })
            } else {
                quote_in(symbol, earlier)
            }
        }
        _ => quote_in(symbol, earlier),
    }
}

/// The last quotation of the run.
pub fn quote(alloc: Global, h: &[Event], symbol: u16) -> Result<Option<Quotation>, NoMemory>
    ensures { IfOk result (λ last. last ≡ quote h.now symbol) }
{
    let run = run(alloc, h, symbol)?;
    Ok(quote_in(symbol, &run))
}

/// The price bands that a message gives a symbol.
pub fn band_of(symbol: u16, m: &Message) -> Option<Banded>
    ensures { result ≡ band_of symbol m.now }
{
    match *m {
        Message::Band {
            symbol: of,
            cause,
            reference,
            lower,
            upper,
        } => {
            let bands = Bands { lower, upper };
            let banded = Banded {
                cause,
                reference,
                bands,
            };
            (of == symbol).then_some(banded)
        }
        _ => None,
    }
}

/// The last price bands of a symbol among these events.
pub fn last_band_in(symbol: u16, h: &[Event]) -> Option<Banded>
    ensures { result ≡ option_map (λ b. b.value) (last (band_of symbol) h.now) }
{
    let (last, earlier) = h.split_first()?;
    match last {
        Event::Accepted(_) => last_band_in(symbol, earlier),
        Event::Published(m) => match band_of(symbol, m) {
            Some(banded) => Some(banded),
            None => last_band_in(symbol, earlier),
        },
    }
}

/// The run's last price bands.
pub fn last_band(alloc: Global, h: &[Event], symbol: u16) -> Result<Option<Banded>, NoMemory>
    ensures { IfOk result (λ band. band ≡ last_band h.now symbol) }
{
    let run = run(alloc, h, symbol)?;
    Ok(last_band_in(symbol, &run))
}

fn is_times(cause: Cause) -> bool
    ensures { result ≡ is_times cause }
{
    cause == Cause::Times
}

/// The price bands that a message gives a symbol with a new reference price.
fn adoption_of(symbol: u16, m: &Message) -> Option<Banded>
    ensures { result ≡ adoption_of symbol m.now }
{
    let banded = band_of(symbol, m)?;
    if is_times(banded.cause) {
        None
    } else {
        Some(banded)
    }
}

/// The moment of the last new reference price among these events.
fn adopted_in(symbol: u16, h: &[Event]) -> Moment
    ensures { result ≡ option_map_or (λ b. b.moment) (last (adoption_of symbol) h.now) 0 }
{
    let Some((last, earlier)) = h.split_first() else {
        return midnight();
    };
    match last {
        Event::Accepted(_) => adopted_in(symbol, earlier),
        Event::Published(m) => match adoption_of(symbol, m) {
            Some(_) => now(earlier),
            None => adopted_in(symbol, earlier),
        },
    }
}

/// The moment at which the run last took a reference price.
pub fn adopted(alloc: Global, h: &[Event], symbol: u16) -> Result<Moment, NoMemory>
    ensures { IfOk result (λ moment. moment ≡ adopted h.now symbol) }
{
    let run = run(alloc, h, symbol)?;
    Ok(adopted_in(symbol, &run))
}
