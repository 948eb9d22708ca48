//! Reopening auctions (after Nasdaq Rule 4120): what a history says of the last one of a symbol, by a search from its newest
//! event.

ghost use Rattle.std.specs.Prelude.{◌≡◌, option_map, option_and_then};
ghost use Rattle.rulebook.specs.History.{newest, last};
ghost use Rattle.rulebook.specs.Auction.{collar_of, round_of, last_round, is_paused, pauses, origin_of, origin_in, origin, indicated_by, indication_in, indication};

use crate::history::{now, today};
use crate::runs::newest;
use crate::symbol::{phase_in, state_of};
use price_core::Collars;
use reopen_core::{Indication, Origin, Round};
use rulebook::Event;
use session_core::Phase;
use wire_in::Record;
use wire_out::Message;

/// The number and the collars of a round that a message begins.
fn collar_of(symbol: u16, m: &Message) -> Option<(u16, Collars)>
    ensures { result ≡ collar_of symbol m.now }
{
    match *m {
        Message::Collar {
            symbol: of,
            round,
            lower,
            upper,
        } => (of == symbol).then_some((round, Collars { lower, upper })),
        _ => None,
    }
}

/// The last round of a symbol among these events.
fn last_round_in(symbol: u16, h: &[Event]) -> Option<Round>
    ensures { result ≡ option_map round_of (last (collar_of symbol) h.now) }
{
    let (last, earlier) = h.split_first()?;
    match last {
        Event::Accepted(_) => last_round_in(symbol, earlier),
        Event::Published(m) => match collar_of(symbol, m) {
            Some((number, collars)) => {
                let moment = now(earlier);
                let round = Round {
                    number,
                    moment,
                    collars,
                };
                Some(round)
            }
            None => last_round_in(symbol, earlier),
        },
    }
}

/// The last round of a symbol today.
pub fn last_round(h: &[Event], symbol: u16) -> Option<Round>
    ensures { result ≡ last_round h.now symbol }
{
    last_round_in(symbol, today(h))
}

/// Whether a phase is a trading pause with a reopening auction.
pub fn is_paused(phase: Phase) -> bool
    ensures { result ≡ is_paused phase }
{
    phase == Phase::Paused
}

/// Whether a message pauses a symbol.
fn pauses(symbol: u16, m: &Message) -> bool
    ensures { result ≡ pauses symbol m.now }
{
    match state_of(symbol, m) {
        Some(phase) => is_paused(phase),
        None => false,
    }
}

/// What a pause out of that phase comes from.
pub fn origin_of(phase: Phase) -> Origin
    ensures { result ≡ origin_of phase }
{
    match phase {
        Phase::LimitLow => Origin::Low,
        Phase::LimitHigh => Origin::High,
        _ => Origin::Straddle,
    }
}

/// What the last pause of a symbol among these events came from.
fn origin_in(symbol: u16, h: &[Event]) -> Origin
    ensures { result ≡ origin_in symbol h.now }
{
    let Some((last, earlier)) = h.split_first() else {
        return Origin::Straddle;
    };
    match last {
        Event::Accepted(_) => origin_in(symbol, earlier),
        Event::Published(m) => {
            if pauses(symbol, m) {
                origin_of(phase_in(symbol, earlier))
            } else {
                origin_in(symbol, earlier)
            }
        }
    }
}

/// What the last pause of a symbol today came from.
pub fn origin(h: &[Event], symbol: u16) -> Origin
    ensures { result ≡ origin h.now symbol }
{
    origin_in(symbol, today(h))
}

/// The indication that a record gives a symbol.
fn indicated_by(symbol: u16, x: &Record) -> Option<Indication>
    ensures { result ≡ indicated_by symbol x.now }
{
    match *x {
        Record::Indication {
            symbol: of,
            price,
            unmatched,
            ..
        } => (of == symbol).then_some(Indication { price, unmatched }),
        _ => None,
    }
}

/// The indication that the newest record gives a symbol.
fn newest_indication(symbol: u16, h: &[Event]) -> Option<Indication>
    ensures { result ≡ option_and_then (indicated_by symbol) (newest h.now) }
{
    let x = newest(h)?;
    indicated_by(symbol, &x)
}

/// The last indication of a symbol among these events, from the record of the step of the last pause on.
fn indication_in(symbol: u16, h: &[Event]) -> Option<Indication>
    ensures { result ≡ indication_in symbol h.now }
{
    let (last, earlier) = h.split_first()?;
    match last {
        Event::Accepted(x) => match indicated_by(symbol, x) {
            Some(indication) => Some(indication),
            None => indication_in(symbol, earlier),
        },
        Event::Published(m) => {
            if pauses(symbol, m) {
                newest_indication(symbol, earlier)
            } else {
                indication_in(symbol, earlier)
            }
        }
    }
}

/// The last indication of a symbol today since its last pause.
pub fn indication(h: &[Event], symbol: u16) -> Option<Indication>
    ensures { result ≡ indication h.now symbol }
{
    indication_in(symbol, today(h))
}
