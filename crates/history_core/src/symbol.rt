//! What a history says of one symbol (LULD Plan), by a search from its newest event.

ghost use Rattle.std.specs.Prelude.{◌≡◌, false};
ghost use Rattle.std.specs.Option.{option_map_or};
ghost use Rattle.history_core.specs.Names.{own_in};
ghost use Rattle.rulebook.specs.History.{records, last};
ghost use Rattle.rulebook.specs.Symbol.{terms_in, terms, prior_close_of, prior_close, state_of, phase_in, phase, since, straddle_of, was_straddling, is_under_regulatory_halt_in, is_under_regulatory_halt};

use crate::admission::index_of;
use crate::history::{now, today};
use price_core::Price;
use rulebook::{Event, Terms};
use session_core::{Moment, Phase, midnight};
use wire_in::{NoticeKind, Record};
use wire_out::Message;

/// Whether a name is at the index of a symbol among these.
pub fn is_own(names: &[[u8; 8]], symbol: u16, name: [u8; 8]) -> bool
    ensures { result ≡ own_in names.now symbol name }
{
    match index_of(names, name) {
        Some(index) => index == symbol as usize,
        None => false,
    }
}

/// The last listing of a symbol since the last Day record.
pub fn terms(h: &[Event], names: &[[u8; 8]], symbol: u16) -> Option<Terms>
    ensures { result ≡ terms h.now (own_in names.now symbol) }
{
    let (last, earlier) = h.split_first()?;
    match *last {
        Event::Accepted(Record::Day { .. }) => None,
        Event::Accepted(
            Record::Listing {
                name,
                tier,
                leverage,
                close,
                ..
            },
        ) => {
            if is_own(names, symbol, name) {
                let listed = Terms {
                    tier,
                    leverage,
                    prior_close: close,
                };
                Some(listed)
            } else {
                terms(earlier, names, symbol)
            }
        }
        _ => terms(earlier, names, symbol),
    }
}

/// The prior close of a listing, where there is one.
pub fn prior_close_of(listed: Option<Terms>) -> Option<Price>
    ensures { result ≡ prior_close_of listed }
{
    listed?.prior_close
}

/// The prior close that today's listing gives.
pub fn prior_close(h: &[Event], names: &[[u8; 8]], symbol: u16) -> Option<Price>
    ensures { result ≡ prior_close h.now (own_in names.now symbol) }
{
    prior_close_of(terms(h, names, symbol))
}

/// The phase that a message gives a symbol.
pub fn state_of(symbol: u16, m: &Message) -> Option<Phase>
    ensures { result ≡ state_of symbol m.now }
{
    match *m {
        Message::State { symbol: of, phase } => (of == symbol).then_some(phase),
        _ => None,
    }
}

/// The phase that these events leave a symbol in.
pub fn phase_in(symbol: u16, h: &[Event]) -> Phase
    ensures { result ≡ phase_in symbol h.now }
{
    let Some((last, earlier)) = h.split_first() else {
        return Phase::Shut;
    };
    match last {
        Event::Accepted(_) => phase_in(symbol, earlier),
        Event::Published(m) => match state_of(symbol, m) {
            Some(phase) => phase,
            None => phase_in(symbol, earlier),
        },
    }
}

/// The phase of a symbol.
pub fn phase(h: &[Event], symbol: u16) -> Phase
    ensures { result ≡ phase h.now symbol }
{
    phase_in(symbol, today(h))
}

/// The moment of the last message among these that gives a symbol a phase.
fn since_in(symbol: u16, h: &[Event]) -> Moment
    ensures { result ≡ option_map_or (λ state. state.moment) (last (state_of symbol) h.now) 0 }
{
    let Some((last, earlier)) = h.split_first() else {
        return midnight();
    };
    match last {
        Event::Accepted(_) => since_in(symbol, earlier),
        Event::Published(m) => match state_of(symbol, m) {
            Some(_) => now(earlier),
            None => since_in(symbol, earlier),
        },
    }
}

/// The moment at which a symbol came into its phase.
pub fn since(h: &[Event], symbol: u16) -> Moment
    ensures { result ≡ since h.now symbol }
{
    since_in(symbol, today(h))
}

/// What a message says of a symbol's straddle state.
fn straddle_of(symbol: u16, m: &Message) -> Option<bool>
    ensures { result ≡ straddle_of symbol m.now }
{
    match *m {
        Message::Straddle { symbol: of, on } => (of == symbol).then_some(on),
        _ => None,
    }
}

/// Whether the last straddle message among these is on.
fn was_straddling_in(symbol: u16, h: &[Event]) -> bool
    ensures { result ≡ option_map_or (λ straddle. straddle.value) (last (straddle_of symbol) h.now) false }
{
    let Some((last, earlier)) = h.split_first() else {
        return false;
    };
    match last {
        Event::Accepted(_) => was_straddling_in(symbol, earlier),
        Event::Published(m) => match straddle_of(symbol, m) {
            Some(on) => on,
            None => was_straddling_in(symbol, earlier),
        },
    }
}

/// Whether a symbol's last straddle message of today is on.
pub fn was_straddling(h: &[Event], symbol: u16) -> bool
    ensures { result ≡ was_straddling h.now symbol }
{
    was_straddling_in(symbol, today(h))
}

/// Whether the last halt notice among these has no resume notice after it.
fn is_under_regulatory_halt_in(symbol: u16, h: &[Event]) -> bool
    ensures { result ≡ is_under_regulatory_halt_in symbol (records h.now) }
{
    let Some((last, earlier)) = h.split_first() else {
        return false;
    };
    match *last {
        Event::Accepted(
            Record::Notice {
                symbol: of,
                kind: NoticeKind::Halt,
                ..
            },
        ) => of == symbol || is_under_regulatory_halt_in(symbol, earlier),
        Event::Accepted(
            Record::Notice {
                symbol: of,
                kind: NoticeKind::Resume,
                ..
            },
        ) => of != symbol && is_under_regulatory_halt_in(symbol, earlier),
        _ => is_under_regulatory_halt_in(symbol, earlier),
    }
}

/// Whether a regulatory halt of a symbol is in effect.
pub fn is_under_regulatory_halt(h: &[Event], symbol: u16) -> bool
    ensures { result ≡ is_under_regulatory_halt h.now symbol }
{
    is_under_regulatory_halt_in(symbol, today(h))
}
