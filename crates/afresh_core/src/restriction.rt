//! The short sale restriction (17 CFR 242.201), by a search of the history from its newest event.

ghost use Rattle.std.specs.Prelude.{◌≡◌, option_to_list};
ghost use Rattle.rulebook.specs.History.{records};
ghost use Rattle.rulebook.specs.Rules.{triggers, triggered_in, has_triggered, restrict, before_day, is_carried};
ghost use Rattle.history_core.specs.Names.{own_in};
ghost use Rattle.afresh_core.specs.Contexts.{context_of};

use crate::context::Context;
use history_core::{before_step, day_record, prior_close_of, terms, traded_price};
use rulebook::{Event, Terms};
use session_core::Day;
use wire_in::Record;
use wire_out::{Message, ShortKind};

/// Whether a record triggers the restriction of a symbol with this listing.
fn triggers(day: &Day, symbol: u16, x: &Record, listed: Option<Terms>) -> bool
    ensures { result ≡ triggers day.now symbol x.now listed }
{
    match traded_price(day, symbol, x) {
        Some(price) => short_core::triggers(prior_close_of(listed), price),
        None => false,
    }
}

/// Whether a record since the last Day record triggered the restriction of a symbol.
fn triggered_in(names: &[[u8; 8]], day: &Day, symbol: u16, h: &[Event]) -> bool
    ensures { result ≡ triggered_in (own_in names.now symbol) day.now symbol (records h.now) }
{
    let Some((last, earlier)) = h.split_first() else {
        return false;
    };
    match last {
        Event::Published(_) => triggered_in(names, day, symbol, earlier),
        Event::Accepted(x) => {
            !x.is_day()
                && (triggers(day, symbol, x, terms(earlier, names, symbol))
                    || triggered_in(names, day, symbol, earlier))
        }
    }
}

/// Whether an earlier record of today triggered the restriction.
fn has_triggered(c: &Context) -> bool
    ensures { result ≡ has_triggered (context_of c.now) }
{
    triggered_in(c.names, &c.day, c.symbol, before_step(c.history))
}

/// The restriction, at the first trade of the day that triggers it.
pub fn restrict(c: &Context) -> Option<Message>
    ensures { option_to_list result ≡ restrict (context_of c.now) }
{
    let listed = terms(c.history, c.names, c.symbol);
    if triggers(&c.day, c.symbol, &c.newest, listed) && !has_triggered(c) {
        let message = Message::Short {
            symbol: c.symbol,
            kind: ShortKind::Triggered,
        };
        Some(message)
    } else {
        None
    }
}

/// The events before the last Day record.
fn before_day(h: &[Event]) -> &[Event]
    ensures { records result.now ≡ before_day (records h.now) }
{
    let Some((last, earlier)) = h.split_first() else {
        return h;
    };
    match last {
        Event::Published(_) => before_day(earlier),
        Event::Accepted(x) => {
            if x.is_day() {
                earlier
            } else {
                before_day(earlier)
            }
        }
    }
}

/// Whether a trade of the day before today triggered the restriction.
pub fn is_carried(h: &[Event], names: &[[u8; 8]], symbol: u16) -> bool
    ensures { result ≡ is_carried h.now (own_in names.now symbol) symbol }
{
    let before = before_day(h);
    match day_record(before) {
        Some((day, _)) => triggered_in(names, &day, symbol, before),
        None => false,
    }
}
