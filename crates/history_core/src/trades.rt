//! The trades of one symbol that count, and their mean (LULD Plan, Section V), by a search of the history from its newest
//! event.

ghost use Rattle.std.specs.Prelude.{◌≡◌, ◌∷◌, ◌++◌, ◌&&◌, ◌==◌, [], false, not, if◌then◌else◌, IfOk};
ghost use Rattle.std.specs.List.{list_any};
ghost use Rattle.std.specs.Option.{option_map_or};
ghost use Rattle.eligible_core.specs.Conditions.{eligible};
ghost use Rattle.window_core.specs.Deals.{live, mean_of};
ghost use Rattle.rulebook.specs.History.{newest};
ghost use Rattle.rulebook.specs.Symbol.{traded_price, opening_price, opens_before, is_first_band, counted_in, counted, cancels, deals_in, deals_of, mean};

use crate::history::{now, with_first};
use crate::runs::{band_of, begun, last_band_in, new_run, newest, run};
use eligible_core::{eligible, opening};
use price_core::{NoMemory, Price};
use rulebook::Event;
use session_core::{Day, FIVE_MINUTES, Moment};
use std::alloc::Global;
use window_core::{Deal, live_mean};
use wire_in::Record;
use wire_out::Message;

/// The price of a record that is an eligible trade of a symbol.
pub fn traded_price(day: &Day, symbol: u16, x: &Record) -> Option<Price>
    ensures { result ≡ traded_price day.now symbol x.now }
{
    match *x {
        Record::Trade {
            moment,
            symbol: of,
            price,
            flags,
            ..
        } => (of == symbol && eligible(flags, moment, day)).then_some(price),
        _ => None,
    }
}

/// The price of a record that is an eligible opening trade of a symbol.
pub fn opening_price(day: &Day, symbol: u16, x: &Record) -> Option<Price>
    ensures { result ≡ opening_price day.now symbol x.now }
{
    match *x {
        Record::Trade {
            moment,
            symbol: of,
            price,
            flags,
            ..
        } => (of == symbol && eligible(flags, moment, day) && opening(flags)).then_some(price),
        _ => None,
    }
}

/// Whether a record is an eligible opening trade of a symbol before that many nanoseconds of the day.
fn opens_before(day: &Day, symbol: u16, end: u64, x: &Record) -> bool
    ensures { result ≡ opens_before day.now symbol end x.now }
{
    opening_price(day, symbol, x).is_some() && x.moment().nanos() < end
}

/// Whether a message gives the first price bands of a symbol after these events.
fn is_first_band(symbol: u16, m: &Message, h: &[Event]) -> bool
    ensures { result ≡ is_first_band symbol m.now h.now }
{
    band_of(symbol, m).is_some() && !last_band_in(symbol, h).is_some()
}

/// Whether the newest record is an eligible opening trade before that many nanoseconds of the day.
fn opens(day: &Day, symbol: u16, end: u64, h: &[Event]) -> bool
    ensures { result ≡ option_map_or (opens_before day.now symbol end) (newest h.now) false }
{
    match newest(h) {
        Some(x) => opens_before(day, symbol, end, &x),
        None => false,
    }
}

/// The events of a run whose trades count.
fn counted_in(
    alloc: Global,
    day: &Day,
    symbol: u16,
    end: u64,
    h: &[Event],
) -> Result<Vec<Event>, NoMemory>
    ensures { IfOk result (λ events. events.items ≡ counted_in day.now symbol end h.now) }
{
    let Some((last, earlier)) = h.split_first() else {
        return Ok(Vec::new(alloc));
    };
    match last {
        Event::Accepted(_) => {
            let events = counted_in(alloc, day, symbol, end, earlier)?;
            with_first(Some(*last), events)
        }
        Event::Published(m) => {
            if is_first_band(symbol, m, earlier) && opens(day, symbol, end, earlier) {
                new_run(alloc, *m, earlier)
            } else {
                let events = counted_in(alloc, day, symbol, end, earlier)?;
                with_first(Some(*last), events)
            }
        }
    }
}

/// The events of the run whose trades count.
fn counted(alloc: Global, day: &Day, h: &[Event], symbol: u16) -> Result<Vec<Event>, NoMemory>
    ensures { IfOk result (λ events. events.items ≡ counted day.now h.now symbol) }
{
    let end = begun(h, symbol).nanos() + FIVE_MINUTES;
    let events = run(alloc, h, symbol)?;
    counted_in(alloc, day, symbol, end, &events)
}

/// Whether a record cancels the trades of that number.
fn cancels(symbol: u16, number: u32, x: &Record) -> bool
    ensures { result ≡ cancels symbol number x.now }
{
    match *x {
        Record::Cancel {
            symbol: of,
            number: cancelled,
            ..
        } => of == symbol && cancelled == number,
        _ => false,
    }
}

/// Whether one of these records cancels the trades of that number.
fn is_cancelled(symbol: u16, number: u32, later: &[Record]) -> bool
    ensures { result ≡ list_any (cancels symbol number) later.now }
{
    later.iter().any(|x| cancels(symbol, number, x))
}

/// Whether a trade of that symbol, number and condition bits at a moment counts, with these records after it.
fn counts(
    day: &Day,
    symbol: u16,
    later: &[Record],
    moment: Moment,
    of: u16,
    number: u32,
    flags: u16,
) -> bool
    ensures { result ≡ ((of == symbol) && eligible flags moment day.now && not (list_any (cancels symbol number) later.now)) }
{
    of == symbol && eligible(flags, moment, day) && !is_cancelled(symbol, number, later)
}

/// These deals, and at their end this one where it counts.
fn with_deal(counts: bool, deal: Deal, mut deals: Vec<Deal>) -> Result<Vec<Deal>, NoMemory>
    ensures { IfOk result (λ more. more.items ≡ (if counts then deals.items ++ deal ∷ [] else deals.items)) }
{
    if counts {
        deals.push(deal)?;
    }
    Ok(deals)
}

/// The eligible trades of a symbol among these events that none of the later records has cancelled, the oldest first.
fn deals_in(
    alloc: Global,
    day: &Day,
    symbol: u16,
    later: Vec<Record>,
    h: &[Event],
) -> Result<Vec<Deal>, NoMemory>
    ensures { IfOk result (λ deals. deals.items ≡ deals_in day.now symbol later.items h.now) }
{
    let Some((last, earlier)) = h.split_first() else {
        return Ok(Vec::new(alloc));
    };
    match *last {
        Event::Published(_) => deals_in(alloc, day, symbol, later, earlier),
        Event::Accepted(
            Record::Trade {
                moment,
                symbol: of,
                number,
                price,
                flags,
                ..
            },
        ) => {
            let counts = counts(day, symbol, &later, moment, of, number, flags);
            let deal = Deal {
                moment,
                number,
                price,
            };
            let deals = deals_in(alloc, day, symbol, later, earlier)?;
            with_deal(counts, deal, deals)
        }
        Event::Accepted(x) => {
            let later = with_first(Some(x), later)?;
            deals_in(alloc, day, symbol, later, earlier)
        }
    }
}

/// The trades of a symbol that count, the oldest first.
fn deals_of(alloc: Global, day: &Day, h: &[Event], symbol: u16) -> Result<Vec<Deal>, NoMemory>
    ensures { IfOk result (λ deals. deals.items ≡ deals_of day.now h.now symbol) }
{
    let events = counted(alloc, day, h, symbol)?;
    deals_in(alloc, day, symbol, Vec::new(alloc), &events)
}

/// The mean price of deals that are less than five minutes old.
fn mean_at(t: Moment, deals: &[Deal]) -> Option<Price>
    ensures { result ≡ mean_of (live t deals.now) }
{
    live_mean(t, deals, &None)
}

/// The mean price of the trades of the last five minutes that count.
pub fn mean(alloc: Global, day: &Day, h: &[Event], symbol: u16) -> Result<Option<Price>, NoMemory>
    ensures { IfOk result (λ price. price ≡ mean day.now h.now symbol) }
{
    let deals = deals_of(alloc, day, h, symbol)?;
    Ok(mean_at(now(h), &deals))
}
