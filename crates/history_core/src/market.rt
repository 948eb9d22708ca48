//! The market-wide circuit breakers (NYSE Rule 7.12), by a search of the history, which has the newest event first.

ghost use Rattle.std.specs.Prelude.{◌≡◌, option_to_list};
ghost use Rattle.rulebook.specs.History.{records};
ghost use Rattle.rulebook.specs.Market.{day_record, market_halt_in, market_halt, is_market_halted, greatest_in, greatest_declared, resume_at, declare_on, declare_at};

use crate::history::{now, today};
use breaker_core::{Halt, declares, ends, percent_of};
use price_core::Index;
use rulebook::Event;
use session_core::Day;
use wire_in::Record;
use wire_out::Message;

/// The last Day record's day, and its index close.
pub fn day_record(h: &[Event]) -> Option<(Day, Index)>
    ensures { result ≡ day_record (records h.now) }
{
    let (last, earlier) = h.split_first()?;
    match *last {
        Event::Accepted(
            Record::Day {
                day,
                index_close,
                ..
            },
        ) => Some((day, index_close)),
        _ => day_record(earlier),
    }
}

/// The last breaker that no resumption follows.
fn market_halt_in(h: &[Event]) -> Option<Halt>
    ensures { result ≡ market_halt_in h.now }
{
    let (last, earlier) = h.split_first()?;
    match *last {
        Event::Published(Message::Breaker { level, .. }) => {
            let since = now(earlier);
            Some(Halt { level, since })
        }
        Event::Published(Message::MarketResume) => None,
        _ => market_halt_in(earlier),
    }
}

/// The market halt in effect.
fn market_halt(h: &[Event]) -> Option<Halt>
    ensures { result ≡ market_halt h.now }
{
    market_halt_in(today(h))
}

/// The percentage of the greatest level declared, 0 where there is none.
fn greatest_in(h: &[Event]) -> u32
    ensures { result ≡ greatest_in h.now }
{
    let Some((last, earlier)) = h.split_first() else {
        return 0;
    };
    match *last {
        Event::Published(Message::Breaker { level, .. }) => {
            let before = greatest_in(earlier);
            percent_of(level).max(before)
        }
        _ => greatest_in(earlier),
    }
}

/// The percentage of the greatest level declared today, 0 where there is none.
fn greatest_declared(h: &[Event]) -> u32
    ensures { result ≡ greatest_declared h.now }
{
    greatest_in(today(h))
}

/// The resumption at a record.
pub fn resume_at(x: &Record, h: &[Event]) -> Option<Message>
    ensures { option_to_list result ≡ resume_at x.now h.now }
{
    if x.is_tick() && ends(now(h), market_halt(h)) {
        Some(Message::MarketResume)
    } else {
        None
    }
}

/// The breaker that an index value declares on a day.
fn declare_on(value: Index, h: &[Event], day: &Day, index_close: Index) -> Option<Message>
    ensures { option_to_list result ≡ declare_on value h.now (day.now, index_close) }
{
    let level = declares(
        market_halt(h),
        greatest_declared(h),
        index_close,
        day,
        now(h),
        value,
    )?;
    Some(Message::Breaker {
        level,
        index: value,
    })
}

/// The breaker at a record.
pub fn declare_at(x: &Record, h: &[Event]) -> Option<Message>
    ensures { option_to_list result ≡ declare_at x.now h.now }
{
    let Record::IndexTick { value, .. } = *x else {
        return None;
    };
    let (day, index_close) = day_record(h)?;
    declare_on(value, h, &day, index_close)
}

/// Whether a market-wide halt is in effect.
pub fn is_market_halted(h: &[Event]) -> bool
    ensures { result ≡ is_market_halted h.now }
{
    market_halt(h).is_some()
}
