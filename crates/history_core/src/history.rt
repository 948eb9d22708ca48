//! What a history says, which has the newest event first.

ghost use Rattle.std.specs.Prelude.{◌≡◌, ◌≤◌, ◌++◌, IfOk, length, take, option_to_list};
ghost use Rattle.rulebook.specs.History.{now, today, open_step, before_step, records, messages};

use price_core::NoMemory;
use rulebook::Event;
use session_core::{Moment, midnight};
use std::alloc::Global;
use wire_in::Record;
use wire_out::Stamped;

/// The moment of the newest record.
pub fn now(h: &[Event]) -> Moment
    ensures { result ≡ now h.now }
{
    match h.split_first() {
        Some((Event::Accepted(x), _)) => x.moment(),
        Some((Event::Published(_), earlier)) => now(earlier),
        None => midnight(),
    }
}

/// How many events there are since the last Day record, that one included.
fn count_today(h: &[Event]) -> usize
    ensures few { result ≤ length h.now }
    ensures exact { take result h.now ≡ today h.now }
{
    match h.split_first() {
        Some((Event::Accepted(Record::Day { .. }), _)) => 1,
        Some((_, earlier)) => 1 + count_today(earlier),
        None => 0,
    }
}

/// The events since the last Day record, that one included.
pub fn today(h: &[Event]) -> &[Event]
    ensures { result.now ≡ today h.now }
{
    &h[..count_today(h)]
}

/// The accepted records.
pub fn records(alloc: Global, h: &[Event]) -> Result<Vec<Record>, NoMemory>
    ensures { IfOk result (λ accepted. accepted.items ≡ records h.now) }
{
    let mut accepted = Vec::new(alloc);
    for event in h {
        if let Event::Accepted(x) = event {
            accepted.push(*x)?;
        }
    }
    Ok(accepted)
}

/// The messages, the oldest first, with the moments of their records.
pub fn messages(alloc: Global, h: &[Event]) -> Result<Vec<Stamped>, NoMemory>
    ensures { IfOk result (λ given. given.items ≡ messages h.now) }
{
    match h.split_first() {
        Some((Event::Accepted(_), earlier)) => messages(alloc, earlier),
        Some((Event::Published(message), earlier)) => {
            let mut given = messages(alloc, earlier)?;
            given.push(Stamped {
                moment: now(earlier),
                message: *message,
            })?;
            Ok(given)
        }
        None => Ok(Vec::new(alloc)),
    }
}

/// A list with one more element, or with none, before the others.
pub fn with_first<T: Drop>(x: Option<T>, mut xs: Vec<T>) -> Result<Vec<T>, NoMemory>
    ensures { IfOk result (λ with_x. with_x.items ≡ option_to_list x ++ xs.items) }
{
    if let Some(x) = x {
        xs.insert(0, x)?;
    }
    Ok(xs)
}

/// How many events the open step has.
fn count_step(h: &[Event]) -> usize
    ensures few { result ≤ length h.now }
    ensures exact { take result h.now ≡ open_step h.now }
{
    match h.split_first() {
        Some((Event::Accepted(_), _)) => 1,
        Some((_, earlier)) => 1 + count_step(earlier),
        None => 0,
    }
}

/// The events of the open step.
pub fn open_step(h: &[Event]) -> &[Event]
    ensures { result.now ≡ open_step h.now }
{
    &h[..count_step(h)]
}

/// The events before the open step.
pub fn before_step(h: &[Event]) -> &[Event]
    ensures { result.now ≡ before_step h.now }
{
    match h.split_first() {
        Some((Event::Accepted(_), earlier)) => earlier,
        Some((_, earlier)) => before_step(earlier),
        None => h,
    }
}
