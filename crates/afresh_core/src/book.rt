//! The steps of a history: each record is evaluated with the whole history before it.

ghost use Rattle.std.specs.Prelude.{◌≡◌, ◌≤◌, ◌∷◌, [], IfOk, if◌then◌else◌, filter, length, option_to_list};
ghost use Rattle.std.specs.Option.{option_map_or};
ghost use Rattle.wire_out.specs.declared.message.Message.TheVariants.{Short};
ghost use Rattle.wire_out.specs.declared.message.ShortKind.TheVariants.{Carried};
ghost use Rattle.rulebook.specs.Admission.{names, is_listed, most_names, IsLawful};
ghost use Rattle.rulebook.specs.History.{records};
ghost use Rattle.rulebook.specs.Book.{evaluate, ids_below, announcement, announced, evaluate_own, named, evaluate_all, listed_ids, evaluate_market, target, evaluate_record, step, history};
ghost use Rattle.rulebook.specs.Rules.{is_carried};
ghost use Rattle.history_core.specs.Names.{own_in};
ghost use Rattle.afresh_core.specs.Ordered.{named_in};
ghost use Rattle.afresh_core.specs.Rounds.{AreTimely};

use crate::context::followed;
use crate::restriction::is_carried;
use crate::rules::{Named, RULES, obey_all, publish};
use history_core::{
    day_record, declare_at, id_of, is_listed, names, records, resume_at, with_first,
};
use price_core::NoMemory;
use rulebook::Event;
use std::alloc::Global;
use wire_in::Record;
use wire_out::{Message, ShortKind};

/// The rules of a symbol on the open step.
fn evaluate(alloc: Global, x: &Record, s: &Named, h: Vec<Event>) -> Result<Vec<Event>, NoMemory>
    requires { AreTimely h.items }
    ensures { IfOk result (λ evaluated. evaluated.items ≡ evaluate x.now (named_in s.now) h.items) }
{
    match day_record(&h) {
        Some((day, _)) => obey_all(alloc, &day, s, x, &RULES, h),
        None => Ok(h),
    }
}

/// The message that a restriction of the day before is carried, where it is.
fn carried(s: &Named, h: &[Event]) -> Option<Message>
    ensures { option_to_list result ≡ (if is_carried h.now (own_in s.now.names.now s.now.symbol) s.now.symbol then Short s.now.symbol Carried ∷ [] else []) }
{
    if is_carried(h, s.names, s.symbol) {
        let message = Message::Short {
            symbol: s.symbol,
            kind: ShortKind::Carried,
        };
        Some(message)
    } else {
        None
    }
}

/// The messages of a listing.
fn announcement(
    alloc: Global,
    s: &Named,
    name: [u8; 8],
    h: &[Event],
) -> Result<Vec<Message>, NoMemory>
    ensures { IfOk result (λ given. given.items ≡ announcement (named_in s.now) name h.now) }
{
    let listed = Message::Listed {
        symbol: s.symbol,
        name,
    };
    followed(alloc, listed, carried(s, h))
}

/// What a record announces of a symbol, before the rules.
fn announced(alloc: Global, s: &Named, x: &Record, h: &[Event]) -> Result<Vec<Message>, NoMemory>
    ensures { IfOk result (λ given. given.items ≡ announced (named_in s.now) x.now h.now) }
{
    match *x {
        Record::Listing { name, .. } => announcement(alloc, s, name, h),
        _ => Ok(Vec::new(alloc)),
    }
}

/// The symbol's part of a step whose record names it.
fn evaluate_own(alloc: Global, x: &Record, s: &Named, h: Vec<Event>) -> Result<Vec<Event>, NoMemory>
    requires { AreTimely h.items }
    ensures { IfOk result (λ evaluated. evaluated.items ≡ evaluate_own x.now (named_in s.now) h.items) }
{
    let given = announced(alloc, s, x, &h)?;
    let published = publish(&given, h)?;
    evaluate(alloc, x, s, published)
}

/// All names by their ids.
fn names_of(alloc: Global, h: &[Event]) -> Result<Vec<[u8; 8]>, NoMemory>
    ensures { IfOk result (λ listed. listed.items ≡ names (records h.now)) }
{
    let accepted = records(alloc, h)?;
    names(alloc, &accepted)
}

/// The rules of the symbol with that id.
fn evaluate_id(
    alloc: Global,
    x: &Record,
    symbol: u16,
    h: Vec<Event>,
) -> Result<Vec<Event>, NoMemory>
    requires { AreTimely h.items }
    ensures { IfOk result (λ evaluated. evaluated.items ≡ evaluate x.now (named (records h.items) symbol) h.items) }
{
    let names = names_of(alloc, &h)?;
    let s = Named {
        symbol,
        names: &names,
    };
    evaluate(alloc, x, &s, h)
}

/// The part of the symbol with that id in a step whose record names it.
fn evaluate_target(
    alloc: Global,
    x: &Record,
    symbol: u16,
    h: Vec<Event>,
) -> Result<Vec<Event>, NoMemory>
    requires { AreTimely h.items }
    ensures { IfOk result (λ evaluated. evaluated.items ≡ evaluate_own x.now (named (records h.items) symbol) h.items) }
{
    let names = names_of(alloc, &h)?;
    let s = Named {
        symbol,
        names: &names,
    };
    evaluate_own(alloc, x, &s, h)
}

/// The rules of these symbols, one after the other.
fn evaluate_all(
    alloc: Global,
    x: &Record,
    ids: &[u16],
    h: Vec<Event>,
) -> Result<Vec<Event>, NoMemory>
    requires { AreTimely h.items }
    ensures { IfOk result (λ evaluated. evaluated.items ≡ evaluate_all x.now ids.now h.items) }
{
    let Some((id, later)) = ids.split_first() else {
        return Ok(h);
    };
    let evaluated = evaluate_id(alloc, x, *id, h)?;
    evaluate_all(alloc, x, later, evaluated)
}

/// The ids below a number that are listed today, in order.
fn listed_below(alloc: Global, accepted: &[Record], n: u16) -> Result<Vec<u16>, NoMemory>
    ensures { IfOk result (λ listed. listed.items ≡ filter (is_listed accepted.now) (ids_below n)) }
{
    let mut listed = Vec::new(alloc);
    for id in 0..n {
        if is_listed(alloc, accepted, id)? {
            listed.push(id)?;
        }
    }
    Ok(listed)
}

/// The ids that are listed today, in order.
fn listed_ids(alloc: Global, h: &[Event]) -> Result<Vec<u16>, NoMemory>
    requires { length (names (records h.now)) ≤ most_names }
    ensures { IfOk result (λ listed. listed.items ≡ listed_ids (records h.now)) }
{
    let accepted = records(alloc, h)?;
    let names = names(alloc, &accepted)?;
    listed_below(alloc, &accepted, names.len() as u16)
}

/// The id that a record names.
fn target(alloc: Global, h: &[Event], x: &Record) -> Result<Option<u16>, NoMemory>
    requires { length (names (records h.now)) ≤ most_names }
    ensures { IfOk result (λ id. id ≡ target (records h.now) x.now) }
{
    let Record::Listing { name, .. } = *x else {
        return Ok(x.symbol());
    };
    let accepted = records(alloc, h)?;
    match id_of(alloc, &accepted, name)? {
        Some(id) => Ok(Some(id as u16)),
        None => Ok(None),
    }
}

/// The market-wide rules.
fn evaluate_market(x: &Record, h: Vec<Event>) -> Result<Vec<Event>, NoMemory>
    ensures { IfOk result (λ evaluated. evaluated.items ≡ evaluate_market x.now h.items) }
{
    let resumption = resume_at(x, &h).map(Event::Published);
    let resumed = with_first(resumption, h)?;
    let breaker = declare_at(x, &resumed).map(Event::Published);
    with_first(breaker, resumed)
}

/// Evaluates the open step of a clock or an index tick.
fn evaluate_tick(alloc: Global, x: &Record, h: Vec<Event>) -> Result<Vec<Event>, NoMemory>
    requires timely { AreTimely h.items }
    requires few { length (names (records h.items)) ≤ most_names }
    ensures { IfOk result (λ evaluated. evaluated.items ≡ evaluate_all x.now (listed_ids (records h.items)) (evaluate_market x.now h.items)) }
{
    let ids = listed_ids(alloc, &h)?;
    let evaluated = evaluate_market(x, h)?;
    evaluate_all(alloc, x, &ids, evaluated)
}

/// Evaluates the open step of a record of one symbol.
fn evaluate_named(alloc: Global, x: &Record, h: Vec<Event>) -> Result<Vec<Event>, NoMemory>
    requires timely { AreTimely h.items }
    requires few { length (names (records h.items)) ≤ most_names }
    ensures { IfOk result (λ evaluated. evaluated.items ≡ option_map_or (λ s. evaluate_own x.now (named (records h.items) s) h.items) (target (records h.items) x.now) h.items) }
{
    match target(alloc, &h, x)? {
        Some(symbol) => evaluate_target(alloc, x, symbol, h),
        None => Ok(h),
    }
}

/// Evaluates the open step of a record.
fn evaluate_record(alloc: Global, x: &Record, h: Vec<Event>) -> Result<Vec<Event>, NoMemory>
    requires timely { AreTimely h.items }
    requires few { length (names (records h.items)) ≤ most_names }
    ensures { IfOk result (λ evaluated. evaluated.items ≡ evaluate_record x.now h.items) }
{
    if x.is_day() {
        Ok(h)
    } else if x.is_tick() {
        evaluate_tick(alloc, x, h)
    } else {
        evaluate_named(alloc, x, h)
    }
}

/// The history with one more step.
fn step(alloc: Global, x: &Record, h: Vec<Event>) -> Result<Vec<Event>, NoMemory>
    requires timely { AreTimely h.items }
    requires few { length (names (x.now ∷ records h.items)) ≤ most_names }
    ensures { IfOk result (λ stepped. stepped.items ≡ step x.now h.items) }
{
    let opened = with_first(Some(Event::Accepted(*x)), h)?;
    evaluate_record(alloc, x, opened)
}

/// The history of a list of records, which has the newest first.
pub fn history(alloc: Global, accepted: &[Record]) -> Result<Vec<Event>, NoMemory>
    requires { IsLawful 18446744073709551615 accepted.now }
    ensures { IfOk result (λ h. h.items ≡ history accepted.now) }
{
    let Some((x, earlier)) = accepted.split_first() else {
        return Ok(Vec::new(alloc));
    };
    let before = history(alloc, earlier)?;
    step(alloc, x, before)
}
