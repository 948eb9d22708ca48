//! What a part does at the records of a block: the symbols of a range of ids.

ghost use Rattle.std.specs.Prelude.{◌≡◌, ◌+◌, ◌*◌, ◌<◌, ◌≤◌, ℕ, Bool, true, [], OnOk, length, map, vec_len, vec_capacity};
ghost use Rattle.symbol_core.specs.Evaluates.{most_of_symbol};
ghost use Rattle.rulebook.specs.Admission.{most_names};
ghost use Rattle.market_core.specs.Applied.{AppendsBelow, AppendsOne};
ghost use Rattle.shard_core.specs.declared.turns.Target.TheVariants as target;
ghost use Rattle.shard_core.specs.Parts.{Adds, Stays, Takes, TakesFor, is_for, is_for_all};
ghost use Rattle.shard_core.specs.Turns.{AreFew, PartsTell, Tells, note_of, noted};

use crate::turns::{Target, Turn, tag};
use market_core::Section;
use merge_core::Tagged;
use price_core::NoMemory;
use rulebook::MOST_NAMES;
use std::alloc::Global;
use symbol_core::{MOST_OF_SYMBOL, MarketView, Symbol};
use wire_in::Record;
use wire_out::Stamped;

/// The first id of a part, and whether new names belong to it, as to the last one.
#[derive(Clone, Copy, Debug)]
pub struct Ids {
    pub start: usize,
    pub is_last: bool,
}

/// Evaluates a market-wide record for each symbol of a section, over a list with room for their messages and none in it.
fn evaluate_each(section: &mut Section, x: &Record, view: &MarketView, said: &mut Vec<Stamped>)
    requires none { said.old.items ≡ [] }
    requires room { vec_len said.old + most_of_symbol * length section.old.symbols ≤ vec_capacity said.old }
    ensures appends { is_for_all x.now ≡ true → AppendsBelow (length section.old.symbols) view.now x.now section.old.symbols section.new.symbols [] said.new.items }
    ensures count { length section.new.symbols ≡ length section.old.symbols }
{
    if x.is_day() {
        section.begin_day(x, view, said);
    } else if x.is_tick() {
        section.tick(x, view, said);
    }
}

/// Evaluates a market-wide record for each symbol of a section.
fn take_each(
    section: &mut Section,
    x: &Record,
    view: &MarketView,
    said: &mut Vec<Stamped>,
) -> Result<(), NoMemory>
    requires few { length section.old.symbols ≤ most_names }
    ensures appends { OnOk result (is_for_all x.now ≡ true → AppendsBelow (length section.old.symbols) view.now x.now section.old.symbols section.new.symbols [] said.new.items) }
    ensures count { length section.new.symbols ≡ length section.old.symbols }
{
    said.clear();
    said.reserve(MOST_OF_SYMBOL * section.len())?;
    evaluate_each(section, x, view, said);
    Ok(())
}

/// Evaluates a record for the symbol of an index.
fn take_at(
    section: &mut Section,
    index: usize,
    x: &Record,
    view: &MarketView,
    said: &mut Vec<Stamped>,
) -> Result<(), NoMemory>
    requires index { index < length section.old.symbols }
    ensures one { OnOk result (AppendsOne index view.now x.now section.old.symbols section.new.symbols [] said.new.items) }
    ensures count { length section.new.symbols ≡ length section.old.symbols }
{
    said.clear();
    said.reserve(MOST_OF_SYMBOL)?;
    section.evaluate(index, x, view, said)
}

/// Evaluates a record for the symbol of an id, where the section that starts with an id has it.
#[inline(always)]
fn take_one(
    section: &mut Section,
    start: usize,
    id: u16,
    x: &Record,
    view: &MarketView,
    said: &mut Vec<Stamped>,
) -> Result<(), NoMemory>
    ensures takes { OnOk result ((last : Bool) → TakesFor (target.One id) start last view.now x.now section.old.symbols section.new.symbols said.new.items) }
    ensures count { length section.new.symbols ≡ length section.old.symbols }
{
    said.clear();
    let id = id as usize;
    if id < start {
        return Ok(());
    }
    if section.len() <= id - start {
        return Ok(());
    }
    take_at(section, id - start, x, view, said)
}

/// Adds the symbol of a new id behind the others, and evaluates a record for it. There is room for as many symbols as there
/// may be names.
fn take_new(
    alloc: Global,
    section: &mut Section,
    id: u16,
    x: &Record,
    view: &MarketView,
    said: &mut Vec<Stamped>,
) -> Result<(), NoMemory>
    requires few { length section.old.symbols ≤ most_names }
    ensures adds { OnOk result (Adds id view.now x.now section.old.symbols section.new.symbols said.new.items) }
    ensures few { length section.new.symbols ≤ most_names }
{
    let count = section.len();
    if count >= MOST_NAMES {
        return Err(NoMemory);
    }
    section.reserve(1)?;
    let symbol = Symbol::new(alloc, id)?;
    section.push(symbol);
    take_at(section, count, x, view, said)
}

/// Whether a record is for so many symbols of ids from one on: for each symbol, for one of theirs, or where they are the last
/// ones for a new one.
#[inline(always)]
fn is_for(target: Target, ids: Ids, count: usize) -> bool
    ensures { result ≡ is_for target ids.start ids.is_last count }
{
    match target {
        Target::Each => true,
        Target::One(id) => ids.start <= id as usize && id as usize - ids.start < count,
        Target::New(_) => ids.is_last,
    }
}

/// Takes the turn of a record that isn't of one symbol over a section, and says what its symbols say at it. It stays a call of
/// its own, for which the records of one symbol make no room.
#[inline(never)]
fn take_several(
    alloc: Global,
    section: &mut Section,
    ids: Ids,
    x: &Record,
    turn: &Turn,
    said: &mut Vec<Stamped>,
) -> Result<(), NoMemory>
    requires few { length section.old.symbols ≤ most_names }
    ensures takes { OnOk result (Takes ids.start ids.is_last (note_of x.now turn.now) section.old.symbols section.new.symbols said.new.items) }
    ensures few { length section.new.symbols ≤ most_names }
{
    match turn.target {
        Target::Each => take_each(section, x, &turn.view, said),
        Target::One(id) => take_one(section, ids.start, id, x, &turn.view, said),
        Target::New(id) if ids.is_last => take_new(alloc, section, id, x, &turn.view, said),
        Target::New(_) => {
            said.clear();
            Ok(())
        }
    }
}

/// Takes the turn of a record over a section, and says what its symbols say at it.
#[inline(always)]
fn take_turn(
    alloc: Global,
    section: &mut Section,
    ids: Ids,
    x: &Record,
    turn: &Turn,
    said: &mut Vec<Stamped>,
) -> Result<(), NoMemory>
    requires few { length section.old.symbols ≤ most_names }
    ensures takes { OnOk result (Takes ids.start ids.is_last (note_of x.now turn.now) section.old.symbols section.new.symbols said.new.items) }
    ensures few { length section.new.symbols ≤ most_names }
{
    match turn.target {
        Target::One(id) => take_one(section, ids.start, id, x, &turn.view, said),
        _ => take_several(alloc, section, ids, x, turn, said),
    }
}

/// Takes the turns of a block over a section, one after the other, and tells what its symbols say.
pub fn take_turns(
    alloc: Global,
    section: &mut Section,
    ids: Ids,
    xs: &[Record],
    turns: &[Turn],
    said: &mut Vec<Stamped>,
    told: &mut Vec<Tagged>,
) -> Result<(), NoMemory>
    requires few { length section.old.symbols ≤ most_names }
    requires count { length turns.now ≡ length xs.now }
    requires short { length xs.now ≤ 65536 }
    ensures tells { OnOk result (Tells ids.start ids.is_last (noted xs.now turns.now) section.old.symbols section.new.symbols told.new.items) }
    ensures few { length section.new.symbols ≤ most_names }
{
    told.clear();
    for input in 0..xs.len() {
        let x = &xs[input];
        let turn = &turns[input];
        if !is_for(turn.target, ids, section.len()) {
            continue;
        }
        take_turn(alloc, section, ids, x, turn, said)?;
        tag(said, input as u32, told)?;
    }
    Ok(())
}

/// Works each of several parts, of which the first has the first ids: takes the turns of a block over it, and tells what its
/// symbols say.
pub fn work_all(
    alloc: Global,
    parts: &mut [Section],
    xs: &[Record],
    turns: &[Turn],
    said: &mut Vec<Stamped>,
    told: &mut [Vec<Tagged>],
) -> Result<(), NoMemory>
    requires parts { length parts.old ≤ 64 }
    requires told { length told.old ≡ length parts.old }
    requires few { AreFew parts.old }
    requires count { length turns.now ≡ length xs.now }
    requires short { length xs.now ≤ 65536 }
    ensures tells { OnOk result (PartsTell 0 (length parts.old) (noted xs.now turns.now) parts.old parts.new (map (λ list. list.items) told.new)) }
    ensures parts { length parts.new ≡ length parts.old }
    ensures told { length told.new ≡ length told.old }
    ensures few { AreFew parts.new }
{
    let mut start = 0;
    for k in 0..parts.len() {
        let ids = Ids {
            start,
            is_last: k + 1 == parts.len(),
        };
        start += parts[k].len();
        take_turns(alloc, &mut parts[k], ids, xs, turns, said, &mut told[k])?;
    }
    Ok(())
}
