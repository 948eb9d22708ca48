//! What the market's part notes of a block, before its symbols are evaluated.

ghost use Rattle.std.specs.Prelude.{◌≡◌, ◌+◌, ◌<◌, ◌≤◌, ◌++◌, ◌∷◌, [], true, false, Some, IfOk, OnOk, IsSome, length, option_map, vec_len, vec_capacity};
ghost use Rattle.wire_in.specs.Records.{is_day, moment_of};
ghost use Rattle.market_core.specs.Leads.{led, rulings};
ghost use Rattle.market_core.specs.Ruled.{stamped, view_of};
ghost use Rattle.shard_core.specs.Block.{tagged};
ghost use Rattle.shard_core.specs.declared.turns.Target.TheVariants as target;
ghost use Rattle.shard_core.specs.Turns.{Leads, LeadsTo, is_begun, note_of, noted, target_of};

use market_core::Lead;
use merge_core::Tagged;
use price_core::NoMemory;
use symbol_core::MarketView;
use wire_in::Record;
use wire_out::Stamped;

/// Whom a record is for: each symbol, the symbol of an id, or the one that a new name gets.
#[derive(Clone, Copy, Debug, PartialEq, Eq)]
pub enum Target {
    Each,
    One(u16),
    New(u16),
}

/// What symbols need to know of a record: what the market is to them then, and whom it is for.
#[derive(Clone, Copy, Debug)]
pub struct Turn {
    pub view: MarketView,
    pub target: Target,
}

/// Appends messages of one input to a list that has room for them.
fn tag_each(said: &[Stamped], input: u32, out: &mut Vec<Tagged>)
    requires { vec_len out.old + length said.now ≤ vec_capacity out.old }
    ensures items { out.new.items ≡ out.old.items ++ tagged input said.now }
{
    for message in said {
        out.push_reserved(Tagged {
            input,
            stamped: *message,
        });
    }
}

/// As `tag`. It stays a call of its own, for which the records that bring no message make no room.
#[inline(never)]
fn tag_all(said: &[Stamped], input: u32, out: &mut Vec<Tagged>) -> Result<(), NoMemory>
    ensures { OnOk result (out.new.items ≡ out.old.items ++ tagged input said.now) }
{
    out.reserve(said.len())?;
    tag_each(said, input, out);
    Ok(())
}

/// Appends messages of one input.
#[inline(always)]
pub fn tag(said: &[Stamped], input: u32, out: &mut Vec<Tagged>) -> Result<(), NoMemory>
    ensures { OnOk result (out.new.items ≡ out.old.items ++ tagged input said.now) }
{
    if said.is_empty() {
        return Ok(());
    }
    tag_all(said, input, out)
}

/// Whom a record is for that is led next.
fn target_of(x: &Record, lead: &Lead) -> Target
    ensures { result ≡ target_of x.now lead.now.directory }
{
    match *x {
        Record::Listing { name, .. } => match lead.id(&name) {
            Some(id) => Target::One(id),
            None => Target::New(lead.names() as u16),
        },
        Record::Day { .. } | Record::Clock { .. } | Record::IndexTick { .. } => Target::Each,
        Record::Trade { symbol, .. }
        | Record::Cancel { symbol, .. }
        | Record::Quote { symbol, .. }
        | Record::Notice { symbol, .. }
        | Record::Indication { symbol, .. } => Target::One(symbol),
    }
}

/// Whether a day has begun, or the first of these records begins one.
pub fn is_begun(xs: &[Record], lead: &Lead) -> bool
    ensures { result ≡ is_begun xs.now lead.now.today }
{
    match xs.first() {
        Some(x) => x.is_day() || lead.view().is_some(),
        None => true,
    }
}

/// The turn of a record of the symbol of an id.
fn own_turn(lead: &Lead, id: u16) -> Turn
    requires day { IsSome lead.now.today }
    ensures seen { option_map view_of lead.now.today ≡ Some result.view }
    ensures whom { result.target ≡ target.One id }
{
    Turn {
        view: lead.view().unwrap(),
        target: Target::One(id),
    }
}

/// Leads a record that concerns more than one symbol's own course, notes what symbols need to know of it, and appends what the
/// market says at it. It stays a call of its own, for which the records of symbols make no room.
#[inline(never)]
fn lead_market(
    lead: &mut Lead,
    x: &Record,
    input: u32,
    said: &mut Vec<Stamped>,
    market: &mut Vec<Tagged>,
) -> Result<Turn, NoMemory>
    requires day { is_day x.now ≡ false → IsSome lead.old.today }
    ensures turn { IfOk result (λ turn. Leads (note_of x.now turn) lead.old) }
    ensures led { OnOk result (lead.new ≡ led x.now lead.old) }
    ensures begun { OnOk result (IsSome lead.new.today) }
    ensures said { OnOk result (market.new.items ≡ market.old.items ++ tagged input (stamped (moment_of x.now) (rulings x.now lead.old.today))) }
{
    said.clear();
    let target = target_of(x, lead);
    let view = lead.lead(x, said)?;
    tag(said, input, market)?;
    Ok(Turn { view, target })
}

/// Leads a record, notes what symbols need to know of it, and appends what the market says at it.
#[inline(always)]
fn lead_one(
    lead: &mut Lead,
    x: &Record,
    input: u32,
    said: &mut Vec<Stamped>,
    market: &mut Vec<Tagged>,
) -> Result<Turn, NoMemory>
    requires day { is_day x.now ≡ false → IsSome lead.old.today }
    ensures turn { IfOk result (λ turn. Leads (note_of x.now turn) lead.old) }
    ensures led { OnOk result (lead.new ≡ led x.now lead.old) }
    ensures begun { OnOk result (IsSome lead.new.today) }
    ensures said { OnOk result (market.new.items ≡ market.old.items ++ tagged input (stamped (moment_of x.now) (rulings x.now lead.old.today))) }
{
    match x.symbol() {
        // The market-wide rules say nothing at it, and change nothing.
        Some(id) => Ok(own_turn(lead, id)),
        None => lead_market(lead, x, input, said, market),
    }
}

/// Leads the records of a block, on a day that has begun or that the first of them begins: notes what symbols need to know of each,
/// and what the market says at each.
pub fn lead_all(
    lead: &mut Lead,
    xs: &[Record],
    said: &mut Vec<Stamped>,
    turns: &mut Vec<Turn>,
    market: &mut Vec<Tagged>,
) -> Result<(), NoMemory>
    requires day { is_begun xs.now lead.old.today ≡ true }
    requires few { length xs.now ≤ 65536 }
    ensures leads { OnOk result (LeadsTo (noted xs.now turns.new.items) lead.old lead.new market.new.items) }
    ensures count { OnOk result (length turns.new.items ≡ length xs.now) }
{
    turns.clear();
    market.clear();
    turns.reserve(xs.len())?;
    for input in 0..xs.len() {
        let turn = lead_one(lead, &xs[input], input as u32, said, market)?;
        turns.push_reserved(turn);
    }
    Ok(())
}
