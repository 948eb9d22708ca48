//! The symbols of a market, evaluated one after the other.

ghost use Rattle.std.specs.Prelude.{◌≡◌, ◌+◌, ◌*◌, ◌≤◌, ◌++◌, ◌∷◌, [], false, OnOk, OnErr, IsOk, vec_len, vec_capacity, length};
ghost use Rattle.wire_in.specs.Records.{moment_of};
ghost use Rattle.symbol_core.specs.Evaluates.{most_of_symbol};
ghost use Rattle.market_core.specs.Applied.{Appends, AppendsBelow};
ghost use Rattle.market_core.specs.Kinds.{is_trade};
ghost use Rattle.market_core.specs.Ruled.{stamped};

use price_core::NoMemory;
use session_core::Moment;
use symbol_core::{MarketView, Messages, Symbol};
use wire_in::Record;
use wire_out::{Message, Stamped};

/// Appends a message to a list that has room for it.
pub(crate) fn append(out: &mut Vec<Stamped>, moment: Moment, message: Message)
    requires { vec_len out.old + 1 ≤ vec_capacity out.old }
    ensures items { out.new.items ≡ out.old.items ++ record { moment = moment; message = message } ∷ [] }
    ensures room { vec_capacity out.old ≤ vec_capacity out.new }
    ensures len { vec_len out.new ≡ vec_len out.old + 1 }
{
    out.push_reserved(Stamped { moment, message });
}

/// Appends messages of one moment to a list that has room for them. It stays a call of its own, for which the records that bring
/// none make no room.
#[inline(never)]
fn stamp_each(said: &[Message], moment: Moment, out: &mut Vec<Stamped>)
    requires { vec_len out.old + length said.now ≤ vec_capacity out.old }
    ensures items { out.new.items ≡ out.old.items ++ stamped moment said.now }
    ensures room { vec_capacity out.old ≤ vec_capacity out.new }
    ensures len { vec_len out.new ≡ vec_len out.old + length said.now }
{
    for message in said {
        append(out, moment, *message);
    }
}

/// As `stamp_each`. Most records bring no message.
#[inline(always)]
fn stamp(said: &[Message], moment: Moment, out: &mut Vec<Stamped>)
    requires { vec_len out.old + length said.now ≤ vec_capacity out.old }
    ensures items { out.new.items ≡ out.old.items ++ stamped moment said.now }
    ensures room { vec_capacity out.old ≤ vec_capacity out.new }
    ensures len { vec_len out.new ≡ vec_len out.old + length said.now }
{
    if !said.is_empty() {
        stamp_each(said, moment, out);
    }
}

/// Evaluates a record for a symbol. Only a trade for which the symbol has no room may find no memory, and then all stays as
/// it was.
#[inline(always)]
pub(crate) fn evaluate(
    symbol: &mut Symbol,
    x: &Record,
    market: &MarketView,
    said: &mut Messages,
    out: &mut Vec<Stamped>,
) -> Result<(), NoMemory>
    requires room { vec_len out.old + most_of_symbol ≤ vec_capacity out.old }
    ensures ok { OnOk result (Appends market.now x.now symbol.old symbol.new out.old.items out.new.items) }
    ensures err { OnErr result ((symbol.new ≡ symbol.old) × (out.new.items ≡ out.old.items)) }
    ensures succeeds { is_trade x.now ≡ false → IsOk result }
    ensures room_there { 1 ≤ symbol.old.spare → IsOk result }
    ensures room { vec_capacity out.old ≤ vec_capacity out.new }
    ensures len { vec_len out.new ≤ vec_len out.old + most_of_symbol }
{
    symbol.evaluate(x, market, said)?;
    stamp(said.items(), x.moment(), out);
    Ok(())
}

/// Evaluates a record that is no trade for each symbol, in order of ids.
pub(crate) fn evaluate_each(
    symbols: &mut [Symbol],
    x: &Record,
    market: &MarketView,
    said: &mut Messages,
    out: &mut Vec<Stamped>,
)
    requires kind { is_trade x.now ≡ false }
    requires room { vec_len out.old + most_of_symbol * length symbols.old ≤ vec_capacity out.old }
    ensures appends { AppendsBelow (length symbols.old) market.now x.now symbols.old symbols.new out.old.items out.new.items }
    ensures room { vec_capacity out.old ≤ vec_capacity out.new }
    ensures len { vec_len out.new ≤ vec_len out.old + most_of_symbol * length symbols.old }
{
    for i in 0..symbols.len() {
        let symbol = &mut symbols[i];
        evaluate(symbol, x, market, said, out).unwrap();
    }
}
