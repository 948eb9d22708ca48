//! The top call: what the words ask for, done over a reader and a sink.

ghost use Rattle.std.specs.Prelude.{◌≡◌, ◌≢◌, ◌⊎◌, Some, None, [], List, Option, IfOk, IfErr, OnOk, IfSome, map};
ghost use Rattle.std.specs.String.{string_bytes};
ghost use Rattle.picture_core.specs.declared.outcome.Outcome.TheVariants.{Ended, NoDay, NoSymbol};
ghost use Rattle.picture_core.specs.declared.words.Command.{Command};
ghost use Rattle.picture_core.specs.Words.{Asks};
ghost use Rattle.picture_core.specs.Reads.{picture_on, Tells, Lacks, Prevents};
ghost use Rattle.picture_core.specs.Pictures.{picture_of};
ghost use Rattle.picture_core.specs.Market.{market_picture};
ghost use Rattle.picture_core.specs.Told.{help_text};
ghost use Rattle.picture_core.specs.Runs.{Drawn, Ran, streams};
ghost use Rattle.host_core.specs.declared.status.Status.TheVariants.{ReadFault, NoMemory};
ghost use Rattle.host_core.specs.Outside.{raised};

use crate::day::DayKeeper;
use crate::market::market_picture;
use crate::outcome::Outcome;
use crate::picture::picture;
use crate::reading::read_days;
use crate::send::send;
use crate::shown::id_on;
use crate::words::{Command, Symbol, command_of};
use host_core::{LineSource, Sink, Status};
use std::alloc::Global;

/// What is written where help is asked for.
const HELP: &str =
    "chart [<symbol>] [--day <number>]: draws a day of the symbol of that id, 0 to 65535, or of that name, or of the market, as an SVG, from the lines of published frames on standard input; days are counted from 1, and without a number it is the last one\n";

/// How the program is called.
#[tactic(auto, unfolding(crate::specs::Told::help_text))]
fn help() -> &'static str
    ensures { result.now ≡ help_text }
{
    HELP
}

/// The picture of the day of the symbol of that id.
fn symbol_drawn(
    alloc: Global,
    id: u16,
    wanted: Option<u64>,
    days: &DayKeeper,
) -> Result<String, Outcome>
    ensures exact { IfOk result (λ text. string_bytes text ≡ picture_of id wanted days.now) }
    ensures memory { IfErr result (λ o. o ≡ Ended NoMemory) }
{
    match picture(alloc, id, wanted, days) {
        Ok(text) => Ok(text),
        Err(_) => Err(Outcome::Ended(Status::NoMemory)),
    }
}

/// The picture of the market's day.
fn market_drawn(alloc: Global, wanted: Option<u64>, days: &DayKeeper) -> Result<String, Outcome>
    ensures exact { IfOk result (λ text. string_bytes text ≡ market_picture wanted days.now) }
    ensures memory { IfErr result (λ o. o ≡ Ended NoMemory) }
{
    match market_picture(alloc, wanted, days) {
        Ok(text) => Ok(text),
        Err(_) => Err(Outcome::Ended(Status::NoMemory)),
    }
}

/// The picture of the symbol's day, where the symbol is there; without a symbol that of the market's day.
fn picture_on(
    alloc: Global,
    symbol: Option<Symbol>,
    wanted: Option<u64>,
    days: &DayKeeper,
) -> Result<String, Outcome>
    ensures exact { IfOk result (λ text. picture_on symbol wanted days.now ≡ Some (string_bytes text)) }
    ensures absent { IfErr result (λ o. (o ≡ Ended NoMemory) ⊎ ((o ≡ NoSymbol) × (picture_on symbol wanted days.now ≡ None))) }
{
    match symbol {
        None => market_drawn(alloc, wanted, days),
        Some(symbol) => match id_on(symbol, days.messages()) {
            Some(id) => symbol_drawn(alloc, id, wanted, days),
            None => Err(Outcome::NoSymbol),
        },
    }
}

/// The picture of a day, where the day is there.
fn drawn_of(
    alloc: Global,
    symbol: Option<Symbol>,
    wanted: Option<u64>,
    days: &DayKeeper,
) -> Result<String, Outcome>
    ensures exact { IfOk result (λ text. picture_on symbol wanted days.now ≡ Some (string_bytes text)) }
    ensures there { OnOk result (days.now.messages ≢ []) }
    ensures absent { IfErr result (λ o. (o ≡ Ended NoMemory) ⊎ (((o ≡ NoDay) × (days.now.messages ≡ []))
        ⊎ ((o ≡ NoSymbol) × (days.now.messages ≢ []) × (picture_on symbol wanted days.now ≡ None)))) }
{
    if days.messages().is_empty() {
        return Err(Outcome::NoDay);
    }
    picture_on(alloc, symbol, wanted, days)
}

/// The picture of a day, once the input is read whole.
fn drawn<R: LineSource>(
    alloc: Global,
    symbol: Option<Symbol>,
    wanted: Option<u64>,
    reader: &mut R,
) -> Result<String, Outcome>
    ensures exact { IfOk result (λ picture. IfSome (R.remaining reader.old) (λ text. Tells symbol wanted text (string_bytes picture))) }
    ensures absent { IfErr result (λ o. IfSome (R.remaining reader.old) (Lacks symbol wanted o)) }
    ensures cause { IfErr result Prevents }
    ensures failed { IfErr result (λ o. o ≡ Ended ReadFault → R.failures reader.new ≡ raised (R.failures reader.old)) }
    ensures fine { OnOk result (R.failures reader.new ≡ R.failures reader.old) }
{
    match read_days(alloc, wanted, reader) {
        Ok(days) => drawn_of(alloc, symbol, wanted, &days),
        Err(status) => Err(Outcome::Ended(status)),
    }
}

fn draw<R: LineSource, W: Sink>(
    alloc: Global,
    symbol: Option<Symbol>,
    wanted: Option<u64>,
    reader: &mut R,
    sink: &mut W,
) -> Outcome
    ensures { Drawn symbol wanted result
        (streams (R.remaining reader.old) (W.contents sink.old) (R.failures reader.old) (W.failures sink.old))
        (streams (R.remaining reader.new) (W.contents sink.new) (R.failures reader.new) (W.failures sink.new)) }
{
    match drawn(alloc, symbol, wanted, reader) {
        Ok(text) => send(sink, text.as_str()),
        Err(outcome) => outcome,
    }
}

/// Does what the words of a process ask for, and answers how it ended.
pub fn chart<R: LineSource, W: Sink>(
    alloc: Global,
    args: &[&str],
    reader: &mut R,
    sink: &mut W,
) -> Outcome
    ensures { (command : Option Command) × Asks (map (λ w. w.now) args.now) command × Ran command result
        (streams (R.remaining reader.old) (W.contents sink.old) (R.failures reader.old) (W.failures sink.old))
        (streams (R.remaining reader.new) (W.contents sink.new) (R.failures reader.new) (W.failures sink.new)) }
{
    match command_of(args) {
        Some(Command::Help) => send(sink, help()),
        Some(Command::Draw { symbol, day }) => draw(alloc, symbol, day, reader, sink),
        None => Outcome::Ended(Status::Usage),
    }
}
