//! The rules of one symbol, in the order in which each step tries them.

ghost use Rattle.std.specs.Prelude.{◌≡◌, ◌∷◌, [], IfOk, map, if◌then◌else◌};
ghost use Rattle.std.specs.Option.{option_map_or};
ghost use Rattle.pause_core.specs.Phases.{is_done};
ghost use Rattle.rulebook.specs.History.{now, publish};
ghost use Rattle.rulebook.specs.Market.{day_record};
ghost use Rattle.rulebook.specs.Symbol.{phase};
ghost use Rattle.rulebook.specs.Book.{obeyed, all_obeyed};
ghost use Rattle.afresh_core.specs.Contexts.{context_of};
ghost use Rattle.afresh_core.specs.Ordered.{rule_of, named_in};
ghost use Rattle.afresh_core.specs.Rounds.{AreTimely};

use crate::context::{Context, at_most_one};
use crate::halting::{market_halt, pause, regulatory_halt, reopen, session_close, start};
use crate::limits::{enter_limit, leave_limit, straddle};
use crate::prices::publish_band;
use crate::restriction::restrict;
use history_core::{now, phase, with_first};
use pause_core::is_done;
use price_core::NoMemory;
use rulebook::Event;
use session_core::Day;
use std::alloc::Global;
use wire_in::Record;
use wire_out::Message;

/// A rule of one symbol.
#[derive(Clone, Copy, Debug, PartialEq, Eq)]
pub enum Rule {
    SessionClose,
    MarketHalt,
    Start,
    RegulatoryHalt,
    Pause,
    Reopen,
    LeaveLimit,
    PublishBand,
    EnterLimit,
    Straddle,
    Restrict,
}

/// The rules in their order.
pub const RULES: [Rule; 11] = [
    Rule::SessionClose,
    Rule::MarketHalt,
    Rule::Start,
    Rule::RegulatoryHalt,
    Rule::Pause,
    Rule::Reopen,
    Rule::LeaveLimit,
    Rule::PublishBand,
    Rule::EnterLimit,
    Rule::Straddle,
    Rule::Restrict,
];

/// A symbol by its id, and all names by theirs.
#[derive(Clone, Copy, Debug)]
pub struct Named<'a> {
    pub symbol: u16,
    pub names: &'a [[u8; 8]],
}

/// What a rule publishes.
fn given(alloc: Global, rule: Rule, c: &Context) -> Result<Vec<Message>, NoMemory>
    requires { AreTimely c.now.history.now }
    ensures { IfOk result (λ given. given.items ≡ rule_of rule (context_of c.now)) }
{
    match rule {
        Rule::SessionClose => at_most_one(alloc, session_close(c)),
        Rule::MarketHalt => at_most_one(alloc, market_halt(c)),
        Rule::Start => at_most_one(alloc, start(c)),
        Rule::RegulatoryHalt => at_most_one(alloc, regulatory_halt(c)),
        Rule::Pause => pause(alloc, c),
        Rule::Reopen => reopen(alloc, c),
        Rule::LeaveLimit => at_most_one(alloc, leave_limit(alloc, c)?),
        Rule::PublishBand => at_most_one(alloc, publish_band(alloc, c)?),
        Rule::EnterLimit => at_most_one(alloc, enter_limit(alloc, c)?),
        Rule::Straddle => at_most_one(alloc, straddle(alloc, c)?),
        Rule::Restrict => at_most_one(alloc, restrict(c)),
    }
}

/// What a rule publishes in the open step; no rule applies to a closed symbol.
fn obeyed(
    alloc: Global,
    day: &Day,
    s: &Named,
    x: &Record,
    rule: Rule,
    h: &[Event],
) -> Result<Vec<Message>, NoMemory>
    requires { AreTimely h.now }
    ensures { IfOk result (λ given. given.items ≡ obeyed day.now (named_in s.now) x.now (rule_of rule) h.now) }
{
    if is_done(phase(h, s.symbol)) {
        return Ok(Vec::new(alloc));
    }
    let c = Context {
        history: h,
        names: s.names,
        symbol: s.symbol,
        newest: *x,
        moment: now(h),
        day: *day,
    };
    given(alloc, rule, &c)
}

/// Publishes messages in the open step, the first of them first.
pub fn publish(messages: &[Message], h: Vec<Event>) -> Result<Vec<Event>, NoMemory>
    ensures { IfOk result (λ published. published.items ≡ publish messages.now h.items) }
{
    let Some((first, later)) = messages.split_first() else {
        return Ok(h);
    };
    publish(later, with_first(Some(Event::Published(*first)), h)?)
}

/// Publishes what a rule gives.
fn obey(
    alloc: Global,
    day: &Day,
    s: &Named,
    x: &Record,
    rule: Rule,
    h: Vec<Event>,
) -> Result<Vec<Event>, NoMemory>
    requires { AreTimely h.items }
    ensures { IfOk result (λ evaluated. evaluated.items ≡ publish (obeyed day.now (named_in s.now) x.now (rule_of rule) h.items) h.items) }
{
    let given = obeyed(alloc, day, s, x, rule, &h)?;
    publish(&given, h)
}

/// Publishes what these rules give, one after the other.
pub fn obey_all(
    alloc: Global,
    day: &Day,
    s: &Named,
    x: &Record,
    rules: &[Rule],
    h: Vec<Event>,
) -> Result<Vec<Event>, NoMemory>
    requires { AreTimely h.items }
    ensures { IfOk result (λ evaluated. evaluated.items ≡ publish (all_obeyed day.now (named_in s.now) x.now (map rule_of rules.now) h.items) h.items) }
{
    let Some((rule, later)) = rules.split_first() else {
        return Ok(h);
    };
    let published = obey(alloc, day, s, x, *rule, h)?;
    obey_all(alloc, day, s, x, later, published)
}
