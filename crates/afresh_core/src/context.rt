//! What the rules of one symbol read.

ghost use Rattle.std.specs.Prelude.{◌≡◌, option_to_list, [], ◌∷◌, IfOk};
ghost use Rattle.std.specs.Option.{option_map_or};
ghost use Rattle.rulebook.specs.Rules.{phase_now, becomes};
ghost use Rattle.afresh_core.specs.Contexts.{context_of};

use history_core::{phase, with_first};
use price_core::NoMemory;
use rulebook::Event;
use session_core::{Day, Moment, Phase};
use std::alloc::Global;
use wire_in::Record;
use wire_out::Message;

/// The open history, all names by their ids, a symbol, and of the open step the record, its moment and the day.
#[derive(Clone, Copy, Debug)]
pub struct Context<'a> {
    pub history: &'a [Event],
    pub names: &'a [[u8; 8]],
    pub symbol: u16,
    pub newest: Record,
    pub moment: Moment,
    pub day: Day,
}

/// The symbol's phase.
pub fn phase_now(c: &Context) -> Phase
    ensures { result ≡ phase_now (context_of c.now) }
{
    phase(c.history, c.symbol)
}

/// The message of a new phase.
pub fn state(c: &Context, phase: Phase) -> Message
    ensures { result ∷ [] ≡ becomes (context_of c.now) phase }
{
    Message::State {
        symbol: c.symbol,
        phase,
    }
}

/// The message of a new phase, where there is one.
pub fn becomes(c: &Context, phase: Option<Phase>) -> Option<Message>
    ensures { option_to_list result ≡ option_map_or (becomes (context_of c.now)) phase [] }
{
    match phase {
        Some(phase) => Some(state(c, phase)),
        None => None,
    }
}

/// A list of at most one message.
pub fn at_most_one(alloc: Global, m: Option<Message>) -> Result<Vec<Message>, NoMemory>
    ensures { IfOk result (λ given. given.items ≡ option_to_list m) }
{
    with_first(m, Vec::new(alloc))
}

/// A message, and another one where there is one.
pub fn followed(
    alloc: Global,
    first: Message,
    second: Option<Message>,
) -> Result<Vec<Message>, NoMemory>
    ensures { IfOk result (λ given. given.items ≡ first ∷ option_to_list second) }
{
    let later = at_most_one(alloc, second)?;
    with_first(Some(first), later)
}
