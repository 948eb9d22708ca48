//! The messages of one stock at one record.

ghost use Rattle.std.specs.Prelude.{◌≡◌, ◌+◌, ◌≤◌, ◌++◌, ◌∷◌, [], IfOk, length};
ghost use Rattle.symbol_core.specs.Evaluates.{most_of_symbol};

use price_core::NoMemory;
use std::alloc::Global;
use std::marker::Model;
use wire_out::Message;

/// The most messages of one symbol at a record.
pub const MOST_OF_SYMBOL: usize = 16;

/// What one symbol says at a record, with room for all that it may say. How many there are is a number of its own, so that to
/// remove them takes one store.
#[derive(Debug, Drop)]
pub struct Messages {
    room: Vec<Message>,
    count: usize,
}

impl Model for Messages {
    ghost use Rattle.std.specs.Prelude.{◌≡◌, ◌≤◌, List, length, take};
    ghost use Rattle.wire_out.specs.declared.message.Message.{Message as Said};
    ghost use Rattle.symbol_core.specs.Evaluates.{most_of_symbol};

    ghost Value = { List Said };

    ghost view = { λ m. take m.count m.room.items };

    ghost invariant = { λ m. (length m.room.items ≡ most_of_symbol) × (m.count ≤ most_of_symbol) };
}

impl Messages {
    /// None yet.
    pub fn new(alloc: Global) -> Result<Messages, NoMemory>
        ensures { IfOk result (λ messages. messages ≡ []) }
    {
        Ok(Messages {
            room: Vec::from_elem(alloc, Message::MarketResume, MOST_OF_SYMBOL)?,
            count: 0,
        })
    }

    /// The messages, in order.
    pub fn items(&self) -> &[Message]
        ensures value { result.now ≡ self.now }
        ensures few { length self.now ≤ most_of_symbol }
    {
        &self.room[..self.count]
    }

    /// Removes them all.
    pub fn clear(&mut self)
        ensures none { self.new ≡ [] }
        ensures len { length self.new ≡ 0 }
    {
        self.count = 0;
    }

    /// Adds one behind the others.
    pub(crate) fn push(&mut self, message: Message)
        requires { length self.old + 1 ≤ most_of_symbol }
        ensures items { self.new ≡ self.old ++ message ∷ [] }
        ensures len { length self.new ≡ length self.old + 1 }
    {
        self.room[self.count] = message;
        self.count += 1;
    }
}
