//! A market whose messages are published on a board.

ghost use Rattle.std.specs.Prelude.{◌≡◌, ◌+◌, ◌≤◌, ◌<◌, ◌++◌, ◌∷◌, [], ℕ, List, None, IfOk, IfSome, IsSome, OnOk, OnErr, map, length, vec_capacity};
ghost use Rattle.wire_in.specs.declared.record.Record.{Record};
ghost use Rattle.wire_out.specs.declared.message.Message.{Message};
ghost use Rattle.rulebook.specs.Admission.{most_names, names};
ghost use Rattle.rulebook.specs.Book.{ids_below};
ghost use Rattle.rulebook.specs.Sent.{admitted, judged, with_record};
ghost use Rattle.market_core.specs.AdmissionState.{refusal_of};
ghost use Rattle.market_core.specs.Kinds.{TakesMemory};
ghost use Rattle.screen_core.specs.Rows.{last_row};
ghost use Rattle.screen_core.specs.Screened.{capacity, said, IsDeal};
ghost use Rattle.screen_core.specs.InternalDesk.{CanTake, HasPublished, said_in};
ghost use Rattle.screen_core.specs.InternalScreens.{Keeps, IsReadyFor, IsBlank};

use crate::desk::Desk;
use crate::row::Row;
use market_core::{Admission, MOST_MESSAGES, Market};
use price_core::NoMemory;
use std::alloc::Global;
use wire_in::{Record, decode};
use wire_out::Stamped;

/// The accepted records as admission and one market have them, the messages of the last one, and the board on which all
/// messages were published, until it ends.
#[derive(Drop)]
pub struct Screen {
    pub admission: Admission,
    pub market: Market,
    pub messages: Vec<Stamped>,
    pub desk: Option<Desk>,
}

/// Publishes messages on a board that hasn't ended.
fn publish(desk: &mut Option<Desk>, messages: &[Stamped])
    requires { IfSome desk.old (λ desk. CanTake desk (said_in messages.now)) }
    ensures published { (published : List Message) → IfSome desk.old (HasPublished published) → IfSome desk.new (HasPublished (published ++ said_in messages.now)) }
    ensures there { IsSome desk.old → IsSome desk.new }
{
    match desk {
        Some(desk) => desk.publish(messages),
        None => {}
    }
}

impl Screen {
    /// A screen of no records. It takes the room for all names, and for the messages of any record.
    pub fn new(alloc: Global) -> Result<Screen, NoMemory>
        ensures { IfOk result IsBlank }
    {
        let admission = Admission::new(alloc, u64::MAX)?;
        let market = Market::new(alloc)?;
        let messages = Vec::with_capacity(alloc, MOST_MESSAGES)?;
        let desk = Desk::open(alloc)?;
        Ok(Screen {
            admission,
            market,
            messages,
            desk: Some(desk),
        })
    }

    /// Evaluates a record that is admissible, and publishes its messages. An error comes of a trade alone, and then the screen
    /// is of no further use.
    fn apply(&mut self, x: &Record) -> Result<(), NoMemory>
        requires admissible { refusal_of self.old.admission x.now ≡ None }
        requires ready { IsReadyFor 1 self.old }
        ensures keeps { (held : List Record) → Keeps held self.old → OnOk result (Keeps (x.now ∷ held) self.new) }
        ensures ready { (more : ℕ) → IsReadyFor (1 + more) self.old → OnOk result (IsReadyFor more self.new) }
        ensures starved { OnErr result (TakesMemory x.now) }
    {
        self.messages.clear();
        self.market.apply(x, &mut self.messages)?;
        self.admission.admit(x).unwrap();
        publish(&mut self.desk, &self.messages);
        Ok(())
    }

    /// Takes a record, where it is accepted. A refused one changes nothing.
    fn take_record(&mut self, x: &Record) -> Result<(), NoMemory>
        requires ready { IsReadyFor 1 self.old }
        ensures keeps { (held : List Record) → Keeps held self.old → OnOk result (Keeps (with_record held (admitted capacity held (Ok x.now))) self.new) }
        ensures ready { (more : ℕ) → IsReadyFor (1 + more) self.old → OnOk result (IsReadyFor more self.new) }
        ensures starved { (held : List Record) → Keeps held self.old → OnErr result (IsDeal (admitted capacity held (Ok x.now))) }
    {
        match self.admission.verdict(x) {
            Some(_) => Ok(()),
            None => self.apply(x),
        }
    }

    /// Takes the record of a frame's body, where it spells one that is accepted. Another body changes nothing.
    pub fn take(&mut self, body: &[u8]) -> Result<(), NoMemory>
        requires short { length body.now ≤ 255 }
        requires ready { IsReadyFor 1 self.old }
        ensures keeps { (held : List Record) → Keeps held self.old → OnOk result (Keeps (with_record held (judged capacity held body.now)) self.new) }
        ensures ready { (more : ℕ) → IsReadyFor (1 + more) self.old → OnOk result (IsReadyFor more self.new) }
        ensures starved { (held : List Record) → Keeps held self.old → OnErr result (IsDeal (judged capacity held body.now)) }
    {
        match decode(body) {
            Ok(x) => self.take_record(&x),
            Err(_) => Ok(()),
        }
    }

    /// Ends the board, and adds what it shows last of each name's symbol.
    pub fn show(&mut self, rows: &mut Vec<Row>)
        requires ready { IsReadyFor 0 self.old }
        requires room { (rows.old.items ≡ []) × (most_names ≤ vec_capacity rows.old) }
        ensures { (held : List Record) → Keeps held self.old → rows.new.items ≡ map (last_row (said held)) (ids_below (length (names held))) }
    {
        let symbols = self.market.names();
        let desk = self.desk.take().unwrap();
        desk.close(symbols, rows);
    }
}
