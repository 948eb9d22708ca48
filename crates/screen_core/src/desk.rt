//! A board, its writer's seat and the seat of one reader.

ghost use Rattle.std.specs.Prelude.{◌≡◌, ◌≤◌, ◌<◌, ◌++◌, ◌∷◌, [], ℕ, List, All, IfOk, Some, map, slice_get, vec_len, vec_capacity};
ghost use Rattle.wire_out.specs.declared.message.Message.{Message};
ghost use Rattle.rulebook.specs.Book.{ids_below};
ghost use Rattle.board_core.specs.Entries.{entries_from};
ghost use Rattle.board_core.specs.Seats.{symbols_of, entries_of, answers_of, notes_of, IsFresh, IsWriterOf, IsReaderOf};
ghost use Rattle.screen_core.specs.Rows.{last_row};
ghost use Rattle.screen_core.specs.InternalRows.{Adds, IsAnswered};
ghost use Rattle.screen_core.specs.InternalDesk.{CanTake, CanTakeAll, HasPublished, said_in};

use crate::row::Row;
use board_core::{Board, ReaderSeat, WriterSeat};
use price_core::{NoMemory, Side};
use rulebook::MOST_NAMES;
use std::alloc::Global;
use wire_out::Stamped;

/// A board of all symbols, the seat of its writer, and that of one reader.
#[derive(Drop)]
pub struct Desk {
    pub board: Board,
    pub writer: WriterSeat,
    pub readers: Vec<ReaderSeat>,
}

/// Publishes messages.
fn publish_all(board: &Board, writer: &mut WriterSeat, messages: &[Stamped])
    requires writer { IsWriterOf board.now writer.old }
    requires messages { CanTakeAll (symbols_of board.now) (entries_of writer.old) (said_in messages.now) }
    ensures writer { IsWriterOf board.now writer.new }
    ensures entries { entries_of writer.new ≡ entries_from (entries_of writer.old) (said_in messages.now) }
{
    for stamped in messages {
        board.publish(writer, &stamped.message);
    }
}

/// Adds what a reader is shown of one symbol.
fn ask(board: &Board, reader: &mut ReaderSeat, symbol: u32, rows: &mut Vec<Row>)
    requires reader { IsReaderOf board.now reader.old }
    requires symbol { symbol < symbols_of board.now }
    requires room { vec_len rows.old < vec_capacity rows.old }
    ensures reader { IsReaderOf board.now reader.new }
    ensures notes { notes_of reader.new ≡ notes_of reader.old }
    ensures more { Adds (answers_of reader.old) (answers_of reader.new) }
    ensures room { vec_capacity rows.new ≡ vec_capacity rows.old }
    ensures row { (row : Row) × (rows.new.items ≡ rows.old.items ++ row ∷ []) × IsAnswered (notes_of reader.old) (answers_of reader.new) symbol row }
{
    let shown = board.state(reader, symbol);
    let lower = board.edge(reader, symbol, Side::Low).price;
    let upper = board.edge(reader, symbol, Side::High).price;
    rows.push_reserved(Row {
        symbol,
        shown,
        lower,
        upper,
    });
}

/// Adds what a reader is shown of each of the first so many symbols.
fn ask_all(board: &Board, reader: &mut ReaderSeat, symbols: u32, rows: &mut Vec<Row>)
    requires reader { IsReaderOf board.now reader.old }
    requires symbols { symbols ≤ symbols_of board.now }
    requires room { (rows.old.items ≡ []) × (symbols ≤ vec_capacity rows.old) }
    ensures reader { IsReaderOf board.now reader.new }
    ensures count { vec_len rows.new ≡ symbols }
    ensures rows { (k : ℕ) (row : Row) → slice_get rows.new.items k ≡ Some row → IsAnswered (notes_of reader.old) (answers_of reader.new) k row }
{
    for symbol in 0..symbols {
        ask(board, reader, symbol, rows);
    }
}

impl Desk {
    /// A board on which nothing was published.
    pub fn open(alloc: Global) -> Result<Desk, NoMemory>
        ensures { IfOk result (HasPublished []) }
    {
        let (board, writer, readers) = Board::new(alloc, MOST_NAMES as u32, 1)?;
        Ok(Desk {
            board,
            writer,
            readers,
        })
    }

    /// Publishes messages behind those before them.
    pub fn publish(&mut self, messages: &[Stamped])
        requires { CanTake self.old (said_in messages.now) }
        ensures { (published : List Message) → HasPublished published self.old → HasPublished (published ++ said_in messages.now) self.new }
    {
        publish_all(&self.board, &mut self.writer, messages);
    }

    /// Adds what the board shows last of the first so many symbols, and ends the board.
    pub fn close(self, symbols: u32, rows: &mut Vec<Row>)
        requires writer { IsWriterOf self.board self.writer }
        requires reader { (vec_len self.readers ≡ 1) × All (IsFresh self.board) self.readers.items }
        requires symbols { symbols ≤ symbols_of self.board }
        requires room { (rows.old.items ≡ []) × (symbols ≤ vec_capacity rows.old) }
        ensures { (published : List Message) → HasPublished published self → rows.new.items ≡ map (last_row published) (ids_below symbols) }
    {
        let Desk {
            board,
            mut writer,
            mut readers,
        } = self;
        let mut reader = readers.pop().unwrap();
        let note = board.note(&mut writer);
        board.meet(&mut reader, note);
        ask_all(&board, &mut reader, symbols, rows);
        readers.push_reserved(reader);
        board.close(writer, readers);
    }
}
