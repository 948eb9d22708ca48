//! What a board shows last of each stock.

ghost use Rattle.std.specs.Prelude.{◌≡◌, ℕ, ◌<◌, ◌≤◌, ◌∷◌, ◌++◌, [], Some, slice_get, vec_len, vec_capacity};
ghost use Rattle.board_core.specs.Seats.{symbols_of, answers_of, notes_of, IsReaderOf};
ghost use Rattle.gateway.specs.Rows.{Adds, IsAnswered};

use board_core::{Board, ReaderSeat, Shown};
use price_core::{Price, Side};

/// What is shown of a stock: its state and its price bands.
#[derive(Drop)]
pub struct Row {
    pub shown: Shown,
    pub lower: Option<Price>,
    pub upper: Option<Price>,
}

/// Adds what a reader is shown of one stock.
fn add_row(board: &Board, reader: &mut ReaderSeat, symbol: u32, rows: &mut Vec<Row>)
    requires reader { IsReaderOf board.now reader.old }
    requires symbol { symbol < symbols_of board.now }
    requires room { vec_len rows.old < vec_capacity rows.old }
    ensures reader { IsReaderOf board.now reader.new }
    ensures notes { notes_of reader.new ≡ notes_of reader.old }
    ensures more { Adds (answers_of reader.old) (answers_of reader.new) }
    ensures room { vec_capacity rows.new ≡ vec_capacity rows.old }
    ensures row { (row : Row) × (rows.new.items ≡ rows.old.items ++ row ∷ []) × IsAnswered (notes_of reader.old) (answers_of reader.new) symbol row }
{
    let shown = board.state(reader, symbol);
    let lower = board.edge(reader, symbol, Side::Low).price;
    let upper = board.edge(reader, symbol, Side::High).price;
    rows.push_reserved(Row {
        shown,
        lower,
        upper,
    });
}

/// What a reader is shown of each of the first so many stocks.
pub fn rows_of(board: &Board, reader: &mut ReaderSeat, stocks: u32, mut rows: Vec<Row>) -> Vec<Row>
    requires reader { IsReaderOf board.now reader.old }
    requires stocks { stocks ≤ symbols_of board.now }
    requires room { (rows.items ≡ []) × (stocks ≤ vec_capacity rows) }
    ensures reader { IsReaderOf board.now reader.new }
    ensures count { vec_len result ≡ stocks }
    ensures rows { (k : ℕ) (row : Row) → slice_get result.items k ≡ Some row → IsAnswered (notes_of reader.old) (answers_of reader.new) k row }
{
    for symbol in 0..stocks {
        add_row(board, reader, symbol, &mut rows);
    }
    rows
}
