//! A reader of a board, which asks again and again for the price bands of each stock.

ghost use Rattle.std.specs.Prelude.{◌≡◌, ◌<◌, ◌≤◌, IfOk};
ghost use Rattle.board_core.specs.Seats.{symbols_of, IsFresh};
ghost use Rattle.gateway.specs.Tallies.{counted};

use board_core::{Board, ReaderSeat};
use price_core::{NoMemory, Side};
use std::alloc::Global;

/// The versions of both edges of a stock that a reader was answered last.
#[derive(Clone, Copy)]
pub struct Seen {
    pub low: u64,
    pub high: u64,
}

/// What a reader counts, up to the greatest number of 64 bits: its answers, those with another version than the one before,
/// and those with a lower one.
#[derive(Clone, Copy)]
pub struct Tally {
    pub answers: u64,
    pub changes: u64,
    pub fallen: u64,
}

/// A reader of the first so many stocks, with what it saw of each.
#[derive(Drop)]
pub struct Reader {
    pub seat: ReaderSeat,
    pub stocks: u32,
    pub seen: Vec<Seen>,
    pub tally: Tally,
}

/// Counts an answer of that version behind one of the other.
fn count(tally: &mut Tally, before: u64, version: u64)
    ensures { tally.new ≡ counted before version tally.old }
{
    tally.answers = tally.answers.saturating_add(1);
    if version != before {
        tally.changes = tally.changes.saturating_add(1);
    }
    if version < before {
        tally.fallen = tally.fallen.saturating_add(1);
    }
}

impl Reader {
    ghost use Rattle.gateway.specs.Readers.{IsUntold};

    /// A reader of so many stocks that has asked nothing yet.
    pub fn new(
        alloc: Global,
        board: &Board,
        seat: ReaderSeat,
        stocks: u32,
    ) -> Result<Reader, NoMemory>
        requires seat { IsFresh board.now seat }
        requires stocks { stocks ≤ symbols_of board.now }
        ensures { IfOk result (IsUntold board.now) }
    {
        let seen = vec![in alloc; Seen { low: 0, high: 0 }; stocks as usize]?;
        let tally = Tally {
            answers: 0,
            changes: 0,
            fallen: 0,
        };
        Ok(Reader {
            seat,
            stocks,
            seen,
            tally,
        })
    }

    /// Asks for both edges of a stock.
    fn ask(&mut self, board: &Board, symbol: u32)
        requires reader { IsUntold board.now self.old }
        requires symbol { symbol < self.old.stocks }
        ensures reader { IsUntold board.now self.new }
        ensures stocks { self.new.stocks ≡ self.old.stocks }
    {
        let low = board.edge(&mut self.seat, symbol, Side::Low).version;
        let high = board.edge(&mut self.seat, symbol, Side::High).version;
        let before = self.seen[symbol as usize];
        count(&mut self.tally, before.low, low);
        count(&mut self.tally, before.high, high);
        self.seen[symbol as usize] = Seen { low, high };
    }

    /// Asks for both edges of each stock.
    fn ask_each(&mut self, board: &Board)
        requires { IsUntold board.now self.old }
        ensures { IsUntold board.now self.new }
    {
        for symbol in 0..self.stocks {
            self.ask(board, symbol);
        }
    }

    /// Asks so often for both edges of each stock.
    pub fn watch(mut self, board: &Board, rounds: u32) -> Reader
        requires { IsUntold board.now self }
        ensures { IsUntold board.now result }
    {
        for _ in 0..rounds {
            self.ask_each(board);
        }
        self
    }
}
