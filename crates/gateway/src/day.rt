//! A day on a board: a writer publishes, two readers ask beside it, and one of them tells what stands last.

ghost use Rattle.std.specs.Prelude.{◌≡◌, ◌-◌, ◌^◌, ◌<◌, ◌≤◌, List, [], All, IfOk, length, vec_len};
ghost use Rattle.wire_out.specs.declared.message.Message.{Message};
ghost use Rattle.board_core.specs.Entries.{board_entries};
ghost use Rattle.board_core.specs.Seats.{symbols_of, entries_of, IsWriterOf};
ghost use Rattle.gateway.specs.Rows.{CanPublish, AreLast};
ghost use Rattle.gateway.specs.Readers.{IsUntold};

use crate::reader::{Reader, Tally};
use crate::reading::STOCKS;
use crate::rows::{Row, rows_of};
use board_core::{Board, WriterSeat};
use price_core::NoMemory;
use std::alloc::Global;
use std::thread::{Threads, join};
use wire_out::Message;

/// What two readers of a day counted, and what stands last of each stock.
#[derive(Drop)]
pub struct Day {
    pub first: Tally,
    pub second: Tally,
    pub rows: Vec<Row>,
}

/// Publishes messages on a new board.
fn publish_all(board: &Board, mut writer: WriterSeat, messages: &[Message]) -> WriterSeat
    requires writer { IsWriterOf board.now writer × (entries_of writer ≡ []) }
    requires messages { All (CanPublish (symbols_of board.now)) messages.now }
    requires count { length messages.now < 2 ^ 34 - 1 }
    ensures writer { IsWriterOf board.now result }
    ensures entries { entries_of result ≡ board_entries messages.now }
{
    for message in messages {
        board.publish(&mut writer, message);
    }
    writer
}

/// Two readers ask, each in a thread of its own.
fn watch_twice<R: Threads + Sync>(
    rt: &R,
    board: &Board,
    first: Reader,
    second: Reader,
    rounds: u32,
) -> (Reader, Reader)
    requires readers { IsUntold board.now first × IsUntold board.now second }
    ensures readers { IsUntold board.now result.0 × IsUntold board.now result.1 }
{
    join(
        rt,
        || -> Reader
            requires { IsUntold board.now first }
            ensures { IsUntold board.entry.now result }
        { first.watch(board, rounds) },
        || -> Reader
            requires { IsUntold board.now second }
            ensures { IsUntold board.entry.now result }
        { second.watch(board, rounds) },
    )
}

/// Publishes messages in a thread while two readers ask beside it.
fn publish_beside<R: Threads + Sync>(
    rt: &R,
    board: &Board,
    messages: &[Message],
    writer: WriterSeat,
    readers: (Reader, Reader),
    rounds: u32,
) -> (WriterSeat, (Reader, Reader))
    requires writer { IsWriterOf board.now writer × (entries_of writer ≡ []) }
    requires messages { All (CanPublish (symbols_of board.now)) messages.now × (length messages.now < 2 ^ 34 - 1) }
    requires readers { IsUntold board.now readers.0 × IsUntold board.now readers.1 }
    ensures writer { IsWriterOf board.now result.0 × (entries_of result.0 ≡ board_entries messages.now) }
    ensures readers { IsUntold board.now result.1.0 × IsUntold board.now result.1.1 }
{
    let (first, second) = readers;
    join(
        rt,
        || -> WriterSeat
            requires { IsWriterOf board.now writer × (entries_of writer ≡ []) × All (CanPublish (symbols_of board.now)) messages.now × (length messages.now < 2 ^ 34 - 1) }
            ensures { IsWriterOf board.entry.now result × (entries_of result ≡ board_entries messages.entry.now) }
        { publish_all(board, writer, messages) },
        || -> (Reader, Reader)
            requires { IsUntold board.now first × IsUntold board.now second }
            ensures { IsUntold board.entry.now result.0 × IsUntold board.entry.now result.1 }
        { watch_twice(rt, board, first, second, rounds) },
    )
}

/// Tells one of the readers of all that was published, asks for what stands last, and closes the board.
fn end_day(
    alloc: Global,
    board: Board,
    mut writer: WriterSeat,
    readers: (Reader, Reader),
    stocks: u32,
) -> Result<Day, NoMemory>
    requires writer { IsWriterOf board writer }
    requires readers { IsUntold board readers.0 × IsUntold board readers.1 }
    requires stocks { stocks ≤ symbols_of board }
    ensures fallen { IfOk result (λ day. (day.first.fallen ≡ 0) × (day.second.fallen ≡ 0)) }
    ensures count { IfOk result (λ day. vec_len day.rows ≡ stocks) }
    ensures rows { IfOk result (λ day. (messages : List Message) → entries_of writer ≡ board_entries messages → AreLast messages day.rows.items) }
{
    let rows = Vec::with_capacity(alloc, stocks as usize)?;
    let mut seats = Vec::with_capacity(alloc, 2)?;
    let (first, second) = readers;
    let mut seat = first.seat;
    let note = board.note(&mut writer);
    board.meet(&mut seat, note);
    let rows = rows_of(&board, &mut seat, stocks, rows);
    seats.push_reserved(second.seat);
    seats.push_reserved(seat);
    board.close(writer, seats);
    Ok(Day {
        first: first.tally,
        second: second.tally,
        rows,
    })
}

/// Publishes the messages of a day on a board while two readers ask so often for both edges of each of the first so many
/// stocks. Once all is published one of them is told of it, and asks for what stands last. An error is want of memory.
pub fn run_day<R: Threads + Sync>(
    rt: &R,
    alloc: Global,
    stocks: u32,
    messages: &[Message],
    rounds: u32,
) -> Result<Day, NoMemory>
    requires stocks { stocks ≤ 16384 }
    requires messages { All (CanPublish 16384) messages.now × (length messages.now < 2 ^ 34 - 1) }
    // Neither reader counted a version that fell.
    ensures fallen { IfOk result (λ day. (day.first.fallen ≡ 0) × (day.second.fallen ≡ 0)) }
    ensures count { IfOk result (λ day. vec_len day.rows ≡ stocks) }
    // Each row is what the messages made last of its stock.
    ensures rows { IfOk result (λ day. AreLast messages.now day.rows.items) }
{
    let (board, writer, mut seats) = Board::new(alloc, STOCKS, 2)?;
    let first = Reader::new(alloc, &board, seats.pop().unwrap(), stocks)?;
    let second = Reader::new(alloc, &board, seats.pop().unwrap(), stocks)?;
    let readers = (first, second);
    let (writer, readers) = publish_beside(rt, &board, messages, writer, readers, rounds);
    end_day(alloc, board, writer, readers, stocks)
}
