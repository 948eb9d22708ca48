//! The end of a board: its writer takes all readers in.

ghost use Rattle.std.specs.Prelude.{◌≡◌, All};
ghost use Rattle.board_core.specs.Entries.{IsEntry};
ghost use Rattle.board_core.specs.Views.{HasAnswers};
ghost use Rattle.board_core.specs.Seats.{entries_of, answers_of, IsWriterOf, IsReaderOf};

use crate::board::{Board, ReaderSeat, WriterSeat};
use crate::rule::GatherJoin;

/// The writer's seat, which has the answers of all these readers.
pub fn gather(board: &Board, mut writer: WriterSeat, mut readers: Vec<ReaderSeat>) -> WriterSeat
    requires writer { IsWriterOf board.now writer }
    requires readers { All (IsReaderOf board.now) readers.items }
    ensures writer { IsWriterOf board.now result }
    ensures entries { entries_of result ≡ entries_of writer }
    ensures answers { All (λ reader. HasAnswers result.seat.me.0 (answers_of reader)) readers.items }
{
    while let Some(reader) = readers.pop() {
        board
            .table
            .shared
            .join_seat::<GatherJoin>(&mut writer.seat, reader.seat);
    }
    writer
}
