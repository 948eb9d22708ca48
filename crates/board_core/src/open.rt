//! The seats of a new board.

ghost use Rattle.std.specs.Prelude.{◌≡◌, ◌≤◌, [], All, vec_len, vec_capacity};
ghost use Rattle.board_core.specs.Seats.{table_of, IsFresh};

use crate::board::{Board, ReaderSeat};
use crate::rule::ReaderSplit;
use crate::view::SeatView;
use atomic_table::Seat;

/// So many readers' seats, split from the writer's, which stays as it was.
pub fn split_readers(
    board: &Board,
    writer: &mut Seat<(), SeatView>,
    readers: u32,
    mut row: Vec<ReaderSeat>,
) -> Vec<ReaderSeat>
    requires table { writer.old.table_id ≡ table_of board.now }
    requires room { (row.items ≡ []) × (readers ≤ vec_capacity row) }
    ensures writer { (writer.new.table_id ≡ writer.old.table_id) × (writer.new.id ≡ writer.old.id) × (writer.new.me.0 ≡ writer.old.me.0) }
    ensures count { vec_len result ≡ readers }
    ensures fresh { All (IsFresh board.now) result.items }
{
    for number in 0..readers {
        let seat = board.table.shared.split_seat::<ReaderSplit>(writer);
        row.push_reserved(ReaderSeat { number, seat });
    }
    row
}
