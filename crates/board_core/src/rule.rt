//! The rule of a board's table, and the names of its steps.

ghost use Rattle.std.specs.Prelude.{◌*◌};
ghost use Rattle.board_core.specs.Views.{first_view, spent, note_view, met, gathered};
ghost use Rattle.board_core.specs.BoardState.{BoardState};
ghost use Rattle.board_core.specs.Steps.{Posts, Finds, Reads};

use crate::view::SeatView;
use atomic_table::{Join, Play, Split, TableRule};

/// What each step on the table of a board keeps, for a board of so many symbols.
pub struct BoardRule;

impl TableRule<(), SeatView, u32> for BoardRule {
    ghost holds = { λ symbols. BoardState (3 * symbols) };

    ghost first = { λ symbols. first_view };
}

/// A new reader comes to the board.
pub struct ReaderSplit;

impl Split<SeatView> for ReaderSplit {
    ghost left = { λ v. v };

    ghost right = { λ v. spent };
}

/// The writer makes a note of what it has published.
pub struct NoteSplit;

impl Split<SeatView> for NoteSplit {
    ghost left = { λ v. v };

    ghost right = { note_view };
}

/// A reader meets a note.
pub struct MeetJoin;

impl Join<SeatView> for MeetJoin {
    ghost both = { met };

    ghost spent = { spent };
}

/// The writer takes a reader in.
pub struct GatherJoin;

impl Join<SeatView> for GatherJoin {
    ghost both = { gathered };

    ghost spent = { spent };
}

/// The writer makes an entry.
pub struct PostStep;

impl Play<(), SeatView> for PostStep {
    ghost then = { Posts };
}

/// The writer looks at its latest entry.
pub struct FindStep;

impl Play<(), SeatView> for FindStep {
    ghost then = { Finds };
}

/// A reader asks.
pub struct ReadStep;

impl Play<(), SeatView> for ReadStep {
    ghost then = { Reads };
}
