//! What a board tells of, and what a replay publishes.

ghost use Rattle.std.specs.Prelude.{◌≡◌, ℕ, List, []};
ghost use Rattle.rulebook.specs.Sent.{replies, unacknowledged};
ghost use Rattle.screen_core.specs.Screened.{accepted, capacity, messages_in, said};

/// The messages that a board tells of are those that a replay of the same frames sends. It does nothing.
pub fn a_board_tells_of_a_replay()
    ensures { (bodies : List (List ℕ)) → messages_in (unacknowledged (replies capacity 1 [] bodies)) ≡ said (accepted bodies) }
{}
