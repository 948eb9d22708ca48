//! What the rule of a yard says of all its seats at once.

ghost use Rattle.std.specs.Prelude.{◌≡◌, ℕ, ◌<◌, ◌≤◌, List, Option, length};
ghost use mathlib.Core.Option.{some};
ghost use lib.ListN.{get_elem?};
ghost use Rattle.atomic_table.specs.Table.{State};
ghost use Rattle.yard_core.specs.declared.view.SeatView.{SeatView};
ghost use Rattle.yard_core.specs.Sums.{total};
ghost use Rattle.yard_core.specs.Views.{pieces_of};
ghost use Rattle.yard_core.specs.YardState.{YardState};

use crate::job::Job;

/// Each piece was claimed once at most, and by one seat; where a seat has answered Done, each was claimed. It does nothing.
pub fn each_piece_once<J: Job>()
    ensures once { (asked : ℕ) (origins : List J.Origin) (s : State (Option J) (SeatView J)) → YardState J.place_of J.origin_of J.has_result asked origins s
        → (k : ℕ) → total (pieces_of k) s.views ≤ 1 }
    ensures apart { (asked : ℕ) (origins : List J.Origin) (s : State (Option J) (SeatView J)) → YardState J.place_of J.origin_of J.has_result asked origins s
        → (i j k : ℕ) (v w : SeatView J) → get_elem? s.views i ≡ some v → get_elem? s.views j ≡ some w → 0 < pieces_of k v → 0 < pieces_of k w → j ≡ i }
    ensures all { (asked : ℕ) (origins : List J.Origin) (s : State (Option J) (SeatView J)) → YardState J.place_of J.origin_of J.has_result asked origins s
        → (i k : ℕ) (v : SeatView J) → get_elem? s.views i ≡ some v → 0 < v.done → k < length origins → total (pieces_of k) s.views ≡ 1 }
{}
