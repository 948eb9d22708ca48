//! When the mean of deals may have moved, while they leave one after the other.

ghost use Rattle.std.specs.Prelude.{◌≡◌, ◌+◌, ◌*◌, ◌≤◌, ◌<◌, ◌==◌, ℕ, false, None, Some, if◌then◌else◌, length, max};
ghost use Rattle.std.specs.Option.{option_map_or};
ghost use Rattle.price_core.specs.Moves.{moved_one_percent};
ghost use Rattle.price_core.specs.Rounding.{mean};
ghost use Rattle.session_core.specs.Durations.{five_minutes};
ghost use Rattle.window_core.specs.Deals.{live, mean_has_moved};
ghost use Rattle.window_core.specs.Leaving.{IsQueue};

use crate::tally::{Tally, few_have_moved};
use crate::window::Deal;
use price_core::Price;
use session_core::FIVE_MINUTES;
use std::collections::VecDeque;

/// How many deals are looked at one after the other. Of more the first alone is, since a stock that has more has a trade again
/// soon.
pub(crate) const FEW: usize = 8;

/// From when on, at a moment or after it, the mean of those of a few deals that are then left may be at least one per cent away
/// from a reference price, where the deals stand in order. It looks at them from the oldest one on, up to the first such moment.
pub(crate) fn few_move_from(deals: &VecDeque<Deal>, all: &Tally, from: u64, reference: Price) -> u64
    requires queue { IsQueue all.now.sum all.now.count deals.now.items }
    requires few { length deals.now.items ≤ 8 }
    ensures { (u : ℕ) → from ≤ u → u < result → mean_has_moved reference (live u deals.now.items) ≡ false }
{
    let mut sum = all.sum as u64;
    let mut count = all.count;
    let mut begin = from;
    for index in 0..deals.len() {
        let deal = &deals[index];
        let leaves = deal.moment.nanos() + FIVE_MINUTES;
        if (begin < leaves) & few_have_moved(sum, count, reference) {
            return begin;
        }
        begin = begin.max(leaves);
        sum -= deal.price.units();
        count -= 1;
    }
    u64::MAX
}

/// The same of many deals in order, by when the first of them leaves.
pub(crate) fn many_move_from(first: &Deal, all: &Tally, from: u64, reference: Price) -> u64
    requires least { all.now.count ≤ all.now.sum }
    requires most { all.now.sum ≤ 99999999999 * all.now.count }
    ensures end { result ≤ max from (first.now.moment + five_minutes) }
    ensures unmoved { from < result → option_map_or (λ m. moved_one_percent m reference) (if all.now.count == 0 then None else Some (mean all.now.sum all.now.count)) false ≡ false }
{
    let end = first.moment.nanos() + FIVE_MINUTES;
    if end <= from || all.has_moved(reference) {
        from
    } else {
        end
    }
}
