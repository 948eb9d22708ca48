//! The deals of a window, in a queue.

ghost use Rattle.std.specs.Prelude.{◌≡◌, ◌+◌, ◌*◌, ◌≤◌, ◌++◌, ◌∷◌, ◌&&◌, [], IsOk, OnErr, OnOk, filter, length, nat_le, slice_get, sum_by};
ghost use Rattle.std.specs.VecDeque.{deque_len, deque_capacity};
ghost use Rattle.window_core.specs.Deals.{live, stays};
ghost use Rattle.window_core.specs.Tallies.{Tallies};

use crate::window::Deal;
use price_core::NoMemory;
use session_core::Moment;
use std::collections::VecDeque;

/// For how many deals room is taken at first.
const FIRST_ROOM: usize = 16;

/// Removes the deals that are five minutes old.
pub fn keep_live(t: Moment, deals: &mut VecDeque<Deal>)
    ensures items { deals.new.items ≡ live t deals.old.items }
    ensures len { deque_len deals.new ≤ deque_len deals.old }
    ensures capacity { deque_capacity deals.new ≡ deque_capacity deals.old }
{
    deals.retain(|deal| deal.is_live(t));
}

/// Removes the deals of a number.
pub fn remove(number: u32, deals: &mut VecDeque<Deal>)
    ensures items { deals.new.items ≡ filter (stays number) deals.old.items }
    ensures len { deque_len deals.new ≤ deque_len deals.old }
    ensures capacity { deque_capacity deals.new ≡ deque_capacity deals.old }
{
    deals.retain(|deal| deal.number != number);
}

/// Takes room for one more deal: for as many more as there are, or for one where that is refused. An error leaves all as it
/// was.
pub fn make_room(deals: &mut VecDeque<Deal>) -> Result<(), NoMemory>
    ensures ok { OnOk result (deque_len deals.new + 1 ≤ deque_capacity deals.new) }
    ensures succeeds { deque_len deals.old + 1 ≤ deque_capacity deals.old → IsOk result }
    ensures items { deals.new.items ≡ deals.old.items }
    ensures len { deque_len deals.new ≡ deque_len deals.old }
    ensures capacity { deque_capacity deals.old ≤ deque_capacity deals.new }
    ensures err { OnErr result (deque_capacity deals.new ≡ deque_capacity deals.old) }
{
    if deals.len() < deals.capacity() {
        return Ok(());
    }
    let more = deals.len().max(FIRST_ROOM);
    if deals.reserve_exact(more).is_ok() {
        return Ok(());
    }
    deals.reserve_exact(1)?;
    Ok(())
}

pub fn push_deal(deal: Deal, deals: &mut VecDeque<Deal>)
    requires { deque_len deals.old + 1 ≤ deque_capacity deals.old }
    ensures items { deals.new.items ≡ deals.old.items ++ deal ∷ [] }
    ensures len { deque_len deals.new ≡ deque_len deals.old + 1 }
    ensures capacity { deque_capacity deals.old ≤ deque_capacity deals.new }
{
    deals.push_back(deal).unwrap();
}

/// The first deal.
pub fn first(deals: &VecDeque<Deal>) -> Option<Deal>
    ensures { result ≡ slice_get deals.now.items 0 }
{
    match deals.front() {
        Some(deal) => Some(*deal),
        None => None,
    }
}

/// The sum of the prices.
fn total(deals: &[Deal]) -> u128
    ensures value { result ≡ sum_by (λ d. d.price) deals.now }
    ensures least { length deals.now ≤ result }
    ensures most { result ≤ 99999999999 * length deals.now }
{
    let mut total: u128 = 0;
    for deal in deals {
        total += u128::from(deal.price.units());
    }
    total
}

/// The sum of the prices of all.
pub fn total_of(deals: &VecDeque<Deal>) -> u128
    ensures { Tallies result (length deals.now.items) deals.now.items }
{
    let (front, back) = deals.as_slices();
    total(front) + total(back)
}

pub fn later(a: Moment, b: Moment) -> Moment
    ensures first { a ≤ result }
    ensures second { b ≤ result }
{
    if a.nanos() < b.nanos() { b } else { a }
}

/// Whether deals of which none is after a moment stay in order with this one behind them.
pub fn stays_ordered(is_ordered: bool, newest: Moment, d: &Deal) -> bool
    ensures { result ≡ (is_ordered && nat_le newest d.now.moment) }
{
    is_ordered && newest.nanos() <= d.moment.nanos()
}
