//! What the trades of a window add up to.

ghost use Rattle.std.specs.Prelude.{◌-◌, ◌≡◌, ◌==◌, ◌+◌, ◌*◌, ◌≤◌, ◌<◌, ◌++◌, ◌^◌, ◌||◌, None, Some, false, filter, nat_le, nat_lt, if◌then◌else◌, length, option_to_list};
ghost use Rattle.std.specs.Option.{option_map_or};
ghost use Rattle.price_core.specs.Moves.{moved_one_percent};
ghost use Rattle.price_core.specs.Rounding.{mean};
ghost use Rattle.window_core.specs.Deals.{is_numbered, live, mean_of};
ghost use Rattle.window_core.specs.Tallies.{Tallies};

use crate::window::Deal;
use price_core::{Price, mean};
use session_core::Moment;

/// The sum of the prices of deals, and their number.
#[derive(Clone, Copy, Debug)]
pub(crate) struct Tally {
    pub(crate) sum: u128,
    pub(crate) count: u64,
}

impl Tally {
    /// Of the deals that are less than five minutes old.
    pub(crate) fn of(t: Moment, deals: &[Deal]) -> Tally
        ensures tallies { Tallies result.sum result.count (live t deals.now) }
        ensures few { result.count ≤ length deals.now }
    {
        let mut sum: u128 = 0;
        let mut count: u64 = 0;
        for deal in deals {
            if deal.is_live(t) {
                sum += u128::from(deal.price.units());
                count += 1;
            }
        }
        Tally { sum, count }
    }

    /// Of one deal, where there is one and it is less than five minutes old.
    pub(crate) fn of_one(t: Moment, deal: &Option<Deal>) -> Tally
        ensures tallies { Tallies result.sum result.count (live t (option_to_list deal.now)) }
        ensures few { result.count ≤ 1 }
    {
        match deal {
            Some(deal) if deal.is_live(t) => Tally {
                sum: u128::from(deal.price.units()),
                count: 1,
            },
            _ => Tally { sum: 0, count: 0 },
        }
    }

    /// Of the deals of a number.
    pub(crate) fn of_number(number: u32, deals: &[Deal]) -> Tally
        ensures tallies { Tallies result.sum result.count (filter (is_numbered number) deals.now) }
        ensures few { result.count ≤ length deals.now }
    {
        let mut sum: u128 = 0;
        let mut count: u64 = 0;
        for deal in deals {
            if deal.number == number {
                sum += u128::from(deal.price.units());
                count += 1;
            }
        }
        Tally { sum, count }
    }

    /// The sum and the number of both.
    pub(crate) fn and(&self, other: &Tally) -> Tally
        requires sum { self.now.sum + other.now.sum < 2 ^ 128 }
        requires count { self.now.count + other.now.count < 2 ^ 64 }
        ensures sum { result.sum ≡ self.now.sum + other.now.sum }
        ensures count { result.count ≡ self.now.count + other.now.count }
    {
        Tally {
            sum: self.sum + other.sum,
            count: self.count + other.count,
        }
    }

    pub(crate) fn mean(&self) -> Option<Price>
        requires least { self.now.count ≤ self.now.sum }
        requires most { self.now.sum ≤ 99999999999 * self.now.count }
        ensures { result ≡ (if self.now.count == 0 then None else Some (mean self.now.sum self.now.count)) }
    {
        if self.count == 0 {
            return None;
        }
        Some(mean(self.sum, self.count))
    }

    /// Whether the mean is at least one per cent away from a reference price (LULD Plan, Section V). It compares sums,
    /// since a division by the number of deals is slow.
    pub(crate) fn has_moved(&self, reference: Price) -> bool
        requires least { self.now.count ≤ self.now.sum }
        requires most { self.now.sum ≤ 99999999999 * self.now.count }
        ensures { result ≡ option_map_or (λ m. moved_one_percent m reference) (if self.now.count == 0 then None else Some (mean self.now.sum self.now.count)) false }
    {
        if self.count == 0 {
            return false;
        }
        if self.count < MANY {
            return few_have_moved(self.sum as u64, self.count, reference);
        }
        many_have_moved(self.sum, self.count, reference)
    }
}

/// The sum of the prices of fewer deals fits 64 bits, also where a price is as far as one per cent away from each of them.
const MANY: u64 = 1_048_576;

/// The same as `has_moved`, of many deals. It stays a call of its own, for whose wide numbers few deals make no room.
#[inline(never)]
fn many_have_moved(sum: u128, count: u64, reference: Price) -> bool
    requires some { 0 < count }
    requires most { sum ≤ 99999999999 * count }
    ensures { result ≡ option_map_or (λ m. moved_one_percent m reference) (if count == 0 then None else Some (mean sum count)) false }
{
    let price = reference.units();
    let hundredth = (price + 99) / 100;
    let sum = 2 * sum + u128::from(count);
    doubled(price + hundredth, count) <= sum || sum < doubled(price - hundredth + 1, count)
}

/// Whether a number is less than another, or not less than so much more than that. One comparison tells both.
fn is_outside(number: u64, low: u64, width: u64) -> bool
    requires number { number < 2 ^ 63 }
    requires low { low < 2 ^ 62 }
    requires width { width < 2 ^ 62 }
    ensures { result ≡ (nat_le (low + width) number || nat_lt number low) }
{
    width <= number.wrapping_sub(low)
}

/// The same as `has_moved`, of fewer deals.
pub(crate) fn few_have_moved(sum: u64, count: u64, reference: Price) -> bool
    requires few { count < 2 ^ 20 }
    requires most { sum ≤ 99999999999 * count }
    ensures { 0 < count → result ≡ option_map_or (λ m. moved_one_percent m reference) (if count == 0 then None else Some (mean sum count)) false }
{
    let price = reference.units();
    let hundredth = (price + 99) / 100;
    let low = doubled_few(price - hundredth + 1, count);
    let width = doubled_few(2 * hundredth - 1, count);
    is_outside(2 * sum + count, low, width)
}

/// Twice the sum of so many equal prices.
fn doubled_few(price: u64, count: u64) -> u64
    requires price { price < 2 ^ 40 }
    requires count { count < 2 ^ 20 }
    ensures { result ≡ price * (2 * count) }
{
    price * (2 * count)
}

/// Twice the sum of so many equal prices.
fn doubled(price: u64, count: u64) -> u128
    requires { price < 2 ^ 40 }
    ensures { result ≡ price * (2 * count) }
{
    u128::from(price) * (2 * u128::from(count))
}

/// The mean of the prices of these deals and one more that are less than five minutes old, in ten-thousandths of a dollar,
/// rounded half up; None exactly where there are none (LULD Plan, Section V).
pub fn live_mean(t: Moment, deals: &[Deal], last: &Option<Deal>) -> Option<Price>
    ensures { result ≡ mean_of (live t (deals.now ++ option_to_list last.now)) }
{
    let earlier = Tally::of(t, deals);
    let last = Tally::of_one(t, last);
    earlier.and(&last).mean()
}
