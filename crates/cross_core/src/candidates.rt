//! The candidates for the price of an auction.
ghost use Rattle.std.specs.Prelude.{◌≡◌, ℕ, true, ◌+◌, ◌==◌, ◌≤◌, ◌<◌, IfOk, length, nat_eq, vec_len, vec_capacity, ◌&&◌, ◌||◌};
ghost use Rattle.std.specs.List.{list_any};
ghost use Rattle.std.specs.List.Sorted.{IsStrictlyIncreasing};
ghost use Rattle.cross_core.specs.Best.{is_within};
ghost use Rattle.cross_core.specs.Steps.{is_beside, is_stop};

use crate::steps::Step;
use price_core::{Collars, NoMemory, Price};
use std::alloc::Global;

/// Adds a number of units where it is a price within the collars.
fn add_within(units: u64, collars: &Collars, prices: &mut Vec<Price>)
    requires { vec_len prices.old < vec_capacity prices.old }
    ensures items { (p : ℕ) → list_any (nat_eq p) prices.new.items ≡ (list_any (nat_eq p) prices.old.items || (is_within collars.now p && p == units)) }
    ensures len { vec_len prices.new ≤ vec_len prices.old + 1 }
    ensures capacity { vec_capacity prices.new ≡ vec_capacity prices.old }
{
    if collars.lower.units() <= units && units <= collars.upper.units() {
        prices.push_reserved(Price::of(units));
    }
}

/// Adds the price where a step begins and the one before it, each where it lies within the collars.
fn add_beside(step: &Step, collars: &Collars, prices: &mut Vec<Price>)
    requires { vec_len prices.old + 2 ≤ vec_capacity prices.old }
    ensures items { (p : ℕ) → list_any (nat_eq p) prices.new.items ≡ (list_any (nat_eq p) prices.old.items || (is_within collars.now p && is_beside p step.now.from)) }
    ensures len { vec_len prices.new ≤ vec_len prices.old + 2 }
    ensures capacity { vec_capacity prices.new ≡ vec_capacity prices.old }
{
    add_within(step.from.saturating_sub(1), collars, prices);
    add_within(step.from, collars, prices);
}

/// The same, where the step may begin where the one before it did, whose prices are there.
fn add_next(step: &Step, last: u64, collars: &Collars, prices: &mut Vec<Price>)
    requires room { vec_len prices.old + 2 ≤ vec_capacity prices.old }
    requires last { (p : ℕ) → is_within collars.now p ≡ true → is_beside p last ≡ true → list_any (nat_eq p) prices.old.items ≡ true }
    ensures items { (p : ℕ) → list_any (nat_eq p) prices.new.items ≡ (list_any (nat_eq p) prices.old.items || (is_within collars.now p && is_beside p step.now.from)) }
    ensures len { vec_len prices.new ≤ vec_len prices.old + 2 }
    ensures capacity { vec_capacity prices.new ≡ vec_capacity prices.old }
{
    if step.from != last {
        add_beside(step, collars, prices);
    }
}

/// All candidates, in any order.
fn collect(
    alloc: Global,
    steps: &[Step],
    reference: Price,
    collars: &Collars,
) -> Result<Vec<Price>, NoMemory>
    requires few { length steps.now ≤ 1000000 }
    requires order { collars.now.lower ≤ collars.now.upper }
    ensures { IfOk result (λ prices. (p : ℕ) → list_any (nat_eq p) prices.items ≡ is_stop reference collars.now steps.now p) }
{
    let mut prices = Vec::with_capacity(alloc, 2 * steps.len() + 3)?;
    add_within(collars.lower.units(), collars, &mut prices);
    add_within(collars.upper.units(), collars, &mut prices);
    add_within(reference.units(), collars, &mut prices);
    // The lower collar is there, and the price before it lies outside.
    let mut last = collars.lower.units();
    for step in steps {
        add_next(step, last, collars, &mut prices);
        last = step.from;
    }
    Ok(prices)
}

/// Brings prices into rising order, each once.
fn sort(prices: &mut Vec<Price>)
    ensures rising { IsStrictlyIncreasing prices.new.items }
    ensures same { (p : ℕ) → list_any (nat_eq p) prices.new.items ≡ list_any (nat_eq p) prices.old.items }
{
    prices.sort_unstable();
    prices.dedup();
}

/// All candidates, in rising order, each once, of orders that have these steps.
pub(crate) fn candidates(
    alloc: Global,
    steps: &[Step],
    reference: Price,
    collars: &Collars,
) -> Result<Vec<Price>, NoMemory>
    requires few { length steps.now ≤ 1000000 }
    requires order { collars.now.lower ≤ collars.now.upper }
    ensures rising { IfOk result (λ prices. IsStrictlyIncreasing prices.items) }
    ensures stops { IfOk result (λ prices. (p : ℕ) → list_any (nat_eq p) prices.items ≡ is_stop reference collars.now steps.now p) }
{
    let mut prices = collect(alloc, steps, reference, collars)?;
    sort(&mut prices);
    Ok(prices)
}
