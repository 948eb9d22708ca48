//! How the sums of an auction change on the way from lower prices to higher ones.
ghost use Rattle.std.specs.Prelude.{◌≡◌, ◌+◌, ◌*◌, ◌≤◌, ◌<◌, ◌^◌, true, false, IfOk, length, slice_index_or, sum_by, map};
ghost use Rattle.std.specs.List.Sorted.{IsNonDecreasingBy, IsPermutation, IsStrictlyIncreasing};
ghost use Rattle.cross_core.specs.declared.steps.Step.{Step};
ghost use Rattle.cross_core.specs.Steps.{IsUpTo, all_bought, step_of, steps_of, walked};
ghost use Rattle.cross_core.specs.Sums.{market_sold, row_at};

use crate::order::{Order, Row, Rows};
use price_core::{NoMemory, Price};
use std::alloc::Global;

/// From a price on the buy sum is less by a number of shares, or the sell sum is more by it.
#[derive(Clone, Copy, Debug)]
pub(crate) struct Step {
    pub(crate) from: u64,
    pub(crate) buy: bool,
    pub(crate) size: u32,
}

/// How many steps are taken, and the sums behind them.
#[derive(Clone, Copy, Debug)]
pub(crate) struct Walk {
    next: usize,
    buy: u64,
    sell: u64,
}

impl Walk {
    /// Behind one step more.
    fn with(self, step: Step) -> Walk
        requires buys { step.buy ≡ true → step.size ≤ self.buy }
        requires sells { step.buy ≡ false → self.sell + step.size < 2 ^ 64 }
        requires place { self.next + 1 < 2 ^ 64 }
        ensures { result ≡ walked step self }
    {
        let size = u64::from(step.size);
        let next = self.next + 1;
        if step.buy {
            Walk {
                next,
                buy: self.buy - size,
                sell: self.sell,
            }
        } else {
            Walk {
                next,
                buy: self.buy,
                sell: self.sell + size,
            }
        }
    }
}

/// The step of an order with a price.
fn step_of(order: &Order) -> Option<Step>
    ensures { result ≡ step_of order.now }
{
    let own = order.price?.units();
    Some(Step {
        from: if order.buy { own + 1 } else { own },
        buy: order.buy,
        size: order.size,
    })
}

/// The steps of the orders.
fn collect(alloc: Global, orders: &[Order]) -> Result<Vec<Step>, NoMemory>
    ensures items { IfOk result (λ steps. steps.items ≡ steps_of orders.now) }
    ensures few { IfOk result (λ steps. length steps.items ≤ length orders.now) }
{
    let mut steps = Vec::with_capacity(alloc, orders.len())?;
    for order in orders {
        if let Some(step) = step_of(order) {
            steps.push_reserved(step);
        }
    }
    Ok(steps)
}

/// Brings steps into rising order.
fn sort(steps: &mut Vec<Step>)
    ensures same { IsPermutation steps.old.items steps.new.items }
    ensures rising { IsNonDecreasingBy (λ s. s.from) steps.new.items }
{
    steps.sort_unstable_by_key(|step| step.from);
}

/// The steps of the orders, in rising order.
pub(crate) fn steps(alloc: Global, orders: &[Order]) -> Result<Vec<Step>, NoMemory>
    ensures same { IfOk result (λ steps. IsPermutation (steps_of orders.now) steps.items) }
    ensures rising { IfOk result (λ steps. IsNonDecreasingBy (λ s. s.from) steps.items) }
    ensures few { IfOk result (λ steps. length steps.items ≤ length orders.now) }
{
    let mut steps = collect(alloc, orders)?;
    sort(&mut steps);
    Ok(steps)
}

/// The sums before all steps: what all buys ask for, and what market orders sell.
fn opening(orders: &[Order]) -> Walk
    requires { length orders.now ≤ 1000000 }
    ensures next { result.next ≡ 0 }
    ensures buy { result.buy ≡ sum_by all_bought orders.now }
    ensures sell { result.sell ≡ sum_by market_sold orders.now }
    ensures most { sum_by (λ o. o.size) orders.now ≤ 4294967295 * length orders.now }
{
    let mut buy: u64 = 0;
    let mut sell: u64 = 0;
    for order in orders {
        let size = u64::from(order.size);
        if order.buy {
            buy += size;
        }
        sell += u64::from(order.market_sold());
    }
    Walk { next: 0, buy, sell }
}

/// Takes the steps up to a price.
fn advance(steps: &[Step], price: Price, from: Walk) -> Walk
    requires { IsUpTo price steps.now from from }
    ensures walk { IsUpTo price steps.now from result }
    ensures rest { (d : Step) → result.next < length steps.now → price < (slice_index_or steps.now result.next d).from }
{
    let units = price.units();
    let mut walk = from;
    while walk.next < steps.len() {
        let step = steps[walk.next];
        if units < step.from {
            break;
        }
        walk = walk.with(step);
    }
    walk
}

/// The rows of prices in rising order, by the steps of the orders.
pub(crate) fn rows(
    alloc: Global,
    orders: &[Order],
    steps: &[Step],
    prices: &[Price],
) -> Result<Rows, NoMemory>
    requires few { length orders.now ≤ 1000000 }
    requires same { IsPermutation (steps_of orders.now) steps.now }
    requires sorted { IsNonDecreasingBy (λ s. s.from) steps.now }
    requires rising { IsStrictlyIncreasing prices.now }
    ensures { IfOk result (λ rows. rows ≡ map (row_at orders.now) prices.now) }
{
    let mut walk = opening(orders);
    let mut rows = Rows::new(alloc);
    for price in prices {
        walk = advance(steps, *price, walk);
        rows.push(Row {
            price: *price,
            buy: walk.buy,
            sell: walk.sell,
        })?;
    }
    Ok(rows)
}
