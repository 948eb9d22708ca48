//! How the volume of a cross is shared out among its orders.
ghost use Rattle.std.specs.Prelude.{◌≡◌, ◌+◌, ◌≤◌, true, false, IfOk, length, sum_by};
ghost use Rattle.std.specs.List.Sorted.{IsNonDecreasingBy, IsPermutation};
ghost use Rattle.cross_core.specs.Fills.{AreFills, before, counts, rank, side_sum};
ghost use Rattle.cross_core.specs.Margins.{IsMargin, at_rank, below_rank, filled, filled_all, less, ranked_of};
ghost use Rattle.cross_core.specs.Sums.{row_at, row_volume};

use crate::order::{Crossed, Order};
use price_core::{NoMemory, Price};
use std::alloc::Global;

/// The rank of a side at which its volume is used up, and how many shares are left for it.
#[derive(Clone, Copy, Debug)]
pub(crate) struct Margin {
    buy: bool,
    price: Price,
    rank: u64,
    rest: u64,
}

/// Market orders rank first, then buys from the highest price on and sells from the lowest.
fn rank(order: &Order) -> u64
    ensures { result ≡ rank order.now }
{
    match order.price {
        None => 0,
        Some(own) if order.buy => 100_000_000_000 - own.units(),
        Some(own) => own.units(),
    }
}

/// Whether an order of a side trades at a price.
fn counts(buy: bool, price: Price, order: &Order) -> bool
    ensures { result ≡ counts price buy order.now }
{
    match order.price {
        _ if order.buy != buy => false,
        None => true,
        Some(own) if buy => price <= own,
        Some(own) => own <= price,
    }
}

/// An order of a side that trades at the price.
#[derive(Clone, Copy, Debug)]
pub(crate) struct Ranked {
    rank: u64,
    size: u32,
}

/// The orders of a side that trade at a price.
fn collect(
    alloc: Global,
    orders: &[Order],
    price: Price,
    buy: bool,
) -> Result<Vec<Ranked>, NoMemory>
    ensures { IfOk result (λ ranked. ranked.items ≡ ranked_of price buy orders.now) }
{
    let mut ranked = Vec::with_capacity(alloc, orders.len())?;
    for order in orders {
        if counts(buy, price, order) {
            ranked.push_reserved(Ranked {
                rank: rank(order),
                size: order.size,
            });
        }
    }
    Ok(ranked)
}

/// Brings orders into the order of their ranks.
fn sort(ranked: &mut Vec<Ranked>)
    ensures same { IsPermutation ranked.old.items ranked.new.items }
    ensures rising { IsNonDecreasingBy (λ e. e.rank) ranked.new.items }
{
    ranked.sort_unstable_by_key(|entry| entry.rank);
}

/// The rank at which a volume is used up.
fn last_rank(ranked: &[Ranked], volume: u64) -> u64
    requires rising { IsNonDecreasingBy (λ e. e.rank) ranked.now }
    requires enough { volume ≤ sum_by (λ e. e.size) ranked.now }
    ensures low { sum_by (below_rank result) ranked.now ≤ volume }
    ensures high { volume ≤ sum_by (below_rank result) ranked.now + sum_by (at_rank result) ranked.now }
{
    let mut left = volume;
    for entry in ranked {
        let size = u64::from(entry.size);
        if left <= size {
            return entry.rank;
        }
        left -= size;
    }
    0
}

/// How many shares of a side rank before a rank.
fn before(orders: &[Order], price: Price, buy: bool, rank_before: u64) -> u64
    requires { length orders.now ≤ 1000000 }
    ensures { result ≡ before price buy rank_before orders.now }
{
    let mut sum: u64 = 0;
    for order in orders {
        if counts(buy, price, order) && rank(order) < rank_before {
            sum += u64::from(order.size);
        }
    }
    sum
}

/// The margin of a side.
fn margin_of(
    alloc: Global,
    orders: &[Order],
    price: Price,
    buy: bool,
    volume: u64,
) -> Result<Margin, NoMemory>
    requires few { length orders.now ≤ 1000000 }
    requires enough { volume ≤ sum_by (λ e. e.size) (ranked_of price buy orders.now) }
    ensures margin { IfOk result (λ margin. IsMargin volume orders.now margin) }
    ensures side { IfOk result (λ margin. margin.buy ≡ buy) }
    ensures price { IfOk result (λ margin. margin.price ≡ price) }
{
    let mut ranked = collect(alloc, orders, price, buy)?;
    sort(&mut ranked);
    let rank = last_rank(&ranked, volume);
    Ok(Margin {
        buy,
        price,
        rank,
        rest: volume - before(orders, price, buy, rank),
    })
}

impl Margin {
    /// What an order gets.
    fn fill(&self, order: &Order) -> u32
        ensures { result ≡ filled self.now order.now }
    {
        let own = rank(order);
        if !counts(self.buy, self.price, order) || self.rank < own {
            0
        } else if own < self.rank || u64::from(order.size) <= self.rest {
            order.size
        } else {
            self.rest as u32
        }
    }

    /// What is left after an order.
    fn less(&self, order: &Order) -> Margin
        ensures { result ≡ less self.now order.now }
    {
        if counts(self.buy, self.price, order) && rank(order) == self.rank {
            Margin {
                rest: self.rest.saturating_sub(u64::from(order.size)),
                ..*self
            }
        } else {
            *self
        }
    }
}

/// What each order gets, by the margins of both sides.
fn share(alloc: Global, orders: &[Order], buys: Margin, sells: Margin) -> Result<Vec<u32>, NoMemory>
    ensures { IfOk result (λ fills. fills.items ≡ filled_all buys sells orders.now) }
{
    let mut buys = buys;
    let mut sells = sells;
    let mut fills = Vec::with_capacity(alloc, orders.len())?;
    for order in orders {
        let fill = if order.buy {
            buys.fill(order)
        } else {
            sells.fill(order)
        };
        fills.push_reserved(fill);
        buys = buys.less(order);
        sells = sells.less(order);
    }
    Ok(fills)
}

/// How many shares each order of a cross gets, in the order of the list. Of the orders of a side that trade at the price,
/// market orders come first, then better prices, then earlier places; each gets the lesser of its size and what those before
/// it leave of the volume. An error means that memory is short.
pub fn fills(alloc: Global, orders: &[Order], crossed: &Crossed) -> Result<Vec<u32>, NoMemory>
    requires few { length orders.now ≤ 1000000 }
    requires volume { crossed.now.volume ≡ row_volume (row_at orders.now crossed.now.price) }
    ensures fills { IfOk result (λ fills. AreFills crossed.now.price crossed.now.volume orders.now fills.items) }
    ensures buys { IfOk result (λ fills. side_sum true orders.now fills.items ≡ crossed.now.volume) }
    ensures sells { IfOk result (λ fills. side_sum false orders.now fills.items ≡ crossed.now.volume) }
{
    let buys = margin_of(alloc, orders, crossed.price, true, crossed.volume)?;
    let sells = margin_of(alloc, orders, crossed.price, false, crossed.volume)?;
    share(alloc, orders, buys, sells)
}
