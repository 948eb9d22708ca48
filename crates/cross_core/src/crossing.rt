//! The cross of an auction: the best of all candidates.
ghost use Rattle.std.specs.Prelude.{◌≡◌, ◌≤◌, ◌<◌, false, All, Contains, IfOk, length};
ghost use Rattle.std.specs.Ordering.{is_lt};
ghost use Rattle.cross_core.specs.Best.{IsCross, ranking};

use crate::candidates::candidates;
use crate::order::{Crossed, Order, Row, beats, left};
use crate::steps::{rows, steps};
use price_core::{Collars, NoMemory, Price};
use std::alloc::Global;

/// A row that no other one beats.
fn first(reference: Price, rows: &[Row]) -> Row
    requires { 0 < length rows.now }
    ensures among { Contains rows.now result }
    ensures first { All (λ row. is_lt (ranking reference row result) ≡ false) rows.now }
{
    let mut first = rows[0];
    for row in rows {
        if beats(reference, row, &first) {
            first = *row;
        }
    }
    first
}

/// The cross of orders: the price within the collars at which most shares change hands, then with the least imbalance, then
/// nearest to the auction reference, and then the lowest. An error means that memory is short.
pub fn cross(
    alloc: Global,
    orders: &[Order],
    reference: Price,
    collars: &Collars,
) -> Result<Crossed, NoMemory>
    requires few { length orders.now ≤ 1000000 }
    requires order { collars.now.lower ≤ collars.now.upper }
    ensures { IfOk result (λ crossed. IsCross reference collars.now orders.now crossed) }
{
    let steps = steps(alloc, orders)?;
    let prices = candidates(alloc, &steps, reference, collars)?;
    let rows = rows(alloc, orders, &steps, &prices)?;
    let first = first(reference, rows.list());
    let volume = first.volume();
    Ok(Crossed {
        price: first.price,
        volume,
        imbalance: first.imbalance(),
        left: left(orders, volume),
        rows,
    })
}
