//! Whether a cross is the one of its orders, by a walk over the orders for each row.
ghost use Rattle.std.specs.Prelude.{◌≡◌, ◌↔◌, ◌≤◌, ◌&&◌, IsTrue, length, map};
ghost use Rattle.std.specs.List.{list_all, list_any};
ghost use Rattle.std.specs.List.Sorted.{IsStrictlyIncreasing};
ghost use Rattle.cross_core.specs.Best.{AreCandidates, IsCross, is_candidate, is_edge, is_within};
ghost use Rattle.cross_core.specs.Checks.{Agrees, covers, covers_all, covers_edges, has_sums, is_listed, yields_to};
ghost use Rattle.cross_core.specs.Sums.{row_at};

use crate::order::{Crossed, Order, Row, beats, left};
use price_core::{Collars, Price};

/// A price with what all orders buy and sell at it.
fn row_at(orders: &[Order], price: Price) -> Row
    requires { length orders.now ≤ 1000000 }
    ensures { result ≡ row_at orders.now price }
{
    Row {
        price,
        buy: orders
            .iter()
            .map(|order| u64::from(order.bought_at(price)))
            .sum(),
        sell: orders
            .iter()
            .map(|order| u64::from(order.sold_at(price)))
            .sum(),
    }
}

fn is_within(units: u64, collars: &Collars) -> bool
    ensures { result ≡ is_within collars.now units }
{
    collars.lower.units() <= units && units <= collars.upper.units()
}

/// Whether it is the price of an order or the next one beyond it.
fn is_edge(units: u64, order: &Order) -> bool
    ensures { result ≡ is_edge units order.now }
{
    match order.price {
        Some(own) => {
            let own = own.units();
            own == units
                || (if order.buy {
                    own + 1 == units
                } else {
                    own - 1 == units
                })
        }
        None => false,
    }
}

fn has_edge(orders: &[Order], units: u64) -> bool
    ensures { result ≡ list_any (is_edge units) orders.now }
{
    orders.iter().any(|order| is_edge(units, order))
}

fn is_candidate(orders: &[Order], reference: Price, collars: &Collars, price: Price) -> bool
    ensures { result ≡ is_candidate reference collars.now orders.now price }
{
    let units = price.units();
    is_within(units, collars)
        && (units == collars.lower.units()
            || units == collars.upper.units()
            || units == reference.units()
            || has_edge(orders, units))
}

fn is_listed(rows: &[Row], units: u64) -> bool
    ensures { result ≡ is_listed rows.now units }
{
    rows.iter().any(|row| units == row.price.units())
}

fn covers(collars: &Collars, rows: &[Row], units: u64) -> bool
    ensures { result ≡ covers collars.now rows.now units }
{
    !is_within(units, collars) || is_listed(rows, units)
}

fn covers_edges(collars: &Collars, rows: &[Row], order: &Order) -> bool
    ensures { result ≡ covers_edges collars.now rows.now order.now }
{
    match order.price {
        Some(own) => {
            let own = own.units();
            let beyond = if order.buy { own + 1 } else { own - 1 };
            covers(collars, rows, own) && covers(collars, rows, beyond)
        }
        None => true,
    }
}

fn cover_edges(collars: &Collars, rows: &[Row], orders: &[Order]) -> bool
    ensures { result ≡ list_all (covers_edges collars.now rows.now) orders.now }
{
    orders
        .iter()
        .all(|order| covers_edges(collars, rows, order))
}

/// Whether all candidates stand among the rows.
fn covers_all(orders: &[Order], reference: Price, collars: &Collars, rows: &[Row]) -> bool
    ensures { result ≡ covers_all reference collars.now orders.now rows.now }
{
    covers(collars, rows, collars.lower.units())
        && covers(collars, rows, collars.upper.units())
        && covers(collars, rows, reference.units())
        && cover_edges(collars, rows, orders)
}

/// Whether the prices of rows rise.
fn rise(rows: &[Row]) -> bool
    ensures { IsTrue result ↔ IsStrictlyIncreasing (map (λ row. row.price) rows.now) }
{
    for (i, row) in rows.iter().enumerate() {
        if i > 0 && row.price <= rows[i - 1].price {
            return false;
        }
    }
    true
}

/// Whether each row has the price of a candidate.
fn list_candidates(orders: &[Order], reference: Price, collars: &Collars, rows: &[Row]) -> bool
    ensures { result ≡ list_all (λ row. is_candidate reference collars.now orders.now row.price) rows.now }
{
    rows.iter()
        .all(|row| is_candidate(orders, reference, collars, row.price))
}

/// Whether the rows are those of all candidates, in rising order.
fn are_candidates(orders: &[Order], reference: Price, collars: &Collars, rows: &[Row]) -> bool
    ensures { IsTrue result ↔ AreCandidates reference collars.now orders.now (map (λ row. row.price) rows.now) }
{
    if !rise(rows) {
        return false;
    }
    list_candidates(orders, reference, collars, rows)
        && covers_all(orders, reference, collars, rows)
}

fn has_sums(orders: &[Order], row: &Row) -> bool
    requires { length orders.now ≤ 1000000 }
    ensures { result ≡ has_sums orders.now row.now }
{
    let at = row_at(orders, row.price);
    row.buy == at.buy && row.sell == at.sell
}

/// Whether each row has the sums at its price.
fn have_sums(orders: &[Order], rows: &[Row]) -> bool
    requires { length orders.now ≤ 1000000 }
    ensures { result ≡ list_all (has_sums orders.now) rows.now }
{
    rows.iter().all(|row| has_sums(orders, row))
}

/// Whether each row is one row or loses against it.
fn yield_to(reference: Price, own: &Row, rows: &[Row]) -> bool
    ensures { result ≡ list_all (yields_to reference own.now) rows.now }
{
    rows.iter()
        .all(|row| row.price == own.price || beats(reference, own, row))
}

/// Whether a row lies within the collars, and each of some rows is that one or loses against it.
fn is_first(reference: Price, collars: &Collars, own: &Row, rows: &[Row]) -> bool
    ensures { result ≡ (is_within collars.now own.now.price && list_all (yields_to reference own.now) rows.now) }
{
    is_within(own.price.units(), collars) && yield_to(reference, own, rows)
}

/// Whether the volume, the imbalance and the side that is left are those of a row.
fn agrees(orders: &[Order], own: &Row, crossed: &Crossed) -> bool
    requires { length orders.now ≤ 1000000 }
    ensures { IsTrue result ↔ Agrees orders.now own.now crossed.now }
{
    crossed.volume == own.volume()
        && crossed.imbalance == own.imbalance()
        && crossed.left == left(orders, crossed.volume)
}

/// Whether a cross is exactly the one of these orders, with this reference and these collars. It takes time for each row and
/// order, and memory for none.
pub fn check(orders: &[Order], reference: Price, collars: &Collars, crossed: &Crossed) -> bool
    requires few { length orders.now ≤ 1000000 }
    requires order { collars.now.lower ≤ collars.now.upper }
    ensures { IsTrue result ↔ IsCross reference collars.now orders.now crossed.now }
{
    let rows = crossed.rows.list();
    let own = row_at(orders, crossed.price);
    if !are_candidates(orders, reference, collars, rows) {
        return false;
    }
    if !have_sums(orders, rows) {
        return false;
    }
    is_first(reference, collars, &own, rows) && agrees(orders, &own, crossed)
}
