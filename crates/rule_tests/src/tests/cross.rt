//! Auctions worked by hand, which allocate what they need.
ghost use Rattle.std.specs.Prelude.{◌≤◌};

use super::values::price;
use cross_core::{Crossed, Order, Row, Rows, check, cross, fills};
use price_core::{Collars, Price, Unmatched};
use std::alloc::Global;

/// What an auction has to give: its price, the numbers of shares that change hands and that are left, the side whose market
/// orders are more than these, and how many shares of each order change hands.
#[derive(Clone, Copy)]
struct Wanted<'a> {
    price: u64,
    volume: u64,
    imbalance: u64,
    left: Unmatched,
    fills: &'a [u32],
}

fn collars() -> Collars
    ensures { result.lower ≤ result.upper }
{
    Collars {
        lower: Price::of(451_200),
        upper: Price::of(525_000),
    }
}

fn order(buy: bool, units: u64, size: u32) -> Order {
    Order {
        buy,
        price: Some(price(units)),
        size,
    }
}

/// Whether a cross is as wanted, of nine candidates: three prices of orders, the next one of each, the reference price and the
/// collars.
fn is_as_wanted(crossed: &Crossed, want: &Wanted) -> bool {
    crossed.price == price(want.price)
        && crossed.volume == want.volume
        && crossed.imbalance == want.imbalance
        && crossed.left == want.left
        && crossed.rows.list().len() == 9
}

/// Whether orders at a reference price of 47.5000 give what is wanted, which passes its check.
fn gives(alloc: Global, orders: &[Order], want: &Wanted) -> bool {
    if orders.len() > 4 {
        return false;
    }
    let (reference, collars) = (price(475_000), collars());
    let Ok(crossed) = cross(alloc, orders, reference, &collars) else {
        return false;
    };
    let is_right = is_as_wanted(&crossed, want) && check(orders, reference, &collars, &crossed);
    match fills(alloc, orders, &crossed) {
        Ok(fills) => is_right && fills.as_slice() == want.fills,
        Err(_) => false,
    }
}

#[test]
fn the_reference_is_the_nearest_of_the_best_prices(rt: HostRuntime) {
    let orders = [
        order(true, 480_000, 300),
        order(false, 460_000, 200),
        order(false, 470_000, 200),
    ];
    let want = Wanted {
        price: 475_000,
        volume: 300,
        imbalance: 100,
        left: Unmatched::Nothing,
        fills: &[300, 200, 100],
    };
    assert!(&rt; gives(rt.alloc(), &orders, &want));
}

#[test]
fn a_market_order_moves_the_price_beyond_a_buy(rt: HostRuntime) {
    let market = Order {
        buy: true,
        price: None,
        size: 500,
    };
    let orders = [
        order(true, 480_000, 300),
        order(false, 460_000, 200),
        order(false, 470_000, 200),
        market,
    ];
    let want = Wanted {
        price: 480_001,
        volume: 400,
        imbalance: 100,
        left: Unmatched::Buy,
        fills: &[0, 200, 200, 400],
    };
    assert!(&rt; gives(rt.alloc(), &orders, &want));
}

/// Adds a row at which nothing is bought or sold. Whether there is memory for it.
fn push_empty(rows: &mut Rows, price: Price) -> bool {
    rows.push(Row {
        price,
        buy: 0,
        sell: 0,
    })
    .is_ok()
}

/// Whether a cross of no orders passes its check at the reference price, and not at the upper collar.
fn is_nearest(crossed: &Crossed) -> bool {
    let collars = collars();
    check(&[], price(475_000), &collars, crossed) && !check(&[], collars.upper, &collars, crossed)
}

#[test]
fn a_cross_of_no_orders_is_made_by_hand(rt: HostRuntime) {
    let reference = price(475_000);
    let collars = collars();
    let mut rows = Rows::new(rt.alloc());
    let is_filled = push_empty(&mut rows, collars.lower)
        && push_empty(&mut rows, reference)
        && push_empty(&mut rows, collars.upper);
    let crossed = Crossed {
        price: reference,
        volume: 0,
        imbalance: 0,
        left: Unmatched::Nothing,
        rows,
    };
    assert!(&rt; is_filled && is_nearest(&crossed));
}
