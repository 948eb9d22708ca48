//! The orders of an auction, the rows of its prices, and the cross.
ghost use Rattle.std.specs.Prelude.{◌≡◌, ◌≤◌, ◌++◌, ◌∷◌, [], OnOk, OnErr, length, sum_by};
ghost use Rattle.std.specs.Ordering.{is_lt};
ghost use Rattle.cross_core.specs.Best.{ranking};
ghost use Rattle.cross_core.specs.Sums.{bought, sold, row_volume, row_imbalance, left, market_bought, market_sold};

use price_core::{NoMemory, Price, Unmatched};
use std::alloc::Global;
use std::marker::Model;

/// An order of an auction: its side, its price, none for a market order, and its number of shares.
#[derive(Clone, Copy, Debug, PartialEq, Eq)]
pub struct Order {
    pub buy: bool,
    pub price: Option<Price>,
    pub size: u32,
}

impl Order {
    /// How many shares it buys at a price.
    pub(crate) fn bought_at(&self, price: Price) -> u32
        ensures { result ≡ bought price self.now }
    {
        match self.price {
            _ if !self.buy => 0,
            Some(own) if own < price => 0,
            _ => self.size,
        }
    }

    /// How many shares it sells at a price.
    pub(crate) fn sold_at(&self, price: Price) -> u32
        ensures { result ≡ sold price self.now }
    {
        match self.price {
            _ if self.buy => 0,
            Some(own) if price < own => 0,
            _ => self.size,
        }
    }

    fn market_bought(&self) -> u32
        ensures { result ≡ market_bought self.now }
    {
        if self.buy && self.price.is_none() {
            self.size
        } else {
            0
        }
    }

    pub(crate) fn market_sold(&self) -> u32
        ensures { result ≡ market_sold self.now }
    {
        if !self.buy && self.price.is_none() {
            self.size
        } else {
            0
        }
    }
}

/// How many shares market orders buy and sell.
#[derive(Clone, Copy, Debug)]
struct MarketOrders {
    buys: u64,
    sells: u64,
}

fn market_orders(orders: &[Order]) -> MarketOrders
    requires { length orders.now ≤ 1000000 }
    ensures buys { result.buys ≡ sum_by market_bought orders.now }
    ensures sells { result.sells ≡ sum_by market_sold orders.now }
{
    let mut buys: u64 = 0;
    let mut sells: u64 = 0;
    for order in orders {
        buys += u64::from(order.market_bought());
        sells += u64::from(order.market_sold());
    }
    MarketOrders { buys, sells }
}

/// The side of which the market orders alone are more than a volume.
pub(crate) fn left(orders: &[Order], volume: u64) -> Unmatched
    requires { length orders.now ≤ 1000000 }
    ensures { result ≡ left orders.now volume }
{
    let market = market_orders(orders);
    if volume < market.buys {
        Unmatched::Buy
    } else if volume < market.sells {
        Unmatched::Sell
    } else {
        Unmatched::Nothing
    }
}

/// A price, and how many shares orders buy and sell at it.
#[derive(Clone, Copy, Debug, PartialEq, Eq)]
pub struct Row {
    pub price: Price,
    pub buy: u64,
    pub sell: u64,
}

impl Row {
    /// How many shares change hands at the price.
    pub(crate) fn volume(&self) -> u64
        ensures { result ≡ row_volume self.now }
    {
        self.buy.min(self.sell)
    }

    /// How many shares of one side are left at the price.
    pub(crate) fn imbalance(&self) -> u64
        ensures { result ≡ row_imbalance self.now }
    {
        self.buy.abs_diff(self.sell)
    }
}

/// Whether a row beats another: by the greater volume, then by the lesser imbalance, the lesser distance from the auction
/// reference, and the lower price.
pub(crate) fn beats(reference: Price, a: &Row, b: &Row) -> bool
    ensures { result ≡ is_lt (ranking reference a.now b.now) }
{
    let reference = reference.units();
    let distance = |row: &Row| row.price.units().abs_diff(reference);
    b.volume()
        .cmp(&a.volume())
        .then(a.imbalance().cmp(&b.imbalance()))
        .then(distance(a).cmp(&distance(b)))
        .then(a.price.cmp(&b.price))
        .is_lt()
}

/// The rows of an auction, of which contracts see the list.
#[derive(Debug, Drop)]
pub struct Rows {
    rows: Vec<Row>,
}

impl Model for Rows {
    ghost use Rattle.std.specs.Prelude.{List};
    ghost use Rattle.cross_core.specs.declared.order.Row.{Row};

    ghost Value = { List Row };

    ghost view = { λ r. r.rows.items };
}

impl Rows {
    /// No rows, with no memory taken.
    pub fn new(alloc: Global) -> Rows
        ensures { result ≡ [] }
    {
        Rows {
            rows: Vec::new(alloc),
        }
    }

    /// Adds a row behind the others. Where memory is short, they stay as they were.
    pub fn push(&mut self, row: Row) -> Result<(), NoMemory>
        ensures ok { OnOk result (self.new ≡ self.old ++ row ∷ []) }
        ensures err { OnErr result (self.new ≡ self.old) }
    {
        self.rows.extend_from_slice(&[row])?;
        Ok(())
    }

    /// The rows, in the order in which they were added.
    pub fn list(&self) -> &[Row]
        ensures { result.now ≡ self.now }
    {
        self.rows.as_slice()
    }
}

/// The cross of an auction: its price, the numbers of shares that change hands at it and that are left of one side, the side
/// whose market orders are more than the volume, and the rows of all candidates.
#[derive(Debug, Drop)]
pub struct Crossed {
    pub price: Price,
    pub volume: u64,
    pub imbalance: u64,
    pub left: Unmatched,
    pub rows: Rows,
}
