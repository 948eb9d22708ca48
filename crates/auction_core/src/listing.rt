//! The auction and the orders that are held.

ghost use Rattle.std.specs.Prelude.{◌≤◌, IfSome, vec_len};
ghost use Rattle.std.proofs.Props.{props};

use crate::auction::Auction;
use cross_core::Order;

/// The auction and the orders of the lines that were taken, and whether the line behind them is outside the grammar.
#[derive(Drop)]
pub struct Listing {
    pub auction: Option<Auction>,
    pub orders: Vec<Order>,
    pub bad: bool,
    ghost few: { vec_len orders ≤ 1000000 },
    ghost order: { IfSome auction (λ a. a.collars.lower ≤ a.collars.upper) } by { Prim.hlevel props },
}
