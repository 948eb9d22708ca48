//! The lines of a cross.

use cross_core::Row;
use price_core::{Price, Unmatched};
use session_core::Moment;

/// One line of what `cross` sends.
#[derive(Clone, Copy, Debug, PartialEq, Eq)]
pub enum CrossLine {
    /// The price, and the side on which market orders are left.
    Indication {
        moment: Moment,
        symbol: u16,
        price: Price,
        left: Unmatched,
    },
    /// How many shares change hands.
    Volume(u64),
    /// By how many shares the two sums differ.
    Imbalance(u64),
    /// A price that was compared.
    Compared(Row),
    /// How many shares an order gets.
    Fill(u64),
}
