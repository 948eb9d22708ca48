//! Where prices and shares stand in the picture.

ghost use Rattle.std.specs.Prelude.{◌≡◌, ◌≤◌, ◌-◌};
ghost use Rattle.cross_chart.specs.Axes.{IsAxis, IsFrame, above, x_of, y_of, with_row, extent_of, frame_of, margin};

use cross_core::Row;

/// The least and the greatest value of an axis.
#[derive(Clone, Copy, PartialEq, Eq)]
pub struct Axis {
    pub low: u128,
    pub high: u128,
}

/// The axis of the prices, in ten-thousandths of a dollar, and that of the shares.
#[derive(Clone, Copy, PartialEq, Eq)]
pub struct Frame {
    pub prices: Axis,
    pub shares: Axis,
}

/// The lowest and the highest price of rows, in ten-thousandths of a dollar, and the most shares of a side.
#[derive(Clone, Copy, PartialEq, Eq)]
pub struct Extent {
    pub low: u64,
    pub high: u64,
    pub most: u64,
}

/// How far above the low end of an axis a value stands.
fn above(axis: &Axis, value: u128) -> u128
    requires { IsAxis axis.now }
    ensures exact { result ≡ above axis.now value }
    ensures within { result ≤ axis.now.high - axis.now.low }
{
    value.min(axis.high).saturating_sub(axis.low)
}

/// The x of a price in ten-thousandths of a dollar.
#[tactic(auto, unfolding(crate::specs::Axes::x_of))]
pub fn x_of(frame: &Frame, price: u64) -> u64
    requires { IsFrame frame.now }
    ensures exact { result ≡ x_of frame.now price }
    ensures within { (800 ≤ result) × (result ≤ 6200) }
{
    let Axis { low, high } = frame.prices;
    let above = above(&frame.prices, u128::from(price));
    800 + (above * 5400 / (high - low)) as u64
}

/// The y of a number of shares.
#[tactic(auto, unfolding(crate::specs::Axes::y_of))]
pub fn y_of(frame: &Frame, shares: u64) -> u64
    requires { IsFrame frame.now }
    ensures exact { result ≡ y_of frame.now shares }
    ensures within { (300 ≤ result) × (result ≤ 2900) }
{
    let Axis { low, high } = frame.shares;
    let above = above(&frame.shares, u128::from(shares));
    2900 - (above * 2600 / (high - low)) as u64
}

/// The extent with a row more.
fn with_row(extent: &Extent, row: &Row) -> Extent
    ensures { result ≡ with_row extent.now row.now }
{
    let price = row.price.units();
    Extent {
        low: extent.low.min(price),
        high: extent.high.max(price),
        most: extent.most.max(row.buy.max(row.sell)),
    }
}

/// The extent of all rows.
pub fn extent_of(rows: &[Row]) -> Extent
    ensures { result ≡ extent_of rows.now }
{
    let mut extent = Extent {
        low: 99_999_999_999,
        high: 1,
        most: 0,
    };
    for row in rows {
        extent = with_row(&extent, row);
    }
    extent
}

/// A twentieth of a range.
fn margin(range: u64) -> u128
    ensures { result ≡ margin range }
{
    u128::from(range / 20 + 1)
}

/// The axes of the picture: with a margin on both sides of the prices, and above the shares.
pub fn frame_of(extent: &Extent) -> Frame
    ensures exact { result ≡ frame_of extent.now }
    ensures frame { IsFrame result }
{
    let Extent { low, high, most } = *extent;
    let aside = margin(high.saturating_sub(low));
    Frame {
        prices: Axis {
            low: u128::from(low).saturating_sub(aside),
            high: u128::from(low.max(high)) + aside,
        },
        shares: Axis {
            low: 0,
            high: u128::from(most) + margin(most),
        },
    }
}
