//! The curves of the shares that buy and those that sell, over the prices.

ghost use Rattle.std.specs.Prelude.{◌≡◌, ◌++◌, IfOk, OnOk};
ghost use Rattle.std.specs.String.{string_bytes};
ghost use Rattle.cross_chart.specs.Axes.{IsFrame};
ghost use Rattle.cross_chart.specs.Curves.{class_of, shares_of, corner, corners, curve_text};

use crate::axis::{Frame, x_of, y_of};
use cross_core::Row;
use price_core::NoMemory;
use std::alloc::Global;

/// A curve of the picture.
#[derive(Clone, Copy, PartialEq, Eq)]
pub enum Curve {
    Buys,
    Sells,
}

impl Curve {
    /// Its class in the picture's style.
    fn class(self) -> &'static str
        ensures { result.now ≡ class_of self }
    {
        match self {
            Curve::Buys => "buys",
            Curve::Sells => "sells",
        }
    }

    /// The shares that it shows of a row.
    fn shares(self, row: &Row) -> u64
        ensures { result ≡ shares_of self row.now }
    {
        match self {
            Curve::Buys => row.buy,
            Curve::Sells => row.sell,
        }
    }
}

/// Where the curve begins, at the first row, or its step at another one.
#[tactic(auto, unfolding(crate::specs::Curves::corner))]
fn corner(
    alloc: Global,
    frame: &Frame,
    curve: Curve,
    at: usize,
    row: &Row,
) -> Result<String, NoMemory>
    requires { IsFrame frame.now }
    ensures { IfOk result (λ text. string_bytes text ≡ corner frame.now curve at row.now) }
{
    let x = x_of(frame, row.price.units());
    let y = y_of(frame, curve.shares(row));
    if at == 0 {
        Ok(format!(in alloc; "M{x} {y}")?)
    } else {
        Ok(format!(in alloc; "H{x}V{y}")?)
    }
}

/// The course of a curve over all rows.
fn corners(alloc: Global, frame: &Frame, curve: Curve, rows: &[Row]) -> Result<String, NoMemory>
    requires { IsFrame frame.now }
    ensures { IfOk result (λ text. string_bytes text ≡ corners frame.now curve 0 rows.now) }
{
    let mut text = String::new(alloc);
    for at in 0..rows.len() {
        text.push_str(corner(alloc, frame, curve, at, &rows[at])?.as_str())?;
    }
    Ok(text)
}

/// A curve of all rows.
#[tactic(auto, unfolding(crate::specs::Curves::curve_text))]
pub fn curve_text(
    alloc: Global,
    frame: &Frame,
    curve: Curve,
    rows: &[Row],
) -> Result<String, NoMemory>
    requires { IsFrame frame.now }
    ensures { IfOk result (λ text. string_bytes text ≡ curve_text frame.now curve rows.now) }
{
    let class = curve.class();
    let course = corners(alloc, frame, curve, rows)?;
    Ok(format!(in alloc; "<path class=\"{class}\" d=\"{course}\"/>\n")?)
}
