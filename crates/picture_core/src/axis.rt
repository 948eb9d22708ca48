//! Where moments and prices stand in the picture.

ghost use Rattle.std.specs.Prelude.{◌≡◌, ◌≤◌, min, max, IfSome};
ghost use Rattle.picture_core.specs.Scales.{x_of, y_of, IsAxis, least, greatest, one_of, lowest, highest, axis_between, axis_of};

use session_core::Moment;
use wire_out::{Message, Stamped};

/// The lowest and the highest price of the picture's frame, in ten-thousandths of a dollar.
#[derive(Clone, Copy, PartialEq, Eq)]
pub struct Axis {
    pub low: u128,
    pub high: u128,
}

/// The x of a moment.
#[tactic(auto, unfolding(crate::specs::Scales::x_of))]
pub fn x_of(moment: Moment) -> u64
    ensures exact { result ≡ x_of moment }
    ensures frame { (800 ≤ result) × (result ≤ 6200) }
{
    800 + moment
        .nanos()
        .min(59_400_000_000_000)
        .saturating_sub(32_400_000_000_000)
        / 5_000_000_000
}

/// The y of a price.
#[tactic(auto, unfolding(crate::specs::Scales::y_of))]
pub fn y_of(axis: &Axis, price: u128) -> u64
    requires { IsAxis axis.now }
    ensures exact { result ≡ y_of axis.now price }
    ensures frame { (300 ≤ result) × (result ≤ 2900) }
{
    let above = price.min(axis.high).saturating_sub(axis.low);
    2900 - (above * 2600 / (axis.high - axis.low)) as u64
}

/// The least price that a message draws.
fn least(message: Message) -> Option<u64>
    ensures { result ≡ least message }
{
    match message {
        Message::Band {
            reference,
            lower,
            upper,
            ..
        } => Some(reference.units().min(lower.units().min(upper.units()))),
        Message::Collar { lower, upper, .. } => Some(lower.units().min(upper.units())),
        Message::Release { price, .. } => Some(price.units()),
        _ => None,
    }
}

/// The greatest price that a message draws.
fn greatest(message: Message) -> Option<u64>
    ensures { result ≡ greatest message }
{
    match message {
        Message::Band {
            reference,
            lower,
            upper,
            ..
        } => Some(reference.units().max(lower.units().max(upper.units()))),
        Message::Collar { lower, upper, .. } => Some(lower.units().max(upper.units())),
        Message::Release { price, .. } => Some(price.units()),
        _ => None,
    }
}

fn lower_of(one: Option<u64>, other: Option<u64>) -> Option<u64>
    ensures { result ≡ one_of min one other }
{
    match (one, other) {
        (None, _) => other,
        (Some(_), None) => one,
        (Some(x), Some(y)) => Some(x.min(y)),
    }
}

fn higher_of(one: Option<u64>, other: Option<u64>) -> Option<u64>
    ensures { result ≡ one_of max one other }
{
    match (one, other) {
        (None, _) => other,
        (Some(_), None) => one,
        (Some(x), Some(y)) => Some(x.max(y)),
    }
}

fn lowest(messages: &[Stamped]) -> Option<u64>
    ensures { result ≡ lowest messages.now }
{
    let mut lowest = None;
    for x in messages {
        lowest = lower_of(lowest, least(x.message));
    }
    lowest
}

fn highest(messages: &[Stamped]) -> Option<u64>
    ensures { result ≡ highest messages.now }
{
    let mut highest = None;
    for x in messages {
        highest = higher_of(highest, greatest(x.message));
    }
    highest
}

fn axis_between(low: u64, high: u64) -> Axis
    ensures exact { result ≡ axis_between low high }
    ensures axis { IsAxis result }
{
    let margin = u128::from(high.saturating_sub(low) / 20 + 1);
    Axis {
        low: u128::from(low).saturating_sub(margin),
        high: u128::from(low.max(high)) + margin,
    }
}

/// The axis of the prices that are drawn; none where none is.
pub fn axis_of(messages: &[Stamped]) -> Option<Axis>
    ensures exact { result ≡ axis_of (lowest messages.now) (highest messages.now) }
    ensures axis { IfSome result IsAxis }
{
    match (lowest(messages), highest(messages)) {
        (Some(low), Some(high)) => Some(axis_between(low, high)),
        _ => None,
    }
}
