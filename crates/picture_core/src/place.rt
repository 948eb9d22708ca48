//! Where each message of the picture stands.

ghost use Rattle.std.specs.Prelude.{◌≡◌, ◌≤◌};
ghost use Rattle.picture_core.specs.Scales.{IsAxis, y_of};
ghost use Rattle.picture_core.specs.Places.{right_of, lane_of_phase, lane_of, in_lane, heights_of, place_of, AreWithin, IsWithin};

use crate::axis::{Axis, x_of, y_of};
use crate::span::end_of;
use price_core::Price;
use session_core::{Moment, Phase};
use wire_out::{Message, Stamped};

/// The heights of the lines that a message draws: y grows downwards.
#[derive(Clone, Copy, PartialEq, Eq)]
pub struct Heights {
    pub top: u64,
    pub middle: u64,
    pub bottom: u64,
}

/// From where to where a message stands in the picture.
#[derive(Clone, Copy, PartialEq, Eq)]
pub struct Place {
    pub left: u64,
    pub right: u64,
    pub heights: Heights,
}

/// The x at which a span ends: where the data ends, where nothing ends it.
pub fn right_of(last: Moment, left: u64, end: Option<Moment>) -> u64
    requires { left ≤ 6200 }
    ensures exact { result ≡ right_of last left end }
    ensures forward { left ≤ result }
    ensures within { result ≤ 6200 }
{
    left.max(x_of(end.unwrap_or(last)))
}

fn lane_of_phase(phase: Phase) -> u64
    ensures exact { result ≡ lane_of_phase phase }
    ensures within { result ≤ 5 }
{
    match phase {
        Phase::Paused | Phase::Closing => 2,
        Phase::Halted => 3,
        _ => 0,
    }
}

/// The lane of a message, counted downwards.
fn lane_of(message: Message) -> u64
    ensures exact { result ≡ lane_of message }
    ensures within { result ≤ 5 }
{
    match message {
        Message::State { phase, .. } => lane_of_phase(phase),
        Message::Straddle { .. } => 1,
        Message::Breaker { .. } => 4,
        Message::Short { .. } => 5,
        _ => 0,
    }
}

fn in_lane(lane: u64) -> Heights
    requires { lane ≤ 5 }
    ensures exact { result ≡ in_lane lane }
    ensures within { AreWithin result }
{
    let top = 3060 + 130 * lane;
    Heights {
        top,
        middle: top,
        bottom: top + 60,
    }
}

fn between(axis: &Axis, upper: Price, middle: Price, lower: Price) -> Heights
    requires { IsAxis axis.now }
    ensures top { result.top ≡ y_of axis.now upper }
    ensures middle { result.middle ≡ y_of axis.now middle }
    ensures bottom { result.bottom ≡ y_of axis.now lower }
    ensures within { AreWithin result }
{
    Heights {
        top: y_of(axis, u128::from(upper.units())),
        middle: y_of(axis, u128::from(middle.units())),
        bottom: y_of(axis, u128::from(lower.units())),
    }
}

fn heights_of(axis: &Axis, message: Message) -> Heights
    requires { IsAxis axis.now }
    ensures exact { result ≡ heights_of axis.now message }
    ensures within { AreWithin result }
{
    match message {
        Message::Band {
            reference,
            lower,
            upper,
            ..
        } => between(axis, upper, reference, lower),
        Message::Collar { lower, upper, .. } => between(axis, upper, upper, lower),
        Message::Release { price, .. } => between(axis, price, price, price),
        _ => in_lane(lane_of(message)),
    }
}

/// Where a message stands, with those behind it as the later ones, where the data ends at that last moment.
pub fn place_of(axis: &Axis, last: Moment, x: &Stamped, later: &[Stamped]) -> Place
    requires { IsAxis axis.now }
    ensures exact { result ≡ place_of axis.now last x.now later.now }
    ensures within { IsWithin result }
{
    let left = x_of(x.moment);
    Place {
        left,
        right: right_of(last, left, end_of(x.message, later)),
        heights: heights_of(axis, x.message),
    }
}
