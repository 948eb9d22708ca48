//! The elements of the picture, one function for each kind of message.

ghost use Rattle.std.specs.Prelude.{◌≡◌, [], IfOk, OnOk, codes};
ghost use Rattle.std.specs.String.{string_bytes};
ghost use Rattle.picture_core.specs.Places.{IsWithin};
ghost use Rattle.picture_core.specs.Labels.{◌⊕◌};
ghost use Rattle.picture_core.specs.Elements.{label, class_of, ends_there, label_text, drawn_label, with_label, drawn_labels, with_labels, line, band_lines, price_label, band_labels, collar_lines, collar_labels, release_mark, release_labels, bar, stretch, lane_label, bar_label, bar_labels, phase_begin, phase_labels, level_text, short_text, drawn, element_text, rooms_after};

use crate::label::{price, time};
use crate::place::Place;
use crate::room::{Room, Rooms};
use price_core::{NoMemory, Price};
use session_core::{Level, Moment, Phase};
use std::alloc::Global;
use wire_out::{Message, ShortKind, Stamped};

/// How words stand in the picture.
#[derive(Clone, Copy, PartialEq, Eq)]
pub enum Style {
    /// From a point on.
    Plain,
    /// Up to a point.
    Before,
    /// From a point on, in bold letters with a white edge.
    Strong,
}

impl Style {
    /// The class of such words in the picture's style.
    fn class(self) -> &'static str
        ensures { result.now ≡ class_of self }
    {
        match self {
            Style::Plain => "",
            Style::Before => " class=\"left\"",
            Style::Strong => " class=\"strong\"",
        }
    }

    /// Whether such words end at their point.
    fn ends_there(self) -> bool
        ensures { result ≡ ends_there self }
    {
        matches!(self, Style::Before)
    }
}

/// Words at a point, and what ends them.
#[tactic(auto, unfolding(crate::specs::Elements::label_text))]
pub fn label_text(
    alloc: Global,
    style: Style,
    x: u64,
    y: u64,
    words: &str,
    end: &str,
) -> Result<String, NoMemory>
    ensures { IfOk result (λ text. string_bytes text ≡ label_text (label style x y words.now end.now)) }
{
    let class = style.class();
    Ok(format!(in alloc; "<text{class} x=\"{x}\" y=\"{y}\">{words}</text>{end}")?)
}

/// Words at a point, where they stand over none that are drawn; else no text.
#[tactic(auto, unfolding(crate::specs::Elements::drawn_label, crate::specs::Elements::with_label))]
fn label(
    alloc: Global,
    rooms: &mut Rooms,
    style: Style,
    x: u64,
    y: u64,
    words: &str,
    end: &str,
) -> Result<String, NoMemory>
    ensures text { IfOk result (λ text. string_bytes text ≡ drawn_label rooms.old (label style x y words.now end.now)) }
    ensures taken { OnOk result (rooms.new ≡ with_label rooms.old (label style x y words.now end.now)) }
{
    if !rooms.take(Room::of_words(x, y, style.ends_there(), words))? {
        return Ok(String::new(alloc));
    }
    label_text(alloc, style, x, y, words, end)
}

/// A price at a point.
fn price_label(
    alloc: Global,
    rooms: &mut Rooms,
    x: u64,
    y: u64,
    value: Price,
) -> Result<String, NoMemory>
    ensures text { IfOk result (λ text. string_bytes text ≡ drawn_label rooms.old (price_label x y value)) }
    ensures taken { OnOk result (rooms.new ≡ with_label rooms.old (price_label x y value)) }
{
    let words = price(alloc, value)?;
    label(alloc, rooms, Style::Plain, x, y, words.as_str(), "")
}

/// A line at a height.
#[tactic(auto, unfolding(crate::specs::Elements::line))]
fn line(alloc: Global, place: &Place, y: u64) -> Result<String, NoMemory>
    ensures { IfOk result (λ text. string_bytes text ≡ line place.now y) }
{
    let left = place.left;
    let right = place.right;
    Ok(format!(in alloc; "M{left} {y}H{right}")?)
}

/// The reference price and the bands as three lines.
#[tactic(auto, unfolding(crate::specs::Elements::band_lines))]
fn band_lines(alloc: Global, place: &Place) -> Result<String, NoMemory>
    ensures { IfOk result (λ text. string_bytes text ≡ band_lines place.now) }
{
    let upper = line(alloc, place, place.heights.top)?;
    let lower = line(alloc, place, place.heights.bottom)?;
    let middle = line(alloc, place, place.heights.middle)?;
    Ok(format!(in alloc;
        "<path class=\"band\" d=\"{upper}{lower}\"/><path class=\"reference\" d=\"{middle}\"/>"
    )?)
}

/// A price at each of the three lines, where they are wide enough for it.
#[tactic(auto, unfolding(crate::specs::Elements::band_labels))]
fn band_labels(
    alloc: Global,
    rooms: &mut Rooms,
    place: &Place,
    reference: Price,
    lower: Price,
    upper: Price,
) -> Result<String, NoMemory>
    requires { IsWithin place.now }
    ensures text { IfOk result (λ text. string_bytes text ≡ drawn_labels rooms.old (band_labels place.now reference lower upper)) }
    ensures taken { OnOk result (rooms.new ≡ with_labels rooms.old (band_labels place.now reference lower upper)) }
{
    if place.right.saturating_sub(place.left) < 300 {
        return Ok(String::new(alloc));
    }
    let x = place.left + 10;
    let above = place.heights.top.saturating_sub(20);
    let over = place.heights.middle.saturating_sub(20);
    let below = place.heights.bottom + 70;
    let highest = price_label(alloc, rooms, x, above, upper)?;
    let between = price_label(alloc, rooms, x, over, reference)?;
    let lowest = price_label(alloc, rooms, x, below, lower)?;
    Ok(format!(in alloc; "{highest}{between}{lowest}")?)
}

/// The reference price and the bands, with their prices.
#[tactic(auto, unfolding(crate::specs::Elements::drawn))]
fn band(
    alloc: Global,
    rooms: &mut Rooms,
    place: &Place,
    reference: Price,
    lower: Price,
    upper: Price,
) -> Result<String, NoMemory>
    requires { IsWithin place.now }
    ensures text { IfOk result (λ text. string_bytes text ≡ drawn rooms.old (codes "<g>" ⊕ band_lines place.now) (band_labels place.now reference lower upper) (codes "</g>\n")) }
    ensures taken { OnOk result (rooms.new ≡ with_labels rooms.old (band_labels place.now reference lower upper)) }
{
    let lines = band_lines(alloc, place)?;
    let labels = band_labels(alloc, rooms, place, reference, lower, upper)?;
    Ok(format!(in alloc; "<g>{lines}{labels}</g>\n")?)
}

/// A round's collars as two lines, with an upright one at their begin.
#[tactic(auto, unfolding(crate::specs::Elements::collar_lines))]
fn collar_lines(alloc: Global, place: &Place) -> Result<String, NoMemory>
    ensures { IfOk result (λ text. string_bytes text ≡ collar_lines place.now) }
{
    let left = place.left;
    let top = place.heights.top;
    let bottom = place.heights.bottom;
    let upper = line(alloc, place, top)?;
    let lower = line(alloc, place, bottom)?;
    Ok(format!(in alloc; "<path class=\"collar\" d=\"{upper}{lower}M{left} {top}V{bottom}\"/>")?)
}

/// A round's number at each of its collars.
#[tactic(auto, unfolding(crate::specs::Elements::collar_labels))]
fn collar_labels(
    alloc: Global,
    rooms: &mut Rooms,
    place: &Place,
    round: u16,
) -> Result<String, NoMemory>
    requires { IsWithin place.now }
    ensures text { IfOk result (λ text. string_bytes text ≡ drawn_labels rooms.old (collar_labels place.now round)) }
    ensures taken { OnOk result (rooms.new ≡ with_labels rooms.old (collar_labels place.now round)) }
{
    let x = place.left + 10;
    let above = place.heights.top.saturating_sub(20);
    let below = place.heights.bottom + 70;
    let words = format!(in alloc; "r{round}")?;
    let upper = label(alloc, rooms, Style::Plain, x, above, words.as_str(), "")?;
    let lower = label(alloc, rooms, Style::Plain, x, below, words.as_str(), "")?;
    Ok(format!(in alloc; "{upper}{lower}")?)
}

/// A round's collars, with the round's number.
#[tactic(auto, unfolding(crate::specs::Elements::drawn))]
fn collar(alloc: Global, rooms: &mut Rooms, place: &Place, round: u16) -> Result<String, NoMemory>
    requires { IsWithin place.now }
    ensures text { IfOk result (λ text. string_bytes text ≡ drawn rooms.old (codes "<g>" ⊕ collar_lines place.now) (collar_labels place.now round) (codes "</g>\n")) }
    ensures taken { OnOk result (rooms.new ≡ with_labels rooms.old (collar_labels place.now round)) }
{
    let lines = collar_lines(alloc, place)?;
    let labels = collar_labels(alloc, rooms, place, round)?;
    Ok(format!(in alloc; "<g>{lines}{labels}</g>\n")?)
}

/// A reopening price as a point in a circle.
#[tactic(auto, unfolding(crate::specs::Elements::release_mark))]
fn release_mark(alloc: Global, place: &Place) -> Result<String, NoMemory>
    ensures { IfOk result (λ text. string_bytes text ≡ release_mark place.now) }
{
    let x = place.left;
    let y = place.heights.middle;
    Ok(format!(in alloc;
        "<circle class=\"release\" cx=\"{x}\" cy=\"{y}\" r=\"28\"/><circle cx=\"{x}\" cy=\"{y}\" r=\"8\"/>"
    )?)
}

/// A reopening price as a point in a circle, with the price.
#[tactic(auto, unfolding(crate::specs::Elements::drawn, crate::specs::Elements::release_labels))]
fn release(
    alloc: Global,
    rooms: &mut Rooms,
    place: &Place,
    units: Price,
) -> Result<String, NoMemory>
    requires { IsWithin place.now }
    ensures text { IfOk result (λ text. string_bytes text ≡ drawn rooms.old (codes "<g>" ⊕ release_mark place.now) (release_labels place.now units) (codes "</g>\n")) }
    ensures taken { OnOk result (rooms.new ≡ with_labels rooms.old (release_labels place.now units)) }
{
    let mark = release_mark(alloc, place)?;
    let beside = place.left + 50;
    let under = place.heights.middle + 80;
    let words = price(alloc, units)?;
    let words = label(
        alloc,
        rooms,
        Style::Strong,
        beside,
        under,
        words.as_str(),
        "",
    )?;
    Ok(format!(in alloc; "<g>{mark}{words}</g>\n")?)
}

/// A bar in a lane.
#[tactic(auto, unfolding(crate::specs::Elements::bar))]
fn bar(alloc: Global, style: &str, place: &Place) -> Result<String, NoMemory>
    ensures { IfOk result (λ text. string_bytes text ≡ bar style.now place.now) }
{
    let Place {
        left,
        right,
        heights,
    } = *place;
    let top = heights.top;
    let width = right.saturating_sub(left);
    let height = heights.bottom.saturating_sub(top);
    Ok(format!(in alloc;
        "<rect class=\"{style}\" x=\"{left}\" y=\"{top}\" width=\"{width}\" height=\"{height}\"/>\n"
    )?)
}

/// A stretch of the prices, grey behind them.
#[tactic(auto, unfolding(crate::specs::Elements::stretch))]
fn stretch(alloc: Global, place: &Place) -> Result<String, NoMemory>
    ensures { IfOk result (λ text. string_bytes text ≡ stretch place.now) }
{
    let left = place.left;
    let width = place.right.saturating_sub(left);
    Ok(format!(in alloc;
        "<rect class=\"behind\" x=\"{left}\" y=\"300\" width=\"{width}\" height=\"2600\"/>\n"
    )?)
}

/// Words below a bar.
fn lane_label(
    alloc: Global,
    rooms: &mut Rooms,
    style: Style,
    x: u64,
    place: &Place,
    words: &str,
) -> Result<String, NoMemory>
    requires { IsWithin place.now }
    ensures text { IfOk result (λ text. string_bytes text ≡ drawn_label rooms.old (lane_label style x place.now words.now)) }
    ensures taken { OnOk result (rooms.new ≡ with_label rooms.old (lane_label style x place.now words.now)) }
{
    let y = place.heights.bottom + 44;
    label(alloc, rooms, style, x, y, words, "\n")
}

/// The words of a bar: from its begin on, and on the right of the picture up to its end.
#[tactic(auto, unfolding(crate::specs::Elements::bar_label))]
fn bar_label(
    alloc: Global,
    rooms: &mut Rooms,
    place: &Place,
    words: &str,
) -> Result<String, NoMemory>
    requires { IsWithin place.now }
    ensures text { IfOk result (λ text. string_bytes text ≡ drawn_label rooms.old (bar_label place.now words.now)) }
    ensures taken { OnOk result (rooms.new ≡ with_label rooms.old (bar_label place.now words.now)) }
{
    if place.left <= 5000 {
        lane_label(alloc, rooms, Style::Plain, place.left + 10, place, words)
    } else {
        lane_label(alloc, rooms, Style::Before, place.right, place, words)
    }
}

/// A bar in a lane, and its words, which begin with a moment.
#[tactic(auto, unfolding(crate::specs::Elements::drawn))]
fn named(
    alloc: Global,
    rooms: &mut Rooms,
    style: &str,
    place: &Place,
    moment: Moment,
    words: &str,
) -> Result<String, NoMemory>
    requires { IsWithin place.now }
    ensures text { IfOk result (λ text. string_bytes text ≡ drawn rooms.old (bar style.now place.now) (bar_labels place.now moment words.now) []) }
    ensures taken { OnOk result (rooms.new ≡ with_labels rooms.old (bar_labels place.now moment words.now)) }
{
    let bar = bar(alloc, style, place)?;
    let begin = time(alloc, moment)?;
    let words = format!(in alloc; "{begin}{words} ")?;
    let words = bar_label(alloc, rooms, place, words.as_str())?;
    Ok(format!(in alloc; "{bar}{words}")?)
}

/// A bar in a lane, and its stretch of the prices behind it.
#[tactic(auto, unfolding(crate::specs::Elements::drawn))]
fn shaded(
    alloc: Global,
    rooms: &mut Rooms,
    style: &str,
    place: &Place,
    moment: Moment,
    words: &str,
) -> Result<String, NoMemory>
    requires { IsWithin place.now }
    ensures text { IfOk result (λ text. string_bytes text ≡ drawn rooms.old (stretch place.now ⊕ bar style.now place.now) (bar_labels place.now moment words.now) []) }
    ensures taken { OnOk result (rooms.new ≡ with_labels rooms.old (bar_labels place.now moment words.now)) }
{
    let behind = stretch(alloc, place)?;
    let bar = named(alloc, rooms, style, place, moment, words)?;
    Ok(format!(in alloc; "{behind}{bar}")?)
}

#[tactic(auto, unfolding(crate::specs::Elements::drawn))]
fn phase(
    alloc: Global,
    rooms: &mut Rooms,
    place: &Place,
    moment: Moment,
    phase: Phase,
) -> Result<String, NoMemory>
    requires { IsWithin place.now }
    ensures text { IfOk result (λ text. string_bytes text ≡ drawn rooms.old (phase_begin phase place.now) (phase_labels phase place.now moment) []) }
    ensures taken { OnOk result (rooms.new ≡ with_labels rooms.old (phase_labels phase place.now moment)) }
{
    match phase {
        Phase::LimitLow => named(alloc, rooms, "limit", place, moment, " lower band"),
        Phase::LimitHigh => named(alloc, rooms, "limit", place, moment, " upper band"),
        Phase::Paused => shaded(alloc, rooms, "pause", place, moment, ""),
        Phase::Closing => shaded(alloc, rooms, "pause", place, moment, " to the close"),
        Phase::Halted => shaded(alloc, rooms, "halt", place, moment, ""),
        Phase::Shut | Phase::Trading | Phase::Stopped | Phase::Closed => nothing(alloc),
    }
}

/// No text.
fn nothing(alloc: Global) -> Result<String, NoMemory>
    ensures { IfOk result (λ text. string_bytes text ≡ []) }
{
    Ok(String::new(alloc))
}

/// The words of a market-wide halt.
pub fn level_text(level: Level) -> &'static str
    ensures { result.now ≡ level_text level }
{
    match level {
        Level::One => " Level 1",
        Level::Two => " Level 2",
        Level::Three => " Level 3",
    }
}

/// The words of a restriction.
fn short_text(kind: ShortKind) -> &'static str
    ensures { result.now ≡ short_text kind }
{
    match kind {
        ShortKind::Triggered => " triggered",
        ShortKind::Carried => " carried from the day before",
    }
}

/// What a message draws at its place, with its words where they stand over none that are drawn.
#[tactic(auto, unfolding(crate::specs::Elements::drawn, crate::specs::Elements::element_text, crate::specs::Elements::rooms_after))]
pub fn element(
    alloc: Global,
    rooms: &mut Rooms,
    x: &Stamped,
    place: &Place,
) -> Result<String, NoMemory>
    requires { IsWithin place.now }
    ensures text { IfOk result (λ text. string_bytes text ≡ element_text rooms.old x.now place.now) }
    ensures taken { OnOk result (rooms.new ≡ rooms_after rooms.old x.now place.now) }
{
    match x.message {
        Message::Band {
            reference,
            lower,
            upper,
            ..
        } => band(alloc, rooms, place, reference, lower, upper),
        Message::Collar { round, .. } => collar(alloc, rooms, place, round),
        Message::Release { price, .. } => release(alloc, rooms, place, price),
        Message::State { phase: of, .. } => phase(alloc, rooms, place, x.moment, of),
        Message::Straddle { on: true, .. } => named(alloc, rooms, "straddle", place, x.moment, ""),
        Message::Breaker { level, .. } => {
            shaded(alloc, rooms, "breaker", place, x.moment, level_text(level))
        }
        Message::Short { kind, .. } => {
            named(alloc, rooms, "short", place, x.moment, short_text(kind))
        }
        Message::Straddle { on: false, .. } | Message::Listed { .. } | Message::MarketResume => {
            nothing(alloc)
        }
    }
}
