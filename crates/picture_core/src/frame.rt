//! The frame of the picture: its axes, its lanes and its legend.

ghost use Rattle.std.specs.Prelude.{◌≡◌, ◌*◌, ◌<◌, ◌≤◌, ◌++◌, ◌^◌, IfSome, IfOk, OnOk};
ghost use Rattle.std.specs.List.{find};
ghost use Rattle.std.specs.String.{string_bytes};
ghost use Rattle.picture_core.specs.Scales.{x_of, IsAxis};
ghost use Rattle.picture_core.specs.Frames.{half_hour, half_hour_text, time_tick, time_ticks, steps, reaches, step_of, price_tick, tick_within, ticks_by, price_ticks};
ghost use Rattle.picture_core.specs.Heads.{style, hatchings, names};

use crate::axis::{Axis, y_of};
use crate::label::dollars;
use price_core::NoMemory;
use std::alloc::Global;

/// How things are drawn, told apart by lines and hatching and not by colour.
const STYLE: &str =
    "<style>text{font:52px sans-serif}.title{font-size:84px;font-weight:bold}.strong{font-weight:bold;paint-order:stroke;stroke:#fff;stroke-width:16px}.time{text-anchor:middle}.left{text-anchor:end}path{fill:none;stroke:#000}.grid{stroke:#bbb;stroke-width:3}.band{stroke-width:11}.reference{stroke-width:7;stroke-dasharray:36 18}.collar{stroke-width:12;stroke-dasharray:10 12}.release{fill:#fff;stroke:#000;stroke-width:9}.end{stroke-width:7;stroke-dasharray:28 10 6 10}rect{stroke:#000;stroke-width:4}.page,.untold{fill:#fff;stroke:none}.frame{fill:none;stroke-width:5}.limit{fill:#000}.straddle{fill:url(#dots)}.pause{fill:url(#slanted)}.halt{fill:url(#crossed)}.breaker{fill:url(#upright)}.short{fill:url(#level)}.behind{fill:#000;stroke:none;opacity:.13}</style>\n";

/// The hatchings.
const HATCHINGS: &str =
    "<defs><pattern id=\"slanted\" width=\"24\" height=\"24\" patternUnits=\"userSpaceOnUse\"><path d=\"M-6 6L6 -6M0 24L24 0M18 30L30 18\" stroke-width=\"5\"/></pattern><pattern id=\"crossed\" width=\"28\" height=\"28\" patternUnits=\"userSpaceOnUse\"><path d=\"M0 28L28 0M0 0L28 28\" stroke-width=\"4\"/></pattern><pattern id=\"upright\" width=\"22\" height=\"22\" patternUnits=\"userSpaceOnUse\"><path d=\"M11 0V22\" stroke-width=\"5\"/></pattern><pattern id=\"level\" width=\"22\" height=\"22\" patternUnits=\"userSpaceOnUse\"><path d=\"M0 11H22\" stroke-width=\"3\"/></pattern><pattern id=\"dots\" width=\"22\" height=\"22\" patternUnits=\"userSpaceOnUse\"><circle cx=\"11\" cy=\"11\" r=\"6\"/></pattern></defs>\n";

/// The frame with the names of its lanes and the legend.
const NAMES: &str =
    "<rect class=\"frame\" x=\"800\" y=\"300\" width=\"5400\" height=\"2600\"/><g class=\"left\"><text x=\"770\" y=\"250\">dollars</text><text x=\"770\" y=\"3108\">Limit state</text><text x=\"770\" y=\"3238\">Straddle state</text><text x=\"770\" y=\"3368\">Trading pause</text><text x=\"770\" y=\"3498\">Regulatory halt</text><text x=\"770\" y=\"3628\">Market-wide halt</text><text x=\"770\" y=\"3758\">Short sale restriction</text></g>\n<g><path class=\"band\" d=\"M800 3930H1000\"/><text x=\"1030\" y=\"3948\">price bands</text><path class=\"reference\" d=\"M1550 3930H1750\"/><text x=\"1780\" y=\"3948\">reference price</text><path class=\"collar\" d=\"M2400 3930H2600\"/><text x=\"2630\" y=\"3948\">auction collars of round r0, r1, ..</text><circle class=\"release\" cx=\"3760\" cy=\"3930\" r=\"28\"/><circle cx=\"3760\" cy=\"3930\" r=\"8\"/><text x=\"3820\" y=\"3948\">reopening price</text><rect class=\"behind\" x=\"4400\" y=\"3895\" width=\"200\" height=\"70\"/><text x=\"4630\" y=\"3948\">no trading</text><path class=\"end\" d=\"M5100 3880V3980\"/><text x=\"5130\" y=\"3948\">end of the data</text></g>\n";

/// How things are drawn.
#[tactic(auto, unfolding(crate::specs::Heads::style))]
pub fn style() -> &'static str
    ensures { result.now ≡ style }
{
    STYLE
}

/// The hatchings.
#[tactic(auto, unfolding(crate::specs::Heads::hatchings))]
pub fn hatchings() -> &'static str
    ensures { result.now ≡ hatchings }
{
    HATCHINGS
}

/// The frame with the names of its lanes and the legend.
#[tactic(auto, unfolding(crate::specs::Heads::names))]
pub fn names() -> &'static str
    ensures { result.now ≡ names }
{
    NAMES
}

/// The x of a half hour, counted from 09:00.
#[tactic(auto, unfolding(crate::specs::Scales::x_of))]
fn x_of_half_hour(count: u64) -> u64
    requires { count ≤ 15 }
    ensures { result ≡ x_of (half_hour count) }
{
    800 + 360 * count
}

/// The hour and the minute of a half hour.
#[tactic(auto, unfolding(crate::specs::Frames::half_hour_text))]
fn half_hour_text(alloc: Global, count: u64) -> Result<String, NoMemory>
    requires { count ≤ 15 }
    ensures { IfOk result (λ text. string_bytes text ≡ half_hour_text count) }
{
    let hour = 9 + count / 2;
    let minute = count % 2 * 30;
    Ok(format!(in alloc; "{hour:02}:{minute:02}")?)
}

/// A tick of the time axis, down to a frame's lower edge.
#[tactic(auto, unfolding(crate::specs::Frames::time_tick))]
fn time_tick(alloc: Global, bottom: u128, count: u64) -> Result<String, NoMemory>
    requires low { bottom < 2 ^ 80 }
    requires within { count ≤ 15 }
    ensures { IfOk result (λ text. string_bytes text ≡ time_tick bottom count) }
{
    let x = x_of_half_hour(count);
    let words = half_hour_text(alloc, count)?;
    let end = bottom + 20;
    let y = bottom + 85;
    Ok(format!(in alloc;
        "<path class=\"grid\" d=\"M{x} 300V{end}\"/><text class=\"time\" x=\"{x}\" y=\"{y}\">{words}</text>\n"
    )?)
}

/// Writes the ticks of all half hours, down to a frame's lower edge.
pub fn put_times(alloc: Global, text: &mut String, bottom: u128) -> Result<(), NoMemory>
    requires { bottom < 2 ^ 80 }
    ensures { OnOk result (string_bytes text.new ≡ string_bytes text.old ++ time_ticks bottom) }
{
    for count in 0..16 {
        text.push_str(time_tick(alloc, bottom, count)?.as_str())?;
    }
    Ok(())
}

/// Distances of ticks: 1, 2 and 5 times the powers of ten.
const STEPS: [u64; 36] = [
    1,
    2,
    5,
    10,
    20,
    50,
    100,
    200,
    500,
    1_000,
    2_000,
    5_000,
    10_000,
    20_000,
    50_000,
    100_000,
    200_000,
    500_000,
    1_000_000,
    2_000_000,
    5_000_000,
    10_000_000,
    20_000_000,
    50_000_000,
    100_000_000,
    200_000_000,
    500_000_000,
    1_000_000_000,
    2_000_000_000,
    5_000_000_000,
    10_000_000_000,
    20_000_000_000,
    50_000_000_000,
    100_000_000_000,
    200_000_000_000,
    500_000_000_000,
];

/// The distances of ticks, the shortest first.
#[tactic(auto, unfolding(crate::specs::Frames::steps))]
fn steps() -> &'static [u64]
    ensures { result.now ≡ steps }
{
    &STEPS
}

/// The first of these distances of which eight reach over a range of prices.
fn first_of(steps: &[u64], range: u128) -> Option<u64>
    ensures exact { result ≡ find (reaches range) steps.now }
    ensures reaches { IfSome result (λ step. range ≤ 8 * step) }
{
    steps
        .iter()
        .copied()
        .find(|step| range <= 8 * u128::from(*step))
}

/// The first distance of which eight reach over a range of prices, in ten-thousandths of a dollar.
#[tactic(auto, unfolding(crate::specs::Frames::step_of))]
fn step_of(range: u128) -> u64
    requires { 0 < range }
    ensures exact { result ≡ step_of range }
    ensures some { 0 < result }
{
    match first_of(steps(), range) {
        Some(step) => step,
        None => 1_000_000_000_000,
    }
}

/// A tick of the price axis.
#[tactic(auto, unfolding(crate::specs::Frames::price_tick))]
fn price_tick(alloc: Global, axis: &Axis, price: u128) -> Result<String, NoMemory>
    requires { IsAxis axis.now }
    ensures { IfOk result (λ text. string_bytes text ≡ price_tick axis.now price) }
{
    let y = y_of(axis, price);
    let beside = y + 18;
    let dollars = dollars(alloc, price)?;
    Ok(format!(in alloc;
        "<path class=\"grid\" d=\"M780 {y}H6200\"/><text class=\"left\" x=\"770\" y=\"{beside}\">{dollars}</text>\n"
    )?)
}

/// Writes the tick of a price, where it is within the axis.
#[tactic(auto, unfolding(crate::specs::Frames::tick_within))]
fn put_price(alloc: Global, text: &mut String, axis: &Axis, price: u128) -> Result<(), NoMemory>
    requires { IsAxis axis.now }
    ensures { OnOk result (string_bytes text.new ≡ string_bytes text.old ++ tick_within axis.now price) }
{
    if price < axis.high {
        text.push_str(price_tick(alloc, axis, price)?.as_str())?;
    }
    Ok(())
}

/// Writes the ticks of the multiples of a distance.
fn put_multiples(alloc: Global, text: &mut String, axis: &Axis, step: u64) -> Result<(), NoMemory>
    requires axis { IsAxis axis.now }
    requires some { 0 < step }
    ensures { OnOk result (string_bytes text.new ≡ string_bytes text.old ++ ticks_by axis.now step) }
{
    let step = u128::from(step);
    let above = axis.low / step + 1;
    for count in 0..9u64 {
        put_price(alloc, text, axis, (above + u128::from(count)) * step)?;
    }
    Ok(())
}

/// Writes the ticks of round prices within the axis.
#[tactic(auto, unfolding(crate::specs::Frames::price_ticks))]
pub fn put_prices(alloc: Global, text: &mut String, axis: &Axis) -> Result<(), NoMemory>
    requires { IsAxis axis.now }
    ensures { OnOk result (string_bytes text.new ≡ string_bytes text.old ++ price_ticks axis.now) }
{
    let step = step_of(axis.high - axis.low);
    put_multiples(alloc, text, axis, step)
}
