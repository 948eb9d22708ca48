//! The picture of an auction.

ghost use Rattle.std.specs.Prelude.{◌≡◌, ◌≤◌, IfOk};
ghost use Rattle.std.specs.String.{string_bytes};
ghost use Rattle.cross_chart.specs.Axes.{IsFrame};
ghost use Rattle.cross_chart.specs.Pictures.{style, legend, words_at, upright, description, head, most_shares, collar_words, collar, collars, price_line, volume_label, point, drawing, outcome_of, picture_of};

use crate::axis::{Extent, Frame, extent_of, frame_of, x_of, y_of};
use crate::curve::{Curve, curve_text};
use crate::sketch::Sketch;
use crate::words::{dollars, outcome_text, title};
use cross_core::Crossed;
use price_core::NoMemory;
use std::alloc::Global;

/// How things are drawn, told apart by lines and not by colour.
const STYLE: &str =
    "<style>text{font:52px sans-serif}.title{font-size:84px;font-weight:bold}.strong{font-weight:bold;paint-order:stroke;stroke:#fff;stroke-width:16px}.middle{text-anchor:middle}.left{text-anchor:end}path{fill:none;stroke:#000}.grid{stroke:#bbb;stroke-width:3}.buys{stroke-width:11}.sells{stroke-width:11;stroke-dasharray:36 18}.price{stroke-width:7;stroke-dasharray:28 10 6 10}.collar{stroke-width:12;stroke-dasharray:10 12}circle{fill:#fff;stroke:#000;stroke-width:9}.page{fill:#fff}.frame{fill:none;stroke:#000;stroke-width:5}</style>\n";

/// The frame with the names of its axes and the legend.
const LEGEND: &str =
    "<rect class=\"frame\" x=\"800\" y=\"300\" width=\"5400\" height=\"2600\"/><text class=\"left\" x=\"770\" y=\"270\">shares</text><text class=\"left\" x=\"770\" y=\"2918\">0</text><text class=\"left\" x=\"770\" y=\"2985\">dollars</text>\n<g><path class=\"buys\" d=\"M800 3180H1000\"/><text x=\"1030\" y=\"3198\">shares that buy</text><path class=\"sells\" d=\"M1750 3180H1950\"/><text x=\"1980\" y=\"3198\">shares that sell</text><path class=\"price\" d=\"M2800 3130V3230\"/><text x=\"2840\" y=\"3198\">price</text><circle cx=\"3330\" cy=\"3180\" r=\"28\"/><text x=\"3390\" y=\"3198\">volume at the price</text><path class=\"collar\" d=\"M4300 3130V3230\"/><text x=\"4340\" y=\"3198\">collar</text></g>\n";

/// How things are drawn.
#[tactic(auto, unfolding(crate::specs::Pictures::style))]
fn style() -> &'static str
    ensures { result.now ≡ style }
{
    STYLE
}

/// The frame with the names of its axes and the legend.
#[tactic(auto, unfolding(crate::specs::Pictures::legend))]
fn legend() -> &'static str
    ensures { result.now ≡ legend }
{
    LEGEND
}

/// Words of a class at a point.
#[tactic(auto, unfolding(crate::specs::Pictures::words_at))]
fn words_at(alloc: Global, class: &str, x: u64, y: u64, words: &str) -> Result<String, NoMemory>
    ensures { IfOk result (λ text. string_bytes text ≡ words_at class.now x y words.now) }
{
    Ok(format!(in alloc; "<text class=\"{class}\" x=\"{x}\" y=\"{y}\">{words}</text>\n")?)
}

/// An upright line of a class.
#[tactic(auto, unfolding(crate::specs::Pictures::upright))]
fn upright(alloc: Global, class: &str, x: u64) -> Result<String, NoMemory>
    ensures { IfOk result (λ text. string_bytes text ≡ upright class.now x) }
{
    Ok(format!(in alloc; "<path class=\"{class}\" d=\"M{x} 300V2900\"/>\n")?)
}

/// What the picture tells in words.
#[tactic(auto, unfolding(crate::specs::Pictures::description))]
fn description(alloc: Global, extent: &Extent, outcome: &str) -> Result<String, NoMemory>
    ensures { IfOk result (λ text. string_bytes text ≡ description extent.now outcome.now) }
{
    let low = dollars(alloc, u128::from(extent.low))?;
    let high = dollars(alloc, u128::from(extent.high))?;
    Ok(format!(in alloc;
        "Shares that buy and shares that sell at each price from {low} to {high} dollars: {outcome}."
    )?)
}

/// The head of the picture, with its title and its description for whoever doesn't see it.
#[tactic(auto, unfolding(crate::specs::Pictures::head))]
fn head(alloc: Global, title: &str, description: &str, outcome: &str) -> Result<String, NoMemory>
    ensures { IfOk result (λ text. string_bytes text ≡ head title.now description.now outcome.now) }
{
    let (style, legend) = (style(), legend());
    Ok(format!(in alloc;
        "<svg xmlns=\"http://www.w3.org/2000/svg\" role=\"img\" aria-labelledby=\"title description\" width=\"1280\" height=\"660\" viewBox=\"0 0 6400 3300\">\n<title id=\"title\">{title}</title>\n<desc id=\"description\">{description}</desc>\n{style}<rect class=\"page\" width=\"6400\" height=\"3300\"/>\n<text class=\"title\" x=\"800\" y=\"130\">{title}</text><text x=\"800\" y=\"210\">{outcome}</text>\n{legend}"
    )?)
}

/// A line at the most shares, with their number on the left.
#[tactic(auto, unfolding(crate::specs::Pictures::most_shares))]
fn most_shares(alloc: Global, frame: &Frame, most: u64) -> Result<String, NoMemory>
    requires { IsFrame frame.now }
    ensures { IfOk result (λ text. string_bytes text ≡ most_shares frame.now most) }
{
    let y = y_of(frame, most);
    let words = format!(in alloc; "{most}")?;
    let label = words_at(alloc, "left", 770, y + 18, words.as_str())?;
    Ok(format!(in alloc; "<path class=\"grid\" d=\"M780 {y}H6200\"/>{label}")?)
}

/// A collar by its name and its price.
#[tactic(auto, unfolding(crate::specs::Pictures::collar_words))]
fn collar_words(alloc: Global, name: &str, price: u64) -> Result<String, NoMemory>
    ensures { IfOk result (λ text. string_bytes text ≡ collar_words name.now price) }
{
    let dollars = dollars(alloc, u128::from(price))?;
    Ok(format!(in alloc; "{name} collar {dollars}")?)
}

/// A collar's line, with its words on one side.
#[tactic(auto, unfolding(crate::specs::Pictures::collar))]
fn collar(
    alloc: Global,
    class: &str,
    name: &str,
    x: u64,
    beside: u64,
    price: u64,
) -> Result<String, NoMemory>
    ensures { IfOk result (λ text. string_bytes text ≡ collar class.now name.now x beside price) }
{
    let line = upright(alloc, "collar", x)?;
    let words = collar_words(alloc, name, price)?;
    let label = words_at(alloc, class, beside, 2985, words.as_str())?;
    Ok(format!(in alloc; "{line}{label}")?)
}

/// Both collars, with their words between them.
#[tactic(auto, unfolding(crate::specs::Pictures::collars))]
fn collars(alloc: Global, frame: &Frame, extent: &Extent) -> Result<String, NoMemory>
    requires { IsFrame frame.now }
    ensures { IfOk result (λ text. string_bytes text ≡ collars frame.now extent.now) }
{
    let (left, right) = (x_of(frame, extent.low), x_of(frame, extent.high));
    let lower = collar(alloc, "plain", "lower", left, left + 10, extent.low)?;
    let upper = collar(alloc, "left", "upper", right, right - 10, extent.high)?;
    Ok(format!(in alloc; "{lower}{upper}")?)
}

/// The price with its label.
#[tactic(auto, unfolding(crate::specs::Pictures::price_line))]
fn price_line(alloc: Global, frame: &Frame, price: u64) -> Result<String, NoMemory>
    requires { IsFrame frame.now }
    ensures { IfOk result (λ text. string_bytes text ≡ price_line frame.now price) }
{
    let x = x_of(frame, price);
    let line = upright(alloc, "price", x)?;
    let words = dollars(alloc, u128::from(price))?;
    let label = words_at(alloc, "middle", x, 285, words.as_str())?;
    Ok(format!(in alloc; "{line}{label}")?)
}

/// The number of the volume beside its point, on the side where there is more room.
#[tactic(auto, unfolding(crate::specs::Pictures::volume_label))]
fn volume_label(alloc: Global, x: u64, y: u64, volume: u64) -> Result<String, NoMemory>
    requires within { (800 ≤ x) × (x ≤ 6200) }
    requires below { 300 ≤ y }
    ensures { IfOk result (λ text. string_bytes text ≡ volume_label x y volume) }
{
    let words = format!(in alloc; "volume {volume}")?;
    if x <= 3500 {
        words_at(alloc, "strong", x + 60, y - 50, words.as_str())
    } else {
        words_at(alloc, "strong left", x - 60, y - 50, words.as_str())
    }
}

/// The point of the volume at the price, with a line to it from the left.
#[tactic(auto, unfolding(crate::specs::Pictures::point))]
fn point(alloc: Global, frame: &Frame, price: u64, volume: u64) -> Result<String, NoMemory>
    requires { IsFrame frame.now }
    ensures { IfOk result (λ text. string_bytes text ≡ point frame.now price volume) }
{
    let (x, y) = (x_of(frame, price), y_of(frame, volume));
    let label = volume_label(alloc, x, y, volume)?;
    Ok(format!(in alloc;
        "<path class=\"grid\" d=\"M780 {y}H{x}\"/><circle cx=\"{x}\" cy=\"{y}\" r=\"28\"/>{label}"
    )?)
}

/// What is drawn over the frame.
#[tactic(auto, unfolding(crate::specs::Pictures::drawing))]
fn drawing(
    alloc: Global,
    frame: &Frame,
    extent: &Extent,
    crossed: &Crossed,
) -> Result<String, NoMemory>
    requires { IsFrame frame.now }
    ensures { IfOk result (λ text. string_bytes text ≡ drawing frame.now extent.now crossed.now) }
{
    let rows = crossed.rows.list();
    let price = crossed.price.units();
    let most = most_shares(alloc, frame, extent.most)?;
    let collars = collars(alloc, frame, extent)?;
    let buys = curve_text(alloc, frame, Curve::Buys, rows)?;
    let sells = curve_text(alloc, frame, Curve::Sells, rows)?;
    let line = price_line(alloc, frame, price)?;
    let point = point(alloc, frame, price, crossed.volume)?;
    Ok(format!(in alloc; "{most}{collars}{buys}{sells}{line}{point}</svg>\n")?)
}

/// The picture of an auction as an SVG.
#[tactic(auto, unfolding(crate::specs::Pictures::picture_of))]
pub fn picture(alloc: Global, sketch: &Sketch) -> Result<String, NoMemory>
    ensures { IfOk result (λ text. string_bytes text ≡ picture_of sketch.now) }
{
    let crossed = &sketch.crossed;
    let extent = extent_of(crossed.rows.list());
    let frame = frame_of(&extent);
    let price = crossed.price.units();
    let title = title(alloc, sketch.symbol, sketch.moment)?;
    let outcome = outcome_text(
        alloc,
        price,
        crossed.volume,
        crossed.imbalance,
        crossed.left,
    )?;
    let description = description(alloc, &extent, outcome.as_str())?;
    let head = head(
        alloc,
        title.as_str(),
        description.as_str(),
        outcome.as_str(),
    )?;
    let drawing = drawing(alloc, &frame, &extent, crossed)?;
    Ok(format!(in alloc; "{head}{drawing}")?)
}
