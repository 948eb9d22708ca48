//! The picture of the market's day: its market-wide halts, and a row for each stock that was paused or halted.

ghost use Rattle.std.specs.Prelude.{◌≡◌, ◌<◌, ◌≤◌, ◌++◌, ◌^◌, ◌==◌, Some, length, IfOk, OnOk, option_map, is_some};
ghost use Rattle.std.specs.List.{filter, list_any, position};
ghost use Rattle.std.specs.String.{string_bytes};
ghost use Rattle.picture_core.specs.Shown.{is_market};
ghost use Rattle.picture_core.specs.Scales.{x_of};
ghost use Rattle.picture_core.specs.Places.{right_of};
ghost use Rattle.picture_core.specs.Market.{class_of_phase, with_row, rows_of, row_of_level, top_of, bottom_of, ends_own, own_end, row_bar, level_stretch, level_words, level_mark, time_words, phase_mark, mark, marks, row_name, row_names, no_rows, levels_text, legend, market_frame, market_description, market_head, market_drawing, market_picture};

use crate::axis::x_of;
use crate::data_end::data_end;
use crate::day::DayKeeper;
use crate::element::{Style, label_text};
use crate::frame::put_times;
use crate::head::{opening, page};
use crate::label::{name, time};
use crate::place::right_of;
use crate::shown::{is_of, last_moment, market_messages};
use crate::span::ends;
use crate::stop::{end_text, sentences, stops_of};
use price_core::NoMemory;
use session_core::{Level, Moment, Phase};
use std::alloc::Global;
use wire_out::{Message, Stamped};

/// The names of the levels' rows.
const LEVELS: &str =
    "<g class=\"left\"><text x=\"770\" y=\"373\">Market-wide halt, Level 1</text><text x=\"770\" y=\"443\">Level 2</text><text x=\"770\" y=\"513\">Level 3</text></g>\n";

/// The legend, from the frame's lower edge on.
const LEGEND: &str =
    "<rect class=\"pause\" x=\"800\" y=\"175\" width=\"200\" height=\"50\"/><text x=\"1030\" y=\"218\">trading pause</text><rect class=\"halt\" x=\"1600\" y=\"175\" width=\"200\" height=\"50\"/><text x=\"1830\" y=\"218\">regulatory halt</text><rect class=\"breaker\" x=\"2400\" y=\"175\" width=\"200\" height=\"50\"/><text x=\"2630\" y=\"218\">market-wide halt</text><path class=\"end\" d=\"M3250 150V250\"/><text x=\"3280\" y=\"218\">end of the data</text>";

/// The names of the levels' rows.
#[tactic(auto, unfolding(crate::specs::Market::levels_text))]
fn levels_text() -> &'static str
    ensures { result.now ≡ levels_text }
{
    LEVELS
}

/// The legend, from the frame's lower edge on.
#[tactic(auto, unfolding(crate::specs::Market::legend))]
fn legend() -> &'static str
    ensures { result.now ≡ legend }
{
    LEGEND
}

/// How a phase without trading is hatched.
fn class_of_phase(phase: Phase) -> Option<&'static str>
    ensures { option_map (λ c. c.now) result ≡ class_of_phase phase }
{
    match phase {
        Phase::Paused | Phase::Closing => Some("pause"),
        Phase::Halted => Some("halt"),
        _ => None,
    }
}

/// Whether a stock isn't traded in this phase.
fn is_stopped(phase: Phase) -> bool
    ensures { result ≡ is_some (class_of_phase phase) }
{
    matches!(phase, Phase::Paused | Phase::Closing | Phase::Halted)
}

/// Whether a stock has a row.
fn has_row(rows: &[u16], symbol: u16) -> bool
    ensures { result ≡ list_any (λ row. row == symbol) rows.now }
{
    rows.iter().any(|row| *row == symbol)
}

/// Gives a row to a stock that a message pauses or halts, where it has none.
fn add_row(rows: &mut Vec<u16>, message: Message) -> Result<(), NoMemory>
    ensures { OnOk result (rows.new.items ≡ with_row rows.old.items message) }
{
    if let Message::State { symbol, phase } = message {
        if is_stopped(phase) && !has_row(rows, symbol) {
            rows.push(symbol)?;
        }
    }
    Ok(())
}

/// The ids of the rows, in the order in which the stocks were paused or halted first.
fn rows_of(alloc: Global, day: &[Stamped]) -> Result<Vec<u16>, NoMemory>
    ensures { IfOk result (λ rows. rows.items ≡ rows_of day.now) }
{
    let mut rows = Vec::new(alloc);
    for x in day {
        add_row(&mut rows, x.message)?;
    }
    Ok(rows)
}

/// The row of a stock.
fn row_of(rows: &[u16], symbol: u16) -> Option<usize>
    ensures { result ≡ position (λ row. row == symbol) rows.now }
{
    rows.iter().position(|row| *row == symbol)
}

/// The row of a level.
fn row_of_level(level: Level) -> u64
    ensures { result ≡ row_of_level level }
{
    match level {
        Level::One => 0,
        Level::Two => 1,
        Level::Three => 2,
    }
}

/// The upper edge of a row.
fn top_of(row: u128) -> u128
    requires { row < 2 ^ 65 }
    ensures exact { result ≡ top_of row }
    ensures bound { result < 2 ^ 80 }
{
    330 + 70 * row
}

/// The lower edge of the frame around so many rows.
fn bottom_of(count: u64) -> u128
    ensures exact { result ≡ bottom_of count }
    ensures low { result < 2 ^ 79 }
    ensures high { 300 ≤ result }
{
    350 + 70 * (3 + u128::from(count.max(1)))
}

/// Whether a later message ends a pause or a halt of that stock, or a market-wide one.
fn ends_own(message: &Message, later: &Message) -> bool
    ensures { result ≡ ends_own message.now later.now }
{
    match *message {
        Message::State { symbol, .. } => is_of(symbol, *later) && ends(*message, *later),
        _ => ends(*message, *later),
    }
}

/// The moment of the first later message that does; none where none does.
fn own_end(message: &Message, later: &[Stamped]) -> Option<Moment>
    ensures { result ≡ own_end message.now later.now }
{
    later
        .iter()
        .find(|x| ends_own(message, &x.message))
        .map(|x| x.moment)
}

/// A bar in a row.
#[tactic(auto, unfolding(crate::specs::Market::row_bar))]
fn row_bar(alloc: Global, class: &str, row: u128, left: u64, right: u64) -> Result<String, NoMemory>
    requires { row < 2 ^ 65 }
    ensures { IfOk result (λ text. string_bytes text ≡ row_bar class.now row left right) }
{
    let top = top_of(row);
    let width = right.saturating_sub(left);
    Ok(format!(in alloc;
        "<rect class=\"{class}\" x=\"{left}\" y=\"{top}\" width=\"{width}\" height=\"50\"/>\n"
    )?)
}

/// A market-wide halt is grey over all rows.
#[tactic(auto, unfolding(crate::specs::Market::level_stretch))]
fn level_stretch(alloc: Global, bottom: u128, left: u64, right: u64) -> Result<String, NoMemory>
    ensures { IfOk result (λ text. string_bytes text ≡ level_stretch bottom left right) }
{
    let width = right.saturating_sub(left);
    let height = bottom.saturating_sub(300);
    Ok(format!(in alloc;
        "<rect class=\"behind\" x=\"{left}\" y=\"300\" width=\"{width}\" height=\"{height}\"/>\n"
    )?)
}

/// Words of a market-wide halt: behind its bar, and on the right of the picture before it.
#[tactic(auto, unfolding(crate::specs::Market::level_words))]
fn level_words(
    alloc: Global,
    row: u64,
    left: u64,
    right: u64,
    words: &str,
) -> Result<String, NoMemory>
    requires { row ≤ 2 }
    ensures { IfOk result (λ text. string_bytes text ≡ level_words row left right words.now) }
{
    let y = 330 + 70 * row + 43;
    if right <= 5600 {
        label_text(alloc, Style::Plain, right + 15, y, words, "\n")
    } else {
        let x = left.saturating_sub(15);
        label_text(alloc, Style::Before, x, y, words, "\n")
    }
}

/// From when to when.
#[tactic(auto, unfolding(crate::specs::Market::time_words))]
fn time_words(alloc: Global, begin: Moment, end: Option<Moment>) -> Result<String, NoMemory>
    ensures { IfOk result (λ text. string_bytes text ≡ time_words begin end) }
{
    let begin = time(alloc, begin)?;
    let end = end_text(alloc, end)?;
    Ok(format!(in alloc; "{begin}{end}")?)
}

/// All that a market-wide halt draws, with words for its time.
#[tactic(auto, unfolding(crate::specs::Market::level_mark))]
fn level_mark(
    alloc: Global,
    bottom: u128,
    row: u64,
    left: u64,
    right: u64,
    words: &str,
) -> Result<String, NoMemory>
    requires { row ≤ 2 }
    ensures { IfOk result (λ text. string_bytes text ≡ level_mark bottom row left right words.now) }
{
    let behind = level_stretch(alloc, bottom, left, right)?;
    let bar = row_bar(alloc, "breaker", u128::from(row), left, right)?;
    let words = level_words(alloc, row, left, right, words)?;
    Ok(format!(in alloc; "{behind}{bar}{words}")?)
}

/// What a phase draws in its stock's row.
fn phase_mark(
    alloc: Global,
    class: &str,
    row: Option<usize>,
    left: u64,
    right: u64,
) -> Result<String, NoMemory>
    ensures { IfOk result (λ text. string_bytes text ≡ phase_mark (Some class.now) row left right) }
{
    match row {
        Some(row) => row_bar(alloc, class, 3 + row as u128, left, right),
        None => Ok(String::new(alloc)),
    }
}

/// What a market-wide halt draws from its moment to its end.
fn mark_of_level(
    alloc: Global,
    rows: &[u16],
    last: Moment,
    level: Level,
    moment: Moment,
    end: &Option<Moment>,
) -> Result<String, NoMemory>
    ensures { IfOk result (λ text. string_bytes text ≡ level_mark (bottom_of (length rows.now)) (row_of_level level) (x_of moment) (right_of last (x_of moment) end.now) (time_words moment end.now)) }
{
    let left = x_of(moment);
    let right = right_of(last, left, *end);
    let words = time_words(alloc, moment, *end)?;
    level_mark(
        alloc,
        bottom_of(rows.len() as u64),
        row_of_level(level),
        left,
        right,
        words.as_str(),
    )
}

/// What a message draws, with those behind it as the later ones.
fn mark(
    alloc: Global,
    rows: &[u16],
    last: Moment,
    x: &Stamped,
    later: &[Stamped],
) -> Result<String, NoMemory>
    ensures { IfOk result (λ text. string_bytes text ≡ mark rows.now last x.now.message x.now.moment (own_end x.now.message later.now)) }
{
    match x.message {
        Message::State { symbol, phase } => {
            let Some(class) = class_of_phase(phase) else {
                return Ok(String::new(alloc));
            };
            let left = x_of(x.moment);
            let right = right_of(last, left, own_end(&x.message, later));
            phase_mark(alloc, class, row_of(rows, symbol), left, right)
        }
        Message::Breaker { level, .. } => {
            let end = own_end(&x.message, later);
            mark_of_level(alloc, rows, last, level, x.moment, &end)
        }
        _ => Ok(String::new(alloc)),
    }
}

/// Writes what all messages draw.
fn put_marks(
    alloc: Global,
    text: &mut String,
    rows: &[u16],
    last: Moment,
    day: &[Stamped],
) -> Result<(), NoMemory>
    ensures { OnOk result (string_bytes text.new ≡ string_bytes text.old ++ marks rows.now last day.now) }
{
    for at in 0..day.len() {
        let mark = mark(alloc, rows, last, &day[at], &day[at + 1..])?;
        text.push_str(mark.as_str())?;
    }
    Ok(())
}

/// The name of a row: the stock by its id and its name.
#[tactic(auto, unfolding(crate::specs::Market::row_name))]
fn row_name(alloc: Global, day: &[Stamped], at: u64, symbol: u16) -> Result<String, NoMemory>
    ensures { IfOk result (λ text. string_bytes text ≡ row_name day.now at symbol) }
{
    let y = top_of(3 + u128::from(at)) + 43;
    let name = name(alloc, symbol, day)?;
    Ok(format!(in alloc; "<text class=\"left\" x=\"770\" y=\"{y}\">{symbol}{name}</text>\n")?)
}

/// Writes the names of all rows.
fn put_row_names(
    alloc: Global,
    text: &mut String,
    day: &[Stamped],
    rows: &[u16],
) -> Result<(), NoMemory>
    ensures { OnOk result (string_bytes text.new ≡ string_bytes text.old ++ row_names day.now 0 rows.now) }
{
    for at in 0..rows.len() {
        text.push_str(row_name(alloc, day, at as u64, rows[at])?.as_str())?;
    }
    Ok(())
}

/// Words, where there are no rows.
#[tactic(auto, unfolding(crate::specs::Market::no_rows))]
fn no_rows(count: u64) -> &'static str
    ensures { result.now ≡ no_rows count }
{
    if count == 0 {
        "<text class=\"time\" x=\"3500\" y=\"583\">no stock was paused or halted</text>\n"
    } else {
        ""
    }
}

/// The frame, and the legend below it.
#[tactic(auto, unfolding(crate::specs::Market::market_frame))]
fn market_frame(alloc: Global, bottom: u128) -> Result<String, NoMemory>
    ensures { IfOk result (λ text. string_bytes text ≡ market_frame bottom) }
{
    let height = bottom.saturating_sub(300);
    let (levels, legend) = (levels_text(), legend());
    Ok(format!(in alloc;
        "<rect class=\"frame\" x=\"800\" y=\"300\" width=\"5400\" height=\"{height}\"/>{levels}<g transform=\"translate(0 {bottom})\">{legend}</g>\n"
    )?)
}

/// The market-wide halts in words, and how many stocks were paused or halted.
#[tactic(auto, unfolding(crate::specs::Market::market_description))]
fn market_description(
    alloc: Global,
    last: Moment,
    day: &[Stamped],
    count: u64,
) -> Result<String, NoMemory>
    ensures { IfOk result (λ text. string_bytes text ≡ market_description last day.now count) }
{
    let end = time(alloc, last)?;
    let market = market_messages(alloc, day)?;
    let stops = stops_of(alloc, &market)?;
    let halts = sentences(alloc, &stops)?;
    Ok(format!(in alloc;
        "Market-wide halts, and the pauses and halts of each stock that had any, Eastern time. The data ends at {end}. Stocks that were paused or halted: {count}.{halts}"
    )?)
}

/// The head of the picture.
#[tactic(auto, unfolding(crate::specs::Market::market_head))]
fn market_head(
    alloc: Global,
    title: &str,
    last: Moment,
    day: &[Stamped],
    count: u64,
) -> Result<String, NoMemory>
    ensures { IfOk result (λ text. string_bytes text ≡ market_head title.now last day.now count) }
{
    let bottom = bottom_of(count);
    let height = bottom + 330;
    let description = market_description(alloc, last, day, count)?;
    let opening = opening(alloc, height, title, description.as_str())?;
    let words = "market-wide halts, and each stock that was paused or halted, Eastern time";
    let page = page(alloc, height, title, words)?;
    let frame = market_frame(alloc, bottom)?;
    Ok(format!(in alloc; "{opening}{page}{frame}")?)
}

/// The picture of a day with those rows, up to the last moment.
#[tactic(auto, unfolding(crate::specs::Market::market_drawing))]
fn market_drawing(
    alloc: Global,
    title: &str,
    last: Moment,
    day: &[Stamped],
    rows: &[u16],
) -> Result<String, NoMemory>
    ensures { IfOk result (λ text. string_bytes text ≡ market_drawing title.now last day.now rows.now) }
{
    let count = rows.len() as u64;
    let bottom = bottom_of(count);
    let mut text = market_head(alloc, title, last, day, count)?;
    put_times(alloc, &mut text, bottom)?;
    text.push_str(data_end(alloc, bottom, last)?.as_str())?;
    put_row_names(alloc, &mut text, day, rows)?;
    text.push_str(no_rows(count))?;
    put_marks(alloc, &mut text, rows, last, day)?;
    text.push_str("</svg>\n")?;
    Ok(text)
}

/// The picture of the market's day as an SVG.
pub fn market_picture(
    alloc: Global,
    wanted: Option<u64>,
    days: &DayKeeper,
) -> Result<String, NoMemory>
    ensures { IfOk result (λ text. string_bytes text ≡ market_picture wanted days.now) }
{
    let words = days.words(alloc, wanted)?;
    let title = format!(in alloc; "Market{words}")?;
    let day = days.messages();
    let rows = rows_of(alloc, day)?;
    market_drawing(alloc, title.as_str(), last_moment(day), day, &rows)
}
