//! The picture of one symbol's day.

ghost use Rattle.std.specs.Prelude.{◌≡◌, ◌++◌, IfOk, OnOk};
ghost use Rattle.std.specs.String.{string_bytes};
ghost use Rattle.picture_core.specs.Scales.{IsAxis};
ghost use Rattle.picture_core.specs.Places.{place_of};
ghost use Rattle.picture_core.specs.Elements.{element_text, rooms_after};
ghost use Rattle.picture_core.specs.Pictures.{title, description, head, elements_over, day_over, messages_text, drawing, symbol_picture, picture_of};

use crate::axis::{Axis, axis_of};
use crate::data_end::{data_end, lanes_end};
use crate::day::DayKeeper;
use crate::element::element;
use crate::frame::{names, put_prices, put_times};
use crate::head::{opening, page};
use crate::label::{name, time};
use crate::place::place_of;
use crate::room::Rooms;
use crate::shown::{last_moment, shown};
use crate::stop::{Stop, sentences, stops_of};
use crate::table::{page_height, put_table};
use price_core::NoMemory;
use session_core::Moment;
use std::alloc::Global;
use wire_out::Stamped;

/// The symbol by its id and its name, and words for the day.
#[tactic(auto, unfolding(crate::specs::Pictures::title))]
fn title(alloc: Global, symbol: u16, day: &str, messages: &[Stamped]) -> Result<String, NoMemory>
    ensures { IfOk result (λ text. string_bytes text ≡ title symbol day.now messages.now) }
{
    let name = name(alloc, symbol, messages)?;
    Ok(format!(in alloc; "Symbol {symbol}{name}{day}")?)
}

/// What the picture shows, with its pauses and halts.
#[tactic(auto, unfolding(crate::specs::Pictures::description))]
fn description(alloc: Global, last: Moment, stops: &[Stop]) -> Result<String, NoMemory>
    ensures { IfOk result (λ text. string_bytes text ≡ description last stops.now) }
{
    let end = time(alloc, last)?;
    let sentences = sentences(alloc, stops)?;
    Ok(format!(in alloc;
        "Price bands, auction collars, limit states, pauses, halts and restrictions of the day, Eastern time. The data ends at {end}.{sentences}"
    )?)
}

/// Begins a picture of that height under that title, up to its frame.
#[tactic(auto, unfolding(crate::specs::Pictures::head))]
fn head(
    alloc: Global,
    height: u128,
    title: &str,
    last: Moment,
    stops: &[Stop],
) -> Result<String, NoMemory>
    ensures { IfOk result (λ text. string_bytes text ≡ head height title.now last stops.now) }
{
    let description = description(alloc, last, stops)?;
    let opening = opening(alloc, height, title, description.as_str())?;
    let words = "price bands, pauses, halts and restrictions of the day, Eastern time";
    let page = page(alloc, height, title, words)?;
    let names = names();
    Ok(format!(in alloc; "{opening}{page}{names}")?)
}

/// Draws a message at its place, with those behind it as the later ones.
fn put_element(
    alloc: Global,
    text: &mut String,
    rooms: &mut Rooms,
    axis: &Axis,
    last: Moment,
    x: &Stamped,
    later: &[Stamped],
) -> Result<(), NoMemory>
    requires { IsAxis axis.now }
    ensures text { OnOk result (string_bytes text.new ≡ string_bytes text.old ++ element_text rooms.old x.now (place_of axis.now last x.now later.now)) }
    ensures taken { OnOk result (rooms.new ≡ rooms_after rooms.old x.now (place_of axis.now last x.now later.now)) }
{
    let place = place_of(axis, last, x, later);
    let element = element(alloc, rooms, x, &place)?;
    text.push_str(element.as_str())?;
    Ok(())
}

/// Draws the messages over an axis of prices, up to the last moment.
#[tactic(auto, unfolding(crate::specs::Pictures::elements_over))]
fn put_elements(
    alloc: Global,
    text: &mut String,
    axis: &Axis,
    last: Moment,
    messages: &[Stamped],
) -> Result<(), NoMemory>
    requires { IsAxis axis.now }
    ensures { OnOk result (string_bytes text.new ≡ string_bytes text.old ++ elements_over axis.now last messages.now) }
{
    let mut rooms = Rooms::new(alloc);
    for at in 0..messages.len() {
        let (x, later) = (&messages[at], &messages[at + 1..]);
        put_element(alloc, text, &mut rooms, axis, last, x, later)?;
    }
    Ok(())
}

/// Draws where the data ends, and then the messages over an axis of prices.
#[tactic(auto, unfolding(crate::specs::Pictures::day_over))]
fn put_day(
    alloc: Global,
    text: &mut String,
    axis: &Axis,
    last: Moment,
    messages: &[Stamped],
) -> Result<(), NoMemory>
    requires { IsAxis axis.now }
    ensures { OnOk result (string_bytes text.new ≡ string_bytes text.old ++ day_over axis.now last messages.now) }
{
    text.push_str(data_end(alloc, 2900, last)?.as_str())?;
    text.push_str(lanes_end(alloc, last)?.as_str())?;
    put_elements(alloc, text, axis, last, messages)
}

/// Draws the messages, over the axis of their prices where they have any.
#[tactic(auto, unfolding(crate::specs::Pictures::messages_text))]
fn put_messages(
    alloc: Global,
    text: &mut String,
    last: Moment,
    messages: &[Stamped],
) -> Result<(), NoMemory>
    ensures { OnOk result (string_bytes text.new ≡ string_bytes text.old ++ messages_text last messages.now) }
{
    match axis_of(messages) {
        Some(axis) => {
            put_prices(alloc, text, &axis)?;
            put_day(alloc, text, &axis, last, messages)
        }
        None => put_day(alloc, text, &Axis { low: 0, high: 1 }, last, messages),
    }
}

/// The picture of these messages up to the last moment, with the table of their pauses and halts, under that title.
#[tactic(auto, unfolding(crate::specs::Pictures::drawing))]
fn drawing(
    alloc: Global,
    title: &str,
    last: Moment,
    messages: &[Stamped],
    stops: &[Stop],
) -> Result<String, NoMemory>
    ensures { IfOk result (λ text. string_bytes text ≡ drawing title.now last messages.now stops.now) }
{
    let mut text = head(alloc, page_height(stops.len() as u64), title, last, stops)?;
    put_times(alloc, &mut text, 2900)?;
    put_messages(alloc, &mut text, last, messages)?;
    put_table(alloc, &mut text, stops)?;
    text.push_str("</svg>\n")?;
    Ok(text)
}

/// The picture of a symbol's messages up to the last moment, under words for the day.
fn symbol_picture(
    alloc: Global,
    symbol: u16,
    day: &str,
    last: Moment,
    messages: &[Stamped],
) -> Result<String, NoMemory>
    ensures { IfOk result (λ text. string_bytes text ≡ symbol_picture symbol day.now last messages.now) }
{
    let title = title(alloc, symbol, day, messages)?;
    let stops = stops_of(alloc, messages)?;
    drawing(alloc, title.as_str(), last, messages, &stops)
}

/// The picture of a symbol's day as an SVG, of its messages and those of the market.
pub fn picture(
    alloc: Global,
    symbol: u16,
    wanted: Option<u64>,
    days: &DayKeeper,
) -> Result<String, NoMemory>
    ensures { IfOk result (λ text. string_bytes text ≡ picture_of symbol wanted days.now) }
{
    let words = days.words(alloc, wanted)?;
    let day = days.messages();
    let messages = shown(alloc, symbol, day)?;
    symbol_picture(alloc, symbol, words.as_str(), last_moment(day), &messages)
}
