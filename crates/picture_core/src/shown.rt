//! Which published messages belong to the picture of one symbol.

ghost use Rattle.std.specs.Prelude.{◌≡◌, None, IfOk};
ghost use Rattle.std.specs.List.{filter, fold};
ghost use Rattle.picture_core.specs.Shown.{is_of, is_market, belongs, message_of, shown, tells_of, id_after, named_id, told_id, id_on, last_moment};

use crate::words::Symbol;
use price_core::NoMemory;
use session_core::{Moment, midnight};
use std::alloc::Global;
use wire_out::{Frame, Message, Stamped};

/// Whether a message is of that symbol.
pub fn is_of(symbol: u16, message: Message) -> bool
    ensures { result ≡ is_of symbol message }
{
    match message {
        Message::Listed { symbol: of, .. }
        | Message::State { symbol: of, .. }
        | Message::Band { symbol: of, .. }
        | Message::Straddle { symbol: of, .. }
        | Message::Collar { symbol: of, .. }
        | Message::Release { symbol: of, .. }
        | Message::Short { symbol: of, .. } => of == symbol,
        Message::Breaker { .. } | Message::MarketResume => false,
    }
}

/// Whether a message is of the whole market.
fn is_market(message: Message) -> bool
    ensures { result ≡ is_market message }
{
    matches!(message, Message::Breaker { .. } | Message::MarketResume)
}

/// Whether a message belongs to the picture of that symbol.
fn belongs(symbol: u16, message: &Message) -> bool
    ensures { result ≡ belongs symbol message.now }
{
    is_of(symbol, *message) || is_market(*message)
}

/// The message of a published frame.
pub fn message_of(frame: &Frame) -> Option<Stamped>
    ensures { result ≡ message_of frame.now }
{
    match *frame {
        Frame::Numbered { stamped, .. } => Some(stamped),
        Frame::Hello { .. } | Frame::Ack { .. } | Frame::Refused { .. } => None,
    }
}

/// Of a day's messages those of that symbol and of the market.
pub fn shown(alloc: Global, symbol: u16, day: &[Stamped]) -> Result<Vec<Stamped>, NoMemory>
    ensures { IfOk result (λ messages. messages.items ≡ shown symbol day.now) }
{
    let mut messages = Vec::new(alloc);
    for x in day {
        if belongs(symbol, &x.message) {
            messages.extend_from_slice(&[*x])?;
        }
    }
    Ok(messages)
}

/// Of a day's messages those of the market.
pub fn market_messages(alloc: Global, day: &[Stamped]) -> Result<Vec<Stamped>, NoMemory>
    ensures { IfOk result (λ messages. messages.items ≡ filter (λ x. is_market x.message) day.now) }
{
    let mut messages = Vec::new(alloc);
    for x in day {
        if is_market(x.message) {
            messages.extend_from_slice(&[*x])?;
        }
    }
    Ok(messages)
}

/// Whether a day's messages tell something of the symbol.
fn tells_of(symbol: u16, day: &[Stamped]) -> bool
    ensures { result ≡ tells_of symbol day.now }
{
    day.iter().any(|x| is_of(symbol, x.message))
}

/// The id under which a message lists that name, else the one that was found before.
fn id_after(name: [u8; 8], id: Option<u16>, message: Message) -> Option<u16>
    ensures { result ≡ id_after name id message }
{
    match message {
        Message::Listed {
            symbol,
            name: listed,
        } => { if listed == name { Some(symbol) } else { id } }
        _ => id,
    }
}

/// The id under which a day's messages list that name.
fn listed_id(name: [u8; 8], day: &[Stamped]) -> Option<u16>
    ensures { result ≡ fold (λ id x. id_after name id x.message) None day.now }
{
    let mut id = None;
    for x in day {
        id = id_after(name, id, x.message);
    }
    id
}

/// The id of the symbol that a word names.
fn named_id(symbol: Symbol, day: &[Stamped]) -> Option<u16>
    ensures { result ≡ named_id symbol day.now }
{
    match symbol {
        Symbol::Id(symbol) => Some(symbol),
        Symbol::Name(name) => listed_id(name, day),
    }
}

/// An id, where a day tells something of it.
fn told_id(symbol: Option<u16>, day: &[Stamped]) -> Option<u16>
    ensures { result ≡ told_id symbol day.now }
{
    match symbol {
        Some(symbol) => {
            if tells_of(symbol, day) {
                Some(symbol)
            } else {
                None
            }
        }
        None => None,
    }
}

/// The id of the symbol on a day.
pub fn id_on(symbol: Symbol, day: &[Stamped]) -> Option<u16>
    ensures { result ≡ id_on symbol day.now }
{
    told_id(named_id(symbol, day), day)
}

/// The last moment that is told of a day.
pub fn last_moment(day: &[Stamped]) -> Moment
    ensures { result ≡ last_moment day.now }
{
    match day.last() {
        Some(x) => x.moment,
        None => midnight(),
    }
}
