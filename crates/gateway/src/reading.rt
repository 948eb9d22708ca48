//! Published frames, read into the messages of a day.

ghost use Rattle.std.specs.Prelude.{◌≡◌, ◌↔◌, ◌+◌, ◌%◌, ◌^◌, ◌≤◌, IsTrue, All, IfOk, OnOk, max, vec_len};
ghost use Rattle.gateway.specs.Listed.{above_listed, stocks_listed};
ghost use Rattle.gateway.specs.Rows.{CanPublish};

use crate::error::GatewayError;
use price_core::Price;
use std::alloc::Global;
use wire_out::{Frame, Message, get_frame};

/// How many stocks a board may have.
pub const STOCKS: u32 = 16_384;

/// How many messages are published at most; a board has more versions.
const MESSAGES: usize = 1 << 33;

/// Whether a price is a whole number of cents.
fn is_whole(price: Price) -> bool
    ensures { IsTrue result ↔ (price % 100 ≡ 0) }
{
    price.units() % 100 == 0
}

/// Whether a board may publish a message: its stock has a place there, and its bands are of whole cents.
fn can_publish(message: &Message) -> bool
    ensures { IsTrue result ↔ CanPublish 16384 message.now }
{
    match *message {
        Message::Band {
            symbol,
            lower,
            upper,
            ..
        } => u32::from(symbol) < STOCKS && is_whole(lower) && is_whole(upper),
        Message::Listed { symbol, .. }
        | Message::State { symbol, .. }
        | Message::Straddle { symbol, .. }
        | Message::Collar { symbol, .. }
        | Message::Release { symbol, .. }
        | Message::Short { symbol, .. } => u32::from(symbol) < STOCKS,
        Message::Breaker { .. } | Message::MarketResume => true,
    }
}

/// Takes a frame: a message is kept, and any other frame is passed over.
fn take_frame(body: &[u8], messages: &mut Vec<Message>) -> Result<(), GatewayError>
    requires { All (CanPublish 16384) messages.old.items }
    ensures all { OnOk result (All (CanPublish 16384) messages.new.items) }
    ensures count { OnOk result (vec_len messages.new ≤ vec_len messages.old + 1) }
{
    match get_frame(body) {
        Ok(Frame::Numbered { stamped, .. }) if can_publish(&stamped.message) => messages
            .push(stamped.message)
            .map_err(|_| GatewayError::NoMemory),
        Ok(Frame::Numbered { .. }) | Err(_) => Err(GatewayError::BadFrame),
        Ok(_) => Ok(()),
    }
}

/// The messages of published frames that stand one behind the other, in order. An error tells of bytes that are no such
/// frames, of a message that no board may publish, or of want of memory.
pub fn read_messages(alloc: Global, bytes: &[u8]) -> Result<Vec<Message>, GatewayError>
    ensures all { IfOk result (λ messages. All (CanPublish 16384) messages.items) }
    ensures count { IfOk result (λ messages. vec_len messages ≤ 2 ^ 33) }
{
    let mut messages = Vec::new(alloc);
    let mut at = 0;
    while at < bytes.len() {
        let end = at + 1 + usize::from(bytes[at]);
        if end > bytes.len() || messages.len() == MESSAGES {
            return Err(GatewayError::BadFrame);
        }
        take_frame(&bytes[at + 1..end], &mut messages)?;
        at = end;
    }
    Ok(messages)
}

/// One above the id that a message lists, 0 where it lists none.
fn above_listed(message: &Message) -> u32
    ensures { result ≡ above_listed message.now }
{
    match *message {
        Message::Listed { symbol, .. } => u32::from(symbol) + 1,
        _ => 0,
    }
}

/// The greater of a number and of one above the id that a message lists.
fn with_listed(stocks: u32, message: &Message) -> u32
    ensures { result ≡ max stocks (above_listed message.now) }
{
    stocks.max(above_listed(message))
}

/// One above the greatest id that the messages list, 0 where they list none.
pub fn stocks_of(messages: &[Message]) -> u32
    ensures { result ≡ stocks_listed messages.now }
{
    let mut stocks = 0;
    for message in messages {
        stocks = with_listed(stocks, message);
    }
    stocks
}
