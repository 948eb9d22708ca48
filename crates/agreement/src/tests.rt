//! The kept evaluation against the plain one.

mod draw;
mod drawn;
mod drifts;
mod lawful;
mod lines;

use afresh_core::{afresh, is_lawful};
use market_core::Market;
use price_core::Cause;
use std::alloc::Global;
use wire_in::Record;
use wire_out::{Message, Stamped};

/// Gives a market each of these records, and adds its messages. Whether there is memory for them.
fn apply(market: &mut Market, xs: &[Record], out: &mut Vec<Stamped>) -> bool {
    let mut is_right = true;
    for x in xs {
        is_right &= market.apply(x, out).is_ok();
    }
    is_right
}

/// Adds the messages of a new market that is given each of these records. Whether there is memory for them.
fn applied(alloc: Global, xs: &[Record], out: &mut Vec<Stamped>) -> bool {
    match Market::new(alloc) {
        Ok(mut market) => apply(&mut market, xs, out),
        Err(_) => false,
    }
}

/// Whether a new market gives these messages.
fn gives(alloc: Global, xs: &[Record], want: &[Stamped]) -> bool {
    let mut given = Vec::new(alloc);
    applied(alloc, xs, &mut given) && given.as_slice() == want
}

/// Whether it is a message that says that the mean moved the bands.
fn is_move(message: &Message) -> bool {
    matches!(
        message,
        Message::Band {
            cause: Cause::Moved,
            ..
        }
    )
}

/// How many messages say that the mean moved the bands.
fn moves_in(messages: &[Stamped]) -> usize {
    let mut moves = 0usize;
    for stamped in messages {
        if is_move(&stamped.message) {
            moves = moves.saturating_add(1);
        }
    }
    moves
}

/// Whether the records are lawful, the plain evaluation moves the bands so many times at least, and a market gives the same
/// messages.
fn agrees(alloc: Global, xs: &[Record], least_moves: usize) -> bool {
    let Ok(lawful) = is_lawful(alloc, xs) else {
        return false;
    };
    if !lawful {
        return false;
    }
    match afresh(alloc, xs) {
        Ok(want) => moves_in(&want) >= least_moves && gives(alloc, xs, &want),
        Err(_) => false,
    }
}
