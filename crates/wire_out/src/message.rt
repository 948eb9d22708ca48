//! Messages, and the frames that carry them.

use price_core::{Cause, Index, Price};
use session_core::{Level, Moment, Phase};

/// Why the short sale restriction of a symbol holds: a decline of ten per cent in the session, or one on the day before
/// (Rule 201 of Regulation SHO).
#[derive(Clone, Copy, Debug, PartialEq, Eq)]
pub enum ShortKind {
    Triggered,
    Carried,
}

/// What is published of the market or of a symbol. Prices are ten-thousandths of a dollar.
#[derive(Clone, Copy, Debug, PartialEq, Eq)]
pub enum Message {
    /// A symbol is listed for the day under that id. Its name is one to eight visible ASCII characters and then zero
    /// bytes.
    Listed {
        symbol: u16,
        name: [u8; 8],
    },
    /// A symbol's phase has changed.
    State {
        symbol: u16,
        phase: Phase,
    },
    /// The price bands of a symbol, and the reference price that they are of (LULD Plan, Section V).
    Band {
        symbol: u16,
        cause: Cause,
        reference: Price,
        lower: Price,
        upper: Price,
    },
    /// A straddle state begins or ends (LULD Plan, Section VII).
    Straddle {
        symbol: u16,
        on: bool,
    },
    /// The collars of a round of a reopening auction (after Nasdaq Rule 4120).
    Collar {
        symbol: u16,
        round: u16,
        lower: Price,
        upper: Price,
    },
    /// A reopening auction is released at that price.
    Release {
        symbol: u16,
        price: Price,
    },
    /// The short sale restriction of a symbol.
    Short {
        symbol: u16,
        kind: ShortKind,
    },
    /// A market-wide halt, at that value of the index in hundredths of a point (NYSE Rule 7.12).
    Breaker {
        level: Level,
        index: Index,
    },
    /// A market-wide halt has ended (NYSE Rule 7.12).
    MarketResume,
}

/// A message, and the moment of the record that it answers.
#[derive(Clone, Copy, Debug, PartialEq, Eq)]
pub struct Stamped {
    pub moment: Moment,
    pub message: Message,
}

/// A published frame.
#[derive(Clone, Copy, Debug, PartialEq, Eq)]
pub enum Frame {
    /// How many records were accepted and how many messages were numbered before this session.
    Hello {
        inputs: u64,
        messages: u64,
    },
    /// A message with its number, from 1 on.
    Numbered {
        number: u64,
        stamped: Stamped,
    },
    /// The record of that number, from 1 on, is accepted.
    Ack {
        input: u64,
    },
    /// The frame of that number in the input, from 1 on, is refused. The code is from 1 to 9; field is the field that is
    /// refused, from 1 to 7, where the code is 3, and else 0.
    Refused {
        frame_number: u64,
        code: u8,
        field: u8,
    },
}
