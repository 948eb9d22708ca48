//! Published frames as bytes, and back.

use super::bytes::{MOST, UNWRITTEN, changed, is_written};
use super::table::{Row, check};
use Body::{Bad, Good, HasLength};
use price_core::{Cause, Index, Price};
use session_core::{Level, Moment, Phase};
use std::process::Abort;
use wire_out::{Frame, Message, ShortKind, Stamped, get_frame, put_frame};

const HELLO: &[u8] = &[0x81, 0, 0, 0, 0, 0, 0, 0, 0, 0, 0, 0, 0, 0, 0, 0, 0];

const ACK: &[u8] = &[0x82, 0, 0, 0, 0, 0, 0, 0, 1];

const REFUSED: &[u8] = &[0x83, 0, 0, 0, 0, 0, 0, 0, 1, 2, 0];

// The messages are number 1 at 10:00:00, and those of a symbol are of symbol 2.

/// ABC is listed.
const LISTED: &[u8] = &[
    0x11, 0, 0, 0, 0, 0, 0, 0, 1, 0, 0, 0x20, 0xbd, 0xe7, 0x36, 0x40, 0, 0, 2, 65, 66, 67, 0, 0, 0,
    0, 0,
];

const PAUSED: &[u8] = &[
    0x12, 0, 0, 0, 0, 0, 0, 0, 1, 0, 0, 0x20, 0xbd, 0xe7, 0x36, 0x40, 0, 0, 2, 4,
];

/// Bands of 47.5000 and 52.5000 by a reference price of 50.0000 that moved.
const BAND: &[u8] = &[
    0x13, 0, 0, 0, 0, 0, 0, 0, 1, 0, 0, 0x20, 0xbd, 0xe7, 0x36, 0x40, 0, 0, 2, 2, 0, 0, 0, 0, 0, 7,
    0xa1, 0x20, 0, 0, 0, 0, 0, 7, 0x3f, 0x78, 0, 0, 0, 0, 0, 8, 2, 0xc8,
];

const STRADDLE: &[u8] = &[
    0x14, 0, 0, 0, 0, 0, 0, 0, 1, 0, 0, 0x20, 0xbd, 0xe7, 0x36, 0x40, 0, 0, 2, 1,
];

/// Collars of 47.5000 and 52.5000 in round 3.
const COLLAR: &[u8] = &[
    0x15, 0, 0, 0, 0, 0, 0, 0, 1, 0, 0, 0x20, 0xbd, 0xe7, 0x36, 0x40, 0, 0, 2, 0, 3, 0, 0, 0, 0, 0,
    7, 0x3f, 0x78, 0, 0, 0, 0, 0, 8, 2, 0xc8,
];

/// A release at 50.0000.
const RELEASE: &[u8] = &[
    0x16, 0, 0, 0, 0, 0, 0, 0, 1, 0, 0, 0x20, 0xbd, 0xe7, 0x36, 0x40, 0, 0, 2, 0, 0, 0, 0, 0, 7,
    0xa1, 0x20,
];

const CARRIED: &[u8] = &[
    0x17, 0, 0, 0, 0, 0, 0, 0, 1, 0, 0, 0x20, 0xbd, 0xe7, 0x36, 0x40, 0, 0, 2, 2,
];

/// Level 1 at an index value of 4650.00.
const BREAKER: &[u8] = &[
    0x18, 0, 0, 0, 0, 0, 0, 0, 1, 0, 0, 0x20, 0xbd, 0xe7, 0x36, 0x40, 0, 1, 0, 7, 0x18, 0x68,
];

const MARKET_RESUME: &[u8] = &[
    0x19, 0, 0, 0, 0, 0, 0, 0, 1, 0, 0, 0x20, 0xbd, 0xe7, 0x36, 0x40, 0,
];

/// No count and no price.
const ZERO: &[u8] = &[0; 8];

/// A body that is read as a frame, and is what is written for it.
#[derive(Clone, Copy)]
struct Spells(&'static [u8], Frame);

impl Row for Spells {
    fn holds(&self) -> bool {
        let Spells(body, frame) = *self;
        let mut buffer = [UNWRITTEN; 64];
        let len = put_frame(&frame, &mut buffer);
        get_frame(body) == Ok(frame) && is_written(body, len, &buffer)
    }
}

/// A body of the message number 1, at 10:00:00.
#[derive(Clone, Copy)]
struct Says(&'static [u8], Message);

impl Row for Says {
    fn holds(&self) -> bool {
        let Says(body, message) = *self;
        let Ok(moment) = Moment::new(36_000_000_000_000) else {
            return false;
        };
        let frame = Frame::Numbered {
            number: 1,
            stamped: Stamped { moment, message },
        };
        Spells(body, frame).holds()
    }
}

/// A body, with what is read in it.
#[derive(Clone, Copy)]
enum Body {
    /// With other bytes at an offset it spells no frame.
    Bad(&'static [u8], usize, &'static [u8]),
    /// With other bytes at an offset it spells a frame.
    Good(&'static [u8], usize, &'static [u8]),
    /// It spells a frame, and with a byte less or more none.
    HasLength(&'static [u8]),
}

/// Whether so many bytes of a body that has other bytes at an offset spell a frame.
fn spells_frame(body: &[u8], len: usize, at: usize, bytes: &[u8]) -> bool {
    get_frame(&changed(body, at, bytes)[..len.min(MOST)]).is_ok()
}

/// Whether a body spells a frame, and with a byte less or more none.
fn has_length(body: &[u8]) -> bool {
    let len = body.len();
    spells_frame(body, len, 0, &[])
        && !spells_frame(body, len.wrapping_sub(1), 0, &[])
        && !spells_frame(body, len.wrapping_add(1), 0, &[])
}

impl Row for Body {
    fn holds(&self) -> bool {
        match *self {
            Bad(body, at, bytes) => !spells_frame(body, body.len(), at, bytes),
            Good(body, at, bytes) => spells_frame(body, body.len(), at, bytes),
            HasLength(body) => has_length(body),
        }
    }
}

/// A price in ten-thousandths of a dollar.
fn price<R: Abort>(rt: &R, units: u64) -> Price {
    Price::new(units).expect(rt, "a price")
}

#[test]
fn frames_without_a_number(rt: HostRuntime) {
    let hello = Frame::Hello {
        inputs: 0,
        messages: 0,
    };
    let refused = Frame::Refused {
        frame_number: 1,
        code: 2,
        field: 0,
    };
    check(
        &rt,
        &[
            Spells(HELLO, hello),
            Spells(ACK, Frame::Ack { input: 1 }),
            Spells(REFUSED, refused),
        ],
    );
}

#[test]
fn messages_of_the_states_of_a_symbol(rt: HostRuntime) {
    let symbol = 2;
    let name = *b"ABC\0\0\0\0\0";
    let phase = Phase::Paused;
    let kind = ShortKind::Carried;
    let on = true;
    check(
        &rt,
        &[
            Says(LISTED, Message::Listed { symbol, name }),
            Says(PAUSED, Message::State { symbol, phase }),
            Says(STRADDLE, Message::Straddle { symbol, on }),
            Says(CARRIED, Message::Short { symbol, kind }),
        ],
    );
}

#[test]
fn messages_of_the_prices_of_a_symbol(rt: HostRuntime) {
    let symbol = 2;
    let lower = price(&rt, 475_000);
    let upper = price(&rt, 525_000);
    let price = price(&rt, 500_000);
    let band = Message::Band {
        symbol,
        cause: Cause::Moved,
        reference: price,
        lower,
        upper,
    };
    let collar = Message::Collar {
        symbol,
        round: 3,
        lower,
        upper,
    };
    check(
        &rt,
        &[
            Says(BAND, band),
            Says(COLLAR, collar),
            Says(RELEASE, Message::Release { symbol, price }),
        ],
    );
}

#[test]
fn messages_of_the_market(rt: HostRuntime) {
    let level = Level::One;
    let index = Index::new(465_000).expect(&rt, "an index value");
    check(
        &rt,
        &[
            Says(BREAKER, Message::Breaker { level, index }),
            Says(MARKET_RESUME, Message::MarketResume),
        ],
    );
}

#[test]
fn a_body_has_the_length_of_its_type(rt: HostRuntime) {
    check(
        &rt,
        &[
            HasLength(HELLO),
            HasLength(ACK),
            HasLength(REFUSED),
            HasLength(LISTED),
            HasLength(PAUSED),
            HasLength(BAND),
            HasLength(STRADDLE),
            HasLength(COLLAR),
            HasLength(RELEASE),
            HasLength(CARRIED),
            HasLength(BREAKER),
            HasLength(MARKET_RESUME),
            Bad(&[], 0, &[]),
        ],
    );
}

#[test]
fn a_field_outside_its_range_spells_no_frame(rt: HostRuntime) {
    check(
        &rt,
        &[
            Bad(ACK, 1, ZERO),
            Bad(REFUSED, 1, ZERO),
            Bad(REFUSED, 9, &[0, 0]),
            Bad(REFUSED, 9, &[10, 0]),
            Bad(REFUSED, 9, &[2, 1]),
            Bad(REFUSED, 9, &[3, 0]),
            Bad(REFUSED, 9, &[3, 8]),
            Bad(MARKET_RESUME, 1, ZERO),
            Bad(MARKET_RESUME, 9, &[0, 0, 0x4e, 0x94, 0x91, 0x4f, 0, 0]),
            Bad(MARKET_RESUME, 0, &[0x10]),
            Bad(LISTED, 19, &[0]),
            Bad(PAUSED, 19, &[9]),
            Bad(BAND, 19, &[0]),
            Bad(BAND, 19, &[5]),
            Bad(BAND, 20, ZERO),
            Bad(STRADDLE, 19, &[2]),
            Bad(RELEASE, 19, ZERO),
            Bad(CARRIED, 19, &[0]),
            Bad(CARRIED, 19, &[3]),
            Bad(BREAKER, 17, &[0]),
            Bad(BREAKER, 17, &[4]),
            Bad(BREAKER, 18, &[0; 4]),
            Good(REFUSED, 9, &[3, 7]),
        ],
    );
}
