//! Records as bytes, and back.

ghost use Rattle.std.specs.Prelude.{◌<◌, IsTrue, length};
ghost use Rattle.wire_in.specs.Cutting.{is_frame};

use super::bytes::{MOST, UNWRITTEN, changed, is_written};
use super::table::{Row, check};
use Case::{Bad, Good, HasLength, IsCut, IsTold, Refused};
use price_core::Index;
use session_core::{Close, Date, Day, Moment, Profile};
use std::process::Abort;
use wire_in::{Cutter, Record, Refusal, decode, encode};

/// The day 2024-06-03 at 04:00:00, with a regular close and an index close of 5000.00.
const DAY: &[u8] = &[
    1, 0, 0, 0x0d, 0x18, 0xc2, 0xe2, 0x80, 0, 7, 0xe8, 6, 3, 1, 2, 0, 7, 0xa1, 0x20,
];

/// The same day with the percentages before Amendment 18.
const DAY_BEFORE_18: &[u8] = &[
    1, 0, 0, 0x0d, 0x18, 0xc2, 0xe2, 0x80, 0, 7, 0xe8, 6, 3, 1, 1, 0, 7, 0xa1, 0x20,
];

/// The listing of ABC in Tier 1 at 04:00:00, with a prior close of 50.0000.
const LISTING: &[u8] = &[
    2, 0, 0, 0x0d, 0x18, 0xc2, 0xe2, 0x80, 0, 65, 66, 67, 0, 0, 0, 0, 0, 1, 10, 0, 0, 0, 0, 0, 7,
    0xa1, 0x20,
];

/// A trade of 100 at 50.0000 with each flag.
const TRADE: &[u8] = &[
    3, 0, 0, 0x20, 0xbd, 0xe7, 0x36, 0x40, 0, 0, 0, 0, 0, 0, 1, 0, 0, 0, 0, 0, 7, 0xa1, 0x20, 0, 0,
    0, 100, 3, 0xff,
];

/// A quotation without prices.
const QUOTE: &[u8] = &[
    5, 0, 0, 0x20, 0xbd, 0xe7, 0x36, 0x40, 0, 0, 0, 0, 0, 0, 0, 0, 0, 0, 0, 0, 0, 0, 0, 0, 0, 0, 0,
    0, 0, 0, 0, 0, 0, 0, 0,
];

/// The index value 4650.01 at 10:00:00.
const INDEX_TICK: &[u8] = &[6, 0, 0, 0x20, 0xbd, 0xe7, 0x36, 0x40, 0, 0, 7, 0x18, 0x69];

const CLOCK: &[u8] = &[7, 0, 0, 0x20, 0xbd, 0xe7, 0x36, 0x40, 0];

const NOTICE: &[u8] = &[8, 0, 0, 0x20, 0xbd, 0xe7, 0x36, 0x40, 0, 0, 0, 1];

/// An indication at 50.0000 that leaves nothing unmatched.
const INDICATION: &[u8] = &[
    9, 0, 0, 0x20, 0xbd, 0xe7, 0x36, 0x40, 0, 0, 0, 0, 0, 0, 0, 0, 7, 0xa1, 0x20, 0,
];

/// 86,400,000,000,000, 100,000,000,000 and 100,000,000: the least moment, price and index value above the range.
const LATE: &[u8] = &[0, 0, 0x4e, 0x94, 0x91, 0x4f, 0, 0];

const DEAR: &[u8] = &[0, 0, 0, 0x17, 0x48, 0x76, 0xe8, 0];

const HIGH: &[u8] = &[5, 0xf5, 0xe1, 0];

/// The frames of DAY and of INDEX_TICK, and the begin of another.
const STREAM: [u8; 36] = [
    19, 1, 0, 0, 0x0d, 0x18, 0xc2, 0xe2, 0x80, 0, 7, 0xe8, 6, 3, 1, 2, 0, 7, 0xa1, 0x20, 13, 6, 0,
    0, 0x20, 0xbd, 0xe7, 0x36, 0x40, 0, 0, 7, 0x18, 0x69, 9, 0,
];

/// The bodies of the stream, with what it has of the last.
const BODIES: &[&[u8]] = &[DAY, INDEX_TICK, &[0]];

fn day<R: Abort>(rt: &R, profile: Profile) -> Record {
    Record::Day {
        moment: Moment::new(14_400_000_000_000).expect(rt, "a moment"),
        day: Day {
            date: Date::of(2024, 6, 3).expect(rt, "a date"),
            close: Close::Regular,
            profile,
        },
        index_close: Index::new(500_000).expect(rt, "an index value"),
    }
}

fn index_tick<R: Abort>(rt: &R) -> Record {
    Record::IndexTick {
        moment: Moment::new(36_000_000_000_000).expect(rt, "a moment"),
        value: Index::new(465_001).expect(rt, "an index value"),
    }
}

/// A body that is read as a record, and is what is written for it.
#[derive(Clone, Copy)]
struct Spells(&'static [u8], Record);

impl Row for Spells {
    fn holds(&self) -> bool {
        let Spells(body, want) = *self;
        let Ok(record) = decode(&body[..body.len().min(MOST)]) else {
            return false;
        };
        let mut buffer = [UNWRITTEN; 64];
        let len = encode(&record, &mut buffer);
        record == want && is_written(body, len, &buffer)
    }
}

/// A body or a refusal, with what is wanted of it.
#[derive(Clone, Copy)]
enum Case {
    /// A type has bodies of a length alone.
    HasLength(u8, usize),
    Refused(&'static [u8], Refusal),
    /// A body is read, and with other bytes at an offset it is refused for a field.
    Bad(&'static [u8], usize, &'static [u8], u8),
    /// A body is read with other bytes at an offset.
    Good(&'static [u8], usize, &'static [u8]),
    /// The stream of two frames and the begin of one, and that of the two alone, are cut into these in pieces of a size.
    IsCut(usize),
    /// The code and the field of a refusal.
    IsTold(Refusal, u8, u8),
}

/// Whether a body of that type and length is refused for its length.
fn has_bad_length(kind: u8, len: usize) -> bool {
    let body = changed(&[kind], 0, &[]);
    decode(&body[..len.min(MOST)]) == Err(Refusal::BadLength)
}

/// Why a body that has other bytes at an offset is refused.
fn refusal(body: &[u8], at: usize, bytes: &[u8]) -> Option<Refusal> {
    match decode(&changed(body, at, bytes)[..body.len().min(MOST)]) {
        Ok(_) => None,
        Err(refusal) => Some(refusal),
    }
}

/// Whether a type has bodies of a length alone.
fn has_length(kind: u8, len: usize) -> bool {
    has_bad_length(kind, len.wrapping_sub(1))
        && !has_bad_length(kind, len)
        && has_bad_length(kind, len.wrapping_add(1))
}

/// Whether a body is read.
fn is_good(body: &[u8], at: usize, bytes: &[u8]) -> bool {
    refusal(body, at, bytes) == None
}

/// Whether a body is read, and is refused for a field with other bytes at an offset.
fn is_bad(body: &[u8], at: usize, bytes: &[u8], field: u8) -> bool {
    is_good(body, at, &[]) && refusal(body, at, bytes) == Some(Refusal::BadField(field))
}

/// Whether a refusal has that code and that field.
fn is_told(refusal: Refusal, code: u8, field: u8) -> bool {
    refusal.code() == code && refusal.field() == field
}

/// Whether a cutter holds the body at a place of these.
fn has_body(cutter: &Cutter, bodies: &[&[u8]], place: usize) -> bool
    requires { IsTrue (is_frame cutter.now) }
    ensures { IsTrue result → place < length bodies.now }
{
    place < bodies.len() && cutter.body() == bodies[place]
}

/// How many of these bodies a stream gives that is taken in pieces of that size, and whether it ends inside a frame.
fn cut(stream: &[u8], size: usize, bodies: &[&[u8]]) -> (usize, bool) {
    let mut cutter = Cutter::new();
    let mut found = 0;
    let mut rest = stream;
    for _ in 0..stream.len() {
        let cut = cutter.take(&rest[..size.min(rest.len())]);
        rest = &rest[cut.used..];
        if cut.whole && has_body(&cutter, bodies, found) {
            found += 1;
        }
    }
    (found, cutter.inside())
}

/// Whether the stream of two frames and the begin of one, and that of the two alone, are cut into these in pieces of a size.
fn is_cut(size: usize) -> bool {
    cut(&STREAM, size, BODIES) == (2, true) && cut(&STREAM[..34], size, BODIES) == (2, false)
}

impl Row for Case {
    fn holds(&self) -> bool {
        match *self {
            HasLength(kind, len) => has_length(kind, len),
            Refused(body, want) => refusal(body, 0, &[]) == Some(want),
            Bad(body, at, bytes, field) => is_bad(body, at, bytes, field),
            Good(body, at, bytes) => is_good(body, at, bytes),
            IsCut(size) => is_cut(size),
            IsTold(refusal, code, field) => is_told(refusal, code, field),
        }
    }
}

#[test]
fn the_frames_of_a_day_and_of_an_index_value(rt: HostRuntime) {
    check(
        &rt,
        &[
            Spells(DAY, day(&rt, Profile::Since18)),
            Spells(DAY_BEFORE_18, day(&rt, Profile::Before18)),
            Spells(INDEX_TICK, index_tick(&rt)),
        ],
    );
}

#[test]
fn a_body_has_the_length_of_its_type(rt: HostRuntime) {
    check(
        &rt,
        &[
            HasLength(1, 19),
            HasLength(2, 27),
            HasLength(3, 29),
            HasLength(4, 15),
            HasLength(5, 35),
            HasLength(6, 13),
            HasLength(7, 9),
            HasLength(8, 12),
            HasLength(9, 20),
            Refused(&[], Refusal::BadLength),
            Refused(&[0], Refusal::UnknownType),
            Refused(&[10], Refusal::UnknownType),
        ],
    );
}

#[test]
fn a_day_is_refused_by_its_first_bad_field(rt: HostRuntime) {
    check(
        &rt,
        &[
            Bad(DAY, 1, LATE, 1),
            Bad(DAY, 9, &[7, 0xcf, 0], 2),
            Bad(DAY, 9, &[8, 0x34], 2),
            Bad(DAY, 11, &[0], 3),
            Bad(DAY, 11, &[13], 3),
            Bad(DAY, 12, &[0], 4),
            Bad(DAY, 11, &[2, 30], 4),
            Bad(DAY, 13, &[0], 5),
            Bad(DAY, 13, &[3], 5),
            Bad(DAY, 14, &[0], 6),
            Bad(DAY, 14, &[3], 6),
            Bad(DAY, 15, &[0, 0, 0, 0], 7),
            Bad(DAY, 15, HIGH, 7),
            Good(DAY, 11, &[2, 29]),
        ],
    );
}

#[test]
fn a_listing_is_refused_by_its_first_bad_field(rt: HostRuntime) {
    check(
        &rt,
        &[
            Bad(LISTING, 1, LATE, 1),
            Bad(LISTING, 9, &[0, 0, 0], 2),
            Bad(LISTING, 10, &[0], 2),
            Bad(LISTING, 10, &[0x20], 2),
            Bad(LISTING, 11, &[0x7f], 2),
            Bad(LISTING, 17, &[0], 3),
            Bad(LISTING, 17, &[3], 3),
            Bad(LISTING, 18, &[9], 4),
            Bad(LISTING, 18, &[51], 4),
            Bad(LISTING, 19, DEAR, 5),
            Good(LISTING, 9, b"ABCDEFGH"),
            Good(LISTING, 19, &[0; 8]),
        ],
    );
}

#[test]
fn other_records_are_refused_by_their_first_bad_field(rt: HostRuntime) {
    check(
        &rt,
        &[
            Bad(TRADE, 1, LATE, 1),
            Bad(TRADE, 15, &[0; 8], 4),
            Bad(TRADE, 15, DEAR, 4),
            Bad(TRADE, 27, &[4, 0], 6),
            Bad(QUOTE, 11, DEAR, 3),
            Bad(QUOTE, 19, DEAR, 4),
            Bad(INDEX_TICK, 9, &[0; 4], 2),
            Bad(INDEX_TICK, 9, HIGH, 2),
            Bad(CLOCK, 1, LATE, 1),
            Bad(NOTICE, 11, &[0], 3),
            Bad(NOTICE, 11, &[5], 3),
            Bad(INDICATION, 11, &[0; 8], 3),
            Bad(INDICATION, 11, DEAR, 3),
            Bad(INDICATION, 19, &[3], 4),
        ],
    );
}

#[test]
fn a_stream_has_the_same_bodies_in_any_pieces(rt: HostRuntime) {
    check(&rt, &[IsCut(1), IsCut(2), IsCut(7), IsCut(36)]);
}

#[test]
fn a_refusal_is_told_by_its_code_and_its_field(rt: HostRuntime) {
    check(
        &rt,
        &[
            IsTold(Refusal::UnknownType, 1, 0),
            IsTold(Refusal::BadField(7), 3, 7),
            IsTold(Refusal::JournalFull, 9, 0),
        ],
    );
}
