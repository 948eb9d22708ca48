//! Bodies that say no record, as `decode` reads them and as both commands answer them.

use super::sent::told;
use super::{REPLAY, SERVE, Way, copied, expect, fresh, ran};
use Kind::{Cancel, Clock, Day, IndexTick, Indication, Listing, Notice, Quote, Trade};
use host_core::Status;
use memory_host::MemoryHost;
use std::process::Abort;
use std::thread::Threads;
use wire_in::{Refusal, decode};
use wire_out::{Frame, put_frame};

/// The day 2024-06-03 at 04:00:00, with a regular close and an index close of 5000.00.
const DAY: &[u8] = b"\x01\0\0\x0d\x18\xc2\xe2\x80\0\x07\xe8\x06\x03\x01\x02\0\x07\xa1\x20";

/// ABC in Tier 1 at a prior close of $50.00.
const LISTING: &[u8] = b"\x02\0\0\x0d\x18\xc2\xe2\x80\0ABC\0\0\0\0\0\x01\x0a\0\0\0\0\0\x07\xa1\x20";

/// 100 shares at $50.00 at 10:00:00.
const TRADE: &[u8] =
    b"\x03\0\0\x20\xbd\xe7\x36\x40\0\0\0\0\0\0\x01\0\0\0\0\0\x07\xa1\x20\0\0\0\x64\0\0";

const CANCEL: &[u8] = b"\x04\0\0\x20\xbd\xe7\x36\x40\0\0\0\0\0\0\x01";

const QUOTE: &[u8] =
    b"\x05\0\0\x20\xbd\xe7\x36\x40\0\0\0\0\0\0\0\0\x07\xa1\x20\0\0\0\0\0\x07\xa1\x20\0\0\0\x01\0\0\0\x01";

const INDEX_TICK: &[u8] = b"\x06\0\0\x20\xbd\xe7\x36\x40\0\0\x07\x18\x69";

const CLOCK: &[u8] = b"\x07\0\0\x20\xbd\xe7\x36\x40\0";

const NOTICE: &[u8] = b"\x08\0\0\x20\xbd\xe7\x36\x40\0\0\0\x01";

const INDICATION: &[u8] = b"\x09\0\0\x20\xbd\xe7\x36\x40\0\0\0\0\0\0\0\0\x07\xa1\x20\0";

#[derive(Clone, Copy)]
enum Kind {
    Day,
    Listing,
    Trade,
    Cancel,
    Quote,
    IndexTick,
    Clock,
    Notice,
    Indication,
}

const KINDS: [Kind; 9] = [
    Day, Listing, Trade, Cancel, Quote, IndexTick, Clock, Notice, Indication,
];

/// The least moment, price and index value above the range.
const LATE: u64 = 86_400_000_000_000;

const DEAR: u64 = 100_000_000_000;

const HIGH: u64 = 100_000_000;

/// More ones than any body of a kind has bytes, and as many zeros as the longest body has.
const ONES: [u8; 64] = [255; 64];

const ZEROS: [u8; 255] = [0; 255];

/// A body of that kind.
fn body_of(kind: Kind) -> &'static [u8] {
    match kind {
        Day => DAY,
        Listing => LISTING,
        Trade => TRADE,
        Cancel => CANCEL,
        Quote => QUOTE,
        IndexTick => INDEX_TICK,
        Clock => CLOCK,
        Notice => NOTICE,
        Indication => INDICATION,
    }
}

/// A stream of frames that are all refused, and what a session sends for it.
#[derive(Drop)]
struct Refusals {
    input: Vec<u8>,
    sent: Vec<u8>,
    count: u64,
}

fn overwrite(body: &mut [u8], at: usize, bytes: &[u8]) {
    for (i, byte) in bytes.iter().enumerate() {
        if let Some(to) = body.get_mut(at.wrapping_add(i)) {
            *to = *byte;
        }
    }
}

/// A body with other bytes at an offset.
fn overwritten<R: Abort + AllocGlobal>(rt: &R, body: &[u8], at: usize, bytes: &[u8]) -> Vec<u8> {
    let mut all = copied(rt, body);
    overwrite(&mut all, at, bytes);
    all
}

fn joined<R: Abort + AllocGlobal>(rt: &R, body: &[u8], more: &[u8]) -> Vec<u8> {
    [body, more].concat(rt.alloc()).expect(rt, "memory")
}

/// A body is refused so, which stands behind so many frames.
fn expect_refused<R: Abort>(rt: &R, count: u64, body: &[u8], refusal: Refusal) {
    let body = &body[..body.len().min(255)];
    assert!(rt; decode(body) == Err(refusal), "frame {count}");
}

impl Refusals {
    /// No frame, and the greeting of an empty journal.
    fn new<R: Abort + AllocGlobal>(rt: &R) -> Refusals {
        let mut refusals = Refusals {
            input: Vec::new(rt.alloc()),
            sent: Vec::new(rt.alloc()),
            count: 0,
        };
        let hello = Frame::Hello {
            inputs: 0,
            messages: 0,
        };
        refusals.send(rt, &hello);
        refusals
    }

    fn send<R: Abort>(&mut self, rt: &R, frame: &Frame) {
        let mut cell = [0; 64];
        let len = put_frame(frame, &mut cell);
        self.sent
            .extend_from_slice(&cell[..len])
            .expect(rt, "memory");
    }

    /// A frame of this body, which is refused so.
    fn add<R: Abort>(&mut self, rt: &R, body: &[u8], refusal: Refusal) {
        let body = &body[..body.len().min(255)];
        expect_refused(rt, self.count, body, refusal);
        self.input.push(body.len() as u8).expect(rt, "memory");
        self.input.extend_from_slice(body).expect(rt, "memory");
        self.count = self.count.saturating_add(1);
        let refused = Frame::Refused {
            frame_number: self.count,
            code: refusal.code(),
            field: refusal.field(),
        };
        self.send(rt, &refused);
    }

    /// A frame of a body that has other bytes at an offset.
    fn change<R: Abort + AllocGlobal>(
        &mut self,
        rt: &R,
        body: &[u8],
        at: usize,
        bytes: &[u8],
        refusal: Refusal,
    ) {
        let changed = overwritten(rt, body, at, bytes);
        self.add(rt, &changed, refusal);
    }

    /// A frame of that kind whose bytes at an offset say a value outside the range of their field.
    fn write<R: Abort + AllocGlobal>(
        &mut self,
        rt: &R,
        kind: Kind,
        at: usize,
        width: usize,
        value: u64,
        field: u8,
    ) {
        let bytes = value.to_be_bytes();
        let last = &bytes[8 - width.min(8)..];
        self.change(rt, body_of(kind), at, last, Refusal::BadField(field));
    }

    /// Frames of a body that is a byte shorter, of its type alone, and of a body that is a byte longer.
    fn resize<R: Abort + AllocGlobal>(&mut self, rt: &R, body: &[u8]) {
        let shorter = &body[..body.len().saturating_sub(1)];
        self.add(rt, shorter, Refusal::BadLength);
        self.add(rt, &body[..body.len().min(1)], Refusal::BadLength);
        self.add(rt, &joined(rt, body, b"\0"), Refusal::BadLength);
    }

    /// Frames of several lengths of a type that is none.
    fn misname<R: Abort + AllocGlobal>(&mut self, rt: &R, kind: u8) {
        for len in [1, 9, 19, 35, 255usize] {
            self.change(rt, &ZEROS[..len.min(255)], 0, &[kind], Refusal::UnknownType);
        }
    }

    /// A frame of a body whose bytes are ones from an offset on, so that each field there with a range is outside of it; and
    /// such frames with a bad length, which comes before a bad field, and with an unknown type, which comes before both.
    fn spoil<R: Abort + AllocGlobal>(&mut self, rt: &R, body: &[u8], at: usize, field: u8) {
        let rest = &ONES[..body.len().saturating_sub(at).min(64)];
        self.change(rt, body, at, rest, Refusal::BadField(field));
        let longer = joined(rt, body, rest);
        self.add(rt, &longer, Refusal::BadLength);
        self.change(rt, &longer, 0, b"\0", Refusal::UnknownType);
    }

    /// A replay answers the stream so, in pieces of a size.
    fn expect_replayed<Rt: Abort + AllocGlobal + Threads + Sync>(&self, rt: &Rt, read: u32) {
        let way = Way {
            read,
            send: 64,
            ..REPLAY
        };
        let answers = self.sent.get(18..).unwrap_or(&[]);
        expect(rt, way, &self.input, b"", Status::Done, answers);
    }

    /// Whether a host has sent the refusals behind the greeting of an empty journal, which it still has.
    fn are_sent(&self, host: &MemoryHost, empty: &[u8]) -> bool {
        let sent = told(host.sent());
        sent.held == Some(0)
            && sent.refused == self.count
            && host.sent() == self.sent.as_slice()
            && host.disk() == empty
    }

    /// A session answers the stream so, in pieces of a size, and an empty journal stays as it is.
    fn expect_served<Rt: Abort + AllocGlobal + Threads + Sync>(
        &self,
        rt: &Rt,
        read: u32,
        empty: &[u8],
    ) {
        let way = Way {
            read,
            send: 64,
            ..SERVE
        };
        let host = ran(rt, way, &self.input, empty, Status::Done);
        assert!(rt; self.are_sent(&host, empty));
    }

    /// Both commands answer the stream so, in pieces of each size.
    fn expect<Rt: Abort + AllocGlobal + Threads + Sync>(&self, rt: &Rt) {
        let empty = fresh(rt, 9);
        for read in [1, 7, 300, 65_536] {
            self.expect_replayed(rt, read);
            self.expect_served(rt, read, &empty);
        }
    }
}

fn is_record(body: &[u8]) -> bool {
    decode(&body[..body.len().min(255)]).is_ok()
}

/// Frames of bodies of each type that are a byte shorter or longer.
fn resize_all<R: Abort + AllocGlobal>(rt: &R, refusals: &mut Refusals) {
    refusals.add(rt, &[], Refusal::BadLength);
    for kind in KINDS {
        let body = body_of(kind);
        assert!(rt; is_record(body));
        refusals.resize(rt, body);
    }
}

#[test]
fn a_body_of_each_type_that_is_a_byte_shorter_or_longer_has_a_bad_length(rt: HostRuntime) {
    let mut refusals = Refusals::new(&rt);
    resize_all(&rt, &mut refusals);
    refusals.expect(&rt);
}

/// Frames of types that are none.
fn misname_all<R: Abort + AllocGlobal>(rt: &R, refusals: &mut Refusals) {
    for kind in [0, 10, 17, 129, 255u8] {
        refusals.misname(rt, kind);
    }
}

#[test]
fn a_type_that_is_none_is_refused_at_any_length(rt: HostRuntime) {
    let mut refusals = Refusals::new(&rt);
    misname_all(&rt, &mut refusals);
    refusals.expect(&rt);
}

/// Kinds, offsets, how many bytes say a value there, values outside the range, and the fields.
const OUTSIDE: [(Kind, usize, usize, u64, u8); 35] = [
    (Day, 9, 2, 1999, 2),
    (Day, 9, 2, 2100, 2),
    (Day, 11, 1, 0, 3),
    (Day, 11, 1, 13, 3),
    (Day, 12, 1, 0, 4),
    (Day, 12, 1, 31, 4),
    (Day, 11, 2, 0x02_1e, 4),
    (Day, 13, 1, 0, 5),
    (Day, 13, 1, 3, 5),
    (Day, 14, 1, 0, 6),
    (Day, 14, 1, 3, 6),
    (Day, 15, 4, 0, 7),
    (Day, 15, 4, HIGH, 7),
    (Listing, 9, 8, 0, 2),
    (Listing, 9, 1, 0x20, 2),
    (Listing, 9, 1, 0x7f, 2),
    (Listing, 10, 1, 0, 2),
    (Listing, 16, 1, 0x44, 2),
    (Listing, 17, 1, 0, 3),
    (Listing, 17, 1, 3, 3),
    (Listing, 18, 1, 9, 4),
    (Listing, 18, 1, 51, 4),
    (Listing, 19, 8, DEAR, 5),
    (Trade, 15, 8, 0, 4),
    (Trade, 15, 8, DEAR, 4),
    (Trade, 27, 2, 1024, 6),
    (Quote, 11, 8, DEAR, 3),
    (Quote, 19, 8, DEAR, 4),
    (IndexTick, 9, 4, 0, 2),
    (IndexTick, 9, 4, HIGH, 2),
    (Notice, 11, 1, 0, 3),
    (Notice, 11, 1, 5, 3),
    (Indication, 11, 8, 0, 3),
    (Indication, 11, 8, DEAR, 3),
    (Indication, 19, 1, 3, 4),
];

/// Frames of moments behind the last one of a day.
fn write_late<R: Abort + AllocGlobal>(rt: &R, refusals: &mut Refusals) {
    for kind in KINDS {
        refusals.write(rt, kind, 1, 8, LATE, 1);
        refusals.write(rt, kind, 1, 8, u64::MAX, 1);
    }
}

/// Frames of other values outside the ranges of their fields.
fn write_outside<R: Abort + AllocGlobal>(rt: &R, refusals: &mut Refusals) {
    for (kind, at, width, value, field) in OUTSIDE {
        refusals.write(rt, kind, at, width, value, field);
    }
}

#[test]
fn a_value_outside_the_range_of_its_field_is_told_with_the_field(rt: HostRuntime) {
    let mut refusals = Refusals::new(&rt);
    write_late(&rt, &mut refusals);
    write_outside(&rt, &mut refusals);
    refusals.expect(&rt);
}

/// Kinds, the first byte of a field with a range, and the field.
const FIRST_FAULTS: [(Kind, usize, u8); 26] = [
    (Day, 1, 1),
    (Day, 9, 2),
    (Day, 11, 3),
    (Day, 12, 4),
    (Day, 13, 5),
    (Day, 14, 6),
    (Day, 15, 7),
    (Listing, 1, 1),
    (Listing, 9, 2),
    (Listing, 17, 3),
    (Listing, 18, 4),
    (Listing, 19, 5),
    (Trade, 1, 1),
    (Trade, 9, 4),
    (Trade, 23, 6),
    (Cancel, 1, 1),
    (Quote, 1, 1),
    (Quote, 9, 3),
    (Quote, 19, 4),
    (IndexTick, 1, 1),
    (IndexTick, 9, 2),
    (Notice, 1, 1),
    (Notice, 9, 3),
    (Indication, 1, 1),
    (Indication, 9, 3),
    (Indication, 19, 4),
];

/// Frames of bodies with several faults.
fn spoil_all<R: Abort + AllocGlobal>(rt: &R, refusals: &mut Refusals) {
    for (kind, at, field) in FIRST_FAULTS {
        refusals.spoil(rt, body_of(kind), at, field);
    }
}

#[test]
fn of_several_faults_the_first_is_told(rt: HostRuntime) {
    let mut refusals = Refusals::new(&rt);
    spoil_all(&rt, &mut refusals);
    refusals.expect(&rt);
}
