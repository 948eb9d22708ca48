//! Streams of drawn bytes, in pieces of many sizes.

use super::sent::{first_frame, messages, told};
use super::{REPLAY, SERVE, Way, expect, fresh, ran, reopened_day};
use host_core::Status;
use memory_host::MemoryHost;
use std::process::Abort;
use std::thread::Threads;
use wire_in::Cutter;

/// The sizes of pieces.
const PIECES: [u32; 8] = [1, 2, 13, 64, 255, 256, 299, 300];

/// Numbers that are drawn by a linear congruential generator.
#[derive(Clone, Copy)]
struct Draw {
    state: u64,
}

impl Draw {
    fn byte(&mut self) -> u8 {
        self.state = self
            .state
            .wrapping_mul(6_364_136_223_846_793_005)
            .wrapping_add(1_442_695_040_888_963_407);
        (self.state >> 56) as u8
    }

    /// So many bytes.
    fn bytes<R: Abort + AllocGlobal>(&mut self, rt: &R, count: u64) -> Vec<u8> {
        let mut bytes = Vec::new(rt.alloc());
        for _ in 0..count {
            bytes.push(self.byte()).expect(rt, "memory");
        }
        bytes
    }

    /// A byte, or another one in its place once in 32 times.
    fn harmed_byte(&mut self, byte: u8) -> u8 {
        if self.byte() < 8 { self.byte() } else { byte }
    }

    /// Copies of a stream, one behind the other, of which one byte in 32 is another.
    fn harmed<R: Abort + AllocGlobal>(&mut self, rt: &R, stream: &[u8], copies: u64) -> Vec<u8> {
        let mut bytes = Vec::new(rt.alloc());
        for _ in 0..copies {
            for byte in stream {
                bytes.push(self.harmed_byte(*byte)).expect(rt, "memory");
            }
        }
        bytes
    }
}

/// How many whole frames a stream has, and how a command over it ends.
fn frames_in(stream: &[u8]) -> (u64, Status) {
    let mut rest = stream;
    let mut count = 0u64;
    for _ in 0..stream.len() {
        if let Some((_, after)) = first_frame(rest) {
            rest = after;
            count = count.saturating_add(1);
        }
    }
    let status = if rest.is_empty() {
        Status::Done
    } else {
        Status::Truncated
    };
    (count, status)
}

/// A command answers a stream in pieces of each size as it does as a whole.
fn expect_in_pieces<Rt: Abort + AllocGlobal + Threads + Sync>(
    rt: &Rt,
    way: Way,
    stream: &[u8],
    disk: &[u8],
    sent: &[u8],
) {
    let (_, want) = frames_in(stream);
    for read in PIECES {
        let way = Way {
            read,
            send: 4_096,
            ..way
        };
        expect(rt, way, stream, disk, want, sent);
    }
}

/// Whether two hosts have sent the same and have the same disk.
fn are_alike(one: &MemoryHost, other: &MemoryHost) -> bool {
    one.sent() == other.sent() && one.disk() == other.disk()
}

/// A command by three workers answers a stream as one worker did, and leaves the same disk.
fn expect_by_three<Rt: Abort + AllocGlobal + Threads + Sync>(
    rt: &Rt,
    way: Way,
    stream: &[u8],
    disk: &[u8],
    whole: &MemoryHost,
) {
    let (_, want) = frames_in(stream);
    let host = ran(rt, Way { workers: 3, ..way }, stream, disk, want);
    assert!(rt; are_alike(&host, whole));
}

/// The host after a command that answers a stream, and in any pieces and by three workers alike.
fn answered<Rt: Abort + AllocGlobal + Threads + Sync>(
    rt: &Rt,
    way: Way,
    stream: &[u8],
    disk: &[u8],
) -> MemoryHost {
    let (_, want) = frames_in(stream);
    let whole = ran(rt, way, stream, disk, want);
    expect_in_pieces(rt, way, stream, disk, whole.sent());
    expect_by_three(rt, way, stream, disk, &whole);
    whole
}

/// What the commands send for a stream answers each of its frames, and has the same messages.
fn expect_sent<R: Abort + AllocGlobal>(rt: &R, stream: &[u8], served: &[u8], replayed: &[u8]) {
    let (frames, _) = frames_in(stream);
    let sent = told(served);
    assert!(rt; sent.acknowledged.saturating_add(sent.refused) == frames);
    let are_same = messages(rt, replayed) == messages(rt, served);
    assert!(rt; are_same);
}

/// Each frame of a stream is answered, in any pieces alike.
fn expect_answers<Rt: Abort + AllocGlobal + Threads + Sync>(rt: &Rt, stream: &[u8]) {
    let empty = fresh(rt, 1_000_000);
    let served = answered(rt, SERVE, stream, &empty);
    let replayed = answered(rt, REPLAY, stream, b"");
    expect_sent(rt, stream, served.sent(), replayed.sent());
}

#[test]
fn drawn_bytes_are_answered_frame_by_frame_in_any_pieces(rt: HostRuntime) {
    let mut draw = Draw { state: 3 };
    expect_answers(&rt, &draw.bytes(&rt, 100_000));
}

/// Copies of a day, of which drawn bytes are others.
fn harmed_day<R: Abort + AllocGlobal>(rt: &R, state: u64, copies: u64) -> Vec<u8> {
    let day = reopened_day(rt);
    let mut draw = Draw { state };
    draw.harmed(rt, &day.input, copies)
}

#[test]
fn a_day_with_drawn_harm_is_answered_frame_by_frame_in_any_pieces(rt: HostRuntime) {
    expect_answers(&rt, &harmed_day(&rt, 5, 60));
}

/// Puts the bodies that a piece of a stream ends behind others, each with its length before it.
fn cut<R: Abort>(rt: &R, cutter: &mut Cutter, piece: &[u8], bodies: &mut Vec<u8>) {
    let mut rest = piece;
    for _ in 0..piece.len() {
        let taken = cutter.take(rest);
        rest = &rest[taken.used..];
        if taken.whole {
            bodies.push(cutter.body().len() as u8).expect(rt, "memory");
            bodies.extend_from_slice(cutter.body()).expect(rt, "memory");
        }
    }
}

/// The bodies of a stream that comes in two pieces, each with its length before it.
fn bodies_of_two_pieces<R: Abort + AllocGlobal>(rt: &R, first: &[u8], then: &[u8]) -> Vec<u8> {
    let mut cutter = Cutter::new();
    let mut bodies = Vec::new(rt.alloc());
    cut(rt, &mut cutter, first, &mut bodies);
    cut(rt, &mut cutter, then, &mut bodies);
    bodies
}

/// A stream that comes in two pieces has these bodies, each with its length before it, wherever it is cut.
fn expect_bodies<R: Abort + AllocGlobal>(rt: &R, stream: &[u8], whole: &[u8]) {
    for at in 0..stream.len() {
        let (first, then) = stream.split_at(at);
        let is_same = bodies_of_two_pieces(rt, first, then).as_slice() == whole;
        assert!(rt; is_same, "cut at {at}");
    }
}

#[test]
fn a_stream_that_is_cut_anew_at_any_byte_has_the_same_frames(rt: HostRuntime) {
    let stream = harmed_day(&rt, 7, 4);
    let whole = bodies_of_two_pieces(&rt, &stream, b"");
    assert!(rt; stream.starts_with(&whole));
    expect_bodies(&rt, &stream, &whole);
}
