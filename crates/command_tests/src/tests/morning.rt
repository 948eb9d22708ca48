//! A morning of many stocks.

use super::{copied, fresh, host, put, run, runs, session};
use host_core::Status;
use price_core::Tier;
use session_core::Moment;
use std::process::Abort;
use std::thread::Threads;
use test_days::lines::{Line, at, clock, day, listing_of, name_of, quote_of, tick, trade_of};

/// How many stocks are listed.
const STOCKS: u16 = 500;

/// The moment that many seconds after 09:30:00.
fn after_open<R: Abort>(rt: &R, seconds: u64) -> Moment {
    let nanos = seconds.min(20_000) * 1_000_000_000 + 34_200_000_000_000;
    Moment::new(nanos).expect(rt, "a moment")
}

/// What comes for a stock in its second: a quote and a trade.
fn put_stock<R: Abort>(rt: &R, lines: &mut Vec<Line>, symbol: u16, t: Moment) {
    let of_stock = [
        quote_of(symbol, t, 499_900, 500_100),
        trade_of(symbol, t, 2, 500_500, 0),
    ];
    put(rt, lines, &of_stock);
}

/// What comes in a second but its clock and a stock's lines: a limit state and a breaker.
fn put_event<R: Abort>(rt: &R, lines: &mut Vec<Line>, second: u64, t: Moment) {
    match second {
        600 => put(rt, lines, &[quote_of(7, t, 474_900, 475_000)]),
        640 => put(rt, lines, &[tick(t, 465_000)]),
        _ => {}
    }
}

/// What comes in each second from 09:30:01 on: a clock, one stock after the other, a limit state and a breaker.
fn put_seconds<R: Abort>(rt: &R, lines: &mut Vec<Line>) {
    for second in 1..=9_000u64 {
        let t = after_open(rt, second);
        put(rt, lines, &[clock(t)]);
        if second <= u64::from(STOCKS) {
            put_stock(rt, lines, (second - 1) as u16, t);
        }
        put_event(rt, lines, second, t);
    }
}

/// The listing of each stock at 04:00:00.
fn put_listings<R: Abort>(rt: &R, lines: &mut Vec<Line>) {
    let early = at(4, 0, 0);
    for symbol in 0..STOCKS {
        let listing = listing_of(early, name_of(symbol), Tier::One, 10, 500_000);
        put(rt, lines, &[listing]);
    }
}

/// The opening trade of each stock at 09:30:00.
fn put_openings<R: Abort>(rt: &R, lines: &mut Vec<Line>) {
    let open = at(9, 30, 0);
    for symbol in 0..STOCKS {
        put(rt, lines, &[trade_of(symbol, open, 1, 500_000, 1)]);
    }
}

/// 500 listings and opening trades, a quote and a trade in each, a clock each second from 09:30:00 to 12:00:00, with a limit
/// state and a breaker. What they give isn't told.
fn morning<R: Abort + AllocGlobal>(rt: &R) -> Vec<Line> {
    let mut lines = Vec::new(rt.alloc());
    put(rt, &mut lines, &[day(3)]);
    put_listings(rt, &mut lines);
    put(rt, &mut lines, &[clock(at(9, 30, 0))]);
    put_openings(rt, &mut lines);
    put_seconds(rt, &mut lines);
    lines
}

/// Whether a frame that begins at a place is neither a greeting nor an Ack.
fn is_kept(sent: &[u8], begin: usize) -> bool {
    matches!(sent.get(begin.saturating_add(1)), Some(kind) if *kind < 0x81)
}

/// Whether the frames of a session but its greeting and its Acks are these.
fn is_without_acks(sent: &[u8], frames: &[u8]) -> bool {
    let mut place = 0usize;
    let mut left = 0u8;
    let mut keeps = false;
    for (begin, byte) in sent.iter().enumerate() {
        let is_begin = left == 0;
        if is_begin {
            keeps = *byte != 0 && is_kept(sent, begin);
        }
        left = if is_begin {
            *byte
        } else {
            left.saturating_sub(1)
        };
        if keeps && frames.get(place) != Some(byte) {
            return false;
        }
        place = place.saturating_add(usize::from(keeps));
    }
    place == frames.len()
}

/// What the words make a program send for an input over a disk, to a good end.
pub fn sent_by<Rt: Abort + AllocGlobal + Threads + Sync>(
    rt: &Rt,
    words: &[&str],
    disk: &[u8],
    input: &[u8],
) -> Vec<u8> {
    let mut host = host(rt, input, disk);
    let end = run(rt, words, &mut host);
    assert!(rt; end == Status::Done);
    copied(rt, host.sent())
}

/// What is served is what is replayed, with a greeting and an Ack of ten bytes for each record.
fn expect_same<R: Abort>(rt: &R, replayed: &[u8], served: &[u8], records: usize) {
    let is_same = is_without_acks(served, replayed);
    let acks = records.saturating_mul(10).saturating_add(18);
    let is_acknowledged = served.len() == replayed.len().saturating_add(acks);
    // Each stock is listed, opens with bands, is stopped and goes on, one is paused, and one breaker is declared and ends.
    let messages = 500 * (28 + 21 + 45 + 21 + 21) + 21 + 21 + 38 + 23 + 18;
    assert!(rt; is_same && is_acknowledged && replayed.len() == messages);
}

/// A replay and a session by so many workers send this.
fn expect_by<Rt: Abort + AllocGlobal + Threads + Sync>(
    rt: &Rt,
    workers: &str,
    input: &[u8],
    replayed: &[u8],
    served: &[u8],
) {
    let words = ["replay", "--workers", workers];
    runs(rt, &words, b"", input, replayed, Status::Done);
    let words = ["serve", "--workers", workers];
    runs(rt, &words, &fresh(rt), input, served, Status::Done);
}

/// An input of so many records is served as it is replayed, by one worker, by two and by 64.
fn expect_morning<Rt: Abort + AllocGlobal + Threads + Sync>(rt: &Rt, input: &[u8], records: usize) {
    let replayed = sent_by(rt, &["replay"], b"", input);
    let served = sent_by(rt, &["serve"], &fresh(rt), input);
    expect_same(rt, &replayed, &served, records);
    expect_by(rt, "2", input, &replayed, &served);
    expect_by(rt, "64", input, &replayed, &served);
}

#[test]
fn a_morning_of_500_stocks_is_served_as_it_is_replayed(rt: HostRuntime) {
    let lines = morning(&rt);
    let day = session(&rt, &lines);
    expect_morning(&rt, &day.input, lines.len());
}
