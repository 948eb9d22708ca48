//! Days that are generated, and their first records.

ghost use Rattle.gen_core.specs.Generated.{IsPlan};
ghost use Rattle.wire_in.specs.Spelling.{InRange};

use super::{CLOCKS, USUAL};
use gen_core::{DayPlan, Generator, send_day};
use host_core::Status;
use memory_host::{Call, MemoryHost};
use price_core::Tier;
use std::alloc::Global;
use std::process::Abort;
use std::test::Fail;
use wire_in::{Record, encode};

/// Two symbols and no records.
const EMPTY: DayPlan = DayPlan {
    seed: 1,
    symbols: 2,
    records: 0,
};

/// Three symbols and ten records.
const SMALL: DayPlan = DayPlan {
    seed: 1,
    symbols: 3,
    records: 10,
};

/// How many records of each kind were given.
#[derive(Clone, Copy, PartialEq, Eq)]
struct Counts {
    records: u32,
    listings: u32,
    clocks: u32,
    trades: u32,
    opening_trades: u32,
}

/// Counts one record more.
fn count(counts: &mut Counts, record: &Record) {
    counts.records = counts.records.wrapping_add(1);
    match *record {
        Record::Listing { .. } => counts.listings = counts.listings.wrapping_add(1),
        Record::Clock { .. } => counts.clocks = counts.clocks.wrapping_add(1),
        Record::Trade { flags, .. } => {
            counts.trades = counts.trades.wrapping_add(1);
            counts.opening_trades = counts.opening_trades.wrapping_add(u32::from(flags));
        }
        _ => {}
    }
}

/// A whole day has these records, and no other.
fn expect_counts<R: Abort + AllocGlobal>(rt: &R, plan: &DayPlan, want: Counts) -> Result<(), Fail>
    requires { IsPlan plan.now }
{
    let mut generator = Generator::new(rt.alloc(), plan)?;
    let mut counts = Counts {
        records: 0,
        listings: 0,
        clocks: 0,
        trades: 0,
        opening_trades: 0,
    };
    for _ in 0..want.records {
        if let Some(record) = generator.next() {
            count(&mut counts, &record);
        }
    }
    assert!(rt; counts == want && generator.next().is_none());
    Ok(())
}

// The counts and values of these tests are those of this program, which draws the days by itself:
//   def day(x, symbols, records):
//     seen, gap = set(), 23400000000000 // records
//     def draw(): nonlocal x; x = (x * 6364136223846793005 + 1442695040888963407) % 2**64; return x >> 33
//     for k in range(records):
//       t = 34200000000000 + k * gap
//       if k == 0 or t // 10**9 != (t - gap) // 10**9: yield k, t, "clock"; continue
//       kind = draw() % 16
//       if kind == 0: yield k, t, "index", 500000 - draw() % 36000; continue
//       s = draw() % symbols; c = 200000 + 100 * s
//       if kind < 10: m = c - 6 * c // 100 + draw() % (12 * c // 100 + 1); yield k, t, "quote", s, m - 100, m + 100
//       else: yield k, t, "trade", s, c - c // 25 + draw() % (2 * (c // 25) + 1), int(s not in seen); seen.add(s)

#[test]
fn a_usual_day_has_400_501_records_and_one_opening_trade_a_symbol(
    rt: HostRuntime,
) -> Result<(), Fail> {
    expect_counts(
        &rt,
        &USUAL,
        Counts {
            records: 400_501,
            listings: 500,
            clocks: 23_400,
            trades: 141_314,
            opening_trades: 500,
        },
    )
}

#[test]
fn a_day_of_six_records_is_all_clocks(rt: HostRuntime) -> Result<(), Fail> {
    expect_counts(
        &rt,
        &CLOCKS,
        Counts {
            records: 9,
            listings: 2,
            clocks: 6,
            trades: 0,
            opening_trades: 0,
        },
    )
}

/// Whether the record is the listing of a symbol below ten.
fn is_listing(record: &Record, last: u8, own_tier: Tier, units: u64) -> bool {
    match *record {
        Record::Listing {
            name,
            tier,
            close: Some(close),
            ..
        } => {
            name == [b'S', b'0', b'0', b'0', b'0', last, 0, 0]
                && tier == own_tier
                && close.units() == units
        }
        _ => false,
    }
}

/// Whether the record is the day.
fn is_day(record: &Record) -> bool {
    match *record {
        Record::Day {
            moment,
            day,
            index_close,
        } => {
            moment.nanos() == 14_400_000_000_000
                && day.date.year() == 2024
                && day.date.month() == 6
                && day.date.day() == 3
                && index_close.hundredths() == 500_000
        }
        _ => false,
    }
}

/// Whether the record is the one at that index of the day without records.
fn is_given(index: u32, record: &Record) -> bool {
    match index {
        0 => is_day(record),
        1 => is_listing(record, b'0', Tier::One, 200_000),
        _ => is_listing(record, b'1', Tier::Two, 200_100),
    }
}

#[test]
fn a_day_without_records_is_the_day_and_its_listings(rt: HostRuntime) -> Result<(), Fail> {
    let mut generator = Generator::new(rt.alloc(), &EMPTY)?;
    for index in 0..3u32 {
        let record = generator.next().ok_or("a record is missing")?;
        assert!(rt; is_given(index, &record));
    }
    assert!(rt; generator.next().is_none());
    Ok(())
}

/// Whether the record is the one that the script draws at that index of the usual day.
fn is_drawn(index: u32, record: &Record) -> bool {
    let nanos = record.moment().nanos();
    match (index, *record) {
        (501, Record::Clock { .. }) => nanos == 34_200_000_000_000,
        (
            502,
            Record::Quote {
                symbol,
                bid,
                offer,
                ..
            },
        ) => {
            nanos == 34_200_058_500_000
                && symbol == 153
                && bid.units() == 213_385
                && offer.units() == 213_585
        }
        (
            504,
            Record::Trade {
                symbol,
                number,
                price,
                flags,
                ..
            },
        ) => { symbol == 402 && number == 3 && price.units() == 243_835 && flags == 1 }
        (511, Record::IndexTick { value, .. }) => value.hundredths() == 464_879,
        (512, Record::IndexTick { value, .. }) => value.hundredths() == 483_393,
        (519, Record::Clock { .. }) => nanos == 34_201_053_000_000,
        (520, Record::Quote { symbol, .. }) => symbol == 22,
        (501 | 502 | 504 | 511 | 512 | 519 | 520, _) => false,
        _ => true,
    }
}

#[test]
fn the_first_records_are_those_that_a_script_draws(rt: HostRuntime) -> Result<(), Fail> {
    let mut generator = Generator::new(rt.alloc(), &USUAL)?;
    for index in 0..540u32 {
        let record = generator.next().ok_or("a record is missing")?;
        assert!(rt; is_drawn(index, &record));
    }
    Ok(())
}

/// Adds the frame of a record.
fn add(bytes: &mut Vec<u8>, record: &Record) -> Result<(), Fail>
    requires { InRange record.now }
{
    let mut cell = [0; 64];
    let len = encode(record, &mut cell);
    bytes.extend_from_slice(&cell[..len])?;
    Ok(())
}

/// Adds the frames of the small day, as its generator gives the records.
fn add_frames(alloc: Global, bytes: &mut Vec<u8>) -> Result<(), Fail> {
    let mut generator = Generator::new(alloc, &SMALL)?;
    for _ in 0..14u32 {
        if let Some(record) = generator.next() {
            add(bytes, &record)?;
        }
    }
    Ok(())
}

/// The frame of its day.
const DAY: [u8; 20] = [
    19, 1, 0, 0, 0x0d, 0x18, 0xc2, 0xe2, 0x80, 0, 0x07, 0xe8, 6, 3, 1, 2, 0, 0x07, 0xa1, 0x20,
];

#[test]
fn a_day_is_sent_frame_by_frame(rt: HostRuntime) -> Result<(), Fail> {
    let mut wanted = Vec::new(rt.alloc());
    add_frames(rt.alloc(), &mut wanted)?;
    let mut host = MemoryHost::new(rt.alloc(), b"input", b"disk")?;
    host.pieces(1, 7);
    let status = send_day(rt.alloc(), &mut host, &SMALL);
    let is_kept = host.disk() == b"disk".as_slice();
    assert!(rt; status == Status::Done && host.sent() == wanted.as_slice() && is_kept);
    assert!(rt; wanted.len() == 20 + 3 * 28 + 10 * 10 && wanted.starts_with(&DAY));
    Ok(())
}

#[test]
fn a_send_that_fails_ends_a_day(rt: HostRuntime) -> Result<(), Fail> {
    let mut wanted = Vec::new(rt.alloc());
    add_frames(rt.alloc(), &mut wanted)?;
    let mut host = MemoryHost::new(rt.alloc(), b"", b"")?;
    host.pieces(1, 7);
    host.fail(Call::Send, 4)?;
    let status = send_day(rt.alloc(), &mut host, &SMALL);
    let is_cut = wanted.starts_with(host.sent()) && host.sent().len() < wanted.len();
    assert!(rt; status == Status::SendFault && is_cut);
    Ok(())
}
