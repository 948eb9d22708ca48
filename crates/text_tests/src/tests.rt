//! Tests of lines: what each record and each message prints, and what a line reads as.

mod bad_frames;
mod details;
mod pictures;
mod streams;
mod words;

use price_core::{Cause, Index, Leverage, OptionalPrice, Price, Tier, Unmatched};
use session_core::{Close, Date, Day, Level, Moment, Phase, Profile};
use std::alloc::Global;
use std::process::Abort;
use std::test::Fail;
use text_core::{BadLine, print_frame, print_record, read_frame, read_record};
use wire_in::{NoticeKind, Record};
use wire_out::{Frame, Message, ShortKind, Stamped};

/// Whether a line is read as that record, and is what is printed for it.
fn is_line_of(alloc: Global, line: &str, record: Record) -> bool {
    let Ok(read) = read_record(line.as_bytes()) else {
        return false;
    };
    match print_record(alloc, &read) {
        Ok(printed) => read == record && printed.as_str() == line,
        Err(_) => false,
    }
}

/// Whether a line is read as that frame, and is what is printed for it.
fn is_line_of_frame(alloc: Global, line: &str, frame: Frame) -> bool {
    let Ok(read) = read_frame(line.as_bytes()) else {
        return false;
    };
    match print_frame(alloc, &read) {
        Ok(printed) => read == frame && printed.as_str() == line,
        Err(_) => false,
    }
}

/// Each line is that of its record.
fn expect_records<R: Abort + AllocGlobal>(rt: &R, rows: &[(&str, Record)]) {
    for (line, record) in rows {
        assert!(rt; is_line_of(rt.alloc(), line, *record), "{line}");
    }
}

/// Each line is that of its frame.
fn expect_frames<R: Abort + AllocGlobal>(rt: &R, rows: &[(&str, Frame)]) {
    for (line, frame) in rows {
        assert!(rt; is_line_of_frame(rt.alloc(), line, *frame), "{line}");
    }
}

/// The day 2024-06-03 at 04:00:00, after an index close of 5,000.00.
fn day(close: Close, profile: Profile) -> Result<Record, Fail> {
    let date = Date::of(2024, 6, 3)?;
    Ok(Record::Day {
        moment: Moment::new(14_400_000_000_000)?,
        day: Day {
            date,
            close,
            profile,
        },
        index_close: Index::new(500_000)?,
    })
}

#[test]
fn the_line_of_a_day(rt: HostRuntime) -> Result<(), Fail> {
    expect_records(
        &rt,
        &[
            (
                "day 04:00:00.000000000 2024-06-03 regular since18 5000.00",
                day(Close::Regular, Profile::Since18)?,
            ),
            (
                "day 04:00:00.000000000 2024-06-03 early since18 5000.00",
                day(Close::Early, Profile::Since18)?,
            ),
            (
                "day 04:00:00.000000000 2024-06-03 regular before18 5000.00",
                day(Close::Regular, Profile::Before18)?,
            ),
        ],
    );
    Ok(())
}

#[test]
fn the_line_of_a_listing(rt: HostRuntime) -> Result<(), Fail> {
    let moment = Moment::new(14_400_000_000_000)?;
    expect_records(
        &rt,
        &[
            (
                "listing 04:00:00.000000000 ABC tier1 10 50.0000",
                Record::Listing {
                    moment,
                    name: *b"ABC\0\0\0\0\0",
                    tier: Tier::One,
                    leverage: Leverage::new(10)?,
                    close: Some(Price::new(500_000)?),
                },
            ),
            (
                "listing 04:00:00.000000000 ABCDEFGH tier2 30 -",
                Record::Listing {
                    moment,
                    name: *b"ABCDEFGH",
                    tier: Tier::Two,
                    leverage: Leverage::new(30)?,
                    close: None,
                },
            ),
        ],
    );
    Ok(())
}

#[test]
fn the_lines_of_trades_and_quotes(rt: HostRuntime) -> Result<(), Fail> {
    let moment = Moment::new(86_399_999_999_999)?;
    let price = Price::new(500_001)?;
    expect_records(
        &rt,
        &[
            (
                "trade 23:59:59.999999999 65535 4294967295 50.0001 100 03ff",
                Record::Trade {
                    moment,
                    symbol: 65535,
                    number: 4_294_967_295,
                    price,
                    size: 100,
                    flags: 0x03ff,
                },
            ),
            (
                "cancel 23:59:59.999999999 0 10",
                Record::Cancel {
                    moment,
                    symbol: 0,
                    number: 10,
                },
            ),
            (
                "quote 23:59:59.999999999 7 50.0001 - 100 0",
                Record::Quote {
                    moment,
                    symbol: 7,
                    bid: OptionalPrice::of(Some(price)),
                    offer: OptionalPrice::of(None),
                    bid_size: 100,
                    offer_size: 0,
                },
            ),
        ],
    );
    Ok(())
}

#[test]
fn the_lines_of_the_other_records(rt: HostRuntime) -> Result<(), Fail> {
    let moment = Moment::new(34_200_000_000_001)?;
    expect_records(
        &rt,
        &[
            (
                "index 09:30:00.000000001 4650.01",
                Record::IndexTick {
                    moment,
                    value: Index::new(465_001)?,
                },
            ),
            ("clock 09:30:00.000000001", Record::Clock { moment }),
            (
                "notice 09:30:00.000000001 3 pausenow",
                Record::Notice {
                    moment,
                    symbol: 3,
                    kind: NoticeKind::PauseNow,
                },
            ),
            (
                "indication 09:30:00.000000001 3 0.0001 sell",
                Record::Indication {
                    moment,
                    symbol: 3,
                    price: Price::new(1)?,
                    unmatched: Unmatched::Sell,
                },
            ),
        ],
    );
    Ok(())
}

/// Lines that print no record.
const NO_RECORDS: &[&str] = &[
    "",
    " ",
    "clock",
    "clock 9:30:00.000000000",
    "clock 09:30:00",
    "clock 24:00:00.000000000",
    "clock 09:60:00.000000000",
    "clock  09:30:00.000000000",
    " clock 09:30:00.000000000",
    "clock 09:30:00.000000000 ",
    "clock 09:30:00.000000000\r",
    "clock 09:30:00.000000000 0",
    "Clock 09:30:00.000000000",
    "cancel 09:30:00.000000000 65536 1",
    "cancel 09:30:00.000000000 00 1",
    "cancel 09:30:00.000000000 0 01",
    "cancel 09:30:00.000000000 0 +1",
    "cancel 09:30:00.000000000 0 4294967296",
    "cancel 09:30:00.000000000 0 18446744073709551617",
    "day 04:00:00.000000000 2024-02-30 regular since18 5000.00",
    "day 04:00:00.000000000 2024-06-03 regular before19 5000.00",
    "day 04:00:00.000000000 2024-06-03 regular - 5000.00",
    "day 04:00:00.000000000 2024-6-3 regular since18 5000.00",
    "listing 04:00:00.000000000 ABCDEFGHI tier1 10 -",
    "listing 04:00:00.000000000 ABC tier1 9 -",
    "indication 09:30:00.000000000 0 0.0000 buy",
    "indication 09:30:00.000000000 0 50.00 buy",
    "indication 09:30:00.000000000 0 050.0000 buy",
    "indication 09:30:00.000000000 0 - buy",
    "quote 09:30:00.000000000 0 0.0000 - 0 0",
    "trade 09:30:00.000000000 0 1 50.0000 100 0400",
    "trade 09:30:00.000000000 0 1 50.0000 100 03FF",
    "trade 09:30:00.000000000 0 1 50.0000 100 3ff",
];

#[test]
fn a_line_that_prints_no_record_is_refused(rt: HostRuntime) {
    for line in NO_RECORDS {
        assert!(rt; read_record(line.as_bytes()) == Err(BadLine), "{line}");
    }
}

#[test]
fn the_lines_of_answers(rt: HostRuntime) {
    expect_frames(
        &rt,
        &[
            (
                "hello 0 0",
                Frame::Hello {
                    inputs: 0,
                    messages: 0,
                },
            ),
            (
                "ack 18446744073709551615",
                Frame::Ack {
                    input: 18_446_744_073_709_551_615,
                },
            ),
            (
                "refused 12 3 7",
                Frame::Refused {
                    frame_number: 12,
                    code: 3,
                    field: 7,
                },
            ),
        ],
    );
}

/// A message of that moment, the fifth one.
fn fifth(moment: Moment, message: Message) -> Frame {
    let stamped = Stamped { moment, message };
    Frame::Numbered { number: 5, stamped }
}

#[test]
fn the_lines_of_messages_without_a_price(rt: HostRuntime) -> Result<(), Fail> {
    let moment = Moment::new(36_000_000_000_000)?;
    let name = *b"ABC\0\0\0\0\0";
    let phase = Phase::LimitLow;
    let kind = ShortKind::Carried;
    let on = false;
    expect_frames(
        &rt,
        &[
            (
                "5 10:00:00.000000000 listed 2 ABC",
                fifth(moment, Message::Listed { symbol: 2, name }),
            ),
            (
                "5 10:00:00.000000000 state 2 limitlow",
                fifth(moment, Message::State { symbol: 2, phase }),
            ),
            (
                "5 10:00:00.000000000 straddle 2 off",
                fifth(moment, Message::Straddle { symbol: 2, on }),
            ),
            (
                "5 10:00:00.000000000 short 2 carried",
                fifth(moment, Message::Short { symbol: 2, kind }),
            ),
            (
                "5 10:00:00.000000000 marketresume",
                fifth(moment, Message::MarketResume),
            ),
        ],
    );
    Ok(())
}

#[test]
fn the_lines_of_messages_with_a_price(rt: HostRuntime) -> Result<(), Fail> {
    let moment = Moment::new(36_000_000_000_000)?;
    let (lower, price, upper) = (
        Price::new(475_000)?,
        Price::new(500_000)?,
        Price::new(525_000)?,
    );
    let band = Message::Band {
        symbol: 2,
        cause: Cause::Moved,
        reference: price,
        lower,
        upper,
    };
    let collar = Message::Collar {
        symbol: 2,
        round: 1,
        lower,
        upper,
    };
    let release = Message::Release { symbol: 2, price };
    let breaker = Message::Breaker {
        level: Level::One,
        index: Index::new(465_000)?,
    };
    expect_frames(
        &rt,
        &[
            (
                "5 10:00:00.000000000 band 2 moved 50.0000 47.5000 52.5000",
                fifth(moment, band),
            ),
            (
                "5 10:00:00.000000000 collar 2 1 47.5000 52.5000",
                fifth(moment, collar),
            ),
            (
                "5 10:00:00.000000000 release 2 50.0000",
                fifth(moment, release),
            ),
            (
                "5 10:00:00.000000000 breaker 1 4650.00",
                fifth(moment, breaker),
            ),
        ],
    );
    Ok(())
}

/// Lines that print no frame.
const NO_FRAMES: &[&str] = &[
    "",
    "hello 0",
    "hello 0 0 0",
    "hello  0 0",
    "ack 0",
    "ack 01",
    "ack 18446744073709551616",
    "refused 0 1 0",
    "refused 1 0 0",
    "refused 1 3 0",
    "refused 1 3 8",
    "refused 1 2 1",
    "refused 1 10 0",
    "0 10:00:00.000000000 marketresume",
    "1 10:00:00.000000000 state 0 LimitLow",
    "1 10:00:00.000000000 state 0 4",
    "1 10:00:00.000000000 breaker 4 4650.00",
    "1 10:00:00.000000000 release 0 0.0000",
    "1 10:00 marketresume",
    "marketresume",
];

#[test]
fn a_line_that_prints_no_frame_is_refused(rt: HostRuntime) {
    for line in NO_FRAMES {
        assert!(rt; read_frame(line.as_bytes()) == Err(BadLine), "{line}");
    }
}
