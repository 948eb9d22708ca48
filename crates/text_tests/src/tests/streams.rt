//! Frames that are printed and lines that are packed, over a host in memory.

use Way::{Pack, Print};
use host_core::{Host, Status};
use memory_host::{Call, MemoryHost};
use std::alloc::Global;
use std::process::Abort;
use std::test::Fail;
use text_core::{Kind, pack_stream, print_stream};

/// What is done with the stream of a host.
#[derive(Clone, Copy)]
enum Way {
    Pack,
    Print,
}

/// A stream: what is done with it, what is sent, and how it ends.
#[derive(Clone, Copy)]
struct Stream<'a> {
    way: Way,
    kind: Kind,
    sent: &'a [u8],
    end: Status,
}

/// The day of the worked session, in one frame.
const DAY: [u8; 20] = [
    19, 1, 0, 0, 0x0d, 0x18, 0xc2, 0xe2, 0x80, 0, 0x07, 0xe8, 6, 3, 1, 2, 0, 0x07, 0xa1, 0x20,
];

/// Its line.
const DAY_LINE: &[u8] = b"day 04:00:00.000000000 2024-06-03 regular since18 5000.00\n";

/// A page of lines, written by hand.
const PAGE: &[u8] = b"day 04:00:00.000000000 2024-06-03 regular since18 5000.00
listing 04:00:00.000000000 ABC tier1 10 50.0000
quote 09:30:00.000000000 0 49.9900 50.0100 100 200
trade 09:30:00.000000001 0 1 50.0000 100 0000
clock 09:30:01.000000000
";

/// A stream of records with its end.
fn ending(way: Way, sent: &[u8], end: Status) -> Stream<'_> {
    Stream {
        way,
        kind: Kind::Records,
        sent,
        end,
    }
}

/// A stream of records to its end.
fn records(way: Way, sent: &[u8]) -> Stream<'_> {
    ending(way, sent, Status::Done)
}

/// Does it with the stream of a host, and tells how it ends.
fn end_of(alloc: Global, host: &mut MemoryHost, way: Way, kind: Kind) -> Status {
    match way {
        Pack => pack_stream(alloc, host, kind),
        Print => print_stream(alloc, host, kind),
    }
}

/// Whether a host gets such a stream, and its disk stays.
fn gives(alloc: Global, host: &mut MemoryHost, stream: Stream<'_>) -> bool {
    let end = end_of(alloc, host, stream.way, stream.kind);
    end == stream.end && host.sent() == stream.sent && host.disk() == b"disk".as_slice()
}

/// An input gives such a stream.
fn expect<R: Abort + AllocGlobal>(rt: &R, input: &[u8], stream: Stream<'_>) -> Result<(), Fail> {
    let mut host = MemoryHost::new(rt.alloc(), input, b"disk")?;
    let is_given = gives(rt.alloc(), &mut host, stream);
    assert!(rt; is_given, "of {} bytes", input.len());
    Ok(())
}

#[test]
fn the_frame_of_a_day_is_printed(rt: HostRuntime) -> Result<(), Fail> {
    expect(&rt, &DAY, records(Print, DAY_LINE))
}

#[test]
fn the_line_of_a_day_is_packed(rt: HostRuntime) -> Result<(), Fail> {
    for len in [57, 58] {
        expect(&rt, &DAY_LINE[..len], records(Pack, &DAY))?;
    }
    Ok(())
}

#[test]
fn an_input_with_nothing_gives_nothing(rt: HostRuntime) -> Result<(), Fail> {
    for way in [Print, Pack] {
        let nothing = Stream {
            way,
            kind: Kind::Published,
            sent: b"",
            end: Status::Done,
        };
        expect(&rt, b"", nothing)?;
    }
    Ok(())
}

/// Cuts what a host moves into pieces of at most so many bytes, where these are told.
fn cut(host: &mut MemoryHost, read: Option<u32>, send: u32) {
    if let Some(read) = read {
        host.pieces(read.max(1), send.max(1));
    }
}

/// A page that is packed, and printed again, is the same page, read in pieces where these are told.
fn expect_again<R: Abort + AllocGlobal>(
    rt: &R,
    kind: Kind,
    page: &[u8],
    read: Option<u32>,
) -> Result<(), Fail> {
    let mut packing = MemoryHost::new(rt.alloc(), page, b"disk")?;
    cut(&mut packing, read, 3);
    let packed = end_of(rt.alloc(), &mut packing, Pack, kind);
    let mut printing = MemoryHost::new(rt.alloc(), packing.sent(), b"disk")?;
    cut(&mut printing, read, 5);
    let stream = Stream {
        way: Print,
        kind,
        sent: page,
        end: Status::Done,
    };
    let is_page = gives(rt.alloc(), &mut printing, stream);
    assert!(rt; packed == Status::Done && is_page, "in pieces of {read:?}");
    Ok(())
}

#[test]
fn a_page_is_packed_and_printed_again_in_pieces_of_any_size(rt: HostRuntime) -> Result<(), Fail> {
    for size in [1, 2, 7, 65_536] {
        expect_again(&rt, Kind::Records, PAGE, Some(size))?;
    }
    Ok(())
}

/// Behind the line of the day another line is bad.
fn expect_bad<R: Abort + AllocGlobal>(rt: &R, line: &[u8]) -> Result<(), Fail> {
    let text = [DAY_LINE, line, b"\n"].concat(rt.alloc())?;
    let end = Status::BadText { line: 2 };
    expect(rt, &text, ending(Pack, &DAY, end))
}

/// Lines that are none of a record.
const BAD_LINES: &[&str] = &[
    "",
    "clock",
    "clock 9:30:00",
    "clocl 04:00:00.000000000",
    "clock 04:00:00.00000000:",
    "clock 04:00:00.00000000",
    "clock 04:00:00.000000000clock 04:00:00.000000000",
    "clock 04:00:00.000000000 ",
    "clock  04:00:00.000000000",
    "clock 04:00:00.000000000\r",
    "clock 24:00:00.000000000",
    "cancel 09:30:00.000000000 0 01",
    "cancel 09:30:00.000000000 65536 1",
    "indication 09:30:00.000000000 0 0.0000 none",
    "day 04:00:00.000000000 2024-02-30 regular since18 5000.00",
    "ack 1",
];

#[test]
fn a_bad_line_ends_the_stream_at_its_number(rt: HostRuntime) -> Result<(), Fail> {
    for line in BAD_LINES {
        expect_bad(&rt, line.as_bytes())?;
    }
    Ok(())
}

#[test]
fn a_bad_frame_ends_the_stream_at_its_number(rt: HostRuntime) -> Result<(), Fail> {
    let frames = [DAY.as_slice(), &[0, 9]].concat(rt.alloc())?;
    let second = ending(Print, DAY_LINE, Status::BadText { line: 2 });
    expect(&rt, &frames, second)?;
    let mut short = DAY;
    short[0] = 18;
    expect(&rt, &short, ending(Print, b"", Status::BadText { line: 1 }))
}

#[test]
fn an_input_that_ends_inside_a_frame_is_truncated(rt: HostRuntime) -> Result<(), Fail> {
    for len in 1..20 {
        expect(&rt, &DAY[..len], ending(Print, b"", Status::Truncated))?;
    }
    Ok(())
}

#[test]
fn a_line_that_goes_on_with_blanks_is_bad(rt: HostRuntime) -> Result<(), Fail> {
    let mut line = [b' '; 300];
    line[..24].copy_from_slice(b"clock 04:00:00.000000000");
    for len in [255, 256, 300] {
        expect_bad(&rt, &line[..len])?;
    }
    Ok(())
}

/// Where such a call of a host fails, an input gives such a stream.
fn expect_failing<R: Abort + AllocGlobal>(
    rt: &R,
    input: &[u8],
    call: Call,
    nth: u64,
    stream: Stream<'_>,
) -> Result<(), Fail> {
    let mut host = MemoryHost::new(rt.alloc(), input, b"disk")?;
    host.fail(call, nth.max(1))?;
    assert!(rt; gives(rt.alloc(), &mut host, stream));
    Ok(())
}

#[test]
fn a_read_that_fails_comes_behind_what_was_read_before(rt: HostRuntime) -> Result<(), Fail> {
    let stream = ending(Print, DAY_LINE, Status::ReadFault);
    expect_failing(&rt, &DAY, Call::Read, 2, stream)
}

#[test]
fn a_send_that_fails_ends_the_stream(rt: HostRuntime) -> Result<(), Fail> {
    let stream = ending(Pack, b"", Status::SendFault);
    expect_failing(&rt, DAY_LINE, Call::Send, 1, stream)
}

#[test]
fn published_frames_are_packed_and_printed_again(rt: HostRuntime) -> Result<(), Fail> {
    let page = b"hello 0 0\nack 1\nrefused 2 9 0\n";
    expect_again(&rt, Kind::Published, page, None)
}
