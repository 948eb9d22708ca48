//! Frames of each type that are a byte short, a byte long, or have a field out of its range, at `print`.

use Flaw::{Bytes, Late, Long, Short};
use host_core::{Host, Status};
use memory_host::MemoryHost;
use std::alloc::Global;
use std::process::Abort;
use std::test::Fail;
use text_core::{Kind, pack_stream, print_stream};

/// A line of each record.
const RECORDS: &[&str] = &[
    "day 04:00:00.000000000 2024-06-03 regular since18 5000.00",
    "listing 04:00:00.000000000 ABC tier1 10 50.0000",
    "trade 09:30:00.000000000 0 1 50.0000 100 0001",
    "cancel 09:30:00.000000000 0 1",
    "quote 09:30:00.000000000 0 49.9900 50.0100 100 200",
    "index 09:30:00.000000000 4650.01",
    "clock 09:30:00.000000000",
    "notice 09:30:00.000000000 0 halt",
    "indication 09:30:00.000000000 0 50.0000 buy",
];

/// A line of each message.
const MESSAGES: &[&str] = &[
    "1 09:30:00.000000000 listed 0 ABC",
    "1 09:30:00.000000000 state 0 trading",
    "1 09:30:00.000000000 band 0 first 50.0000 47.5000 52.5000",
    "1 09:30:00.000000000 straddle 0 on",
    "1 09:30:00.000000000 collar 0 0 47.5000 52.5000",
    "1 09:30:00.000000000 release 0 50.0000",
    "1 09:30:00.000000000 short 0 triggered",
    "1 09:30:00.000000000 breaker 1 4650.00",
    "1 09:30:00.000000000 marketresume",
];

/// The frame of a line.
fn frame_of(alloc: Global, kind: Kind, line: &str) -> Result<Vec<u8>, Fail> {
    let mut host = MemoryHost::new(alloc, line.as_bytes(), b"")?;
    let _ = pack_stream(alloc, &mut host, kind);
    Ok(host.sent().to_vec(alloc)?)
}

/// A frame with these bytes of its body, so many as its first byte tells.
fn with_length(mut frame: Vec<u8>) -> Vec<u8> {
    let len = frame.len().saturating_sub(1).min(255) as u8;
    if let Some(first) = frame.first_mut() {
        *first = len;
    }
    frame
}

/// What is bad in a frame.
#[derive(Clone, Copy)]
enum Flaw {
    /// It lacks the last byte of its body.
    Short,
    /// It has a further byte of its body.
    Long,
    /// Its moment, which begins at that byte, is behind the day's end.
    Late(usize),
    /// In its place these bytes stand.
    Bytes(&'static [u8]),
}

/// A frame with a flaw.
fn flawed(alloc: Global, frame: &[u8], flaw: Flaw) -> Result<Vec<u8>, Fail> {
    let mut bytes = frame.to_vec(alloc)?;
    match flaw {
        Short => {
            bytes.pop();
        }
        Long => bytes.push(0)?,
        Late(moment) => {
            if let Some(first) = bytes.get_mut(moment) {
                *first = 0xff;
            }
        }
        Bytes(others) => bytes = others.to_vec(alloc)?,
    }
    Ok(with_length(bytes))
}

/// Whether these bytes are bad behind the frame of a line, which alone is printed.
fn is_bad_behind(
    alloc: Global,
    kind: Kind,
    (line, frame): (&str, &[u8]),
    bad: &[u8],
) -> Result<bool, Fail> {
    let input = [frame, bad].concat(alloc)?;
    let mut host = MemoryHost::new(alloc, &input, b"")?;
    let end = print_stream(alloc, &mut host, kind);
    let printed = host.sent().strip_suffix(b"\n");
    Ok(end == Status::BadText { line: 2 } && printed == Some(line.as_bytes()))
}

/// The frame of a line is bad with each of these flaws.
fn expect_bad<R: Abort + AllocGlobal>(
    rt: &R,
    kind: Kind,
    line: &str,
    flaws: &[Flaw],
) -> Result<(), Fail> {
    let alloc = rt.alloc();
    let frame = frame_of(alloc, kind, line)?;
    for flaw in flaws {
        let bad = flawed(alloc, &frame, *flaw)?;
        assert!(rt;
            is_bad_behind(alloc, kind, (line, &frame), &bad)?,
            "{bad:?}"
        );
    }
    Ok(())
}

#[test]
fn a_record_of_each_type_has_its_length_and_its_ranges(rt: HostRuntime) -> Result<(), Fail> {
    for line in RECORDS {
        expect_bad(&rt, Kind::Records, line, &[Short, Long, Late(2)])?;
    }
    Ok(())
}

#[test]
fn a_message_of_each_type_has_its_length_and_its_ranges(rt: HostRuntime) -> Result<(), Fail> {
    for line in MESSAGES {
        expect_bad(&rt, Kind::Published, line, &[Short, Long, Late(10)])?;
    }
    Ok(())
}

#[test]
fn an_answer_of_each_type_has_its_length_and_its_ranges(rt: HostRuntime) -> Result<(), Fail> {
    for line in ["hello 0 0", "ack 1", "refused 1 3 7"] {
        expect_bad(&rt, Kind::Published, line, &[Short, Long])?;
    }
    // The Ack of record 0, and refusals with the code 10 and with the field 8.
    let others = [
        Bytes(b"\x09\x82\0\0\0\0\0\0\0\0"),
        Bytes(b"\x0b\x83\0\0\0\0\0\0\0\x01\x0a\0"),
        Bytes(b"\x0b\x83\0\0\0\0\0\0\0\x01\x03\x08"),
    ];
    expect_bad(&rt, Kind::Published, "ack 1", &others)
}
