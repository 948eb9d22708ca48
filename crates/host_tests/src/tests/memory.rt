//! The host in memory: its pieces, its faults, and what a stop leaves.

use Step::{
    Calls, DiskLen, DiskRead, DiskSync, DiskWrite, HasDisk, HasSent, ReadInput, Send, SendAll,
    Starved,
};
use host_core::{Failed, Host, send_all};
use memory_host::{Call, MemoryHost, Pick};
use std::process::Abort;

/// A call of a host in memory with what it has to answer, or what the host has to tell. Offsets and lengths are in bytes.
#[derive(Clone, Copy)]
enum Step<'a> {
    /// A read into the first bytes of a buffer, as many as these, which it then holds.
    ReadInput(Result<usize, Failed>, &'a [u8]),
    Send(&'a [u8], Result<usize, Failed>),
    SendAll(&'a [u8]),
    DiskLen(Result<u64, Failed>),
    DiskRead(u32, &'a [u8]),
    DiskWrite(u32, &'a [u8], Result<(), Failed>),
    DiskSync(Result<(), Failed>),
    HasDisk(&'a [u8]),
    HasSent(&'a [u8]),
    /// How many calls there were.
    Calls(u64),
    /// How many calls found no memory.
    Starved(u64),
}

/// Whether a read of the input into a buffer answers that, and leaves these bytes there.
fn reads(
    host: &mut MemoryHost,
    into: &mut [u8; 4],
    answer: Result<usize, Failed>,
    wanted: &[u8],
) -> bool {
    let into = &mut into[..wanted.len().min(4)];
    !into.is_empty() && host.read_input(into) == answer && *into == *wanted
}

/// Whether a read of the disk gives these bytes.
fn reads_disk(host: &mut MemoryHost, into: &mut [u8; 4], at: u32, wanted: &[u8]) -> bool {
    let into = &mut into[..wanted.len().min(4)];
    let end = u64::from(at) + into.len() as u64;
    end <= host.disk().len() as u64
        && host.disk_read(u64::from(at), into) == Ok(())
        && *into == *wanted
}

/// Whether a write of the disk answers that.
fn writes_disk(host: &mut MemoryHost, at: u32, bytes: &[u8], answer: Result<(), Failed>) -> bool {
    at as usize <= host.disk().len() && host.disk_write(u64::from(at), bytes) == answer
}

/// Whether a host tells that.
fn tells(host: &MemoryHost, step: Step<'_>) -> bool {
    match step {
        HasDisk(wanted) => host.disk() == wanted,
        HasSent(wanted) => host.sent() == wanted,
        Calls(wanted) => host.calls() == wanted,
        Starved(wanted) => host.starved() == wanted,
        _ => false,
    }
}

/// Whether a host answers or tells what is wanted.
fn is_met(host: &mut MemoryHost, into: &mut [u8; 4], step: Step<'_>) -> bool {
    match step {
        ReadInput(answer, wanted) => reads(host, into, answer, wanted),
        Send(piece, answer) => !piece.is_empty() && host.send(piece) == answer,
        SendAll(piece) => send_all(host, piece) == Ok(()),
        DiskLen(answer) => host.disk_len() == answer,
        DiskRead(at, wanted) => reads_disk(host, into, at, wanted),
        DiskWrite(at, bytes, answer) => writes_disk(host, at, bytes, answer),
        DiskSync(answer) => host.disk_sync() == answer,
        _ => tells(host, step),
    }
}

/// Takes the steps one after the other, with one buffer of four bytes.
fn play<R: Abort>(rt: &R, host: &mut MemoryHost, steps: &[Step<'_>]) {
    let mut into = [0; 4];
    for (place, step) in steps.iter().enumerate() {
        assert!(rt; is_met(host, &mut into, *step), "step {place}");
    }
}

/// A host in memory over an input and a disk.
fn host_over<R: Abort + AllocGlobal>(rt: &R, input: &[u8], disk: &[u8]) -> MemoryHost {
    MemoryHost::new(rt.alloc(), input, disk).expect(rt, "memory")
}

/// In pieces of two bytes read and three sent.
const PIECES: &[Step<'static>] = &[
    ReadInput(Ok(2), b"ab\0\0"),
    ReadInput(Ok(2), b"cd\0\0"),
    ReadInput(Ok(1), b"ed\0\0"),
    ReadInput(Ok(0), b"ed\0\0"),
    Send(b"hello", Ok(3)),
    SendAll(b"stacks"),
    HasSent(b"helstacks"),
    Calls(7),
    Starved(0),
];

#[test]
fn reads_and_sends_are_cut_into_pieces(rt: HostRuntime) {
    let mut host = host_over(&rt, b"abcde", b"");
    host.pieces(2, 3);
    play(&rt, &mut host, PIECES);
}

/// The second read, the first send, and each call from the seventh on fail.
const FAILING: &[Step<'static>] = &[
    ReadInput(Ok(1), b"a\0"),
    ReadInput(Err(Failed), b"a\0"),
    ReadInput(Ok(1), b"b\0"),
    Send(b"q", Err(Failed)),
    Send(b"r", Ok(1)),
    DiskLen(Ok(3)),
    DiskLen(Err(Failed)),
    DiskSync(Err(Failed)),
    HasSent(b"r"),
    Starved(0),
];

#[test]
fn the_calls_that_were_asked_to_fail_do(rt: HostRuntime) {
    let mut host = host_over(&rt, b"abc", b"xyz");
    host.pieces(1, 1);
    host.fail(Call::Read, 2).expect(&rt, "memory");
    host.fail(Call::Send, 1).expect(&rt, "memory");
    host.stop_at(7);
    play(&rt, &mut host, FAILING);
}

/// A synced write, one that is not synced and goes past the end, and one that fails.
const WRITES: &[Step<'static>] = &[
    DiskWrite(2, b"XY", Ok(())),
    DiskSync(Ok(())),
    HasDisk(b"abXYef"),
    DiskWrite(4, b"12345", Ok(())),
    DiskWrite(0, b"Q", Err(Failed)),
    HasDisk(b"abXY12345"),
];

/// What stands on the disk that a crash leaves: with no write that was not synced, with all of them, and with other bytes in
/// their place, over an input.
const OLD: &[Step<'static>] = &[HasDisk(b"abXYef")];

const NEW: &[Step<'static>] = &[HasDisk(b"QbXY12345")];

const TORN: &[Step<'static>] = &[
    HasDisk(b"UbXYUUUUU"),
    ReadInput(Ok(2), b"in\0"),
    DiskRead(2, b"XYU"),
];

/// Takes steps over what a crash leaves.
fn play_after<R: Abort>(rt: &R, host: &MemoryHost, pick: Pick, steps: &[Step<'_>]) {
    let mut next = host.crash(pick, b"in").expect(rt, "memory");
    play(rt, &mut next, steps);
}

#[test]
fn a_crash_leaves_the_picked_bytes(rt: HostRuntime) {
    let mut host = host_over(&rt, b"", b"abcdef");
    host.fail(Call::Write, 3).expect(&rt, "memory");
    play(&rt, &mut host, WRITES);
    play_after(&rt, &host, Pick::Old, OLD);
    play_after(&rt, &host, Pick::New, NEW);
    play_after(&rt, &host, Pick::Bytes(b'U'), TORN);
}
