//! Tests of sessions that are stopped, that fail, and that are handed bytes that say nothing.

mod damage;
mod drawn;
mod failing;
mod frames;
mod order;
mod sent;
mod standing;
mod stopped;

use host_core::Status;
use journal_core::format;
use live_core::{ServeOptions, serve};
use memory_host::{Call, MemoryHost};
use price_core::{Cause, Unmatched};
use replay_core::{ReplayOptions, replay};
use sent::told;
use session_core::Phase;
use std::process::Abort;
use std::thread::Threads;
use test_days::lines::{Line, at, band, clock, collar, indication, release, state};
use test_days::{Session, paused_day};
use yard_core::OpenGate;

/// The most bytes that a session reads.
const BYTES: u64 = 1_099_511_627_776;

#[derive(Clone, Copy)]
enum Command {
    Serve,
    Replay,
}

/// What befalls a host.
#[derive(Clone, Copy)]
enum Trouble {
    Nothing,
    /// The nth call of a kind fails.
    Fails(Call, u64),
    /// The first read, the first write and the first send fail.
    FailsAtFirst,
    /// Each call fails from the nth on.
    Stops(u64),
}

/// How a command is run: its workers, the most frames of a batch, the most bytes of one read, of one send and of all reads, and
/// the message from which on a session sends again; and what befalls its host.
#[derive(Clone, Copy)]
struct Way {
    command: Command,
    workers: u32,
    batch: u32,
    read: u32,
    send: u32,
    bytes: u64,
    from: Option<u64>,
    trouble: Trouble,
}

const SERVE: Way = Way {
    command: Command::Serve,
    workers: 1,
    batch: 64,
    read: u32::MAX,
    send: u32::MAX,
    bytes: BYTES,
    from: None,
    trouble: Trouble::Nothing,
};

const REPLAY: Way = Way {
    command: Command::Replay,
    ..SERVE
};

/// ABC is listed, opens, is paused, and opens again by an auction.
fn reopened_lines<R: Abort + AllocGlobal>(rt: &R) -> Vec<Line> {
    let lines = [
        indication(at(10, 3, 0), 440_000, Unmatched::Nothing),
        clock(at(10, 5, 15)),
        collar(1, 427_400, 525_000),
        clock(at(10, 10, 15)),
        release(440_000),
        state(Phase::Trading),
        band(Cause::First, 440_000, 418_000, 462_000),
    ];
    paused_day(rt.alloc(), &lines).expect(rt, "memory")
}

/// A day of ten records and ten messages, of these lines.
fn reopened_day<R: Abort + AllocGlobal>(rt: &R) -> Session {
    Session::of(rt.alloc(), &reopened_lines(rt)).expect(rt, "a session")
}

fn copied<R: Abort + AllocGlobal>(rt: &R, bytes: &[u8]) -> Vec<u8> {
    bytes.to_vec(rt.alloc()).expect(rt, "memory")
}

/// An empty journal that takes so many records.
fn fresh<R: Abort + AllocGlobal>(rt: &R, limit: u64) -> Vec<u8> {
    let mut host = MemoryHost::new(rt.alloc(), b"", b"").expect(rt, "memory");
    format(&mut host, limit.clamp(1, 2_000_000_000)).expect(rt, "a journal");
    copied(rt, host.disk())
}

/// Runs a command over what is left of a host's input.
fn run<Rt: AllocGlobal + Threads + Sync>(rt: &Rt, way: Way, host: &mut MemoryHost) -> Status {
    let workers = way.workers.clamp(1, 64);
    let bytes = way.bytes.min(BYTES);
    match way.command {
        Command::Serve => {
            let options = ServeOptions {
                from: way.from,
                workers,
                batch: way.batch.clamp(1, 64),
                bytes,
            };
            serve(rt, rt.alloc(), host, &OpenGate, &options)
        }
        Command::Replay => {
            let options = ReplayOptions { workers, bytes };
            replay(rt, rt.alloc(), host, &OpenGate, &options)
        }
    }
}

fn fail<R: Abort>(rt: &R, host: &mut MemoryHost, call: Call, nth: u64) {
    host.fail(call, nth.max(1)).expect(rt, "memory");
}

/// Asks a host to fail so.
fn befall<R: Abort>(rt: &R, host: &mut MemoryHost, trouble: Trouble) {
    match trouble {
        Trouble::Nothing => {}
        Trouble::Fails(call, nth) => fail(rt, host, call, nth),
        Trouble::FailsAtFirst => {
            fail(rt, host, Call::Read, 1);
            fail(rt, host, Call::Write, 1);
            fail(rt, host, Call::Send, 1);
        }
        Trouble::Stops(nth) => host.stop_at(nth.max(1)),
    }
}

/// A host over an input and a disk, for a command that is run so.
fn host_of<R: Abort + AllocGlobal>(rt: &R, way: Way, input: &[u8], disk: &[u8]) -> MemoryHost {
    let mut host = MemoryHost::new(rt.alloc(), input, disk).expect(rt, "memory");
    host.pieces(way.read.max(1), way.send.max(1));
    befall(rt, &mut host, way.trouble);
    host
}

/// The host after a command over an input and a disk, which ends as is wanted.
fn ran<Rt: Abort + AllocGlobal + Threads + Sync>(
    rt: &Rt,
    way: Way,
    input: &[u8],
    disk: &[u8],
    want: Status,
) -> MemoryHost {
    let mut host = host_of(rt, way, input, disk);
    let status = run(rt, way, &mut host);
    assert!(rt; status == want);
    host
}

/// A command over an input and a disk ends so, and has sent these bytes.
fn expect<Rt: Abort + AllocGlobal + Threads + Sync>(
    rt: &Rt,
    way: Way,
    input: &[u8],
    disk: &[u8],
    want: Status,
    sent: &[u8],
) {
    let host = ran(rt, way, input, disk, want);
    assert!(rt; host.sent() == sent);
}

/// How many records a disk holds, as a session with no input tells.
fn held_by<Rt: Abort + AllocGlobal + Threads + Sync>(rt: &Rt, disk: &[u8]) -> u64 {
    let host = ran(rt, SERVE, b"", disk, Status::Done);
    told(host.sent()).held.expect(rt, "a greeting")
}
