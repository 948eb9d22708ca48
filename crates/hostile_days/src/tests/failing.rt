//! Each call of each kind fails in turn.

use super::sent::{behind, body_of, first_frame, told};
use super::{SERVE, Trouble, Way, expect, fresh, held_by, host_of, ran, reopened_day, run};
use host_core::Status;
use memory_host::{Call, MemoryHost};
use std::process::Abort;
use std::thread::Threads;
use test_days::Session;
use wire_out::{Frame, get_frame};

/// The status of a session in which such a call fails.
fn fault_of(call: Call) -> Status {
    match call {
        Call::Read => Status::ReadFault,
        Call::Send => Status::SendFault,
        Call::Len | Call::DiskRead | Call::Write | Call::Sync => Status::DiskFault,
    }
}

/// What a session sends behind its greeting and its acknowledgements of so many records.
fn behind_records(served: &[u8], records: u64) -> &[u8] {
    let mut rest = behind(served, 1);
    let mut acknowledged = 0u64;
    for _ in 0..served.len() {
        if acknowledged == records {
            break;
        }
        if let Some((frame, after)) = first_frame(rest) {
            let is_ack = matches!(get_frame(body_of(frame)), Ok(Frame::Ack { .. }));
            acknowledged = acknowledged.saturating_add(u64::from(is_ack));
            rest = after;
        }
    }
    rest
}

/// Each record on its own, all as a few batches, and all as one batch.
const WAYS: [Way; 3] = [
    Way {
        batch: 1,
        read: 30,
        send: 7,
        ..SERVE
    },
    Way {
        read: 60,
        send: 7,
        ..SERVE
    },
    Way {
        read: 4_096,
        send: 7,
        ..SERVE
    },
];

/// The kinds of calls, and how many of each a session makes at least.
const CALLS: [(Call, u64); 6] = [
    (Call::Read, 2),
    (Call::Send, 60),
    (Call::Len, 1),
    (Call::DiskRead, 1),
    (Call::Write, 2),
    (Call::Sync, 3),
];

/// A session over the disk of another one gives what that one didn't acknowledge.
fn expect_rest<Rt: Abort + AllocGlobal + Threads + Sync>(
    rt: &Rt,
    whole: &Session,
    batch: u32,
    host: &MemoryHost,
) {
    let held = held_by(rt, host.disk());
    assert!(rt; told(host.sent()).acknowledged <= held);
    let way = Way { batch, ..SERVE };
    let rest = behind(&whole.input, held);
    let next = ran(rt, way, rest, host.disk(), Status::Done);
    assert!(rt; behind(next.sent(), 1) == behind_records(&whole.served, held));
}

/// Whether a session in which such a call is to fail ends so after what it has sent of the whole.
fn is_answered(whole: &[u8], sent: &[u8], call: Call, status: Status) -> bool {
    match status {
        Status::Done => sent == whole,
        _ => status == fault_of(call) && whole.starts_with(sent),
    }
}

/// The nth call of a kind fails, and a session over the disk as it is then gives the rest. Answers whether it failed.
fn failed_at<Rt: Abort + AllocGlobal + Threads + Sync>(
    rt: &Rt,
    whole: &Session,
    empty: &[u8],
    way: Way,
    call: Call,
    nth: u64,
) -> bool {
    let trouble = Trouble::Fails(call, nth);
    let mut host = host_of(rt, Way { trouble, ..way }, &whole.input, empty);
    let status = run(rt, way, &mut host);
    assert!(rt; is_answered(&whole.served, host.sent(), call, status));
    expect_rest(rt, whole, way.batch, &host);
    status != Status::Done
}

/// How many calls of a kind fail before a session is undisturbed.
fn failed_in_turn<Rt: Abort + AllocGlobal + Threads + Sync>(
    rt: &Rt,
    whole: &Session,
    empty: &[u8],
    way: Way,
    call: Call,
) -> u64 {
    for nth in 1..1_000u64 {
        if !failed_at(rt, whole, empty, way, call, nth) {
            return nth - 1;
        }
    }
    1_000
}

/// Each call of each kind of a session that is run so fails in turn.
fn fail_in_turn<Rt: Abort + AllocGlobal + Threads + Sync>(
    rt: &Rt,
    whole: &Session,
    empty: &[u8],
    way: Way,
) {
    for (call, least) in CALLS {
        let failed = failed_in_turn(rt, whole, empty, way, call);
        assert!(rt; failed >= least && failed < 1_000);
    }
}

#[test]
fn each_failing_call_has_its_status_and_the_next_session_gives_the_rest(rt: HostRuntime) {
    let whole = reopened_day(&rt);
    let empty = fresh(&rt, 100);
    for way in WAYS {
        fail_in_turn(&rt, &whole, &empty, way);
    }
}

/// A session whose second read fails has answered all, by batches of so many frames.
fn expect_answered<Rt: Abort + AllocGlobal + Threads + Sync>(
    rt: &Rt,
    whole: &Session,
    empty: &[u8],
    batch: u32,
) {
    let way = Way {
        batch,
        trouble: Trouble::Fails(Call::Read, 2),
        ..SERVE
    };
    expect(
        rt,
        way,
        &whole.input,
        empty,
        Status::ReadFault,
        &whole.served,
    );
}

#[test]
fn all_that_one_read_gave_is_answered_before_the_next_read_fails(rt: HostRuntime) {
    let whole = reopened_day(&rt);
    let empty = fresh(&rt, 100);
    expect_answered(&rt, &whole, &empty, 1);
    expect_answered(&rt, &whole, &empty, 2);
    expect_answered(&rt, &whole, &empty, 64);
}
