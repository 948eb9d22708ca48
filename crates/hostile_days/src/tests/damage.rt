//! A small journal with each of its bytes changed, cut at each length, and with bytes behind it.

use super::sent::{body_of, first_frame, messages, told};
use super::{REPLAY, SERVE, Trouble, Way, copied, expect, fresh, host_of, ran, reopened_day, run};
use host_core::Status;
use memory_host::{Call, MemoryHost};
use std::process::Abort;
use std::thread::Threads;
use wire_in::decode;

/// A number of bytes, the highest first.
fn number(bytes: &[u8]) -> u64 {
    let mut number = 0u64;
    for byte in bytes {
        number = number.wrapping_mul(256).wrapping_add(u64::from(*byte));
    }
    number
}

/// How many records the journal takes, where the file has a header.
fn limit_of(file: &[u8]) -> Option<u64> {
    let limit = number(file.get(8..16)?);
    let is_header = file.len() > 16
        && (file.starts_with(b"HALTJNL1") || file.starts_with(b"HALTJNL2"))
        && limit >= 1
        && limit <= 2_000_000_000;
    is_header.then_some(limit)
}

/// Whether a frame says a record.
fn is_record(frame: &[u8]) -> bool {
    let body = body_of(frame);
    decode(&body[..body.len().min(255)]).is_ok()
}

/// How many records frames say, where they are whole and each says one.
fn records_in(frames: &[u8]) -> Option<u64> {
    let mut rest = frames;
    let mut count = 0u64;
    for _ in 0..frames.len() {
        if !rest.is_empty() {
            let (frame, after) = first_frame(rest)?;
            if !is_record(frame) {
                return None;
            }
            rest = after;
            count = count.saturating_add(1);
        }
    }
    Some(count)
}

/// The frames of a batch with its gate before them, and the bytes behind it; none where the batch isn't whole.
fn batch_of(bytes: &[u8]) -> Option<(&[u8], &[u8])> {
    let len = number(bytes.get(1..5)?);
    let (frames, after) = bytes.get(5..)?.split_at_checked(len as usize)?;
    let records = records_in(frames)?;
    (records >= 1 && records <= 64).then_some((frames, after))
}

/// Whether each of these frames may follow those before it.
fn may_follow<Rt: Abort + AllocGlobal + Threads + Sync>(rt: &Rt, frames: &[u8]) -> bool {
    let mut host = host_of(rt, REPLAY, frames, b"");
    let status = run(rt, REPLAY, &mut host);
    status == Status::Done && told(host.sent()).refused == 0
}

/// Puts the frames of the next batch behind those before, and gives the bytes behind the batch; none where it isn't whole,
/// is one too many or may not follow.
fn next_batch<'a, Rt: Abort + AllocGlobal + Threads + Sync>(
    rt: &Rt,
    bytes: &'a [u8],
    limit: u64,
    held: &mut Vec<u8>,
) -> Option<&'a [u8]> {
    let (frames, after) = batch_of(bytes)?;
    held.extend_from_slice(frames).expect(rt, "memory");
    let is_held = records_in(held).unwrap_or(0) <= limit && may_follow(rt, held);
    is_held.then_some(after)
}

/// What the bytes behind a gate say of its block: whether it is a base, and how many bytes it has.
fn mark_of(bytes: &[u8]) -> Option<(bool, usize)> {
    let mark = number(bytes.get(1..5)?);
    if mark >= 10 && mark <= 2_304 {
        return Some((false, mark as usize));
    }
    let len = mark.checked_sub(2_147_483_648)?;
    (len >= 40 && len <= 163_880).then_some((true, len as usize))
}

/// Where the way from gate to gate breaks off, or else the gate of the last base, whose bytes spell none here. None where it comes
/// to a closed gate past batches alone.
fn broken_at(file: &[u8], limit: u64) -> Option<usize> {
    let (mut at, mut batches, mut is_behind, mut base) = (16usize, 0u64, false, None);
    for _ in 0..file.len() {
        let rest = file.get(at..).unwrap_or(&[]);
        if rest.first() == Some(&0) {
            return base;
        }
        let (is_base, len) = match mark_of(rest) {
            Some((true, len)) if is_behind => (true, len),
            Some((false, len)) if batches < limit => (false, len),
            _ => return Some(at),
        };
        if is_base {
            base = Some(at);
        }
        batches = batches.saturating_add(u64::from(!is_base));
        is_behind = !is_base;
        at = at.saturating_add(len).saturating_add(5);
    }
    Some(at)
}

/// How a session over a file ends, by the layout of a journal. Where it is done, the frames of the records are put behind those
/// that are held.
fn status_of<Rt: Abort + AllocGlobal + Threads + Sync>(
    rt: &Rt,
    file: &[u8],
    held: &mut Vec<u8>,
) -> Status {
    let Some(limit) = limit_of(file) else {
        return Status::NoJournal;
    };
    if let Some(at) = broken_at(file, limit) {
        return Status::Damaged { at: at as u64 };
    }
    let mut rest = file.get(16..).unwrap_or(&[]);
    for _ in 0..file.len() {
        if rest.first() == Some(&0) {
            return Status::Done;
        }
        let Some(after) = next_batch(rt, rest, limit, held) else {
            let at = file.len().saturating_sub(rest.len()) as u64;
            return Status::Damaged { at };
        };
        rest = after;
    }
    Status::NoJournal
}

/// Whether a host has sent nothing and has this file as its disk.
fn is_untouched(host: &MemoryHost, file: &[u8]) -> bool {
    host.sent().is_empty() && host.disk() == file
}

/// A session of so many workers over a file that it can't serve ends so, and has read no input, sent nothing and written nothing.
fn expect_unserved<Rt: Abort + AllocGlobal + Threads + Sync>(
    rt: &Rt,
    workers: u32,
    file: &[u8],
    want: Status,
) {
    let way = Way {
        workers,
        trouble: Trouble::FailsAtFirst,
        ..SERVE
    };
    let host = ran(rt, way, b"\x01\x0a", file, want);
    assert!(rt; is_untouched(&host, file));
}

/// Whether a host tells of as many records as the frames say, and has this file as its disk.
fn is_served(host: &MemoryHost, file: &[u8], frames: &[u8]) -> bool {
    told(host.sent()).held == records_in(frames) && host.disk() == file
}

/// A session of so many workers over a file gives the messages of the records that it holds, and tells how many there are.
fn expect_served<Rt: Abort + AllocGlobal + Threads + Sync>(
    rt: &Rt,
    workers: u32,
    file: &[u8],
    frames: &[u8],
) {
    let way = Way {
        workers,
        from: Some(1),
        trouble: Trouble::Fails(Call::Write, 1),
        ..SERVE
    };
    let host = ran(rt, way, b"", file, Status::Done);
    assert!(rt; is_served(&host, file, frames));
    let given = messages(rt, host.sent());
    expect(rt, REPLAY, frames, b"", Status::Done, &given);
}

/// A session of so many workers takes a file for what it is. Answers how it ends.
fn taken<Rt: Abort + AllocGlobal + Threads + Sync>(rt: &Rt, workers: u32, file: &[u8]) -> Status {
    let mut held = Vec::new(rt.alloc());
    let status = status_of(rt, file, &mut held);
    if status == Status::Done {
        expect_served(rt, workers, file, &held);
    } else {
        expect_unserved(rt, workers, file, status);
    }
    status
}

/// How many files are no journal, are damaged, and are served.
#[derive(Clone, Copy)]
struct Tally {
    missing: u64,
    damaged: u64,
    served: u64,
}

const NONE: Tally = Tally {
    missing: 0,
    damaged: 0,
    served: 0,
};

impl Tally {
    /// One file more ends a session so.
    fn count(&mut self, status: Status) {
        let count = match status {
            Status::NoJournal => &mut self.missing,
            Status::Damaged { .. } => &mut self.damaged,
            _ => &mut self.served,
        };
        *count = count.saturating_add(1);
    }
}

/// A journal for twelve records that holds ten, in some batches.
fn small<Rt: Abort + AllocGlobal + Threads + Sync>(rt: &Rt) -> Vec<u8> {
    let day = reopened_day(rt);
    let empty = fresh(rt, 12);
    let way = Way {
        read: 70,
        send: 4_096,
        ..SERVE
    };
    let host = ran(rt, way, &day.input, &empty, Status::Done);
    copied(rt, host.disk())
}

/// Changes a bit of a file, of which each byte has eight; once more, and it is as before.
fn flip(file: &mut [u8], bit: usize) {
    if let Some(byte) = file.get_mut(bit / 8) {
        *byte ^= 1 << (bit % 8);
    }
}

/// Takes a file with each of its bits changed.
fn tally_of_changes<Rt: Abort + AllocGlobal + Threads + Sync>(rt: &Rt, file: &mut [u8]) -> Tally {
    let mut tally = NONE;
    for bit in 0..file.len().saturating_mul(8) {
        let workers = if bit % 8 == 0 { 2 } else { 1 };
        flip(file, bit);
        tally.count(taken(rt, workers, file));
        flip(file, bit);
    }
    tally
}

#[test]
fn a_journal_with_any_byte_changed_is_told_as_damaged_or_served_as_what_it_holds(rt: HostRuntime) {
    let mut file = small(&rt);
    let tally = tally_of_changes(&rt, &mut file);
    assert!(rt; tally.missing > 64 && tally.damaged > 600 && tally.served > 600);
}

/// Takes a file that is cut at each length.
fn tally_of_cuts<Rt: Abort + AllocGlobal + Threads + Sync>(rt: &Rt, file: &[u8]) -> Tally {
    let mut tally = NONE;
    for len in 0..file.len() {
        tally.count(taken(rt, 2, &file[..len]));
    }
    tally
}

#[test]
fn a_journal_that_is_cut_at_any_length_is_told_at_its_last_gate(rt: HostRuntime) {
    let tally = tally_of_cuts(&rt, &small(&rt));
    assert!(rt; tally.missing == 17 && tally.served == 0);
}

/// A file with bytes behind it is served as one that holds these frames.
fn expect_behind<Rt: Abort + AllocGlobal + Threads + Sync>(
    rt: &Rt,
    file: &[u8],
    tail: &[u8],
    held: &[u8],
) {
    let longer = [file, tail].concat(rt.alloc()).expect(rt, "memory");
    expect_served(rt, 2, &longer, held);
}

/// The frames of the records that a file holds, which is a whole journal.
fn held_in<Rt: Abort + AllocGlobal + Threads + Sync>(rt: &Rt, file: &[u8]) -> Vec<u8> {
    let mut held = Vec::new(rt.alloc());
    let status = status_of(rt, file, &mut held);
    assert!(rt; status == Status::Done);
    held
}

#[test]
fn bytes_behind_the_last_gate_mean_nothing(rt: HostRuntime) {
    let whole = small(&rt);
    let held = held_in(&rt, &whole);
    expect_behind(&rt, &whole, b"\0", &held);
    expect_behind(&rt, &whole, b"\x01", &held);
    let batch = b"\x01\0\0\0\x0a\x09\x07\0\0\x1f\x1a\xce\xd9\xf0\0\0";
    expect_behind(&rt, &whole, batch, &held);
    expect_behind(&rt, &whole, &[0xff; 9], &held);
}
