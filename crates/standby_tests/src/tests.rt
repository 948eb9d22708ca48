//! Frames of a standby as bytes, and journals that are sent.

ghost use Rattle.std.specs.Prelude.{IfOk};
ghost use Rattle.wire_in.specs.Spelling.{InRange};

use host_core::Status;
use memory_host::{Call, MemoryHost};
use price_core::Index;
use session_core::{Close, Date, Day, Moment, Profile};
use standby_core::{BadFrame, get_have, get_part, put_have, put_part, ship};
use std::alloc::Global;
use std::test::Fail;
use wire_in::{Record, blank};

/// The Part of the day of the journals, which has the number 1.
const PART: &[u8] =
    b"\x1d\xa1\0\0\0\0\0\0\0\x01\x13\x01\0\0\x0d\x18\xc2\xe2\x80\0\x07\xe8\x06\x03\x01\x02\0\x07\xa1\x20";

/// The Part of the clock behind it.
const SECOND: &[u8] = b"\x13\xa1\0\0\0\0\0\0\0\x02\x09\x07\0\0\x1f\x1a\xce\xd9\xf0\0";

/// A journal that takes 3 records: the day, and a clock in a batch of its own.
const JOURNAL: &[u8] =
    b"HALTJNL2\0\0\0\0\0\0\0\x03\x01\0\0\0\x14\x13\x01\0\0\x0d\x18\xc2\xe2\x80\0\x07\xe8\x06\x03\x01\x02\0\x07\xa1\x20\x01\0\0\0\x0a\x09\x07\0\0\x1f\x1a\xce\xd9\xf0\0\0";

/// The same with a base behind the day.
const ROLLED: &[u8] =
    b"HALTJNL2\0\0\0\0\0\0\0\x03\x01\0\0\0\x14\x13\x01\0\0\x0d\x18\xc2\xe2\x80\0\x07\xe8\x06\x03\x01\x02\0\x07\xa1\x20\x01\x80\0\0\x28\0\0\0\0\0\0\0\x01\0\0\0\0\0\0\0\0\x13\x01\0\0\x0d\x18\xc2\xe2\x80\0\x07\xe8\x06\x03\x01\x02\0\x07\xa1\x20\0\0\0\0\x01\0\0\0\x0a\x09\x07\0\0\x1f\x1a\xce\xd9\xf0\0\0";

/// The day 2024-06-03 with an index close of 5,000.00, at 04:00:00.
fn day_record() -> Result<Record, Fail>
    ensures { IfOk result InRange }
{
    Ok(Record::Day {
        moment: Moment::new(14_400_000_000_000)?,
        day: Day {
            date: Date::of(2024, 6, 3)?,
            close: Close::Regular,
            profile: Profile::Since18,
        },
        index_close: Index::new(500_000)?,
    })
}

/// The Part of a clock at midnight, which has the number 2.
const MIDNIGHT: &[u8] = b"\x13\xa1\0\0\0\0\0\0\0\x02\x09\x07\0\0\0\0\0\0\0\0";

#[test]
fn a_part_has_its_number_and_a_frame(rt: HostRuntime) {
    let mut bytes = [0xee; 64];
    let len = put_part(2, &blank(), &mut bytes);
    assert!(rt; &bytes[..len] == MIDNIGHT);
    assert!(rt; bytes[len] == 0xee);
}

#[test]
fn a_part_is_read(rt: HostRuntime) -> Result<(), Fail> {
    let day = day_record()?;
    match get_part(&PART[1..]) {
        Ok((number, x)) => assert!(rt; number == 1 && x == day),
        Err(BadFrame) => assert!(rt; false),
    }
    Ok(())
}

/// Bodies that spell no Part: none, another type, the number 0, a frame that is too short, and a byte behind it.
const NO_PARTS: [&[u8]; 5] = [
    b"",
    b"\xa2\0\0\0\0\0\0\0\x02\x09\x07\0\0\x1f\x1a\xce\xd9\xf0\0",
    b"\xa1\0\0\0\0\0\0\0\0\x09\x07\0\0\x1f\x1a\xce\xd9\xf0\0",
    b"\xa1\0\0\0\0\0\0\0\x02\x08\x07\0\0\x1f\x1a\xce\xd9\xf0",
    b"\xa1\0\0\0\0\0\0\0\x02\x09\x07\0\0\x1f\x1a\xce\xd9\xf0\0\0",
];

#[test]
fn other_bodies_spell_no_part(rt: HostRuntime) {
    for body in NO_PARTS {
        assert!(rt; get_part(body).is_err());
    }
}

/// A Have of 0x01020304 records.
const HAVE: &[u8] = b"\x09\xa2\0\0\0\0\x01\x02\x03\x04";

#[test]
fn a_have_has_its_count(rt: HostRuntime) {
    let mut bytes = [0xee; 64];
    let len = put_have(0x0102_0304, &mut bytes);
    assert!(rt; &bytes[..len] == HAVE);
    assert!(rt; get_have(&bytes[1..10]) == Ok(0x0102_0304));
    assert!(rt; get_have(&bytes[1..9]) == Err(BadFrame));
}

/// Whether a host sent these bytes, one piece behind the other, and left its disk as it was.
fn has_sent(host: &MemoryHost, disk: &[u8], first: &[u8], second: &[u8]) -> bool {
    let sent = host.sent();
    sent.starts_with(first) && &sent[first.len()..] == second && host.disk() == disk
}

/// Sends the records of a journal, and tells whether it ended so and sent these bytes.
fn ships(
    alloc: Global,
    disk: &[u8],
    from: u64,
    status: Status,
    first: &[u8],
    second: &[u8],
) -> bool {
    match MemoryHost::new(alloc, b"", disk) {
        Ok(mut host) => {
            ship(alloc, &mut host, from) == status && has_sent(&host, disk, first, second)
        }
        Err(_) => false,
    }
}

#[test]
fn all_records_are_sent(rt: HostRuntime) {
    assert!(rt; ships(rt.alloc(), JOURNAL, 1, Status::Done, PART, SECOND));
}

#[test]
fn records_before_a_number_are_left_out(rt: HostRuntime) {
    assert!(rt; ships(rt.alloc(), JOURNAL, 2, Status::Done, b"", SECOND));
}

#[test]
fn records_of_a_base_are_left_out(rt: HostRuntime) {
    assert!(rt; ships(rt.alloc(), ROLLED, 1, Status::Done, b"", SECOND));
}

#[test]
fn a_journal_without_its_last_gate_is_damaged(rt: HostRuntime) {
    let cut = &JOURNAL[..JOURNAL.len() - 1];
    assert!(rt; ships(rt.alloc(), cut, 1, Status::Damaged { at: 56 }, b"", b""));
}

/// Whether a host whose third piece fails has sent two pieces of seven bytes.
fn stops_at_a_fault(alloc: Global, host: &mut MemoryHost) -> bool {
    host.pieces(1, 7);
    host.fail(Call::Send, 3).is_ok()
        && ship(alloc, host, 1) == Status::SendFault
        && host.sent() == &PART[..14]
}

#[test]
fn what_is_sent_before_a_fault_stays(rt: HostRuntime) -> Result<(), Fail> {
    let mut host = MemoryHost::new(rt.alloc(), b"", JOURNAL)?;
    assert!(rt; stops_at_a_fault(rt.alloc(), &mut host));
    Ok(())
}
