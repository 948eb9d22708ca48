//! Bases of a journal: how they are written, read, and found to be damaged.

ghost use Rattle.std.specs.Prelude.{◌≡◌, ◌<◌, ◌≤◌, ◌+◌, false, IfOk, IsTrue, length};
ghost use Rattle.memory_host.specs.Memory.{known};
ghost use Rattle.journal_core.specs.Journal.{HasBytes};
ghost use Rattle.wire_in.specs.Bases.{IsInRange};

use super::journal::{Kept, count_after, count_of, day_record, keep_day, opened};
use journal_core::{Room, ScanError};
use memory_host::{MemoryHost, Pick};
use std::alloc::Global;
use std::test::Fail;
use wire_in::{Base, Ids, Names};

/// A journal of the second version that takes 3 records: the day, and the base of the day, whose gate stands at 41. Behind it
/// stands a closed gate, at 86.
const ROLLED: [u8; 87] =
    *b"HALTJNL2\0\0\0\0\0\0\0\x03\x01\0\0\0\x14\x13\x01\0\0\x0d\x18\xc2\xe2\x80\0\x07\xe8\x06\x03\x01\x02\0\x07\xa1\x20\x01\x80\0\0\x28\0\0\0\0\0\0\0\x01\0\0\0\0\0\0\0\0\x13\x01\0\0\x0d\x18\xc2\xe2\x80\0\x07\xe8\x06\x03\x01\x02\0\x07\xa1\x20\0\0\0\0\0";

/// Where the gate of the base stands, and where that of a block behind it does.
const BASE: usize = 41;

const END: usize = 86;

/// Room for the base of the day.
fn room(alloc: Global) -> Result<Room, Fail>
    ensures { IfOk result (λ room. room.records ≡ 1) }
{
    let base = Base {
        records: 1,
        messages: 0,
        day: day_record()?,
        names: Names::new(alloc),
        carried: Ids::new(alloc),
    };
    Ok(Room::new(alloc, &base)?)
}

/// A journal that holds the day.
pub fn kept_day(alloc: Global) -> Result<Kept, Fail>
    ensures whole { IfOk result (λ kept. IsTrue kept.journal.whole) }
    ensures unrolled { IfOk result (λ kept. kept.journal.rolled ≡ false) }
    ensures gate { IfOk result (λ kept. HasBytes (kept.journal.gate + 1) (known kept.host).disk) }
{
    let mut host = MemoryHost::new(alloc, b"", b"")?;
    let journal = keep_day(alloc, &mut host)?;
    Ok(Kept { host, journal })
}

/// Rolls a journal that holds the day; false where the disk fails.
fn roll(kept: &mut Kept, room: &Room) -> bool
    requires whole { IsTrue kept.old.journal.whole }
    requires unrolled { kept.old.journal.rolled ≡ false }
    requires one { room.now.records ≡ 1 }
    requires gate { HasBytes (kept.old.journal.gate + 1) (known kept.old.host).disk }
{
    kept.journal.count() == 1 && kept.journal.roll(&mut kept.host, room).is_ok()
}

/// Whether a journal that holds the day is rolled.
fn is_rolled(mut kept: Kept, room: &Room) -> bool
    requires whole { IsTrue kept.journal.whole }
    requires unrolled { kept.journal.rolled ≡ false }
    requires one { room.now.records ≡ 1 }
    requires gate { HasBytes (kept.journal.gate + 1) (known kept.host).disk }
{
    roll(&mut kept, room) && kept.journal.rolled() && kept.host.disk() == ROLLED.as_slice()
}

#[test]
fn a_base_is_a_gate_a_mark_and_its_bytes(rt: HostRuntime) -> Result<(), Fail> {
    let room = room(rt.alloc())?;
    let kept = kept_day(rt.alloc())?;
    assert!(rt; is_rolled(kept, &room));
    Ok(())
}

#[test]
fn a_journal_is_read_from_its_base_on(rt: HostRuntime) -> Result<(), Fail> {
    let journal = opened(rt.alloc(), &ROLLED)?;
    assert!(rt; journal.count() == 1 && journal.rolled() && journal.limit() == 3);
    Ok(())
}

/// How many records rolled bytes hold of which one is another.
fn count_changed(alloc: Global, at: usize, byte: u8) -> Result<u64, ScanError> {
    let mut disk = ROLLED;
    disk[at % 87] = byte;
    count_of(alloc, &disk)
}

#[test]
fn a_changed_base_is_damage_where_it_is_none(rt: HostRuntime) {
    for (at, byte, want) in [
        (7, b'1', Ok(1)),
        (7, b'3', Err(ScanError::NoJournal)),
        (41, 0x55, Ok(1)),
        (41, 0, Ok(1)),
        (42, 0, Err(ScanError::Damaged { at: 41 })),
        (45, 0x27, Err(ScanError::Damaged { at: 41 })),
        (45, 0x29, Err(ScanError::Damaged { at: 87 })),
        (53, 0, Err(ScanError::Damaged { at: 41 })),
        (53, 3, Ok(3)),
        (53, 4, Err(ScanError::Damaged { at: 41 })),
        (62, 0x12, Err(ScanError::Damaged { at: 41 })),
        (83, 1, Err(ScanError::Damaged { at: 41 })),
        (86, 1, Err(ScanError::Damaged { at: 86 })),
    ] {
        assert!(rt; count_changed(rt.alloc(), at, byte) == want, "at {at}");
    }
}

/// Whether such a change of a base is found: the day is read, or three records are, whose number is in its range as well, or
/// damage is told at its gate, or behind the base where its length says another one.
fn is_found(found: Result<u64, ScanError>) -> bool {
    match found {
        Ok(count) => count == 1 || count == 3,
        Err(ScanError::Damaged { at }) => at == BASE as u64 || at > END as u64,
        Err(_) => false,
    }
}

#[test]
fn a_base_with_a_changed_bit_is_another_base_or_damage(rt: HostRuntime) {
    for at in BASE..END {
        for bit in 0..8u32 {
            let found = count_changed(rt.alloc(), at, ROLLED[at] ^ (1 << bit));
            assert!(rt; is_found(found), "at {at}");
        }
    }
}

#[test]
fn a_base_that_is_cut_is_damage(rt: HostRuntime) {
    for len in BASE..=END {
        let at = if len < BASE + 5 { BASE } else { END };
        let found = count_of(rt.alloc(), &ROLLED[..len]);
        assert!(rt;
            found == Err(ScanError::Damaged { at: at as u64 }),
            "at {len}"
        );
    }
}

/// How many records the first bytes of a rolled journal hold, and then its base and its end.
fn count_with_base(alloc: Global, len: usize) -> Result<u64, ScanError> {
    let mut disk = Vec::new(alloc);
    disk.extend_from_slice(&ROLLED[..len.min(END)])?;
    disk.extend_from_slice(&ROLLED[BASE..])?;
    count_of(alloc, &disk)
}

#[test]
fn a_base_stands_directly_behind_a_batch(rt: HostRuntime) {
    for (len, want) in [
        (16, Err(ScanError::Damaged { at: 16 })),
        (BASE, Ok(1)),
        (END, Err(ScanError::Damaged { at: 86 })),
    ] {
        assert!(rt; count_with_base(rt.alloc(), len) == want, "at {len}");
    }
}

/// Whether a roll that is stopped at a call fails.
fn is_stopped(kept: &mut Kept, room: &Room, stop: u64) -> bool
    requires whole { IsTrue kept.old.journal.whole }
    requires unrolled { kept.old.journal.rolled ≡ false }
    requires one { room.now.records ≡ 1 }
    requires gate { HasBytes (kept.old.journal.gate + 1) (known kept.old.host).disk }
{
    let first = kept.host.calls().saturating_add(stop);
    kept.host.stop_at(first.max(1));
    !roll(kept, room) && !kept.journal.whole()
}

/// Whether a roll that is stopped at one of its four calls leaves the day, in a journal that takes no more.
fn leaves_day(alloc: Global, mut kept: Kept, room: &Room, stop: u64, pick: Pick) -> bool
    requires whole { IsTrue kept.journal.whole }
    requires unrolled { kept.journal.rolled ≡ false }
    requires one { room.now.records ≡ 1 }
    requires gate { HasBytes (kept.journal.gate + 1) (known kept.host).disk }
{
    is_stopped(&mut kept, room, stop) && count_after(alloc, &kept.host, pick) == Ok(1)
}

/// The same of a journal of its own.
fn day_is_left(alloc: Global, stop: u64, pick: Pick) -> Result<bool, Fail> {
    let room = room(alloc)?;
    let kept = kept_day(alloc)?;
    Ok(leaves_day(alloc, kept, &room, stop, pick))
}

#[test]
fn a_stop_of_a_roll_leaves_the_records(rt: HostRuntime) -> Result<(), Fail> {
    for stop in 1..=4 {
        for pick in [Pick::Old, Pick::New, Pick::Bytes(0x55)] {
            assert!(rt; day_is_left(rt.alloc(), stop, pick)?, "at {stop}");
        }
    }
    Ok(())
}
