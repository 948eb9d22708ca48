//! Bases: their bytes, and bytes that spell none.

ghost use Rattle.wire_in.specs.Bases.{IsInRange};

use std::alloc::Global;
use wire_in::{Base, BaseError, Ids, Names, get_base, put_base};

/// Five records and six messages, the day 2024-06-04, and the names ABC and ABD, of which the second is carried.
const BASE: [u8; 58] = [
    0, 0, 0, 0, 0, 0, 0, 5, 0, 0, 0, 0, 0, 0, 0, 6, 19, 1, 0, 0, 0x0d, 0x18, 0xc2, 0xe2, 0x80, 0,
    7, 0xe8, 6, 4, 1, 2, 0, 7, 0xa1, 0x20, 0, 2, 65, 66, 67, 0, 0, 0, 0, 0, 65, 66, 68, 0, 0, 0, 0,
    0, 0, 1, 0, 1,
];

/// The same with both names carried, the second first.
const FALLING: [u8; 60] = [
    0, 0, 0, 0, 0, 0, 0, 5, 0, 0, 0, 0, 0, 0, 0, 6, 19, 1, 0, 0, 0x0d, 0x18, 0xc2, 0xe2, 0x80, 0,
    7, 0xe8, 6, 4, 1, 2, 0, 7, 0xa1, 0x20, 0, 2, 65, 66, 67, 0, 0, 0, 0, 0, 65, 66, 68, 0, 0, 0, 0,
    0, 0, 2, 0, 1, 0, 0,
];

/// Places of a base, each with a byte that makes it none: no records, too many, too many messages, the length of another
/// frame, a clock, a month 13, a name more, a blank in a name, the same name again, an id more and an id without a name.
const BAD: [(usize, u8); 11] = [
    (7, 0),
    (3, 1),
    (12, 1),
    (16, 18),
    (17, 7),
    (28, 13),
    (37, 3),
    (38, 32),
    (48, 67),
    (55, 2),
    (57, 2),
];

fn is_bad(alloc: Global, body: &[u8]) -> bool {
    matches!(get_base(alloc, body), Err(BaseError::BadBase))
}

/// Whether a byte makes the base none.
fn is_bad_by(alloc: Global, at: usize, byte: u8) -> bool {
    let mut body = BASE;
    body[at % 58] = byte;
    is_bad(alloc, &body)
}

/// Whether a list keeps a name.
fn keeps_name(alloc: Global) -> bool {
    let mut names = Names::new(alloc);
    names.push(*b"ABC\0\0\0\0\0").is_ok() && has_one_name(names.list())
}

fn has_one_name(names: &[[u8; 8]]) -> bool {
    names.len() == 1 && names[0][1] == 66
}

/// Whether a list keeps an id.
fn keeps_id(alloc: Global) -> bool {
    let mut ids = Ids::new(alloc);
    ids.push(7).is_ok() && has_one_id(ids.list())
}

fn has_one_id(ids: &[u16]) -> bool {
    ids.len() == 1 && ids[0] == 7
}

#[test]
fn lists_of_names_and_ids(rt: HostRuntime) {
    assert!(rt; keeps_name(rt.alloc()));
    assert!(rt; keeps_id(rt.alloc()));
}

/// Whether it is the base of the bytes.
fn is_read(b: &Base) -> bool {
    b.records == 5
        && b.messages == 6
        && b.day.is_day()
        && b.names.list().len() == 2
        && b.carried.list().len() == 1
}

/// Whether these bytes are put for a base.
fn is_put(alloc: Global, b: &Base, want: &[u8]) -> bool
    requires { IsInRange b.now }
{
    let mut bytes = Vec::new(alloc);
    put_base(b, &mut bytes).is_ok() && bytes.as_slice() == want
}

/// Whether bytes are read as the base, and put for it.
fn spells_base(alloc: Global, body: &[u8]) -> bool {
    match get_base(alloc, body) {
        Ok(b) => is_read(&b) && is_put(alloc, &b, body),
        Err(_) => false,
    }
}

#[test]
fn a_base_byte_for_byte(rt: HostRuntime) {
    assert!(rt; spells_base(rt.alloc(), &BASE));
}

#[test]
fn bad_bases_are_refused(rt: HostRuntime) {
    for (at, byte) in BAD {
        assert!(rt; is_bad_by(rt.alloc(), at, byte), "at {at}");
    }
    assert!(rt; is_bad(rt.alloc(), &FALLING));
    assert!(rt; is_bad(rt.alloc(), &BASE[..39]));
}
