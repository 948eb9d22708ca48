//! From a base to its bytes.

ghost use Rattle.std.specs.Prelude.{◌≡◌, ◌+◌, ◌*◌, ◌≤◌, ◌<◌, ◌^◌, ◌++◌, true, All, OnOk, OnErr, length, vec_len, vec_capacity};
ghost use Rattle.std.specs.Int.{w16, w64, to_be_bytes};
ghost use Rattle.std.specs.List.{flat_map};
ghost use Rattle.wire_core.specs.Frames.{framed};
ghost use Rattle.wire_in.specs.Bases.{IsInRange, SpellsBase, base_bytes};
ghost use Rattle.wire_in.specs.Laws.{IsSound};
ghost use Rattle.wire_in.specs.Records.{is_day};
ghost use Rattle.wire_in.specs.Spelling.{body_of};

use crate::base::Base;
use crate::encoding::encode;
use crate::record::Record;
use price_core::NoMemory;

/// The bytes of a base without names and carried ids.
const LEAST_BYTES: usize = 40;

/// Writes bytes behind those that are there.
fn write(piece: &[u8], into: &mut Vec<u8>)
    requires { vec_len into.old + length piece.now ≤ vec_capacity into.old }
    ensures items { into.new.items ≡ into.old.items ++ piece.now }
    ensures len { vec_len into.new ≡ vec_len into.old + length piece.now }
    ensures capacity { vec_capacity into.old ≤ vec_capacity into.new }
    ensures range { All (λ byte. byte < 256) piece.now }
{
    // It has room for them.
    into.extend_from_slice(piece).unwrap();
}

/// Writes the frame of a day.
fn write_day(x: &Record, into: &mut Vec<u8>)
    requires begins { is_day x.now ≡ true }
    requires room { vec_len into.old + 20 ≤ vec_capacity into.old }
    ensures items { into.new.items ≡ into.old.items ++ framed (body_of x.now) }
    ensures len { vec_len into.new ≡ vec_len into.old + 20 }
    ensures capacity { vec_capacity into.old ≤ vec_capacity into.new }
    ensures sound { IsSound x.now }
{
    let mut frame = [0; 64];
    let len = encode(x, &mut frame);
    write(&frame[..len], into);
}

/// Writes the two numbers and the day.
fn write_head(b: &Base, into: &mut Vec<u8>)
    requires begins { is_day b.now.day ≡ true }
    requires room { vec_len into.old + 36 ≤ vec_capacity into.old }
    ensures items { into.new.items ≡ into.old.items ++ (to_be_bytes w64 b.now.records ++ (to_be_bytes w64 b.now.messages ++ framed (body_of b.now.day))) }
    ensures len { vec_len into.new ≡ vec_len into.old + 36 }
    ensures capacity { vec_capacity into.old ≤ vec_capacity into.new }
    ensures sound { IsSound b.now.day }
{
    write(&b.records.to_be_bytes(), into);
    write(&b.messages.to_be_bytes(), into);
    write_day(&b.day, into);
}

/// Writes names.
fn write_names(names: &[[u8; 8]], into: &mut Vec<u8>)
    requires sizes { All (λ name. length name ≡ 8) names.now }
    requires room { vec_len into.old + 8 * length names.now ≤ vec_capacity into.old }
    ensures items { into.new.items ≡ into.old.items ++ flat_map (λ name. name) names.now }
    ensures len { vec_len into.new ≡ vec_len into.old + 8 * length names.now }
    ensures capacity { vec_capacity into.old ≤ vec_capacity into.new }
{
    for name in names {
        write(name, into);
    }
}

/// Writes ids.
fn write_ids(ids: &[u16], into: &mut Vec<u8>)
    requires room { vec_len into.old + 2 * length ids.now ≤ vec_capacity into.old }
    ensures items { into.new.items ≡ into.old.items ++ flat_map (to_be_bytes w16) ids.now }
    ensures len { vec_len into.new ≡ vec_len into.old + 2 * length ids.now }
    ensures capacity { vec_capacity into.old ≤ vec_capacity into.new }
{
    for id in ids {
        write(&id.to_be_bytes(), into);
    }
}

/// Writes a number of names or ids.
fn write_count(count: usize, into: &mut Vec<u8>)
    requires few { count < 2 ^ 16 }
    requires room { vec_len into.old + 2 ≤ vec_capacity into.old }
    ensures items { into.new.items ≡ into.old.items ++ to_be_bytes w16 count }
    ensures len { vec_len into.new ≡ vec_len into.old + 2 }
    ensures capacity { vec_capacity into.old ≤ vec_capacity into.new }
{
    write(&(count as u16).to_be_bytes(), into);
}

/// Writes a base behind the bytes that are there; these are kept at an error. What is written spells the base.
pub fn put_base(b: &Base, into: &mut Vec<u8>) -> Result<(), NoMemory>
    requires { IsInRange b.now }
    ensures bytes { OnOk result (into.new.items ≡ into.old.items ++ base_bytes b.now) }
    ensures spelled { OnOk result (SpellsBase (base_bytes b.now) b.now) }
    ensures kept { OnErr result (into.new.items ≡ into.old.items) }
{
    let names = b.names.list();
    let carried = b.carried.list();
    into.reserve(LEAST_BYTES + 8 * names.len() + 2 * carried.len())?;
    write_head(b, into);
    write_count(names.len(), into);
    write_names(names, into);
    write_count(carried.len(), into);
    write_ids(carried, into);
    Ok(())
}
