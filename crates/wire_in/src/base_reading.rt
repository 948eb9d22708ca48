//! From bytes to their base.

ghost use Rattle.std.specs.Prelude.{ℕ, ◌≡◌, ◌↔◌, ◌+◌, ◌*◌, ◌≤◌, ◌<◌, ◌^◌, [], true, Err, All, IsTrue, IfOk, IfSome, Some, length, take, drop};
ghost use Rattle.std.specs.Int.{w16, to_be_bytes};
ghost use Rattle.std.specs.List.{flat_map};
ghost use Rattle.wire_in.specs.Bases.{AreNew, AreRising, HasDay, HasFew, HasForm, HasNames, IsInRange, IsListed, IsNearlyInRange, SpellsBase};
ghost use Rattle.wire_in.specs.declared.base.Base.{Base};
ghost use Rattle.wire_in.specs.declared.base.BaseError.TheVariants as errors;
ghost use Rattle.wire_in.specs.declared.record.Record.{Record};
ghost use Rattle.wire_in.specs.Records.{is_day};

use crate::base::{Base, BaseError, Ids, Names};
use crate::decoding::decode;
use crate::record::Record;
use indexmap::IndexSet;
use price_core::NoMemory;
use std::alloc::Global;
use wire_core::{name_at, u16_at, u64_at};

/// The most names of a base.
const MOST_NAMES: usize = 16_384;

/// The most messages of a record.
const MOST_OF_RECORD: u64 = 262_146;

/// How many names a body says that it has, where its length is that of its names and its ids.
fn name_count(body: &[u8]) -> Option<usize>
    ensures found { IfSome result (λ count. HasNames count body.now) }
    ensures only { (count : ℕ) → HasNames count body.now → result ≡ Some count }
{
    if body.len() < 40 {
        return None;
    }
    let count = u16_at(body, 36) as usize;
    let at = 38 + 8 * count;
    if body.len() < at + 2 {
        return None;
    }
    if body.len() != at + 2 + 2 * u16_at(body, at) as usize {
        return None;
    }
    Some(count)
}

/// The day of a body.
fn day_at(body: &[u8]) -> Option<Record>
    requires { 36 ≤ length body.now }
    ensures found { IfSome result (λ x. HasDay x body.now) }
    ensures only { (x : Record) → HasDay x body.now → result ≡ Some x }
{
    let Ok(x) = decode(&body[17..36]) else {
        return None;
    };
    if body[16] != 19 || !x.is_day() {
        return None;
    }
    Some(x)
}

/// The eight bytes at an offset.
fn eight_at(bytes: &[u8], at: usize) -> [u8; 8]
    requires { at + 8 ≤ length bytes.now }
    ensures bytes { result ≡ take 8 (drop at bytes.now) }
    ensures len { length result ≡ 8 }
{
    let mut name = [0; 8];
    name.copy_from_slice(&bytes[at..at + 8]);
    name
}

/// The names of which these are the bytes.
fn names_of(alloc: Global, bytes: &[u8], count: usize) -> Result<Names, NoMemory>
    requires { length bytes.now ≡ 8 * count }
    ensures bytes { IfOk result (λ names. flat_map (λ name. name) names ≡ bytes.now) }
    ensures sizes { IfOk result (λ names. All (λ name. length name ≡ 8) names) }
    ensures count { IfOk result (λ names. length names ≡ count) }
{
    let mut names = Names::new(alloc);
    for i in 0..count {
        names.push(eight_at(bytes, 8 * i))?;
    }
    Ok(names)
}

/// The ids of which these are the bytes.
fn ids_of(alloc: Global, bytes: &[u8], count: usize) -> Result<Ids, NoMemory>
    requires { length bytes.now ≡ 2 * count }
    ensures bytes { IfOk result (λ ids. flat_map (to_be_bytes w16) ids ≡ bytes.now) }
    ensures range { IfOk result (λ ids. All (λ s. s < 2 ^ 16) ids) }
    ensures count { IfOk result (λ ids. length ids ≡ count) }
{
    let mut ids = Ids::new(alloc);
    for i in 0..count {
        ids.push(u16_at(bytes, 2 * i))?;
    }
    Ok(ids)
}

/// Whether this is a name as listings have it.
fn is_listed(name: [u8; 8]) -> bool
    ensures { IsTrue result ↔ IsListed name }
{
    name_at(&name, 0).is_some()
}

/// Whether all of these are names as listings have them.
fn are_names(names: &[[u8; 8]]) -> bool
    ensures { IsTrue result ↔ All IsListed names.now }
{
    for name in names {
        if !is_listed(*name) {
            return false;
        }
    }
    true
}

/// Whether no name stands there twice.
fn are_different(alloc: Global, names: &[[u8; 8]]) -> Result<bool, NoMemory>
    ensures { IfOk result (λ holds. IsTrue holds ↔ AreNew [] names.now) }
{
    let mut seen = IndexSet::with_capacity(alloc, names.len())?;
    for name in names {
        if !seen.insert(*name)? {
            return Ok(false);
        }
    }
    Ok(true)
}

/// Whether these ids rise and are below the number of names.
fn rise_below(ids: &[u16], count: usize) -> bool
    ensures { IsTrue result ↔ (AreRising ids.now × All (λ s. s < count) ids.now) }
{
    let mut least = 0;
    for id in ids {
        let id = *id as usize;
        if id < least || count <= id {
            return false;
        }
        least = id + 1;
    }
    true
}

/// Whether the numbers of a base are in their ranges.
fn has_few(b: &Base) -> bool
    ensures { IsTrue result ↔ HasFew b.now }
{
    1 <= b.records
        && b.records <= 2_000_000_000
        && b.messages <= MOST_OF_RECORD * b.records
        && b.names.list().len() <= MOST_NAMES
}

/// Whether a base is in its ranges, but for names that stand there twice.
fn is_nearly_in_range(b: &Base) -> bool
    ensures { IsTrue result ↔ IsNearlyInRange b.now }
{
    let names = b.names.list();
    has_few(b) && are_names(names) && rise_below(b.carried.list(), names.len())
}

/// Whether a base is in its ranges, given that it begins with a day.
fn is_in_range(alloc: Global, b: &Base) -> Result<bool, NoMemory>
    requires begins { is_day b.now.day ≡ true }
    ensures { IfOk result (λ holds. IsTrue holds ↔ IsInRange b.now) }
{
    if !is_nearly_in_range(b) {
        return Ok(false);
    }
    are_different(alloc, b.names.list())
}

impl Base {
    /// Whether it is in its ranges, as the base of each lawful list is. It takes memory for its names.
    pub fn is_in_range(&self, alloc: Global) -> Result<bool, NoMemory>
        ensures { IfOk result (λ holds. IsTrue holds ↔ IsInRange self.now) }
    {
        if !self.day.is_day() {
            return Ok(false);
        }
        is_in_range(alloc, self)
    }
}

/// Reads a base, whether or not it is in its ranges.
fn read_base(alloc: Global, body: &[u8]) -> Result<Base, BaseError>
    ensures found { IfOk result (HasForm body.now) }
    ensures bad { result ≡ Err errors.BadBase → (b : Base) → ¬ SpellsBase body.now b }
{
    let Some(count) = name_count(body) else {
        return Err(BaseError::BadBase);
    };
    let Some(day) = day_at(body) else {
        return Err(BaseError::BadBase);
    };
    let at = 38 + 8 * count;
    let ids = &body[at + 2..];
    Ok(Base {
        records: u64_at(body, 0),
        messages: u64_at(body, 8),
        day,
        names: names_of(alloc, &body[38..at], count)?,
        carried: ids_of(alloc, ids, ids.len() / 2)?,
    })
}

/// The base that a body spells. `BadBase` comes only where it spells none, and where it spells none no base comes.
pub fn get_base(alloc: Global, body: &[u8]) -> Result<Base, BaseError>
    ensures found { IfOk result (SpellsBase body.now) }
    ensures only { (b : Base) → SpellsBase body.now b → IfOk result (λ a. a ≡ b) }
    ensures bad { result ≡ Err errors.BadBase → (b : Base) → ¬ SpellsBase body.now b }
{
    let b = read_base(alloc, body)?;
    if is_in_range(alloc, &b)? {
        Ok(b)
    } else {
        Err(BaseError::BadBase)
    }
}
