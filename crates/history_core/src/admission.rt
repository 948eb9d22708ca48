//! What may follow a list of accepted records, which has the newest first.

ghost use Rattle.std.specs.Prelude.{◌≡◌, IfOk, OnOk, position};
ghost use Rattle.std.specs.Str.{bytes_eq};
ghost use Rattle.rulebook.specs.Admission.{last_day, is_among, with_name, names, id_of, is_listed_name, is_listed, is_early, is_unknown, lists_again, finds_no_id, verdict};

use price_core::NoMemory;
use rulebook::MOST_NAMES;
use session_core::Day;
use std::alloc::Global;
use wire_in::{Record, Refusal};

/// The day of the last Day record.
fn last_day(accepted: &[Record]) -> Option<Day>
    ensures { result ≡ last_day accepted.now }
{
    let (last, earlier) = accepted.split_first()?;
    match *last {
        Record::Day { day, .. } => Some(day),
        _ => last_day(earlier),
    }
}

/// The index of a name among these.
pub fn index_of(names: &[[u8; 8]], name: [u8; 8]) -> Option<usize>
    ensures { result ≡ position (bytes_eq name) names.now }
{
    names.iter().position(|other| name == *other)
}

fn is_among(names: &[[u8; 8]], name: [u8; 8]) -> bool
    ensures { result ≡ is_among names.now name }
{
    names.iter().any(|other| name == *other)
}

/// Adds a name that isn't among these.
fn add_name(names: &mut Vec<[u8; 8]>, name: [u8; 8]) -> Result<(), NoMemory>
    ensures { OnOk result (names.new.items ≡ with_name names.old.items name) }
{
    if !is_among(names, name) {
        names.push(name)?;
    }
    Ok(())
}

/// The distinct names of all listings, in order of their first listing.
pub fn names(alloc: Global, accepted: &[Record]) -> Result<Vec<[u8; 8]>, NoMemory>
    ensures { IfOk result (λ listed. listed.items ≡ names accepted.now) }
{
    let Some((last, earlier)) = accepted.split_first() else {
        return Ok(Vec::new(alloc));
    };
    let mut listed = names(alloc, earlier)?;
    if let Record::Listing { name, .. } = *last {
        add_name(&mut listed, name)?;
    }
    Ok(listed)
}

/// The id of a name, where it was ever listed.
pub fn id_of(alloc: Global, accepted: &[Record], name: [u8; 8]) -> Result<Option<usize>, NoMemory>
    ensures { IfOk result (λ id. id ≡ id_of accepted.now name) }
{
    let listed = names(alloc, accepted)?;
    Ok(index_of(&listed, name))
}

/// Whether a name is listed today.
fn is_listed_name(accepted: &[Record], name: [u8; 8]) -> bool
    ensures { result ≡ is_listed_name accepted.now name }
{
    let Some((last, earlier)) = accepted.split_first() else {
        return false;
    };
    match *last {
        Record::Day { .. } => false,
        Record::Listing { name: other, .. } => other == name || is_listed_name(earlier, name),
        _ => is_listed_name(earlier, name),
    }
}

/// Whether the name of an id is listed today.
pub fn is_listed(alloc: Global, accepted: &[Record], id: u16) -> Result<bool, NoMemory>
    ensures { IfOk result (λ listed. listed ≡ is_listed accepted.now id) }
{
    let listed = names(alloc, accepted)?;
    match listed.get(id as usize) {
        Some(name) => Ok(is_listed_name(accepted, *name)),
        None => Ok(false),
    }
}

fn is_early(accepted: &[Record], x: &Record) -> bool
    ensures { result ≡ is_early accepted.now x.now }
{
    match (x, accepted.first()) {
        (Record::Day { day, .. }, _) => match last_day(accepted) {
            Some(last) => !day.date.is_after(last.date),
            None => false,
        },
        (_, Some(last)) => x.moment() < last.moment(),
        (_, None) => false,
    }
}

fn is_unknown(alloc: Global, accepted: &[Record], x: &Record) -> Result<bool, NoMemory>
    ensures { IfOk result (λ unknown. unknown ≡ is_unknown accepted.now x.now) }
{
    match x.symbol() {
        Some(id) => Ok(!is_listed(alloc, accepted, id)?),
        None => Ok(false),
    }
}

fn lists_again(accepted: &[Record], x: &Record) -> bool
    ensures { result ≡ lists_again accepted.now x.now }
{
    match *x {
        Record::Listing { name, .. } => is_listed_name(accepted, name),
        _ => false,
    }
}

fn finds_no_id(alloc: Global, accepted: &[Record], x: &Record) -> Result<bool, NoMemory>
    ensures { IfOk result (λ full. full ≡ finds_no_id accepted.now x.now) }
{
    let Record::Listing { name, .. } = *x else {
        return Ok(false);
    };
    let listed = names(alloc, accepted)?;
    Ok(!is_among(&listed, name) && listed.len() >= MOST_NAMES)
}

/// The first refusal that applies to a record after these, under a limit of records.
pub fn verdict(
    alloc: Global,
    limit: u64,
    accepted: &[Record],
    x: &Record,
) -> Result<Option<Refusal>, NoMemory>
    ensures { IfOk result (λ refusal. refusal ≡ verdict limit accepted.now x.now) }
{
    if !x.is_day() && last_day(accepted).is_none() {
        Ok(Some(Refusal::NoDay))
    } else if is_early(accepted, x) {
        Ok(Some(Refusal::OutOfOrder))
    } else if is_unknown(alloc, accepted, x)? {
        Ok(Some(Refusal::UnknownSymbol))
    } else if lists_again(accepted, x) {
        Ok(Some(Refusal::AlreadyListed))
    } else if finds_no_id(alloc, accepted, x)? {
        Ok(Some(Refusal::DirectoryFull))
    } else if limit <= accepted.len() as u64 {
        Ok(Some(Refusal::JournalFull))
    } else {
        Ok(None)
    }
}
