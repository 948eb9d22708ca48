//! Ranges of ids that are cut anew between blocks, by the records that the ids had.

ghost use Rattle.std.specs.Prelude.{◌≡◌, ◌+◌, ◌<◌, ◌≤◌, ◌++◌, IfOk, IsOk, OnOk, flat_map, length};
ghost use Rattle.rulebook.specs.Admission.{most_names};
ghost use Rattle.shard_core.specs.Turns.{AreFew};

use crate::ranges::{cut, sum_of};
use crate::turns::{Target, Turn};
use market_core::Section;
use price_core::NoMemory;
use rulebook::MOST_NAMES;
use std::alloc::Global;

/// Of so many records one is counted.
const SAMPLE: usize = 8;

/// How many records each id had since the ranges were last looked at, how many all records were, and whether names were
/// listed.
#[derive(Drop)]
pub struct Counts {
    of_ids: Vec<u32>,
    records: usize,
    listed: bool,
    ghost few: { length of_ids.items ≤ most_names },
}

/// Counts a record of an id.
fn add(loads: &mut [u32], id: u16)
    ensures { length loads.new ≡ length loads.old }
{
    let id = id as usize;
    if id < loads.len() {
        loads[id] = loads[id].saturating_add(1);
    }
}

impl Counts {
    /// No records.
    pub fn new(alloc: Global) -> Counts {
        Counts {
            of_ids: Vec::new(alloc),
            records: 0,
            listed: true,
        }
    }

    /// One record of each of so many ids, at most 16,384.
    fn of_each(alloc: Global, count: usize) -> Result<Counts, NoMemory>
        requires few { count ≤ most_names }
    {
        let mut of_ids = Vec::with_capacity(alloc, count)?;
        for _id in 0..count {
            of_ids.push_reserved(1);
        }
        Ok(Counts {
            of_ids,
            records: 0,
            listed: false,
        })
    }

    /// Counts the records of a block that are of one id each, by a part of them.
    fn count(&mut self, turns: &[Turn]) {
        for turn in turns.iter().step_by(SAMPLE) {
            if let Target::One(id) = turn.target {
                add(&mut self.of_ids, id);
            }
        }
        self.records = self.records.saturating_add(turns.len());
    }

    /// Begins to count the records of the ids that are new, where there are so many now, with one each. An error leaves some
    /// of them out.
    fn begin(&mut self, names: usize) -> Result<(), NoMemory> {
        while self.of_ids.len() < names.min(MOST_NAMES) {
            self.of_ids.reserve(1)?;
            self.of_ids.push_reserved(1);
            self.listed = true;
        }
        Ok(())
    }

    /// Whether names were listed since the ranges were last looked at, or these never were.
    pub fn awaits_cut(&self) -> bool {
        self.listed
    }

    /// Forgets the records of each id.
    fn forget(&mut self) {
        self.of_ids.fill(0);
        self.records = 0;
        self.listed = false;
    }
}

/// Counts the records of a block, behind which there are so many names, where there are several parts.
pub fn count(
    parts: &[Section],
    turns: &[Turn],
    names: u32,
    counts: &mut Counts,
) -> Result<(), NoMemory> {
    if parts.len() < 2 {
        return Ok(());
    }
    counts.begin(names as usize)?;
    counts.count(turns);
    Ok(())
}

/// The upper ends of the ranges of several parts.
fn ends_of(alloc: Global, parts: &[Section]) -> Result<Vec<u32>, NoMemory> {
    let mut ends = Vec::new(alloc);
    let mut end = 0u32;
    for part in parts {
        end = end.saturating_add(part.len().min(MOST_NAMES) as u32);
        ends.push(end)?;
    }
    Ok(ends)
}

/// The greatest load of a range, of several ones with these upper ends.
fn greatest_of(ends: &[u32], loads: &[u32]) -> u64
    requires { length loads.now ≤ most_names }
    ensures few { result ≤ 70368744161280 }
{
    let mut greatest = 0;
    let mut start = 0;
    for end in ends {
        let end = (*end as usize).min(loads.len()).max(start);
        greatest = sum_of(&loads[start..end]).max(greatest);
        start = end;
    }
    greatest
}

/// Whether the greatest load of a range becomes a fifth smaller.
fn is_evener(anew: &[u32], ends: &[u32], loads: &[u32]) -> bool
    requires { length loads.now ≤ most_names }
{
    5 * greatest_of(anew, loads) < 4 * greatest_of(ends, loads)
}

/// Moves the stocks of several parts behind those of a section, in their order. The parts are left with none. It takes no
/// memory where the section has room for them.
pub(crate) fn gather(all: &mut Section, parts: &mut [Section]) -> Result<(), NoMemory>
    requires few { AreFew parts.old }
    ensures all { OnOk result (all.new.symbols ≡ all.old.symbols ++ flat_map (λ part. part.symbols) parts.old) }
    ensures succeeds { length (flat_map (λ part. part.symbols) parts.old) ≤ all.old.spare → IsOk result }
    ensures spare { OnOk result (all.old.spare ≤ all.new.spare + length (flat_map (λ part. part.symbols) parts.old)) }
    ensures parts { length parts.new ≡ length parts.old }
    ensures few { AreFew parts.new }
{
    for k in 0..parts.len() {
        all.append(&mut parts[k])?;
    }
    Ok(())
}

/// Deals stocks out to parts in their order, to each of them up to its end.
fn deal(all: Section, ends: &[u32], parts: &mut [Section]) -> Result<(), NoMemory>
    requires some { 0 < length parts.old }
    requires ends { length ends.now ≡ length parts.old }
    requires stocks { length all.symbols ≤ most_names }
    requires few { AreFew parts.old }
    ensures all { OnOk result (flat_map (λ part. part.symbols) parts.new ≡ all.symbols) }
    ensures parts { length parts.new ≡ length parts.old }
    ensures few { AreFew parts.new }
{
    let mut left = all;
    let mut k = parts.len() - 1;
    while 0 < k {
        let end = (ends[k - 1] as usize).min(left.len());
        parts[k] = left.split_off(end)?;
        k -= 1;
    }
    parts[0] = left;
    Ok(())
}

/// Deals stocks out to parts in their order, to each of them about as many as to the others, but to the first one two thirds of
/// that, and counts a record for each stock.
pub(crate) fn deal_evenly(
    alloc: Global,
    all: Section,
    parts: &mut [Section],
) -> Result<Counts, NoMemory>
    requires parts { (0 < length parts.old) × (length parts.old ≤ 64) }
    requires few { AreFew parts.old }
    ensures all { OnOk result (flat_map (λ part. part.symbols) parts.new ≡ all.symbols) }
    ensures parts { length parts.new ≡ length parts.old }
    ensures few { AreFew parts.new }
{
    if all.len() > MOST_NAMES {
        return Err(NoMemory);
    }
    let counts = Counts::of_each(alloc, all.len())?;
    let ends = ends_by_loads(alloc, &counts.of_ids, parts.len())?;
    deal(all, &ends, parts)?;
    Ok(counts)
}

/// The upper ends of the ranges of several parts by the loads of the ids. Of three shares that each part has, the first one has
/// two: the thread that works it also judges the records and answers them.
fn ends_by_loads(alloc: Global, loads: &[u32], parts: usize) -> Result<Vec<u32>, NoMemory>
    requires parts { (0 < parts) × (parts ≤ 64) }
    requires loads { length loads.now ≤ most_names }
    ensures { IfOk result (λ ends. length ends.items ≡ parts) }
{
    let shares = cut(alloc, loads, 3 * parts as u32 - 1)?;
    let mut ends = Vec::with_capacity(alloc, parts)?;
    for part in 0..parts {
        ends.push_reserved(shares[3 * part + 1]);
    }
    Ok(ends)
}

/// Cuts several parts anew at these upper ends. They have the same stocks in the same order then.
fn cut_at(alloc: Global, parts: &mut [Section], ends: &[u32]) -> Result<(), NoMemory>
    requires some { 0 < length parts.old }
    requires ends { length ends.now ≡ length parts.old }
    requires few { AreFew parts.old }
    ensures stocks { OnOk result (flat_map (λ part. part.symbols) parts.new ≡ flat_map (λ part. part.symbols) parts.old) }
    ensures parts { length parts.new ≡ length parts.old }
    ensures few { AreFew parts.new }
{
    let mut all = Section::new(alloc)?;
    gather(&mut all, parts)?;
    if all.len() > MOST_NAMES {
        return Err(NoMemory);
    }
    deal(all, ends, parts)
}

/// Cuts the ranges of several parts anew by the loads of the ids, where that makes the greatest load of a part smaller by a
/// fifth.
fn cut_anew(alloc: Global, parts: &mut [Section], loads: &[u32]) -> Result<(), NoMemory>
    requires parts { (0 < length parts.old) × (length parts.old ≤ 64) }
    requires few { AreFew parts.old }
    requires loads { length loads.now ≤ most_names }
    ensures stocks { OnOk result (flat_map (λ part. part.symbols) parts.new ≡ flat_map (λ part. part.symbols) parts.old) }
    ensures parts { length parts.new ≡ length parts.old }
    ensures few { AreFew parts.new }
{
    let anew = ends_by_loads(alloc, loads, parts.len())?;
    let ends = ends_of(alloc, parts)?;
    if !is_evener(&anew, &ends, loads) {
        return Ok(());
    }
    cut_at(alloc, parts, &anew)
}

/// Evens out the loads of several parts: each has the stocks of a range of ids as before, and all of them the same stocks in
/// the same order. It looks at the loads once in as many counted records as there are ids.
pub fn even_out(alloc: Global, parts: &mut [Section], counts: &mut Counts) -> Result<(), NoMemory>
    requires parts { (0 < length parts.old) × (length parts.old ≤ 64) }
    requires few { AreFew parts.old }
    ensures stocks { OnOk result (flat_map (λ part. part.symbols) parts.new ≡ flat_map (λ part. part.symbols) parts.old) }
    ensures parts { length parts.new ≡ length parts.old }
    ensures few { AreFew parts.new }
{
    if parts.len() < 2 || counts.records / SAMPLE < counts.of_ids.len() {
        return Ok(());
    }
    cut_anew(alloc, parts, &counts.of_ids)?;
    counts.forget();
    Ok(())
}
