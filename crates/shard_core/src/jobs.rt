//! The parts of a market as jobs, worked side by side.

ghost use Rattle.std.specs.Prelude.{◌≡◌, ◌+◌, ◌<◌, ◌≤◌, IfOk, OnOk, length, map};
ghost use Rattle.rulebook.specs.Admission.{most_names};
ghost use Rattle.shard_core.specs.Jobs.{AreBack, AreJobsOf, IsJobOf};
ghost use Rattle.shard_core.specs.Turns.{AreFew, PartsTell, noted};

use crate::job::PartJob;
use crate::part::{Ids, work_all};
use crate::turns::Turn;
use market_core::Section;
use merge_core::Tagged;
use price_core::NoMemory;
use std::alloc::Global;
use std::mem;
use std::snapshot::Snapshot;
use std::thread::Threads;
use wire_in::Record;
use wire_out::Stamped;
use yard_core::Gate;

/// The job of one part. It takes the part's symbols and its list, and leaves a part with no symbols and an empty list.
fn job_of<'a>(
    alloc: Global,
    ids: Ids,
    index: u32,
    part: &mut Section,
    list: &mut Vec<Tagged>,
    xs: &'a [Record],
    turns: &'a [Turn],
) -> Result<PartJob<'a>, NoMemory>
    requires few { length part.old.symbols ≤ most_names }
    requires count { length turns.now ≡ length xs.now }
    requires short { length xs.now ≤ 65536 }
    ensures job { IfOk result (IsJobOf index ids part.old xs.now turns.now) }
    ensures few { length part.new.symbols ≤ most_names }
{
    let empty = Section::new(alloc)?;
    let section = mem::replace(part, empty);
    let told = mem::replace(list, Vec::new(alloc));
    Ok(PartJob {
        index,
        alloc,
        ids,
        before: Snapshot::of(&section),
        section,
        xs,
        turns,
        told,
        is_done: false,
        lacks_memory: false,
    })
}

/// A job for each of several parts, of which the first has the first ids. They take the symbols and the lists of the parts.
fn jobs_of<'a>(
    alloc: Global,
    parts: &mut [Section],
    xs: &'a [Record],
    turns: &'a [Turn],
    told: &mut [Vec<Tagged>],
) -> Result<Vec<PartJob<'a>>, NoMemory>
    requires parts { length parts.old ≤ 64 }
    requires told { length told.old ≡ length parts.old }
    requires few { AreFew parts.old }
    requires count { length turns.now ≡ length xs.now }
    requires short { length xs.now ≤ 65536 }
    ensures jobs { IfOk result (λ jobs. AreJobsOf parts.old xs.now turns.now jobs.items) }
    ensures count { IfOk result (λ jobs. length jobs.items ≡ length parts.old) }
    ensures parts { length parts.new ≡ length parts.old }
    ensures told { length told.new ≡ length told.old }
    ensures few { AreFew parts.new }
{
    let count = parts.len();
    let mut jobs = Vec::with_capacity(alloc, count)?;
    let mut start = 0;
    for k in 0..count {
        let ids = Ids {
            start,
            is_last: k + 1 == count,
        };
        start += parts[k].len();
        let job = job_of(alloc, ids, k as u32, &mut parts[k], &mut told[k], xs, turns)?;
        jobs.push_reserved(job);
    }
    Ok(jobs)
}

/// Puts the symbols and the lists of worked jobs back into the parts. It fails where a job found no memory.
fn take_back(
    jobs: Vec<PartJob<'_>>,
    parts: &mut [Section],
    told: &mut [Vec<Tagged>],
) -> Result<(), NoMemory>
    requires jobs { length jobs.items ≡ length parts.old }
    requires told { length told.old ≡ length parts.old }
    requires few { AreFew parts.old }
    ensures back { OnOk result (AreBack jobs.entry.items parts.new told.new) }
    ensures parts { length parts.new ≡ length parts.old }
    ensures told { length told.new ≡ length told.old }
    ensures few { AreFew parts.new }
{
    let mut left = jobs;
    while let Some(job) = left.pop() {
        if job.lacks_memory {
            return Err(NoMemory);
        }
        let index = left.len();
        parts[index] = job.section;
        told[index] = job.told;
    }
    Ok(())
}

/// Works each of several parts, of which the first has the first ids, by as many workers: each takes the turns of a block
/// over its symbols, and tells what they say.
fn work_beside<Rt: Threads + Sync, G: Gate>(
    rt: &Rt,
    gate: &G,
    alloc: Global,
    parts: &mut [Section],
    xs: &[Record],
    turns: &[Turn],
    told: &mut [Vec<Tagged>],
) -> Result<(), NoMemory>
    requires parts { (0 < length parts.old) × (length parts.old ≤ 64) }
    requires told { length told.old ≡ length parts.old }
    requires few { AreFew parts.old }
    requires count { length turns.now ≡ length xs.now }
    requires short { length xs.now ≤ 65536 }
    ensures tells { OnOk result (PartsTell 0 (length parts.old) (noted xs.now turns.now) parts.old parts.new (map (λ list. list.items) told.new)) }
    ensures parts { length parts.new ≡ length parts.old }
    ensures told { length told.new ≡ length told.old }
    ensures few { AreFew parts.new }
{
    let jobs = jobs_of(alloc, parts, xs, turns, told)?;
    let done = yard_core::work_all(rt, alloc, jobs, parts.len() as u32, gate)?;
    take_back(done, parts, told)
}

/// The fewest records that several workers take. Fewer are done here sooner than threads begin.
const FEWEST_BESIDE: usize = 1_024;

/// Works each of several parts: a single one here, as all of them where the records are few, and else several ones by as many
/// workers, each of which passes the gate before it works a part.
pub fn work_parts<Rt: Threads + Sync, G: Gate>(
    rt: &Rt,
    gate: &G,
    parts: &mut [Section],
    xs: &[Record],
    turns: &[Turn],
    said: &mut Vec<Stamped>,
    told: &mut [Vec<Tagged>],
) -> Result<(), NoMemory>
    requires parts { (0 < length parts.old) × (length parts.old ≤ 64) }
    requires told { length told.old ≡ length parts.old }
    requires few { AreFew parts.old }
    requires count { length turns.now ≡ length xs.now }
    requires short { length xs.now ≤ 65536 }
    ensures tells { OnOk result (PartsTell 0 (length parts.old) (noted xs.now turns.now) parts.old parts.new (map (λ list. list.items) told.new)) }
    ensures parts { length parts.new ≡ length parts.old }
    ensures told { length told.new ≡ length told.old }
    ensures few { AreFew parts.new }
{
    let alloc = *said.allocator();
    if parts.len() == 1 || xs.len() < FEWEST_BESIDE {
        work_all(alloc, parts, xs, turns, said, told)
    } else {
        work_beside(rt, gate, alloc, parts, xs, turns, told)
    }
}
