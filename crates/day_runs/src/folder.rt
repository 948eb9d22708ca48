//! The days of a folder.

use crate::day::Day;
use crate::files::read_file;
use crate::stated;
use crate::tally::{tell_difference, tell_error};
use crate::text::DayError;
use crate::way::{Way, days};
use std::alloc::Global;
use std::io;
use std::rt::Files;
use std::thread::Threads;

/// The sizes of batches in which every day is served by one worker.
const BATCHES: [u32; 4] = [1, 2, 63, 64];

/// The numbers of workers by which every day is replayed, and served in batches of 64.
const WORKERS: [u32; 4] = [1, 2, 3, 64];

/// The numbers of workers by which the journal of several days is served that is rolled behind each of them.
const ROLL_WORKERS: [u32; 3] = [1, 2, 64];

/// The most frames of a day that is cut in two behind each of them.
const CUT_MAX: usize = 64;

/// The most frames of a day whose records are evaluated by the definitions.
const PLAIN_MAX: usize = 400;

/// Reads the two files of a day.
fn read<Rt: Files + AllocGlobal>(rt: &Rt, name: &str) -> Result<Day, DayError> {
    let lines = read_file(rt, ".", name, ".lines")?;
    Day::of(
        rt.alloc(),
        &lines,
        read_file(rt, ".", name, ".served.lines")?,
    )
}

/// Tells of the first line in which a way sends something else than is stated, or of another end. Answers whether neither comes.
fn tell_way<Rt: Print>(
    rt: &Rt,
    title: &str,
    stated: &str,
    sent: &str,
    ends_as_stated: bool,
) -> io::Result<bool> {
    if !tell_difference(rt, title, stated, sent)? {
        return Ok(false);
    }
    if !ends_as_stated {
        println!(rt; "{title}: ends otherwise")?;
    }
    Ok(ends_as_stated)
}

/// Runs a day in a way, and tells of a difference to what is stated. Answers whether there is none.
fn compare<Rt: Print + Threads + Sync>(
    rt: &Rt,
    alloc: Global,
    title: &str,
    day: &Day,
    way: Way,
    stated: &str,
) -> io::Result<bool> {
    let mut sent = String::new(alloc);
    match way.run(rt, alloc, day, &mut sent) {
        Ok(ends_as_stated) => tell_way(rt, title, stated, &sent, ends_as_stated),
        Err(error) => tell_error(rt, title, &error),
    }
}

/// Runs a day in a way, and tells of a difference. Answers whether there is none.
fn try_way<Rt: Print + Threads + Sync>(
    rt: &Rt,
    alloc: Global,
    title: &str,
    day: &Day,
    way: Way,
) -> io::Result<bool> {
    let mut stated = String::new(alloc);
    match way.state(alloc, day, &mut stated) {
        Ok(()) => compare(rt, alloc, title, day, way, &stated),
        Err(error) => tell_error(rt, title, &error),
    }
}

/// The ways to serve a day, and to replay it where its journal has no limit of its own.
fn ways_by_workers(alloc: Global, day: &Day) -> Result<Vec<Way>, DayError> {
    let mut ways = Vec::new(alloc);
    for batch in BATCHES {
        ways.push(Way::Serve { batch, workers: 1 })?;
    }
    for workers in WORKERS {
        ways.push(Way::Serve { batch: 64, workers })?;
    }
    if day.limit.is_none() {
        for workers in WORKERS {
            ways.push(Way::Replay { workers })?;
        }
    }
    Ok(ways)
}

/// Adds the ways to serve a day of several days whose journal is rolled behind each of them.
fn add_rolls(ways: &mut Vec<Way>, day: &Day) -> Result<(), DayError> {
    if day.is_read_whole() {
        for workers in ROLL_WORKERS {
            ways.push(Way::Rolled { workers })?;
        }
    }
    Ok(())
}

/// The ways to run a day.
fn ways_of(alloc: Global, day: &Day) -> Result<Vec<Way>, DayError> {
    let frames = stated::frames(&day.served);
    let mut ways = ways_by_workers(alloc, day)?;
    if day.is_plain() && !stated::refuses(&day.served) && frames <= CUT_MAX {
        for frames in 1..=frames {
            ways.push(Way::Cut { frames, workers: 1 })?;
            ways.push(Way::Cut { frames, workers: 2 })?;
            ways.push(Way::TakenOver { frames })?;
        }
    }
    if frames <= PLAIN_MAX {
        ways.push(Way::Plain)?;
    }
    if day.limit.is_none() {
        ways.push(Way::Board)?;
    }
    match days(alloc, day)? {
        0 => {}
        1 => ways.push(Way::Audit)?,
        _ => add_rolls(&mut ways, day)?,
    }
    Ok(ways)
}

/// Runs a day in one way after the other, up to the first that differs. Answers whether none does.
fn try_each<Rt: Print + Threads + Sync>(
    rt: &Rt,
    alloc: Global,
    name: &str,
    day: &Day,
    ways: &[Way],
) -> io::Result<bool> {
    for way in ways {
        let title = format!(in alloc; "{name}: {way}")?;
        if !try_way(rt, alloc, &title, day, *way)? {
            return Ok(false);
        }
    }
    Ok(true)
}

/// Runs a day in each way. Answers whether none differs.
fn try_ways<Rt: Print + AllocGlobal + Threads + Sync>(
    rt: &Rt,
    name: &str,
    day: &Day,
) -> io::Result<bool> {
    match ways_of(rt.alloc(), day) {
        Ok(ways) => try_each(rt, rt.alloc(), name, day, &ways),
        Err(error) => tell_error(rt, name, &error),
    }
}

/// Reads a day, runs it in each way, and tells of a difference. Answers whether there is none.
pub fn try_day<Rt: Files + Print + AllocGlobal + Threads + Sync>(
    rt: &Rt,
    name: &str,
) -> io::Result<bool> {
    match read(rt, name) {
        Ok(day) => try_ways(rt, name, &day),
        Err(error) => tell_error(rt, name, &error),
    }
}
