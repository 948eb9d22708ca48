//! Calls of a disk as steps.

use Step::{IsPage, Len, Read, Sync, Write, WritePage};
use host_core::Disk;
use std::alloc::{AllocError, Global};
use std::io;
use std::process::Abort;

/// A call of a disk, and what it has to answer. Offsets and lengths are in bytes.
#[derive(Clone, Copy)]
pub enum Step<'a> {
    Write(u64, &'a [u8]),
    Sync,
    /// From an offset on the disk has these bytes.
    Read(u64, &'a [u8]),
    Len(u64),
    /// The bytes of a page between two offsets are written.
    WritePage(usize, usize),
    /// The disk is a page, but for a run of `#` between two offsets.
    IsPage(usize, usize),
}

/// How many bytes a page has.
const PAGE: usize = 10_000;

/// A byte of a page: it tells its offset, but in a run.
fn byte_at(offset: usize, run: (usize, usize)) -> u8 {
    if run.0 <= offset && offset < run.1 {
        b'#'
    } else {
        (offset % 251) as u8
    }
}

/// The bytes between two offsets of a page with a run.
fn page(alloc: Global, from: usize, to: usize, run: (usize, usize)) -> Result<Vec<u8>, AllocError> {
    let mut bytes = Vec::new(alloc);
    for offset in from..to {
        bytes.push(byte_at(offset, run))?;
    }
    Ok(bytes)
}

/// Writes the bytes of a page between two offsets.
fn write_page<D: Disk>(alloc: Global, disk: &mut D, from: usize, to: usize) -> Option<bool> {
    let bytes = page(alloc, from, to, (0, 0)).ok()?;
    done(disk.write(from as u64, &bytes))
}

/// Whether a read into a buffer gives these bytes.
fn reads<D: Disk>(disk: &mut D, at: u64, into: &mut [u8], wanted: &[u8]) -> Option<bool> {
    disk.read(at, into).ok()?;
    Some(*into == *wanted)
}

/// Whether these bytes stand on a disk from an offset on.
fn has<D: Disk>(alloc: Global, disk: &mut D, at: u64, wanted: &[u8]) -> Option<bool> {
    let mut bytes = Vec::from_elem(alloc, 0, wanted.len()).ok()?;
    reads(disk, at, &mut bytes, wanted)
}

/// Whether a disk has so many bytes.
fn has_len<D: Disk>(disk: &mut D, wanted: u64) -> Option<bool> {
    Some(disk.len().ok()? == wanted)
}

/// Whether a disk has these bytes and no others.
fn is_whole<D: Disk>(alloc: Global, disk: &mut D, wanted: &[u8]) -> Option<bool> {
    let stands = has(alloc, disk, 0, wanted)?;
    let ends = has_len(disk, wanted.len() as u64)?;
    Some(stands && ends)
}

/// Whether a disk is a page, but for a run.
fn is_page<D: Disk>(alloc: Global, disk: &mut D, run: (usize, usize)) -> Option<bool> {
    let wanted = page(alloc, 0, PAGE, run).ok()?;
    is_whole(alloc, disk, &wanted)
}

/// True of a call that is done.
fn done(answer: io::Result<()>) -> Option<bool> {
    answer.ok()?;
    Some(true)
}

/// Whether a disk answers a call as wanted; none where the call is an error.
fn answer<D: Disk>(alloc: Global, disk: &mut D, step: Step<'_>) -> Option<bool> {
    match step {
        Write(at, bytes) => done(disk.write(at, bytes)),
        Sync => done(disk.sync()),
        Read(at, wanted) => has(alloc, disk, at, wanted),
        Len(wanted) => has_len(disk, wanted),
        WritePage(from, to) => write_page(alloc, disk, from, to),
        IsPage(from, to) => is_page(alloc, disk, (from, to)),
    }
}

/// Takes the steps one after the other, of which each is answered so.
fn go_over<R: Abort + AllocGlobal, D: Disk>(
    rt: &R,
    disk: &mut D,
    steps: &[Step<'_>],
    wanted: Option<bool>,
) {
    for (place, step) in steps.iter().enumerate() {
        assert!(rt; answer(rt.alloc(), disk, *step) == wanted, "step {place}");
    }
}

/// Takes the steps one after the other.
pub fn play<R: Abort + AllocGlobal, D: Disk>(rt: &R, disk: &mut D, steps: &[Step<'_>]) {
    go_over(rt, disk, steps, Some(true));
}

/// None of the calls is done.
pub fn refuse<R: Abort + AllocGlobal, D: Disk>(rt: &R, disk: &mut D, steps: &[Step<'_>]) {
    go_over(rt, disk, steps, None);
}

/// Takes the steps one after the other, and none of the others is done. The disk is closed then.
pub fn play_and_refuse<R: Abort + AllocGlobal, D: Disk + Drop>(
    rt: &R,
    mut disk: D,
    done: &[Step<'_>],
    refused: &[Step<'_>],
) {
    play(rt, &mut disk, done);
    refuse(rt, &mut disk, refused);
}
