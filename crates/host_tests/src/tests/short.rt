//! The journal's file over files that move a few bytes at a time.

use super::disks::Step::{self, Len, Read, Sync, Write};
use super::disks::play_and_refuse;
use crate::ShortFiles;
use host_core::{Held, JournalFile, Opens, SystemFiles};
use std::fs;
use std::os::unix::fs::FileExt;
use std::process::Abort;
use std::rt::Files;

/// Bytes that are written over others, and read.
const DONE: &[Step<'static>] = &[
    Write(
        0,
        b"each of these bytes stands in its place, whatever a call moves",
    ),
    Write(8, b"THESE BYTES STAND"),
    Sync,
    Len(62),
    Read(
        0,
        b"each of THESE BYTES STANDs in its place, whatever a call moves",
    ),
    Read(40, b" whatever a call moves"),
];

/// A read past the end.
const REFUSED: &[Step<'static>] = &[Read(41, &[0; 22])];

/// A file of a path does the steps.
fn keeps_all<R: Abort + AllocGlobal, O: Opens + Drop>(rt: &R, files: O, path: &str) {
    play_and_refuse(rt, JournalFile::new(files, path), DONE, REFUSED);
}

/// The same over the files of a runtime.
fn keeps_all_in<R: Abort + AllocGlobal, F: Files>(rt: &R, files: &F, path: &str)
where
    F::File: FileExt + Held,
{
    keeps_all(rt, SystemFiles::new(files), path);
}

#[test]
fn short_writes_and_reads_lose_nothing(rt: HostRuntime) {
    // A file of an earlier run may stand there.
    let _ = fs::remove_file(&rt, "short.bin");
    keeps_all_in(&rt, &ShortFiles::new(&rt), "short.bin");
}
