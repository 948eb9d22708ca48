//! A day of `examples/`: its files, and what the commands send over them.

use host_core::Status;
use memory_host::MemoryHost;
use price_core::NoMemory;
use replay_core::{ReplayOptions, replay};
use std::alloc::Global;
use std::rt::Files;
use std::thread::Threads;
use std::{fs, io};
use text_core::{Kind, pack_stream, print_stream};
use yard_core::OpenGate;

/// What the files of a day hold.
#[derive(Debug, Drop)]
pub struct ExampleDay {
    alloc: Global,
    /// Its records as lines.
    lines: Vec<u8>,
    /// Its records as frames.
    frames: Vec<u8>,
    /// What a replay of it publishes, as lines.
    published: Vec<u8>,
}

/// The lines of what a replay publishes, and how it ended.
#[derive(Debug, Drop)]
pub struct PublishedLines {
    pub status: Status,
    pub text: Vec<u8>,
}

/// The most bytes that a replay reads.
const BYTES_MAX: u64 = 1_099_511_627_776;

/// The lines of what a replay of these frames publishes.
pub fn published_lines<Rt: Threads + Sync>(
    rt: &Rt,
    alloc: Global,
    frames: &[u8],
) -> Result<PublishedLines, NoMemory> {
    let mut host = MemoryHost::new(alloc, frames, b"")?;
    let options = ReplayOptions {
        workers: 1,
        bytes: BYTES_MAX,
    };
    let replayed = replay(rt, alloc, &mut host, &OpenGate, &options);
    let mut printer = MemoryHost::new(alloc, host.sent(), b"")?;
    let printed = print_stream(alloc, &mut printer, Kind::Published);
    let status = if replayed == Status::Done {
        printed
    } else {
        replayed
    };
    Ok(PublishedLines {
        status,
        text: Vec::from_slice(alloc, printer.sent())?,
    })
}

impl ExampleDay {
    /// Reads the three files of a day from the folder that the program runs in.
    pub fn read<Rt: Files + AllocGlobal>(rt: &Rt, name: &str) -> io::Result<ExampleDay> {
        let alloc = rt.alloc();
        let lines = format!(in alloc; "{name}.lines")?;
        let published = format!(in alloc; "{name}.published.lines")?;
        Ok(ExampleDay {
            alloc,
            lines: fs::read(rt, lines.as_str())?,
            frames: fs::read(rt, name)?,
            published: fs::read(rt, published.as_str())?,
        })
    }

    /// Whether its lines are packed as its frames.
    pub fn packs(&self) -> Result<bool, NoMemory> {
        let mut host = MemoryHost::new(self.alloc, &self.lines, b"")?;
        let status = pack_stream(self.alloc, &mut host, Kind::Records);
        Ok(status == Status::Done && host.sent() == self.frames.as_slice())
    }

    /// Whether its frames are printed as its lines.
    pub fn prints(&self) -> Result<bool, NoMemory> {
        let mut host = MemoryHost::new(self.alloc, &self.frames, b"")?;
        let status = print_stream(self.alloc, &mut host, Kind::Records);
        Ok(status == Status::Done && host.sent() == self.lines.as_slice())
    }

    /// Whether a replay of its frames sends what is printed as its published lines.
    pub fn replays<Rt: Threads + Sync>(&self, rt: &Rt) -> Result<bool, NoMemory> {
        let lines = published_lines(rt, self.alloc, &self.frames)?;
        Ok(lines.status == Status::Done && lines.text == self.published)
    }
}
