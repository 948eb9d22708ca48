//! Files that say what a command answers.

use crate::day::Day;
use crate::files::read_file;
use crate::published::{add_text, packed};
use crate::replies::add_replies;
use crate::tally::{tell_difference, tell_error};
use crate::text::{DayError, push_line};
use crate::way::over_journal;
use command_core::{run, tell};
use host_core::{Status, Stream};
use memory_host::MemoryHost;
use std::alloc::Global;
use std::io;
use std::rt::Files;
use std::thread::Threads;
use yard_core::OpenGate;

/// A command that reads an input, and maybe an empty journal.
#[derive(Clone, Copy)]
pub enum Command {
    /// Of `audits/NAME.published.lines`, whose frames it reads, `audits/NAME.audit` says what it answers.
    Audit,
    /// Of the auction in `crosses/NAME.lines`, `crosses/NAME.cross` says what it answers.
    Cross,
    /// Of the Parts in `standbys/NAME.lines`, which an empty journal takes, `standbys/NAME.replies` says what it replies.
    Standby,
}

impl Command {
    /// The words that ask for it.
    fn words(self) -> [&'static str; 1] {
        match self {
            Command::Audit => ["audit"],
            Command::Cross => ["cross"],
            Command::Standby => ["standby"],
        }
    }

    /// What each of its files says, in a word.
    pub fn kind(self) -> &'static str {
        match self {
            Command::Audit => "audit",
            Command::Cross => "auction",
            Command::Standby => "standby",
        }
    }

    /// The folder that has its files.
    pub fn folder(self) -> &'static str {
        match self {
            Command::Audit => "audits",
            Command::Cross => "crosses",
            Command::Standby => "standbys",
        }
    }

    /// How the name of a file ends that says what it answers.
    pub fn ending(self) -> &'static str {
        match self {
            Command::Audit => ".audit",
            Command::Cross => ".cross",
            Command::Standby => ".replies",
        }
    }

    /// How the name of a file ends that says what it reads.
    fn input_ending(self) -> &'static str {
        match self {
            Command::Audit => ".published.lines",
            Command::Cross | Command::Standby => ".lines",
        }
    }

    /// A host over what it reads of a file.
    fn host(self, alloc: Global, text: &str) -> Result<MemoryHost, DayError> {
        match self {
            Command::Audit => packed(alloc, text),
            Command::Cross => Ok(MemoryHost::new(alloc, text.as_bytes(), b"")?),
            Command::Standby => {
                let day = Day::of(alloc, text, String::new(alloc))?;
                over_journal(alloc, &day.input, day.limit)
            }
        }
    }

    /// Puts the lines of what it sent behind a text.
    fn add_sent(self, alloc: Global, text: &mut String, sent: &[u8]) -> Result<(), DayError> {
        match self {
            Command::Audit | Command::Cross => add_text(text, sent),
            Command::Standby => add_replies(alloc, text, sent),
        }
    }
}

/// Puts the line on standard error of an end behind a text.
fn add_told(alloc: Global, text: &mut String, status: Status) -> Result<(), DayError> {
    let mut told = Vec::new(alloc);
    tell(&mut Stream::new(&mut told), status)?;
    add_text(text, &told)
}

/// Puts the exit code of an end behind a text.
fn add_code(alloc: Global, text: &mut String, status: Status) -> Result<(), DayError> {
    let line = format!(in alloc; "exit {}", status.code())?;
    Ok(push_line(text, &line)?)
}

/// Puts behind a text what a command sends for what a host reads, and then the line on standard error and the exit code of another
/// end than Done.
fn answer<Rt: Threads + Sync>(
    rt: &Rt,
    alloc: Global,
    command: Command,
    host: &mut MemoryHost,
    text: &mut String,
) -> Result<(), DayError> {
    let status = run(rt, alloc, &command.words(), host, &OpenGate);
    command.add_sent(alloc, text, host.sent())?;
    if status == Status::Done {
        return Ok(());
    }
    add_told(alloc, text, status)?;
    add_code(alloc, text, status)
}

/// Puts behind a text what a command answers of a file.
fn answer_file<Rt: Files + AllocGlobal + Threads + Sync>(
    rt: &Rt,
    command: Command,
    name: &str,
    text: &mut String,
) -> Result<(), DayError> {
    let input = read_file(rt, command.folder(), name, command.input_ending())?;
    let mut host = command.host(rt.alloc(), &input)?;
    answer(rt, rt.alloc(), command, &mut host, text)
}

/// Compares what a command answers with what a file says. Answers whether it is the same.
fn compare<Rt: Files + Print + AllocGlobal + Threads + Sync>(
    rt: &Rt,
    command: Command,
    name: &str,
    stated: &str,
) -> io::Result<bool> {
    let mut given = String::new(rt.alloc());
    match answer_file(rt, command, name, &mut given) {
        Ok(()) => tell_difference(rt, name, stated, &given),
        Err(error) => tell_error(rt, name, &error),
    }
}

/// Tells of the first line in which a command answers something else than a file says. Answers whether there is none.
pub fn try_file<Rt: Files + Print + AllocGlobal + Threads + Sync>(
    rt: &Rt,
    command: Command,
    name: &str,
) -> io::Result<bool> {
    match read_file(rt, command.folder(), name, command.ending()) {
        Ok(stated) => compare(rt, command, name, &stated),
        Err(error) => tell_error(rt, name, &error),
    }
}
