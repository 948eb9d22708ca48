//! A day that is rolled behind each of its own days.

use crate::day::Day;
use crate::published::add_printed;
use crate::stated::add_rolled;
use crate::text::{DayError, is_ack, is_answer};
use crate::way::{accepted, bytes_of, over_journal, served};
use command_core::run;
use host_core::Status;
use live_core::ServeOptions;
use memory_host::MemoryHost;
use price_core::NoMemory;
use std::alloc::Global;
use std::thread::Threads;
use wire_in::Record;
use yard_core::OpenGate;

/// The journal as it is so far, and whether all was done as is stated.
#[derive(Drop)]
struct Rolling {
    disk: Vec<u8>,
    options: ServeOptions,
    is_as_stated: bool,
}

/// What a roll has to do.
#[derive(Clone, Copy)]
struct Roll {
    want: Status,
    /// Whether the journal stays as it is.
    is_in_vain: bool,
}

impl Roll {
    /// Whether a roll ends so, has sent nothing, and leaves the journal that it should.
    fn is_met(self, end: Status, host: &MemoryHost, before: &[u8]) -> bool {
        end == self.want && host.sent().is_empty() && (!self.is_in_vain || host.disk() == before)
    }
}

impl Rolling {
    /// The journal is now as a host has it.
    fn keep(&mut self, host: &MemoryHost) -> Result<(), NoMemory> {
        self.disk.clear();
        self.disk.extend_from_slice(host.disk())?;
        Ok(())
    }

    /// Serves an input over the journal.
    fn serve<Rt: Threads + Sync>(
        &mut self,
        rt: &Rt,
        alloc: Global,
        input: &[u8],
        want: Status,
        sent: &mut String,
    ) -> Result<(), DayError> {
        let mut host = MemoryHost::new(alloc, input, &self.disk)?;
        let end = served(rt, alloc, &mut host, self.options);
        self.is_as_stated = self.is_as_stated && end == want;
        self.keep(&host)?;
        add_printed(alloc, sent, host.sent())
    }

    /// Rolls the journal.
    fn roll<Rt: Threads + Sync>(
        &mut self,
        rt: &Rt,
        alloc: Global,
        roll: Roll,
    ) -> Result<(), DayError> {
        let mut host = MemoryHost::new(alloc, b"", &self.disk)?;
        let end = run(rt, alloc, &["roll"], &mut host, &OpenGate);
        self.is_as_stated = self.is_as_stated && roll.is_met(end, &host, &self.disk);
        Ok(self.keep(&host)?)
    }

    /// Serves an input behind whose last frame a day begins, and rolls the journal, twice.
    fn serve_to_day<Rt: Threads + Sync>(
        &mut self,
        rt: &Rt,
        alloc: Global,
        input: &[u8],
        sent: &mut String,
    ) -> Result<(), DayError> {
        let first = Roll {
            want: Status::Done,
            is_in_vain: false,
        };
        let again = Roll {
            is_in_vain: true,
            ..first
        };
        self.serve(rt, alloc, input, Status::Done, sent)?;
        self.roll(rt, alloc, first)?;
        self.roll(rt, alloc, again)
    }

    /// Serves an input up to each of these numbers of frames. Answers how many bytes are served.
    fn serve_days<Rt: Threads + Sync>(
        &mut self,
        rt: &Rt,
        alloc: Global,
        input: &[u8],
        behind: &[usize],
        sent: &mut String,
    ) -> Result<usize, DayError> {
        let mut done = 0;
        for frames in behind {
            let bytes = bytes_of(input, *frames);
            let piece = input.get(done..bytes).unwrap_or(&[]);
            self.serve_to_day(rt, alloc, piece, sent)?;
            done = bytes;
        }
        Ok(done)
    }

    /// Serves the end of a day, and rolls the journal; then the messages behind the last base are sent again.
    fn serve_end<Rt: Threads + Sync>(
        &mut self,
        rt: &Rt,
        alloc: Global,
        input: &[u8],
        want: Status,
        roll: Roll,
        sent: &mut String,
    ) -> Result<(), DayError> {
        self.serve(rt, alloc, input, want, sent)?;
        self.roll(rt, alloc, roll)?;
        self.options.from = Some(1);
        self.serve(rt, alloc, b"", Status::Done, sent)
    }
}

/// Behind how many frames each accepted record stands that begins a day.
fn days_of(alloc: Global, day: &Day, records: &[Record]) -> Result<Vec<usize>, DayError> {
    let mut behind = Vec::new(alloc);
    let mut rest = records.iter();
    let mut frames = 0usize;
    for line in day.served.lines() {
        frames = frames.saturating_add(usize::from(is_answer(line)));
        if is_ack(line) && rest.next().is_some_and(|x| x.is_day()) {
            behind.push(frames)?;
        }
    }
    Ok(behind)
}

/// How a roll ends behind these records, where each day among them is rolled.
fn end_of(records: &[Record]) -> Status {
    match records.last() {
        Some(Record::Day { .. }) => Status::Done,
        _ => Status::NotAtDay,
    }
}

/// Where a day is rolled, and how a roll at its end ends.
#[derive(Drop)]
struct Plan {
    behind: Vec<usize>,
    end: Status,
}

/// The plan of a day.
fn plan_of(alloc: Global, day: &Day) -> Result<Plan, DayError> {
    let records = accepted(alloc, day)?;
    Ok(Plan {
        end: end_of(&records),
        behind: days_of(alloc, day, &records)?,
    })
}

/// Puts what is stated of a day that is rolled behind a text.
pub fn add_stated(alloc: Global, text: &mut String, day: &Day) -> Result<(), DayError> {
    let plan = plan_of(alloc, day)?;
    add_rolled(alloc, text, &day.served, &plan.behind)
}

/// Serves a day as it is planned.
fn serve_planned<Rt: Threads + Sync>(
    rt: &Rt,
    alloc: Global,
    day: &Day,
    plan: &Plan,
    rolling: &mut Rolling,
    sent: &mut String,
) -> Result<(), DayError> {
    let done = rolling.serve_days(rt, alloc, &day.input, &plan.behind, sent)?;
    let rest = day.input.get(done..).unwrap_or(&[]);
    let roll = Roll {
        want: plan.end,
        is_in_vain: true,
    };
    rolling.serve_end(rt, alloc, rest, day.end, roll, sent)
}

/// An empty journal, over which a day is served by so many workers.
fn begun(alloc: Global, day: &Day, workers: u32) -> Result<Rolling, DayError> {
    let host = over_journal(alloc, b"", day.limit)?;
    let options = ServeOptions {
        from: None,
        workers,
        batch: 64,
        bytes: day.most,
    };
    Ok(Rolling {
        disk: Vec::from_slice(alloc, host.disk())?,
        options,
        is_as_stated: true,
    })
}

/// Serves a day by so many workers, and ends the session behind each accepted record that begins a day; then the journal is
/// rolled, twice, and another session goes on. A roll at the end is refused where the last record is no day. Then the messages
/// behind the last base are sent again.
pub fn serve_rolled<Rt: Threads + Sync>(
    rt: &Rt,
    alloc: Global,
    day: &Day,
    workers: u32,
    sent: &mut String,
) -> Result<bool, DayError> {
    let plan = plan_of(alloc, day)?;
    let mut rolling = begun(alloc, day, workers)?;
    serve_planned(rt, alloc, day, &plan, &mut rolling, sent)?;
    Ok(rolling.is_as_stated)
}
