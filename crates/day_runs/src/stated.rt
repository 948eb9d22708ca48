//! What a day's second file says of each way to run it.

use crate::text::{DayError, is_ack, is_answer, is_greeting, is_message, is_refusal, push_line};
use price_core::NoMemory;
use std::alloc::Global;

/// Lines of a day's second file.
#[derive(Clone, Copy)]
enum Lines {
    /// Messages and refusals.
    Replayed,
    First(usize),
    /// The numbered messages of the first lines.
    FirstMessages(usize),
    /// All but the first.
    Later(usize),
    /// The numbered messages of all but the first.
    LaterMessages(usize),
}

impl Lines {
    /// Whether a line is among them, behind so many others.
    fn have(self, index: usize, line: &str) -> bool {
        match self {
            Lines::Replayed => !is_greeting(line) && !is_ack(line),
            Lines::First(count) => index < count,
            Lines::FirstMessages(count) => index < count && is_message(line),
            Lines::Later(count) => index >= count,
            Lines::LaterMessages(count) => index >= count && is_message(line),
        }
    }
}

/// Puts some lines behind a text.
fn add_lines(text: &mut String, served: &str, lines: Lines) -> Result<(), NoMemory> {
    for (index, line) in served.lines().enumerate() {
        if lines.have(index, line) {
            push_line(text, line)?;
        }
    }
    Ok(())
}

/// Puts what a replay sends behind a text: messages and refusals.
pub fn add_replayed(text: &mut String, served: &str) -> Result<(), NoMemory> {
    add_lines(text, served, Lines::Replayed)
}

/// Puts the numbered messages alone behind a text.
pub fn add_messages(text: &mut String, served: &str) -> Result<(), NoMemory> {
    add_lines(text, served, Lines::LaterMessages(0))
}

/// How many frames are answered, records acknowledged and messages numbered.
#[derive(Clone, Copy)]
struct Counts {
    frames: usize,
    inputs: usize,
    numbered: usize,
}

impl Counts {
    const fn none() -> Counts {
        Counts {
            frames: 0,
            inputs: 0,
            numbered: 0,
        }
    }

    /// The counts behind one line more.
    fn behind(self, line: &str) -> Counts {
        Counts {
            frames: self.frames.saturating_add(usize::from(is_answer(line))),
            inputs: self.inputs.saturating_add(usize::from(is_ack(line))),
            numbered: self.numbered.saturating_add(usize::from(is_message(line))),
        }
    }
}

/// The counts of the lines up to so many acknowledgements, and how many lines these are.
fn up_to(served: &str, inputs: usize) -> (usize, Counts) {
    let mut counts = Counts::none();
    let mut lines = 0usize;
    for line in served.lines() {
        if counts.inputs >= inputs {
            return (lines, counts);
        }
        lines = lines.saturating_add(1);
        counts = counts.behind(line);
    }
    (lines, counts)
}

/// Whether a frame is refused.
pub fn refuses(served: &str) -> bool {
    served.lines().any(is_refusal)
}

/// How many frames are answered.
pub fn frames(served: &str) -> usize {
    up_to(served, usize::MAX).1.frames
}

/// How many messages are numbered.
pub fn numbered(served: &str) -> usize {
    up_to(served, usize::MAX).1.numbered
}

/// Puts the line of a greeting behind a text.
fn add_greeting(alloc: Global, text: &mut String, counts: Counts) -> Result<(), DayError> {
    let line = format!(in alloc; "hello {} {}", counts.inputs, counts.numbered)?;
    Ok(push_line(text, &line)?)
}

/// Puts behind a text what a session sends that is stopped behind so many acknowledged frames, at least one, and what the next one
/// sends that starts from message 1 on, where no frame is refused.
pub fn add_cut(
    alloc: Global,
    text: &mut String,
    served: &str,
    frames: usize,
) -> Result<(), DayError> {
    let (lines, counts) = up_to(served, frames);
    add_lines(text, served, Lines::First(lines))?;
    add_lines(text, served, Lines::FirstMessages(lines))?;
    add_greeting(alloc, text, counts)?;
    Ok(add_lines(text, served, Lines::Later(lines))?)
}

/// What is said of a refused frame behind its place in the session.
fn refusal_of(line: &str) -> Option<&str> {
    let (_place, why) = line.strip_prefix("refused ")?.split_once(' ')?;
    Some(why)
}

/// Puts the line of a frame that is refused for that at a place behind a text.
fn add_refusal(alloc: Global, text: &mut String, place: usize, why: &str) -> Result<(), DayError> {
    let line = format!(in alloc; "refused {place} {why}")?;
    Ok(push_line(text, &line)?)
}

/// Puts a line behind a text, with the place of a refused frame in a session that has answered so many frames.
fn add_line(alloc: Global, text: &mut String, answered: usize, line: &str) -> Result<(), DayError> {
    match refusal_of(line) {
        Some(why) => add_refusal(alloc, text, answered.saturating_add(1), why),
        None => Ok(push_line(text, line)?),
    }
}

/// Puts behind a text what sessions send that end behind so many frames each, where the journal is rolled behind each but the
/// last, and what is sent again in the end.
pub fn add_rolled(
    alloc: Global,
    text: &mut String,
    served: &str,
    ends: &[usize],
) -> Result<(), DayError> {
    let mut counts = Counts::none();
    let (mut before, mut lines) = (0usize, 0usize);
    for (index, line) in served.lines().enumerate() {
        add_line(alloc, text, counts.frames.saturating_sub(before), line)?;
        counts = counts.behind(line);
        if is_ack(line) && ends.contains(&counts.frames) {
            before = counts.frames;
            lines = index.saturating_add(1);
            add_greeting(alloc, text, counts)?;
        }
    }
    add_lines(text, served, Lines::LaterMessages(lines))?;
    add_greeting(alloc, text, counts)
}
