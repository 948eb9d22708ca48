//! Lines, and where two texts differ.

use price_core::NoMemory;
use std::alloc::{AllocError, AllocFailed};
use std::io;
use thiserror::Error;

/// Why a day can't be run.
#[derive(Debug, Drop, Error)]
pub enum DayError {
    #[error("out of memory")]
    NoMemory,
    /// So many lines stand before one that isn't understood.
    #[error("a line behind {0} others is not understood")]
    Line(usize),
    #[error("what was sent is no text")]
    NoText,
    #[error("a file can't be read")]
    NoFile,
}

impl From<NoMemory> for DayError {
    fn from(_e: NoMemory) -> DayError {
        DayError::NoMemory
    }
}

impl From<AllocError> for DayError {
    fn from(_e: AllocError) -> DayError {
        DayError::NoMemory
    }
}

impl<T: Drop> From<AllocFailed<T>> for DayError {
    fn from(_e: AllocFailed<T>) -> DayError {
        DayError::NoMemory
    }
}

impl From<io::Error> for DayError {
    fn from(_e: io::Error) -> DayError {
        DayError::NoFile
    }
}

/// Puts a line behind a text.
pub fn push_line(text: &mut String, line: &str) -> Result<(), NoMemory> {
    text.push_str(line)?;
    text.push('\n')?;
    Ok(())
}

/// Whether a line greets.
pub fn is_greeting(line: &str) -> bool {
    line.starts_with("hello ")
}

/// Whether a line acknowledges a record.
pub fn is_ack(line: &str) -> bool {
    line.starts_with("ack ")
}

/// Whether a line refuses a frame.
pub fn is_refusal(line: &str) -> bool {
    line.starts_with("refused ")
}

/// Whether a line answers a frame.
pub fn is_answer(line: &str) -> bool {
    is_ack(line) || is_refusal(line)
}

/// Whether a line is a numbered message.
pub fn is_message(line: &str) -> bool {
    !is_greeting(line) && !is_answer(line)
}

/// The first line in which two texts differ.
#[derive(Clone, Copy)]
pub struct Difference<'a> {
    /// Its number, from 1 on.
    pub line: usize,
    pub stated: Option<&'a str>,
    pub sent: Option<&'a str>,
}

/// Where a text that was sent differs from the one that is stated, if it does.
pub fn first_difference<'a>(stated: &'a str, sent: &'a str) -> Option<Difference<'a>> {
    let mut ours = stated.lines();
    let mut theirs = sent.lines();
    for line in 1..=usize::MAX {
        let stated = ours.next();
        let sent = theirs.next();
        if stated != sent {
            return Some(Difference { line, stated, sent });
        }
        if stated.is_none() {
            return None;
        }
    }
    None
}
