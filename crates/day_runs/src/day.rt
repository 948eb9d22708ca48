//! A worked day, as its two files say it.

use crate::text::DayError;
use host_core::Status;
use price_core::NoMemory;
use standby_core::put_part;
use std::alloc::Global;
use text_core::read_record;
use wire_in::encode;

/// What is read on a worked day, and what a session sends for it.
#[derive(Drop)]
pub struct Day {
    /// How many records the journal takes; none where nothing is said of it.
    pub limit: Option<u64>,
    /// How many bytes a session reads.
    pub most: u64,
    /// How the session ends.
    pub end: Status,
    /// The bytes that are read.
    pub input: Vec<u8>,
    /// The lines of what `serve` sends over an empty journal.
    pub served: String,
}

/// The most bytes that a session reads.
const BYTES_MAX: u64 = 1_099_511_627_776;

/// The status that a word names.
fn status_of(word: &str) -> Option<Status> {
    match word {
        "done" => Some(Status::Done),
        "truncated" => Some(Status::Truncated),
        "full" => Some(Status::SessionFull),
        _ => None,
    }
}

/// What a line says.
enum Line<'a> {
    Nothing,
    Limit(u64),
    Most(u64),
    End(Status),
    Bytes(&'a str),
    /// The Part of a record with a number.
    Part(u64, &'a str),
    Record(&'a str),
}

/// The number and the record of a Part; none where the number is none, or 0.
fn part_of(rest: &str) -> Option<Line<'_>> {
    let (number, record) = rest.split_once(' ')?;
    match number.parse().ok()? {
        0 => None,
        number => Some(Line::Part(number, record)),
    }
}

/// Reads a line; none where it sets something to a value out of form.
fn line_of(line: &str) -> Option<Line<'_>> {
    let Some((word, rest)) = line.split_once(' ') else {
        return Some(Line::Record(line));
    };
    match word {
        "#" => Some(Line::Nothing),
        "limit" => Some(Line::Limit(rest.parse().ok()?)),
        "most" => Some(Line::Most(rest.parse().ok()?)),
        "ends" => Some(Line::End(status_of(rest)?)),
        "bytes" => Some(Line::Bytes(rest)),
        "part" => part_of(rest),
        _ => Some(Line::Record(line)),
    }
}

impl Day {
    /// Puts the frame of a record's line behind what is read. Answers whether the line is one.
    fn add_record(&mut self, line: &str) -> Result<bool, NoMemory> {
        let Ok(x) = read_record(line.as_bytes()) else {
            return Ok(false);
        };
        let mut cell = [0; 64];
        let len = encode(&x, &mut cell);
        self.input.extend_from_slice(&cell[..len])?;
        Ok(true)
    }

    /// Puts the Part of a record's line behind what is read. Answers whether the line is one.
    fn add_part(&mut self, number: u64, line: &str) -> Result<bool, NoMemory> {
        let Ok(x) = read_record(line.as_bytes()) else {
            return Ok(false);
        };
        let mut cell = [0; 64];
        let len = put_part(number.max(1), &x, &mut cell);
        self.input.extend_from_slice(&cell[..len])?;
        Ok(true)
    }

    /// Puts bytes in hexadecimal behind what is read. Answers whether the digits are some.
    fn add_bytes(&mut self, alloc: Global, digits: &str) -> Result<bool, NoMemory> {
        let Ok(bytes) = hex::decode(alloc, digits) else {
            return Ok(false);
        };
        self.input.extend_from_slice(&bytes)?;
        Ok(true)
    }

    /// Does what a line says. Answers whether it is understood.
    fn take(&mut self, alloc: Global, line: &str) -> Result<bool, NoMemory> {
        let Some(line) = line_of(line) else {
            return Ok(false);
        };
        match line {
            Line::Nothing => {}
            Line::Limit(limit) => self.limit = Some(limit),
            Line::Most(most) => self.most = most,
            Line::End(end) => self.end = end,
            Line::Bytes(digits) => return self.add_bytes(alloc, digits),
            Line::Part(number, text) => return self.add_part(number, text),
            Line::Record(text) => return self.add_record(text),
        }
        Ok(true)
    }

    /// The day of these lines, for which a session sends those.
    pub fn of(alloc: Global, lines: &str, served: String) -> Result<Day, DayError> {
        let mut day = Day {
            limit: None,
            most: BYTES_MAX,
            end: Status::Done,
            input: Vec::new(alloc),
            served,
        };
        for (index, line) in lines.lines().enumerate() {
            if !day.take(alloc, line)? {
                return Err(DayError::Line(index));
            }
        }
        Ok(day)
    }

    /// Whether a session reads all of it.
    pub fn is_read_whole(&self) -> bool {
        self.most == BYTES_MAX
    }

    /// Whether a session takes its frames and ends well.
    pub fn is_plain(&self) -> bool {
        self.limit.is_none() && self.is_read_whole() && self.end == Status::Done
    }
}
