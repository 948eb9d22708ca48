//! Lines as bytes: what is read, what a replay sends, and what a session over a journal sends.

ghost use Rattle.std.specs.Prelude.{◌≡◌, IsTrue, length};
ghost use Rattle.wire_core.specs.Names.{is_name};
ghost use Rattle.wire_in.specs.Spelling.{InRange};

use crate::lines::Line;
use session_core::Moment;
use std::alloc::{AllocError, AllocFailed, Global};
use thiserror::Error;
use wire_core::name_at;
use wire_in::{Record, Refusal, encode};
use wire_out::{Frame, Message, Stamped, put_frame};

/// Why lines have no bytes.
#[derive(Clone, Copy, Debug, PartialEq, Eq, Error)]
pub enum BadLine {
    #[error("out of memory")]
    NoMemory,
    /// A record that no frame says.
    #[error("no frame says the record")]
    Unsayable,
    /// What a line gives stands before any record.
    #[error("a message stands before any record")]
    Early,
}

impl From<AllocError> for BadLine {
    fn from(_e: AllocError) -> BadLine {
        BadLine::NoMemory
    }
}

impl<T: Drop> From<AllocFailed<T>> for BadLine {
    fn from(_e: AllocFailed<T>) -> BadLine {
        BadLine::NoMemory
    }
}

/// Whether it is visible characters, at least one, and then zero bytes.
#[tactic(auto, using(std::proofs::lemmas::List::take_all))]
fn is_name(name: [u8; 8]) -> bool
    ensures { IsTrue result → (length name ≡ 8) × IsTrue (is_name name) }
{
    name_at(&name, 0).is_some()
}

/// Whether a frame can say the record.
fn is_sayable(x: &Record) -> bool
    ensures { IsTrue result → InRange x.now }
{
    match *x {
        Record::Listing { name, .. } => is_name(name),
        Record::Trade { flags, .. } => flags <= 1023,
        _ => true,
    }
}

/// Puts a record's frame behind other bytes.
fn put_record(bytes: &mut Vec<u8>, x: &Record) -> Result<(), BadLine> {
    if !is_sayable(x) {
        return Err(BadLine::Unsayable);
    }
    let mut cell = [0; 64];
    let len = encode(x, &mut cell);
    bytes.extend_from_slice(&cell[..len])?;
    Ok(())
}

/// Puts a published frame behind other bytes.
fn put_published(bytes: &mut Vec<u8>, frame: &Frame) -> Result<(), BadLine> {
    let mut cell = [0; 64];
    let len = put_frame(frame, &mut cell);
    bytes.extend_from_slice(&cell[..len])?;
    Ok(())
}

/// What is read in one session, and what is sent for it.
#[derive(Debug, Drop)]
pub struct Session {
    /// The frames that are read.
    pub input: Vec<u8>,
    /// What `replay` sends: messages and refusals.
    pub replayed: Vec<u8>,
    /// What `serve` sends: also a greeting, and an Ack behind what each accepted record gives.
    pub served: Vec<u8>,
    /// How many records were accepted, and messages given, with those before the session.
    records: u64,
    messages: u64,
    frames: u64,
    moment: Option<Moment>,
    owes_ack: bool,
}

impl Session {
    /// A session over a journal that holds so many records, which gave so many messages.
    fn after(alloc: Global, records: u64, messages: u64) -> Result<Session, BadLine> {
        let mut served = Vec::new(alloc);
        let hello = Frame::Hello {
            inputs: records,
            messages,
        };
        put_published(&mut served, &hello)?;
        Ok(Session {
            input: Vec::new(alloc),
            replayed: Vec::new(alloc),
            served,
            records,
            messages,
            frames: 0,
            moment: None,
            owes_ack: false,
        })
    }

    /// The Ack of the last record stands behind all that it gave.
    fn acknowledge(&mut self) -> Result<(), BadLine> {
        if self.owes_ack {
            self.owes_ack = false;
            self.records = self.records.saturating_add(1);
            let ack = Frame::Ack {
                input: self.records,
            };
            put_published(&mut self.served, &ack)?;
        }
        Ok(())
    }

    /// A frame is sent by both commands.
    fn publish(&mut self, frame: &Frame) -> Result<(), BadLine> {
        put_published(&mut self.replayed, frame)?;
        put_published(&mut self.served, frame)
    }

    /// The next frame is read.
    fn begin_frame(&mut self) -> Result<(), BadLine> {
        self.acknowledge()?;
        self.frames = self.frames.saturating_add(1);
        Ok(())
    }

    fn add_record(&mut self, x: &Record) -> Result<(), BadLine> {
        self.begin_frame()?;
        self.moment = Some(x.moment());
        self.owes_ack = true;
        put_record(&mut self.input, x)
    }

    fn add_bytes(&mut self, frame: &[u8]) -> Result<(), BadLine> {
        self.begin_frame()?;
        self.input.extend_from_slice(frame)?;
        Ok(())
    }

    fn add_message(&mut self, message: Message) -> Result<(), BadLine> {
        let Some(moment) = self.moment else {
            return Err(BadLine::Early);
        };
        self.messages = self.messages.saturating_add(1);
        self.publish(&Frame::Numbered {
            number: self.messages,
            stamped: Stamped { moment, message },
        })
    }

    fn add_refusal(&mut self, refusal: Refusal) -> Result<(), BadLine> {
        self.owes_ack = false;
        self.publish(&Frame::Refused {
            frame_number: self.frames,
            code: refusal.code(),
            field: refusal.field(),
        })
    }

    fn add(&mut self, line: &Line) -> Result<(), BadLine> {
        match *line {
            Line::Record(x) => self.add_record(&x),
            Line::Bytes(frame) => self.add_bytes(frame),
            Line::Gives(message) => self.add_message(message),
            Line::Refused(refusal) => self.add_refusal(refusal),
        }
    }

    /// The session of these lines over a journal that holds so many records, which gave so many messages.
    pub fn over(
        alloc: Global,
        records: u64,
        messages: u64,
        lines: &[Line],
    ) -> Result<Session, BadLine> {
        let mut session = Session::after(alloc, records, messages)?;
        for line in lines {
            session.add(line)?;
        }
        session.acknowledge()?;
        Ok(session)
    }

    /// The session of these lines over an empty journal.
    pub fn of(alloc: Global, lines: &[Line]) -> Result<Session, BadLine> {
        Session::over(alloc, 0, 0, lines)
    }
}

/// The records of lines.
pub fn records_of(alloc: Global, lines: &[Line]) -> Result<Vec<Record>, BadLine> {
    let mut records = Vec::new(alloc);
    for line in lines {
        if let Line::Record(x) = line {
            records.push(*x)?;
        }
    }
    Ok(records)
}
