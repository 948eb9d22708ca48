//! What is remembered of an input.

use crate::front::front;
use memchr::memrchr;
use std::alloc::Global;
use std::io;
use text_core::Line;

/// The most bytes of a piece that is kept: those that one read takes.
const PIECE: usize = 65_536;

/// What is remembered of an input: how it begins, the last error, and where it is asked for the piece that was read last.
#[derive(Drop)]
pub struct InputNotes {
    // The first 256 bytes of all.
    begin: Line,
    // The first 256 bytes of the line that was open before the last piece.
    open: Line,
    // The last piece: so many bytes of this room, which has none where no piece is kept.
    room: Vec<u8>,
    len: usize,
    failed: Option<io::ErrorKind>,
}

/// Copies as much of a piece as there is room for, and answers how many bytes.
fn copy(room: &mut [u8], piece: &[u8]) -> usize {
    let count = piece.len().min(room.len());
    room[..count].copy_from_slice(&piece[..count]);
    count
}

/// What is open behind a piece more.
fn go_on(open: &mut Line, piece: &[u8]) {
    match memrchr(b'\n', piece) {
        Some(at) => {
            open.clear();
            open.keep(&piece[at + 1..]);
        }
        None => open.keep(piece),
    }
}

impl InputNotes {
    fn with_room(room: Vec<u8>) -> InputNotes {
        InputNotes {
            begin: Line::new(),
            open: Line::new(),
            room,
            len: 0,
            failed: None,
        }
    }

    /// Notes that keep no piece.
    pub fn new(alloc: Global) -> InputNotes {
        InputNotes::with_room(Vec::new(alloc))
    }

    /// Notes that keep the last piece, where there is memory for it.
    pub fn keeping(alloc: Global) -> InputNotes {
        match vec![in alloc; 0; PIECE] {
            Ok(room) => InputNotes::with_room(room),
            Err(_) => InputNotes::new(alloc),
        }
    }

    /// The first 256 bytes of the input.
    pub fn begin(&self) -> &[u8] {
        self.begin.as_slice()
    }

    /// The first 256 bytes of the line that was open before the last piece.
    pub fn open(&self) -> &[u8] {
        self.open.as_slice()
    }

    /// The last piece.
    pub fn piece(&self) -> &[u8] {
        front(&self.room, self.len)
    }

    /// The kind of the last error.
    pub fn failed(&self) -> Option<io::ErrorKind> {
        self.failed
    }

    /// Remembers an error.
    pub fn fail(&mut self, kind: io::ErrorKind) {
        self.failed = Some(kind);
    }

    /// Remembers a piece that was read. At the end of the input none is, and the one before is still kept.
    pub fn take(&mut self, piece: &[u8]) {
        self.begin.keep(piece);
        if piece.len() != 0 && self.room.len() != 0 {
            self.turn(piece);
        }
    }

    // Keeps a piece in place of the one before.
    fn turn(&mut self, piece: &[u8]) {
        go_on(&mut self.open, front(&self.room, self.len));
        self.len = copy(&mut self.room, piece);
    }
}
