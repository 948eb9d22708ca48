//! Files that are watched.

ghost use Rattle.std.specs.Prelude.{◌≡◌};
ghost use Rattle.detail_core.specs.Watched.{file_of, files_of};

use host_core::{Opens, RawFile};
use std::cell::Cell;
use std::io;

/// A call of a file.
#[derive(Clone, Copy, Debug, PartialEq, Eq)]
pub enum Call {
    Open,
    Hold,
    Measure,
    Read,
    Write,
    Sync,
}

/// What is remembered of files: the last call that failed, with the kind of its error, and the last length that was told.
#[derive(Drop)]
pub struct DiskNotes {
    failed: Cell<Option<(Call, io::ErrorKind)>>,
    length: Cell<u64>,
}

impl DiskNotes {
    /// Nothing is noted yet.
    pub fn new() -> DiskNotes {
        DiskNotes {
            failed: Cell::new(None),
            length: Cell::new(0),
        }
    }

    /// The last call that failed, and the kind of its error.
    pub fn failed(&self) -> Option<(Call, io::ErrorKind)> {
        self.failed.get()
    }

    /// The last length in bytes that a file told.
    pub fn length(&self) -> u64 {
        self.length.get()
    }

    // Remembers a call where it failed, and hands on what it answered.
    fn noted<T>(&self, call: Call, outcome: io::Result<T>) -> io::Result<T>
        ensures { result ≡ outcome }
    {
        if let Err(error) = &outcome {
            self.failed.set(Some((call, error.kind())));
        }
        outcome
    }

    // Remembers a call that moves bytes, also where it moved none though some were wanted.
    fn moved(&self, call: Call, wanted: usize, outcome: io::Result<usize>) -> io::Result<usize>
        ensures { result ≡ outcome }
    {
        if wanted != 0 && matches!(&outcome, Ok(0)) {
            let kind = match call {
                Call::Write => io::ErrorKind::WriteZero,
                _ => io::ErrorKind::UnexpectedEof,
            };
            self.failed.set(Some((call, kind)));
        }
        self.noted(call, outcome)
    }
}

/// An open file that does what another one does, and remembers what failed.
#[derive(Drop)]
pub struct WatchedFile<'a, F> {
    file: F,
    notes: &'a DiskNotes,
}

impl<'a, F: RawFile> RawFile for WatchedFile<'a, F> {
    ghost state = { λ f. F.state (file_of f) };

    fn length(&mut self) -> io::Result<u64> {
        let outcome = self.file.length();
        if let Ok(length) = &outcome {
            self.notes.length.set(*length);
        }
        self.notes.noted(Call::Measure, outcome)
    }

    fn read_at(&mut self, at: u64, into: &mut [u8]) -> io::Result<usize> {
        let wanted = into.len();
        self.notes
            .moved(Call::Read, wanted, self.file.read_at(at, into))
    }

    fn write_at(&mut self, at: u64, piece: &[u8]) -> io::Result<usize> {
        self.notes
            .moved(Call::Write, piece.len(), self.file.write_at(at, piece))
    }

    fn sync_data(&mut self) -> io::Result<()> {
        self.notes.noted(Call::Sync, self.file.sync_data())
    }

    fn has_failed(&self) -> bool {
        self.file.has_failed()
    }

    fn hold(&mut self) -> io::Result<()> {
        self.notes.noted(Call::Hold, self.file.hold())
    }
}

/// What opens the files that another one opens, and remembers what failed.
#[derive(Drop)]
pub struct WatchedFiles<'a, O> {
    files: O,
    notes: &'a DiskNotes,
}

impl<'a, O: Opens> WatchedFiles<'a, O> {
    /// What these open, of which these notes are made.
    pub fn new(files: O, notes: &'a DiskNotes) -> Self
        ensures { files_of result ≡ files }
    {
        WatchedFiles { files, notes }
    }
}

impl<'a, O: Opens> Opens for WatchedFiles<'a, O> {
    type File = WatchedFile<'a, O::File>;

    ghost standing = { λ files path. O.standing (files_of files) path };

    fn find(&self, path: &str) -> io::Result<Option<WatchedFile<'a, O::File>>> {
        match self.notes.noted(Call::Open, self.files.find(path)) {
            Ok(Some(file)) => Ok(Some(WatchedFile {
                file,
                notes: self.notes,
            })),
            Ok(None) => Ok(None),
            Err(error) => Err(error),
        }
    }

    fn open(&self, path: &str) -> io::Result<WatchedFile<'a, O::File>> {
        match self.notes.noted(Call::Open, self.files.open(path)) {
            Ok(file) => Ok(WatchedFile {
                file,
                notes: self.notes,
            }),
            Err(error) => Err(error),
        }
    }
}
