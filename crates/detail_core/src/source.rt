//! An input that is watched.

ghost use Rattle.std.specs.Prelude.{◌≡◌};
ghost use Rattle.detail_core.specs.Watched.{source_of};

use crate::front::front;
use crate::input::InputNotes;
use host_core::Source;
use std::cell::RefCell;
use std::io;

/// An input that gives what another one gives, and remembers it.
#[derive(Drop)]
pub struct WatchedSource<'a, R> {
    source: R,
    notes: &'a RefCell<InputNotes>,
}

impl<'a, R: Source> WatchedSource<'a, R> {
    /// This input, of which these notes are made.
    pub fn new(source: R, notes: &'a RefCell<InputNotes>) -> Self
        ensures { source_of result ≡ source }
    {
        WatchedSource { source, notes }
    }
}

// Remembers what a read gave.
fn note(notes: &RefCell<InputNotes>, outcome: &io::Result<usize>, into: &[u8]) {
    let Ok(mut notes) = notes.try_borrow_mut() else {
        return;
    };
    match outcome {
        Ok(count) => notes.take(front(into, *count)),
        Err(error) => notes.fail(error.kind()),
    }
}

impl<'a, R: Source> Source for WatchedSource<'a, R> {
    ghost remaining = { λ s. R.remaining (source_of s) };

    ghost failures = { λ s. R.failures (source_of s) };

    fn read(&mut self, into: &mut [u8]) -> io::Result<usize> {
        let outcome = self.source.read(into);
        note(self.notes, &outcome, into);
        outcome
    }
}
