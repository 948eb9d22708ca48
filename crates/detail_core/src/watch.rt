//! What is watched of a run, and what is told of it.

ghost use Rattle.std.specs.Prelude.{◌≡◌};
ghost use Rattle.detail_core.specs.Watched.{source_of, sink_of, files_of};

use crate::asking::{only_filters, packed_kind};
use crate::details::{add, add_input, of_disk, of_stream, of_words};
use crate::files::{DiskNotes, WatchedFiles};
use crate::input::InputNotes;
use crate::sink::WatchedSink;
use crate::source::WatchedSource;
use host_core::{Opens, Sink, Source, Status};
use std::alloc::Global;
use std::cell::{Cell, RefCell};
use std::io;

/// What a run saw of its streams and its files.
#[derive(Drop)]
pub struct Watch {
    input: RefCell<InputNotes>,
    output: Cell<Option<io::ErrorKind>>,
    files: DiskNotes,
}

impl Watch {
    /// Nothing was seen yet. Pieces of the input are kept where the words ask to pack lines, and where there is memory for them.
    pub fn new(alloc: Global, args: &[&str]) -> Watch {
        let notes = match packed_kind(args) {
            Some(_) => InputNotes::keeping(alloc),
            None => InputNotes::new(alloc),
        };
        Watch {
            input: RefCell::new(notes),
            output: Cell::new(None),
            files: DiskNotes::new(),
        }
    }

    /// This input, watched.
    pub fn source<'a, R: Source>(&'a self, source: R) -> WatchedSource<'a, R>
        ensures { source_of result ≡ source }
    {
        WatchedSource::new(source, &self.input)
    }

    /// This sink, watched.
    pub fn sink<'a, W: Sink>(&'a self, sink: W) -> WatchedSink<'a, W>
        ensures { sink_of result ≡ sink }
    {
        WatchedSink::new(sink, &self.output)
    }

    /// What opens these files, watched.
    pub fn files<'a, O: Opens>(&'a self, files: O) -> WatchedFiles<'a, O>
        ensures { files_of result ≡ files }
    {
        WatchedFiles::new(files, &self.files)
    }

    /// Whether nothing is told of an end, not even its line: nobody reads what a command sends that keeps nothing.
    pub fn is_silent(&self, args: &[&str], status: Status) -> bool {
        status == Status::SendFault
            && only_filters(args)
            && matches!(self.output.get(), Some(io::ErrorKind::BrokenPipe))
    }

    // Appends what is told of the input.
    fn add_seen(&self, alloc: Global, text: &mut String, args: &[&str], status: Status) {
        let Ok(notes) = self.input.try_borrow() else {
            return;
        };
        if status == Status::ReadFault {
            add(text, of_stream(alloc, "standard input", notes.failed()));
        } else {
            add_input(alloc, text, args, &notes);
        }
    }

    /// The details of an end, a line each, where there is memory for them. Of words that are not understood `clap` says this.
    pub fn details(
        &self,
        alloc: Global,
        args: &[&str],
        status: Status,
        fault: Option<&str>,
    ) -> String {
        let mut text = String::new(alloc);
        match status {
            Status::Usage => add(&mut text, of_words(alloc, args, fault)),
            Status::SendFault => {
                add(
                    &mut text,
                    of_stream(alloc, "standard output", self.output.get()),
                );
            }
            Status::DiskFault => add(&mut text, of_disk(alloc, args, &self.files)),
            Status::ReadFault | Status::Truncated | Status::SessionFull | Status::BadText { .. } =>
                self.add_seen(alloc, &mut text, args, status),
            _ => {}
        }
        text
    }
}
