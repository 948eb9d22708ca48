//! What is told of each end, as a text of details.

use crate::asking::{asks_for_frames, lacks_path, packed_kind, word_at};
use crate::cause::{cause, cause_at, refused};
use crate::files::DiskNotes;
use crate::input::InputNotes;
use crate::look::{looks_like_frames, looks_like_lines};
use crate::shown::shown;
use crate::slip::{bad_line, is_understood, told_of_slip};
use std::alloc::{AllocError, Global};
use std::io;
use text_core::Kind;

/// The bytes of an empty journal.
const EMPTY_JOURNAL: u64 = 17;

/// Appends a detail, which is left out where there is no memory for it.
pub fn add(text: &mut String, detail: Result<String, AllocError>) {
    if let Ok(detail) = detail {
        let _ = text.push_str(detail.as_str());
    }
}

/// What is told of words that are not understood, of which `clap` says this.
pub fn of_words(alloc: Global, args: &[&str], fault: Option<&str>) -> Result<String, AllocError> {
    if lacks_path(args) {
        return String::from_str(
            alloc,
            "the first word is the path of a journal's file; - names none\n",
        );
    }
    match fault {
        Some(fault) => String::from_str(alloc, fault),
        None => Ok(String::new(alloc)),
    }
}

/// What is told of a stream that failed.
pub fn of_stream(
    alloc: Global,
    name: &str,
    failed: Option<io::ErrorKind>,
) -> Result<String, AllocError> {
    match failed {
        Some(kind) => {
            let cause = cause(alloc, kind)?;
            format!(in alloc; "{name}: {cause}\n")
        }
        None => Ok(String::new(alloc)),
    }
}

/// What is told of the file of a journal that could not be read or written.
pub fn of_disk(alloc: Global, args: &[&str], notes: &DiskNotes) -> Result<String, AllocError> {
    let path = word_at(args, 1);
    if path == "-" {
        return String::from_str(alloc, "- names no file, and this command needs a journal\n");
    }
    if let Some((call, kind)) = notes.failed() {
        let (refused, cause) = (refused(call), cause_at(alloc, call, kind)?);
        return format!(in alloc; "{path}: {refused}: {cause}\n");
    }
    if word_at(args, 2) == "format" && notes.length() > EMPTY_JOURNAL {
        return format!(in alloc;
            "{path}: could not be written: it holds more than an empty journal\n"
        );
    }
    Ok(String::new(alloc))
}

/// What is told of a line that `pack` does not understand, but for what is wrong in it.
fn of_kept_line(alloc: Global, line: &[u8]) -> Result<String, AllocError> {
    let line = shown(alloc, line)?;
    format!(in alloc; "{line}\n")
}

/// The other kind of lines, with its name.
fn other(kind: Kind) -> (Kind, &'static str) {
    match kind {
        Kind::Records => (Kind::Published, "published"),
        Kind::Published => (Kind::Records, "records"),
    }
}

/// What is told of why a line is no line of its kind.
fn of_slip(alloc: Global, kind: Kind, line: &[u8]) -> Result<String, AllocError> {
    let (other, name) = other(kind);
    if is_understood(other, line) {
        return format!(in alloc; "it is a line of the other kind: --kind {name} takes it\n");
    }
    told_of_slip(alloc, kind, line)
}

/// Appends what is told of an input that `pack` does not understand.
fn add_packed(alloc: Global, text: &mut String, notes: &InputNotes, kind: Kind) {
    if looks_like_frames(notes.begin()) {
        add(
            text,
            String::from_str(
                alloc,
                "the input looks like frames: print makes lines of them\n",
            ),
        );
    } else if let Some(line) = bad_line(notes, kind) {
        add(text, of_kept_line(alloc, line.as_slice()));
        add(text, of_slip(alloc, kind, line.as_slice()));
    }
}

/// Appends what is told of an input that is not understood or ends too early.
pub fn add_input(alloc: Global, text: &mut String, args: &[&str], notes: &InputNotes) {
    if let Some(kind) = packed_kind(args) {
        add_packed(alloc, text, notes, kind);
    } else if asks_for_frames(args) && looks_like_lines(notes.begin()) {
        add(
            text,
            String::from_str(
                alloc,
                "the input looks like lines: pack makes frames of them\n",
            ),
        );
    }
}
