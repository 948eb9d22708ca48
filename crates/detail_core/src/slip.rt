//! The line that is not understood, and the first of its words that isn't.

use crate::field::Field;
use crate::form::{frame_field, record_field};
use crate::front::part_len;
use crate::input::InputNotes;
use crate::shown::shown;
use std::alloc::{AllocError, Global};
use std::str;
use text_core::{Kind, Line, read_frame, read_record};

/// The most words of a line, and one more.
const WORDS: usize = 9;

/// Whether a line prints a value of its kind.
pub fn is_understood(kind: Kind, line: &[u8]) -> bool {
    match kind {
        Kind::Records => read_record(line).is_ok(),
        Kind::Published => read_frame(line).is_ok(),
    }
}

/// The first line of a piece that is not understood, up to its first 256 bytes, where the piece begins inside this line.
fn bad_line_in(kind: Kind, mut line: Line, piece: &[u8]) -> Option<Line> {
    let mut at = 0;
    while at < piece.len() {
        let len = part_len(&piece[at..]);
        line.keep(&piece[at..at + len]);
        if !is_understood(kind, line.as_slice()) {
            return Some(line);
        }
        line.clear();
        at += len + 1;
    }
    None
}

/// The first line of what is kept that is not understood, up to its first 256 bytes.
pub fn bad_line(notes: &InputNotes, kind: Kind) -> Option<Line> {
    let mut line = Line::new();
    line.keep(notes.open());
    bad_line_in(kind, line, notes.piece())
}

/// The first word of some words, and what stands behind the blank that ends it, where one does.
fn first_word(words: &[u8]) -> (&[u8], Option<&[u8]>) {
    match words.iter().position(|byte| *byte == b' ') {
        Some(at) => (&words[..at], Some(&words[at + 1..])),
        None => (words, None),
    }
}

/// A word of a line as text; empty where the line has fewer or where it is none.
fn text_at(line: &[u8], place: usize) -> &str {
    let mut rest = Some(line);
    let mut found: &[u8] = &[];
    for _ in 0..=place {
        match rest {
            Some(words) => {
                let (word, behind) = first_word(words);
                found = word;
                rest = behind;
            }
            None => found = &[],
        }
    }
    str::from_utf8(found).unwrap_or("")
}

/// What a word of a line stands for; none behind the last one.
fn field_at(kind: Kind, first: &str, third: &str, place: usize) -> Option<Field> {
    match kind {
        Kind::Records => record_field(first, place),
        Kind::Published => frame_field(first, third, place),
    }
}

/// A word that is wrong at its place, counted from 1: one that is not understood, one that is missing, or one too many.
#[derive(Clone, Copy)]
struct Slip<'a> {
    number: usize,
    field: Option<Field>,
    word: Option<&'a [u8]>,
}

/// The first word of a line that is wrong.
fn first_slip(kind: Kind, line: &[u8]) -> Option<Slip<'_>> {
    let (first, third) = (text_at(line, 0), text_at(line, 2));
    let mut rest = Some(line);
    for place in 0..WORDS {
        let field = field_at(kind, first, third, place);
        let (word, behind) = match rest {
            Some(words) => {
                let (word, behind) = first_word(words);
                (Some(word), behind)
            }
            None => (None, None),
        };
        if !fits(field, word) {
            return Some(Slip {
                number: place + 1,
                field,
                word,
            });
        }
        rest = behind;
    }
    None
}

/// Whether a word is what stands at its place.
fn fits(field: Option<Field>, word: Option<&[u8]>) -> bool {
    match (field, word) {
        (Some(field), Some(word)) => field.accepts(word),
        (None, None) => true,
        _ => false,
    }
}

/// What is told of a slip.
fn told_of(alloc: Global, slip: &Slip<'_>) -> Result<String, AllocError> {
    let number = slip.number;
    match (slip.field, slip.word) {
        (Some(_), Some(word)) if word.is_empty() => {
            format!(in alloc; "word {number} is empty; one blank stands between two words\n")
        }
        (Some(field), Some(word)) => {
            let (word, what) = (shown(alloc, word)?, field.what());
            format!(in alloc; "word {number} is not understood: {word}; {what}\n")
        }
        (Some(field), None) => {
            let what = field.what();
            format!(in alloc; "word {number} is missing: {what}\n")
        }
        (None, Some(word)) => {
            let word = shown(alloc, word)?;
            format!(in alloc; "word {number} is one too many: {word}\n")
        }
        (None, None) => Ok(String::new(alloc)),
    }
}

/// What is told of why a line is not understood.
pub fn told_of_slip(alloc: Global, kind: Kind, line: &[u8]) -> Result<String, AllocError> {
    if line.is_empty() {
        return String::from_str(alloc, "the line is empty\n");
    }
    if line.len() > 255 {
        return String::from_str(alloc, "the line has more than 255 bytes\n");
    }
    if line.ends_with(b"\r") {
        return String::from_str(
            alloc,
            "a carriage return stands before the newline; a newline alone ends a line\n",
        );
    }
    match first_slip(kind, line) {
        Some(slip) => told_of(alloc, &slip),
        None => Ok(String::new(alloc)),
    }
}
