//! What the words of a process ask for.

ghost use Rattle.std.specs.Prelude.{◌≡◌, None, Some, Ok, IfOk, [], ◌∷◌, codes, map};
ghost use Rattle.clap.specs.Words.{fault_of, kind_of, subcommand_of, subcommand_rows_of};
ghost use Rattle.words_core.specs.declared.command.Command.{Command};
ghost use Rattle.words_core.specs.Plain.{command_of};
ghost use Rattle.words_core.specs.Line.{halts_line};
ghost use Rattle.words_core.specs.Asked.{Reads, Allows, Gives, Tells, IsAskedInRange, command_found};

use crate::command::Command;
use crate::line::halts_line;
use crate::plain::command_of;
use crate::rows::command_found;
use clap::error::ErrorKind;
use clap::{ArgMatches, Error};
use std::alloc::Global;
use thiserror::Error as ThisError;

/// What the words of a process ask for.
#[derive(Debug, Drop)]
pub enum Asked {
    /// A command.
    Command(Command),
    /// A text for the reader, which goes to the output: help, or the version.
    Text(String),
}

/// Why words ask for nothing.
#[derive(Clone, Copy, Debug, PartialEq, Eq, ThisError)]
pub enum WordsError {
    /// They are not understood.
    #[error("the words are not understood")]
    Usage,
    /// Memory ran out.
    #[error("out of memory")]
    NoMemory,
}

/// The words for kinds of lines.
pub static KINDS: [&str; 2] = ["records", "published"];

/// What the kind of an error asks for, with the error's text.
fn answer_to(alloc: Global, error: &Error) -> Result<Asked, WordsError>
    ensures { Tells (kind_of error.now) result }
{
    match error.kind() {
        ErrorKind::OutOfMemory => Err(WordsError::NoMemory),
        ErrorKind::DisplayHelp | ErrorKind::DisplayVersion => match format!(in alloc; "{error}") {
            Ok(text) => Ok(Asked::Text(text)),
            Err(_) => Err(WordsError::NoMemory),
        },
        _ => Err(WordsError::Usage),
    }
}

/// The command of a line that was taken.
fn command_asked(found: &ArgMatches<'_>) -> Result<Asked, WordsError>
    ensures asked { Gives (command_found (subcommand_rows_of found.now)) result }
    ensures range { IfOk result IsAskedInRange }
{
    match command_found(found) {
        Some(command) => Ok(Asked::Command(command)),
        None => Err(WordsError::Usage),
    }
}

/// What words ask for that are no plain line.
fn read_line<'a>(
    alloc: Global,
    kinds: &'a [&'a str],
    words: &'a [&'a str],
) -> Result<Asked, WordsError>
    requires kinds { map (λ w. w.now) kinds.now ≡ codes "records" ∷ codes "published" ∷ [] }
    ensures allowed { Allows (fault_of (halts_line kinds.entry) (map (λ w. w.now) words.entry.now)) (command_found (subcommand_of (halts_line kinds.entry) (map (λ w. w.now) words.entry.now))) result }
    ensures range { IfOk result IsAskedInRange }
{
    let Ok(line) = halts_line(alloc, kinds) else {
        return Err(WordsError::NoMemory);
    };
    match line.try_get_matches_from(words) {
        Ok(found) => command_asked(&found),
        Err(error) => answer_to(alloc, &error),
    }
}

/// What the words behind the journal's path ask for.
pub fn parse(alloc: Global, words: &[&str]) -> Result<Asked, WordsError>
    // A plain line asks for exactly its command, and takes no memory.
    ensures plain { (command : Command) → command_of (map (λ w. w.now) words.now) ≡ Some command → result ≡ Ok (Asked.Command command) }
    // Other words are answered as the command line says: words in which `clap` finds no fault name a command, and `Usage` comes
    // only where it finds one that asks for no text.
    ensures others { command_of (map (λ w. w.now) words.now) ≡ None → Reads (map (λ w. w.now) words.now) result }
    ensures range { IfOk result IsAskedInRange }
{
    match command_of(words) {
        Some(command) => Ok(Asked::Command(command)),
        None => read_line(alloc, KINDS.as_slice(), words),
    }
}
