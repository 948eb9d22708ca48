//! The words of a process, and the host of its streams and the journal's file.

ghost use Rattle.std.specs.Prelude.{◌≡◌, ◌≢◌, [], false, None, Some, if◌then◌else◌, map, get_or, codes, drop};
ghost use Rattle.host_core.specs.Outside.{Continues};
ghost use Rattle.host_core.specs.Counts.{no_faults};
ghost use Rattle.host_core.specs.Real.{reader_of, writer_of, disk_of, faults_of, files_of, path_of, opened_of, has_lost};
ghost use Rattle.words_core.specs.declared.command.Command.{Command};
ghost use Rattle.words_core.specs.Plain.{command_of};
ghost use Rattle.command_core.specs.Runs.{Ran, Obeyed};
ghost use Rattle.command_core.specs.Words.{asks_for_text, command_words};

use crate::program::run;
use host_core::{Host, JournalFile, Opens, RealHost, Sink, Source, Status};
use std::alloc::Global;
use std::thread::Threads;
use yard_core::Gate;

/// The path of the journal, which stands behind the program's own name; `-`, which names none, where no word stands there.
fn journal_path<'a>(args: &[&'a str]) -> &'a str
    ensures { result.now ≡ get_or (map (λ w. w.now) args.now) 1 (codes "-") }
{
    match args.get(1) {
        Some(path) => path,
        None => "-",
    }
}

/// Whether a word asks for help or for the version.
fn asks_for_text(word: &str) -> bool
    ensures { result ≡ asks_for_text word.now }
{
    matches!(word, "help" | "--help" | "-h" | "--version" | "-V")
}

/// The words behind the first ones; none where there are fewer.
fn words_from<'a, 'b>(args: &'a [&'b str], count: usize) -> &'a [&'b str]
    ensures { result.now ≡ drop count args.now }
{
    if args.len() < count {
        return &[];
    }
    &args[count..]
}

/// Whether the word behind the program's own name asks for help or for the version.
fn begins_with_text(args: &[&str]) -> bool
    ensures { result ≡ asks_for_text (get_or (map (λ w. w.now) args.now) 1 []) }
{
    args.len() > 1 && asks_for_text(args[1])
}

/// The words of a command, which stand behind the journal's path. Words that ask for a text need no path before them.
fn words_behind<'a, 'b>(args: &'a [&'b str]) -> &'a [&'b str]
    ensures { result.now ≡ (if asks_for_text (get_or (map (λ w. w.now) args.now) 1 []) then drop 1 args.now else drop 2 args.now) }
{
    if begins_with_text(args) {
        words_from(args, 1)
    } else {
        words_from(args, 2)
    }
}

/// The host of a process: its streams, and the file of the journal that its words name. Nothing of them is used yet.
pub fn host_of<'a, R: Source + Drop, W: Sink + Drop, O: Opens + Drop>(
    args: &[&'a str],
    input: R,
    output: W,
    files: O,
) -> RealHost<R, W, JournalFile<'a, O>>
    ensures reader { reader_of result ≡ input }
    ensures writer { writer_of result ≡ output }
    ensures files { files_of (disk_of result) ≡ files }
    ensures path { path_of (disk_of result) ≡ get_or (map (λ w. w.now) args.now) 1 (codes "-") }
    ensures unopened { opened_of (disk_of result) ≡ None }
    ensures kept { has_lost (disk_of result) ≡ false }
    ensures faults { faults_of result ≡ no_faults }
{
    let journal = JournalFile::new(files, journal_path(args));
    RealHost::new(input, output, journal)
}

/// Does what the words of a process say over a host of the journal that they name, and answers how it ended.
pub fn perform<Rt: Threads + Sync, H: Host, G: Gate>(
    rt: &Rt,
    alloc: Global,
    args: &[&str],
    host: &mut H,
    gate: &G,
) -> Status
    // A plain line does its command, and each command keeps what it promises.
    ensures ran { (command : Command) → command_of (command_words (map (λ w. w.now) args.now)) ≡ Some command
        → Ran (host.new ≡ host.old) command result (H.outside host.old) (H.outside host.new) }
    // Other words are answered as the command line says.
    ensures others { command_of (command_words (map (λ w. w.now) args.now)) ≡ None
        → Obeyed (host.new ≡ host.old) (command_words (map (λ w. w.now) args.now)) result (H.outside host.old) (H.outside host.new) }
    // A plain line is always understood. Where words are not, the host is not called.
    ensures understood { (command : Command) → command_of (command_words (map (λ w. w.now) args.now)) ≡ Some command → result ≢ Status.Usage }
    ensures untouched { result ≡ Status.Usage → host.new ≡ host.old }
    ensures continues { Continues (H.outside host.old) (H.outside host.new) }
{
    run(rt, alloc, words_behind(args), host, gate)
}
