//! What the words of a process ask for, as far as details depend on it.

use text_core::Kind;

/// The word at a place, from 0 on, the first of which is the program's own name; empty where there are fewer.
pub fn word_at<'a>(args: &[&'a str], place: usize) -> &'a str {
    match args.get(place) {
        Some(word) => word,
        None => "",
    }
}

/// Whether a word asks for help or for the version.
fn asks_for_text(word: &str) -> bool {
    matches!(word, "help" | "--help" | "-h" | "--version" | "-V")
}

/// Whether any word asks for help or for the version.
fn has_text(args: &[&str]) -> bool {
    let mut asks = false;
    for word in args {
        asks |= asks_for_text(word);
    }
    asks
}

/// The words of a command, which stand behind the journal's path. Words that ask for a text need no path before them.
pub fn command_words<'a, 'b>(args: &'a [&'b str]) -> &'a [&'b str] {
    let first = if asks_for_text(word_at(args, 1)) {
        1
    } else {
        2
    };
    &args[first.min(args.len())..]
}

/// Whether a word is a command's name.
fn is_command(word: &str) -> bool {
    reads_frames(word) || sends_alone(word) || matches!(word, "format" | "status" | "roll" | "ship")
}

/// Whether a word is the name of a command that reads frames.
fn reads_frames(word: &str) -> bool {
    matches!(
        word,
        "print" | "replay" | "serve" | "board" | "audit" | "standby"
    )
}

/// Whether a word is the name of a command that keeps what it accepts in a journal.
fn keeps(word: &str) -> bool {
    matches!(word, "serve" | "standby")
}

/// Whether a word is the name of a command that reads lines or nothing, and only sends.
fn sends_alone(word: &str) -> bool {
    matches!(word, "pack" | "cross" | "generate")
}

/// Whether no path of a journal stands where it should.
pub fn lacks_path(args: &[&str]) -> bool {
    args.len() < 2 || is_command(word_at(args, 1))
}

/// Whether the words ask for a command that reads frames.
pub fn asks_for_frames(args: &[&str]) -> bool {
    reads_frames(word_at(args, 2))
}

/// Whether the words ask for something that only sends what its input or its words say, and keeps nothing.
pub fn only_filters(args: &[&str]) -> bool {
    let command = word_at(args, 2);
    sends_alone(command) || reads_frames(command) && !keeps(command) || has_text(args)
}

/// What the lines are of that the words ask to pack; none where they ask for something else.
pub fn packed_kind(args: &[&str]) -> Option<Kind> {
    if word_at(args, 2) != "pack" {
        return None;
    }
    let mut kind = Kind::Records;
    for word in args {
        if matches!(*word, "published" | "--kind=published") {
            kind = Kind::Published;
        }
    }
    Some(kind)
}
