//! Plain lines.

ghost use Rattle.std.specs.Prelude.{◌≡◌, ◌<◌, ◌≤◌, [], IfSome, length, get_or, drop, map};
ghost use Rattle.std.specs.Str.{bytes_eq};
ghost use Rattle.words_core.specs.Commands.{IsInRange};
ghost use Rattle.words_core.specs.Plain.{options_of, command_of, with_option, IsWithin};

use crate::command::{Command, Verb};
use crate::options::{Options, no_options};

/// Whether the first word is this one.
fn begins_with(words: &[&str], word: &str) -> bool
    requires { 0 < length words.now }
    ensures { result ≡ bytes_eq (get_or (map (λ w. w.now) words.now) 0 []) word.now }
{
    words[0] == word
}

/// The options with the one whose name and value are the first two words.
fn with_first(verb: Verb, given: Options, words: &[&str]) -> Option<Options>
    requires within { IsWithin verb given }
    requires two { 1 < length words.now }
    ensures exact { result ≡ with_option verb given (get_or (map (λ w. w.now) words.now) 0 []) (get_or (map (λ w. w.now) words.now) 1 []) }
    ensures range { IfSome result (IsWithin verb) }
{
    given.with_option(verb, words[0], words[1])
}

/// The words behind the first ones.
fn behind<'a, 'b>(words: &'a [&'b str], count: usize) -> &'a [&'b str]
    requires { count ≤ length words.now }
    ensures { result.now ≡ drop count words.now }
{
    &words[count..]
}

/// The options of the words behind a command, with those that were given before.
fn options_of(verb: Verb, given: Options, words: &[&str]) -> Option<Options>
    requires { IsWithin verb given }
    ensures exact { result ≡ options_of verb given (map (λ w. w.now) words.now) }
    ensures range { IfSome result (IsWithin verb) }
{
    if words.len() == 0 {
        return Some(given);
    }
    if begins_with(words, "--summary") {
        return match given.with_summary(verb) {
            Some(more) => options_of(verb, more, behind(words, 1)),
            None => None,
        };
    }
    if words.len() == 1 {
        return None;
    }
    match with_first(verb, given, words) {
        Some(more) => options_of(verb, more, behind(words, 2)),
        None => None,
    }
}

/// The command of a plain line; none where the words are no such line.
pub fn command_of(words: &[&str]) -> Option<Command>
    ensures exact { result ≡ command_of (map (λ w. w.now) words.now) }
    ensures range { IfSome result IsInRange }
{
    if words.len() == 0 {
        return None;
    }
    let verb = Verb::of(words[0])?;
    let given = options_of(verb, no_options(), &words[1..])?;
    given.command(verb)
}
