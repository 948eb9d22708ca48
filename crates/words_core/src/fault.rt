//! What `clap` says of words that are not understood.

ghost use Rattle.std.specs.Prelude.{◌≡◌, ◌∷◌, [], IfSome, codes, map};
ghost use Rattle.clap.specs.Words.{fault_of, kind_of};
ghost use Rattle.words_core.specs.Line.{halts_line};
ghost use Rattle.words_core.specs.Asked.{HasFault, IsFault, IsRefused};

use crate::asked::KINDS;
use crate::line::halts_line;
use clap::Error;
use clap::error::ErrorKind;
use std::alloc::Global;

/// The text of an error, where it tells of a fault and asks for no text.
fn text_of(alloc: Global, error: &Error) -> Option<String>
    ensures { IfSome result (λ _. IsFault (kind_of error.now)) }
{
    match error.kind() {
        ErrorKind::OutOfMemory | ErrorKind::DisplayHelp | ErrorKind::DisplayVersion => None,
        _ => format!(in alloc; "{error}").ok(),
    }
}

/// What `clap` says of words that it refuses.
fn read_fault<'a>(alloc: Global, kinds: &'a [&'a str], words: &'a [&'a str]) -> Option<String>
    requires kinds { map (λ w. w.now) kinds.now ≡ codes "records" ∷ codes "published" ∷ [] }
    ensures { IfSome result (λ _. HasFault (fault_of (halts_line kinds.entry) (map (λ w. w.now) words.entry.now))) }
{
    let Ok(line) = halts_line(alloc, kinds) else {
        return None;
    };
    match line.try_get_matches_from(words) {
        Ok(_) => None,
        Err(error) => text_of(alloc, &error),
    }
}

/// What `clap` says of the words behind the journal's path, for a reader: some text only where it finds a fault in them that asks
/// for no text, and where there is memory for it.
pub fn fault_text(alloc: Global, words: &[&str]) -> Option<String>
    ensures { IfSome result (λ _. IsRefused (map (λ w. w.now) words.now)) }
{
    read_fault(alloc, KINDS.as_slice(), words)
}
