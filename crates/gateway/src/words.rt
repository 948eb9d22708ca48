//! What the words of a process ask for.

ghost use Rattle.std.specs.Prelude.{◌≡◌, ◌<◌, ◌≤◌, ◌^◌, ℕ, Some, IfSome, decimal, map};
ghost use Rattle.gateway.specs.Words.{NamesCount, AsksPace, Asks, IsWithin};

use itoa::Buffer;

/// How many calls are measured at most.
const COUNT_MAX: u64 = 100_000_000;

/// What the program is asked for.
#[derive(Clone, Copy, Debug, PartialEq, Eq)]
pub enum Request {
    /// Tells of the day of standard input.
    Day,
    /// Tells how long so many calls take.
    Pace(u64),
}

/// The number of which a word is the decimal number, without a sign and without a leading zero.
fn number_of(word: &str) -> Option<u64>
    ensures only { IfSome result (λ number. word.now ≡ decimal number) }
    ensures found { (number : ℕ) → number < 2 ^ 64 → word.now ≡ decimal number → result ≡ Some number }
{
    let Ok(number) = word.parse::<u64>() else {
        return None;
    };
    let mut buffer = Buffer::new();
    if buffer.format(number) == word {
        Some(number)
    } else {
        None
    }
}

/// The count of which a word is the number.
fn count_of(word: &str) -> Option<u64>
    ensures only { IfSome result (λ count. (1 ≤ count) × (count ≤ 100000000) × (word.now ≡ decimal count)) }
    ensures found { (count : ℕ) → 1 ≤ count → count ≤ 100000000 → word.now ≡ decimal count → result ≡ Some count }
{
    let count = number_of(word)?;
    if count >= 1 && count <= COUNT_MAX {
        Some(count)
    } else {
        None
    }
}

/// The count that two words name.
fn count_behind(word: &str, number: &str) -> Option<u64>
    ensures { NamesCount word.now number.now result }
{
    if word == "pace" {
        count_of(number)
    } else {
        None
    }
}

/// What two words ask for.
fn request_of_pace(word: &str, number: &str) -> Option<Request>
    ensures asks { AsksPace word.now number.now result }
    ensures range { IfSome result IsWithin }
{
    let count = count_behind(word, number)?;
    Some(Request::Pace(count))
}

/// What the words of a process ask for, the program's name among them; none where they aren't understood.
pub fn request_of(args: &[&str]) -> Option<Request>
    ensures asks { Asks (map (λ w. w.now) args.now) result }
    ensures range { IfSome result IsWithin }
{
    match args {
        [_] => Some(Request::Day),
        [_, word, number] => request_of_pace(word, number),
        _ => None,
    }
}
