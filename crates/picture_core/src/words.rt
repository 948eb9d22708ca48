//! The command line.

ghost use Rattle.std.specs.Prelude.{◌≡◌, ◌<◌, ◌^◌, ℕ, Some, IfSome, decimal, map};
ghost use Rattle.wire_core.specs.Names.{is_name};
ghost use Rattle.text_core.specs.Reading.{name_in};
ghost use Rattle.picture_core.specs.Words.{is_hyphened, sound_name, name_of_word, NamesSymbol, NamesDay, AsksWord, AsksMarket, AsksDay, Asks};

use itoa::Buffer;
use wire_core::name_at;

/// The symbol that a word names.
#[derive(Clone, Copy, Debug, PartialEq, Eq)]
pub enum Symbol {
    Id(u16),
    /// One to eight visible ASCII characters and then zero bytes.
    Name([u8; 8]),
}

/// What the words of a process ask for.
#[derive(Clone, Copy, Debug, PartialEq, Eq)]
pub enum Command {
    /// Tells how the program is called.
    Help,
    /// Draws a day of that symbol, or of the market: the day of that number, from 1 on, or the last one.
    Draw {
        symbol: Option<Symbol>,
        day: Option<u64>,
    },
}

/// The id of which a word is the decimal number, without a sign and without a leading zero.
fn id_of(word: &str) -> Option<u16>
    ensures only { IfSome result (λ symbol. word.now ≡ decimal symbol) }
    ensures found { (symbol : ℕ) → symbol < 2 ^ 16 → word.now ≡ decimal symbol → result ≡ Some symbol }
{
    let Ok(symbol) = word.parse::<u16>() else {
        return None;
    };
    let mut buffer = Buffer::new();
    if buffer.format(symbol) == word {
        Some(symbol)
    } else {
        None
    }
}

/// The number of which a word is the decimal number, without a sign and without a leading zero.
fn number_of(word: &str) -> Option<u64>
    ensures only { IfSome result (λ number. word.now ≡ decimal number) }
    ensures found { (number : ℕ) → number < 2 ^ 64 → word.now ≡ decimal number → result ≡ Some number }
{
    let Ok(number) = word.parse::<u64>() else {
        return None;
    };
    let mut buffer = Buffer::new();
    if buffer.format(number) == word {
        Some(number)
    } else {
        None
    }
}

/// The day of which a word is the number, from 1 on.
fn day_of(word: &str) -> Option<u64>
    ensures only { IfSome result (λ day. (0 < day) × (word.now ≡ decimal day)) }
    ensures found { (day : ℕ) → 0 < day → day < 2 ^ 64 → word.now ≡ decimal day → result ≡ Some day }
{
    let day = number_of(word)?;
    if day > 0 { Some(day) } else { None }
}

/// Whether a word begins with a hyphen.
fn is_hyphened(word: &[u8]) -> bool
    ensures { result ≡ is_hyphened word.now }
{
    match word {
        [byte, ..] => *byte == b'-',
        [] => false,
    }
}

/// A word with zero bytes behind it, if it is short enough for a name.
#[tactic(auto, unfolding(text_core::specs::Reading::name_in))]
fn padded(word: &[u8]) -> Option<[u8; 8]>
    ensures { result ≡ name_in word.now }
{
    if word.len() > 8 {
        return None;
    }
    let mut name = [0; 8];
    name[..word.len()].copy_from_slice(word);
    Some(name)
}

/// Whether a name has one to eight visible characters, and then zero bytes.
fn is_name(name: [u8; 8]) -> bool
    ensures { result ≡ is_name name }
{
    name_at(&name, 0).is_some()
}

/// A name, where it is one.
fn sound_name(name: Option<[u8; 8]>) -> Option<[u8; 8]>
    ensures { result ≡ sound_name name }
{
    match name {
        Some(name) => { if is_name(name) { Some(name) } else { None } }
        None => None,
    }
}

/// The name that a word is.
fn name_of_word(word: &str) -> Option<[u8; 8]>
    ensures { result ≡ name_of_word word.now }
{
    let bytes = word.as_bytes();
    if is_hyphened(bytes) {
        return None;
    }
    sound_name(padded(bytes))
}

/// The symbol that a word names: its id, else its name.
fn symbol_of(word: &str) -> Option<Symbol>
    ensures { NamesSymbol word.now result }
{
    match id_of(word) {
        Some(symbol) => Some(Symbol::Id(symbol)),
        None => {
            let name = name_of_word(word)?;
            Some(Symbol::Name(name))
        }
    }
}

/// The day that two words name.
fn day_behind(option: &str, number: &str) -> Option<u64>
    ensures { NamesDay option.now number.now result }
{
    if option == "--day" {
        day_of(number)
    } else {
        None
    }
}

/// What one word asks for.
fn command_of_word(word: &str) -> Option<Command>
    ensures { AsksWord word.now result }
{
    if word == "--help" || word == "-h" {
        return Some(Command::Help);
    }
    let symbol = symbol_of(word)?;
    Some(Command::Draw {
        symbol: Some(symbol),
        day: None,
    })
}

/// What two words ask for.
fn command_of_market(option: &str, number: &str) -> Option<Command>
    ensures { AsksMarket option.now number.now result }
{
    let day = day_behind(option, number)?;
    Some(Command::Draw {
        symbol: None,
        day: Some(day),
    })
}

/// What three words ask for.
fn command_of_day(word: &str, option: &str, number: &str) -> Option<Command>
    ensures { AsksDay word.now option.now number.now result }
{
    let symbol = symbol_of(word)?;
    let day = day_behind(option, number)?;
    Some(Command::Draw {
        symbol: Some(symbol),
        day: Some(day),
    })
}

/// What the words of a process ask for; none where they aren't understood.
pub fn command_of(args: &[&str]) -> Option<Command>
    ensures { Asks (map (λ w. w.now) args.now) result }
{
    match args {
        [_] => Some(Command::Draw {
            symbol: None,
            day: None,
        }),
        [_, word] => command_of_word(word),
        [_, option, number] => command_of_market(option, number),
        [_, word, option, number] => command_of_day(word, option, number),
        _ => None,
    }
}
