//! The words of a line, each taken for a value of its kind.

use price_core::{Index, Leverage};
use session_core::Date;
use std::str;
use text_core::{Line, number, number16, number32, read_price, read_time};

/// What a word of a line stands for.
#[derive(Clone, Copy, Debug, PartialEq, Eq)]
pub enum Field {
    Record,
    Frame,
    Message,
    Time,
    Date,
    Price,
    OptionalPrice,
    Index,
    Flags,
    Name,
    Symbol,
    Count32,
    Count,
    Leverage,
    Close,
    Profile,
    Tier,
    Notice,
    Unmatched,
    Phase,
    Cause,
    Straddle,
    Short,
    Level,
    Code,
    CodeField,
}

/// Whether a word is that number.
fn is_number(word: &[u8], n: u64) -> bool {
    let mut line = Line::new();
    line.begin_number(n);
    word == line.as_slice()
}

/// Whether a word is a number from one to another.
fn is_between(word: &[u8], least: u64, most: u64) -> bool {
    let n = number(word);
    least <= n && n <= most && is_number(word, n)
}

/// Whether a word is that of a date.
fn is_date(word: &[u8]) -> bool {
    let n = number(word);
    let year = (n / 10_000 % 10_000) as u16;
    let month = (n / 100 % 100) as u8;
    let day = (n % 100) as u8;
    let Ok(date) = Date::of(year, month, day) else {
        return false;
    };
    let mut line = Line::new();
    line.date(date);
    word == &line.as_slice()[1..]
}

/// Whether a word is that of an index value.
fn is_index(word: &[u8]) -> bool {
    let Some(hundredths) = number32(word) else {
        return false;
    };
    let Ok(index) = Index::new(hundredths) else {
        return false;
    };
    let mut line = Line::new();
    line.index(index);
    word == &line.as_slice()[1..]
}

/// Whether a word is that of a trade's flags.
fn are_flags(word: &[u8]) -> bool {
    word.len() == 4
        && word[0] == b'0'
        && word[1] >= b'0'
        && word[1] <= b'3'
        && is_hex(word[2])
        && is_hex(word[3])
}

/// Whether a byte is a hexadecimal digit in lower case.
fn is_hex(byte: u8) -> bool {
    byte.is_ascii_digit() || byte >= b'a' && byte <= b'f'
}

/// Whether a word is a name.
fn is_name(word: &[u8]) -> bool {
    word.len() != 0 && word.len() <= 8 && word.iter().all(|byte| *byte > b' ' && *byte <= b'~')
}

/// Whether a word is one of those that its kind has; of a kind that has numbers or values it is none.
fn is_listed(field: Field, word: &str) -> bool {
    match field {
        Field::Record => matches!(
            word,
            "day"
                | "listing"
                | "trade"
                | "cancel"
                | "quote"
                | "index"
                | "clock"
                | "notice"
                | "indication"
        ),
        Field::Frame => matches!(word, "hello" | "ack" | "refused"),
        Field::Message => matches!(
            word,
            "listed"
                | "state"
                | "band"
                | "straddle"
                | "collar"
                | "release"
                | "short"
                | "breaker"
                | "marketresume"
        ),
        _ => is_value_listed(field, word),
    }
}

/// Whether a word is one of those that a value of its kind has.
fn is_value_listed(field: Field, word: &str) -> bool {
    match field {
        Field::Close => matches!(word, "regular" | "early"),
        Field::Profile => matches!(word, "before18" | "since18"),
        Field::Tier => matches!(word, "tier1" | "tier2"),
        Field::Notice => matches!(word, "openquote" | "pausenow" | "halt" | "resume"),
        Field::Unmatched => matches!(word, "none" | "buy" | "sell"),
        Field::Phase => matches!(
            word,
            "shut"
                | "trading"
                | "limitlow"
                | "limithigh"
                | "paused"
                | "halted"
                | "stopped"
                | "closing"
                | "closed"
        ),
        Field::Cause => matches!(word, "first" | "moved" | "forced" | "times"),
        Field::Straddle => matches!(word, "on" | "off"),
        Field::Short => matches!(word, "triggered" | "carried"),
        _ => false,
    }
}

impl Field {
    /// Whether a word is one of these.
    pub fn accepts(self, word: &[u8]) -> bool {
        match self {
            Field::Time => read_time(word).is_ok(),
            Field::Date => is_date(word),
            Field::Price => read_price(word).is_ok(),
            Field::OptionalPrice => word == b"-".as_slice() || read_price(word).is_ok(),
            Field::Index => is_index(word),
            Field::Flags => are_flags(word),
            Field::Name => is_name(word),
            Field::Symbol => is_between(word, 0, 65_535),
            Field::Count32 => is_between(word, 0, 4_294_967_295),
            Field::Count => is_between(word, 0, u64::MAX),
            Field::Leverage => is_between(word, 10, 50),
            Field::Level => is_between(word, 1, 3),
            Field::Code => is_between(word, 1, 9),
            Field::CodeField => is_between(word, 0, 7),
            Field::Frame if is_between(word, 1, u64::MAX) => true,
            _ => is_listed(self, str::from_utf8(word).unwrap_or("")),
        }
    }

    /// What stands in its place.
    pub fn what(self) -> &'static str {
        match self {
            Field::Record => "a line of a record begins with its kind, as trade or quote",
            Field::Frame => "a line of a frame begins with its number, hello, ack or refused",
            Field::Message => "the kind of the message stands here, as state or band",
            Field::Time => "a time is hh:mm:ss.nnnnnnnnn",
            Field::Date => "a date is yyyy-mm-dd, from 2000 to 2099",
            Field::Price => "a price has four digits behind the point, as 50.0000",
            Field::OptionalPrice => {
                "a price has four digits behind the point, as 50.0000, or is - for none"
            }
            Field::Index => "an index value has two digits behind the point, as 5000.00",
            Field::Flags => "flags are four hexadecimal digits, from 0000 to 03ff",
            Field::Name => "a name has one to eight characters",
            Field::Symbol => "a stock is told by its id, a number from 0 on",
            Field::Count32 => "a number from 0 to 4294967295 stands here",
            Field::Count => "a number stands here",
            Field::Leverage => "a leverage is told in tenths, from 10 to 50",
            _ => self.what_word(),
        }
    }

    // What stands in the place of a word that is one of a few.
    fn what_word(self) -> &'static str {
        match self {
            Field::Close => "the close is regular or early",
            Field::Profile => "the percentages are before18 or since18",
            Field::Tier => "a tier is tier1 or tier2",
            Field::Notice => "a notice is openquote, pausenow, halt or resume",
            Field::Unmatched => "the side that is left is none, buy or sell",
            Field::Phase => "a phase stands here, as trading or paused",
            Field::Cause => "a cause is first, moved, forced or times",
            Field::Straddle => "a straddle state is on or off",
            Field::Short => "a restriction is triggered or carried",
            Field::Level => "a level is 1, 2 or 3",
            Field::Code => "a code is a number from 1 to 9",
            _ => "a field is a number from 0 to 7",
        }
    }
}
