//! Which words a line has.

use crate::field::Field;

/// What a word of a record's line stands for, by the line's first word; none behind the last one. Places count from 0.
pub fn record_field(first: &str, place: usize) -> Option<Field> {
    match (first, place) {
        (_, 0) => Some(Field::Record),
        (_, 1) => Some(Field::Time),
        ("day", 2) => Some(Field::Date),
        ("day", 3) => Some(Field::Close),
        ("day", 4) => Some(Field::Profile),
        ("day", 5) | ("index", 2) => Some(Field::Index),
        ("listing", 2) => Some(Field::Name),
        ("listing", 3) => Some(Field::Tier),
        ("listing", 4) => Some(Field::Leverage),
        ("listing", 5) | ("quote", 3 | 4) => Some(Field::OptionalPrice),
        ("trade" | "cancel" | "quote" | "notice" | "indication", 2) => Some(Field::Symbol),
        ("trade" | "cancel", 3) | ("trade", 5) | ("quote", 5 | 6) => Some(Field::Count32),
        ("trade", 4) | ("indication", 3) => Some(Field::Price),
        ("trade", 6) => Some(Field::Flags),
        ("notice", 3) => Some(Field::Notice),
        ("indication", 4) => Some(Field::Unmatched),
        _ => None,
    }
}

/// What a word of a published frame's line stands for, by the line's first word and its third one; none behind the last one.
pub fn frame_field(first: &str, third: &str, place: usize) -> Option<Field> {
    match (first, place) {
        (_, 0) => Some(Field::Frame),
        ("hello", 1 | 2) | ("ack" | "refused", 1) => Some(Field::Count),
        ("refused", 2) => Some(Field::Code),
        ("refused", 3) => Some(Field::CodeField),
        ("hello" | "ack" | "refused", _) => None,
        (_, 1) => Some(Field::Time),
        (_, 2) => Some(Field::Message),
        _ => message_field(third, place),
    }
}

/// What a word of a message's line stands for behind the word of its kind.
fn message_field(kind: &str, place: usize) -> Option<Field> {
    match (kind, place) {
        ("marketresume", _) => None,
        ("breaker", 3) => Some(Field::Level),
        ("breaker", 4) => Some(Field::Index),
        ("breaker", _) => None,
        (_, 3) => Some(Field::Symbol),
        ("listed", 4) => Some(Field::Name),
        ("state", 4) => Some(Field::Phase),
        ("band", 4) => Some(Field::Cause),
        ("straddle", 4) => Some(Field::Straddle),
        ("collar", 4) => Some(Field::Symbol),
        ("short", 4) => Some(Field::Short),
        ("release", 4) | ("collar", 5 | 6) | ("band", 5 | 6 | 7) => Some(Field::Price),
        _ => None,
    }
}
