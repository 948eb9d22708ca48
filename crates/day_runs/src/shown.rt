//! Where each symbol stands at the end of a day, as the day's published lines say.

use crate::text::{DayError, is_message, push_line};
use std::alloc::Global;

/// The words of what a symbol shows.
#[derive(Clone, Copy)]
struct Place<'a> {
    phase: &'a str,
    straddle: &'a str,
    restriction: &'a str,
    lower: &'a str,
    upper: &'a str,
}

/// What a symbol shows that was just listed.
const fn just_listed() -> Place<'static> {
    Place {
        phase: "shut",
        straddle: "off",
        restriction: "free",
        lower: "-",
        upper: "-",
    }
}

/// The two price bands of the words of a band.
fn bands_in(words: &str) -> Option<(&str, &str)> {
    let (_, rest) = words.split_once(' ')?;
    let (_, bands) = rest.split_once(' ')?;
    bands.split_once(' ')
}

impl<'a> Place<'a> {
    /// What is shown behind a message of a kind with these words.
    fn behind(self, kind: &str, words: &'a str) -> Place<'a> {
        match kind {
            "listed" => just_listed(),
            "state" => Place {
                phase: words,
                ..self
            },
            "straddle" => Place {
                straddle: words,
                ..self
            },
            "short" => Place {
                restriction: "restricted",
                ..self
            },
            "band" => match bands_in(words) {
                Some((lower, upper)) => Place {
                    lower,
                    upper,
                    ..self
                },
                None => self,
            },
            _ => self,
        }
    }
}

/// The kind, the symbol and the further words of a message's line.
fn parts_of(line: &str) -> Option<(&str, usize, &str)> {
    if !is_message(line) {
        return None;
    }
    let (_, rest) = line.split_once(' ')?;
    let (_, rest) = rest.split_once(' ')?;
    let (kind, rest) = rest.split_once(' ')?;
    let (symbol, words) = rest.split_once(' ')?;
    Some((kind, symbol.parse::<usize>().ok()?, words))
}

/// What each symbol shows behind these lines, in order of ids.
fn places<'a>(alloc: Global, served: &'a str) -> Result<Vec<Place<'a>>, DayError> {
    let mut places = Vec::new(alloc);
    for line in served.lines() {
        let Some((kind, symbol, words)) = parts_of(line) else {
            continue;
        };
        if kind == "listed" && symbol == places.len() {
            places.push(just_listed())?;
        }
        if let Some(place) = places.get_mut(symbol) {
            *place = place.behind(kind, words);
        }
    }
    Ok(places)
}

/// Puts the line of what a symbol shows behind a text.
fn add_place(
    alloc: Global,
    text: &mut String,
    symbol: usize,
    place: &Place<'_>,
) -> Result<(), DayError> {
    let line = format!(in alloc;
        "{symbol} {} {} {} {} {}",
        place.phase, place.straddle, place.restriction, place.lower, place.upper
    )?;
    Ok(push_line(text, &line)?)
}

/// Puts the lines of a board behind the messages of a day behind a text.
pub fn add_board(alloc: Global, text: &mut String, served: &str) -> Result<(), DayError> {
    for (symbol, place) in places(alloc, served)?.iter().enumerate() {
        add_place(alloc, text, symbol, place)?;
    }
    Ok(())
}
