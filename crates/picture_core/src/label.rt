//! The words that stand in the picture.

ghost use Rattle.std.specs.Prelude.{◌≡◌, ◌++◌, IfOk, OnOk};
ghost use Rattle.std.specs.List.{flat_map};
ghost use Rattle.std.specs.String.{string_bytes};
ghost use Rattle.picture_core.specs.Labels.{dollars_text, time_text, character_text, name_after, name_text};

use price_core::{NoMemory, Price};
use session_core::Moment;
use std::alloc::Global;
use wire_out::{Message, Stamped};

/// A price in dollars and cents, with four digits where it is no whole number of cents.
#[tactic(auto, unfolding(crate::specs::Labels::dollars_text))]
pub fn dollars(alloc: Global, units: u128) -> Result<String, NoMemory>
    ensures { IfOk result (λ text. string_bytes text ≡ dollars_text units) }
{
    let whole = units / 10_000;
    let rest = units % 10_000;
    if rest % 100 == 0 {
        let cents = rest / 100;
        Ok(format!(in alloc; "{whole}.{cents:02}")?)
    } else {
        Ok(format!(in alloc; "{whole}.{rest:04}")?)
    }
}

/// The price of a message's label.
pub fn price(alloc: Global, price: Price) -> Result<String, NoMemory>
    ensures { IfOk result (λ text. string_bytes text ≡ dollars_text price) }
{
    dollars(alloc, u128::from(price.units()))
}

/// A moment in hours, minutes and seconds.
#[tactic(auto, unfolding(crate::specs::Labels::time_text))]
pub fn time(alloc: Global, moment: Moment) -> Result<String, NoMemory>
    ensures { IfOk result (λ text. string_bytes text ≡ time_text moment) }
{
    let seconds = moment.nanos() / 1_000_000_000;
    let hour = seconds / 3600;
    let minute = seconds / 60 % 60;
    let second = seconds % 60;
    Ok(format!(in alloc; "{hour:02}:{minute:02}:{second:02}")?)
}

/// A character of a name, as an entity where it means something else in a picture's text.
fn put_character(text: &mut String, byte: u8) -> Result<(), NoMemory>
    ensures { OnOk result (string_bytes text.new ≡ string_bytes text.old ++ character_text byte) }
{
    match byte {
        b'&' | b'<' | b'>' | b'"' | b'\'' => Ok(write!(text, "&#{byte};")?),
        0 => Ok(()),
        _ => Ok(text.push(char::from(byte))?),
    }
}

fn put_name(text: &mut String, name: &[u8; 8]) -> Result<(), NoMemory>
    ensures { OnOk result (string_bytes text.new ≡ string_bytes text.old ++ flat_map character_text name.now) }
{
    for byte in name {
        put_character(text, *byte)?;
    }
    Ok(())
}

/// Takes the name that a message tells of a symbol, behind a blank.
fn take_name(symbol: u16, text: &mut String, message: Message) -> Result<(), NoMemory>
    ensures { OnOk result (string_bytes text.new ≡ name_after symbol (string_bytes text.old) message) }
{
    match message {
        Message::Listed {
            symbol: listed,
            name,
        } => {
            if listed == symbol {
                text.clear();
                text.push(' ')?;
                put_name(text, &name)?;
            }
            Ok(())
        }
        _ => Ok(()),
    }
}

/// The name of the symbol behind a blank, where a listing tells it; else no text.
#[tactic(auto, unfolding(crate::specs::Labels::name_text))]
pub fn name(alloc: Global, symbol: u16, messages: &[Stamped]) -> Result<String, NoMemory>
    ensures { IfOk result (λ text. string_bytes text ≡ name_text symbol messages.now) }
{
    let mut text = String::new(alloc);
    for x in messages {
        take_name(symbol, &mut text, x.message)?;
    }
    Ok(text)
}
