//! From a body to the record and the number of a Part, or to the count of a Have.

ghost use Rattle.std.specs.Prelude.{◌≡◌, ◌+◌, ◌≤◌, ℕ, length, IfOk, Ok, Some, None};
ghost use Rattle.std.specs.Result.{result_ok};
ghost use Rattle.wire_in.specs.declared.record.Record.{Record};
ghost use Rattle.standby_core.specs.Parts.{has_part_form, number_of, part_of, have_of, SpellsPart, SpellsHave};

use thiserror::Error;
use wire_core::u64_at;
use wire_in::{Record, decode};

/// A body spells no such frame.
#[derive(Clone, Copy, Debug, PartialEq, Eq, Error)]
#[error("the body spells no such frame")]
pub struct BadFrame;

/// Whether a body has the form of a Part: its type, a number of eight bytes, and a frame to its end.
fn has_part_form(body: &[u8]) -> bool
    ensures { result ≡ has_part_form body.now }
{
    10 <= body.len() && body[0] == 0xa1 && body[9] as usize + 10 == body.len()
}

/// The number of a Part; none exactly where it is 0.
fn number_of(body: &[u8]) -> Option<u64>
    requires { 9 ≤ length body.now }
    ensures { result ≡ number_of body.now }
{
    match u64_at(body, 1) {
        0 => None,
        number => Some(number),
    }
}

#[tactic(auto, unfolding(crate::specs::Parts::part_of))]
fn part(body: &[u8]) -> Option<(u64, Record)>
    ensures { result ≡ part_of body.now }
{
    if !has_part_form(body) {
        return None;
    }
    let number = number_of(body)?;
    let x = decode(&body[10..]).ok()?;
    Some((number, x))
}

/// The number and the record of the Part that a body spells; an error exactly where it spells none. Each Part has one body.
pub fn get_part(body: &[u8]) -> Result<(u64, Record), BadFrame>
    ensures exact { result_ok result ≡ part_of body.now }
    ensures found { IfOk result (λ part. SpellsPart body.now part.0 part.1) }
    ensures only { (number : ℕ) (x : Record) → SpellsPart body.now number x → result ≡ Ok (number, x) }
{
    match part(body) {
        Some((number, x)) => Ok((number, x)),
        None => Err(BadFrame),
    }
}

#[tactic(auto, unfolding(crate::specs::Parts::have_of))]
fn have(body: &[u8]) -> Option<u64>
    ensures { result ≡ have_of body.now }
{
    if body.len() != 9 || body[0] != 0xa2 {
        return None;
    }
    Some(u64_at(body, 1))
}

/// The count of the Have that a body spells; an error exactly where it spells none. Each Have has one body.
pub fn get_have(body: &[u8]) -> Result<u64, BadFrame>
    ensures exact { result_ok result ≡ have_of body.now }
    ensures found { IfOk result (SpellsHave body.now) }
    ensures only { (count : ℕ) → SpellsHave body.now count → result ≡ Ok count }
{
    match have(body) {
        Some(count) => Ok(count),
        None => Err(BadFrame),
    }
}
