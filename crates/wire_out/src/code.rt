//! The byte of each value of a field, and the value of each byte.

ghost use Rattle.std.specs.Prelude.{◌≡◌};
ghost use Rattle.wire_core.specs.Fields.{checked};
ghost use Rattle.wire_out.specs.Codes.{phase_byte, phase_of_byte, cause_byte, cause_of_byte, straddle_byte, straddle_of_byte, kind_byte, kind_of_byte, level_byte, level_of_byte, is_code, is_field};

use crate::message::ShortKind;
use price_core::Cause;
use session_core::{Level, Phase};

/// The byte of a phase.
pub fn phase_byte(phase: Phase) -> u8
    ensures { result ≡ phase_byte phase }
{
    match phase {
        Phase::Shut => 0,
        Phase::Trading => 1,
        Phase::LimitLow => 2,
        Phase::LimitHigh => 3,
        Phase::Paused => 4,
        Phase::Halted => 5,
        Phase::Stopped => 6,
        Phase::Closing => 7,
        Phase::Closed => 8,
    }
}

/// The phase of a byte; None exactly where it is the byte of none.
pub fn phase_of_byte(byte: u8) -> Option<Phase>
    ensures { result ≡ phase_of_byte byte }
{
    match byte {
        0 => Some(Phase::Shut),
        1 => Some(Phase::Trading),
        2 => Some(Phase::LimitLow),
        3 => Some(Phase::LimitHigh),
        4 => Some(Phase::Paused),
        5 => Some(Phase::Halted),
        6 => Some(Phase::Stopped),
        7 => Some(Phase::Closing),
        8 => Some(Phase::Closed),
        _ => None,
    }
}

/// The byte of the cause of price bands.
pub fn cause_byte(cause: Cause) -> u8
    ensures { result ≡ cause_byte cause }
{
    match cause {
        Cause::First => 1,
        Cause::Moved => 2,
        Cause::Forced => 3,
        Cause::Times => 4,
    }
}

/// The cause of a byte; None exactly where it is the byte of none.
pub fn cause_of_byte(byte: u8) -> Option<Cause>
    ensures { result ≡ cause_of_byte byte }
{
    match byte {
        1 => Some(Cause::First),
        2 => Some(Cause::Moved),
        3 => Some(Cause::Forced),
        4 => Some(Cause::Times),
        _ => None,
    }
}

/// The byte of the begin of a straddle state or of its end.
pub fn straddle_byte(on: bool) -> u8
    ensures { result ≡ straddle_byte on }
{
    if on { 1 } else { 0 }
}

/// Whether a byte is that of the begin of a straddle state or of its end; None exactly where it is neither.
pub fn straddle_of_byte(byte: u8) -> Option<bool>
    ensures { result ≡ straddle_of_byte byte }
{
    match byte {
        0 => Some(false),
        1 => Some(true),
        _ => None,
    }
}

/// The byte of the kind of a short sale restriction.
pub fn kind_byte(kind: ShortKind) -> u8
    ensures { result ≡ kind_byte kind }
{
    match kind {
        ShortKind::Triggered => 1,
        ShortKind::Carried => 2,
    }
}

/// The kind of a byte; None exactly where it is the byte of none.
pub fn kind_of_byte(byte: u8) -> Option<ShortKind>
    ensures { result ≡ kind_of_byte byte }
{
    match byte {
        1 => Some(ShortKind::Triggered),
        2 => Some(ShortKind::Carried),
        _ => None,
    }
}

/// The byte of a level.
pub fn level_byte(level: Level) -> u8
    ensures { result ≡ level_byte level }
{
    match level {
        Level::One => 1,
        Level::Two => 2,
        Level::Three => 3,
    }
}

/// The level of a byte; None exactly where it is the byte of none.
pub fn level_of_byte(byte: u8) -> Option<Level>
    ensures { result ≡ level_of_byte byte }
{
    match byte {
        1 => Some(Level::One),
        2 => Some(Level::Two),
        3 => Some(Level::Three),
        _ => None,
    }
}

/// The code of a refusal.
pub fn code_of_byte(byte: u8) -> Option<u8>
    ensures { result ≡ checked (is_code byte) byte }
{
    match byte {
        1..=9 => Some(byte),
        _ => None,
    }
}

/// The field that a refusal of that code names.
pub fn field_of_byte(code: u8, byte: u8) -> Option<u8>
    ensures { result ≡ checked (is_field code byte) byte }
{
    match (code, byte) {
        (3, 1..=7) => Some(byte),
        (3, _) => None,
        (_, 0) => Some(byte),
        _ => None,
    }
}
