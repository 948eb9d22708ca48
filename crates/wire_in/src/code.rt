//! The byte of each value of a field, and the value of each byte.

ghost use Rattle.std.specs.Prelude.{◌≡◌};
ghost use Rattle.wire_in.specs.Codes.{close_byte, close_of_byte, profile_byte, profile_of_byte, tier_byte, tier_of_byte, leverage_of_byte, flags_of_number, kind_byte, kind_of_byte, unmatched_byte, unmatched_of_byte};

use crate::record::NoticeKind;
use price_core::{Leverage, Tier, Unmatched};
use session_core::{Close, Profile};

/// The byte of a closing time.
pub fn close_byte(close: Close) -> u8
    ensures { result ≡ close_byte close }
{
    match close {
        Close::Regular => 1,
        Close::Early => 2,
    }
}

/// The closing time of a byte.
pub fn close_of_byte(byte: u8) -> Option<Close>
    ensures { result ≡ close_of_byte byte }
{
    match byte {
        1 => Some(Close::Regular),
        2 => Some(Close::Early),
        _ => None,
    }
}

/// The byte of a profile of the percentages.
pub fn profile_byte(profile: Profile) -> u8
    ensures { result ≡ profile_byte profile }
{
    match profile {
        Profile::Before18 => 1,
        Profile::Since18 => 2,
    }
}

/// The profile of the percentages of a byte.
pub fn profile_of_byte(byte: u8) -> Option<Profile>
    ensures { result ≡ profile_of_byte byte }
{
    match byte {
        1 => Some(Profile::Before18),
        2 => Some(Profile::Since18),
        _ => None,
    }
}

/// The byte of a tier.
pub fn tier_byte(tier: Tier) -> u8
    ensures { result ≡ tier_byte tier }
{
    match tier {
        Tier::One => 1,
        Tier::Two => 2,
    }
}

/// The tier of a byte.
pub fn tier_of_byte(byte: u8) -> Option<Tier>
    ensures { result ≡ tier_of_byte byte }
{
    match byte {
        1 => Some(Tier::One),
        2 => Some(Tier::Two),
        _ => None,
    }
}

/// The leverage ratio of a byte, in tenths.
pub fn leverage_of_byte(byte: u8) -> Option<Leverage>
    ensures { result ≡ leverage_of_byte byte }
{
    Leverage::new(byte).ok()
}

/// The sale conditions of a trade, of which ten are assigned.
pub fn flags_of_number(flags: u16) -> Option<u16>
    ensures { result ≡ flags_of_number flags }
{
    (flags <= 0x03ff).then_some(flags)
}

/// The byte of a kind of notice.
pub fn kind_byte(kind: NoticeKind) -> u8
    ensures { result ≡ kind_byte kind }
{
    match kind {
        NoticeKind::OpenQuote => 1,
        NoticeKind::PauseNow => 2,
        NoticeKind::Halt => 3,
        NoticeKind::Resume => 4,
    }
}

/// The kind of notice of a byte.
pub fn kind_of_byte(byte: u8) -> Option<NoticeKind>
    ensures { result ≡ kind_of_byte byte }
{
    match byte {
        1 => Some(NoticeKind::OpenQuote),
        2 => Some(NoticeKind::PauseNow),
        3 => Some(NoticeKind::Halt),
        4 => Some(NoticeKind::Resume),
        _ => None,
    }
}

/// The byte of an unmatched side.
pub fn unmatched_byte(unmatched: Unmatched) -> u8
    ensures { result ≡ unmatched_byte unmatched }
{
    match unmatched {
        Unmatched::Nothing => 0,
        Unmatched::Buy => 1,
        Unmatched::Sell => 2,
    }
}

/// The unmatched side of a byte.
pub fn unmatched_of_byte(byte: u8) -> Option<Unmatched>
    ensures { result ≡ unmatched_of_byte byte }
{
    match byte {
        0 => Some(Unmatched::Nothing),
        1 => Some(Unmatched::Buy),
        2 => Some(Unmatched::Sell),
        _ => None,
    }
}
