//! The words of values.

ghost use Rattle.std.specs.Prelude.{◌≡◌, ◌≤◌, ◌<◌, IsTrue, length, take};
ghost use Rattle.wire_core.specs.Names.{is_name, visible_count};
ghost use Rattle.text_core.specs.Words.{close_word, profile_word, tier_word, notice_word, unmatched_word, phase_word, cause_word, straddle_word, short_word, level_word, hex_digit, name_word};

use price_core::{Cause, Tier, Unmatched};
use session_core::{Close, Level, Phase, Profile};
use std::str;
use wire_in::NoticeKind;
use wire_out::ShortKind;

/// The word of a closing time.
pub fn close_word(close: Close) -> &'static str
    ensures word { result.now ≡ close_word close }
    ensures short { length result.now ≤ 24 }
{
    match close {
        Close::Regular => "regular",
        Close::Early => "early",
    }
}

/// The word of a profile.
pub fn profile_word(profile: Profile) -> &'static str
    ensures word { result.now ≡ profile_word profile }
    ensures short { length result.now ≤ 24 }
{
    match profile {
        Profile::Since18 => "since18",
        Profile::Before18 => "before18",
    }
}

/// The word of a tier.
pub fn tier_word(tier: Tier) -> &'static str
    ensures word { result.now ≡ tier_word tier }
    ensures short { length result.now ≤ 24 }
{
    match tier {
        Tier::One => "tier1",
        Tier::Two => "tier2",
    }
}

/// The word of a kind of notice.
pub fn notice_word(kind: NoticeKind) -> &'static str
    ensures word { result.now ≡ notice_word kind }
    ensures short { length result.now ≤ 24 }
{
    match kind {
        NoticeKind::OpenQuote => "openquote",
        NoticeKind::PauseNow => "pausenow",
        NoticeKind::Halt => "halt",
        NoticeKind::Resume => "resume",
    }
}

/// The word of an unmatched side.
pub fn unmatched_word(unmatched: Unmatched) -> &'static str
    ensures word { result.now ≡ unmatched_word unmatched }
    ensures short { length result.now ≤ 24 }
{
    match unmatched {
        Unmatched::Nothing => "none",
        Unmatched::Buy => "buy",
        Unmatched::Sell => "sell",
    }
}

/// The word of a phase.
pub fn phase_word(phase: Phase) -> &'static str
    ensures word { result.now ≡ phase_word phase }
    ensures short { length result.now ≤ 24 }
{
    match phase {
        Phase::Shut => "shut",
        Phase::Trading => "trading",
        Phase::LimitLow => "limitlow",
        Phase::LimitHigh => "limithigh",
        Phase::Paused => "paused",
        Phase::Halted => "halted",
        Phase::Stopped => "stopped",
        Phase::Closing => "closing",
        Phase::Closed => "closed",
    }
}

/// The word of the cause of price bands.
pub fn cause_word(cause: Cause) -> &'static str
    ensures word { result.now ≡ cause_word cause }
    ensures short { length result.now ≤ 24 }
{
    match cause {
        Cause::First => "first",
        Cause::Moved => "moved",
        Cause::Forced => "forced",
        Cause::Times => "times",
    }
}

/// The word of the begin of a straddle state or of its end.
pub fn straddle_word(on: bool) -> &'static str
    ensures word { result.now ≡ straddle_word on }
    ensures short { length result.now ≤ 24 }
{
    if on { "on" } else { "off" }
}

/// The word of the kind of a short sale restriction.
pub fn short_word(kind: ShortKind) -> &'static str
    ensures word { result.now ≡ short_word kind }
    ensures short { length result.now ≤ 24 }
{
    match kind {
        ShortKind::Triggered => "triggered",
        ShortKind::Carried => "carried",
    }
}

/// The word of a level.
pub fn level_word(level: Level) -> &'static str
    ensures word { result.now ≡ level_word level }
    ensures short { length result.now ≤ 24 }
{
    match level {
        Level::One => "1",
        Level::Two => "2",
        Level::Three => "3",
    }
}

/// The last hexadecimal digit of a number, in lower case.
pub fn hex_digit(n: u16) -> u8
    ensures digit { result ≡ hex_digit n }
    ensures ascii { result < 128 }
{
    let digit = (n % 16) as u8;
    if digit < 10 {
        digit + b'0'
    } else {
        digit - 10 + b'a'
    }
}

/// How many visible ASCII characters a name begins with.
fn visible_count(name: &[u8]) -> usize
    ensures value { result ≡ visible_count name.now }
    ensures bound { result ≤ length name.now }
{
    name.iter()
        .take_while(|b| 0x21 <= **b && **b <= 0x7e)
        .count()
}

/// A name without the zero bytes behind it.
#[tactic(auto, unfolding(crate::specs::Words::name_word))]
pub fn name_text(name: &[u8; 8]) -> &str
    requires { IsTrue (is_name name.now) }
    ensures word { result.now ≡ name_word name.now }
    ensures short { length result.now ≤ 8 }
{
    let count = visible_count(name);
    str::from_utf8(&name[..count]).unwrap_or("")
}
