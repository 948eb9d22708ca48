//! The words of enumerations, read.

ghost use Rattle.std.specs.Prelude.{◌≡◌, bytes_eq};
ghost use Rattle.text_core.specs.Reading.{close_in, profile_in, tier_in, notice_in, unmatched_in, phase_in, cause_in, straddle_in, short_in, level_in};

use price_core::{Cause, Tier, Unmatched};
use session_core::{Close, Level, Phase, Profile};
use wire_in::NoticeKind;
use wire_out::ShortKind;

/// Whether a word is that text.
pub fn is(word: &[u8], text: &str) -> bool
    ensures { result ≡ bytes_eq word.now text.now }
{
    word == text.as_bytes()
}

/// The closing time of a word.
pub fn close(word: &[u8]) -> Option<Close>
    ensures { result ≡ close_in word.now }
{
    if is(word, "regular") {
        Some(Close::Regular)
    } else if is(word, "early") {
        Some(Close::Early)
    } else {
        None
    }
}

/// The profile of a word.
pub fn profile(word: &[u8]) -> Option<Profile>
    ensures { result ≡ profile_in word.now }
{
    if is(word, "since18") {
        Some(Profile::Since18)
    } else if is(word, "before18") {
        Some(Profile::Before18)
    } else {
        None
    }
}

/// The tier of a word.
pub fn tier(word: &[u8]) -> Option<Tier>
    ensures { result ≡ tier_in word.now }
{
    if is(word, "tier1") {
        Some(Tier::One)
    } else if is(word, "tier2") {
        Some(Tier::Two)
    } else {
        None
    }
}

/// The kind of notice of a word.
pub fn notice_kind(word: &[u8]) -> Option<NoticeKind>
    ensures { result ≡ notice_in word.now }
{
    if is(word, "openquote") {
        Some(NoticeKind::OpenQuote)
    } else if is(word, "pausenow") {
        Some(NoticeKind::PauseNow)
    } else if is(word, "halt") {
        Some(NoticeKind::Halt)
    } else if is(word, "resume") {
        Some(NoticeKind::Resume)
    } else {
        None
    }
}

/// The unmatched side of a word.
pub fn unmatched(word: &[u8]) -> Option<Unmatched>
    ensures { result ≡ unmatched_in word.now }
{
    if is(word, "none") {
        Some(Unmatched::Nothing)
    } else if is(word, "buy") {
        Some(Unmatched::Buy)
    } else if is(word, "sell") {
        Some(Unmatched::Sell)
    } else {
        None
    }
}

/// The phase of a word.
pub fn phase(word: &[u8]) -> Option<Phase>
    ensures { result ≡ phase_in word.now }
{
    if is(word, "shut") {
        Some(Phase::Shut)
    } else if is(word, "trading") {
        Some(Phase::Trading)
    } else if is(word, "limitlow") {
        Some(Phase::LimitLow)
    } else if is(word, "limithigh") {
        Some(Phase::LimitHigh)
    } else if is(word, "paused") {
        Some(Phase::Paused)
    } else if is(word, "halted") {
        Some(Phase::Halted)
    } else if is(word, "stopped") {
        Some(Phase::Stopped)
    } else if is(word, "closing") {
        Some(Phase::Closing)
    } else if is(word, "closed") {
        Some(Phase::Closed)
    } else {
        None
    }
}

/// The cause of price bands of a word.
pub fn cause(word: &[u8]) -> Option<Cause>
    ensures { result ≡ cause_in word.now }
{
    if is(word, "first") {
        Some(Cause::First)
    } else if is(word, "moved") {
        Some(Cause::Moved)
    } else if is(word, "forced") {
        Some(Cause::Forced)
    } else if is(word, "times") {
        Some(Cause::Times)
    } else {
        None
    }
}

/// Whether a straddle state begins or ends, by a word.
pub fn straddle(word: &[u8]) -> Option<bool>
    ensures { result ≡ straddle_in word.now }
{
    if is(word, "on") {
        Some(true)
    } else if is(word, "off") {
        Some(false)
    } else {
        None
    }
}

/// The kind of a short sale restriction of a word.
pub fn short_kind(word: &[u8]) -> Option<ShortKind>
    ensures { result ≡ short_in word.now }
{
    if is(word, "triggered") {
        Some(ShortKind::Triggered)
    } else if is(word, "carried") {
        Some(ShortKind::Carried)
    } else {
        None
    }
}

/// The level of a word.
pub fn level(word: &[u8]) -> Option<Level>
    ensures { result ≡ level_in word.now }
{
    if is(word, "1") {
        Some(Level::One)
    } else if is(word, "2") {
        Some(Level::Two)
    } else if is(word, "3") {
        Some(Level::Three)
    } else {
        None
    }
}
