//! The pauses and halts of a day.

ghost use Rattle.std.specs.Prelude.{◌≡◌, ◌++◌, [], IfOk, OnOk};
ghost use Rattle.std.specs.List.{cons_option};
ghost use Rattle.std.specs.String.{string_bytes};
ghost use Rattle.picture_core.specs.Stops.{kind_of_phase, kind_of, stop_of, stops_of, kind_text, end_text, stop_text, sentence, sentences};

use crate::label::time;
use crate::span::end_of;
use price_core::NoMemory;
use session_core::{Level, Moment, Phase};
use std::alloc::Global;
use wire_out::{Message, Stamped};

/// Why a stock isn't traded.
#[derive(Clone, Copy, PartialEq, Eq)]
pub enum Kind {
    /// A trading pause.
    Pause,
    /// A trading pause that lasts to the close.
    PauseToClose,
    /// A regulatory halt.
    Halt,
    /// A market-wide halt.
    MarketWide(Level),
}

/// A pause or a halt; none ends it where its end isn't told.
#[derive(Clone, Copy, PartialEq, Eq)]
pub struct Stop {
    pub kind: Kind,
    pub begin: Moment,
    pub end: Option<Moment>,
}

fn kind_of_phase(phase: Phase) -> Option<Kind>
    ensures { result ≡ kind_of_phase phase }
{
    match phase {
        Phase::Paused => Some(Kind::Pause),
        Phase::Closing => Some(Kind::PauseToClose),
        Phase::Halted => Some(Kind::Halt),
        _ => None,
    }
}

/// What a message begins.
fn kind_of(message: Message) -> Option<Kind>
    ensures { result ≡ kind_of message }
{
    match message {
        Message::State { phase, .. } => kind_of_phase(phase),
        Message::Breaker { level, .. } => Some(Kind::MarketWide(level)),
        _ => None,
    }
}

/// The pause or the halt that a message begins, with those behind it as the later ones.
fn stop_of(x: &Stamped, later: &[Stamped]) -> Option<Stop>
    ensures { result ≡ stop_of x.now later.now }
{
    let kind = kind_of(x.message)?;
    Some(Stop {
        kind,
        begin: x.moment,
        end: end_of(x.message, later),
    })
}

/// Puts one behind the others, where there is one.
fn put(stops: &mut Vec<Stop>, stop: Option<Stop>) -> Result<(), NoMemory>
    ensures { OnOk result (stops.new.items ≡ stops.old.items ++ cons_option stop []) }
{
    if let Some(stop) = stop {
        stops.extend_from_slice(&[stop])?;
    }
    Ok(())
}

/// The pauses and halts that messages begin.
pub fn stops_of(alloc: Global, messages: &[Stamped]) -> Result<Vec<Stop>, NoMemory>
    ensures { IfOk result (λ stops. stops.items ≡ stops_of messages.now) }
{
    let mut stops = Vec::new(alloc);
    for at in 0..messages.len() {
        put(&mut stops, stop_of(&messages[at], &messages[at + 1..]))?;
    }
    Ok(stops)
}

fn kind_text(kind: Kind) -> &'static str
    ensures { result.now ≡ kind_text kind }
{
    match kind {
        Kind::Pause => "pause",
        Kind::PauseToClose => "pause to the close",
        Kind::Halt => "halt",
        Kind::MarketWide(Level::One) => "Level 1",
        Kind::MarketWide(Level::Two) => "Level 2",
        Kind::MarketWide(Level::Three) => "Level 3",
    }
}

/// The end, where one is told.
pub fn end_text(alloc: Global, end: Option<Moment>) -> Result<String, NoMemory>
    ensures { IfOk result (λ text. string_bytes text ≡ end_text end) }
{
    match end {
        Some(moment) => {
            let words = time(alloc, moment)?;
            Ok(format!(in alloc; " to {words}")?)
        }
        None => Ok(format!(in alloc; " on")?),
    }
}

/// A pause or a halt in words.
#[tactic(auto, unfolding(crate::specs::Stops::stop_text))]
pub fn stop_text(alloc: Global, stop: &Stop) -> Result<String, NoMemory>
    ensures { IfOk result (λ text. string_bytes text ≡ stop_text stop.now) }
{
    let kind = kind_text(stop.kind);
    let begin = time(alloc, stop.begin)?;
    let end = end_text(alloc, stop.end)?;
    Ok(format!(in alloc; "{kind} from {begin}{end}")?)
}

#[tactic(auto, unfolding(crate::specs::Stops::sentence))]
fn sentence(alloc: Global, stop: &Stop) -> Result<String, NoMemory>
    ensures { IfOk result (λ text. string_bytes text ≡ sentence stop.now) }
{
    let words = stop_text(alloc, stop)?;
    Ok(format!(in alloc; " {words}.")?)
}

/// All of them in words.
pub fn sentences(alloc: Global, stops: &[Stop]) -> Result<String, NoMemory>
    ensures { IfOk result (λ text. string_bytes text ≡ sentences stops.now) }
{
    let mut text = String::new(alloc);
    for stop in stops {
        text.push_str(sentence(alloc, stop)?.as_str())?;
    }
    Ok(text)
}
