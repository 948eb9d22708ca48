//! The rules of the close, of halts and of trading pauses (NYSE Rule 7.12; LULD Plan, Section VII; after Nasdaq Rule 4120).

ghost use Rattle.std.specs.Prelude.{◌≡◌, [], ◌∷◌, ◌<◌, IfOk, IfSome, option_to_list};
ghost use Rattle.std.specs.Option.{option_map_or};
ghost use Rattle.session_core.specs.Times.{is_closed, in_last_10_minutes};
ghost use Rattle.pause_core.specs.Pauses as pausing;
ghost use Rattle.rulebook.specs.Auction.{last_round};
ghost use Rattle.rulebook.specs.Symbol.{last_band, was_straddling};
ghost use Rattle.rulebook.specs.Rules.{brakes, session_close, market_halt, start, regulatory_halt, asks_to_pause, has_expired, collar, first_round, pause_as, pause, reopened, reopen_with, reopen_after, reopen, phase_now};
ghost use Rattle.afresh_core.specs.Contexts.{context_of};
ghost use Rattle.afresh_core.specs.Rounds.{AreTimely};

use crate::context::{Context, at_most_one, becomes, followed, phase_now, state};
use history_core::{
    indication, is_market_halted, is_paused, is_under_regulatory_halt, last_band, last_round,
    origin, origin_of, since, was_straddling,
};
use limit_core::has_lasted;
use pause_core::Brakes;
use price_core::{Collars, NoMemory};
use reopen_core::{Round, Trial, auction_reference, first_collars, try_round};
use rulebook::Banded;
use session_core::{Day, Moment, Phase, close_moment, in_session, last_10};
use std::alloc::Global;
use wire_in::{NoticeKind, Record};
use wire_out::Message;

/// Whether the day's session is over.
fn is_closed(t: Moment, day: &Day) -> bool
    ensures { result ≡ is_closed t day.now }
{
    close_moment(day) <= t
}

/// What brakes the symbol.
fn brakes(c: &Context) -> Brakes
    ensures { result ≡ brakes (context_of c.now) }
{
    Brakes {
        closed: is_closed(c.moment, &c.day),
        in_session: in_session(c.moment, &c.day),
        stopped: is_market_halted(c.history),
        halted: is_under_regulatory_halt(c.history, c.symbol),
    }
}

/// The close.
pub fn session_close(c: &Context) -> Option<Message>
    ensures { option_to_list result ≡ session_close (context_of c.now) }
{
    becomes(c, pause_core::session_close(phase_now(c), &brakes(c)))
}

/// A market-wide halt.
pub fn market_halt(c: &Context) -> Option<Message>
    ensures { option_to_list result ≡ market_halt (context_of c.now) }
{
    becomes(c, pause_core::market_halt(phase_now(c), &brakes(c)))
}

/// The start of trading.
pub fn start(c: &Context) -> Option<Message>
    ensures { option_to_list result ≡ start (context_of c.now) }
{
    becomes(c, pause_core::start(phase_now(c), &brakes(c)))
}

/// A regulatory halt, and its end.
pub fn regulatory_halt(c: &Context) -> Option<Message>
    ensures { option_to_list result ≡ regulatory_halt (context_of c.now) }
{
    becomes(c, pause_core::regulatory_halt(phase_now(c), &brakes(c)))
}

/// Whether the primary listing exchange asks for a pause of a symbol.
fn asks_to_pause(symbol: u16, x: &Record) -> bool
    ensures { result ≡ asks_to_pause symbol x.now }
{
    match *x {
        Record::Notice {
            symbol: of,
            kind: NoticeKind::PauseNow,
            ..
        } => of == symbol,
        _ => false,
    }
}

/// Whether the symbol's phase has lasted for 15 seconds.
fn has_expired(c: &Context) -> bool
    ensures { result ≡ has_expired (context_of c.now) }
{
    has_lasted(since(c.history, c.symbol), c.moment)
}

/// The message of a round.
fn collar(symbol: u16, round: u16, collars: &Collars) -> Message
    ensures { result ∷ [] ≡ collar symbol round collars.now }
{
    Message::Collar {
        symbol,
        round,
        lower: collars.lower,
        upper: collars.upper,
    }
}

/// The first round of the auction of a pause, with the run's last price bands.
fn first_round_of(c: &Context, b: &Banded) -> Message
    ensures { result ∷ [] ≡ first_round (context_of c.now) b.now }
{
    let origin = origin_of(phase_now(c));
    let collars = first_collars(origin, &b.bands, b.reference);
    collar(c.symbol, 0, &collars)
}

/// The first round of the auction of a pause, where the run has price bands.
fn first_round(alloc: Global, c: &Context) -> Result<Option<Message>, NoMemory>
    ensures { IfOk result (λ round. option_to_list round ≡ option_map_or (first_round (context_of c.now)) (last_band c.now.history.now c.now.symbol) []) }
{
    match last_band(alloc, c.history, c.symbol)? {
        Some(banded) => Ok(Some(first_round_of(c, &banded))),
        None => Ok(None),
    }
}

/// A pause that brings that phase.
fn pause_as(alloc: Global, c: &Context, phase: Phase) -> Result<Vec<Message>, NoMemory>
    ensures { IfOk result (λ given. given.items ≡ pause_as (context_of c.now) phase) }
{
    if is_paused(phase) {
        let round = first_round(alloc, c)?;
        followed(alloc, state(c, phase), round)
    } else {
        followed(alloc, state(c, phase), None)
    }
}

/// The phase of a trading pause, where there is one.
fn pause_phase(c: &Context) -> Option<Phase>
    ensures { result ≡ pausing.pause (has_expired (context_of c.now)) (asks_to_pause c.now.symbol c.now.newest) (was_straddling c.now.history.now c.now.symbol) (phase_now (context_of c.now)) (in_last_10_minutes c.now.moment c.now.day) }
{
    pause_core::pause(
        has_expired(c),
        asks_to_pause(c.symbol, &c.newest),
        was_straddling(c.history, c.symbol),
        phase_now(c),
        last_10(c.moment, &c.day),
    )
}

/// A trading pause.
pub fn pause(alloc: Global, c: &Context) -> Result<Vec<Message>, NoMemory>
    ensures { IfOk result (λ given. given.items ≡ pause (context_of c.now)) }
{
    match pause_phase(c) {
        Some(phase) => pause_as(alloc, c, phase),
        None => Ok(Vec::new(alloc)),
    }
}

/// What a trial of the reopening auction gives after that round.
fn reopened(alloc: Global, c: &Context, round: u16, trial: &Trial) -> Result<Vec<Message>, NoMemory>
    requires { round < 288 }
    ensures { IfOk result (λ given. given.items ≡ reopened (context_of c.now) round trial.now) }
{
    match *trial {
        Trial::NotDue => Ok(Vec::new(alloc)),
        Trial::Extend(collars) => at_most_one(alloc, Some(collar(c.symbol, round + 1, &collars))),
        Trial::Release(price) => {
            let release = Message::Release {
                symbol: c.symbol,
                price,
            };
            followed(alloc, release, Some(state(c, Phase::Trading)))
        }
        Trial::Closing => at_most_one(alloc, Some(state(c, Phase::Closing))),
    }
}

/// A trial after a round, with the run's last price bands.
fn reopen_with(
    alloc: Global,
    c: &Context,
    round: &Round,
    b: &Banded,
) -> Result<Vec<Message>, NoMemory>
    requires { round.now.number < 288 }
    ensures { IfOk result (λ given. given.items ≡ reopen_with (context_of c.now) round.now b.now) }
{
    let reference = auction_reference(origin(c.history, c.symbol), &b.bands, b.reference);
    let indication = indication(c.history, c.symbol);
    let last_10 = last_10(c.moment, &c.day);
    let trial = try_round(c.moment, last_10, round, reference, &indication);
    reopened(alloc, c, round.number, &trial)
}

/// A trial after a round.
fn reopen_after(alloc: Global, c: &Context, round: &Round) -> Result<Vec<Message>, NoMemory>
    requires { round.now.number < 288 }
    ensures { IfOk result (λ given. given.items ≡ reopen_after (context_of c.now) round.now) }
{
    match last_band(alloc, c.history, c.symbol)? {
        Some(banded) => reopen_with(alloc, c, round, &banded),
        None => Ok(Vec::new(alloc)),
    }
}

/// A round that is at its time: each round before it took five minutes.
fn timely_round(c: &Context) -> Option<Round>
    requires { AreTimely c.now.history.now }
    ensures value { result ≡ last_round c.now.history.now c.now.symbol }
    ensures few { IfSome result (λ round. round.number < 288) }
{
    let round = last_round(c.history, c.symbol)?;
    // This reads that the moment is in its range.
    let _moment = round.moment.nanos();
    Some(round)
}

/// A trial of the reopening auction.
pub fn reopen(alloc: Global, c: &Context) -> Result<Vec<Message>, NoMemory>
    requires { AreTimely c.now.history.now }
    ensures { IfOk result (λ given. given.items ≡ reopen (context_of c.now)) }
{
    if !is_paused(phase_now(c)) {
        return Ok(Vec::new(alloc));
    }
    match timely_round(c) {
        Some(round) => reopen_after(alloc, c, &round),
        None => Ok(Vec::new(alloc)),
    }
}
