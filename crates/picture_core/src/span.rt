//! How long what a message says stands in the picture.

ghost use Rattle.std.specs.Prelude.{◌≡◌};
ghost use Rattle.picture_core.specs.Spans.{is_run, ends_band, ends_phase, ends_straddle, ends_collar, ends_breaker, ends, end_of};

use session_core::{Moment, Phase};
use wire_out::{Message, Stamped};

/// Whether a run goes on in this phase.
fn is_run(phase: Phase) -> bool
    ensures { result ≡ is_run phase }
{
    matches!(phase, Phase::Trading | Phase::LimitLow | Phase::LimitHigh)
}

fn ends_band(later: Message) -> bool
    ensures { result ≡ ends_band later }
{
    match later {
        Message::Band { .. } => true,
        Message::State { phase, .. } => !is_run(phase),
        _ => false,
    }
}

fn ends_phase(later: Message) -> bool
    ensures { result ≡ ends_phase later }
{
    matches!(later, Message::State { .. })
}

fn ends_straddle(later: Message) -> bool
    ensures { result ≡ ends_straddle later }
{
    matches!(later, Message::Straddle { .. })
}

fn ends_collar(later: Message) -> bool
    ensures { result ≡ ends_collar later }
{
    match later {
        Message::Collar { .. } | Message::Release { .. } | Message::State { .. } => true,
        _ => false,
    }
}

fn ends_breaker(later: Message) -> bool
    ensures { result ≡ ends_breaker later }
{
    matches!(later, Message::MarketResume)
}

/// Whether a later message ends what an earlier one says.
pub fn ends(message: Message, later: Message) -> bool
    ensures { result ≡ ends message later }
{
    match message {
        Message::State { .. } => ends_phase(later),
        Message::Band { .. } => ends_band(later),
        Message::Straddle { .. } => ends_straddle(later),
        Message::Collar { .. } => ends_collar(later),
        Message::Breaker { .. } => ends_breaker(later),
        _ => false,
    }
}

/// The moment of the first later message that ends what a message says; none where none does.
pub fn end_of(message: Message, later: &[Stamped]) -> Option<Moment>
    ensures { result ≡ end_of message later.now }
{
    later
        .iter()
        .find(|x| ends(message, x.message))
        .map(|x| x.moment)
}
