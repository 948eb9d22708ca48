//! What the phases of a stock have in common.

ghost use Rattle.std.specs.Prelude.{◌≡◌};
ghost use Rattle.pause_core.specs.Phases.{can_start, can_market_halt, is_done, is_in_regulatory_halt, is_limit, is_trading};

use session_core::Phase;

/// Whether the stock's day is over.
pub fn is_done(phase: Phase) -> bool
    ensures { result ≡ is_done phase }
{
    phase == Phase::Closed
}

/// Whether it trades, and is not in a limit state.
pub fn is_trading(phase: Phase) -> bool
    ensures { result ≡ is_trading phase }
{
    phase == Phase::Trading
}

/// Whether it is in a limit state (LULD Plan, Section VI).
pub fn is_limit(phase: Phase) -> bool
    ensures { result ≡ is_limit phase }
{
    matches!(phase, Phase::LimitLow | Phase::LimitHigh)
}

/// Whether it is in a regulatory halt.
pub fn is_in_regulatory_halt(phase: Phase) -> bool
    ensures { result ≡ is_in_regulatory_halt phase }
{
    phase == Phase::Halted
}

/// Whether a market-wide halt can halt it (NYSE Rule 7.12).
pub fn can_market_halt(phase: Phase) -> bool
    ensures { result ≡ can_market_halt phase }
{
    !matches!(phase, Phase::Halted | Phase::Stopped | Phase::Closed)
}

/// Whether trading can start from it.
pub fn can_start(phase: Phase) -> bool
    ensures { result ≡ can_start phase }
{
    matches!(phase, Phase::Shut | Phase::Stopped)
}
