//! The law of single symbols, and that of ranges.

ghost use Rattle.market_core.specs.Isolation.{EachStepIsIsolated, IsIsolated, DependsOnItsView};
ghost use Rattle.market_core.specs.Ranges.{OneOfARangeIsOneOfAll, RangesInTurnAreAll};

/// What one symbol publishes among all others it publishes alone, step by step: it depends on its own records and the
/// market-wide ones, and on nothing else.
pub fn a_symbol_is_isolated()
    ensures steps { EachStepIsIsolated }
    ensures whole { IsIsolated }
    ensures view { DependsOnItsView }
{}

/// Sections in order of their ranges append what one section over all of them appends.
pub fn sections_are_one()
    ensures all { RangesInTurnAreAll }
    ensures one { OneOfARangeIsOneOfAll }
{}
