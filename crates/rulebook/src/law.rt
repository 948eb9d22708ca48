//! The law of bases.

ghost use Rattle.rulebook.specs.Base.{BaseHasRanges, BaseIsEnough, BaseIsRead, BaseStandsFor, StepAfterIsShort, StepIsShort};

/// After two lists with one base, a record has the same verdict and gives the same messages, whatever records came between.
pub fn a_base_is_enough()
    ensures { BaseIsEnough }
{}

/// The verdict and the messages of a record after a base alone are those after each list with that base.
pub fn a_base_stands_for()
    ensures { BaseStandsFor }
{}

/// After a base in its ranges the names are those of the base and then the new ones, the records of the day begin with its
/// day, and just its ids are carried until a further day.
pub fn a_base_is_read()
    ensures { BaseIsRead }
{}

/// A record gives at most 262,146 messages, after a list and after a base; so the base of a lawful list is in its ranges.
pub fn a_base_has_ranges()
    ensures step { StepIsShort }
    ensures step_after { StepAfterIsShort }
    ensures ranges { BaseHasRanges }
{}
