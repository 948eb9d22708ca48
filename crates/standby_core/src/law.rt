//! Laws of Parts and Haves, and of what a standby keeps.

ghost use Rattle.standby_core.specs.Agreement.{PartsAreKept};
ghost use Rattle.standby_core.specs.Kept.{KeptIsLawful, KeptIsPart};
ghost use Rattle.standby_core.specs.Parts.{HaveIsAlone, PartIsAlone};
ghost use Rattle.standby_core.specs.Takeover.{TakesOver};

/// A body spells one Part at most.
pub fn one_part()
    ensures { PartIsAlone }
{}

/// A body spells one Have at most.
pub fn one_have()
    ensures { HaveIsAlone }
{}

/// What is kept of some frames behind a lawful list is lawful. Where each Part among them carries a record of one list, with
/// the number that it has there, what is kept is the begin of that list; and it is all of the list where they are its Parts, from
/// the next one at the latest.
pub fn one_list_is_kept()
    ensures lawful { KeptIsLawful }
    ensures part { KeptIsPart }
    ensures whole { PartsAreKept }
{}

/// Where a standby began with the first records of a list, and each Part that it takes carries a record of that list with the number
/// that it has there, the journal that a stop leaves holds the first records of the list, lawful, and among them each one that a
/// Have that was sent counts.
pub fn a_standby_takes_over()
    ensures { TakesOver }
{}
