//! Laws of streams of frames, of the kinds of records, and of bases.

ghost use Rattle.wire_in.specs.Bases.{BaseIsAlone};
ghost use Rattle.wire_in.specs.Laws.{CutContinues, CutIsUnique, FramesDiffer, KindIsUnique, RecordsDiffer};

/// Cutting goes on where it left off, so the frames of a stream do not depend on its pieces.
pub fn cutting_goes_on()
    ensures { CutContinues }
{}

/// There is one way to cut a stream into frames and less than a whole one.
pub fn there_is_one_cut()
    ensures { CutIsUnique }
{}

/// No frame is the beginning of another, and frames of different records differ.
pub fn frames_differ()
    ensures frames { FramesDiffer }
    ensures records { RecordsDiffer }
{}

/// A record is of one kind: it begins a day, lists a name, is a clock or an index tick, or names a symbol by its id, and
/// does no other of these.
pub fn there_is_one_kind()
    ensures { KindIsUnique }
{}

/// A body spells one base at most.
pub fn a_base_is_alone()
    ensures { BaseIsAlone }
{}
