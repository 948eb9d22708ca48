//! Laws of published frames.

ghost use Rattle.wire_out.specs.Laws.{FramesFit, FramesDiffer};

/// A frame has from 10 to 45 bytes.
pub fn frames_fit()
    ensures { FramesFit }
{}

/// No frame is the beginning of another, so a stream of frames is read in one way.
pub fn frames_differ()
    ensures { FramesDiffer }
{}
