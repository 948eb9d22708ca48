//! A law of lines.

ghost use Rattle.text_core.specs.Laws.{FrameLinesDiffer, RecordLinesDiffer};

/// No line prints two records, nor two published frames.
pub fn lines_differ()
    ensures records { RecordLinesDiffer }
    ensures frames { FrameLinesDiffer }
{}
