//! A text that is sent whole, however the sink takes it.

ghost use Rattle.std.specs.Prelude.{◌≡◌};
ghost use Rattle.host_core.specs.declared.status.Status.TheVariants.{SendFault};
ghost use Rattle.picture_core.specs.declared.outcome.Outcome.TheVariants.{Ended};
ghost use Rattle.host_core.specs.Outside.{raised};
ghost use Rattle.picture_core.specs.Runs.{IsSent};

use crate::outcome::Outcome;
use host_core::{Sink, Status, write_all};

/// Sends all of a text, and answers how that ended.
pub fn send<W: Sink>(sink: &mut W, text: &str) -> Outcome
    ensures sent { IsSent text.now result (W.contents sink.old) (W.contents sink.new) }
    ensures failed { result ≡ Ended SendFault → W.failures sink.new ≡ raised (W.failures sink.old) }
{
    match write_all(sink, text.as_bytes()) {
        Ok(()) => Outcome::Ended(Status::Done),
        Err(_) => Outcome::Ended(Status::SendFault),
    }
}
