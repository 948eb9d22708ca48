//! The status of a run by what it answered.

ghost use Rattle.std.specs.Prelude.{◌≡◌};
ghost use Rattle.stream_core.specs.Ends.{answer_of};

use host_core::{Fault, Status};

/// The status of a run that answered its input so: that of its end, or of the fault that ended it.
pub fn answer_of(answered: Result<Status, Fault>) -> Status
    ensures { result ≡ answer_of answered }
{
    match answered {
        Ok(status) => status,
        Err(fault) => fault.into(),
    }
}
