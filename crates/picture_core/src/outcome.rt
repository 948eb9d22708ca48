//! How a run of the program ended.

ghost use Rattle.std.specs.Prelude.{◌≡◌};
ghost use Rattle.picture_core.specs.Outcomes.{exit_code};

use host_core::Status;

/// How a run ended.
#[derive(Clone, Copy, Debug, PartialEq, Eq)]
pub enum Outcome {
    /// As a command of `halts` may end.
    Ended(Status),
    /// The input has no such day.
    NoDay,
    /// The day's lines tell nothing of that symbol.
    NoSymbol,
}

impl Outcome {
    /// The exit code of the program.
    pub fn code(&self) -> u8
        ensures { result ≡ exit_code self.now }
    {
        match self {
            Outcome::Ended(status) => status.code(),
            Outcome::NoDay => 12,
            Outcome::NoSymbol => 13,
        }
    }
}
