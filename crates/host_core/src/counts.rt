//! Counts of what failed.

ghost use Rattle.std.specs.Prelude.{◌≡◌, ◌≤◌};
ghost use Rattle.host_core.specs.Outside.{raised};
ghost use Rattle.host_core.specs.Counts.{no_faults, faulted, NoneFalls};

/// What a call of a host reaches: its input, its sink or its disk.
#[derive(Clone, Copy, Debug, PartialEq, Eq)]
pub enum Side {
    Input,
    Sink,
    Disk,
}

/// How many calls failed, of reading, of sending and of the disk, each count up to the greatest of 64 bits.
#[derive(Clone, Copy, Debug, PartialEq, Eq)]
pub struct FaultCounts {
    pub reading: u64,
    pub sending: u64,
    pub storing: u64,
}

impl FaultCounts {
    /// Nothing has failed.
    pub fn new() -> FaultCounts
        ensures { result ≡ no_faults }
    {
        FaultCounts {
            reading: 0,
            sending: 0,
            storing: 0,
        }
    }

    /// Counts a call that failed.
    pub fn count(&mut self, side: Side)
        ensures faults { self.new ≡ faulted side self.old }
        ensures later { NoneFalls self.old self.new }
    {
        match side {
            Side::Input => raise(&mut self.reading),
            Side::Sink => raise(&mut self.sending),
            Side::Disk => raise(&mut self.storing),
        };
    }
}

/// Adds one to a count, up to the greatest of 64 bits, and answers it.
pub fn raise(count: &mut u64) -> u64
    ensures new { count.new ≡ raised count.old }
    ensures value { result ≡ raised count.old }
    ensures later { count.old ≤ count.new }
{
    *count = count.saturating_add(1);
    *count
}
