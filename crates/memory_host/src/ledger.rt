//! What a host in memory was asked, and what it counts.

ghost use Rattle.std.specs.Prelude.{◌≡◌, ◌<◌, ◌↔◌, ◌^◌, ◌-◌, [], None, IsTrue, IsErr};
ghost use Rattle.host_core.specs.Outside.{raised};
ghost use Rattle.host_core.specs.Counts.{faulted, NoneFalls};
ghost use Rattle.memory_host.specs.Calls.{counted, count_of, side_of};

use crate::call::{Call, Calls, Numbered, Pieces};
use host_core::{Failed, FaultCounts, raise};
use std::alloc::Global;

/// How the reads and sends of a host in memory are cut, which of its calls are to fail, the call from which all fail,
/// the calls that were made, the faults, and how many calls found no memory.
#[derive(Debug, Drop)]
pub struct Ledger {
    pub pieces: Pieces,
    pub failures: Vec<Numbered>,
    pub fails_from: Option<u64>,
    pub calls: Calls,
    pub faults: FaultCounts,
    pub starved: u64,
}

impl Ledger {
    ghost use Rattle.memory_host.specs.Ledgers.{IsNamed, IsFresh};

    // Nothing was asked, and no call was made.
    pub fn new(alloc: Global) -> Ledger
        ensures { IsFresh result }
    {
        Ledger {
            pieces: Pieces {
                read: usize::MAX,
                send: usize::MAX,
            },
            failures: Vec::new(alloc),
            fails_from: None,
            calls: Calls::new(),
            faults: FaultCounts::new(),
            starved: 0,
        }
    }

    // Counts a call, and says whether it is to fail.
    pub fn begin(&mut self, call: Call) -> bool
        ensures named { IsTrue result ↔ IsNamed call self.old }
        ensures counted { self.new ≡ record self.old { calls = counted call self.old.calls } }
        ensures faults { self.new.faults ≡ self.old.faults }
    {
        let number = self.calls.count(call);
        let all = self.calls.all;
        self.failures.contains(&Numbered { call, number })
            || self.fails_from.is_some_and(|nth| nth <= all)
    }

    // Counts the fault of a call that was to fail.
    pub fn fail<T>(&mut self, call: Call) -> Result<T, Failed>
        ensures counted { self.new ≡ record self.old { faults = faulted (side_of call) self.old.faults } }
        ensures later { NoneFalls self.old.faults self.new.faults }
        ensures faults { self.new.faults ≡ faulted (side_of call) self.old.faults }
        ensures failed { IsErr result }
    {
        self.faults.count(call.side());
        Err(Failed)
    }

    // Counts a call that found no memory, and its fault.
    pub fn starve<T>(&mut self, call: Call) -> Result<T, Failed>
        ensures counted { self.new ≡ record self.old { faults = faulted (side_of call) self.old.faults; starved = raised self.old.starved } }
        ensures later { NoneFalls self.old.faults self.new.faults }
        ensures faults { self.new.faults ≡ faulted (side_of call) self.old.faults }
        ensures failed { IsErr result }
    {
        raise(&mut self.starved);
        self.fail(call)
    }
}
