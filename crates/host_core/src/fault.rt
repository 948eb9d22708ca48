//! Why a call or a run ended before its end.

ghost use Rattle.std.specs.Prelude.{◌≡◌};
ghost use Rattle.host_core.specs.Faults.{status_of};
ghost use Rattle.host_core.specs.declared.fault.Fault.TheVariants as faults;

use crate::status::Status;
use price_core::NoMemory;
use std::alloc::AllocError;

/// Why a run ends early: the input, the output or the disk failed, or memory ran out.
#[derive(Clone, Copy, Debug, PartialEq, Eq)]
pub enum Fault {
    Read,
    Send,
    Disk,
    Memory,
}

impl From<NoMemory> for Fault {
    ghost from_gives = { λ _ fault. fault ≡ faults.Memory };

    fn from(_: NoMemory) -> Fault {
        Fault::Memory
    }
}

impl From<AllocError> for Fault {
    ghost from_gives = { λ _ fault. fault ≡ faults.Memory };

    fn from(_: AllocError) -> Fault {
        Fault::Memory
    }
}

impl From<Fault> for Status {
    ghost from_gives = { λ fault status. status ≡ status_of fault };

    fn from(fault: Fault) -> Status {
        match fault {
            Fault::Read => Status::ReadFault,
            Fault::Send => Status::SendFault,
            Fault::Disk => Status::DiskFault,
            Fault::Memory => Status::NoMemory,
        }
    }
}
