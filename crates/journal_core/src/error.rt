//! Why a journal is not made, read or written.

ghost use Rattle.std.specs.Prelude.{◌≡◌};
ghost use Rattle.host_core.specs.declared.fault.Fault.TheVariants as faults;
ghost use Rattle.journal_core.specs.Formatted.{scan_status};
ghost use Rattle.journal_core.specs.declared.error.FormatError.TheVariants as formats;
ghost use Rattle.journal_core.specs.declared.error.AppendError.TheVariants as appends;
ghost use Rattle.journal_core.specs.declared.error.RollError.TheVariants as rolls;
ghost use Rattle.journal_core.specs.declared.error.ScanError.TheVariants as scans;

use host_core::{Failed, Fault, Status};
use price_core::NoMemory;
use std::alloc::AllocError;
use thiserror::Error;

/// Why no journal was made.
#[derive(Clone, Copy, Debug, PartialEq, Eq, Error)]
pub enum FormatError {
    /// The disk failed.
    #[error("the journal could not be written")]
    DiskFault,
}

/// Why a batch was not appended.
#[derive(Clone, Copy, Debug, PartialEq, Eq, Error)]
pub enum AppendError {
    /// The journal would hold more records than its capacity.
    #[error("the journal takes at most {limit} records")]
    Full { limit: u64 },

    /// The disk failed. Whether the batch is held shows at the next start.
    #[error("the journal could not be written")]
    DiskFault,
}

/// Why a base was not added.
#[derive(Clone, Copy, Debug, PartialEq, Eq, Error)]
pub enum RollError {
    /// The disk failed. Whether the base is there shows at the next start.
    #[error("the journal could not be written")]
    DiskFault,
}

/// Why a journal could not be read.
#[derive(Clone, Copy, Debug, PartialEq, Eq, Error)]
pub enum ScanError {
    /// Memory ran out.
    #[error("out of memory")]
    NoMemory,

    /// The disk failed.
    #[error("the journal could not be read")]
    DiskFault,

    /// No journal begins there.
    #[error("there is no journal")]
    NoJournal,

    /// No batch and no closed gate stands at that offset, or no gate, or a base that is none or out of place.
    #[error("the journal is damaged at {at}")]
    Damaged { at: u64 },
}

impl From<Failed> for FormatError {
    ghost from_gives = { λ _ e. e ≡ formats.DiskFault };

    fn from(_: Failed) -> FormatError {
        FormatError::DiskFault
    }
}

impl From<Failed> for AppendError {
    ghost from_gives = { λ _ e. e ≡ appends.DiskFault };

    fn from(_: Failed) -> AppendError {
        AppendError::DiskFault
    }
}

impl From<Failed> for RollError {
    ghost from_gives = { λ _ e. e ≡ rolls.DiskFault };

    fn from(_: Failed) -> RollError {
        RollError::DiskFault
    }
}

impl From<Failed> for ScanError {
    ghost from_gives = { λ _ e. e ≡ scans.DiskFault };

    fn from(_: Failed) -> ScanError {
        ScanError::DiskFault
    }
}

impl From<NoMemory> for ScanError {
    ghost from_gives = { λ _ e. e ≡ scans.NoMemory };

    fn from(_: NoMemory) -> ScanError {
        ScanError::NoMemory
    }
}

impl From<AllocError> for ScanError {
    ghost from_gives = { λ _ e. e ≡ scans.NoMemory };

    fn from(_: AllocError) -> ScanError {
        ScanError::NoMemory
    }
}

impl From<FormatError> for Fault {
    ghost from_gives = { λ _ fault. fault ≡ faults.Disk };

    fn from(_: FormatError) -> Fault {
        Fault::Disk
    }
}

// Whoever asks for room before an append gets no `Full`, so that only a fault of the disk is left.
impl From<AppendError> for Fault {
    ghost from_gives = { λ _ fault. fault ≡ faults.Disk };

    fn from(_: AppendError) -> Fault {
        Fault::Disk
    }
}

impl From<RollError> for Fault {
    ghost from_gives = { λ _ fault. fault ≡ faults.Disk };

    fn from(_: RollError) -> Fault {
        Fault::Disk
    }
}

impl From<ScanError> for Status {
    ghost from_gives = { λ error status. status ≡ scan_status error };

    fn from(error: ScanError) -> Status {
        match error {
            ScanError::NoMemory => Status::NoMemory,
            ScanError::DiskFault => Status::DiskFault,
            ScanError::NoJournal => Status::NoJournal,
            ScanError::Damaged { at } => Status::Damaged { at },
        }
    }
}
