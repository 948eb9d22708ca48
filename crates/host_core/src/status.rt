//! How a run of the program ended.

ghost use Rattle.std.specs.Prelude.{◌≡◌};
ghost use Rattle.host_core.specs.Statuses.{code_of};

/// How a run ended.
#[derive(Clone, Copy, Debug, PartialEq, Eq)]
pub enum Status {
    /// The input was read to its end, or the command ended.
    Done,
    /// The words of the command line are not understood.
    Usage,
    /// The input ends inside a frame.
    Truncated,
    /// The input could not be read.
    ReadFault,
    /// The output could not be written.
    SendFault,
    /// The journal could not be read or written.
    DiskFault,
    /// The bytes that a session may read are used up.
    SessionFull,
    /// The journal is damaged in the batch whose gate stands at that offset of the file, in bytes.
    Damaged { at: u64 },
    /// There is no journal.
    NoJournal,
    /// Memory ran out.
    NoMemory,
    /// A line or a frame of the input is not understood. Lines are counted from 1.
    BadText { line: u64 },
    /// The last record of the journal is not a day.
    NotAtDay,
    /// A frame breaks a law of what is published, the first one of this number. Frames are counted from 1.
    Breach { place: u64, law: u8 },
}

impl Status {
    /// The exit code of the program.
    pub fn code(&self) -> u8
        ensures { result ≡ code_of self.now }
    {
        match self {
            Status::Done => 0,
            Status::Usage => 2,
            Status::Truncated => 3,
            Status::ReadFault => 4,
            Status::SendFault => 5,
            Status::DiskFault => 6,
            Status::SessionFull => 7,
            Status::Damaged { .. } => 8,
            Status::NoJournal => 9,
            Status::NoMemory => 10,
            Status::BadText { .. } => 11,
            Status::NotAtDay => 12,
            Status::Breach { .. } => 13,
        }
    }
}
