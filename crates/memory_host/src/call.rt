//! The calls of a host in memory, and their counts.

ghost use Rattle.std.specs.Prelude.{◌≡◌, ◌<◌};
ghost use Rattle.host_core.specs.Outside.{raised};

use host_core::{Side, raise};

/// A kind of call of a `Host`: a read of the input, a send, the length of the disk, a read of the disk, a write,
/// or a sync.
#[derive(Clone, Copy, Debug, PartialEq, Eq)]
pub enum Call {
    Read,
    Send,
    Len,
    DiskRead,
    Write,
    Sync,
}

/// A call by its kind and its number among those of its kind, from 1.
#[derive(Clone, Copy, Debug, PartialEq, Eq)]
pub struct Numbered {
    pub call: Call,
    pub number: u64,
}

/// The most bytes of one read and of one send.
#[derive(Clone, Copy, Debug)]
pub struct Pieces {
    pub read: usize,
    pub send: usize,
    ghost reads: { 0 < read },
    ghost sends: { 0 < send },
}

/// How many calls of each kind were made, and how many in all, each up to the greatest of 64 bits.
#[derive(Clone, Copy, Debug, PartialEq, Eq)]
pub struct Calls {
    pub read: u64,
    pub send: u64,
    pub len: u64,
    pub disk_read: u64,
    pub write: u64,
    pub sync: u64,
    pub all: u64,
}

impl Call {
    ghost use Rattle.memory_host.specs.Calls.{side_of};

    // What it reaches.
    pub fn side(&self) -> Side
        ensures { result ≡ side_of self.now }
    {
        match self {
            Call::Read => Side::Input,
            Call::Send => Side::Sink,
            Call::Len | Call::DiskRead | Call::Write | Call::Sync => Side::Disk,
        }
    }
}

impl Calls {
    ghost use Rattle.memory_host.specs.Calls.{no_calls, counted, count_of};

    // No call was made.
    pub fn new() -> Calls
        ensures { result ≡ no_calls }
    {
        Calls {
            read: 0,
            send: 0,
            len: 0,
            disk_read: 0,
            write: 0,
            sync: 0,
            all: 0,
        }
    }

    // Counts a call, and answers its number among those of its kind.
    pub fn count(&mut self, call: Call) -> u64
        ensures calls { self.new ≡ counted call self.old }
        ensures number { result ≡ raised (count_of call self.old) }
    {
        raise(&mut self.all);
        match call {
            Call::Read => raise(&mut self.read),
            Call::Send => raise(&mut self.send),
            Call::Len => raise(&mut self.len),
            Call::DiskRead => raise(&mut self.disk_read),
            Call::Write => raise(&mut self.write),
            Call::Sync => raise(&mut self.sync),
        }
    }
}
