//! What was done to a disk and a sink in memory.

/// A call that changed the disk or the sink, or what a stop may leave: a write of a piece at an offset, a write that
/// failed and may have torn what stood there, a sync, or a send of a piece.
#[derive(Debug, Drop)]
pub enum Effect {
    Wrote(u64, Vec<u8>),
    Tore(u64, Vec<u8>),
    Synced,
    Sent(Vec<u8>),
}

/// A read of the input, by how many bytes had been taken and how many sent when it began.
#[derive(Clone, Copy, Debug)]
pub struct Request {
    pub taken: usize,
    pub sent: usize,
}

/// What stands after a crash in each range that was written since the last sync: the old bytes, the new ones, or
/// one byte.
#[derive(Clone, Copy, Debug, PartialEq, Eq)]
pub enum Pick {
    Old,
    New,
    Bytes(u8),
}
