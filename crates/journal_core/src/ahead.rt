//! A disk is read in large pieces.

ghost use Rattle.std.specs.Prelude.{◌≡◌, ◌≢◌, ◌⊎◌, ◌≤◌, ◌<◌, ◌+◌, ◌^◌, [], ℕ, List, length, min, take, drop, Some, Err, IfOk, OnOk, OnErr};
ghost use Rattle.host_core.specs.Outside.{Outside, Rose};
ghost use Rattle.host_core.specs.Frames.{OnlyReadsDisk};

use crate::error::ScanError;
use host_core::{Failed, Host};
use price_core::NoMemory;
use std::alloc::Global;
use std::marker::Model;

/// The most bytes of one read: 64 KiB, some thirty of the greatest batches. What is passed over stays in a near cache then.
pub const PIECE_MAX: usize = 65_536;

/// Bytes that were read ahead, in a buffer whose room is taken when it is made.
#[derive(Debug, Drop)]
pub struct Ahead {
    buffer: Vec<u8>,
    start: usize,
    end: usize,
}

impl Model for Ahead {
    ghost use Rattle.std.specs.Prelude.{ℕ, List};
    ghost use Rattle.std.specs.List.{between};
    ghost use Rattle.journal_core.specs.Ahead.{IsWithin};

    ghost Value = { List ℕ };

    ghost view = { λ a. between a.start a.end a.buffer.items };

    ghost invariant = { λ a. IsWithin a.start a.end a.buffer.items };
}

impl Ahead {
    /// Nothing was read yet.
    pub fn new(alloc: Global) -> Result<Ahead, NoMemory>
        ensures { IfOk result (λ ahead. ahead ≡ []) }
    {
        Ok(Ahead {
            buffer: Vec::from_elem(alloc, 0, PIECE_MAX)?,
            start: 0,
            end: 0,
        })
    }

    /// The bytes.
    pub fn bytes(&self) -> &[u8]
        ensures { result.now ≡ self.now }
    {
        &self.buffer[self.start..self.end]
    }

    /// Removes the first bytes.
    pub fn skip(&mut self, count: usize)
        requires { count ≤ length self.old }
        ensures { self.new ≡ drop count self.old }
    {
        self.start += count;
    }

    /// Removes what it holds, and reads from an offset of the disk on: as many bytes as are left there, or as the buffer
    /// takes. After a fault it holds nothing.
    pub fn read<H: Host>(&mut self, host: &mut H, at: u64, left: u64) -> Result<(), Failed>
        requires within { (disk : List ℕ) → (H.outside host.old).disk ≡ Some disk → at + left ≤ length disk }
        requires fits { at + left < 2 ^ 63 }
        ensures len { OnOk result (length self.new ≡ min left PIECE_MAX) }
        ensures bytes { OnOk result ((disk : List ℕ) → (H.outside host.old).disk ≡ Some disk → self.new ≡ take (min left PIECE_MAX) (drop at disk)) }
        ensures none { OnErr result (self.new ≡ []) }
        ensures keeps { OnlyReadsDisk (H.outside host.old) (H.outside host.new) }
        ensures cause { OnErr result (Rose (H.outside host.old).disk_faults (H.outside host.new).disk_faults) }
        ensures faultless { OnOk result ((H.outside host.new).disk_faults ≡ (H.outside host.old).disk_faults) }
    {
        self.start = 0;
        self.end = 0;
        let most = left.min(PIECE_MAX as u64) as usize;
        read_prefix(host, at, &mut self.buffer, most)?;
        self.end = most;
        Ok(())
    }
}

/// Reads so many bytes from an offset of the disk on into the prefix of a buffer.
fn read_prefix<H: Host>(
    host: &mut H,
    at: u64,
    buffer: &mut [u8],
    count: usize,
) -> Result<(), Failed>
    requires room { count ≤ length buffer.old }
    requires within { (disk : List ℕ) → (H.outside host.old).disk ≡ Some disk → at + count ≤ length disk }
    requires fits { at + count < 2 ^ 63 }
    ensures bytes { OnOk result ((disk : List ℕ) → (H.outside host.old).disk ≡ Some disk → take count buffer.new ≡ take count (drop at disk)) }
    ensures keeps { OnlyReadsDisk (H.outside host.old) (H.outside host.new) }
    ensures cause { OnErr result (Rose (H.outside host.old).disk_faults (H.outside host.new).disk_faults) }
    ensures faultless { OnOk result ((H.outside host.new).disk_faults ≡ (H.outside host.old).disk_faults) }
{
    host.disk_read(at, &mut buffer[..count])
}

/// So many bytes of the disk from an offset on, in a list of their own.
pub fn read_apart<H: Host>(
    alloc: Global,
    host: &mut H,
    at: u64,
    count: usize,
) -> Result<Vec<u8>, ScanError>
    requires within { (disk : List ℕ) → (H.outside host.old).disk ≡ Some disk → at + count ≤ length disk }
    requires fits { at + count < 2 ^ 63 }
    ensures bytes { (disk : List ℕ) → (H.outside host.old).disk ≡ Some disk → IfOk result (λ bytes. bytes.items ≡ take count (drop at disk)) }
    ensures only { (error : _) → result ≡ Err error → (error ≡ ScanError.NoMemory) ⊎ (error ≡ ScanError.DiskFault) }
    ensures keeps { OnlyReadsDisk (H.outside host.old) (H.outside host.new) }
    ensures cause { result ≡ Err ScanError.DiskFault → Rose (H.outside host.old).disk_faults (H.outside host.new).disk_faults }
    ensures faultless { result ≢ Err ScanError.DiskFault → (H.outside host.new).disk_faults ≡ (H.outside host.old).disk_faults }
{
    let mut bytes = Vec::from_elem(alloc, 0, count)?;
    host.disk_read(at, &mut bytes)?;
    Ok(bytes)
}
