//! The real outside: it exposes nothing of what it holds, and counts its faults.

ghost use Rattle.std.specs.Prelude.{◌≡◌, ◌<◌, ◌≤◌, ◌^◌, ℕ, true, false, List, Some, IsTrue, length, take, drop, IfOk, OnOk, OnErr, MatchResult, IsErr};
ghost use Rattle.std.specs.Io.KnownBytes.{ReadConsumes, WriteAppends};
ghost use Rattle.host_core.specs.Outside.{written, raised};
ghost use Rattle.host_core.specs.Files.{IsTorn};
ghost use Rattle.host_core.specs.Counts.{faulted, no_faults, NoneFalls};
ghost use Rattle.host_core.specs.Opaque.{opaque, unknown};
ghost use Rattle.host_core.specs.Real.{reader_of, writer_of, disk_of, faults_of};

use crate::counts::{FaultCounts, Side};
use crate::failed::Failed;
use crate::file::Disk;
use crate::host::Host;
use crate::stream::{Sink, Source};
use std::io;

/// A reader as the input, a writer as the sink, and a disk. Each error is counted as a fault.
#[derive(Drop)]
pub struct RealHost<R, W, D> {
    input: R,
    output: W,
    disk: D,
    faults: FaultCounts,
}

impl<R: Source + Drop, W: Sink + Drop, D: Disk + Drop> RealHost<R, W, D> {
    /// A host over these, with no faults yet.
    pub fn new(input: R, output: W, disk: D) -> Self
        ensures reader { reader_of result ≡ input }
        ensures writer { writer_of result ≡ output }
        ensures disk { disk_of result ≡ disk }
        ensures faults { faults_of result ≡ no_faults }
    {
        RealHost {
            input,
            output,
            disk,
            faults: FaultCounts::new(),
        }
    }
}

// Counts a fault of a side where there is one.
fn counted<T: Drop>(
    faults: &mut FaultCounts,
    side: Side,
    outcome: io::Result<T>,
) -> Result<T, Failed>
    ensures value { MatchResult result (λ x. outcome ≡ Ok x) (λ _. IsErr outcome) }
    ensures same { OnOk result (faults.new ≡ faults.old) }
    ensures faults { OnErr result (faults.new ≡ faulted side faults.old) }
    ensures later { NoneFalls faults.old faults.new }
{
    match outcome {
        Ok(value) => Ok(value),
        Err(_) => fault(faults, side),
    }
}

// Counts a fault of a side.
fn fault<T>(faults: &mut FaultCounts, side: Side) -> Result<T, Failed>
    ensures failed { IsErr result }
    ensures faults { faults.new ≡ faulted side faults.old }
    ensures later { NoneFalls faults.old faults.new }
{
    faults.count(side);
    Err(Failed)
}

impl<R: Source + Drop, W: Sink + Drop, D: Disk + Drop> Host for RealHost<R, W, D> {
    ghost outside = { λ host. opaque (faults_of host).reading (faults_of host).sending (faults_of host).storing };

    ghost sent_now = { λ host image bytes left. absurd left };

    ghost read_passes = { λ host disk is. absurd (unknown disk is) };

    ghost stops_now = { λ host sent is. absurd (unknown sent is) };

    fn read_input(&mut self, into: &mut [u8]) -> Result<usize, Failed>
        ensures bytes { ReadConsumes (R.remaining (reader_of self.old)) (R.remaining (reader_of self.new)) result into.new }
        ensures bound { IfOk result (λ n. n ≤ length into.new) }
        ensures told { OnErr result (R.failures (reader_of self.new) ≡ raised (R.failures (reader_of self.old))) }
        ensures untold { OnOk result (R.failures (reader_of self.new) ≡ R.failures (reader_of self.old)) }
        ensures writer { writer_of self.new ≡ writer_of self.old }
        ensures disk { disk_of self.new ≡ disk_of self.old }
        ensures same { OnOk result (faults_of self.new ≡ faults_of self.old) }
        ensures faults { OnErr result (faults_of self.new ≡ faulted Side.Input (faults_of self.old)) }
        ensures later { NoneFalls (faults_of self.old) (faults_of self.new) }
    {
        counted(&mut self.faults, Side::Input, self.input.read(into))
    }

    fn send(&mut self, piece: &[u8]) -> Result<usize, Failed>
        ensures bytes { WriteAppends (W.contents (writer_of self.old)) (W.contents (writer_of self.new)) result piece.now }
        ensures bound { IfOk result (λ n. (0 < n) × (n ≤ length piece.now)) }
        ensures told { OnErr result (W.failures (writer_of self.new) ≡ raised (W.failures (writer_of self.old))) }
        ensures untold { OnOk result (W.failures (writer_of self.new) ≡ W.failures (writer_of self.old)) }
        ensures reader { reader_of self.new ≡ reader_of self.old }
        ensures disk { disk_of self.new ≡ disk_of self.old }
        ensures same { OnOk result (faults_of self.new ≡ faults_of self.old) }
        ensures faults { OnErr result (faults_of self.new ≡ faulted Side.Sink (faults_of self.old)) }
        ensures later { NoneFalls (faults_of self.old) (faults_of self.new) }
    {
        counted(&mut self.faults, Side::Sink, self.output.write(piece))
    }

    fn disk_len(&mut self) -> Result<u64, Failed>
        ensures bound { IfOk result (λ n. n < 2 ^ 63) }
        ensures len { IfOk result (λ n. (content : List ℕ) → D.bytes (disk_of self.old) ≡ Some content → n ≡ length content) }
        ensures kept { D.bytes (disk_of self.new) ≡ D.bytes (disk_of self.old) }
        ensures same_synced { D.synced (disk_of self.new) ≡ D.synced (disk_of self.old) }
        ensures same_poisoned { D.poisoned (disk_of self.new) ≡ D.poisoned (disk_of self.old) }
        ensures held { IsTrue (D.held (disk_of self.old)) → IsTrue (D.held (disk_of self.new)) }
        ensures reader { reader_of self.new ≡ reader_of self.old }
        ensures writer { writer_of self.new ≡ writer_of self.old }
        ensures same { OnOk result (faults_of self.new ≡ faults_of self.old) }
        ensures faults { OnErr result (faults_of self.new ≡ faulted Side.Disk (faults_of self.old)) }
        ensures later { NoneFalls (faults_of self.old) (faults_of self.new) }
    {
        counted(&mut self.faults, Side::Disk, self.disk.len())
    }

    fn disk_read(&mut self, at: u64, into: &mut [u8]) -> Result<(), Failed>
        ensures given { OnOk result ((content : List ℕ) → D.bytes (disk_of self.old) ≡ Some content → into.new ≡ take (length into.old) (drop at content)) }
        ensures kept { D.bytes (disk_of self.new) ≡ D.bytes (disk_of self.old) }
        ensures same_synced { D.synced (disk_of self.new) ≡ D.synced (disk_of self.old) }
        ensures same_poisoned { D.poisoned (disk_of self.new) ≡ D.poisoned (disk_of self.old) }
        ensures held { IsTrue (D.held (disk_of self.old)) → IsTrue (D.held (disk_of self.new)) }
        ensures reader { reader_of self.new ≡ reader_of self.old }
        ensures writer { writer_of self.new ≡ writer_of self.old }
        ensures same { OnOk result (faults_of self.new ≡ faults_of self.old) }
        ensures faults { OnErr result (faults_of self.new ≡ faulted Side.Disk (faults_of self.old)) }
        ensures later { NoneFalls (faults_of self.old) (faults_of self.new) }
    {
        counted(&mut self.faults, Side::Disk, self.disk.read(at, into))
    }

    fn disk_write(&mut self, at: u64, piece: &[u8]) -> Result<(), Failed>
        ensures written { OnOk result ((content : List ℕ) → D.bytes (disk_of self.old) ≡ Some content → at ≤ length content
            → D.bytes (disk_of self.new) ≡ Some (written at piece.now content)) }
        ensures torn { OnErr result ((content : List ℕ) → D.bytes (disk_of self.old) ≡ Some content → at ≤ length content
            → IsTorn at (length piece.now) content (D.bytes (disk_of self.new))) }
        ensures same_synced { D.synced (disk_of self.new) ≡ D.synced (disk_of self.old) }
        ensures same_poisoned { D.poisoned (disk_of self.new) ≡ D.poisoned (disk_of self.old) }
        ensures held { IsTrue (D.held (disk_of self.old)) → IsTrue (D.held (disk_of self.new)) }
        ensures reader { reader_of self.new ≡ reader_of self.old }
        ensures writer { writer_of self.new ≡ writer_of self.old }
        ensures same { OnOk result (faults_of self.new ≡ faults_of self.old) }
        ensures faults { OnErr result (faults_of self.new ≡ faulted Side.Disk (faults_of self.old)) }
        ensures later { NoneFalls (faults_of self.old) (faults_of self.new) }
    {
        counted(&mut self.faults, Side::Disk, self.disk.write(at, piece))
    }

    fn disk_sync(&mut self) -> Result<(), Failed>
        ensures kept { D.bytes (disk_of self.new) ≡ D.bytes (disk_of self.old) }
        ensures synced { OnOk result (D.synced (disk_of self.new) ≡ D.bytes (disk_of self.old)) }
        ensures unsynced { OnErr result (D.synced (disk_of self.new) ≡ D.synced (disk_of self.old)) }
        ensures sound { OnOk result (D.poisoned (disk_of self.old) ≡ false) }
        ensures still_sound { OnOk result (D.poisoned (disk_of self.new) ≡ false) }
        ensures poisoned { OnErr result (D.poisoned (disk_of self.new) ≡ true) }
        ensures held { IsTrue (D.held (disk_of self.old)) → IsTrue (D.held (disk_of self.new)) }
        ensures reader { reader_of self.new ≡ reader_of self.old }
        ensures writer { writer_of self.new ≡ writer_of self.old }
        ensures same { OnOk result (faults_of self.new ≡ faults_of self.old) }
        ensures faults { OnErr result (faults_of self.new ≡ faulted Side.Disk (faults_of self.old)) }
        ensures later { NoneFalls (faults_of self.old) (faults_of self.new) }
    {
        counted(&mut self.faults, Side::Disk, self.disk.sync())
    }
}
