//! The calls that reach outside, and what each does to what a host exposes.

ghost use Rattle.std.specs.Prelude.{◌≡◌, ◌<◌, ◌≤◌, ◌+◌, ◌^◌, ℕ, List, length, Some};
ghost use Rattle.host_core.specs.Outside.{Outside, Agrees, MayLeave};
ghost use Rattle.host_core.specs.HostCalls.{ReadsInput, SendsPiece, MeasuresDisk, ReadsDisk, WritesDisk, SyncsDisk};

use crate::failed::Failed;

/// An input, a sink and a disk. A call answers `Failed` exactly where its own count of faults rose or stands at its end:
/// that of reading, of sending or of the disk.
pub trait Host {
    /// What it exposes of the outside now.
    ghost outside: { Self → Outside };

    /// Takes a prefix of the input, and answers how many bytes: 0 only where none is left.
    fn read_input(&mut self, into: &mut [u8]) -> Result<usize, Failed>
        requires { 0 < length into.old }
        ensures reads { ReadsInput result into.new (outside self.old) (outside self.new) };

    /// Sends a prefix of the piece, and answers how many bytes. A call that failed may have sent some too.
    fn send(&mut self, piece: &[u8]) -> Result<usize, Failed>
        requires { 0 < length piece.now }
        ensures sends { SendsPiece result piece.now (outside self.old) (outside self.new) };

    /// The length of what a read of the disk gives, in bytes.
    fn disk_len(&mut self) -> Result<u64, Failed>
        ensures measures { MeasuresDisk result (outside self.old) (outside self.new) };

    /// Reads the bytes of the disk from an offset on.
    fn disk_read(&mut self, at: u64, into: &mut [u8]) -> Result<(), Failed>
        requires within { (disk : List ℕ) → (outside self.old).disk ≡ Some disk → at + length into.old ≤ length disk }
        requires fits { at + length into.old < 2 ^ 64 }
        ensures reads { ReadsDisk result at (length into.old) into.new (outside self.old) (outside self.new) };

    /// Writes over what is there, and past the end. Until a sync, a stop may leave any bytes in the range, also
    /// after a write that failed.
    fn disk_write(&mut self, at: u64, piece: &[u8]) -> Result<(), Failed>
        requires within { (disk : List ℕ) → (outside self.old).disk ≡ Some disk → at ≤ length disk }
        requires fits { at + length piece.now < 2 ^ 64 }
        ensures writes { WritesDisk result at piece.now (outside self.old) (outside self.new) };

    /// After it, a stop leaves what a read gives. A sync that failed changes nothing.
    fn disk_sync(&mut self) -> Result<(), Failed>
        ensures syncs { SyncsDisk result (outside self.old) (outside self.new) };

    /// The bytes that were sent by now are those that it exposes.
    ghost sent_now: { (host : Self) (image bytes : List ℕ)
        → (outside host).leaves (outside host).moment image bytes → Agrees (outside host).sent bytes };

    /// What a read gives is among what a stop may leave.
    ghost read_passes: { (host : Self) (disk : List ℕ)
        → (outside host).disk ≡ Some disk → MayLeave (outside host) disk };

    /// Where it exposes the bytes that were sent, a stop now may leave some image.
    ghost stops_now: { (host : Self) (sent : List ℕ)
        → (outside host).sent ≡ Some sent → (image : List ℕ) × MayLeave (outside host) image };
}
