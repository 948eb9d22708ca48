//! Reads and writes of a file that are done whole, over as many calls as they need.

ghost use Rattle.std.specs.Prelude.{◌≡◌, ◌<◌, ◌≤◌, ◌+◌, ◌^◌, ℕ, true, false, List, Some, length, take, drop, IfOk, OnOk, OnErr};
ghost use Rattle.host_core.specs.Outside.{written};
ghost use Rattle.host_core.specs.Files.{IsTorn};

use crate::raw::RawFile;
use std::io;

/// The length of a file in bytes. A length of 2^63 or more is an error.
pub fn measure<T: RawFile>(file: &mut T) -> io::Result<u64>
    ensures bound { IfOk result (λ n. n < 2 ^ 63) }
    ensures length { IfOk result (λ n. (content : List ℕ) → (T.state file.old).bytes ≡ Some content → n ≡ length content) }
    ensures same { T.state file.new ≡ T.state file.old }
{
    let length = file.length()?;
    if length >= 1 << 63 {
        return Err(io::ErrorKind::InvalidData.into());
    }
    Ok(length)
}

/// Whether offsets of 64 bits reach the end of a piece.
fn check_range(at: u64, length: usize) -> io::Result<()>
    ensures { OnOk result (at + length < 2 ^ 64) }
{
    match at.checked_add(length as u64) {
        Some(_) => Ok(()),
        None => Err(io::ErrorKind::InvalidInput.into()),
    }
}

/// Fills a buffer from an offset on. It is an error where there are fewer bytes.
pub fn read_whole<T: RawFile>(file: &mut T, at: u64, into: &mut [u8]) -> io::Result<()>
    ensures given { OnOk result ((content : List ℕ) → (T.state file.old).bytes ≡ Some content → into.new ≡ take (length into.old) (drop at content)) }
    ensures same { T.state file.new ≡ T.state file.old }
{
    check_range(at, into.len())?;
    let mut done = 0;
    while done < into.len() {
        let count = file.read_at(at + done as u64, &mut into[done..])?;
        if count == 0 {
            return Err(io::ErrorKind::UnexpectedEof.into());
        }
        done += count;
    }
    Ok(())
}

/// Writes a piece from an offset on. Where it fails, any bytes may stand in the range of the piece.
pub fn write_whole<T: RawFile>(file: &mut T, at: u64, piece: &[u8]) -> io::Result<()>
    ensures written { OnOk result ((content : List ℕ) → (T.state file.old).bytes ≡ Some content → at ≤ length content
        → (T.state file.new).bytes ≡ Some (written at piece.now content)) }
    ensures torn { OnErr result ((content : List ℕ) → (T.state file.old).bytes ≡ Some content → at ≤ length content
        → IsTorn at (length piece.now) content (T.state file.new).bytes) }
    ensures same_synced { (T.state file.new).synced ≡ (T.state file.old).synced }
    ensures same_held { (T.state file.new).is_held ≡ (T.state file.old).is_held }
    ensures same_failed { (T.state file.new).has_failed ≡ (T.state file.old).has_failed }
{
    check_range(at, piece.len())?;
    let mut done = 0;
    while done < piece.len() {
        let count = file.write_at(at + done as u64, &piece[done..])?;
        if count == 0 {
            return Err(io::ErrorKind::WriteZero.into());
        }
        done += count;
    }
    Ok(())
}

/// Puts on the disk what was written. Once it has failed it fails.
pub fn sync_whole<T: RawFile>(file: &mut T) -> io::Result<()>
    ensures same { (T.state file.new).bytes ≡ (T.state file.old).bytes }
    ensures synced { OnOk result ((T.state file.new).synced ≡ (T.state file.old).bytes) }
    ensures unsynced { OnErr result ((T.state file.new).synced ≡ (T.state file.old).synced) }
    ensures sound { OnOk result ((T.state file.old).has_failed ≡ false) }
    ensures still_sound { OnOk result ((T.state file.new).has_failed ≡ false) }
    ensures failed { OnErr result ((T.state file.new).has_failed ≡ true) }
    ensures same_held { (T.state file.new).is_held ≡ (T.state file.old).is_held }
{
    if file.has_failed() {
        return Err(io::ErrorKind::Other.into());
    }
    file.sync_data()
}
