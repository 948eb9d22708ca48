//! The file of a journal.

ghost use Rattle.std.specs.Prelude.{◌≡◌, ◌||◌, ◌<◌, ◌≤◌, ◌^◌, ℕ, Bool, true, false, List, Option, None, Some, length, take, drop, IsTrue, IfOk, IfSome, IsErr, OnOk, OnErr};
ghost use Rattle.host_core.specs.Outside.{written};
ghost use Rattle.host_core.specs.Files.{IsAbsent, IsTorn};
ghost use Rattle.host_core.specs.Real.{path_of, files_of, opened_of, has_lost, file_state, all_held};

use crate::raw::{Opens, RawFile};
use crate::whole::{measure, read_whole, sync_whole, write_whole};
use std::io;

/// The disk of a host over the streams: bytes that stay when the program ends.
pub trait Disk {
    /// What a read gives, where it is content.
    ghost bytes: { Self → Option (List ℕ) } = { λ _. None };

    /// What a read gave at the last sync that answered Ok, where that is known.
    ghost synced: { Self → Option (List ℕ) } = { λ _. None };

    /// A sync failed: what was written before may be lost, so no later sync answers Ok.
    ghost poisoned: { Self → Bool };

    /// Whatever of it is open is held, so that nobody else who holds files reads or writes it.
    ghost held: { Self → Bool };

    /// The length in bytes. A length of 2^63 or more is an error.
    fn len(&mut self) -> io::Result<u64>
        ensures bound { IfOk result (λ n. n < 2 ^ 63) }
        ensures len { IfOk result (λ n. (content : List ℕ) → bytes self.old ≡ Some content → n ≡ length content) }
        ensures same { bytes self.new ≡ bytes self.old }
        ensures same_synced { synced self.new ≡ synced self.old }
        ensures same_poisoned { poisoned self.new ≡ poisoned self.old }
        ensures held { IsTrue (held self.old) → IsTrue (held self.new) };

    /// Reads the bytes from an offset on. It is an error where there are fewer.
    fn read(&mut self, at: u64, into: &mut [u8]) -> io::Result<()>
        ensures given { OnOk result ((content : List ℕ) → bytes self.old ≡ Some content → into.new ≡ take (length into.old) (drop at content)) }
        ensures same { bytes self.new ≡ bytes self.old }
        ensures same_synced { synced self.new ≡ synced self.old }
        ensures same_poisoned { poisoned self.new ≡ poisoned self.old }
        ensures held { IsTrue (held self.old) → IsTrue (held self.new) };

    /// Writes a piece from an offset on. Where it fails, any bytes may stand in the range of the piece, and nothing else is changed.
    fn write(&mut self, at: u64, piece: &[u8]) -> io::Result<()>
        ensures written { OnOk result ((content : List ℕ) → bytes self.old ≡ Some content → at ≤ length content
            → bytes self.new ≡ Some (written at piece.now content)) }
        ensures torn { OnErr result ((content : List ℕ) → bytes self.old ≡ Some content → at ≤ length content
            → IsTorn at (length piece.now) content (bytes self.new)) }
        ensures same_synced { synced self.new ≡ synced self.old }
        ensures same_poisoned { poisoned self.new ≡ poisoned self.old }
        ensures held { IsTrue (held self.old) → IsTrue (held self.new) };

    /// Puts on the disk what was written. Once it has failed it fails.
    fn sync(&mut self) -> io::Result<()>
        ensures same { bytes self.new ≡ bytes self.old }
        ensures synced { OnOk result (synced self.new ≡ bytes self.old) }
        ensures unsynced { OnErr result (synced self.new ≡ synced self.old) }
        ensures sound { OnOk result (poisoned self.old ≡ false) }
        ensures still_sound { OnOk result (poisoned self.new ≡ false) }
        ensures poisoned { OnErr result (poisoned self.new ≡ true) }
        ensures held { IsTrue (held self.old) → IsTrue (held self.new) };
}

/// The most bytes of a file that a write from its begin may replace: those of a journal without a record.
const BARE_BYTES: u64 = 17;

/// A file that is opened for reading and writing at its first use, and held from then on, so that no other program reads or
/// writes the same journal. Where there is none it has no bytes, and the first write makes it.
#[derive(Drop)]
pub struct JournalFile<'a, O: Opens> {
    files: O,
    path: &'a str,
    opened: Option<O::File>,
    // A sync failed.
    has_lost: bool,
}

impl<'a, O: Opens> JournalFile<'a, O> {
    /// The file of a path. The path `-` names none: then every use fails.
    pub fn new(files: O, path: &'a str) -> Self
        ensures files { files_of result ≡ files }
        ensures path { path_of result ≡ path.now }
        ensures unopened { opened_of result ≡ None }
        ensures kept { has_lost result ≡ false }
    {
        JournalFile {
            files,
            path,
            opened: None,
            has_lost: false,
        }
    }

    // Opens and holds the file where that wasn't done yet and there is one.
    fn find(&mut self) -> io::Result<()>
        ensures bytes { (file_state O.standing O.File.state self.new).bytes ≡ (file_state O.standing O.File.state self.old).bytes }
        ensures synced { (file_state O.standing O.File.state self.new).synced ≡ (file_state O.standing O.File.state self.old).synced }
        ensures failed { (file_state O.standing O.File.state self.new).has_failed ≡ (file_state O.standing O.File.state self.old).has_failed }
        ensures lost { has_lost self.new ≡ has_lost self.old }
        ensures held { IsTrue (all_held O.File.state self.old) → IsTrue (all_held O.File.state self.new) }
        ensures absent { OnOk result (opened_of self.new ≡ None → IsAbsent (file_state O.standing O.File.state self.new)) }
    {
        if self.opened.is_none() {
            self.opened = find_held(&self.files, self.path)?;
        }
        Ok(())
    }

    // Opens and holds the file where that wasn't done yet, or makes it.
    fn open(&mut self) -> io::Result<()>
        ensures bytes { (file_state O.standing O.File.state self.new).bytes ≡ (file_state O.standing O.File.state self.old).bytes }
        ensures synced { (file_state O.standing O.File.state self.new).synced ≡ (file_state O.standing O.File.state self.old).synced }
        ensures failed { (file_state O.standing O.File.state self.new).has_failed ≡ (file_state O.standing O.File.state self.old).has_failed }
        ensures lost { has_lost self.new ≡ has_lost self.old }
        ensures held { IsTrue (all_held O.File.state self.old) → IsTrue (all_held O.File.state self.new) }
    {
        if self.opened.is_none() {
            self.opened = Some(open_held(&self.files, self.path)?);
        }
        Ok(())
    }

    // Puts on the disk what was written, unless a sync failed before.
    fn sync_once(&mut self) -> io::Result<()>
        ensures bytes { (file_state O.standing O.File.state self.new).bytes ≡ (file_state O.standing O.File.state self.old).bytes }
        ensures synced { OnOk result ((file_state O.standing O.File.state self.new).synced ≡ (file_state O.standing O.File.state self.old).bytes) }
        ensures unsynced { OnErr result ((file_state O.standing O.File.state self.new).synced ≡ (file_state O.standing O.File.state self.old).synced) }
        ensures sound { OnOk result ((file_state O.standing O.File.state self.old).has_failed ≡ false) }
        ensures still_sound { OnOk result ((file_state O.standing O.File.state self.new).has_failed ≡ false) }
        ensures lost { has_lost self.new ≡ has_lost self.old }
        ensures kept { OnOk result (has_lost self.old ≡ false) }
        ensures held { IsTrue (all_held O.File.state self.old) → IsTrue (all_held O.File.state self.new) }
    {
        if self.has_lost {
            return Err(io::ErrorKind::Other.into());
        }
        self.find()?;
        match &mut self.opened {
            Some(file) => sync_whole(file),
            None => Ok(()),
        }
    }
}

impl<'a, O: Opens> Disk for JournalFile<'a, O> {
    ghost bytes = { λ f. (file_state O.standing O.File.state f).bytes };

    ghost synced = { λ f. (file_state O.standing O.File.state f).synced };

    ghost poisoned = { λ f. has_lost f || (file_state O.standing O.File.state f).has_failed };

    ghost held = { λ f. all_held O.File.state f };

    fn len(&mut self) -> io::Result<u64> {
        self.find()?;
        match &mut self.opened {
            Some(file) => measure(file),
            None => Ok(0),
        }
    }

    fn read(&mut self, at: u64, into: &mut [u8]) -> io::Result<()> {
        self.find()?;
        match &mut self.opened {
            Some(file) => read_whole(file, at, into),
            None => Err(io::ErrorKind::UnexpectedEof.into()),
        }
    }

    fn write(&mut self, at: u64, piece: &[u8]) -> io::Result<()>
        ensures written { OnOk result ((content : List ℕ) → (file_state O.standing O.File.state self.old).bytes ≡ Some content → at ≤ length content
            → (file_state O.standing O.File.state self.new).bytes ≡ Some (written at piece.now content)) }
        ensures torn { OnErr result ((content : List ℕ) → (file_state O.standing O.File.state self.old).bytes ≡ Some content → at ≤ length content
            → IsTorn at (length piece.now) content (file_state O.standing O.File.state self.new).bytes) }
        // A file that has more than a journal without a record is never replaced.
        ensures kept { (content : List ℕ) → (file_state O.standing O.File.state self.old).bytes ≡ Some content → at ≡ 0 → 17 < length content
            → IsErr result × ((file_state O.standing O.File.state self.new).bytes ≡ Some content) }
        ensures same_synced { (file_state O.standing O.File.state self.new).synced ≡ (file_state O.standing O.File.state self.old).synced }
        ensures same_poisoned { (has_lost self.new || (file_state O.standing O.File.state self.new).has_failed)
            ≡ (has_lost self.old || (file_state O.standing O.File.state self.old).has_failed) }
        ensures held { IsTrue (all_held O.File.state self.old) → IsTrue (all_held O.File.state self.new) }
    {
        self.open()?;
        match &mut self.opened {
            Some(file) => write_over(file, at, piece),
            None => Err(io::ErrorKind::NotFound.into()),
        }
    }

    fn sync(&mut self) -> io::Result<()> {
        let synced = self.sync_once();
        self.has_lost |= synced.is_err();
        synced
    }
}

/// Writes a piece from an offset on, but not from the begin of a file that has more bytes than a journal without a record: it
/// holds records, or is none.
fn write_over<T: RawFile>(file: &mut T, at: u64, piece: &[u8]) -> io::Result<()>
    ensures written { OnOk result ((content : List ℕ) → (T.state file.old).bytes ≡ Some content → at ≤ length content
        → (T.state file.new).bytes ≡ Some (written at piece.now content)) }
    ensures torn { OnErr result ((content : List ℕ) → (T.state file.old).bytes ≡ Some content → at ≤ length content
        → IsTorn at (length piece.now) content (T.state file.new).bytes) }
    ensures kept { (content : List ℕ) → (T.state file.old).bytes ≡ Some content → at ≡ 0 → 17 < length content
        → IsErr result × ((T.state file.new).bytes ≡ Some content) }
    ensures same_synced { (T.state file.new).synced ≡ (T.state file.old).synced }
    ensures same_held { (T.state file.new).is_held ≡ (T.state file.old).is_held }
    ensures same_failed { (T.state file.new).has_failed ≡ (T.state file.old).has_failed }
{
    if at == 0 && measure(file)? > BARE_BYTES {
        return Err(io::ErrorKind::AlreadyExists.into());
    }
    write_whole(file, at, piece)
}

// Opens a file that is there, and holds it.
fn find_held<O: Opens>(files: &O, path: &str) -> io::Result<Option<O::File>>
    ensures bytes { IfOk result (λ found. IfSome found (λ file. (O.File.state file).bytes ≡ (O.standing files.now path.now).bytes)) }
    ensures synced { IfOk result (λ found. IfSome found (λ file. (O.File.state file).synced ≡ (O.standing files.now path.now).synced)) }
    ensures failed { IfOk result (λ found. IfSome found (λ file. (O.File.state file).has_failed ≡ (O.standing files.now path.now).has_failed)) }
    ensures held { IfOk result (λ found. IfSome found (λ file. IsTrue (O.File.state file).is_held)) }
    ensures absent { IfOk result (λ found. found ≡ None → IsAbsent (O.standing files.now path.now)) }
{
    if path == "-" {
        return Err(io::ErrorKind::NotFound.into());
    }
    let Some(mut file) = files.find(path)? else {
        return Ok(None);
    };
    file.hold()?;
    Ok(Some(file))
}

// Opens a file, or makes it, and holds it.
fn open_held<O: Opens>(files: &O, path: &str) -> io::Result<O::File>
    ensures bytes { IfOk result (λ file. (O.File.state file).bytes ≡ (O.standing files.now path.now).bytes) }
    ensures synced { IfOk result (λ file. (O.File.state file).synced ≡ (O.standing files.now path.now).synced) }
    ensures failed { IfOk result (λ file. (O.File.state file).has_failed ≡ (O.standing files.now path.now).has_failed) }
    ensures held { IfOk result (λ file. IsTrue (O.File.state file).is_held) }
{
    if path == "-" {
        return Err(io::ErrorKind::NotFound.into());
    }
    let mut file = files.open(path)?;
    file.hold()?;
    Ok(file)
}
