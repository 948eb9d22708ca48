//! Single calls of an open file.

ghost use Rattle.std.specs.Prelude.{◌≡◌, ◌≤◌, ℕ, true, false, List, Some, None, IfSome, length, take, drop, IsTrue, IfOk, OnOk, OnErr};
ghost use Rattle.host_core.specs.Outside.{written};
ghost use Rattle.host_core.specs.Files.{FileState, IsAbsent, IsTorn, untold};
ghost use Rattle.host_core.specs.Real.{has_failed};

use std::fs::{File, OpenFile, OpenOptions};
use std::io::{self, Seek, SeekFrom};
use std::os::fd::{AsRawFd, RawFd};
use std::os::unix::fs::FileExt;
use std::rt::Files;

/// An open file, one call of the system at a time.
pub trait RawFile {
    /// What is known of it.
    ghost state: { Self → FileState };

    /// Its length in bytes.
    fn length(&mut self) -> io::Result<u64>
        ensures length { IfOk result (λ n. (content : List ℕ) → (state self.old).bytes ≡ Some content → n ≡ length content) }
        ensures same { state self.new ≡ state self.old };

    /// Reads from an offset on, and answers how many bytes: these may be fewer than there are.
    fn read_at(&mut self, at: u64, into: &mut [u8]) -> io::Result<usize>
        ensures bound { IfOk result (λ n. n ≤ length into.new) }
        ensures given { IfOk result (λ n. (content : List ℕ) → (state self.old).bytes ≡ Some content → take n into.new ≡ take n (drop at content)) }
        ensures same { state self.new ≡ state self.old };

    /// Writes from an offset on, and answers how many bytes of the piece: these may be few. Where it fails, any bytes may stand in
    /// the range of the piece.
    fn write_at(&mut self, at: u64, piece: &[u8]) -> io::Result<usize>
        ensures bound { IfOk result (λ n. n ≤ length piece.now) }
        ensures written { IfOk result (λ n. (content : List ℕ) → (state self.old).bytes ≡ Some content → at ≤ length content
            → (state self.new).bytes ≡ Some (written at (take n piece.now) content)) }
        ensures torn { OnErr result ((content : List ℕ) → (state self.old).bytes ≡ Some content → at ≤ length content
            → IsTorn at (length piece.now) content (state self.new).bytes) }
        ensures same_synced { (state self.new).synced ≡ (state self.old).synced }
        ensures same_held { (state self.new).is_held ≡ (state self.old).is_held }
        ensures same_failed { (state self.new).has_failed ≡ (state self.old).has_failed };

    /// Puts on the disk what was written since a sync that was done, unless one failed: the system may have dropped what was
    /// written before that, and still answer Ok.
    fn sync_data(&mut self) -> io::Result<()>
        ensures same { (state self.new).bytes ≡ (state self.old).bytes }
        ensures synced { OnOk result ((state self.old).has_failed ≡ false → (state self.new).synced ≡ (state self.old).bytes) }
        ensures unsynced { OnErr result ((state self.new).synced ≡ (state self.old).synced) }
        ensures same_failed { OnOk result ((state self.new).has_failed ≡ (state self.old).has_failed) }
        ensures failed { OnErr result ((state self.new).has_failed ≡ true) }
        ensures same_held { (state self.new).is_held ≡ (state self.old).is_held };

    /// Whether a sync of it failed.
    fn has_failed(&self) -> bool
        ensures { result ≡ (state self.now).has_failed };

    /// Holds it until it is closed. It is an error where someone else holds it.
    fn hold(&mut self) -> io::Result<()>
        ensures held { OnOk result (IsTrue (state self.new).is_held) }
        ensures same { (state self.new).bytes ≡ (state self.old).bytes }
        ensures same_synced { (state self.new).synced ≡ (state self.old).synced }
        ensures same_failed { (state self.new).has_failed ≡ (state self.old).has_failed };
}

/// What opens files.
pub trait Opens {
    /// An opened file.
    type File: RawFile + Drop;

    /// What is known of a file of that path when it is opened.
    ghost standing: { Self → List ℕ → FileState };

    /// Opens a file for reading and writing as it stands; none where there is none.
    fn find(&self, path: &str) -> io::Result<Option<Self::File>>
        ensures found { IfOk result (λ found. IfSome found (λ file. Self.File.state file ≡ standing self.now path.now)) }
        ensures none { IfOk result (λ found. found ≡ None → IsAbsent (standing self.now path.now)) };

    /// Opens a file for reading and writing as it stands; an empty one is made where there is none.
    fn open(&self, path: &str) -> io::Result<Self::File>
        ensures found { IfOk result (λ file. Self.File.state file ≡ standing self.now path.now) };
}

/// A file that whoever opened it can hold for itself.
pub trait Held {
    /// Holds the file until it is closed. It is an error where someone else holds it, and where it stands in the place of a
    /// standard stream.
    fn hold(&self) -> io::Result<()>;
}

// The descriptors below this one are those of the standard streams. A file gets one of them where a stream was closed before
// it was opened: then what is meant for the stream would go to the file.
const STREAMS: RawFd = 3;

impl Held for File {
    ghost use Rattle.std.specs.Prelude.{pos, ◌≤ℤ◌, OnOk};
    ghost use Rattle.std.specs.Fd.{file_raw_fd};

    fn hold(&self) -> io::Result<()>
        ensures apart { OnOk result (pos 3 ≤ℤ file_raw_fd self.now) }
    {
        if self.as_raw_fd() < STREAMS {
            return Err(io::ErrorKind::InvalidInput.into());
        }
        Ok(self.try_lock()?)
    }
}

/// A file of the system. That its calls do what is said of an open file is trusted.
#[derive(Drop)]
pub struct SystemFile<T> {
    file: T,
    has_failed: bool,
}

impl<T: OpenFile + Seek + FileExt + Held> RawFile for SystemFile<T> {
    ghost state = { λ f. untold (has_failed f) };

    fn length(&mut self) -> io::Result<u64> {
        self.file.seek(SeekFrom::End(0))
    }

    fn read_at(&mut self, at: u64, into: &mut [u8]) -> io::Result<usize> {
        self.file.read_at(into, at)
    }

    fn write_at(&mut self, at: u64, piece: &[u8]) -> io::Result<usize> {
        self.file.write_at(piece, at)
    }

    fn sync_data(&mut self) -> io::Result<()> {
        let synced = self.file.sync_data();
        self.has_failed |= synced.is_err();
        synced
    }

    fn has_failed(&self) -> bool {
        self.has_failed
    }

    fn hold(&mut self) -> io::Result<()> {
        self.file.hold()
    }
}

/// The files of the system.
#[derive(Drop)]
pub struct SystemFiles<'a, F: Files> {
    files: &'a F,
}

impl<'a, F: Files> SystemFiles<'a, F> {
    /// The files that a runtime opens.
    pub fn new(files: &'a F) -> Self {
        SystemFiles { files }
    }
}

impl<'a, F: Files> Opens for SystemFiles<'a, F>
where
    F::File: FileExt + Held,
{
    type File = SystemFile<F::File>;

    ghost standing = { λ _ _. untold false };

    fn find(&self, path: &str) -> io::Result<Option<SystemFile<F::File>>> {
        let mut options = OpenOptions::new();
        options.read(true).write(true);
        match options.open(self.files, path) {
            Ok(file) => Ok(Some(SystemFile {
                file,
                has_failed: false,
            })),
            Err(error) if error.kind() == io::ErrorKind::NotFound => Ok(None),
            Err(error) => Err(error),
        }
    }

    fn open(&self, path: &str) -> io::Result<SystemFile<F::File>> {
        let mut options = OpenOptions::new();
        options.read(true).write(true).create(true);
        Ok(SystemFile {
            file: options.open(self.files, path)?,
            has_failed: false,
        })
    }
}
