//! A file whose syncs fail.

use super::disks::Step::{Len, Sync};
use super::disks::play_and_refuse;
use host_core::{Failed, Host, JournalFile, Opens, RawFile, RealHost, Stream};
use std::io;
use std::process::Abort;

/// A file whose first sync fails, and each later one is done, as some systems do that have dropped what was written before.
#[derive(Drop)]
struct LostFile {
    has_failed: bool,
}

impl RawFile for LostFile {
    ghost use Rattle.host_core.specs.Files.{untold};

    ghost state = { λ f. untold f.has_failed };

    fn length(&mut self) -> io::Result<u64> {
        Ok(0)
    }

    fn read_at(&mut self, at: u64, into: &mut [u8]) -> io::Result<usize> {
        let _ = at;
        let _ = into;
        Ok(0)
    }

    fn write_at(&mut self, at: u64, piece: &[u8]) -> io::Result<usize> {
        let _ = at;
        Ok(piece.len())
    }

    fn sync_data(&mut self) -> io::Result<()> {
        if self.has_failed {
            return Ok(());
        }
        self.has_failed = true;
        Err(io::ErrorKind::Other.into())
    }

    fn has_failed(&self) -> bool {
        self.has_failed
    }

    fn hold(&mut self) -> io::Result<()> {
        Ok(())
    }
}

/// What opens such files.
#[derive(Drop)]
struct LostFiles;

impl Opens for LostFiles {
    ghost use Rattle.std.specs.Prelude.{false};
    ghost use Rattle.host_core.specs.Files.{untold};

    type File = LostFile;

    ghost standing = { λ _ _. untold false };

    fn find(&self, path: &str) -> io::Result<Option<LostFile>> {
        Ok(Some(self.open(path)?))
    }

    fn open(&self, path: &str) -> io::Result<LostFile> {
        let _ = path;
        Ok(LostFile { has_failed: false })
    }
}

/// A journal's file tells its length, and none of its syncs is done.
fn file_loses<R: Abort + AllocGlobal, O: Opens + Drop>(rt: &R, files: O) {
    let file = JournalFile::new(files, "lost.bin");
    play_and_refuse(rt, file, &[Len(0)], &[Sync, Sync]);
}

/// Whether both of two syncs of a host fail.
fn syncs_fail<H: Host>(host: &mut H) -> bool {
    host.disk_sync() == Err(Failed) && host.disk_sync() == Err(Failed)
}

/// The same of a real host over a journal's file.
fn host_loses<O: Opens + Drop>(files: O) -> bool {
    let (input, output) = (Stream::new(io::empty()), Stream::new(io::sink()));
    syncs_fail(&mut RealHost::new(input, output, JournalFile::new(files, "lost.bin")))
}

#[test]
fn a_sync_that_failed_is_not_passed_over(rt: HostRuntime) {
    file_loses(&rt, LostFiles);
    assert!(rt; host_loses(LostFiles));
}
