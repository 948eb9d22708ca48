//! Files whose reads and writes move a few bytes at a time.

use host_core::Held;
use std::alloc::Allocator;
use std::fs::{FileTimes, Metadata, OpenFile, OpenOptions, Permissions};
use std::io::{self, PipeReader, PipeWriter, Read, Seek, SeekFrom, Write};
use std::os::fd::BorrowedFd;
use std::os::unix::fs::FileExt;
use std::os::unix::net::SocketAddr;
use std::path::PathBuf;
use std::rt::Files;

/// The most bytes of one read or write.
const MOST: usize = 7;

/// The files of a runtime, opened so that each of their reads and writes moves at most 7 bytes.
#[derive(Drop)]
pub struct ShortFiles<'a, F: Files> {
    files: &'a F,
}

impl<'a, F: Files> ShortFiles<'a, F> {
    /// These files, with short reads and writes.
    pub fn new(files: &'a F) -> Self {
        ShortFiles { files }
    }
}

/// A file whose reads and writes move at most 7 bytes.
#[derive(Drop)]
pub struct ShortFile<W> {
    whole: W,
}

impl<W: Read> Read for ShortFile<W> {
    fn read(&mut self, buf: &mut [u8]) -> io::Result<usize> {
        let count = buf.len().min(MOST);
        self.whole.read(&mut buf[..count])
    }
}

impl<W: Write> Write for ShortFile<W> {
    fn write(&mut self, buf: &[u8]) -> io::Result<usize> {
        let count = buf.len().min(MOST);
        self.whole.write(&buf[..count])
    }

    fn flush(&mut self) -> io::Result<()> {
        self.whole.flush()
    }
}

impl<W: Seek> Seek for ShortFile<W> {
    fn seek(&mut self, to: SeekFrom) -> io::Result<u64> {
        self.whole.seek(to)
    }
}

impl<W: FileExt> FileExt for ShortFile<W> {
    fn read_at(&self, buf: &mut [u8], offset: u64) -> io::Result<usize> {
        let count = buf.len().min(MOST);
        self.whole.read_at(&mut buf[..count], offset)
    }

    fn write_at(&self, buf: &[u8], offset: u64) -> io::Result<usize> {
        let count = buf.len().min(MOST);
        self.whole.write_at(&buf[..count], offset)
    }
}

impl<W: Held> Held for ShortFile<W> {
    fn hold(&self) -> io::Result<()> {
        self.whole.hold()
    }
}

impl<W: OpenFile> OpenFile for ShortFile<W> {
    fn metadata(&self) -> io::Result<Metadata> {
        self.whole.metadata()
    }

    fn set_len(&self, size: u64) -> io::Result<()> {
        self.whole.set_len(size)
    }

    fn sync_all(&self) -> io::Result<()> {
        self.whole.sync_all()
    }

    fn sync_data(&self) -> io::Result<()> {
        self.whole.sync_data()
    }
}

impl<'a, F: Files> Files for ShortFiles<'a, F> {
    type File = ShortFile<F::File>;

    type Dir = F::Dir;

    fn open_file(&self, how: &OpenOptions, path: &str) -> io::Result<ShortFile<F::File>> {
        Ok(ShortFile {
            whole: self.files.open_file(how, path)?,
        })
    }

    fn open_dir(&self, path: &str) -> io::Result<F::Dir> {
        self.files.open_dir(path)
    }

    fn metadata(&self, path: &str) -> io::Result<Metadata> {
        self.files.metadata(path)
    }

    fn symlink_metadata(&self, path: &str) -> io::Result<Metadata> {
        self.files.symlink_metadata(path)
    }

    fn copy(&self, from: &str, to: &str) -> io::Result<u64> {
        self.files.copy(from, to)
    }

    fn rename(&self, from: &str, to: &str) -> io::Result<()> {
        self.files.rename(from, to)
    }

    fn remove_file(&self, path: &str) -> io::Result<()> {
        self.files.remove_file(path)
    }

    fn create_dir(&self, path: &str) -> io::Result<()> {
        self.files.create_dir(path)
    }

    fn remove_dir(&self, path: &str) -> io::Result<()> {
        self.files.remove_dir(path)
    }

    fn remove_dir_all<B: Allocator>(&self, alloc: B, path: &str) -> io::Result<()> {
        self.files.remove_dir_all(alloc, path)
    }

    fn canonicalize<B: Allocator>(&self, alloc: B, path: &str) -> io::Result<PathBuf<B>> {
        self.files.canonicalize(alloc, path)
    }

    fn read_link<B: Allocator>(&self, alloc: B, path: &str) -> io::Result<PathBuf<B>> {
        self.files.read_link(alloc, path)
    }

    fn hard_link(&self, original: &str, link: &str) -> io::Result<()> {
        self.files.hard_link(original, link)
    }

    fn set_permissions(&self, path: &str, perm: Permissions) -> io::Result<()> {
        self.files.set_permissions(path, perm)
    }

    fn symlink(&self, original: &str, link: &str) -> io::Result<()> {
        self.files.symlink(original, link)
    }

    fn pipe(&self) -> io::Result<(PipeReader, PipeWriter)> {
        self.files.pipe()
    }

    fn chown(&self, path: &str, uid: Option<u32>, gid: Option<u32>) -> io::Result<()> {
        self.files.chown(path, uid, gid)
    }

    fn lchown(&self, path: &str, uid: Option<u32>, gid: Option<u32>) -> io::Result<()> {
        self.files.lchown(path, uid, gid)
    }

    fn create_dir_with_mode(&self, path: &str, mode: u32) -> io::Result<()> {
        self.files.create_dir_with_mode(path, mode)
    }

    fn bind_unix(&self, socket: BorrowedFd<'_>, addr: &SocketAddr) -> io::Result<()> {
        self.files.bind_unix(socket, addr)
    }
}
