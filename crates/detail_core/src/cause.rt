//! What an error of the system means, in words.

use crate::files::Call;
use std::alloc::{AllocError, Global};
use std::io;

/// What could not be done.
pub fn refused(call: Call) -> &'static str {
    match call {
        Call::Open => "could not be opened",
        Call::Hold => "could not be held",
        Call::Measure => "could not be measured",
        Call::Read => "could not be read",
        Call::Write => "could not be written",
        Call::Sync => "could not be put on the disk",
    }
}

/// What an error means at a call of a file, where that is more than its own words say.
fn known_at(call: Call, kind: io::ErrorKind) -> Option<&'static str> {
    match (call, kind) {
        (Call::Open, io::ErrorKind::NotFound) => Some("its folder is not there"),
        (Call::Hold, io::ErrorKind::WouldBlock) => Some("another run holds it"),
        (Call::Hold, io::ErrorKind::InvalidInput) => Some("a standard stream is closed"),
        (Call::Sync, io::ErrorKind::InvalidInput) => Some("it is no file on a disk"),
        _ => None,
    }
}

/// What an error means wherever it comes, where that is more than its own words say.
fn known(kind: io::ErrorKind) -> Option<&'static str> {
    match kind {
        io::ErrorKind::PermissionDenied => Some("no permission"),
        io::ErrorKind::IsADirectory => Some("it is a directory"),
        io::ErrorKind::NotADirectory => Some("its path leads through a file"),
        io::ErrorKind::StorageFull => Some("no space is left"),
        io::ErrorKind::QuotaExceeded => Some("the quota of the disk is used up"),
        io::ErrorKind::FileTooLarge => Some("it would grow too large"),
        io::ErrorKind::ReadOnlyFilesystem => Some("its file system is read only"),
        io::ErrorKind::NotSeekable => Some("it is no file on a disk"),
        io::ErrorKind::BrokenPipe => Some("nobody reads it"),
        io::ErrorKind::UnexpectedEof => Some("it ends too early"),
        io::ErrorKind::WriteZero => Some("the system takes none of it"),
        _ => None,
    }
}

/// What an error means.
pub fn cause(alloc: Global, kind: io::ErrorKind) -> Result<String, AllocError> {
    match known(kind) {
        Some(words) => String::from_str(alloc, words),
        None => format!(in alloc; "{kind}"),
    }
}

/// What an error means at a call of a file.
pub fn cause_at(alloc: Global, call: Call, kind: io::ErrorKind) -> Result<String, AllocError> {
    match known_at(call, kind) {
        Some(words) => String::from_str(alloc, words),
        None => cause(alloc, kind),
    }
}
