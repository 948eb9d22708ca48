//! Published frames and their lines.

use crate::text::DayError;
use host_core::Status;
use memory_host::MemoryHost;
use std::alloc::Global;
use text_core::{Kind, pack_stream, print_stream};

/// Puts a text of these bytes behind another.
pub fn add_text(text: &mut String, bytes: &[u8]) -> Result<(), DayError> {
    let Ok(more) = str::from_utf8(bytes) else {
        return Err(DayError::NoText);
    };
    text.push_str(more)?;
    Ok(())
}

/// Puts the lines of published frames behind a text.
pub fn add_printed(alloc: Global, text: &mut String, frames: &[u8]) -> Result<(), DayError> {
    let mut printer = MemoryHost::new(alloc, frames, b"")?;
    print_stream(alloc, &mut printer, Kind::Published);
    add_text(text, printer.sent())
}

/// What keeps lines from being packed, where they aren't.
fn refusal_of(status: Status) -> Result<(), DayError> {
    match status {
        Status::Done => Ok(()),
        Status::BadText { line } => Err(DayError::Line(line.saturating_sub(1) as usize)),
        _ => Err(DayError::NoMemory),
    }
}

/// A host that reads the frames of published lines.
pub fn packed(alloc: Global, lines: &str) -> Result<MemoryHost, DayError> {
    let mut packer = MemoryHost::new(alloc, lines.as_bytes(), b"")?;
    refusal_of(pack_stream(alloc, &mut packer, Kind::Published))?;
    Ok(MemoryHost::new(alloc, packer.sent(), b"")?)
}
