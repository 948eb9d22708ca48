//! The replies of a standby as lines.

use crate::published::add_printed;
use crate::text::{DayError, push_line};
use standby_core::get_have;
use std::alloc::Global;

/// Puts the line of a Have behind a text.
fn add_have(alloc: Global, text: &mut String, count: u64) -> Result<(), DayError> {
    let line = format!(in alloc; "have {count}")?;
    Ok(push_line(text, &line)?)
}

/// Puts the line of a frame that a standby sent behind a text.
fn add_reply(alloc: Global, text: &mut String, frame: &[u8]) -> Result<(), DayError> {
    match get_have(frame.get(1..).unwrap_or(&[])) {
        Ok(count) => add_have(alloc, text, count),
        Err(_) => add_printed(alloc, text, frame),
    }
}

/// Puts a line for each frame that a standby sent behind a text, of which each has a byte at least.
pub fn add_replies(alloc: Global, text: &mut String, sent: &[u8]) -> Result<(), DayError> {
    let mut rest = sent;
    for _ in 0..sent.len() {
        let Some(len) = rest.first() else {
            return Ok(());
        };
        let whole = usize::from(*len).saturating_add(1).min(rest.len());
        let (frame, later) = rest.split_at(whole);
        add_reply(alloc, text, frame)?;
        rest = later;
    }
    Ok(())
}
