//! Files of a folder.

use crate::text::DayError;
use std::fs;
use std::rt::Files;

/// Reads the file of a folder whose name has this ending.
pub fn read_file<Rt: Files + AllocGlobal>(
    rt: &Rt,
    folder: &str,
    name: &str,
    ending: &str,
) -> Result<String, DayError> {
    let path = format!(in rt.alloc(); "{folder}/{name}{ending}")?;
    Ok(fs::read_to_string(rt, path.as_str())?)
}
