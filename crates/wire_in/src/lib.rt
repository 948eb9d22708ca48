//! Input frames: from pieces of a stream to bodies, from a body to its record, and from a record to its frame. Bases, from
//! and to their bytes.
#![tactic(auto)]

mod base;
mod base_reading;
mod base_writing;
mod code;
mod cutter;
mod decoding;
mod encoding;
mod law;
mod record;

pub use base::{Base, BaseError, Ids, Names};
pub use base_reading::get_base;
pub use base_writing::put_base;
pub use cutter::{Cut, Cutter};
pub use decoding::{blank, decode, decode_into};
pub use encoding::encode;
pub use law::{
    a_base_is_alone, cutting_goes_on, frames_differ, there_is_one_cut, there_is_one_kind,
};
pub use record::{NoticeKind, Record, RecordKind, Refusal};
