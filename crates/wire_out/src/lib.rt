//! Published frames: from a frame to its bytes, and from a body to its frame.
#![tactic(auto)]

mod code;
mod decoding;
mod encoding;
mod law;
mod message;

pub use decoding::{BadFrame, get_frame};
pub use encoding::{put_frame, put_numbered};
pub use law::{frames_differ, frames_fit};
pub use message::{Frame, Message, ShortKind, Stamped};
