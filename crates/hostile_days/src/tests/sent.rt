//! What a stream of frames says.

use std::process::Abort;
use wire_out::{Frame, get_frame};

/// The first frame of a stream and the bytes behind it, where a whole one is there.
pub fn first_frame(stream: &[u8]) -> Option<(&[u8], &[u8])> {
    let len = 1 + usize::from(*stream.first()?);
    stream.split_at_checked(len)
}

/// The bytes of a stream behind its first frames.
pub fn behind(stream: &[u8], frames: u64) -> &[u8] {
    let mut rest = stream;
    for _ in 0..frames {
        if let Some((_, after)) = first_frame(rest) {
            rest = after;
        }
    }
    rest
}

/// The body of a frame.
pub fn body_of(frame: &[u8]) -> &[u8] {
    frame.get(1..).unwrap_or(&[])
}

/// What was sent tells, up to the last whole frame.
#[derive(Clone, Copy)]
pub struct Sent {
    /// How many records the last greeting tells of.
    pub held: Option<u64>,
    /// The number of the last record that was acknowledged; 0 where none was.
    pub acknowledged: u64,
    /// How many frames were refused.
    pub refused: u64,
}

/// What a stream tells.
pub fn told(stream: &[u8]) -> Sent {
    let mut sent = Sent {
        held: None,
        acknowledged: 0,
        refused: 0,
    };
    let mut rest = stream;
    for _ in 0..stream.len() {
        if let Some((frame, after)) = first_frame(rest) {
            match get_frame(body_of(frame)) {
                Ok(Frame::Hello { inputs, .. }) => sent.held = Some(inputs),
                Ok(Frame::Ack { input }) => sent.acknowledged = input,
                Ok(Frame::Refused { .. }) => sent.refused = sent.refused.saturating_add(1),
                _ => {}
            }
            rest = after;
        }
    }
    sent
}

/// Whether a frame is a numbered message.
fn is_message(frame: &[u8]) -> bool {
    matches!(get_frame(body_of(frame)), Ok(Frame::Numbered { .. }))
}

/// The frames of the numbered messages of a stream.
pub fn messages<R: Abort + AllocGlobal>(rt: &R, stream: &[u8]) -> Vec<u8> {
    let mut messages = Vec::new(rt.alloc());
    let mut rest = stream;
    for _ in 0..stream.len() {
        if let Some((frame, after)) = first_frame(rest) {
            if is_message(frame) {
                messages.extend_from_slice(frame).expect(rt, "memory");
            }
            rest = after;
        }
    }
    messages
}
