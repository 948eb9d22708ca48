//! Bytes that wait to be sent, and the input read piece by piece.
#![tactic(auto)]

mod answerer;
mod answering;
mod ended;
mod input;
mod outbox;

pub use answerer::Answerer;
pub use answering::answer_input;
pub use ended::answer_of;
pub use input::{PIECE, exchange};
pub use outbox::Outbox;
