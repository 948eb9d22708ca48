//! What a live session and a replay share: frames that are judged one after the other, kept together, evaluated and
//! answered, and the loop that reads the input.
#![tactic(auto)]

mod engine;
mod input;
mod keeper;
mod refused;
mod reply;
mod round;
mod session;

pub use engine::{Engine, judge};
pub use input::serve_input;
pub use keeper::Keeper;
pub use refused::Refused;
pub use reply::{append_messages, evaluate};
pub use round::{ROUND_MAX, Round};
pub use session::Session;
