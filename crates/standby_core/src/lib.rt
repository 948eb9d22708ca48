//! A second journal with the records of a first: the frames that carry records to it, and the command that sends them.
#![tactic(auto)]

mod decoding;
mod encoding;
mod judging;
mod keeping;
mod law;
mod opening;
mod reading;
mod replying;
mod round;
mod shipping;
mod standing;

pub use decoding::{BadFrame, get_have, get_part};
pub use encoding::{put_have, put_part};
pub use keeping::standby;
pub use law::{a_standby_takes_over, one_have, one_list_is_kept, one_part};
pub use shipping::ship;
