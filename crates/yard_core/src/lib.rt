//! A table of claimed work: each job is claimed by one seat, worked and given back, by as many workers as there are seats.
#![tactic(auto)]

mod close;
mod gate;
mod job;
mod law;
mod open;
mod room;
mod rule;
mod view;
mod workers;
mod yard;

pub use gate::{Gate, OpenGate};
pub use job::Job;
pub use law::each_piece_once;
pub use view::SeatView;
pub use workers::work_all;
pub use yard::{Claim, Yard, YardSeat};
