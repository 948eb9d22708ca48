//! What a status board shows at the end of an input: its records are evaluated in one market, what they publish goes to a
//! board, and the lines of the board are sent.
#![tactic(auto)]

mod desk;
mod law;
mod row;
mod screen;
mod sending;
mod stream;

pub use law::a_board_tells_of_a_replay;
pub use row::Row;
pub use stream::board_stream;
