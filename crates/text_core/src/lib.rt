//! One line of text for each input record and each published frame, printed and read; and streams of them.
#![tactic(auto)]

mod error;
mod field_reading;
mod frame_printing;
mod frame_reading;
mod kind;
mod law;
mod line;
mod output;
mod price_text;
mod record_printing;
mod record_reading;
mod stream;
mod task;
mod translator;
mod value_reading;
mod word;
mod word_reading;
mod writer;

pub use error::BadLine;
pub use field_reading::{moment, number, number16, number32, optional_price, price, split};
pub use frame_printing::print_frame;
pub use frame_reading::read_frame;
pub use kind::Kind;
pub use law::lines_differ;
pub use line::Line;
pub use price_text::put_price;
pub use record_printing::{print_record, write_record};
pub use record_reading::read_record;
pub use stream::{pack_stream, print_stream};
pub use translator::line_len;
pub use value_reading::{read_price, read_time};
pub use word::{phase_word, straddle_word};
pub use word_reading::{is, unmatched};
