//! What input frames and published frames share: the fields of a body at their offsets, and how a frame is written.
#![tactic(auto)]

mod buffer;
mod field;
#[cfg(test)]
mod tests;

pub use buffer::{put, put_u16, put_u32, put_u64};
pub use field::{
    index_at, moment_at, name_at, optional_price_at, price_at, u16_at, u32_at, u64_at,
};
