//! Tests of frames: records, published frames and their bytes.

mod bases;
mod bytes;
mod published;
mod records;
mod table;
