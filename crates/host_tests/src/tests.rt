//! Tests over real files and over memory.

mod bases;
mod disks;
mod host;
mod journal;
mod lost;
mod memory;
mod short;
