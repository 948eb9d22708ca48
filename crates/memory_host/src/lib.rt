//! A host in memory, for tests: it exposes all, keeps what was done, and fails where it was asked to.
#![tactic(auto)]

mod call;
mod effect;
mod keep;
mod ledger;
mod memory;
mod replay;

pub use call::Call;
pub use effect::Pick;
pub use memory::MemoryHost;
