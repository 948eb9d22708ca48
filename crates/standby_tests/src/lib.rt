//! Tests of a standby: frames as bytes, and a journal that is sent.
#![tactic(auto)]

#[cfg(test)]
mod tests;
