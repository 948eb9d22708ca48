//! Tests of frames.
#![tactic(auto)]

#[cfg(test)]
mod tests;
