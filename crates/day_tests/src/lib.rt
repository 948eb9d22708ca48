//! Tests of the generated day, sent and summed up.
#![tactic(auto)]

#[cfg(test)]
mod tests;
