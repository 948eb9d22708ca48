//! Tests that the market gives what the plain evaluation gives: of worked days, and of records that are drawn.
#![tactic(auto)]

#[cfg(test)]
mod tests;
