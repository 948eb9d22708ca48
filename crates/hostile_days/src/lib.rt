//! Tests of hostile use: sessions that are stopped at any of their calls, calls that fail, journals that were damaged, and
//! bytes that say nothing.
#![tactic(auto)]

#[cfg(test)]
mod tests;
