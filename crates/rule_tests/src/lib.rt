//! Tests of values, of tables of cases and of alarms, of the rules of a single stock, of the market-wide circuit breakers, of the
//! reopening cross and of the laws of frames.
#![tactic(auto)]

#[cfg(test)]
mod tests;
