//! Tests of calls of a stock and of the market that no worked day shows: when a stock is due, what an admission tells, and
//! that ticks take no time for each trade.
#![tactic(auto)]

#[cfg(test)]
mod tests;
