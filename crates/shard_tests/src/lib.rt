//! Tests of work that threads share, and of blocks of records, in parts and by threads.
#![tactic(auto)]

#[cfg(test)]
mod square;
#[cfg(test)]
mod tests;
