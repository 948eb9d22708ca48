//! Tests of the whole program: words, an input and a disk in memory, and what is sent.
#![tactic(auto)]

#[cfg(test)]
mod tests;
