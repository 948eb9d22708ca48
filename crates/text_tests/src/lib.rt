//! Tests of lines, of streams of them, of the words of a process, and of pictures.
#![tactic(auto)]

#[cfg(test)]
mod tests;
