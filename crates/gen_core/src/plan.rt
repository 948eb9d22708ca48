//! What a generated day is made of.

/// What a generated day is made of: the seed of its draws, how many symbols are listed, from 1 to 16,384, and how many
/// records follow, at most 100,000,000.
#[derive(Clone, Copy, Debug, PartialEq, Eq)]
pub struct DayPlan {
    pub seed: u64,
    pub symbols: u32,
    pub records: u32,
}
