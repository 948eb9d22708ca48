//! The times and durations that the rules name, in nanoseconds. Each stands here once.

/// 09:30:00, at which the session opens, in nanoseconds since midnight (LULD Plan, Section I).
pub const SESSION_OPEN: u64 = 34_200_000_000_000;

/// 09:45:00, before which the first 15 minutes are, in nanoseconds since midnight (LULD Plan, Appendix A).
pub const END_OF_FIRST_15_MINUTES: u64 = 35_100_000_000_000;

/// 16:00:00, the regular close, in nanoseconds since midnight (LULD Plan, Section I).
pub const REGULAR_CLOSE: u64 = 57_600_000_000_000;

/// 13:00:00, the early close, in nanoseconds since midnight.
pub const EARLY_CLOSE: u64 = 46_800_000_000_000;

/// 15 seconds in nanoseconds: how long a limit state lasts before it becomes a trading pause (LULD Plan,
/// Section VII(A)).
pub const FIFTEEN_SECONDS: u64 = 15_000_000_000;

/// 30 seconds in nanoseconds: how long a reference price stands at least (LULD Plan, Section V(A)).
pub const THIRTY_SECONDS: u64 = 30_000_000_000;

/// Five minutes in nanoseconds: the window of the mean and the first minutes of a run (LULD Plan, Section V), and a round
/// of a reopening auction (after Nasdaq Rule 4120).
pub const FIVE_MINUTES: u64 = 300_000_000_000;

/// Ten minutes in nanoseconds: before the close, in which there is no reopening (LULD Plan, Section VII(C)).
pub const TEN_MINUTES: u64 = 600_000_000_000;

/// 15 minutes in nanoseconds: how long a market-wide halt of Level 1 or 2 lasts (NYSE Rule 7.12(b)).
pub const FIFTEEN_MINUTES: u64 = 900_000_000_000;

/// 25 minutes in nanoseconds: before the close, with percentages of their own (LULD Plan, Appendix A).
pub const TWENTY_FIVE_MINUTES: u64 = 1_500_000_000_000;

/// 35 minutes in nanoseconds: before the close, after whose begin no halt of Level 1 or 2 is declared (NYSE
/// Rule 7.12(b)).
pub const THIRTY_FIVE_MINUTES: u64 = 2_100_000_000_000;
