//! Parts of the session, phases of a stock, and levels of the market.

/// The part of the session by which percentages are doubled: the first 15 minutes, the last 25, or between
/// (LULD Plan, Appendix A).
#[derive(Clone, Copy, Debug, PartialEq, Eq)]
pub enum Span {
    Middle,
    First15,
    Last25,
}

/// The phase of a stock's trading.
#[derive(Clone, Copy, Debug, PartialEq, Eq)]
pub enum Phase {
    /// Outside the session, or not yet started.
    Shut,
    Trading,
    /// In a limit state at the lower price band (LULD Plan, Section VI).
    LimitLow,
    /// In a limit state at the upper price band (LULD Plan, Section VI).
    LimitHigh,
    /// In a trading pause with a reopening auction (LULD Plan, Section VII).
    Paused,
    /// In a regulatory halt by notice.
    Halted,
    /// Stopped by a market-wide halt (NYSE Rule 7.12).
    Stopped,
    /// Paused in the last ten minutes, with no reopening before the close.
    Closing,
    Closed,
}

/// A level of the market-wide circuit breakers: a decline of 7, 13 or 20 per cent (NYSE Rule 7.12).
#[derive(Clone, Copy, Debug, PartialEq, Eq)]
pub enum Level {
    One,
    Two,
    Three,
}
