//! Which trades count for the reference price (LULD Plan, Section I).

ghost use Rattle.std.specs.Prelude.{◌≡◌, ◌<◌};
ghost use Rattle.eligible_core.specs.Conditions.{eligible, is_opening_trade, has_barring_bit, is_set};

use session_core::{Day, Moment, in_session};

/// The condition bits that bar a trade: those of which `Condition::of` says so.
const BARRING_BITS: u16 = 0b1111_1110;

/// Whether a trade with these condition bits counts in means and for the short sale restriction: it is in the session,
/// and none of its bits bars it. The six upper bits are not assigned, and bar nothing.
pub fn eligible(flags: u16, t: Moment, day: &Day) -> bool
    ensures { result ≡ eligible flags t day.now }
{
    in_session(t, day) && !has_barring_bit(flags)
}

/// Whether a trade with these condition bits is an opening or reopening trade of the primary listing exchange.
pub fn opening(flags: u16) -> bool
    ensures { result ≡ is_opening_trade flags }
{
    is_set(flags, 0)
}

/// Whether one of the condition bits bars the trade.
fn has_barring_bit(flags: u16) -> bool
    ensures { result ≡ has_barring_bit flags }
{
    flags & BARRING_BITS != 0
}

/// Whether the condition bit of that number is set.
fn is_set(flags: u16, bit: u32) -> bool
    requires { bit < 16 }
    ensures { result ≡ is_set flags bit }
{
    flags >> bit & 1 == 1
}
