//! Conditions of trades.

use super::script::{Step, check};
use super::values::{day, moment};
use Row::{Eligible, Opening, Says};
use eligible_core::{Condition, eligible, opening};
use session_core::Close;

/// A row with the wanted answer.
#[derive(Clone, Copy)]
enum Row {
    /// Whether a trade counts: the close of its day, its second of the day and its condition bits.
    Eligible(Close, u64, u16, bool),
    /// Whether a trade with these condition bits is one of an opening.
    Opening(u16, bool),
    /// What the condition bit of a number says.
    Says(u32, Condition),
}

impl Step<()> for Row {
    fn holds(&self, _: &mut ()) -> bool {
        match *self {
            Eligible(close, seconds, flags, want) => {
                let t = moment(seconds.wrapping_mul(1_000_000_000));
                flags < 1024 && eligible(flags, t, &day(close)) == want
            }
            Opening(flags, want) => opening(flags) == want,
            Says(bit, want) => bit < 16 && Condition::of(bit) == want,
        }
    }
}

#[test]
fn seven_of_the_ten_condition_bits_bar_a_trade(rt: HostRuntime) {
    check(
        &rt,
        &[
            Eligible(Close::Regular, 36_000, 0x0000, true),
            Eligible(Close::Regular, 36_000, 0x0001, true),
            Eligible(Close::Regular, 36_000, 0x0002, false),
            Eligible(Close::Regular, 36_000, 0x0004, false),
            Eligible(Close::Regular, 36_000, 0x0008, false),
            Eligible(Close::Regular, 36_000, 0x0010, false),
            Eligible(Close::Regular, 36_000, 0x0020, false),
            Eligible(Close::Regular, 36_000, 0x0040, false),
            Eligible(Close::Regular, 36_000, 0x0080, false),
            Eligible(Close::Regular, 36_000, 0x0100, true),
            Eligible(Close::Regular, 36_000, 0x0200, true),
            Eligible(Close::Regular, 36_000, 0x0301, true),
            Eligible(Close::Regular, 36_000, 0x0303, false),
            Eligible(Close::Regular, 36_000, 0x03ff, false),
        ],
    )
}

#[test]
fn a_trade_counts_in_the_session_alone(rt: HostRuntime) {
    check(
        &rt,
        &[
            Eligible(Close::Regular, 34_199, 0x0100, false),
            Eligible(Close::Regular, 34_200, 0x0100, true),
            Eligible(Close::Regular, 57_599, 0x0100, true),
            Eligible(Close::Regular, 57_600, 0x0100, false),
            Eligible(Close::Early, 46_799, 0x0100, true),
            Eligible(Close::Early, 46_800, 0x0100, false),
        ],
    )
}

#[test]
fn the_lowest_bit_marks_an_opening_trade(rt: HostRuntime) {
    check(
        &rt,
        &[
            Opening(0x0001, true),
            Opening(0x0203, true),
            Opening(0x0000, false),
            Opening(0x03fe, false),
        ],
    )
}

#[test]
fn the_six_upper_bits_are_not_assigned(rt: HostRuntime) {
    check(
        &rt,
        &[
            Says(10, Condition::NotAssigned),
            Says(11, Condition::NotAssigned),
            Says(12, Condition::NotAssigned),
            Says(13, Condition::NotAssigned),
            Says(14, Condition::NotAssigned),
            Says(15, Condition::NotAssigned),
            Says(9, Condition::BarsNothing),
            Says(7, Condition::Bars),
        ],
    )
}
