//! Reference prices, and when one is adopted.

use super::script::{Step, play};
use super::values::{moment, price, price_or_none};
use Call::{Adopt, Adopted, AwaitsMean, Current, Force, Observe};
use price_core::Cause;
use refprice_core::Reference;
use session_core::Moment;

/// A call of a reference price, with the wanted answer. Times are nanoseconds after 09:30:00, and prices are in
/// ten-thousandths of a dollar.
#[derive(Clone, Copy)]
enum Call {
    /// A time, the price of an opening, the mean, and the cause of a new reference price.
    Observe(u64, Option<u64>, Option<u64>, Option<Cause>),
    /// The end of a limit state at a time, the mean, and the cause of a new reference price.
    Force(u64, Option<u64>, Option<Cause>),
    Adopt(u64, u64),
    Current(Option<u64>),
    Adopted(u64),
    /// Whether a mean is awaited at a time.
    AwaitsMean(u64, bool),
}

/// A moment so many nanoseconds after 09:30:00.
fn after(nanos: u64) -> Moment {
    moment(nanos.wrapping_add(34_200_000_000_000))
}

impl Step<Reference> for Call {
    fn holds(&self, reference: &mut Reference) -> bool {
        match *self {
            Observe(nanos, opening, mean, want) => {
                let (opening, mean) = (price_or_none(opening), price_or_none(mean));
                reference.observe(after(nanos), opening, mean) == want
            }
            Force(nanos, mean, want) => reference.force(after(nanos), price_or_none(mean)) == want,
            Adopt(nanos, units) => {
                reference.adopt(after(nanos), price(units));
                true
            }
            Current(want) => reference.current() == price_or_none(want),
            Adopted(want) => reference.adopted() == after(want),
            AwaitsMean(nanos, want) => reference.awaits_mean(after(nanos)) == want,
        }
    }
}

#[test]
fn a_mean_moves_by_one_per_cent_after_30_seconds(rt: HostRuntime) {
    play(
        &rt,
        &mut Reference::begin(after(0)),
        &[
            Observe(0, Some(500_000), Some(500_000), Some(Cause::First)),
            Current(Some(500_000)),
            Observe(29_999_999_999, None, Some(505_000), None),
            Observe(30_000_000_000, None, Some(504_999), None),
            Observe(30_000_000_000, None, Some(505_000), Some(Cause::Moved)),
            Observe(59_999_999_999, None, Some(400_000), None),
            Observe(60_000_000_000, None, Some(499_951), None),
            Observe(60_000_000_000, None, Some(499_950), Some(Cause::Moved)),
            Adopted(60_000_000_000),
        ],
    )
}

#[test]
fn the_mean_is_the_first_price_from_five_minutes_on(rt: HostRuntime) {
    play(
        &rt,
        &mut Reference::begin(after(0)),
        &[
            Observe(299_999_999_999, None, Some(500_000), None),
            Current(None),
            Adopted(0),
            Observe(300_000_000_000, Some(510_000), None, None),
            Observe(
                300_000_000_000,
                Some(510_000),
                Some(500_000),
                Some(Cause::First),
            ),
            Current(Some(500_000)),
        ],
    )
}

#[test]
fn the_end_of_a_limit_state_takes_any_mean(rt: HostRuntime) {
    play(
        &rt,
        &mut Reference::released(after(0), price(500_000)),
        &[
            Force(1_000_000_000, None, None),
            Current(Some(500_000)),
            Adopted(0),
            Force(2_000_000_000, Some(500_001), Some(Cause::Forced)),
            Current(Some(500_001)),
            Adopted(2_000_000_000),
        ],
    )
}

#[test]
fn a_mean_is_awaited_after_five_minutes_and_then_after_30_seconds(rt: HostRuntime) {
    play(
        &rt,
        &mut Reference::begin(after(0)),
        &[
            AwaitsMean(299_999_999_999, false),
            AwaitsMean(300_000_000_000, true),
            Adopt(300_000_000_000, 500_000),
            Current(Some(500_000)),
            AwaitsMean(329_999_999_999, false),
            AwaitsMean(330_000_000_000, true),
        ],
    )
}
