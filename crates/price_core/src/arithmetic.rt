//! Means of prices, and moves by a percentage.

ghost use Rattle.std.specs.Prelude.{◌≡◌, ◌*◌, ◌<◌, ◌≤◌, ◌^◌};
ghost use Rattle.price_core.specs.Rounding.{mean, round_cent};
ghost use Rattle.price_core.specs.Moves.{moved_one_percent, fell};

use crate::value::{Index, Price};

/// The mean of n prices with that sum, rounded half up to ten-thousandths of a dollar (LULD Plan, Section V).
pub fn mean(sum: u128, n: u64) -> Price
    requires some { 0 < n }
    requires least { n ≤ sum }
    requires most { sum ≤ 99999999999 * n }
    ensures { result ≡ mean sum n }
{
    if sum < QUICK_SUMS {
        return quick_mean(sum as u64, n);
    }
    let n = u128::from(n);
    Price::of(((2 * sum + n) / (2 * n)) as u64)
}

/// Below it three times a sum fits 64 bits, whose division is much quicker than that of 128.
const QUICK_SUMS: u128 = 1 << 62;

fn quick_mean(sum: u64, n: u64) -> Price
    requires some { 0 < n }
    requires least { n ≤ sum }
    requires most { sum ≤ 99999999999 * n }
    requires quick { sum < 2 ^ 62 }
    ensures { result ≡ mean sum n }
{
    Price::of((2 * sum + n) / (2 * n))
}

/// Whether a price is at least one per cent away from a reference price (LULD Plan, Section V).
pub fn moved_one_percent(price: Price, reference: Price) -> bool
    ensures { result ≡ moved_one_percent price reference }
{
    100 * price.units().abs_diff(reference.units()) >= reference.units()
}

/// The amount of num over den ten-thousandths of a dollar, rounded half up to a whole cent.
pub fn round_cent(num: u128, den: u128) -> u128
    requires some { 0 < den }
    requires small { den ≤ 1000000 }
    requires fits { num < 2 ^ 100 }
    ensures { result ≡ round_cent num den }
{
    100 * ((2 * num + 100 * den) / (200 * den))
}

/// Whether an index value is at least that many per cent below another (NYSE Rule 7.12).
pub fn fell(now: Index, then: Index, percent: u32) -> bool
    requires { percent ≤ 100 }
    ensures { result ≡ fell percent now then }
{
    let rest = u64::from(100 - percent);
    100 * u64::from(now.hundredths()) <= rest * u64::from(then.hundredths())
}
