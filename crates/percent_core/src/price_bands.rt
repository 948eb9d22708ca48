//! Price bands around a reference price (LULD Plan, Section V).

ghost use Rattle.std.specs.Prelude.{◌≡◌, ◌+◌, ◌*◌, ◌<◌, ◌≤◌};
ghost use Rattle.price_core.specs.Rounding.{round_cent};
ghost use Rattle.percent_core.specs.Percentages.{least_percent};
ghost use Rattle.percent_core.specs.PriceBands.{bands, distance_of};

use price_core::{Bands, Category, Leverage, Price};

/// The price bands of a reference price at a percentage and a leverage ratio, in whole cents (LULD Plan, Section V).
pub fn bands(reference: Price, category: Category, percent: u32, leverage: Leverage) -> Bands
    requires least { least_percent category ≤ percent }
    requires most { percent ≤ 150 }
    ensures value { result ≡ bands reference category percent leverage }
    ensures ordered { result.lower < result.upper }
{
    let distance = distance(reference, category, percent, leverage);
    let middle = 1_000 * reference.units();
    let lower = cents(middle.saturating_sub(distance)).max(100);
    let upper = cents(middle + distance)
        .max(lower + 100)
        .min(99_999_999_900);
    Bands {
        lower: Price::of(lower),
        upper: Price::of(upper),
    }
}

/// How far a band is from the reference price, in thousandths of a unit: the percentage times the leverage ratio, and
/// below $0.75 at most $0.15, which doubling and the leverage ratio multiply too (LULD Plan, Appendix A).
fn distance(reference: Price, category: Category, percent: u32, leverage: Leverage) -> u64
    requires least { least_percent category ≤ percent }
    requires most { percent ≤ 150 }
    ensures value { result ≡ distance_of category percent leverage reference }
    ensures most { result ≤ 99999999999 * 7500 }
    ensures far { 1000 * reference ≤ result + 99999998500000 }
{
    match category {
        Category::Below => {
            let most = 2_000 * u64::from(percent) * u64::from(leverage.tenths());
            share(reference, percent, leverage).min(most)
        }
        Category::Middle | Category::Above => share(reference, percent, leverage),
    }
}

/// A percentage of the reference price times the leverage ratio, in thousandths of a unit.
fn share(reference: Price, percent: u32, leverage: Leverage) -> u64
    requires least { 5 ≤ percent }
    requires most { percent ≤ 150 }
    ensures value { result ≡ reference * percent * leverage }
    ensures least { 50 * reference ≤ result }
    ensures most { result ≤ 99999999999 * 7500 }
{
    let part = reference.units() * u64::from(percent);
    prove!(part <= 99_999_999_999 * 150);
    prove!(5 * reference.units() <= part);
    part * u64::from(leverage.tenths())
}

/// Thousandths of a unit, rounded half up to a whole cent in units.
fn cents(thousandths: u64) -> u64
    requires { thousandths ≤ 99999999999 * 8500 }
    ensures { result ≡ round_cent thousandths 1000 }
{
    100 * ((2 * thousandths + 100_000) / 200_000)
}
