//! Ranges of ids that have about the same load each.

ghost use Rattle.std.specs.Prelude.{◌≡◌, ℕ, ◌+◌, ◌*◌, ◌<◌, ◌≤◌, length, take, sum, IfOk};
ghost use Rattle.rulebook.specs.Admission.{most_names};
ghost use Rattle.shard_core.specs.Shares.{AreRangeEnds};
ghost use Rattle.shard_core.specs.Prefix.{IsPrefix};

use price_core::NoMemory;
use std::alloc::Global;

/// So many of the first loads, and their sum.
#[derive(Clone, Copy)]
struct Prefix {
    count: usize,
    sum: u64,
}

/// The sum of all loads.
pub fn sum_of(loads: &[u32]) -> u64
    requires { length loads.now ≤ most_names }
    ensures value { result ≡ sum loads.now }
    ensures few { result ≤ 70368744161280 }
{
    let mut prefix = Prefix { count: 0, sum: 0 };
    while prefix.count < loads.len() {
        prefix = one_more(loads, prefix);
    }
    prefix.sum
}

/// One load more.
fn one_more(loads: &[u32], prefix: Prefix) -> Prefix
    requires prefix { IsPrefix loads.now prefix.count prefix.sum }
    requires more { prefix.count < length loads.now }
    requires few { length loads.now ≤ most_names }
    ensures prefix { IsPrefix loads.now result.count result.sum }
    ensures count { result.count ≡ prefix.count + 1 }
{
    Prefix {
        count: prefix.count + 1,
        sum: prefix.sum + u64::from(loads[prefix.count]),
    }
}

/// As few further loads as bring so many times their sum up to what is wanted.
fn advance(loads: &[u32], prefix: Prefix, times: u64, wanted: u64) -> Prefix
    requires prefix { IsPrefix loads.now prefix.count prefix.sum }
    requires few { (length loads.now ≤ most_names) × (times ≤ 191) }
    requires within { wanted ≤ times * sum loads.now }
    requires before { (fewer : ℕ) → fewer < prefix.count → times * sum (take fewer loads.now) < wanted }
    ensures prefix { IsPrefix loads.now result.count result.sum }
    ensures reached { wanted ≤ times * sum (take result.count loads.now) }
    ensures least { (fewer : ℕ) → fewer < result.count → times * sum (take fewer loads.now) < wanted }
{
    let mut prefix = prefix;
    while times * prefix.sum < wanted {
        prefix = one_more(loads, prefix);
    }
    prefix
}

/// The upper ends of as many ranges of ids as are asked for, from 1 to 191, which cover at most 16,384 ids and have about
/// the same load each. The last one ends with the last id.
pub fn cut(alloc: Global, loads: &[u32], ranges: u32) -> Result<Vec<u32>, NoMemory>
    requires ranges { (0 < ranges) × (ranges ≤ 191) }
    requires loads { length loads.now ≤ most_names }
    ensures { IfOk result (λ ends. AreRangeEnds loads.now ranges ends.items) }
{
    let mut ends = Vec::with_capacity(alloc, ranges as usize)?;
    let whole = sum_of(loads);
    let mut prefix = Prefix { count: 0, sum: 0 };
    for share in 1..ranges {
        prefix = advance(loads, prefix, u64::from(ranges), u64::from(share) * whole);
        ends.push_reserved(prefix.count as u32);
    }
    ends.push_reserved(loads.len() as u32);
    Ok(ends)
}
