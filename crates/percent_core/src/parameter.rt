//! The percentages of price bands (LULD Plan, Appendix A).

ghost use Rattle.std.specs.Prelude.{◌≡◌, ◌<◌, ◌≤◌};
ghost use Rattle.percent_core.specs.Percentages.{category, least_percent, percent, span};
ghost use Rattle.percent_core.specs.Keys.{key_of};

use case_table::{Case, Cases, cases};
use price_core::{Category, Price, Tier};
use session_core::{Day, END_OF_FIRST_15_MINUTES, Moment, Profile, Span, last_25};

/// The percentages of a reference price (after the LULD Plan, Appendix A), by the tier, the price category and the part of
/// the session, first since Amendment 18 and then before it. The first rows are those of most stocks, since a search ends at
/// the row that matches.
const ROWS: [Case; 19] = cases! {
    55 0 => 5; // above $3.00, Tier 1, not in the last 25 minutes
    39 1 => 10; // above $3.00, Tier 2
    55 16 => 10; // above $3.00, Tier 1, in the last 25 minutes
    54 2 => 20; // from $0.75 to $3.00, not in the last 25 minutes
    54 18 => 40; // from $0.75 to $3.00, in the last 25 minutes
    52 4 => 75; // below $0.75, not in the last 25 minutes
    52 20 => 150; // below $0.75, in the last 25 minutes
    63 32 => 5; // before, above $3.00, Tier 1, between the first 15 and the last 25 minutes
    63 40 => 10; // before, above $3.00, Tier 1, in the first 15 minutes
    55 48 => 10; // before, above $3.00, Tier 1, in the last 25 minutes
    63 33 => 10; // before, above $3.00, Tier 2, between
    63 41 => 20; // before, above $3.00, Tier 2, in the first 15 minutes
    55 49 => 20; // before, above $3.00, Tier 2, in the last 25 minutes
    62 34 => 20; // before, from $0.75 to $3.00, between
    62 42 => 40; // before, from $0.75 to $3.00, in the first 15 minutes
    54 50 => 40; // before, from $0.75 to $3.00, in the last 25 minutes
    60 36 => 75; // before, below $0.75, between
    60 44 => 150; // before, below $0.75, in the first 15 minutes
    52 52 => 150; // before, below $0.75, in the last 25 minutes
};

const PERCENTAGES: Cases<19> = Cases {
    keys: 64,
    rows: ROWS,
};

/// The price category of a stock by its prior close; above $3.00 where there is none (LULD Plan, Appendix A).
pub fn category(close: Option<Price>) -> Category
    ensures { result ≡ category close }
{
    match close {
        Some(close) if close.units() < 7_500 => Category::Below,
        Some(close) if close.units() <= 30_000 => Category::Middle,
        _ => Category::Above,
    }
}

/// The part of the session by which percentages are doubled (LULD Plan, Appendix A).
pub fn span(t: Moment, day: &Day) -> Span
    ensures { result ≡ span t day.now }
{
    if last_25(t, day) {
        Span::Last25
    } else if t.nanos() < END_OF_FIRST_15_MINUTES {
        Span::First15
    } else {
        Span::Middle
    }
}

/// The percentage of a reference price before the leverage ratio (after the LULD Plan, Appendix A).
pub fn percent(tier: Tier, category: Category, span: Span, profile: Profile) -> u32
    ensures value { result ≡ percent profile tier category span }
    ensures least { least_percent category ≤ result }
    ensures most { result ≤ 150 }
{
    PERCENTAGES.pick(key(tier, category, span, profile))
}

/// The key of the table: a bit for the tier, two for the category, two for the part of the session and one for the
/// profile.
fn key(tier: Tier, category: Category, span: Span, profile: Profile) -> u32
    ensures value { result ≡ key_of tier category span profile }
    ensures below { result < 64 }
{
    tier as u32 + 2 * category as u32 + 8 * span as u32 + 32 * profile as u32
}
