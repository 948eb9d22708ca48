//! The words that stand in the picture.

ghost use Rattle.std.specs.Prelude.{◌≡◌, IfOk};
ghost use Rattle.std.specs.String.{string_bytes};
ghost use Rattle.cross_chart.specs.Words.{dollars_text, time_text, left_text, title, outcome_text};

use price_core::{NoMemory, Unmatched};
use session_core::Moment;
use std::alloc::Global;

/// A price in dollars and cents, with four digits where it is no whole number of cents.
#[tactic(auto, unfolding(crate::specs::Words::dollars_text))]
pub fn dollars(alloc: Global, units: u128) -> Result<String, NoMemory>
    ensures { IfOk result (λ text. string_bytes text ≡ dollars_text units) }
{
    let whole = units / 10_000;
    let rest = units % 10_000;
    if rest % 100 == 0 {
        let cents = rest / 100;
        Ok(format!(in alloc; "{whole}.{cents:02}")?)
    } else {
        Ok(format!(in alloc; "{whole}.{rest:04}")?)
    }
}

/// A moment in hours, minutes and seconds.
#[tactic(auto, unfolding(crate::specs::Words::time_text))]
fn time(alloc: Global, moment: Moment) -> Result<String, NoMemory>
    ensures { IfOk result (λ text. string_bytes text ≡ time_text moment) }
{
    let seconds = moment.nanos() / 1_000_000_000;
    let hour = seconds / 3600;
    let minute = seconds / 60 % 60;
    let second = seconds % 60;
    Ok(format!(in alloc; "{hour:02}:{minute:02}:{second:02}")?)
}

/// On which side market orders are left.
fn left_text(left: Unmatched) -> &'static str
    ensures { result.now ≡ left_text left }
{
    match left {
        Unmatched::Nothing => "no market order is left",
        Unmatched::Buy => "market orders that buy are left",
        Unmatched::Sell => "market orders that sell are left",
    }
}

/// What the picture is of.
#[tactic(auto, unfolding(crate::specs::Words::title))]
pub fn title(alloc: Global, symbol: u16, moment: Moment) -> Result<String, NoMemory>
    ensures { IfOk result (λ text. string_bytes text ≡ title symbol moment) }
{
    let time = time(alloc, moment)?;
    Ok(format!(in alloc; "Auction of symbol {symbol} at {time}")?)
}

/// What came of it: the price in ten-thousandths of a dollar, the shares that change hands, and what is left.
#[tactic(auto, unfolding(crate::specs::Words::outcome_text))]
pub fn outcome_text(
    alloc: Global,
    price: u64,
    volume: u64,
    imbalance: u64,
    left: Unmatched,
) -> Result<String, NoMemory>
    ensures { IfOk result (λ text. string_bytes text ≡ outcome_text price volume imbalance left) }
{
    let price = dollars(alloc, u128::from(price))?;
    let left = left_text(left);
    Ok(format!(in alloc;
        "at {price} dollars {volume} shares change hands; the sums of buys and sells differ by {imbalance}; {left}"
    )?)
}
