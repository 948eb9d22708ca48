//! The records of the session, drawn one after the other.

ghost use Rattle.std.specs.Prelude.{◌≡◌, ◌+◌, ◌-◌, ◌%◌, ◌<◌, ◌≤◌, length, slice_index, slice_set};
ghost use Rattle.session_core.specs.Moments.{IsMoment};
ghost use Rattle.gen_core.specs.Draws.{next_number, answer_of, number_after, draw};
ghost use Rattle.gen_core.specs.Generated.{IsPlan, moment_of, is_clock, close_of, middle, traded_price, index_tick, quote, trade, record_of_kind, session_record, symbol_drawn, draws_of};
ghost use Rattle.gen_core.specs.InternalState.{IsGap, flags_after};
ghost use Rattle.wire_in.specs.declared.record.Record.TheVariants as records;

use crate::draws::Draws;
use crate::modulus::Modulus;
use crate::plan::DayPlan;
use crate::start::close_of;
use price_core::{Index, OptionalPrice, Price};
use session_core::{Moment, SESSION_OPEN};
use wire_in::Record;

/// Over how many nanoseconds the records are spread.
const SPREAD: u64 = 23_400_000_000_000;

/// In nanoseconds.
const SECOND: u64 = 1_000_000_000;

/// How many nanoseconds the records are apart, where there are any.
pub fn gap_of(plan: &DayPlan) -> u64
    ensures { IsGap plan.now result }
{
    if plan.records == 0 {
        0
    } else {
        SPREAD / u64::from(plan.records)
    }
}

/// The moment of the record k, in nanoseconds, where the records are so far apart.
fn nanos_of(plan: &DayPlan, gap: u64, k: u32) -> u64
    requires record { k < plan.now.records }
    requires gap { IsGap plan.now gap }
    ensures value { result ≡ moment_of plan.now k }
    ensures range { IsMoment result }
{
    let _ = plan;
    SESSION_OPEN + u64::from(k) * gap
}

/// Whether the record k is a clock: its second began less than a gap before it, and so behind the record before it.
fn is_clock(plan: &DayPlan, gap: u64, k: u32) -> bool
    requires record { k < plan.now.records }
    requires gap { IsGap plan.now gap }
    ensures { result ≡ is_clock plan.now k }
{
    k == 0 || nanos_of(plan, gap, k) % SECOND < gap
}

/// Draws an index tick.
#[inline(always)]
fn index_tick(moment: Moment, draws: &mut Draws) -> Record
    ensures record { result ≡ index_tick moment (draw draws.old.number 1) }
    ensures number { draws.new.number ≡ number_after draws.old.number 1 }
{
    let below = draws.below(36_000) as u32;
    Record::IndexTick {
        moment,
        value: Index::new(500_000 - below).unwrap(),
    }
}

/// Draws a symbol.
fn symbol(symbols: &Modulus, draws: &mut Draws) -> u16
    requires { symbols.now ≤ 16384 }
    ensures value { result ≡ draw draws.old.number 1 % symbols.now }
    ensures range { result < symbols.now }
    ensures number { draws.new.number ≡ number_after draws.old.number 1 }
{
    draws.modulo(symbols) as u16
}

/// Draws the middle of a quotation.
fn middle(close: u64, draws: &mut Draws) -> u64
    requires { (200000 ≤ close) × (close ≤ 2000000) }
    ensures value { result ≡ middle close (draw draws.old.number 1) }
    ensures range { (1000 ≤ result) × (result ≤ 3000000) }
    ensures number { draws.new.number ≡ number_after draws.old.number 1 }
{
    close - 6 * close / 100 + draws.below(12 * close / 100 + 1)
}

/// Draws a quotation.
#[inline(always)]
fn quote(moment: Moment, symbols: &Modulus, draws: &mut Draws) -> Record
    requires { symbols.now ≤ 16384 }
    ensures record { result ≡ quote moment (draw draws.old.number 1 % symbols.now) (draw draws.old.number 2) }
    ensures number { draws.new.number ≡ number_after draws.old.number 2 }
{
    let symbol = symbol(symbols, draws);
    let middle = middle(close_of(symbol), draws);
    Record::Quote {
        moment,
        symbol,
        bid: OptionalPrice::of(Some(Price::of(middle - 100))),
        offer: OptionalPrice::of(Some(Price::of(middle + 100))),
        bid_size: 100,
        offer_size: 100,
    }
}

/// Draws the price of a trade.
fn traded_price(close: u64, draws: &mut Draws) -> u64
    requires { (200000 ≤ close) × (close ≤ 2000000) }
    ensures value { result ≡ traded_price close (draw draws.old.number 1) }
    ensures range { (1000 ≤ result) × (result ≤ 3000000) }
    ensures number { draws.new.number ≡ number_after draws.old.number 1 }
{
    close - close / 25 + draws.below(2 * (close / 25) + 1)
}

/// Draws a trade. The next trade of its symbol has no flags.
#[inline(always)]
fn trade(
    moment: Moment,
    symbols: &Modulus,
    number: u32,
    draws: &mut Draws,
    flags: &mut [u16],
) -> Record
    requires symbols { symbols.now ≡ length flags.old }
    requires few { length flags.old ≤ 16384 }
    ensures record { result ≡ trade moment (draw draws.old.number 1 % length flags.old) number (slice_index flags.old (draw draws.old.number 1 % length flags.old)) (draw draws.old.number 2) }
    ensures number { draws.new.number ≡ number_after draws.old.number 2 }
    ensures flags { flags.new ≡ slice_set flags.old (draw draws.old.number 1 % length flags.old) 0 }
{
    let symbol = symbol(symbols, draws);
    let price = Price::of(traded_price(close_of(symbol), draws));
    let own_flags = flags[usize::from(symbol)];
    flags[usize::from(symbol)] = 0;
    Record::Trade {
        moment,
        symbol,
        number,
        price,
        size: 100,
        flags: own_flags,
    }
}

/// Draws the record k of a kind.
#[inline(always)]
fn record_of_kind(
    kind: u64,
    moment: Moment,
    symbols: &Modulus,
    k: u32,
    draws: &mut Draws,
    flags: &mut [u16],
) -> Record
    requires symbols { symbols.now ≡ length flags.old }
    requires few { length flags.old ≤ 16384 }
    ensures record { result ≡ record_of_kind kind moment k (draw draws.old.number 1 % length flags.old) (slice_index flags.old (draw draws.old.number 1 % length flags.old)) (draw draws.old.number 1) (draw draws.old.number 2) }
    ensures number { draws.new.number ≡ number_after draws.old.number (draws_of result - 1) }
    ensures flags { flags.new ≡ flags_after result flags.old }
{
    if kind == 0 {
        index_tick(moment, draws)
    } else if kind <= 9 {
        quote(moment, symbols, draws)
    } else {
        trade(moment, symbols, k, draws, flags)
    }
}

/// The record k: a clock, or one that is drawn.
#[inline(always)]
pub fn session_record(
    plan: &DayPlan,
    gap: u64,
    symbols: &Modulus,
    k: u32,
    draws: &mut Draws,
    flags: &mut [u16],
) -> Record
    requires plan { IsPlan plan.now }
    requires gap { IsGap plan.now gap }
    requires symbols { symbols.now ≡ plan.now.symbols }
    requires record { k < plan.now.records }
    requires flags { length flags.old ≡ plan.now.symbols }
    ensures record { result ≡ session_record plan.now k draws.old.number (slice_index flags.old (symbol_drawn plan.now draws.old.number)) }
    ensures number { draws.new.number ≡ number_after draws.old.number (draws_of result) }
    ensures flags { flags.new ≡ flags_after result flags.old }
{
    let moment = Moment::new(nanos_of(plan, gap, k)).unwrap();
    if is_clock(plan, gap, k) {
        return Record::Clock { moment };
    }
    let kind = draws.below(16);
    record_of_kind(kind, moment, symbols, k, draws, flags)
}
