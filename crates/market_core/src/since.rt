//! From when on, and over which market, alarms of stocks hold.

ghost use Rattle.std.specs.Prelude.{◌≡◌, ◌≤◌, ℕ, true, Some, IfSome, List, length};
ghost use Rattle.symbol_core.specs.Rests.{SymbolState};
ghost use Rattle.symbol_core.specs.Ticks.{Idles};
ghost use Rattle.market_core.specs.Sections.{EachIdles, IdlesUntil};

use alarms::Alarms;
use session_core::Moment;
use symbol_core::{MarketView, Symbol};

/// From when on, and over which market, the alarms of a section hold.
#[derive(Clone, Copy, Debug)]
pub struct Since {
    pub from: Moment,
    pub market: MarketView,
}

/// The alarm of a stock of which nothing is known: each tick may bring it something.
pub(crate) const ALWAYS_DUE: u64 = 0;

/// The alarm of a place without a stock: no tick comes as late.
pub(crate) const NEVER_DUE: u64 = u64::MAX;

/// Whether what holds from a moment on over a market holds since another.
fn includes(from: Moment, market: &MarketView, since: &Since) -> bool
    ensures { result ≡ true → (alarm : ℕ) (held : SymbolState) → Idles market.now from alarm held → IdlesUntil (Some since.now) alarm held }
{
    from.nanos() <= since.from.nanos() && market.is_same(since.market)
}

/// Whether the alarms that held hold from now on.
fn still_holds(since: &Option<Since>, now: &Since) -> bool
    ensures { result ≡ true → (alarm : ℕ) (held : SymbolState) → IdlesUntil since.now alarm held → IdlesUntil (Some now.now) alarm held }
{
    match since {
        Some(since) => includes(since.from, &since.market, now),
        None => false,
    }
}

/// Keeps alarms where they hold from now on, and makes the places of so many stocks due where they don't.
pub(crate) fn renew(alarms: &mut Alarms, count: usize, since: &Option<Since>, now: &Since)
    requires { count ≤ length alarms.old }
    ensures idles { (symbols : List SymbolState) → length symbols ≤ count → EachIdles since.now alarms.old symbols → EachIdles (Some now.now) alarms.new symbols }
    ensures len { length alarms.new ≡ length alarms.old }
{
    if still_holds(since, now) {
        return;
    }
    alarms.make_due(count);
}

/// Lets time pass: what holds from one moment on holds from a later one on.
pub(crate) fn pass(since: &mut Option<Since>, t: Moment)
    ensures idles { (alarm : ℕ) (held : SymbolState) → IdlesUntil since.old alarm held → IdlesUntil since.new alarm held }
    ensures same { (market : MarketView) → since.old ≡ Some (record { from = t; market = market }) → since.new ≡ since.old }
    ensures later { IfSome since.new (λ since. t ≤ since.from) }
{
    if let Some(since) = since {
        if since.from.nanos() < t.nanos() {
            since.from = t;
        }
    }
}

/// A moment before which the ticks since then bring a stock nothing, in nanoseconds of the day.
fn alarm_since(symbol: &Symbol, since: &Since) -> u64
    ensures { IdlesUntil (Some since.now) result symbol.now }
{
    match symbol.due() {
        // Asked of the market where it lies: a copy of what was just written by parts would wait for them all.
        Some(due) => {
            if includes(due.from, &due.market, since) {
                due.until
            } else {
                ALWAYS_DUE
            }
        }
        None => ALWAYS_DUE,
    }
}

/// The same, where it may not be known since when alarms hold.
pub(crate) fn alarm_of(symbol: &Symbol, since: &Option<Since>) -> u64
    ensures { IdlesUntil since.now result symbol.now }
{
    match since {
        Some(since) => alarm_since(symbol, since),
        None => ALWAYS_DUE,
    }
}
