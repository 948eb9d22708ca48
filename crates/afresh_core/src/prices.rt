//! The rules of the reference price and the price bands (LULD Plan, Section V).

ghost use Rattle.std.specs.Prelude.{◌≡◌, [], IfOk, if◌then◌else◌, option_map, option_to_list};
ghost use Rattle.std.specs.Option.{option_map_or};
ghost use Rattle.refprice_core.specs.Prices as prices;
ghost use Rattle.rulebook.specs.History.{last, open_step};
ghost use Rattle.rulebook.specs.Symbol.{bands_of, begun, last_band};
ghost use Rattle.rulebook.specs.Rules.{has_left_limit, release_of, released, opens_on_quotes, offered, mean_now, first_price, adoption, later_price, reference, band, differs, time_changes, band_by_time, publish_band};
ghost use Rattle.afresh_core.specs.Contexts.{context_of};

use crate::context::{Context, phase_now};
use history_core::{
    adopted, begins_trading, begun, last_band, mean, open_step, opening_price, phase, prior_close,
    terms,
};
use pause_core::{is_limit, is_trading};
use percent_core::{bands, category, percent, span};
use price_core::{Bands, Cause, NoMemory, Price};
use refprice_core::{Adoption, Priced, because, forced};
use rulebook::{Banded, Event, Terms};
use session_core::{Day, Moment};
use std::alloc::Global;
use wire_in::{NoticeKind, Record};
use wire_out::Message;

/// The price bands that a reference price gives at a moment of the day.
fn bands_of(listed: &Terms, day: &Day, t: Moment, reference: Price) -> Bands
    ensures { result ≡ bands_of listed.now day.now t reference }
{
    let category = category(listed.prior_close);
    let percent = percent(listed.tier, category, span(t, day), day.profile);
    bands(reference, category, percent, listed.leverage)
}

/// Whether the open step has left a limit state of a symbol.
fn has_left_limit(h: &[Event], symbol: u16) -> bool
    ensures { result ≡ has_left_limit h.now symbol }
{
    let Some((last, earlier)) = h.split_first() else {
        return false;
    };
    match last {
        Event::Accepted(_) => false,
        Event::Published(m) => {
            (begins_trading(symbol, m) && is_limit(phase(earlier, symbol)))
                || has_left_limit(earlier, symbol)
        }
    }
}

/// The price at which a message releases a symbol.
fn release_of(symbol: u16, m: &Message) -> Option<Price>
    ensures { result ≡ release_of symbol m.now }
{
    match *m {
        Message::Release { symbol: of, price } => (of == symbol).then_some(price),
        _ => None,
    }
}

/// The last price at which these events release a symbol.
fn released_in(symbol: u16, h: &[Event]) -> Option<Price>
    ensures { result ≡ option_map (λ release. release.value) (last (release_of symbol) h.now) }
{
    let (last, earlier) = h.split_first()?;
    match last {
        Event::Accepted(_) => released_in(symbol, earlier),
        Event::Published(m) => match release_of(symbol, m) {
            Some(price) => Some(price),
            None => released_in(symbol, earlier),
        },
    }
}

/// The price at which the open step released a symbol.
fn released(h: &[Event], symbol: u16) -> Option<Price>
    ensures { result ≡ released h.now symbol }
{
    released_in(symbol, open_step(h))
}

/// Whether the primary listing exchange says that the opening quotation of a symbol stands.
fn opens_on_quotes(symbol: u16, x: &Record) -> bool
    ensures { result ≡ opens_on_quotes symbol x.now }
{
    match *x {
        Record::Notice {
            symbol: of,
            kind: NoticeKind::OpenQuote,
            ..
        } => of == symbol,
        _ => false,
    }
}

/// The price that the record offers.
fn offered(c: &Context) -> Option<Price>
    ensures { result ≡ offered (context_of c.now) }
{
    match opening_price(&c.day, c.symbol, &c.newest) {
        Some(price) => Some(price),
        None => {
            if opens_on_quotes(c.symbol, &c.newest) {
                prior_close(c.history, c.names, c.symbol)
            } else {
                None
            }
        }
    }
}

/// The mean price of the symbol's trades.
fn mean_now(alloc: Global, c: &Context) -> Result<Option<Price>, NoMemory>
    ensures { IfOk result (λ price. price ≡ mean_now (context_of c.now)) }
{
    mean(alloc, &c.day, c.history, c.symbol)
}

/// The first price of a run whose step released nothing.
fn opening(c: &Context, mean: Option<Price>) -> Option<Price>
    ensures { result ≡ prices.first_price (begun c.now.history.now c.now.symbol) c.now.moment (offered (context_of c.now)) mean }
{
    refprice_core::first_price(begun(c.history, c.symbol), c.moment, offered(c), mean)
}

/// The first price of a run: that of a release, else that of its begin.
fn first_price(alloc: Global, c: &Context) -> Result<Option<Price>, NoMemory>
    ensures { IfOk result (λ price. price ≡ first_price (context_of c.now)) }
{
    match released(c.history, c.symbol) {
        Some(price) => Ok(Some(price)),
        None => {
            let mean = mean_now(alloc, c)?;
            Ok(opening(c, mean))
        }
    }
}

/// The run's last adoption of a reference price.
fn adoption(alloc: Global, c: &Context, b: &Banded) -> Result<Adoption, NoMemory>
    ensures { IfOk result (λ last. last ≡ adoption (context_of c.now) b.now) }
{
    let moment = adopted(alloc, c.history, c.symbol)?;
    let price = b.reference;
    Ok(Adoption { moment, price })
}

/// The mean, where it replaces the run's reference price.
fn moved_price(alloc: Global, c: &Context, b: &Banded) -> Result<Option<Price>, NoMemory>
    ensures { IfOk result (λ price. price ≡ prices.moved_price (adoption (context_of c.now) b.now) c.now.moment (mean_now (context_of c.now))) }
{
    let last = adoption(alloc, c, b)?;
    let mean = mean_now(alloc, c)?;
    Ok(last.moved_price(c.moment, mean))
}

/// The new reference price of a run that is in no limit state, where there is one.
fn later_price(alloc: Global, c: &Context, last: Option<Banded>) -> Result<Option<Priced>, NoMemory>
    ensures { IfOk result (λ price. price ≡ later_price (context_of c.now) last) }
{
    match last {
        Some(banded) => Ok(because(Cause::Moved, moved_price(alloc, c, &banded)?)),
        None => Ok(because(Cause::First, first_price(alloc, c)?)),
    }
}

/// The new reference price of a symbol that trades, where there is one.
fn trading_reference(alloc: Global, c: &Context) -> Result<Option<Priced>, NoMemory>
    ensures { IfOk result (λ price. price ≡ (if has_left_limit c.now.history.now c.now.symbol then prices.forced (mean_now (context_of c.now)) else later_price (context_of c.now) (last_band c.now.history.now c.now.symbol))) }
{
    if has_left_limit(c.history, c.symbol) {
        Ok(forced(mean_now(alloc, c)?))
    } else {
        let last = last_band(alloc, c.history, c.symbol)?;
        later_price(alloc, c, last)
    }
}

/// The new reference price, where there is one.
fn reference(alloc: Global, c: &Context) -> Result<Option<Priced>, NoMemory>
    ensures { IfOk result (λ price. price ≡ reference (context_of c.now)) }
{
    if is_trading(phase_now(c)) {
        trading_reference(alloc, c)
    } else {
        Ok(None)
    }
}

/// The message of the price bands of a reference price.
fn band(c: &Context, cause: Cause, reference: Price) -> Option<Message>
    ensures { option_to_list result ≡ band (context_of c.now) cause reference }
{
    let listed = terms(c.history, c.names, c.symbol)?;
    let bands = bands_of(&listed, &c.day, c.moment, reference);
    let message = Message::Band {
        symbol: c.symbol,
        cause,
        reference,
        lower: bands.lower,
        upper: bands.upper,
    };
    Some(message)
}

fn differs(a: &Bands, b: &Bands) -> bool
    ensures { result ≡ differs a.now b.now }
{
    !(a.lower == b.lower && a.upper == b.upper)
}

/// Whether the time of day changes the price bands.
fn time_changes(c: &Context, last: &Banded) -> bool
    ensures { result ≡ time_changes (context_of c.now) last.now }
{
    match terms(c.history, c.names, c.symbol) {
        Some(listed) => {
            let bands = bands_of(&listed, &c.day, c.moment, last.reference);
            differs(&bands, &last.bands)
        }
        None => false,
    }
}

/// The message of the price bands that the time of day changes.
fn band_by_time(c: &Context, last: &Banded) -> Option<Message>
    ensures { option_to_list result ≡ band_by_time (context_of c.now) last.now }
{
    if is_trading(phase_now(c)) && time_changes(c, last) {
        band(c, Cause::Times, last.reference)
    } else {
        None
    }
}

/// The message of the run's last price bands, where the time of day changes them.
fn last_band_by_time(alloc: Global, c: &Context) -> Result<Option<Message>, NoMemory>
    ensures { IfOk result (λ given. option_to_list given ≡ option_map_or (band_by_time (context_of c.now)) (last_band c.now.history.now c.now.symbol) []) }
{
    match last_band(alloc, c.history, c.symbol)? {
        Some(last) => Ok(band_by_time(c, &last)),
        None => Ok(None),
    }
}

/// Price bands with a new reference price, or where the time of day changes them.
pub fn publish_band(alloc: Global, c: &Context) -> Result<Option<Message>, NoMemory>
    ensures { IfOk result (λ given. option_to_list given ≡ publish_band (context_of c.now)) }
{
    match reference(alloc, c)? {
        Some(priced) => Ok(band(c, priced.cause, priced.price)),
        None => last_band_by_time(alloc, c),
    }
}
