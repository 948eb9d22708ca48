//! The rules of limit states and straddle states (LULD Plan, Sections VI(B) and VII(A)).

ghost use Rattle.std.specs.Prelude.{◌≡◌, [], false, IfOk, option_to_list};
ghost use Rattle.std.specs.Option.{option_map_or};
ghost use Rattle.limit_core.specs.Limits.{is_at_lower, is_at_upper, straddles};
ghost use Rattle.rulebook.specs.Symbol.{quote, last_band};
ghost use Rattle.rulebook.specs.Rules.{meets, at_band, is_at_band, leave_limit, enter_limit, is_straddling_now, straddle};
ghost use Rattle.afresh_core.specs.Contexts.{context_of};

use crate::context::{Context, phase_now, state};
use history_core::{last_band, quote, was_straddling};
use limit_core::{is_at_lower, is_at_upper, straddles};
use pause_core::{is_limit, is_trading};
use price_core::{NoMemory, Quotation};
use rulebook::Banded;
use session_core::Phase;
use std::alloc::Global;
use wire_out::Message;

/// Whether a quotation is at the lower price band, where there are both.
fn meets_lower(q: Option<Quotation>, b: Option<Banded>) -> bool
    ensures { result ≡ meets is_at_lower q b }
{
    match (b, q) {
        (Some(b), Some(q)) => is_at_lower(&q, &b.bands),
        _ => false,
    }
}

/// Whether a quotation is at the upper price band, where there are both.
fn meets_upper(q: Option<Quotation>, b: Option<Banded>) -> bool
    ensures { result ≡ meets is_at_upper q b }
{
    match (b, q) {
        (Some(b), Some(q)) => is_at_upper(&q, &b.bands),
        _ => false,
    }
}

/// Whether a quotation straddles the price bands, where there are both.
fn meets_straddling(q: Option<Quotation>, b: Option<Banded>) -> bool
    ensures { result ≡ meets straddles q b }
{
    match (b, q) {
        (Some(b), Some(q)) => straddles(&q, &b.bands),
        _ => false,
    }
}

/// Whether a quotation is at the price band of that limit state.
fn at_band(phase: Phase, q: Option<Quotation>, b: Option<Banded>) -> bool
    ensures { result ≡ at_band phase q b }
{
    match phase {
        Phase::LimitLow => meets_lower(q, b),
        Phase::LimitHigh => meets_upper(q, b),
        _ => false,
    }
}

/// Whether the run's last quotation is at that side of its last price bands.
fn is_at_band(alloc: Global, phase: Phase, c: &Context) -> Result<bool, NoMemory>
    ensures { IfOk result (λ at. at ≡ is_at_band phase (context_of c.now)) }
{
    let quote = quote(alloc, c.history, c.symbol)?;
    let band = last_band(alloc, c.history, c.symbol)?;
    Ok(at_band(phase, quote, band))
}

/// The end of a limit state.
pub fn leave_limit(alloc: Global, c: &Context) -> Result<Option<Message>, NoMemory>
    ensures { IfOk result (λ given. option_to_list given ≡ leave_limit (context_of c.now)) }
{
    let phase = phase_now(c);
    if is_limit(phase) && !is_at_band(alloc, phase, c)? {
        Ok(Some(state(c, Phase::Trading)))
    } else {
        Ok(None)
    }
}

/// A limit state.
pub fn enter_limit(alloc: Global, c: &Context) -> Result<Option<Message>, NoMemory>
    ensures { IfOk result (λ given. option_to_list given ≡ enter_limit (context_of c.now)) }
{
    if !is_trading(phase_now(c)) {
        Ok(None)
    } else if is_at_band(alloc, Phase::LimitLow, c)? {
        Ok(Some(state(c, Phase::LimitLow)))
    } else if is_at_band(alloc, Phase::LimitHigh, c)? {
        Ok(Some(state(c, Phase::LimitHigh)))
    } else {
        Ok(None)
    }
}

/// Whether the symbol is in a straddle state.
fn is_straddling_now(alloc: Global, c: &Context) -> Result<bool, NoMemory>
    ensures { IfOk result (λ straddling. straddling ≡ is_straddling_now (context_of c.now)) }
{
    let quote = quote(alloc, c.history, c.symbol)?;
    let band = last_band(alloc, c.history, c.symbol)?;
    Ok(is_trading(phase_now(c)) && meets_straddling(quote, band))
}

/// A straddle state, and its end.
pub fn straddle(alloc: Global, c: &Context) -> Result<Option<Message>, NoMemory>
    ensures { IfOk result (λ given. option_to_list given ≡ straddle (context_of c.now)) }
{
    let symbol = c.symbol;
    let on = is_straddling_now(alloc, c)?;
    let was = was_straddling(c.history, symbol);
    if on && !was {
        Ok(Some(Message::Straddle { symbol, on: true }))
    } else if was && !on {
        Ok(Some(Message::Straddle { symbol, on: false }))
    } else {
        Ok(None)
    }
}
