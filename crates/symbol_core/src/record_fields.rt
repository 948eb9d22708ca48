//! What a record says of a symbol.

ghost use Rattle.std.specs.Prelude.{◌≡◌, ◌+◌};
ghost use Rattle.session_core.specs.Durations.{five_minutes};
ghost use Rattle.rulebook.specs.Auction.{indicated_by};
ghost use Rattle.rulebook.specs.Rules.{asks_to_pause, opens_on_quotes};
ghost use Rattle.rulebook.specs.Symbol.{opening_price, opens_before, traded_price};
ghost use Rattle.symbol_core.specs.Idle.{comes_often};
ghost use Rattle.symbol_core.specs.Kept.{quoted_by};
ghost use Rattle.symbol_core.specs.Taken.{cancelled_by, deal_of, halted_by, listed_by};

use crate::state::Step;
use eligible_core::{eligible, opening};
use price_core::{Price, Quotation};
use refprice_core::is_in_opening_period;
use reopen_core::Indication;
use rulebook::Terms;
use session_core::Moment;
use window_core::Deal;
use wire_in::{NoticeKind, Record};

pub fn quoted_by(id: u16, x: &Record) -> Option<Quotation>
    ensures { result ≡ quoted_by id x.now }
{
    match *x {
        Record::Quote {
            symbol,
            bid,
            offer,
            ..
        } if symbol == id => Some(Quotation { bid, offer }),
        _ => None,
    }
}

pub fn indicated_by(id: u16, x: &Record) -> Option<Indication>
    ensures { result ≡ indicated_by id x.now }
{
    match *x {
        Record::Indication {
            symbol,
            price,
            unmatched,
            ..
        } if symbol == id => Some(Indication { price, unmatched }),
        _ => None,
    }
}

/// Today's listing once a record is taken in.
pub fn listed_by(x: &Record, before: Option<Terms>) -> Option<Terms>
    ensures { result ≡ listed_by x.now before }
{
    match *x {
        Record::Listing {
            tier,
            leverage,
            close,
            ..
        } => Some(Terms {
            tier,
            leverage,
            prior_close: close,
        }),
        _ => before,
    }
}

/// Whether a regulatory halt is in effect once a record is taken in.
pub fn halted_by(id: u16, x: &Record, before: bool) -> bool
    ensures { result ≡ halted_by id x.now before }
{
    match *x {
        Record::Notice { symbol, kind, .. } => match kind {
            NoticeKind::Halt => symbol == id || before,
            NoticeKind::Resume => symbol != id && before,
            NoticeKind::OpenQuote => before,
            NoticeKind::PauseNow => before,
        },
        _ => before,
    }
}

/// The number that a record cancels.
pub fn cancelled_by(id: u16, x: &Record) -> Option<u32>
    ensures { result ≡ cancelled_by id x.now }
{
    match *x {
        Record::Cancel { symbol, number, .. } if symbol == id => Some(number),
        _ => None,
    }
}

/// The step's eligible trade.
pub fn deal_of(id: u16, step: &Step) -> Option<Deal>
    ensures { result ≡ deal_of step.now.day id step.now.input }
{
    match step.input {
        Record::Trade {
            moment,
            symbol,
            number,
            price,
            flags,
            ..
        } => {
            if symbol == id && eligible(flags, moment, &step.day) {
                Some(Deal {
                    moment,
                    number,
                    price,
                })
            } else {
                None
            }
        }
        _ => None,
    }
}

/// The price of the step's eligible trade.
pub fn traded_price(id: u16, step: &Step) -> Option<Price>
    ensures { result ≡ traded_price step.now.day id step.now.input }
{
    match step.input {
        Record::Trade {
            moment,
            symbol,
            price,
            flags,
            ..
        } => {
            if symbol == id && eligible(flags, moment, &step.day) {
                Some(price)
            } else {
                None
            }
        }
        _ => None,
    }
}

/// The price of the step's eligible opening trade.
pub fn opening_price(id: u16, step: &Step) -> Option<Price>
    ensures { result ≡ opening_price step.now.day id step.now.input }
{
    match step.input {
        Record::Trade {
            moment,
            symbol,
            price,
            flags,
            ..
        } => {
            if symbol == id && eligible(flags, moment, &step.day) && opening(flags) {
                Some(price)
            } else {
                None
            }
        }
        _ => None,
    }
}

/// Whether the step's record is an eligible opening trade in the first five minutes of the run.
pub fn opens_early(id: u16, begun: Moment, step: &Step) -> bool
    ensures { result ≡ opens_before step.now.day id (begun + five_minutes) step.now.input }
{
    match step.input {
        Record::Trade {
            moment,
            symbol,
            flags,
            ..
        } => {
            symbol == id
                && eligible(flags, moment, &step.day)
                && opening(flags)
                && is_in_opening_period(begun, moment)
        }
        _ => false,
    }
}

pub fn opens_on_quotes(id: u16, x: &Record) -> bool
    ensures { result ≡ opens_on_quotes id x.now }
{
    match *x {
        Record::Notice {
            symbol,
            kind: NoticeKind::OpenQuote,
            ..
        } => symbol == id,
        _ => false,
    }
}

pub fn asks_to_pause(id: u16, x: &Record) -> bool
    ensures { result ≡ asks_to_pause id x.now }
{
    match *x {
        Record::Notice {
            symbol,
            kind: NoticeKind::PauseNow,
            ..
        } => symbol == id,
        _ => false,
    }
}

/// Whether a record is a quotation, a trade, a clock or an index tick.
pub fn comes_often(x: &Record) -> bool
    ensures { result ≡ comes_often x.now }
{
    matches!(
        x,
        Record::Quote { .. }
            | Record::Trade { .. }
            | Record::IndexTick { .. }
            | Record::Clock { .. }
    )
}
