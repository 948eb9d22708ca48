//! An audit of frames, one after the other.

ghost use Rattle.std.specs.Prelude.{◌≡◌, ℕ, ◌+◌, ◌<◌, ◌++◌, ◌∷◌, [], ◌==◌, Option, List, None, Ok, IfOk, IsOk, OnOk, OnErr, ◌≤◌, is_none, length, slice_set, true, vec_capacity, vec_len};
ghost use Rattle.std.specs.Option.{option_map_or};
ghost use Rattle.wire_out.specs.declared.message.Frame.{Frame};
ghost use Rattle.audit_core.specs.Laws.{speaks_of};
ghost use Rattle.audit_core.specs.Clean.{law_broken, said};
ghost use Rattle.audit_core.specs.Stocks.{with_message};
ghost use Rattle.audit_core.specs.Audits.{HasTaken, Keeps, KeepsStock, Represents, breakers_by, greatest_with, halt_with, law_by, law_of_message, order_by, silent, stock_at, stock_for};

use crate::stock::{
    LastMessage, Stock, keeps_auctions, keeps_bands, keeps_limits, keeps_references, with_message,
};
use breaker_core::{Halt, ends, percent_of};
use price_core::NoMemory;
use session_core::Moment;
use std::alloc::Global;
use std::marker::Model;
use wire_out::{Frame, Message, Stamped};

/// What an audit keeps: how many messages came, the moment of the last one, the market-wide halt in effect, the greatest level
/// declared, what was said last of each symbol, and whether no law was broken.
#[derive(Debug, Drop)]
pub struct Audit {
    count: u64,
    newest: Option<Moment>,
    halt: Option<Halt>,
    greatest: u32,
    stocks: Vec<Stock>,
    clean: bool,
}

impl Model for Audit {
    ghost use Rattle.audit_core.specs.Audits.{AuditState};

    ghost Value = { AuditState };

    ghost view = { λ a. record { count = a.count; newest = a.newest; halt = a.halt; greatest = a.greatest; stocks = a.stocks.items; clean = a.clean } };
}

/// Nothing was said.
fn silent() -> Stock
    ensures { result ≡ silent }
{
    Stock {
        state: None,
        bands: None,
        adopted: None,
        round: None,
        last: LastMessage::Other,
    }
}

/// What is kept of a symbol.
fn stock_at(stocks: &[Stock], s: u16) -> Stock
    ensures { result ≡ stock_at stocks.now s }
{
    match stocks.get(usize::from(s)) {
        Some(stock) => *stock,
        None => silent(),
    }
}

/// So many more symbols, of which nothing was said, in room that was taken before.
fn push_silent(stocks: &mut Vec<Stock>, count: usize)
    requires room { vec_len stocks.old + count ≤ vec_capacity stocks.old }
    ensures same { (s : ℕ) → stock_at stocks.new.items s ≡ stock_at stocks.old.items s }
    ensures len { vec_len stocks.new ≡ vec_len stocks.old + count }
{
    for _more in 0..count {
        // It has room for it.
        stocks.extend_from_slice(&[silent()]).unwrap();
    }
}

/// Makes place for a symbol; nothing is said of it. An error changes nothing.
fn make_place(stocks: &mut Vec<Stock>, s: u16) -> Result<(), NoMemory>
    ensures same { (n : ℕ) → stock_at stocks.new.items n ≡ stock_at stocks.old.items n }
    ensures place { OnOk result (s < length stocks.new.items) }
    ensures err { OnErr result (stocks.new.items ≡ stocks.old.items) }
{
    let count = usize::from(s) + 1;
    if count <= stocks.len() {
        return Ok(());
    }
    let more = count - stocks.len();
    stocks.reserve(more)?;
    push_silent(stocks, more);
    Ok(())
}

/// The symbol of a message.
fn speaks_of(m: &Message) -> Option<u16>
    ensures { result ≡ speaks_of m.now }
{
    match m {
        Message::Listed { symbol, name: _ } => Some(*symbol),
        Message::State { symbol, phase: _ } => Some(*symbol),
        Message::Band {
            symbol,
            cause: _,
            reference: _,
            lower: _,
            upper: _,
        } => Some(*symbol),
        Message::Straddle { symbol, on: _ } => Some(*symbol),
        Message::Collar {
            symbol,
            round: _,
            lower: _,
            upper: _,
        } => Some(*symbol),
        Message::Release { symbol, price: _ } => Some(*symbol),
        Message::Short { symbol, kind: _ } => Some(*symbol),
        Message::Breaker { level: _, index: _ } => None,
        Message::MarketResume => None,
    }
}

fn is_next(number: u64, count: u64) -> bool
    ensures { result ≡ (number == count + 1) }
{
    number != 0 && number - 1 == count
}

fn comes_in_order(newest: Option<Moment>, t: Moment) -> bool
    ensures { result ≡ order_by newest t }
{
    match newest {
        Some(last) => last.nanos() <= t.nanos(),
        None => true,
    }
}

fn keeps_breakers(halt: Option<Halt>, greatest: u32, t: Moment, m: &Message) -> bool
    ensures { result ≡ breakers_by halt greatest t m.now }
{
    match m {
        Message::Breaker { level, index: _ } => greatest < percent_of(*level) && halt.is_none(),
        Message::MarketResume => ends(t, halt),
        _ => true,
    }
}

/// The halt in effect behind a message.
fn halt_with(t: Moment, m: &Message, old: Option<Halt>) -> Option<Halt>
    ensures { result ≡ halt_with t m.now old }
{
    match m {
        Message::Breaker { level, index: _ } => Some(Halt {
            level: *level,
            since: t,
        }),
        Message::MarketResume => None,
        _ => old,
    }
}

/// The decline of the greatest level declared behind a message, in per cent.
fn greatest_with(m: &Message, old: u32) -> u32
    ensures { result ≡ greatest_with m.now old }
{
    match m {
        Message::Breaker { level, index: _ } => percent_of(*level).max(old),
        _ => old,
    }
}

/// Keeps a message of a symbol for which there is room.
fn set_stock(stocks: &mut Vec<Stock>, s: u16, t: Moment, m: &Message)
    requires { s < length stocks.old.items }
    ensures { stocks.new.items ≡ slice_set stocks.old.items s (with_message t m.now (stock_at stocks.old.items s)) }
{
    let stock = stock_at(stocks, s);
    stocks[usize::from(s)] = with_message(t, m, &stock);
}

/// Keeps a message of its symbol. An error changes nothing of what is kept.
fn keep_stock(stocks: &mut Vec<Stock>, t: Moment, m: &Message) -> Result<(), NoMemory>
    ensures keeps { OnOk result (KeepsStock t m.now stocks.old.items stocks.new.items) }
    ensures err { OnErr result (stocks.new.items ≡ stocks.old.items) }
{
    let Some(s) = speaks_of(m) else {
        return Ok(());
    };
    make_place(stocks, s)?;
    set_stock(stocks, s, t, m);
    Ok(())
}

impl Audit {
    fn stock_for(&self, m: &Message) -> Stock
        ensures { result ≡ stock_for self.now m.now }
    {
        match speaks_of(m) {
            Some(s) => stock_at(&self.stocks, s),
            None => silent(),
        }
    }

    fn law_of_message(&self, number: u64, t: Moment, m: &Message) -> Option<u8>
        ensures { result ≡ law_of_message self.now number t m.now }
    {
        let stock = self.stock_for(m);
        if !is_next(number, self.count) {
            Some(1)
        } else if !comes_in_order(self.newest, t) {
            Some(2)
        } else if !keeps_limits(&stock, t, m) {
            Some(3)
        } else if !keeps_references(&stock, t, m) {
            Some(4)
        } else if !keeps_bands(&stock, t, m) {
            Some(5)
        } else if !keeps_auctions(&stock, t, m) {
            Some(6)
        } else if !keeps_breakers(self.halt, self.greatest, t, m) {
            Some(7)
        } else {
            None
        }
    }

    /// The least law that a frame breaks after those that were taken, or none.
    pub fn law(&self, f: &Frame) -> Option<u8>
        ensures value { result ≡ law_by self.now f.now }
        ensures exact { (frames : List Frame) → Represents self.now frames → result ≡ law_broken frames f.now }
    {
        match f {
            Frame::Numbered { number, stamped } => self.law_of_message(
                *number,
                stamped.moment,
                &stamped.message,
            ),
            Frame::Refused {
                frame_number: _,
                code: _,
                field: _,
            } => None,
            Frame::Hello {
                inputs: _,
                messages: _,
            } => Some(1),
            Frame::Ack { input: _ } => Some(1),
        }
    }

    /// An audit of no frames. It takes no memory yet.
    pub fn new(alloc: Global) -> Result<Audit, NoMemory>
        ensures succeeds { IsOk result }
        ensures represents { IfOk result (λ audit. Represents audit []) }
        ensures clean { IfOk result (λ audit. audit.clean ≡ true) }
    {
        Ok(Audit {
            count: 0,
            newest: None,
            halt: None,
            greatest: 0,
            stocks: Vec::new(alloc),
            clean: true,
        })
    }

    /// Whether no law was broken.
    pub fn clean(&self) -> bool
        ensures { result ≡ self.now.clean }
    {
        self.clean
    }

    /// How many messages were taken.
    pub fn messages(&self) -> u64
        ensures value { result ≡ self.now.count }
        ensures exact { (frames : List Frame) → Represents self.now frames → result ≡ length (said frames) }
    {
        self.count
    }

    /// Keeps a message of the next number.
    fn keep(&mut self, number: u64, m: &Stamped) -> Result<(), NoMemory>
        requires next { number ≡ self.old.count + 1 }
        ensures keeps { OnOk result (Keeps m.now self.old self.new) }
        ensures err { OnErr result (self.new ≡ self.old) }
    {
        keep_stock(&mut self.stocks, m.moment, &m.message)?;
        self.count = number;
        self.newest = Some(m.moment);
        self.halt = halt_with(m.moment, &m.message, self.halt);
        self.greatest = greatest_with(&m.message, self.greatest);
        Ok(())
    }

    /// Keeps a frame that breaks no law. A refusal is passed over.
    fn pass(&mut self, f: &Frame) -> Result<(), NoMemory>
        requires lawful { law_by self.old f.now ≡ None }
        ensures taken { OnOk result (HasTaken f.now self.old self.new) }
        ensures clean { self.new.clean ≡ self.old.clean }
        ensures err { OnErr result (self.new ≡ self.old) }
    {
        match f {
            Frame::Numbered { number, stamped } => self.keep(*number, stamped),
            _ => Ok(()),
        }
    }

    /// Takes the next frame while no law was broken, and answers the least law that it breaks, or none where it keeps all. After a
    /// law that was broken the audit is not clean. An error, which is want of memory, leaves it as it was.
    pub fn take(&mut self, f: &Frame) -> Result<Option<u8>, NoMemory>
        requires clean { self.old.clean ≡ true }
        ensures law { (frames : List Frame) → Represents self.old frames → IfOk result (λ law. law ≡ law_broken frames f.now) }
        ensures stands { (frames : List Frame) → Represents self.old frames → result ≡ Ok None → Represents self.new (f.now ∷ frames) }
        ensures clean { IfOk result (λ law. self.new.clean ≡ is_none law) }
        ensures err { OnErr result (self.new ≡ self.old) }
    {
        let law = self.law(f);
        if law.is_some() {
            self.clean = false;
            return Ok(law);
        }
        self.pass(f)?;
        Ok(None)
    }
}
