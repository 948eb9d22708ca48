//! The stocks of ids that follow each other.

ghost use Rattle.std.specs.Prelude.{◌≡◌, ◌+◌, ◌*◌, ◌<◌, ◌≤◌, ◌++◌, ◌∷◌, ℕ, [], true, false, Some, IfOk, IsOk, OnOk, OnErr, drop, filter, length, slice_index, take, vec_len, vec_capacity};
ghost use Rattle.wire_in.specs.Bases.{AreRising};
ghost use Rattle.wire_in.specs.Records.{is_day, is_tick, moment_of};
ghost use Rattle.alarms.specs.Due.{NoneDue};
ghost use Rattle.symbol_core.specs.Evaluates.{most_of_symbol};
ghost use Rattle.rulebook.specs.Admission.{most_names};
ghost use Rattle.rulebook.specs.Book.{ids_below};
ghost use Rattle.market_core.specs.Fresh.{AreFresh, is_marked};
ghost use Rattle.market_core.specs.Kinds.{is_trade};
ghost use Rattle.market_core.specs.Room.{HasRoomAt};

use crate::among::is_among;
use crate::since::{ALWAYS_DUE, NEVER_DUE, Since, alarm_of, pass, renew};
use crate::symbols::{evaluate, evaluate_each};
use alarms::Alarms;
use price_core::NoMemory;
use session_core::Moment;
use std::alloc::Global;
use std::marker::Model;
use symbol_core::{MarketView, Messages, Symbol};
use wire_in::{Ids, Record};
use wire_out::Stamped;

/// The stocks of ids that follow each other, in their order, each with the moment at which a tick may next bring it
/// something.
#[derive(Drop)]
pub struct Section {
    symbols: Vec<Symbol>,
    alarms: Alarms,
    since: Option<Since>,
    said: Messages,
}

impl Model for Section {
    ghost use Rattle.std.specs.Prelude.{◌-◌, ◌≤◌, min, length, vec_len, vec_capacity};
    ghost use Rattle.market_core.specs.Sections.{SectionState, EachIdles};

    ghost Value = { SectionState };

    ghost view = { λ section. record { symbols = section.symbols.items; spare = min (vec_capacity section.symbols - vec_len section.symbols) (length section.alarms - vec_len section.symbols); since = section.since } };

    ghost invariant = { λ section. (vec_len section.symbols ≤ length section.alarms) × EachIdles section.since section.alarms section.symbols.items };
}

/// The first place from one on that is due, or the end where none before it is.
fn first_due(alarms: &mut Alarms, from: usize, end: usize, t: Moment) -> usize
    requires from { from ≤ end }
    requires end { end ≤ length alarms.old }
    ensures from { from ≤ result }
    ensures end { result ≤ end }
    ensures none { NoneDue t from result alarms.old }
    ensures same { alarms.new ≡ alarms.old }
{
    alarms.next(from, end, t.nanos()).unwrap_or(end)
}

/// Makes so many more places, which are never due. An error leaves those that were made.
fn make_places(alarms: &mut Alarms, alloc: Global, count: usize) -> Result<(), NoMemory>
    ensures more { OnOk result (length alarms.old + count ≤ length alarms.new) }
    ensures kept { length alarms.old ≤ length alarms.new }
    ensures same { (place : ℕ) → place < length alarms.old → slice_index alarms.new place ≡ slice_index alarms.old place }
    ensures none { count ≡ 0 → IsOk result }
{
    if count > 0 && alarms.len() == 0 {
        *alarms = Alarms::all_at(alloc, NEVER_DUE, count)?;
        return Ok(());
    }
    for _place in 0..count {
        alarms.push(NEVER_DUE)?;
    }
    Ok(())
}

/// Moves stocks behind others. An error leaves both as they were.
fn append_symbols(symbols: &mut Vec<Symbol>, later: &mut Vec<Symbol>) -> Result<(), NoMemory>
    ensures all { OnOk result (symbols.new.items ≡ symbols.old.items ++ later.old.items) }
    ensures none { OnOk result (later.new.items ≡ []) }
    ensures err { OnErr result ((symbols.new.items ≡ symbols.old.items) × (later.new.items ≡ later.old.items)) }
    ensures succeeds { vec_len symbols.old + vec_len later.old ≤ vec_capacity symbols.old → IsOk result }
    ensures room { vec_capacity symbols.old ≤ vec_capacity symbols.new }
    ensures count { vec_len symbols.new ≤ vec_len symbols.old + vec_len later.old }
    ensures shorter { vec_len later.new ≤ vec_len later.old }
{
    symbols.append(later)?;
    Ok(())
}

fn push_symbol(symbols: &mut Vec<Symbol>, symbol: Symbol)
    requires { vec_len symbols.old + 1 ≤ vec_capacity symbols.old }
    ensures items { symbols.new.items ≡ symbols.old.items ++ symbol ∷ [] }
    ensures len { vec_len symbols.new ≡ vec_len symbols.old + 1 }
    ensures room { vec_capacity symbols.old ≤ vec_capacity symbols.new }
{
    symbols.push(symbol).unwrap();
}

impl Section {
    ghost use Rattle.market_core.specs.Applied.{AppendsBelow, AppendsOne};
    ghost use Rattle.market_core.specs.Sections.{NoneMoves};

    /// No stocks.
    pub fn new(alloc: Global) -> Result<Section, NoMemory>
        ensures { IfOk result (λ section. section.symbols ≡ []) }
    {
        let said = Messages::new(alloc)?;
        Ok(Section {
            symbols: Vec::new(alloc),
            alarms: Alarms::new(alloc),
            since: None,
            said,
        })
    }

    /// The stocks of so many ids on a day on which nothing was said of them yet, and which carries the restrictions of these ids,
    /// in rising order. It takes over a section of no stocks, and its room, which is for those of all names.
    pub fn restore(self, count: u32, carried: &[u16]) -> Section
        requires none { self.symbols ≡ [] }
        requires room { most_names ≤ length self.symbols + self.spare }
        requires few { count ≤ most_names }
        requires rising { AreRising carried.now }
        ensures fresh { AreFresh carried.now count result.symbols }
        ensures room { most_names ≤ length result.symbols + result.spare }
    {
        let alloc = *self.symbols.allocator();
        let mut section = self;
        for id in 0..count {
            let symbol = Symbol::restore(alloc, id as u16, is_among(carried, id as u16)).unwrap();
            section.push(symbol);
        }
        section
    }

    /// The ids of the stocks whose short sale restriction the day carries, where the first stock has the id 0.
    pub fn carried(&self, alloc: Global) -> Result<Ids, NoMemory>
        requires few { length self.now.symbols ≤ most_names }
        ensures { IfOk result (λ ids. ids ≡ filter (is_marked self.now.symbols) (ids_below (length self.now.symbols))) }
    {
        let mut ids = Ids::new(alloc);
        for id in 0..self.symbols.len() {
            if self.symbols[id].is_carried() {
                ids.push(id as u16)?;
            }
        }
        Ok(ids)
    }

    /// How many stocks there are.
    pub fn len(&self) -> usize
        ensures { result ≡ length self.now.symbols }
    {
        self.symbols.len()
    }

    /// Takes room for so many more stocks: room that is there is never refused. An error leaves the stocks as they were.
    pub fn reserve(&mut self, more: usize) -> Result<(), NoMemory>
        ensures ok { OnOk result (more ≤ self.new.spare) }
        ensures succeeds { more ≤ self.old.spare → IsOk result }
        ensures symbols { self.new.symbols ≡ self.old.symbols }
        ensures spare { self.old.spare ≤ self.new.spare }
    {
        self.symbols.reserve(more)?;
        let places = self.alarms.len() - self.symbols.len();
        let alloc = *self.symbols.allocator();
        make_places(&mut self.alarms, alloc, more.saturating_sub(places))
    }

    /// Adds a stock behind the others, in room that was taken before.
    pub fn push(&mut self, symbol: Symbol)
        requires { 1 ≤ self.old.spare }
        ensures symbols { self.new.symbols ≡ self.old.symbols ++ symbol ∷ [] }
        ensures spare { self.old.spare ≤ self.new.spare + 1 }
    {
        self.alarms.set(self.symbols.len(), ALWAYS_DUE);
        push_symbol(&mut self.symbols, symbol);
    }

    /// Moves the stocks of a section behind these, where there is room for them without memory. Alarms are forgotten: the next
    /// tick finds each stock due. An error leaves the stocks of both as they were.
    pub fn append(&mut self, later: &mut Section) -> Result<(), NoMemory>
        ensures all { OnOk result (self.new.symbols ≡ self.old.symbols ++ later.old.symbols) }
        ensures none { OnOk result (later.new.symbols ≡ []) }
        ensures fewer { length later.new.symbols ≤ length later.old.symbols }
        ensures err { OnErr result ((self.new.symbols ≡ self.old.symbols) × (later.new.symbols ≡ later.old.symbols)) }
        ensures succeeds { length later.old.symbols ≤ self.old.spare → IsOk result }
        ensures spare { OnOk result (self.old.spare ≤ self.new.spare + length later.old.symbols) }
    {
        self.reserve(later.symbols.len())?;
        self.since = None;
        later.since = None;
        append_symbols(&mut self.symbols, &mut later.symbols)?;
        Ok(())
    }

    /// Takes the stocks from an index on into a section of their own. Alarms are forgotten: the next tick finds each stock due.
    /// An error leaves the stocks as they were.
    pub fn split_off(&mut self, at: usize) -> Result<Section, NoMemory>
        requires at { at ≤ length self.old.symbols }
        ensures earlier { OnOk result (self.new.symbols ≡ take at self.old.symbols) }
        ensures later { IfOk result (λ later. later.symbols ≡ drop at self.old.symbols) }
        ensures err { OnErr result (self.new.symbols ≡ self.old.symbols) }
    {
        self.since = None;
        let alloc = *self.symbols.allocator();
        let mut rest = Section::new(alloc)?;
        rest.since = None;
        make_places(&mut rest.alarms, alloc, self.symbols.len() - at)?;
        rest.symbols = self.symbols.split_off(at)?;
        Ok(rest)
    }

    /// Evaluates a record for the stock of an index. Only a trade whose stock has no room for its deal may find no memory, and
    /// then all stays as it was.
    #[inline(always)]
    pub fn evaluate(
        &mut self,
        index: usize,
        x: &Record,
        market: &MarketView,
        out: &mut Vec<Stamped>,
    ) -> Result<(), NoMemory>
        requires index { index < length self.old.symbols }
        requires room { vec_len out.old + most_of_symbol ≤ vec_capacity out.old }
        ensures ok { OnOk result (AppendsOne index market.now x.now self.old.symbols self.new.symbols out.old.items out.new.items) }
        ensures err { OnErr result ((self.new.symbols ≡ self.old.symbols) × (out.new.items ≡ out.old.items)) }
        ensures succeeds { is_trade x.now ≡ false → IsOk result }
        ensures room_there { HasRoomAt self.old.symbols index → IsOk result }
        ensures spare { self.old.spare ≤ self.new.spare }
        ensures since { (now : MarketView) → self.old.since ≡ Some (record { from = moment_of x.now; market = now }) → self.new.since ≡ self.old.since }
        ensures room { vec_capacity out.old ≤ vec_capacity out.new }
        ensures len { vec_len out.new ≤ vec_len out.old + most_of_symbol }
    {
        pass(&mut self.since, x.moment());
        let symbol = &mut self.symbols[index];
        if symbol.pass_quote(x, market) {
            // Its alarm still holds.
            return Ok(());
        }
        evaluate(symbol, x, market, &mut self.said, out)?;
        let alarm = alarm_of(symbol, &self.since);
        self.alarms.set(index, alarm);
        Ok(())
    }

    /// Begins a day for each stock, in order of ids.
    pub fn begin_day(&mut self, x: &Record, market: &MarketView, out: &mut Vec<Stamped>)
        requires day { is_day x.now ≡ true }
        requires room { vec_len out.old + most_of_symbol * length self.old.symbols ≤ vec_capacity out.old }
        ensures appends { AppendsBelow (length self.old.symbols) market.now x.now self.old.symbols self.new.symbols out.old.items out.new.items }
        ensures count { length self.new.symbols ≡ length self.old.symbols }
        ensures spare { self.old.spare ≤ self.new.spare }
        ensures room { vec_capacity out.old ≤ vec_capacity out.new }
        ensures len { vec_len out.new ≤ vec_len out.old + most_of_symbol * length self.old.symbols }
    {
        self.since = None; // No alarm outlives its day.
        evaluate_each(&mut self.symbols, x, market, &mut self.said, out);
    }

    /// Begins a tick: alarms of another market, or of a later moment, say nothing of it, and each stock is due.
    fn begin_tick(&mut self, t: Moment, market: &MarketView)
        ensures since { self.new.since ≡ Some (record { from = t; market = market.now }) }
        ensures symbols { self.new.symbols ≡ self.old.symbols }
        ensures spare { self.old.spare ≤ self.new.spare }
    {
        let now = Since {
            from: t,
            market: *market,
        };
        renew(&mut self.alarms, self.symbols.len(), &self.since, &now);
        self.since = Some(now);
    }

    /// The first index from one on whose stock is due, or the number of stocks where there is none.
    fn next_due(&mut self, from: usize, x: &Record, market: &MarketView) -> usize
        requires tick { is_tick x.now ≡ true }
        requires since { self.old.since ≡ Some (record { from = moment_of x.now; market = market.now }) }
        requires from { from ≤ length self.old.symbols }
        ensures from { from ≤ result }
        ensures end { result ≤ length self.old.symbols }
        ensures none { NoneMoves market.now x.now from result self.old.symbols }
        ensures since { self.new.since ≡ self.old.since }
        ensures symbols { self.new.symbols ≡ self.old.symbols }
        ensures spare { self.old.spare ≤ self.new.spare }
    {
        first_due(&mut self.alarms, from, self.symbols.len(), x.moment())
    }

    /// Evaluates a clock or an index tick for a stock that is due. A tick is no quotation, which the stock might pass over.
    #[inline(always)]
    fn evaluate_due(
        &mut self,
        index: usize,
        x: &Record,
        market: &MarketView,
        out: &mut Vec<Stamped>,
    )
        requires tick { is_tick x.now ≡ true }
        requires index { index < length self.old.symbols }
        requires room { vec_len out.old + most_of_symbol ≤ vec_capacity out.old }
        ensures one { AppendsOne index market.now x.now self.old.symbols self.new.symbols out.old.items out.new.items }
        ensures spare { self.old.spare ≤ self.new.spare }
        ensures since { self.new.since ≡ self.old.since }
        ensures room { vec_capacity out.old ≤ vec_capacity out.new }
        ensures len { vec_len out.new ≤ vec_len out.old + most_of_symbol }
    {
        let symbol = &mut self.symbols[index];
        evaluate(symbol, x, market, &mut self.said, out).unwrap();
        let alarm = alarm_of(symbol, &self.since);
        self.alarms.put_off(index, alarm);
    }

    /// Evaluates a clock or an index tick for each stock to which it may bring something, in order of ids.
    pub fn tick(&mut self, x: &Record, market: &MarketView, out: &mut Vec<Stamped>)
        requires tick { is_tick x.now ≡ true }
        requires room { vec_len out.old + most_of_symbol * length self.old.symbols ≤ vec_capacity out.old }
        ensures appends { AppendsBelow (length self.old.symbols) market.now x.now self.old.symbols self.new.symbols out.old.items out.new.items }
        ensures count { length self.new.symbols ≡ length self.old.symbols }
        ensures spare { self.old.spare ≤ self.new.spare }
        ensures room { vec_capacity out.old ≤ vec_capacity out.new }
        ensures len { vec_len out.new ≤ vec_len out.old + most_of_symbol * length self.old.symbols }
    {
        self.begin_tick(x.moment(), market);
        let count = self.len();
        let mut index = self.next_due(0, x, market);
        while index < count {
            self.evaluate_due(index, x, market, out);
            index = self.next_due(index + 1, x, market);
        }
    }
}
