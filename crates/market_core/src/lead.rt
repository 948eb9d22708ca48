//! The market's own part: the names, the day and the circuit breakers.

ghost use Rattle.std.specs.Prelude.{◌≡◌, ◌+◌, ◌<◌, ◌≤◌, ◌++◌, ◌∷◌, ℕ, [], false, List, Some, None, OnOk, OnErr, IfOk, IsOk, IsSome, vec_len, vec_capacity, position, option_map, length};
ghost use Rattle.std.specs.Str.{bytes_eq};
ghost use Rattle.session_core.specs.declared.day.Day.{Day};
ghost use Rattle.wire_in.specs.declared.record.Record.{Record};
ghost use Rattle.wire_in.specs.Bases.{IsInRange};
ghost use Rattle.wire_in.specs.Records.{moment_of, name_of, is_day};
ghost use Rattle.breaker_core.specs.BreakerState.{started};
ghost use Rattle.rulebook.specs.Admission.{verdict, most_names};
ghost use Rattle.rulebook.specs.Market.{breaks};
ghost use Rattle.rulebook.specs.Base.{base_of, stand_in};
ghost use Rattle.market_core.specs.Leads.{today_led};
ghost use Rattle.market_core.specs.Ruled.{ruled, ruling, stamped, view_of};

use crate::directory::Directory;
use crate::symbols::append;
use breaker_core::Breaker;
use price_core::{Index, NoMemory};
use rulebook::MOST_NAMES;
use session_core::{Day, Moment};
use std::alloc::Global;
use std::marker::Model;
use symbol_core::MarketView;
use wire_in::{Base, Names, Record};
use wire_out::{Message, Stamped};

/// A day, and its market-wide breakers.
#[derive(Drop)]
pub struct Today {
    pub day: Day,
    pub breaker: Breaker,
}

/// The market's part of a market: the names ever listed, the day and its breakers.
#[derive(Drop)]
pub struct Lead {
    directory: Directory,
    today: Option<Today>,
    /// What the market is to its symbols, for which each record asks.
    view: Option<MarketView>,
}

impl Model for Lead {
    ghost use Rattle.std.specs.Prelude.{◌≡◌, option_map};
    ghost use Rattle.market_core.specs.Leads.{LeadState};
    ghost use Rattle.market_core.specs.Ruled.{view_of};

    ghost Value = { LeadState };

    ghost view = { λ lead. record { directory = lead.directory; today = lead.today } };

    ghost invariant = { λ lead. lead.view ≡ option_map view_of lead.today };
}

/// The day that a record begins, with its breakers.
fn begun(x: &Record) -> Option<Today>
    ensures { result ≡ today_led x.now None }
{
    match *x {
        Record::Day {
            day,
            index_close,
            ..
        } => Some(Today {
            day,
            breaker: Breaker::start(index_close),
        }),
        _ => None,
    }
}

impl Today {
    ghost use Rattle.market_core.specs.Ruled.{with_breaker_resumed, level_on, with_level_on, resumption, tick_messages};

    /// Ends a market halt that is over.
    fn resume(&mut self, t: Moment, out: &mut Vec<Stamped>)
        requires { vec_len out.old + 1 ≤ vec_capacity out.old }
        ensures given { out.new.items ≡ out.old.items ++ stamped t (resumption t self.old) }
        ensures kept { self.new ≡ with_breaker_resumed t self.old }
        ensures room { vec_capacity out.old ≤ vec_capacity out.new }
        ensures len { vec_len out.new ≤ vec_len out.old + 1 }
    {
        if self.breaker.time(t) {
            append(out, t, Message::MarketResume);
        }
    }

    /// Declares the level that an index value reaches.
    fn declare(&mut self, t: Moment, index: Index, out: &mut Vec<Stamped>)
        requires { vec_len out.old + 1 ≤ vec_capacity out.old }
        ensures given { out.new.items ≡ out.old.items ++ stamped t (breaks index (level_on t index self.old)) }
        ensures kept { self.new ≡ with_level_on t index self.old }
        ensures room { vec_capacity out.old ≤ vec_capacity out.new }
        ensures len { vec_len out.new ≤ vec_len out.old + 1 }
    {
        if let Some(level) = self.breaker.index(t, index, &self.day) {
            append(out, t, Message::Breaker { level, index });
        }
    }

    /// The market-wide rules at an index tick.
    fn tick(&mut self, t: Moment, index: Index, out: &mut Vec<Stamped>)
        requires { vec_len out.old + 2 ≤ vec_capacity out.old }
        ensures given { out.new.items ≡ out.old.items ++ stamped t (tick_messages t index self.old) }
        ensures kept { self.new ≡ with_level_on t index (with_breaker_resumed t self.old) }
        ensures room { vec_capacity out.old ≤ vec_capacity out.new }
        ensures len { vec_len out.new ≤ vec_len out.old + 2 }
    {
        self.resume(t, out);
        self.declare(t, index, out);
    }

    /// The market-wide rules.
    fn rule(&mut self, x: &Record, out: &mut Vec<Stamped>)
        requires { vec_len out.old + 2 ≤ vec_capacity out.old }
        ensures given { out.new.items ≡ out.old.items ++ stamped (moment_of x.now) (ruling x.now self.old) }
        ensures kept { self.new ≡ ruled x.now self.old }
        ensures room { vec_capacity out.old ≤ vec_capacity out.new }
        ensures len { vec_len out.new ≤ vec_len out.old + 2 }
    {
        match *x {
            Record::IndexTick { moment, value } => self.tick(moment, value, out),
            Record::Clock { moment } => self.resume(moment, out),
            _ => {}
        }
    }

    /// What the day is to its symbols.
    fn view(&self) -> MarketView
        ensures { result ≡ view_of self.now }
    {
        MarketView {
            day: self.day,
            stopped: self.breaker.stopped(),
        }
    }
}

impl Lead {
    ghost use Rattle.market_core.specs.Leads.{IsLed, directory_led, led, market_messages, market_view, rulings, with_listed};

    /// No names and no day.
    pub fn new(alloc: Global) -> Result<Lead, NoMemory>
        ensures { IfOk result (λ lead. IsLed lead []) }
    {
        Ok(Lead {
            directory: Directory::new(alloc)?,
            today: None,
            view: None,
        })
    }

    /// The market's part of whatever records have a base. It takes over one of no names, and its room.
    pub fn restore(self, base: &Base) -> Lead
        requires none { self.directory ≡ [] }
        requires range { IsInRange base.now }
        ensures kept { result ≡ record { directory = base.now.names; today = today_led base.now.day None } }
        ensures led { (led : List Record) → base_of led ≡ Some base.now → IsLed result led }
        ensures stand_in { IsLed result (stand_in base.now) }
    {
        let today = begun(&base.day);
        let view = today.as_ref().map(|today| today.view());
        Lead {
            directory: self.directory.restore(base.names.list()),
            today,
            view,
        }
    }

    /// All names, in order of their ids.
    pub fn all_names(&self, alloc: Global) -> Result<Names, NoMemory>
        ensures { IfOk result (λ names. names ≡ self.now.directory) }
    {
        self.directory.list(alloc)
    }

    /// How many names were ever listed.
    pub fn names(&self) -> u32
        ensures names { result ≡ length self.now.directory }
        ensures bound { result ≤ most_names }
    {
        self.directory.len() as u32
    }

    /// The id of a name, where it was ever listed.
    pub fn id(&self, name: &[u8; 8]) -> Option<u16>
        ensures { result ≡ position (bytes_eq name.now) self.now.directory }
    {
        self.directory.id(*name)
    }

    /// What the market is to its symbols, where a day has begun.
    pub fn view(&self) -> Option<MarketView>
        ensures { result ≡ option_map view_of self.now.today }
    {
        self.view
    }

    /// The same where it lies, so that a record makes no copy of it.
    pub(crate) fn view_there<'a>(&'a self) -> Option<&'a MarketView>
        ensures { option_map (λ view. view.now) result ≡ option_map view_of self.now.today }
    {
        self.view.as_ref()
    }

    /// Lists a new name, and answers its id.
    pub(crate) fn push(&mut self, name: [u8; 8]) -> u16
        requires new { position (bytes_eq name) self.old.directory ≡ None }
        requires room { length self.old.directory < most_names }
        ensures id { result ≡ length self.old.directory }
        ensures kept { self.new ≡ record self.old { directory = self.old.directory ++ name ∷ [] } }
    {
        self.directory.push(name)
    }

    /// Begins a day, and answers what it is to its symbols.
    pub(crate) fn begin_day(&mut self, today: Today) -> MarketView
        ensures kept { self.new ≡ record self.old { today = Some today } }
        ensures view { result ≡ view_of today }
    {
        let view = today.view();
        self.view = Some(today.view());
        self.today = Some(today);
        view
    }

    /// The market-wide rules, where a day has begun.
    pub(crate) fn rule(&mut self, x: &Record, out: &mut Vec<Stamped>)
        requires { vec_len out.old + 2 ≤ vec_capacity out.old }
        ensures given { out.new.items ≡ out.old.items ++ stamped (moment_of x.now) (rulings x.now self.old.today) }
        ensures kept { self.new ≡ record self.old { today = option_map (ruled x.now) self.old.today } }
        ensures room { vec_capacity out.old ≤ vec_capacity out.new }
        ensures len { vec_len out.new ≤ vec_len out.old + 2 }
    {
        if let Some(today) = &mut self.today {
            today.rule(x, out);
            let seen = today.view();
            self.view = Some(seen);
        }
    }

    /// Lists a name. A new name that finds no room is left out, since admission refuses it.
    fn list(&mut self, name: [u8; 8])
        ensures { self.new ≡ record self.old { directory = with_listed self.old.directory name } }
    {
        if self.directory.id(name).is_none() && self.directory.len() < MOST_NAMES {
            self.directory.push(name);
        }
    }

    /// Takes a record in.
    fn take_in(&mut self, x: &Record, out: &mut Vec<Stamped>)
        requires { vec_len out.old + 2 ≤ vec_capacity out.old }
        ensures given { out.new.items ≡ out.old.items ++ stamped (moment_of x.now) (rulings x.now self.old.today) }
        ensures kept { self.new ≡ led x.now self.old }
        ensures room { vec_capacity out.old ≤ vec_capacity out.new }
        ensures len { vec_len out.new ≤ vec_len out.old + 2 }
    {
        match *x {
            Record::Day {
                day,
                index_close,
                ..
            } => {
                let breaker = Breaker::start(index_close);
                self.begin_day(Today { day, breaker });
            }
            Record::Listing { name, .. } => self.list(name),
            _ => self.rule(x, out),
        }
    }

    /// Leads a record that is admissible after the led ones: it appends the market's messages of its step, and answers
    /// what the market then is to its symbols, of which it evaluates none. A day has begun, or the record begins one.
    /// An error leaves all as it was. It takes no memory where the list has room for two messages.
    pub fn lead(&mut self, x: &Record, out: &mut Vec<Stamped>) -> Result<MarketView, NoMemory>
        requires day { is_day x.now ≡ false → IsSome self.old.today }
        ensures given { (capacity : ℕ) (before : List Record) → IsLed self.old before → verdict capacity before x.now ≡ None
            → OnOk result (out.new.items ≡ out.old.items ++ market_messages (x.now ∷ before)) }
        ensures leads { (capacity : ℕ) (before : List Record) → IsLed self.old before → verdict capacity before x.now ≡ None
            → OnOk result (IsLed self.new (x.now ∷ before)) }
        ensures view { (capacity : ℕ) (before : List Record) → IsLed self.old before → verdict capacity before x.now ≡ None
            → IfOk result (λ view. market_view (x.now ∷ before) ≡ Some view) }
        ensures kept { OnOk result (self.new ≡ led x.now self.old) }
        ensures said { OnOk result (out.new.items ≡ out.old.items ++ stamped (moment_of x.now) (rulings x.now self.old.today)) }
        ensures seen { IfOk result (λ view. option_map view_of self.new.today ≡ Some view) }
        ensures err { OnErr result ((self.new ≡ self.old) × (out.new.items ≡ out.old.items)) }
        ensures few { vec_len out.new ≤ vec_len out.old + 2 }
        ensures room { vec_len out.old + 2 ≤ vec_capacity out.old → IsOk result }
        ensures keeps_room { vec_capacity out.old ≤ vec_capacity out.new }
    {
        out.reserve(2)?;
        self.take_in(x, out);
        Ok(self.view().unwrap())
    }
}
