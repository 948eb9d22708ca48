//! One market, kept from record to record.

ghost use Rattle.std.specs.Prelude.{◌≡◌, ◌+◌, ◌*◌, ◌<◌, ◌≤◌, ◌++◌, ◌∷◌, ℕ, [], true, false, List, None, OnOk, OnErr, IfOk, IsOk, IsSome, IsSomeAnd, IfSome, IsNone, ◌≢◌, ◌↔◌, vec_len, vec_capacity, position, option_map, length};
ghost use Rattle.std.specs.Str.{bytes_eq};
ghost use Rattle.wire_in.specs.declared.record.Record.{Record};
ghost use Rattle.wire_in.specs.Bases.{IsInRange};
ghost use Rattle.wire_in.specs.Records.{moment_of, name_of, is_day, is_tick};
ghost use Rattle.breaker_core.specs.BreakerState.{started};
ghost use Rattle.rulebook.specs.Admission.{verdict, most_names, IsLawful};
ghost use Rattle.rulebook.specs.Isolation.{for_symbol};
ghost use Rattle.rulebook.specs.Base.{base_of, stand_in};
ghost use Rattle.rulebook.specs.Book.{messages_of, newest_messages};
ghost use Rattle.symbol_core.specs.Evaluates.{most_of_symbol};
ghost use Rattle.market_core.specs.Kinds.{is_trade};
ghost use Rattle.market_core.specs.MarketState.{most_of_names};
ghost use Rattle.market_core.specs.Isolation.{newest_isolated};
ghost use Rattle.market_core.specs.AdmissionState.{is_full_for, lacks_room, added};
ghost use Rattle.market_core.specs.Room.{HasRoomAt, HasRoomFor};
ghost use Rattle.market_core.specs.Ruled.{stamped, view_of};

use crate::lead::{Lead, Today};
use crate::section::Section;
use breaker_core::Breaker;
use price_core::{Index, NoMemory};
use rulebook::MOST_NAMES;
use session_core::Day;
use std::alloc::Global;
use std::marker::Model;
use symbol_core::{MOST_OF_SYMBOL, MarketView, Symbol};
use wire_in::{Base, Record};
use wire_out::Stamped;

/// The most messages of one record: two of the market, and those of each symbol.
pub const MOST_MESSAGES: usize = 2 + MOST_OF_SYMBOL * MOST_NAMES;

/// The most messages of a record, where so many names were ever listed.
pub fn most_messages_of(names: u32) -> usize
    ensures { result ≡ most_of_names names }
{
    2 + MOST_OF_SYMBOL * names as usize
}

/// One market: the names ever listed, the day and its breakers, and the symbol of each name.
#[derive(Drop)]
pub struct Market {
    alloc: Global,
    lead: Lead,
    section: Section,
}

impl Model for Market {
    ghost use Rattle.std.specs.Prelude.{◌≡◌, ◌+◌, ◌≤◌, length};
    ghost use Rattle.rulebook.specs.Admission.{most_names};
    ghost use Rattle.market_core.specs.MarketState.{MarketState};

    ghost Value = { MarketState };

    ghost view = { λ market. record { directory = market.lead.directory; today = market.lead.today; symbols = market.section.symbols } };

    ghost invariant = { λ market. (length market.section.symbols ≡ length market.lead.directory) × (most_names ≤ length market.section.symbols + market.section.spare) };
}

impl Market {
    ghost use Rattle.market_core.specs.MarketState.{Represents, most_messages};
    ghost use Rattle.market_core.specs.Leads.{IsLed, lead_of, led, market_messages, market_view, rulings, with_listed};
    ghost use Rattle.market_core.specs.Applied.{EachEvaluated, OneEvaluated, Finds, Lists, OnToday, Ticks, Evaluated, Applies};

    /// A market with no names and no day. It takes the room for the stocks of all names that may come.
    pub fn new(alloc: Global) -> Result<Market, NoMemory>
        ensures { IfOk result (λ market. Represents market []) }
    {
        let lead = Lead::new(alloc)?;
        let mut section = Section::new(alloc)?;
        section.reserve(MOST_NAMES)?;
        Ok(Market {
            alloc,
            lead,
            section,
        })
    }

    /// The market of whatever records have a base. It takes over a market of no records, and its room, which is for the stocks
    /// of all names that may come.
    pub fn restore(self, base: &Base) -> Market
        requires none { Represents self [] }
        requires range { IsInRange base.now }
        ensures stands { (capacity : ℕ) (applied : List Record) → base_of applied ≡ Some base.now → IsLawful capacity applied → Represents result applied }
        ensures stand_in { Represents result (stand_in base.now) }
    {
        let lead = self.lead.restore(base);
        let section = self.section.restore(lead.names(), base.carried.list());
        Market {
            alloc: self.alloc,
            lead,
            section,
        }
    }

    /// The base of the applied records, of which the last one is this day; how many records and messages there are is given.
    pub fn base(
        &self,
        alloc: Global,
        records: u64,
        messages: u64,
        day: &Record,
    ) -> Result<Base, NoMemory>
        ensures base { IfOk result (λ base. (earlier : List Record) → is_day day.now ≡ true → Represents self.now (day.now ∷ earlier) → records ≡ length (day.now ∷ earlier)
            → messages ≡ length (messages_of (day.now ∷ earlier)) → base_of (day.now ∷ earlier) ≡ Some base) }
        ensures numbers { IfOk result (λ base. (base.records ≡ records) × (base.messages ≡ messages)) }
        ensures day { IfOk result (λ base. base.day ≡ day.now) }
    {
        // For the proof: it has the invariant, that the names are few enough.
        let _names = self.lead.names();
        Ok(Base {
            records,
            messages,
            day: *day,
            names: self.lead.all_names(alloc)?,
            carried: self.section.carried(alloc)?,
        })
    }

    /// The market of these names and this day with these stocks; none where there aren't as many of them as names. It takes the
    /// room for the stocks of all names that may still come.
    pub fn of(alloc: Global, lead: Lead, section: Section) -> Result<Option<Market>, NoMemory>
        ensures some { IfOk result (λ found. IfSome found (λ market. market ≡ record { directory = lead.directory; today = lead.today; symbols = section.symbols })) }
        ensures none { IfOk result (λ found. IsNone found ↔ (length section.symbols ≢ length lead.directory)) }
        ensures succeeds { most_names ≤ length section.symbols + section.spare → IsOk result }
    {
        let names = lead.names() as usize;
        if section.len() != names {
            return Ok(None);
        }
        let mut section = section;
        section.reserve(MOST_NAMES - names)?;
        Ok(Some(Market {
            alloc,
            lead,
            section,
        }))
    }

    /// Its names and its day, and its stocks, with the room for those of all names that may still come.
    pub fn into_parts(self) -> (Lead, Section)
        ensures lead { result.0 ≡ lead_of self }
        ensures symbols { result.1.symbols ≡ self.symbols }
        ensures room { most_names ≤ length self.symbols + result.1.spare }
    {
        (self.lead, self.section)
    }

    /// How many names were ever listed.
    pub fn names(&self) -> u32
        ensures names { result ≡ length self.now.directory }
        ensures bound { result ≤ most_names }
    {
        self.lead.names()
    }

    /// The id of a name, where it was ever listed.
    pub fn id(&self, name: &[u8; 8]) -> Option<u16>
        ensures { result ≡ position (bytes_eq name.now) self.now.directory }
    {
        self.lead.id(name)
    }

    /// Begins a day.
    fn begin_day(
        &mut self,
        today: Today,
        x: &Record,
        out: &mut Vec<Stamped>,
    ) -> Result<(), NoMemory>
        requires { is_day x.now ≡ true }
        ensures ok { OnOk result (EachEvaluated today x.now self.old self.new out.old.items out.new.items) }
        ensures err { OnErr result ((self.new ≡ self.old) × (out.new.items ≡ out.old.items)) }
        ensures len { vec_len out.new ≤ vec_len out.old + most_of_symbol * length self.old.directory }
        ensures room { vec_len out.old + most_of_symbol * length self.old.directory ≤ vec_capacity out.old → IsOk result }
        ensures keeps_room { vec_capacity out.old ≤ vec_capacity out.new }
        ensures names { self.new.directory ≡ self.old.directory }
    {
        // For the proof: it says of the record what the condition says.
        let _day = x.is_day();
        out.reserve(MOST_OF_SYMBOL * self.lead.names() as usize)?;
        let market = self.lead.begin_day(today);
        self.section.begin_day(x, &market, out);
        Ok(())
    }

    /// Begins a day with its breakers. It stays a call of its own, so that no other record makes room for what it makes.
    #[inline(never)]
    fn start_day(
        &mut self,
        day: Day,
        index_close: Index,
        x: &Record,
        out: &mut Vec<Stamped>,
    ) -> Result<(), NoMemory>
        requires { is_day x.now ≡ true }
        ensures ok { OnOk result (EachEvaluated (record { day = day; breaker = started index_close }) x.now self.old self.new out.old.items out.new.items) }
        ensures err { OnErr result ((self.new ≡ self.old) × (out.new.items ≡ out.old.items)) }
        ensures len { vec_len out.new ≤ vec_len out.old + most_of_symbol * length self.old.directory }
        ensures room { vec_len out.old + most_of_symbol * length self.old.directory ≤ vec_capacity out.old → IsOk result }
        ensures keeps_room { vec_capacity out.old ≤ vec_capacity out.new }
        ensures names { self.new.directory ≡ self.old.directory }
    {
        let breaker = Breaker::start(index_close);
        self.begin_day(Today { day, breaker }, x, out)
    }

    /// The market-wide rules at a clock or an index tick, and then those of each symbol.
    #[inline(never)]
    fn tick(&mut self, x: &Record, out: &mut Vec<Stamped>) -> Result<(), NoMemory>
        requires { is_tick x.now ≡ true }
        ensures ok { OnOk result (Ticks x.now self.old self.new out.old.items out.new.items) }
        ensures err { OnErr result ((self.new ≡ self.old) × (out.new.items ≡ out.old.items)) }
        ensures len { vec_len out.new ≤ vec_len out.old + most_of_names (length self.old.directory) }
        ensures room { vec_len out.old + most_of_names (length self.old.directory) ≤ vec_capacity out.old → IsOk result }
        ensures keeps_room { vec_capacity out.old ≤ vec_capacity out.new }
        ensures names { self.new.directory ≡ self.old.directory }
    {
        out.reserve(2 + MOST_OF_SYMBOL * self.lead.names() as usize)?;
        self.lead.rule(x, out);
        if let Some(market) = self.lead.view() {
            self.section.tick(x, &market, out);
        }
        Ok(())
    }

    /// Evaluates a record for the symbol of an id, on a day that has begun.
    #[inline(always)]
    fn evaluate(&mut self, id: u16, x: &Record, out: &mut Vec<Stamped>) -> Result<(), NoMemory>
        ensures ok { OnOk result (Evaluated id x.now self.old self.new out.old.items out.new.items) }
        ensures err { OnErr result ((self.new ≡ self.old) × (out.new.items ≡ out.old.items)) }
        ensures len { vec_len out.new ≤ vec_len out.old + most_of_symbol }
        ensures room { is_trade x.now ≡ false → vec_len out.old + most_of_symbol ≤ vec_capacity out.old → IsOk result }
        ensures room_for_all { is_trade x.now ≡ false → vec_len out.old + most_of_symbol * length self.old.directory ≤ vec_capacity out.old → IsOk result }
        ensures room_there { (is_trade x.now ≡ true → HasRoomAt self.old.symbols id) → vec_len out.old + most_of_symbol ≤ vec_capacity out.old → IsOk result }
        ensures keeps_room { vec_capacity out.old ≤ vec_capacity out.new }
        ensures names { self.new.directory ≡ self.old.directory }
    {
        let Some(market) = self.lead.view_there() else {
            return Ok(());
        };
        let index = id as usize;
        if self.section.len() <= index {
            return Ok(());
        }
        out.reserve(MOST_OF_SYMBOL)?;
        self.section.evaluate(index, x, market, out)
    }

    /// Makes the symbol of a new name.
    fn make(&mut self, name: [u8; 8]) -> u16
        requires new { position (bytes_eq name) self.old.directory ≡ None }
        requires room { length self.old.directory < most_names }
        ensures finds { Finds name result self.old self.new }
        ensures names { length self.new.directory ≤ length self.old.directory + 1 }
        ensures listed { self.new.directory ≡ self.old.directory ++ name ∷ [] }
        ensures today { self.new.today ≡ self.old.today }
    {
        let symbol = Symbol::new(self.alloc, self.lead.names() as u16).unwrap();
        let id = self.lead.push(name);
        self.section.push(symbol);
        id
    }

    /// The symbol of a name, which is made where the name is new. A new name that finds no room has none, and leaves all
    /// as it was.
    fn find(&mut self, name: [u8; 8]) -> Option<u16>
        ensures finds { is_full_for self.old.directory name ≡ false → IsSomeAnd result (λ id. Finds name id self.old self.new) }
        ensures names { length self.new.directory ≤ length self.old.directory + 1 }
        ensures listed { self.new.directory ≡ with_listed self.old.directory name }
        ensures today { self.new.today ≡ self.old.today }
    {
        // For the proof: it has the invariant, that there are as many symbols as names.
        let _symbols = self.section.len();
        match self.lead.id(&name) {
            Some(id) => Some(id),
            None if self.lead.names() as usize >= MOST_NAMES => None,
            None => Some(self.make(name)),
        }
    }

    /// Lists a name, and evaluates its symbol. Where the directory is full it leaves a new name out, since admission
    /// refuses it.
    #[inline(never)]
    fn list(&mut self, name: [u8; 8], x: &Record, out: &mut Vec<Stamped>) -> Result<(), NoMemory>
        requires { is_trade x.now ≡ false }
        ensures ok { is_full_for self.old.directory name ≡ false → OnOk result (OnToday self.old (λ today. Lists name today x.now self.old self.new out.old.items out.new.items)) }
        ensures err { OnErr result ((self.new ≡ self.old) × (out.new.items ≡ out.old.items)) }
        ensures len { vec_len out.new ≤ vec_len out.old + most_of_symbol }
        ensures room { vec_len out.old + most_of_symbol ≤ vec_capacity out.old → IsOk result }
        ensures keeps_room { vec_capacity out.old ≤ vec_capacity out.new }
        ensures names { length self.new.directory ≤ length self.old.directory + 1 }
    {
        out.reserve(MOST_OF_SYMBOL)?;
        let Some(id) = self.find(name) else {
            return Ok(());
        };
        self.evaluate(id, x, out).unwrap();
        Ok(())
    }

    /// Leads a listing: a new name gets its symbol, which isn't evaluated.
    fn lead_listing(&mut self, name: [u8; 8]) -> MarketView
        requires day { IsSome self.old.today }
        ensures listed { self.new.directory ≡ with_listed self.old.directory name }
        ensures today { self.new.today ≡ self.old.today }
        ensures seen { option_map view_of self.old.today ≡ Some result }
    {
        self.find(name);
        self.lead.view().unwrap()
    }

    /// Leads a record, by what is kept.
    fn keep_lead(&mut self, x: &Record, out: &mut Vec<Stamped>) -> Result<MarketView, NoMemory>
        requires day { is_day x.now ≡ false → IsSome self.old.today }
        ensures kept { OnOk result (lead_of self.new ≡ led x.now (lead_of self.old)) }
        ensures said { OnOk result (out.new.items ≡ out.old.items ++ stamped (moment_of x.now) (rulings x.now self.old.today)) }
        ensures seen { IfOk result (λ view. option_map view_of self.new.today ≡ Some view) }
        ensures err { OnErr result ((self.new ≡ self.old) × (out.new.items ≡ out.old.items)) }
        ensures few { vec_len out.new ≤ vec_len out.old + 2 }
        ensures room { vec_len out.old + 2 ≤ vec_capacity out.old → IsOk result }
        ensures keeps_room { vec_capacity out.old ≤ vec_capacity out.new }
    {
        match *x {
            Record::Listing { name, .. } => Ok(self.lead_listing(name)),
            _ => self.lead.lead(x, out),
        }
    }

    /// Leads a record that is admissible after the led ones: it does what `apply` does, but evaluates no symbol. It appends
    /// the market's messages, and answers what the market then is to its symbols. A day has begun, or the record begins
    /// one. A new name gets a symbol that isn't evaluated: so a market stands for what was led in its names, its day and
    /// its breakers alone, and where a listed symbol was led past it represents no list. An error leaves all as it was, and
    /// there is none where the list has room for two messages.
    pub fn lead(&mut self, x: &Record, out: &mut Vec<Stamped>) -> Result<MarketView, NoMemory>
        requires day { is_day x.now ≡ false → IsSome self.old.today }
        ensures given { (capacity : ℕ) (before : List Record) → IsLed (lead_of self.old) before → verdict capacity before x.now ≡ None
            → OnOk result (out.new.items ≡ out.old.items ++ market_messages (x.now ∷ before)) }
        ensures leads { (capacity : ℕ) (before : List Record) → IsLed (lead_of self.old) before → verdict capacity before x.now ≡ None
            → OnOk result (IsLed (lead_of self.new) (x.now ∷ before)) }
        ensures view { (capacity : ℕ) (before : List Record) → IsLed (lead_of self.old) before → verdict capacity before x.now ≡ None
            → IfOk result (λ view. market_view (x.now ∷ before) ≡ Some view) }
        ensures err { OnErr result ((self.new ≡ self.old) × (out.new.items ≡ out.old.items)) }
        ensures few { vec_len out.new ≤ vec_len out.old + 2 }
        ensures room { vec_len out.old + 2 ≤ vec_capacity out.old → IsOk result }
        ensures keeps_room { vec_capacity out.old ≤ vec_capacity out.new }
    {
        self.keep_lead(x, out)
    }

    /// Applies a record, by what is kept. It is a function of its own so that what the code does at a record is one fact, from
    /// which the clauses of `apply` follow.
    fn keep(&mut self, x: &Record, out: &mut Vec<Stamped>) -> Result<(), NoMemory>
        ensures ok { lacks_room self.old.directory x.now ≡ false → OnOk result (Applies x.now self.old self.new out.old.items out.new.items) }
        ensures err { OnErr result ((self.new ≡ self.old) × (out.new.items ≡ out.old.items)) }
        ensures len { vec_len out.new ≤ vec_len out.old + most_messages }
        ensures room { name_of x.now ≡ None → is_trade x.now ≡ false → vec_len out.old + most_of_names (length self.old.directory) ≤ vec_capacity out.old → IsOk result }
        ensures never_refused { HasRoomFor self.old.symbols x.now → vec_len out.old + most_messages ≤ vec_capacity out.old → IsOk result }
        ensures keeps_room { vec_capacity out.old ≤ vec_capacity out.new }
        ensures names { name_of x.now ≡ None → length self.new.directory ≡ length self.old.directory }
        ensures one_more { length self.new.directory ≤ length self.old.directory + 1 }
    {
        // For the proof: it has the invariant, that the names are few enough.
        let _names = self.lead.names();
        match *x {
            Record::Day {
                day,
                index_close,
                ..
            } => self.start_day(day, index_close, x, out),
            Record::Listing { name, .. } => self.list(name, x, out),
            _ => match x.symbol() {
                Some(symbol) => self.evaluate(symbol, x, out),
                None => self.tick(x, out),
            },
        }
    }

    /// Applies a record that is admissible after the applied ones, and appends the messages of its step. What it appends
    /// of one symbol is what that symbol says alone, over its own records and the market-wide ones. An error
    /// leaves market and list as they were. It takes no memory where the record is neither a Listing nor a Trade and
    /// the list has room for two messages and 16 for each name. Room that is there is never refused: where the list has room
    /// for the most messages of a record, an error comes of a trade alone, whose stock has no room for its deal. The list keeps
    /// its room. A Listing alone may add a name.
    pub fn apply(&mut self, x: &Record, out: &mut Vec<Stamped>) -> Result<(), NoMemory>
        ensures given { (capacity : ℕ) (applied : List Record) → Represents self.old applied → verdict capacity applied x.now ≡ None
            → OnOk result (out.new.items ≡ out.old.items ++ newest_messages (x.now ∷ applied)) }
        ensures stands { (capacity : ℕ) (applied : List Record) → Represents self.old applied → verdict capacity applied x.now ≡ None
            → OnOk result (Represents self.new (x.now ∷ applied)) }
        ensures isolated { (capacity : ℕ) (applied : List Record) (s : ℕ) → Represents self.old applied → IsLawful capacity (x.now ∷ applied)
            → OnOk result (for_symbol s out.new.items ≡ for_symbol s out.old.items ++ newest_isolated s (x.now ∷ applied)) }
        ensures err { OnErr result ((self.new ≡ self.old) × (out.new.items ≡ out.old.items)) }
        ensures few { vec_len out.new ≤ vec_len out.old + most_messages }
        ensures room { name_of x.now ≡ None → is_trade x.now ≡ false
            → vec_len out.old + most_of_names (length self.old.directory) ≤ vec_capacity out.old → IsOk result }
        ensures never_refused { HasRoomFor self.old.symbols x.now → vec_len out.old + most_messages ≤ vec_capacity out.old → IsOk result }
        ensures keeps_room { vec_capacity out.old ≤ vec_capacity out.new }
        ensures names { name_of x.now ≡ None → length self.new.directory ≡ length self.old.directory }
        ensures one_more { length self.new.directory ≤ length self.old.directory + 1 }
    {
        self.keep(x, out)
    }
}
