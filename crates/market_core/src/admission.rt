//! Whether a record may follow those that were accepted.

ghost use Rattle.std.specs.Prelude.{◌≡◌, ◌≢◌, ◌↔◌, ◌+◌, ◌<◌, ◌≤◌, ◌^◌, None, Some, false, List, [], ◌∷◌, OnOk, OnErr, IfOk, IsOk, IsTrue, IsNone, unwrap_or, length, position, map, nat_le, replicate, ◌==◌, ◌&&◌, vec_len, vec_capacity};
ghost use Rattle.std.specs.Str.{bytes_eq};
ghost use Rattle.wire_in.specs.declared.record.Record.{Record};
ghost use Rattle.wire_in.specs.Bases.{IsInRange};
ghost use Rattle.wire_in.specs.Records.{symbol_of};
ghost use Rattle.rulebook.specs.Admission.{last_day, most_names, verdict, verdict_at};
ghost use Rattle.rulebook.specs.Base.{base_of, stand_in};
ghost use Rattle.market_core.specs.AdmissionState.{AdmissionState, Represents, Stands, refusal_of, symbol_refusal_of, is_before_day, is_date_early, is_out_of_order, is_listed_id, name_refusal_of, is_full_for, added, set_at, day_after, begun_after, directory_after, listed_after};

use crate::directory::Directory;
use price_core::NoMemory;
use rulebook::MOST_NAMES;
use session_core::{Day, Moment, midnight};
use std::alloc::Global;
use std::marker::Model;
use wire_in::{Base, Record, Refusal};

/// What decides whether a record may follow those admitted before it. Admitted records are numbered from 1 on.
#[derive(Drop)]
pub struct Admission {
    capacity: u64,
    count: u64,
    day: Option<Day>,
    /// The number of the record that began the day, 0 before the first day.
    begun: u64,
    /// The moment of the last record, midnight before the first record.
    last: Moment,
    directory: Directory,
    /// The number of the record that last listed each name, 0 where it isn't known.
    listed: Vec<u64>,
}

impl Model for Admission {
    ghost use Rattle.std.specs.Prelude.{◌≡◌, ◌≤◌, length, vec_len, vec_capacity};
    ghost use Rattle.rulebook.specs.Admission.{most_names};
    ghost use Rattle.market_core.specs.AdmissionState.{AdmissionState};

    ghost Value = { AdmissionState };

    ghost view = { λ a. record {
      capacity = a.capacity;
      count = a.count;
      day = a.day;
      begun = a.begun;
      last = a.last;
      directory = a.directory;
      listed = a.listed.items;
    } };

    ghost invariant = { λ a. (vec_len a.listed ≡ length a.directory) × (most_names ≤ vec_capacity a.listed) };
}

/// Whether a name is listed today: whether the record that last listed it came after the one that began the day.
fn is_listed_id(begun: u64, listed: &[u64], id: u16) -> bool
    ensures { result ≡ is_listed_id begun listed.now id }
{
    match listed.get(id as usize) {
        Some(number) => begun < *number,
        None => false,
    }
}

/// Whether a Day record's date isn't later than the day's.
fn is_date_early(day: Option<Day>, next: &Day) -> bool
    ensures { result ≡ is_date_early day next.now }
{
    match day {
        Some(day) => !next.date.is_after(day.date),
        None => false,
    }
}

/// Whether a record other than a Day comes before the first day.
fn is_before_day(day: Option<Day>, x: &Record) -> bool
    ensures { result ≡ is_before_day day x.now }
{
    match x {
        Record::Day { .. } => false,
        _ => day.is_none(),
    }
}

/// Whether a record comes before the last one: by its moment, or a Day by its date.
fn is_out_of_order(day: Option<Day>, last: Moment, x: &Record) -> bool
    ensures { result ≡ is_out_of_order day last x.now }
{
    match x {
        Record::Day { day: next, .. } => is_date_early(day, next),
        _ => x.moment() < last,
    }
}

/// The day of a record that begins one.
fn day_of(x: &Record) -> Option<Day>
    ensures { result ≡ last_day (x.now ∷ []) }
{
    match *x {
        Record::Day { day, .. } => Some(day),
        _ => None,
    }
}

/// Puts into a list of no numbers, which has room for all names, that no record is known to have listed so many names.
fn put_unknown(listed: &mut Vec<u64>, count: usize)
    requires none { listed.old.items ≡ [] }
    requires few { count ≤ most_names }
    requires room { most_names ≤ vec_capacity listed.old }
    ensures numbers { listed.new.items ≡ replicate count 0 }
    ensures room { vec_capacity listed.old ≤ vec_capacity listed.new }
{
    for _name in 0..count {
        listed.push_reserved(0);
    }
}

impl Admission {
    /// An admission of no records, under a capacity of records. It takes the room for all names, and so no record that is
    /// admitted takes memory.
    pub fn new(alloc: Global, capacity: u64) -> Result<Admission, NoMemory>
        ensures stands { IfOk result (λ a. Represents a []) }
        ensures capacity { IfOk result (λ a. a.capacity ≡ capacity) }
    {
        Ok(Admission {
            capacity,
            count: 0,
            day: None,
            begun: 0,
            last: midnight(),
            directory: Directory::new(alloc)?,
            listed: Vec::with_capacity(alloc, MOST_NAMES)?,
        })
    }

    /// The admission of whatever records have a base, under a capacity of records. It counts as many records as the base, and
    /// none of its names is listed yet. It takes over an admission of no records, and its room.
    pub fn restore(self, capacity: u64, base: &Base) -> Admission
        requires none { Represents self [] }
        requires range { IsInRange base.now }
        ensures capacity { result.capacity ≡ capacity }
        ensures count { result.count ≡ base.now.records }
        ensures stands { (admitted : List Record) → base_of admitted ≡ Some base.now → Stands result admitted }
        ensures stand_in { Stands result (stand_in base.now) }
    {
        let names = base.names.list();
        let mut listed = self.listed;
        put_unknown(&mut listed, names.len());
        Admission {
            capacity,
            count: base.records,
            day: day_of(&base.day),
            begun: base.records,
            last: base.day.moment(),
            directory: self.directory.restore(names),
            listed,
        }
    }

    /// Puts another capacity of records in.
    pub fn limit(&mut self, capacity: u64)
        ensures { self.new ≡ record self.old { capacity = capacity } }
    {
        self.capacity = capacity;
    }

    /// How many records were admitted.
    pub fn count(&self) -> u64
        ensures { result ≡ self.now.count }
    {
        self.count
    }

    /// How many names were ever listed.
    pub fn names(&self) -> u32
        ensures { result ≡ length self.now.directory }
    {
        self.directory.len() as u32
    }

    /// The day of the last Day record.
    pub fn today(&self) -> Option<Day>
        ensures { result ≡ self.now.day }
    {
        self.day
    }

    /// Why the name of a listing is refused: it is listed today, or it is new and the directory is full.
    fn name_refusal(&self, x: &Record) -> Option<Refusal>
        ensures { result ≡ name_refusal_of self.now x.now }
    {
        let Record::Listing { name, .. } = *x else {
            return None;
        };
        match self.directory.id(name) {
            Some(id) if is_listed_id(self.begun, &self.listed, id) => Some(Refusal::AlreadyListed),
            None if self.directory.len() >= MOST_NAMES => Some(Refusal::DirectoryFull),
            _ => None,
        }
    }

    /// Why a record of a symbol is refused, by its moment and its id.
    #[inline(always)]
    fn symbol_refusal(&self, moment: Moment, id: u16) -> Option<Refusal>
        ensures { result ≡ symbol_refusal_of self.now moment id }
    {
        if self.day.is_none() {
            Some(Refusal::NoDay)
        } else if moment < self.last {
            Some(Refusal::OutOfOrder)
        } else if !is_listed_id(self.begun, &self.listed, id) {
            Some(Refusal::UnknownSymbol)
        } else if self.capacity <= self.count {
            Some(Refusal::JournalFull)
        } else {
            None
        }
    }

    /// Why a record that names no symbol by an id is refused.
    #[inline(never)]
    fn other_refusal(&self, x: &Record) -> Option<Refusal>
        requires { symbol_of x.now ≡ None }
        ensures { result ≡ refusal_of self.now x.now }
    {
        if is_before_day(self.day, x) {
            Some(Refusal::NoDay)
        } else if is_out_of_order(self.day, self.last, x) {
            Some(Refusal::OutOfOrder)
        } else if let Some(refusal) = self.name_refusal(x) {
            Some(refusal)
        } else if self.capacity <= self.count {
            Some(Refusal::JournalFull)
        } else {
            None
        }
    }

    /// The first refusal that applies to a record, by what is kept. It is a function of its own so that `verdict` has one
    /// value to say its second clause of.
    #[inline(always)]
    fn refusal(&self, x: &Record) -> Option<Refusal>
        ensures { result ≡ refusal_of self.now x.now }
    {
        match x.symbol() {
            Some(id) => self.symbol_refusal(x.moment(), id),
            None => self.other_refusal(x),
        }
    }

    /// Why a record may not follow the admitted ones: the first of no day, out of order, unknown symbol, already
    /// listed, directory full and journal full that applies, or none.
    #[inline(always)]
    pub fn verdict(&self, x: &Record) -> Option<Refusal>
        ensures kept { result ≡ refusal_of self.now x.now }
        ensures exact { (admitted : List Record) → Represents self.now admitted → result ≡ verdict self.now.capacity admitted x.now }
        ensures exact_at { (admitted : List Record) → Stands self.now admitted → result ≡ verdict_at self.now.capacity self.now.count admitted x.now }
    {
        self.refusal(x)
    }

    /// Lists a name by the record of that number.
    #[inline(never)]
    fn list(&mut self, name: [u8; 8], number: u64)
        requires { is_full_for self.old.directory name ≡ false }
        ensures { self.new ≡ record self.old {
          directory = added self.old.directory (position (bytes_eq name) self.old.directory) name;
          listed = set_at self.old.listed (position (bytes_eq name) self.old.directory) number;
        } }
    {
        match self.directory.id(name) {
            Some(id) => self.listed[id as usize] = number,
            None => {
                self.directory.push(name);
                self.listed.push_reserved(number);
            }
        }
    }

    /// Takes a record's day and name in.
    fn take_in(&mut self, x: &Record)
        requires { refusal_of self.old x.now ≡ None }
        ensures { self.new ≡ record self.old {
          day = day_after self.old.day x.now;
          begun = begun_after self.old x.now;
          directory = directory_after self.old.directory x.now;
          listed = listed_after self.old x.now;
        } }
    {
        match *x {
            Record::Day { day, .. } => {
                self.day = Some(day);
                self.begun = self.count + 1;
            }
            Record::Listing { name, .. } => self.list(name, self.count + 1),
            _ => {}
        }
    }

    /// Admits a record that no refusal applies to. It takes no memory, and so it always succeeds.
    #[inline(always)]
    pub fn admit(&mut self, x: &Record) -> Result<(), NoMemory>
        requires { refusal_of self.old x.now ≡ None }
        ensures stands { (admitted : List Record) → Represents self.old admitted → OnOk result (Represents self.new (x.now ∷ admitted)) }
        ensures stands_on { (admitted : List Record) → Stands self.old admitted → OnOk result (Stands self.new (x.now ∷ admitted)) }
        ensures capacity { self.new.capacity ≡ self.old.capacity }
        ensures count { OnOk result (self.new.count ≡ self.old.count + 1) }
        ensures err { OnErr result (self.new ≡ self.old) }
        ensures succeeds { IsOk result }
    {
        self.take_in(x);
        self.last = x.moment();
        self.count += 1;
        Ok(())
    }
}
