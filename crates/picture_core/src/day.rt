//! The messages of one day, of several days one after the other.

ghost use Rattle.std.specs.Prelude.{◌≡◌, ◌+◌, ◌<◌, ◌≤◌, ◌++◌, ◌∷◌, ◌^◌, [], if◌then◌else◌, IfOk, OnOk};
ghost use Rattle.std.specs.String.{string_bytes};
ghost use Rattle.picture_core.specs.Days.{no_days, begins_day, count_with, messages_with, days_with, number_of, day_words};

use price_core::NoMemory;
use session_core::{Moment, midnight};
use std::alloc::Global;
use std::marker::Model;
use wire_out::Stamped;

/// Messages that are taken one by one: how many days have begun, the last moment, and the messages of the day that is asked for.
#[derive(Drop)]
pub struct DayKeeper {
    count: u64,
    last: Moment,
    messages: Vec<Stamped>,
}

impl Model for DayKeeper {
    ghost use Rattle.picture_core.specs.Days.{Days};

    ghost Value = { Days };

    ghost view = { λ k. record { count = k.count; last = k.last; messages = k.messages.items } };
}

/// Puts a message behind the others.
fn put(messages: &mut Vec<Stamped>, x: &Stamped) -> Result<(), NoMemory>
    ensures { OnOk result (messages.new.items ≡ messages.old.items ++ x.now ∷ []) }
{
    messages.extend_from_slice(&[*x])?;
    Ok(())
}

/// Puts a message behind the others of its day, or begins a day with it.
fn put_in_day(messages: &mut Vec<Stamped>, begins: bool, x: &Stamped) -> Result<(), NoMemory>
    ensures { OnOk result (messages.new.items ≡ (if begins then x.now ∷ [] else messages.old.items ++ x.now ∷ [])) }
{
    if begins {
        messages.clear();
    }
    put(messages, x)
}

impl DayKeeper {
    /// Before the first message.
    pub fn new(alloc: Global) -> DayKeeper
        ensures { result ≡ no_days }
    {
        DayKeeper {
            count: 0,
            last: midnight(),
            messages: Vec::new(alloc),
        }
    }

    /// How many days have begun.
    pub fn count(&self) -> u64
        ensures { result ≡ self.now.count }
    {
        self.count
    }

    /// The messages of the day that is asked for.
    pub fn messages(&self) -> &[Stamped]
        ensures { result.now ≡ self.now.messages }
    {
        &self.messages
    }

    /// Whether a message begins a day.
    fn begins_day(&self, x: &Stamped) -> bool
        ensures { result ≡ begins_day self.now x.now }
    {
        self.count == 0 || x.moment.nanos() < self.last.nanos()
    }

    /// How many days have begun with a message.
    fn count_with(&self, x: &Stamped) -> u64
        requires { self.now.count + 1 < 2 ^ 64 }
        ensures exact { result ≡ count_with self.now x.now }
        ensures bound { result ≤ self.now.count + 1 }
    {
        if self.begins_day(x) {
            self.count + 1
        } else {
            self.count
        }
    }

    /// Keeps a message, where it is of the day that is asked for.
    fn keep(&mut self, wanted: Option<u64>, x: &Stamped) -> Result<(), NoMemory>
        requires { self.old.count + 1 < 2 ^ 64 }
        ensures { OnOk result (self.new ≡ record self.old { messages = messages_with wanted self.old x.now }) }
    {
        match wanted {
            Some(number) => {
                if self.count_with(x) == number {
                    put(&mut self.messages, x)?;
                }
            }
            None => {
                let begins = self.begins_day(x);
                put_in_day(&mut self.messages, begins, x)?;
            }
        }
        Ok(())
    }

    /// Takes a message.
    pub fn take(&mut self, wanted: Option<u64>, x: &Stamped) -> Result<(), NoMemory>
        requires { self.old.count + 1 < 2 ^ 64 }
        ensures exact { OnOk result (self.new ≡ days_with wanted self.old x.now) }
        ensures bound { OnOk result (self.new.count ≤ self.old.count + 1) }
    {
        let count = self.count_with(x);
        self.keep(wanted, x)?;
        self.count = count;
        self.last = x.moment;
        Ok(())
    }

    /// The words for the day that is asked for, where there are several.
    #[tactic(auto, unfolding(crate::specs::Days::day_words))]
    pub fn words(&self, alloc: Global, wanted: Option<u64>) -> Result<String, NoMemory>
        ensures { IfOk result (λ text. string_bytes text ≡ day_words wanted self.now) }
    {
        let count = self.count;
        if count <= 1 {
            return Ok(String::new(alloc));
        }
        let number = wanted.unwrap_or(count);
        Ok(format!(in alloc; ", day {number} of {count}")?)
    }
}
