//! Messages, counted by kind.

ghost use Rattle.std.specs.Prelude.{◌≡◌, ◌+◌, ◌<◌, ◌^◌, ◌++◌, [], List, length};
ghost use Rattle.wire_out.specs.declared.message.Stamped.{Stamped};
ghost use Rattle.gen_core.specs.Tallies.{tally_of};
ghost use Rattle.gen_core.specs.SummaryLines.{IsSum};
ghost use Rattle.gen_core.specs.InternalTally.{counted};

use wire_out::{Message, Stamped};

/// How many messages were counted, and how many of each kind.
#[derive(Clone, Copy, Debug, PartialEq, Eq)]
pub struct Tally {
    pub messages: u64,
    pub listed: u64,
    pub state: u64,
    pub band: u64,
    pub straddle: u64,
    pub collar: u64,
    pub release: u64,
    pub short: u64,
    pub breaker: u64,
    pub resume: u64,
}

impl Tally {
    /// No messages.
    pub fn new() -> Tally
        ensures none { result ≡ tally_of [] }
        ensures sum { IsSum result }
    {
        Tally {
            messages: 0,
            listed: 0,
            state: 0,
            band: 0,
            straddle: 0,
            collar: 0,
            release: 0,
            short: 0,
            breaker: 0,
            resume: 0,
        }
    }

    /// Counts one message more.
    fn count_one(&mut self, message: &Message)
        requires room { self.old.messages + 1 < 2 ^ 64 }
        requires sum { IsSum self.old }
        ensures { self.new ≡ counted self.old message.now }
    {
        self.messages += 1;
        match message {
            Message::Listed { .. } => self.listed += 1,
            Message::State { .. } => self.state += 1,
            Message::Band { .. } => self.band += 1,
            Message::Straddle { .. } => self.straddle += 1,
            Message::Collar { .. } => self.collar += 1,
            Message::Release { .. } => self.release += 1,
            Message::Short { .. } => self.short += 1,
            Message::Breaker { .. } => self.breaker += 1,
            Message::MarketResume => self.resume += 1,
        }
    }

    /// Counts more messages.
    pub fn count(&mut self, messages: &[Stamped])
        requires room { self.old.messages + length messages.now < 2 ^ 64 }
        requires sum { IsSum self.old }
        ensures counts { (before : List Stamped) → self.old ≡ tally_of before → self.new ≡ tally_of (before ++ messages.now) }
        ensures sum { IsSum self.new }
        ensures all { self.new.messages ≡ self.old.messages + length messages.now }
    {
        for stamped in messages {
            self.count_one(&stamped.message);
        }
    }
}
