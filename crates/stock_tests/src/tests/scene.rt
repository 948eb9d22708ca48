//! A stock on a day, and what is said of it.

use super::{at, clock, day, listing, new_day};
use std::alloc::Global;
use std::process::Abort;
use symbol_core::{MarketView, Messages, Symbol};
use wire_in::Record;

/// ABC, the market on 3 June that it is in, and what it said last.
#[derive(Drop)]
pub struct Scene {
    alloc: Global,
    pub symbol: Symbol,
    pub market: MarketView,
    pub out: Messages,
}

impl Scene {
    /// ABC is new, in a market without a halt.
    pub fn new<R: Abort + AllocGlobal>(rt: &R) -> Scene {
        let alloc = rt.alloc();
        let out = Messages::new(alloc).expect(rt, "memory");
        Scene {
            alloc,
            symbol: Symbol::new(alloc, 0).unwrap(),
            market: MarketView {
                day: day(3),
                stopped: false,
            },
            out,
        }
    }

    /// It passes over what may be passed over, as a section does. Whether there is memory for it.
    pub fn take(&mut self, x: &Record) -> bool {
        if self.symbol.pass_quote(x, &self.market) {
            self.out.clear();
            return true;
        }
        self.symbol.evaluate(x, &self.market, &mut self.out).is_ok()
    }

    /// ABC is new again, 3 June begins, ABC is listed, and trading begins at 09:30:00. Whether there is memory for it.
    pub fn begin(&mut self) -> bool {
        self.symbol = Symbol::new(self.alloc, 0).unwrap();
        self.take(&new_day(3)) && self.take(&listing(14_400, 0)) && self.take(&clock(at(34_200)))
    }

    /// Whether ticks bring nothing until then, in nanoseconds of the day.
    pub fn is_due(&self, nanos: u64) -> bool {
        match self.symbol.due() {
            Some(due) => due.until == nanos,
            None => false,
        }
    }
}
