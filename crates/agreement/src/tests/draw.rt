//! Numbers that are drawn for a day.

ghost use Rattle.std.specs.Prelude.{◌<◌};

use price_core::{Index, Leverage, OptionalPrice, Price, Tier, Unmatched};
use session_core::{Close, Date, Day, Moment, Profile};
use wire_in::{NoticeKind, Record};

/// Records of a few days with three symbols, drawn by a linear congruential generator. Some of them aren't admissible.
#[derive(Clone, Copy)]
pub struct Draw {
    state: u64,
    days: u64,
    seconds: u64,
}

impl Draw {
    /// A draw with that seed, before its first day.
    pub fn new(seed: u64) -> Draw {
        Draw {
            state: seed,
            days: 0,
            seconds: 0,
        }
    }

    fn step(&mut self) {
        self.state = self
            .state
            .wrapping_mul(6_364_136_223_846_793_005)
            .wrapping_add(1_442_695_040_888_963_407);
    }

    /// A number below n.
    fn below(&mut self, n: u64) -> u64
        requires { 0 < n }
        ensures { result < n }
    {
        self.step();
        (self.state >> 33) % n
    }

    fn symbol(&mut self) -> u16 {
        self.below(3) as u16
    }

    /// A price near $20.00.
    fn price(&mut self) -> Price {
        let units = [
            200_000, 199_000, 190_000, 189_900, 180_000, 202_000, 210_000, 210_100,
        ];
        Price::of(units[self.below(8) as usize].clamp(1, 99_999_999_999))
    }

    /// A value near a level of a close of 5000.00.
    fn index(&mut self) -> Index {
        let hundredths = [
            500_000, 490_000, 465_001, 465_000, 500_000, 499_000, 500_000, 499_000,
        ];
        Index::new(hundredths[self.below(8) as usize].clamp(1, 99_999_999)).unwrap()
    }

    /// The next day of June 2024 at 09:29:00, by turns with each profile.
    fn day(&mut self) -> Record {
        self.days = self.days.wrapping_add(1);
        self.seconds = 34_140;
        let date = Date::of(2024, 6, (self.days % 28) as u8 + 1);
        let profile = if self.days % 2 == 0 {
            Profile::Before18
        } else {
            Profile::Since18
        };
        Record::Day {
            moment: self.moment(),
            day: Day {
                date: date.unwrap(),
                close: Close::Regular,
                profile,
            },
            index_close: Index::new(500_000).unwrap(),
        }
    }

    fn moment(&self) -> Moment {
        Moment::new(self.seconds.min(86_399) * 1_000_000_000).unwrap()
    }

    /// A listing of one of three names.
    fn listing(&mut self, moment: Moment) -> Record {
        let letter = b'A' + self.below(3) as u8;
        Record::Listing {
            moment,
            name: [letter, 0, 0, 0, 0, 0, 0, 0],
            tier: Tier::One,
            leverage: Leverage::new(10).unwrap(),
            close: Some(Price::of(200_000)),
        }
    }

    fn trade(&mut self, moment: Moment) -> Record {
        Record::Trade {
            moment,
            symbol: self.symbol(),
            number: self.below(4) as u32,
            price: self.price(),
            size: 100,
            flags: (self.below(5) % 3) as u16,
        }
    }

    fn quote(&mut self, moment: Moment) -> Record {
        Record::Quote {
            moment,
            symbol: self.symbol(),
            bid: OptionalPrice::of(Some(self.price())),
            offer: OptionalPrice::of(Some(self.price())),
            bid_size: 1,
            offer_size: 1,
        }
    }

    fn cancel(&mut self, moment: Moment) -> Record {
        Record::Cancel {
            moment,
            symbol: self.symbol(),
            number: self.below(4) as u32,
        }
    }

    fn notice(&mut self, moment: Moment) -> Record {
        let kind = match self.below(4) {
            0 => NoticeKind::OpenQuote,
            1 => NoticeKind::PauseNow,
            2 => NoticeKind::Halt,
            _ => NoticeKind::Resume,
        };
        Record::Notice {
            moment,
            symbol: self.symbol(),
            kind,
        }
    }

    fn indication(&mut self, moment: Moment) -> Record {
        let unmatched = match self.below(3) {
            0 => Unmatched::Nothing,
            1 => Unmatched::Buy,
            _ => Unmatched::Sell,
        };
        Record::Indication {
            moment,
            symbol: self.symbol(),
            price: self.price(),
            unmatched,
        }
    }

    /// The next record, up to a minute and a half after the last, or seldom a day.
    pub fn record(&mut self) -> Record {
        if self.days == 0 || self.below(60) == 0 {
            return self.day();
        }
        self.seconds = self.seconds.min(86_000) + 15 * self.below(7);
        let moment = self.moment();
        let kind = self.below(16);
        self.record_at(moment, kind)
    }

    /// A record of one of sixteen kinds, some of which are the same.
    fn record_at(&mut self, moment: Moment, kind: u64) -> Record {
        match kind {
            0..=2 => self.listing(moment),
            3..=5 => self.trade(moment),
            6..=8 => self.quote(moment),
            9 => self.cancel(moment),
            10 => self.notice(moment),
            11 => self.indication(moment),
            12 => Record::IndexTick {
                moment,
                value: self.index(),
            },
            _ => Record::Clock { moment },
        }
    }
}
