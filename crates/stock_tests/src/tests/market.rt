//! What a market tells beside its messages, and its room.

use super::{Entry, at, clock, listing, moment, name_of, new_day, record};
use Entry::{Clock, Day, Listing, Tick};
use market_core::{Lead, Market};
use price_core::Index;
use session_core::{Level, Phase};
use wire_out::{Message, Stamped};

/// Begins 3 June and lists the first 16,384 names at 09:00:00, up to the most that there can be. Whether there is memory for it.
fn list_all(market: &mut Market, out: &mut Vec<Stamped>) -> bool {
    let mut is_right = market.apply(&new_day(3), out).is_ok();
    for number in 0..16_384 {
        is_right &= market.apply(&listing(32_400, number), out).is_ok();
    }
    is_right
}

/// Whether as many messages were given until a clock at a nanosecond of the day.
fn has_given(market: &mut Market, nanos: u64, messages: usize, out: &mut Vec<Stamped>) -> bool {
    market.apply(&clock(moment(nanos)), out).is_ok() && out.len() == messages
}

/// Whether it is a message, and says that the stock of an id begins to trade.
fn begins(message: Option<&Stamped>, symbol: u16) -> bool {
    let phase = Phase::Trading;
    match message {
        Some(stamped) => stamped.message == Message::State { symbol, phase },
        None => false,
    }
}

/// Whether behind the messages of the listings each stock begins to trade, in the order of their ids.
fn all_begin(messages: &[Stamped]) -> bool {
    let mut is_right = true;
    for symbol in 0..16_384 {
        is_right &= begins(messages.get(16_384 + usize::from(symbol)), symbol);
    }
    is_right
}

/// Whether all stocks begin to trade at 09:30:00, and not a nanosecond before.
fn all_begin_at_the_open(market: &mut Market, out: &mut Vec<Stamped>) -> bool {
    list_all(market, out)
        && out.len() == 16_384
        && has_given(market, 34_199_999_999_999, 16_384, out)
        && has_given(market, 34_200_000_000_000, 32_768, out)
        && all_begin(out)
}

#[test]
fn each_of_16_384_stocks_begins_to_trade_at_the_open(rt: HostRuntime) {
    let mut market = Market::new(rt.alloc()).expect(&rt, "memory");
    let mut out = Vec::new(rt.alloc());
    assert!(&rt; all_begin_at_the_open(&mut market, &mut out));
}

/// Takes the records. Whether there is memory for them.
fn apply_all(market: &mut Market, entries: &[Entry], out: &mut Vec<Stamped>) -> bool {
    let mut is_right = true;
    for entry in entries {
        is_right &= market.apply(&record(*entry), out).is_ok();
    }
    is_right
}

/// Whether the same record, as many times as asked for, takes no room.
fn is_quiet(market: &mut Market, entry: Entry, times: u32, out: &mut Vec<Stamped>) -> bool {
    let (messages, room) = (out.len(), out.capacity());
    let mut is_right = true;
    for _ in 0..times {
        is_right &= market.apply(&record(entry), out).is_ok();
    }
    is_right && out.len() == messages && out.capacity() == room
}

#[test]
fn quiet_clocks_take_no_room(rt: HostRuntime) {
    let mut market = Market::new(rt.alloc()).expect(&rt, "memory");
    let mut out = Vec::new(rt.alloc());
    let entries = [
        Day(3),
        Listing(36_000, 0),
        Listing(36_000, 1),
        Clock(36_000),
    ];
    assert!(&rt; apply_all(&mut market, &entries, &mut out));
    assert!(&rt; is_quiet(&mut market, Clock(36_000), 1000, &mut out));
}

/// Whether a day has begun, and the market stands still behind a record where it is to.
fn stops(lead: &mut Lead, entry: Entry, want: bool, out: &mut Vec<Stamped>) -> bool {
    let x = record(entry);
    if !x.is_day() && lead.view().is_none() {
        return false;
    }
    match lead.lead(&x, out) {
        Ok(view) => view.stopped == want,
        Err(_) => false,
    }
}

/// Takes records, each with whether the market stands still behind it. Whether it does.
fn leads(lead: &mut Lead, rows: &[(Entry, bool)], out: &mut Vec<Stamped>) -> bool {
    let mut is_right = true;
    for (entry, want) in rows {
        is_right &= stops(lead, *entry, *want, out);
    }
    is_right
}

/// A breaker of level one at 10:00:00, and the resumption of the market at 10:15:00.
fn halt_of_the_market() -> [Stamped; 2] {
    let breaker = Message::Breaker {
        level: Level::One,
        index: Index::new(465_000).unwrap(),
    };
    [
        Stamped {
            moment: at(36_000),
            message: breaker,
        },
        Stamped {
            moment: at(36_900),
            message: Message::MarketResume,
        },
    ]
}

/// Whether the names of 1 and 0 have the ids 0 and 1, and that of 2 has none.
fn has_ids(lead: &Lead) -> bool {
    lead.id(&name_of(1)) == Some(0)
        && lead.id(&name_of(0)) == Some(1)
        && lead.id(&name_of(2)).is_none()
}

#[test]
fn a_led_market_gives_its_own_messages_alone(rt: HostRuntime) {
    let mut lead = Lead::new(rt.alloc()).expect(&rt, "memory");
    let mut out = Vec::new(rt.alloc());
    let rows = [
        (Day(3), false),
        (Listing(32_400, 1), false),
        (Listing(32_400, 0), false),
        (Clock(36_000), false),
        (Tick(36_000, 465_000), true),
        (Clock(36_900), false),
    ];
    assert!(&rt; leads(&mut lead, &rows, &mut out));
    assert!(&rt; out.as_slice() == halt_of_the_market().as_slice());
    assert!(&rt; has_ids(&lead));
}
