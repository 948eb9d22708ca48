//! Until when ticks bring a stock nothing.

use super::scene::Scene;
use super::script::{Script, play};
use super::{at, clock, listing, new_day, price, trade};
use Step::{
    Begin, Clock, Day, DueAt, Halt, InPhase, IsListed, Listing, NeverDue, Opening, Quote,
    StopMarket, Trade,
};
use price_core::OptionalPrice;
use session_core::Phase;
use std::process::Abort;
use wire_in::{NoticeKind, Record};

/// What happens to ABC, or what it has to answer. Times are seconds of the day, and prices are in ten-thousandths of a dollar.
#[derive(Clone, Copy)]
enum Step {
    /// A market-wide halt is in effect from now on.
    StopMarket,
    /// ABC is new again, 3 June begins, ABC is listed, and trading begins at 09:30:00.
    Begin,
    Day(u8),
    Listing,
    Clock(u64),
    /// An opening trade at $50.00.
    Opening(u64),
    /// A trade of a number and a price.
    Trade(u64, u32, u64),
    /// A bid and an offer.
    Quote(u64, u64, u64),
    Halt(u64),
    IsListed(bool),
    InPhase(Phase),
    DueAt(u64),
    NeverDue,
}

fn quote(seconds: u64, bid: u64, offer: u64) -> Record {
    Record::Quote {
        moment: at(seconds),
        symbol: 0,
        bid: OptionalPrice::of(Some(price(bid))),
        offer: OptionalPrice::of(Some(price(offer))),
        bid_size: 1,
        offer_size: 1,
    }
}

fn halt(seconds: u64) -> Record {
    Record::Notice {
        moment: at(seconds),
        symbol: 0,
        kind: NoticeKind::Halt,
    }
}

impl Script<Step> for Scene {
    fn answers(&mut self, step: &Step) -> bool {
        match *step {
            StopMarket => {
                self.market.stopped = true;
                true
            }
            Begin => self.begin(),
            Day(number) => self.take(&new_day(number)),
            Listing => self.take(&listing(14_400, 0)),
            Clock(seconds) => self.take(&clock(at(seconds))),
            Opening(seconds) => self.take(&trade(at(seconds), 1, 500_000, 1)),
            Trade(seconds, number, units) => self.take(&trade(at(seconds), number, units, 0)),
            Quote(seconds, bid, offer) => self.take(&quote(seconds, bid, offer)),
            Halt(seconds) => self.take(&halt(seconds)),
            IsListed(want) => self.symbol.is_listed() == want,
            InPhase(want) => self.symbol.phase() == want,
            DueAt(seconds) => self.is_due(seconds.wrapping_mul(1_000_000_000)),
            NeverDue => self.is_due(u64::MAX),
        }
    }
}

/// Takes the steps from a new scene on.
fn follow<R: Abort + AllocGlobal>(rt: &R, steps: &[Step]) {
    play(rt, &mut Scene::new(rt), steps)
}

#[test]
fn a_symbol_is_listed_from_its_listing_to_the_end_of_the_day(rt: HostRuntime) {
    follow(
        &rt,
        &[
            IsListed(false),
            Day(3),
            Listing,
            IsListed(true),
            Clock(57_600),
            InPhase(Phase::Closed),
            Day(4),
            IsListed(false),
            InPhase(Phase::Shut),
        ],
    )
}

#[test]
fn an_unlisted_or_closed_symbol_is_due_at_no_tick(rt: HostRuntime) {
    follow(
        &rt,
        &[
            Day(3),
            NeverDue,
            Begin,
            Opening(57_599),
            Clock(57_600),
            NeverDue,
        ],
    )
}

#[test]
fn a_shut_symbol_is_due_at_the_open(rt: HostRuntime) {
    follow(&rt, &[Day(3), Listing, DueAt(34_200)])
}

#[test]
fn a_symbol_without_trades_is_due_where_percentages_may_change(rt: HostRuntime) {
    follow(
        &rt,
        &[
            Begin,
            DueAt(35_100),
            Begin,
            Clock(35_100),
            DueAt(56_100),
            Begin,
            Clock(56_100),
            DueAt(57_600),
        ],
    )
}

#[test]
fn a_symbol_is_due_where_a_mean_may_come(rt: HostRuntime) {
    follow(
        &rt,
        &[
            Begin,
            Trade(34_210, 1, 500_000),
            DueAt(34_500),
            // With bands.
            Begin,
            Opening(34_210),
            Trade(34_211, 2, 505_000),
            DueAt(34_510),
            // A mean far from the reference price before 30 seconds are over.
            Begin,
            Opening(34_210),
            Trade(34_211, 2, 515_000),
            DueAt(34_240),
            // Behind 30 seconds.
            Begin,
            Opening(34_210),
            Trade(34_211, 2, 505_000),
            Quote(34_240, 499_900, 500_100),
            DueAt(34_510),
        ],
    )
}

#[test]
fn a_symbol_whose_trades_are_near_its_reference_price_is_due_at_no_end_of_a_trade(rt: HostRuntime) {
    follow(
        &rt,
        &[
            Begin,
            Opening(34_210),
            Trade(34_211, 2, 504_999),
            DueAt(35_100),
            Begin,
            Opening(34_210),
            Trade(34_400, 2, 495_001),
            Clock(34_510),
            Clock(34_700),
            Clock(35_100),
            Trade(40_000, 3, 504_999),
            DueAt(56_100),
        ],
    )
}

#[test]
fn a_limit_state_is_due_after_15_seconds_and_a_pause_after_five_minutes(rt: HostRuntime) {
    follow(
        &rt,
        &[
            Begin,
            Opening(34_200),
            Quote(36_000, 474_900, 475_000),
            Trade(36_005, 2, 475_000),
            DueAt(36_015),
            Begin,
            Opening(34_200),
            Quote(36_000, 474_900, 475_000),
            Clock(36_015),
            Quote(36_020, 474_900, 476_000),
            DueAt(36_315),
        ],
    )
}

#[test]
fn a_halted_or_stopped_symbol_is_due_at_the_close(rt: HostRuntime) {
    follow(
        &rt,
        &[
            Begin,
            Opening(34_200),
            Halt(36_000),
            DueAt(57_600),
            StopMarket,
            Begin,
            DueAt(57_600),
        ],
    )
}

#[test]
fn a_tick_that_is_passed_over_leaves_the_due_as_it_was(rt: HostRuntime) {
    follow(
        &rt,
        &[
            Begin,
            Opening(34_200),
            Halt(34_201),
            Clock(34_600),
            Clock(40_000),
            DueAt(57_600),
        ],
    )
}

#[test]
fn a_tick_at_which_an_old_trade_leaves_finds_the_next_due(rt: HostRuntime) {
    follow(
        &rt,
        &[
            Begin,
            Opening(34_210),
            Trade(34_260, 2, 499_000),
            Trade(34_261, 3, 513_000),
            DueAt(34_510),
            Clock(34_510),
            DueAt(34_560),
            Clock(34_561),
            DueAt(35_100),
        ],
    )
}

#[test]
fn a_quotation_at_which_an_old_trade_leaves_finds_the_next_due(rt: HostRuntime) {
    follow(
        &rt,
        &[
            Begin,
            Opening(34_210),
            Trade(34_260, 2, 499_000),
            Trade(34_261, 3, 513_000),
            DueAt(34_510),
            Quote(34_510, 499_900, 500_100),
            DueAt(34_560),
            Quote(34_561, 499_900, 500_100),
            DueAt(35_100),
        ],
    )
}

#[test]
fn a_trade_that_leaves_and_keeps_the_mean_near_wakes_no_stock(rt: HostRuntime) {
    follow(
        &rt,
        &[
            Begin,
            Opening(34_210),
            Trade(34_260, 2, 506_000),
            Trade(34_261, 3, 494_000),
            DueAt(34_560),
        ],
    )
}
