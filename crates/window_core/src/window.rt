//! The eligible trades of the last five minutes of a stock, and their mean.

ghost use Rattle.std.specs.Prelude.{◌≡◌, ℕ, true, false, ◌+◌, ◌≤◌, ◌<◌, ◌++◌, ◌∷◌, [], List, IsOk, IfOk, OnErr, OnOk, filter, option_map, option_to_list, slice_get};
ghost use Rattle.std.specs.Option.{option_map_or};
ghost use Rattle.price_core.specs.Moves.{moved_one_percent};
ghost use Rattle.window_core.specs.Calls.{Call, Advance, Add, Cancel, Restart, moment_in, window};
ghost use Rattle.window_core.specs.Deals.{is_live, is_numbered, least_moment, live, mean_has_moved, mean_of, stays};
ghost use Rattle.window_core.specs.Tallies.{Tallies};
ghost use Rattle.window_core.specs.WindowState.{Represents};

use crate::leaving::{FEW, few_move_from, many_move_from};
use crate::queue::{
    first, keep_live, later, make_room, push_deal, remove, stays_ordered, total_of,
};
use crate::tally::Tally;
use price_core::{NoMemory, Price};
use session_core::{FIVE_MINUTES, Moment, midnight};
use std::alloc::Global;
use std::collections::VecDeque;
use std::marker::Model;

/// A trade that counts for the mean: its moment, its number, by which it can be cancelled, and its price in
/// ten-thousandths of a dollar.
#[derive(Clone, Copy, Debug, PartialEq, Eq)]
pub struct Deal {
    pub moment: Moment,
    pub number: u32,
    pub price: Price,
}

impl Deal {
    /// Whether the deal is less than five minutes old.
    pub(crate) fn is_live(&self, t: Moment) -> bool
        ensures { result ≡ is_live t self.now }
    {
        t.nanos() < self.moment.nanos() + FIVE_MINUTES
    }
}

/// The deals of the last five minutes (LULD Plan, Section V), and beside them the sum of their prices, a moment that none of
/// them is after, whether they are known to be in order, and until when none of them is five minutes old.
#[derive(Debug, Drop)]
pub struct Window {
    items: VecDeque<Deal>,
    sum: u128,
    newest: Moment,
    is_ordered: bool,
    /// In nanoseconds of the day, and without an end where there are no deals. The first deal tells it too, but lies elsewhere
    /// in memory, where a record that asks no more of the deals needn't look.
    until: u64,
}

impl Model for Window {
    ghost use Rattle.std.specs.Prelude.{◌-◌};
    ghost use Rattle.std.specs.VecDeque.{deque_len, deque_capacity};
    ghost use Rattle.window_core.specs.WindowState.{WindowState};
    ghost use Rattle.window_core.specs.Summed.{AccountsFor};

    ghost Value = { WindowState };

    ghost view = { λ w. record { deals = w.items.items; spare = deque_capacity w.items - deque_len w.items } };

    ghost invariant = { λ w. AccountsFor w.sum w.newest w.is_ordered w.until w.items.items };
}

impl Window {
    /// A window without deals. It takes no memory yet.
    pub fn new(alloc: Global) -> Result<Window, NoMemory>
        ensures succeeds { IsOk result }
        ensures empty { IfOk result (λ w. w.deals ≡ []) }
        ensures stands { IfOk result (λ w. Represents w []) }
    {
        Ok(Window {
            items: VecDeque::new(alloc),
            sum: 0,
            newest: midnight(),
            is_ordered: true,
            until: u64::MAX,
        })
    }

    /// Takes room for one more deal: room that is there is never refused. An error leaves the window as it was.
    pub fn reserve(&mut self) -> Result<(), NoMemory>
        ensures ok { OnOk result (1 ≤ self.new.spare) }
        ensures succeeds { 1 ≤ self.old.spare → IsOk result }
        ensures deals { self.new.deals ≡ self.old.deals }
        ensures spare { self.old.spare ≤ self.new.spare }
        ensures stands { (calls : List Call) → Represents self.old calls → Represents self.new calls }
        ensures err { OnErr result (self.new ≡ self.old) }
    {
        make_room(&mut self.items)
    }

    /// Adds a deal, in room that was taken before.
    pub fn add(&mut self, d: Deal)
        requires { 1 ≤ self.old.spare }
        ensures deals { self.new.deals ≡ self.old.deals ++ d ∷ [] }
        ensures spare { self.old.spare ≤ self.new.spare + 1 }
        ensures stands { (calls : List Call) → d.moment ≡ moment_in calls → Represents self.old calls → Represents self.new (Add d ∷ calls) }
    {
        self.sum += u128::from(d.price.units());
        self.is_ordered = stays_ordered(self.is_ordered, self.newest, &d);
        self.newest = later(self.newest, d.moment);
        self.until = self.until.min(d.moment.nanos() + FIVE_MINUTES);
        push_deal(d, &mut self.items);
    }

    /// Whether each deal is known to be less than five minutes old. It takes one comparison, however many deals there are.
    pub fn are_live(&self, t: Moment) -> bool
        ensures { result ≡ true → live t self.now.deals ≡ self.now.deals }
    {
        t.nanos() < self.until
    }

    /// Until when each deal is known to be less than five minutes old, in nanoseconds of the day: by the first of them, where
    /// they are in order; there is no end without deals.
    pub fn live_until(&self) -> u64
        ensures { (u : ℕ) → u < result → live u self.now.deals ≡ self.now.deals }
    {
        self.until
    }

    /// Finds that end anew, once deals have left: by the first deal, where they are in order.
    fn renew_until(&mut self)
        ensures { self.new ≡ self.old }
    {
        if self.is_ordered {
            self.until = match first(&self.items) {
                Some(deal) => deal.moment.nanos() + FIVE_MINUTES,
                None => u64::MAX,
            };
        }
    }

    /// Removes the first deal where it is five minutes old, and says whether it did. Else it finds anew until when none is.
    fn drop_first(&mut self, t: Moment) -> bool
        ensures live { live t self.new.deals ≡ live t self.old.deals }
        ensures spare { self.old.spare ≤ self.new.spare }
    {
        match first(&self.items) {
            Some(deal) if !deal.is_live(t) => {
                self.sum -= u128::from(deal.price.units());
                let _ = self.items.pop_front();
                true
            }
            _ => {
                self.renew_until();
                false
            }
        }
    }

    /// Looks at each deal, and removes those that are five minutes old.
    fn keep_live_of_all(&mut self, t: Moment)
        ensures deals { self.new.deals ≡ live t self.old.deals }
        ensures spare { self.old.spare ≤ self.new.spare }
    {
        keep_live(t, &mut self.items);
        self.sum = total_of(&self.items);
    }

    /// Removes the deals that are five minutes old, where any but the first of them may be.
    fn drop_others(&mut self, t: Moment)
        ensures deals { self.new.deals ≡ live t self.old.deals }
        ensures spare { self.old.spare ≤ self.new.spare }
    {
        if !self.are_live(t) {
            self.keep_live_of_all(t);
        }
    }

    /// Takes a later moment: deals that are five minutes old leave. While deals are in order it looks at those and one more,
    /// however many there are.
    pub fn advance(&mut self, t: Moment)
        ensures deals { self.new.deals ≡ live t self.old.deals }
        ensures spare { self.old.spare ≤ self.new.spare }
        ensures stands { (calls : List Call) → moment_in calls ≤ t → Represents self.old calls → Represents self.new (Advance t ∷ calls) }
    {
        if self.are_live(t) {
            return;
        }
        for _ in 0..=self.items.len() {
            if !self.drop_first(t) {
                break;
            }
        }
        self.drop_others(t);
    }

    fn tally_number(&self, number: u32) -> Tally
        ensures tallies { Tallies result.sum result.count (filter (is_numbered number) self.now.deals) }
    {
        let (front, back) = self.items.as_slices();
        Tally::of_number(number, front).and(&Tally::of_number(number, back))
    }

    /// Removes each deal of a number. It moves deals only where there is one of them.
    pub fn cancel(&mut self, number: u32)
        ensures deals { self.new.deals ≡ filter (stays number) self.old.deals }
        ensures spare { self.old.spare ≤ self.new.spare }
        ensures stands { (calls : List Call) → Represents self.old calls → Represents self.new (Cancel number ∷ calls) }
    {
        let removed = self.tally_number(number);
        if removed.count == 0 {
            return;
        }
        remove(number, &mut self.items);
        self.sum -= removed.sum;
        self.renew_until();
    }

    /// Removes all deals, so that a new run or a new day can begin.
    pub fn restart(&mut self)
        ensures deals { self.new.deals ≡ [] }
        ensures spare { self.old.spare ≤ self.new.spare }
        ensures stands { (calls : List Call) → Represents self.old calls → Represents self.new (Restart ∷ calls) }
    {
        self.items.clear();
        self.sum = 0;
        self.newest = midnight();
        self.is_ordered = true;
        self.until = u64::MAX;
    }

    /// The moment of the first deal, which is the least moment of those that the mean counts. None exactly where the mean is
    /// None.
    pub fn oldest(&self) -> Option<Moment>
        ensures value { result ≡ option_map (λ d. d.moment) (slice_get self.now.deals 0) }
        ensures answer { (calls : List Call) → Represents self.now calls → result ≡ least_moment (window calls) }
    {
        first(&self.items).map(|deal| deal.moment)
    }

    fn tally(&self) -> Tally
        ensures tallies { Tallies result.sum result.count self.now.deals }
        ensures few { result.count < 18446744073709551615 }
    {
        Tally {
            sum: self.sum,
            count: self.items.len() as u64,
        }
    }

    /// Looks at each deal.
    fn tally_each(&self, t: Moment) -> Tally
        ensures tallies { Tallies result.sum result.count (live t self.now.deals) }
        ensures few { result.count < 18446744073709551615 }
    {
        let (front, back) = self.items.as_slices();
        Tally::of(t, front).and(&Tally::of(t, back))
    }

    fn tally_live(&self, t: Moment) -> Tally
        ensures tallies { Tallies result.sum result.count (live t self.now.deals) }
        ensures few { result.count < 18446744073709551615 }
    {
        if self.are_live(t) {
            self.tally()
        } else {
            self.tally_each(t)
        }
    }

    /// The mean of the prices in ten-thousandths of a dollar, rounded half up; None exactly where there are no deals
    /// (LULD Plan, Section V).
    pub fn mean(&self) -> Option<Price>
        ensures value { result ≡ mean_of self.now.deals }
        ensures answer { (calls : List Call) → Represents self.now calls → result ≡ mean_of (window calls) }
    {
        self.tally().mean()
    }

    /// The mean of the prices of these deals and one more that are less than five minutes old, in ten-thousandths of a
    /// dollar, rounded half up; None exactly where there are none (LULD Plan, Section V). While no deal is five minutes
    /// old, it takes a few comparisons, however many deals there are.
    pub fn mean_with(&self, t: Moment, last: &Option<Deal>) -> Option<Price>
        ensures { result ≡ mean_of (live t (self.now.deals ++ option_to_list last.now)) }
    {
        let earlier = self.tally_live(t);
        let last = Tally::of_one(t, last);
        earlier.and(&last).mean()
    }

    /// Whether the mean of the prices is at least one per cent away from a reference price (LULD Plan, Section V); it is
    /// not where there are no deals.
    pub fn mean_has_moved(&self, reference: Price) -> bool
        ensures { result ≡ option_map_or (λ m. moved_one_percent m reference) (mean_of self.now.deals) false }
    {
        self.tally().has_moved(reference)
    }

    /// From when on, at a moment or after it, the mean of those deals that are then less than five minutes old may be at least one
    /// per cent away from a reference price, where no deal is added (LULD Plan, Section V); both in nanoseconds of the day.
    /// It looks at a few deals, or at the first of many.
    pub fn moves_from(&self, from: u64, reference: Price) -> u64
        ensures near { (u : ℕ) → from ≤ u → u < result → mean_has_moved reference (live u self.now.deals) ≡ false }
    {
        if !self.is_ordered {
            return from;
        }
        let all = self.tally();
        if self.items.len() <= FEW {
            return few_move_from(&self.items, &all, from, reference);
        }
        many_move_from(&self.items[0], &all, from, reference)
    }

    /// The same of these deals and one more that are less than five minutes old.
    pub fn mean_has_moved_with(&self, t: Moment, last: &Option<Deal>, reference: Price) -> bool
        ensures { result ≡ option_map_or (λ m. moved_one_percent m reference) (mean_of (live t (self.now.deals ++ option_to_list last.now))) false }
    {
        if !self.are_live(t) {
            return self.mean_of_each_has_moved(t, last, reference);
        }
        let last = Tally::of_one(t, last);
        self.tally().and(&last).has_moved(reference)
    }

    /// The same where a deal may be five minutes old, by a look at each. It stays a call of its own, for whose loop the others
    /// make no room.
    #[inline(never)]
    fn mean_of_each_has_moved(&self, t: Moment, last: &Option<Deal>, reference: Price) -> bool
        ensures { result ≡ option_map_or (λ m. moved_one_percent m reference) (mean_of (live t (self.now.deals ++ option_to_list last.now))) false }
    {
        let earlier = self.tally_each(t);
        let last = Tally::of_one(t, last);
        earlier.and(&last).has_moved(reference)
    }
}
