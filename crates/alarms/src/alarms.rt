//! Moments of many places, searched for those that are due.

ghost use Rattle.std.specs.Prelude.{ℕ, List, ◌≡◌, ◌+◌, ◌*◌, ◌<◌, ◌≤◌, ◌++◌, ◌∷◌, [], None, IfOk, IfSome, OnOk, OnErr, drop, length, max, replicate, slice_get, slice_index, slice_set, vec_len, vec_capacity};
ghost use Rattle.alarms.specs.Bounds.{AreBounds, AreLevels, IsLeast};
ghost use Rattle.alarms.specs.Due.{IsFirstDue, NoneDue};

use price_core::NoMemory;
use std::alloc::Global;
use std::marker::Model;

/// How many places have one bound, and how many such bounds have one bound of a group.
const PLACES: usize = 8;

/// How many places a group has.
const GROUP: usize = PLACES * PLACES;

/// A moment for each place, in nanoseconds. To find those that are due takes one comparison for a group of 64 places of
/// which none is.
#[derive(Drop)]
pub struct Alarms {
    moments: Vec<u64>,
    /// For each 8 places at most the least of their moments.
    bounds: Vec<u64>,
    /// For each 8 bounds at most the least of them.
    groups: Vec<u64>,
}

impl Model for Alarms {
    ghost use Rattle.std.specs.Prelude.{ℕ, List};
    ghost use Rattle.alarms.specs.Bounds.{AreLevels};

    ghost Value = { List ℕ };

    ghost view = { λ alarms. alarms.moments.items };

    ghost invariant = { λ alarms. AreLevels alarms.groups.items alarms.bounds.items alarms.moments.items };
}

/// The least of some numbers. It looks at each, so that the compiler can look at several at a time.
fn least(numbers: &[u64]) -> u64
    ensures { IsLeast result 0 (length numbers.now) numbers.now }
{
    let mut least = u64::MAX;
    for number in numbers {
        least = least.min(*number);
    }
    least
}

/// The least of fewer than 8 numbers. It stays a call of its own: where there are 8, the compiler then knows how many.
#[inline(never)]
fn least_of_few(numbers: &[u64]) -> u64
    ensures { IsLeast result 0 (length numbers.now) numbers.now }
{
    least(numbers)
}

/// The least of the 8 numbers from a place on, or of those that there are.
fn least_from(numbers: &[u64], first: usize) -> u64
    requires { first ≤ length numbers.now }
    ensures { IsLeast result first (first + 8) numbers.now }
{
    let rest = &numbers[first..];
    if rest.len() < PLACES {
        return least_of_few(rest);
    }
    least(&rest[..PLACES])
}

/// The first due place from one on and before another.
fn first_due(moments: &[u64], from: usize, before: usize, t: u64) -> Option<usize>
    requires { before ≤ length moments.now }
    ensures some { IfSome result (λ place. IsFirstDue t from place moments.now) }
    ensures none { result ≡ None → NoneDue t from before moments.now }
{
    for place in from..before {
        if moments[place] <= t {
            return Some(place);
        }
    }
    None
}

/// Makes the bound of one block exact.
fn make_exact(bounds: &mut [u64], moments: &[u64], block: usize)
    requires block { block < length bounds.old }
    requires bounds { AreBounds bounds.old moments.now }
    ensures bounds { AreBounds bounds.new moments.now }
    ensures groups { (groups : List ℕ) → AreBounds groups bounds.old → AreBounds groups bounds.new }
    ensures len { length bounds.new ≡ length bounds.old }
{
    // What was read has 64 bits, which isn't known of the list.
    let _bound = bounds[block];
    bounds[block] = least_from(moments, PLACES * block);
}

fn push(moments: &mut Vec<u64>, moment: u64)
    requires { vec_len moments.old + 1 ≤ vec_capacity moments.old }
    ensures { moments.new.items ≡ moments.old.items ++ moment ∷ [] }
{
    moments.push(moment).unwrap();
}

/// Gives a moment that comes behind the others a bound: that of the last ones, or, where those are 8, one more.
fn bound_next(bounds: &mut Vec<u64>, place: usize, moment: u64)
    requires { vec_len bounds.old + 1 ≤ vec_capacity bounds.old }
    ensures { (moments : List ℕ) → length moments ≡ place → AreBounds bounds.old.items moments → AreBounds bounds.new.items (moments ++ moment ∷ []) }
{
    let block = place / PLACES;
    if block < bounds.len() {
        bounds[block] = bounds[block].min(moment);
    } else {
        push(bounds, moment);
    }
}

/// Gives a moment that comes behind the others its bounds.
fn bound_both(bounds: &mut Vec<u64>, groups: &mut Vec<u64>, place: usize, moment: u64)
    requires bounds { vec_len bounds.old + 1 ≤ vec_capacity bounds.old }
    requires groups { vec_len groups.old + 1 ≤ vec_capacity groups.old }
    requires enough { length bounds.old.items ≤ 8 * length groups.old.items }
    ensures { (moments : List ℕ) → length moments ≡ place → AreLevels groups.old.items bounds.old.items moments → AreLevels groups.new.items bounds.new.items (moments ++ moment ∷ []) }
{
    let block = place / PLACES;
    if block < bounds.len() {
        let group = block / PLACES;
        bounds[block] = bounds[block].min(moment);
        groups[group] = groups[group].min(moment);
    } else {
        bound_next(groups, block, moment);
        push(bounds, moment);
    }
}

/// Makes the first numbers, so many, 0.
fn clear_first(numbers: &mut [u64], count: usize)
    requires { count ≤ length numbers.old }
    ensures { numbers.new ≡ replicate count 0 ++ drop count numbers.old }
{
    numbers[..count].fill(0);
}

impl Alarms {
    /// No places. It takes no memory yet.
    pub fn new(alloc: Global) -> Alarms
        ensures { result ≡ [] }
    {
        Alarms {
            moments: Vec::new(alloc),
            bounds: Vec::new(alloc),
            groups: Vec::new(alloc),
        }
    }

    /// So many places, each at one moment.
    pub fn all_at(alloc: Global, moment: u64, count: usize) -> Result<Alarms, NoMemory>
        ensures { IfOk result (λ alarms. alarms ≡ replicate count moment) }
    {
        let blocks = count.div_ceil(PLACES);
        Ok(Alarms {
            moments: vec![in alloc; moment; count]?,
            bounds: vec![in alloc; moment; blocks]?,
            groups: vec![in alloc; moment; blocks.div_ceil(PLACES)]?,
        })
    }

    /// How many places there are.
    pub fn len(&self) -> usize
        ensures { result ≡ length self.now }
    {
        self.moments.len()
    }

    /// The moment of a place; None exactly where there is no such place.
    pub fn get(&self, place: usize) -> Option<u64>
        ensures { result ≡ slice_get self.now place }
    {
        self.moments.get(place).copied()
    }

    /// Adds a place behind the others. An error leaves all as it was.
    pub fn push(&mut self, moment: u64) -> Result<(), NoMemory>
        ensures ok { OnOk result (self.new ≡ self.old ++ moment ∷ []) }
        ensures err { OnErr result (self.new ≡ self.old) }
    {
        self.moments.reserve(1)?;
        self.bounds.reserve(1)?;
        self.groups.reserve(1)?;
        let place = self.moments.len();
        bound_both(&mut self.bounds, &mut self.groups, place, moment);
        push(&mut self.moments, moment);
        Ok(())
    }

    /// Sets the moment of a place. It takes one store and one comparison where the moment isn't before the bound of its places.
    pub fn set(&mut self, place: usize, moment: u64)
        requires { place < length self.old }
        ensures { self.new ≡ slice_set self.old place moment }
    {
        let block = place / PLACES;
        self.moments[place] = moment;
        if moment < self.bounds[block] {
            let group = block / PLACES;
            self.bounds[block] = moment;
            self.groups[group] = self.groups[group].min(moment);
        }
    }

    /// Sets the moment of a place that was due, and makes its bounds exact. `set` leaves them at the moment that has come, and the
    /// next search would look at all these places in vain.
    #[inline(never)]
    pub fn put_off(&mut self, place: usize, moment: u64)
        requires { place < length self.old }
        ensures { self.new ≡ slice_set self.old place moment }
    {
        let block = place / PLACES;
        let group = block / PLACES;
        self.moments[place] = moment;
        self.bounds[block] = least_from(&self.moments, PLACES * block);
        self.groups[group] = least_from(&self.bounds, PLACES * group);
    }

    /// Makes the first places, so many, due at every moment.
    pub fn make_due(&mut self, count: usize)
        requires { count ≤ length self.old }
        ensures { self.new ≡ replicate count 0 ++ drop count self.old }
    {
        clear_first(&mut self.moments, count);
        clear_first(&mut self.bounds, count.div_ceil(PLACES));
        clear_first(&mut self.groups, count.div_ceil(GROUP));
    }

    /// The first due place of one block from a place of it on. Where none of the rest is due, the bound becomes exact. It stays a
    /// call of its own, as that of a group does.
    #[inline(never)]
    fn first_of_block(&mut self, block: usize, from: usize, t: u64) -> Option<usize>
        requires block { 8 * block < length self.old }
        requires from { 8 * block ≤ from }
        ensures some { IfSome result (λ place. IsFirstDue t from place self.old) }
        ensures none { result ≡ None → NoneDue t from (8 * block + 8) self.old }
        ensures same { self.new ≡ self.old }
    {
        let first = PLACES * block;
        let count = (self.moments.len() - first).min(PLACES);
        if let Some(place) = first_due(&self.moments, from, first + count, t) {
            return Some(place);
        }
        make_exact(&mut self.bounds, &self.moments, block);
        None
    }

    /// The first due place of one block from a place on. Where the block's bound hasn't come, none is.
    fn next_of_block(&mut self, block: usize, from: usize, t: u64) -> Option<usize>
        requires { 8 * block < length self.old }
        ensures some { IfSome result (λ place. IsFirstDue t (max from (8 * block)) place self.old) }
        ensures none { result ≡ None → NoneDue t (max from (8 * block)) (8 * block + 8) self.old }
        ensures same { self.new ≡ self.old }
    {
        if t < self.bounds[block] {
            return None;
        }
        self.first_of_block(block, from.max(PLACES * block), t)
    }

    /// The first due place of one group from a place of it on. Where none of the rest is due, the group's bound becomes exact. It
    /// stays a call of its own: joined into the loop over groups, it would have that loop reckon with its places at each group.
    #[inline(never)]
    fn first_of_group(&mut self, group: usize, from: usize, t: u64) -> Option<usize>
        requires group { 64 * group < length self.old }
        requires from { 64 * group ≤ from }
        ensures some { IfSome result (λ place. IsFirstDue t from place self.old) }
        ensures none { result ≡ None → NoneDue t from (64 * group + 64) self.old }
        ensures same { self.new ≡ self.old }
    {
        let first = PLACES * group;
        let count = (self.bounds.len() - first).min(PLACES);
        for block in from / PLACES..first + count {
            let found = self.next_of_block(block, from, t);
            if found.is_some() {
                return found;
            }
        }
        make_exact(&mut self.groups, &self.bounds, group);
        None
    }

    /// The first due place of one group from a place on. Where the group's bound hasn't come, none is.
    fn next_of_group(&mut self, group: usize, from: usize, t: u64) -> Option<usize>
        requires { 64 * group < length self.old }
        ensures some { IfSome result (λ place. IsFirstDue t (max from (64 * group)) place self.old) }
        ensures none { result ≡ None → NoneDue t (max from (64 * group)) (64 * group + 64) self.old }
        ensures same { self.new ≡ self.old }
    {
        if t < self.groups[group] {
            return None;
        }
        self.first_of_group(group, from.max(GROUP * group), t)
    }

    /// The first due place from one on, looked for in the groups of the places before an end.
    fn first_of_all(&mut self, from: usize, end: usize, t: u64) -> Option<usize>
        ensures some { IfSome result (λ place. IsFirstDue t from place self.old) }
        ensures none { result ≡ None → NoneDue t from end self.old }
        ensures same { self.new ≡ self.old }
    {
        for group in from / GROUP..self.groups.len().min(end.div_ceil(GROUP)) {
            let found = self.next_of_group(group, from, t);
            if found.is_some() {
                return found;
            }
        }
        None
    }

    /// The first place from one on and before an end whose moment is not after t; None exactly where there is none.
    pub fn next(&mut self, from: usize, end: usize, t: u64) -> Option<usize>
        ensures some { IfSome result (λ place. IsFirstDue t from place self.old) }
        ensures before { IfSome result (λ place. place < end) }
        ensures none { result ≡ None → NoneDue t from end self.old }
        ensures same { self.new ≡ self.old }
    {
        let first = self.first_of_all(from, end, t);
        first.filter(|place| *place < end)
    }
}
