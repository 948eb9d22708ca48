//! Alarms of many places.

use super::script::{Step, play};
use Call::{First, FirstBefore, Get, Length, MakeDue, PutOff, Set};
use alarms::Alarms;
use std::process::Abort;

/// A call of alarms, with the wanted answer.
#[derive(Clone, Copy)]
enum Call {
    /// A place gets a moment.
    Set(usize, u64),
    /// A place that was due gets a moment.
    PutOff(usize, u64),
    /// The first places, so many, become due at every moment.
    MakeDue(usize),
    Length(usize),
    /// The moment of a place.
    Get(usize, Option<u64>),
    /// From a place on, the first that is due at a moment.
    First(usize, u64, Option<usize>),
    /// The same of the places before an end.
    FirstBefore(usize, usize, u64, Option<usize>),
}

/// Gives a place a moment. Whether there is the place.
fn set(alarms: &mut Alarms, place: usize, moment: u64) -> bool {
    let is_there = place < alarms.len();
    if is_there {
        alarms.set(place, moment);
    }
    is_there
}

/// Puts off a place. Whether there is the place.
fn put_off(alarms: &mut Alarms, place: usize, moment: u64) -> bool {
    let is_there = place < alarms.len();
    if is_there {
        alarms.put_off(place, moment);
    }
    is_there
}

/// Makes the first places due, so many. Whether there are as many.
fn make_due(alarms: &mut Alarms, count: usize) -> bool {
    let are_there = count <= alarms.len();
    if are_there {
        alarms.make_due(count);
    }
    are_there
}

impl Step<Alarms> for Call {
    fn holds(&self, alarms: &mut Alarms) -> bool {
        match *self {
            Set(place, moment) => set(alarms, place, moment),
            PutOff(place, moment) => put_off(alarms, place, moment),
            MakeDue(count) => make_due(alarms, count),
            Length(want) => alarms.len() == want,
            Get(place, want) => alarms.get(place) == want,
            First(from, moment, want) => alarms.next(from, usize::MAX, moment) == want,
            FirstBefore(from, end, moment, want) => alarms.next(from, end, moment) == want,
        }
    }
}

/// So many places, each at one moment.
fn all_at<R: Abort + AllocGlobal>(rt: &R, places: usize, moment: u64) -> Alarms {
    let mut alarms = Alarms::new(rt.alloc());
    for _ in 0..places {
        alarms.push(moment).expect(rt, "memory");
    }
    alarms
}

/// Takes the steps over so many places, each at one moment.
fn follow<R: Abort + AllocGlobal>(rt: &R, places: usize, moment: u64, steps: &[Call]) {
    let mut alarms = all_at(rt, places, moment);
    play(rt, &mut alarms, steps);
}

const SIZES: [usize; 8] = [1, 7, 8, 9, 63, 64, 65, 16_384];

/// So many places at 10, the last of which is a number, are due from 10 on.
fn expect_due_from_10<R: Abort + AllocGlobal>(rt: &R, places: usize, last: usize) {
    follow(
        rt,
        places,
        10,
        &[
            Length(places),
            First(0, 9, None),
            First(last, 9, None),
            First(0, 10, Some(0)),
            First(last, 10, Some(last)),
            First(places, u64::MAX, None),
            First(20_000, u64::MAX, None),
        ],
    );
}

#[test]
fn a_place_is_due_from_its_moment_on(rt: HostRuntime) {
    for places in SIZES {
        expect_due_from_10(&rt, places, places - 1);
    }
}

/// Of so many places at 10 the last one, of that number, is due at 5 where it has that moment.
fn expect_last_due<R: Abort + AllocGlobal>(rt: &R, places: usize, last: usize) {
    follow(
        rt,
        places,
        10,
        &[
            Set(last, 5),
            First(0, 4, None),
            First(0, 5, Some(last)),
            First(places, 5, None),
            Set(last, 20),
            Get(last, Some(20)),
            Get(places, None),
            First(0, 9, None),
            First(last, 19, None),
        ],
    );
}

#[test]
fn the_last_place_alone_is_due(rt: HostRuntime) {
    for places in SIZES {
        expect_last_due(&rt, places, places - 1);
    }
}

#[test]
fn each_of_64_places_may_have_the_lowest_moment(rt: HostRuntime) {
    let mut alarms = all_at(&rt, 64, 100);
    for place in 0..64 {
        play(
            &rt,
            &mut alarms,
            &[
                Set(place, 50),
                First(0, 49, None),
                First(0, 50, Some(place)),
                First(place + 1, 50, None),
                Set(place, 100),
                First(0, 99, None),
            ],
        );
    }
}

#[test]
fn places_are_put_off_one_after_the_other(rt: HostRuntime) {
    let mut alarms = all_at(&rt, 130, 10);
    for place in 0..130 {
        play(
            &rt,
            &mut alarms,
            &[
                First(0, 10, Some(place)),
                PutOff(place, 20),
                Get(place, Some(20)),
            ],
        );
    }
    play(
        &rt,
        &mut alarms,
        &[
            First(0, 19, None),
            First(0, 20, Some(0)),
            PutOff(129, 5),
            First(0, 5, Some(129)),
        ],
    );
}

#[test]
fn no_place_without_a_moment_is_due(rt: HostRuntime) {
    follow(
        &rt,
        130,
        u64::MAX,
        &[
            First(0, u64::MAX - 1, None),
            Set(129, 86_400_000_000_000),
            First(0, 86_400_000_000_000, Some(129)),
        ],
    );
}

#[test]
fn all_places_are_due_after_all_were_made_due(rt: HostRuntime) {
    let mut alarms = all_at(&rt, 130, 7);
    play(
        &rt,
        &mut alarms,
        &[
            First(0, 6, None),
            First(8, 6, None),
            First(64, 6, None),
            First(128, 6, None),
            MakeDue(130),
        ],
    );
    for place in 0..130 {
        play(&rt, &mut alarms, &[First(place, 0, Some(place))]);
    }
}

/// The first places, so many, are made due, the last of which is a number.
fn expect_first_due<R: Abort + AllocGlobal>(rt: &R, count: usize, last: usize) {
    follow(
        rt,
        130,
        u64::MAX,
        &[
            MakeDue(count),
            First(0, 0, Some(0)),
            First(last, 0, Some(last)),
            First(count, u64::MAX - 1, None),
            Get(count, Some(u64::MAX)),
        ],
    );
}

#[test]
fn the_places_behind_those_that_were_made_due_keep_their_moments(rt: HostRuntime) {
    for count in [1, 7, 8, 9, 63, 64, 65, 129] {
        expect_first_due(&rt, count, count - 1);
    }
}

/// So many places that are made together, the last of which is a number, are due at each moment.
fn expect_made_due<R: Abort + AllocGlobal>(rt: &R, places: usize, last: usize) {
    let mut alarms = Alarms::all_at(rt.alloc(), 0, places).expect(rt, "memory");
    play(
        rt,
        &mut alarms,
        &[
            Length(places),
            First(0, 0, Some(0)),
            First(last, 0, Some(last)),
            FirstBefore(last, last, 0, None),
            First(places, u64::MAX, None),
            Set(last, 5),
            First(last, 4, None),
            First(last, 5, Some(last)),
        ],
    );
}

#[test]
fn all_places_that_are_made_together_are_due(rt: HostRuntime) {
    for places in SIZES {
        expect_made_due(&rt, places, places - 1);
    }
}
