//! Dates, moments and the sessions of a day.

use super::script::{Step, check, play};
use super::values::{day, moment};
use Row::{Age, IsAfter, OfDate, OfMoment};
use session_core::{
    BadDate, BadMoment, Close, Date, Day, Moment, age, breaker_open, close_moment, date_text,
    in_session, last_10, last_25,
};

/// A year, a month and a day of the month.
type Civil = (u16, u8, u8);

/// A row with the wanted answer. Times are nanoseconds of the day.
#[derive(Clone, Copy)]
enum Row {
    /// A date, with what is wrong in it.
    OfDate(Civil, Option<BadDate>),
    /// Whether the first date comes after the second.
    IsAfter(Civil, Civil, bool),
    /// Whether there is such a moment.
    OfMoment(u64, bool),
    /// How much later the first time is than the second.
    Age(u64, u64, u64),
}

/// Whether the first date comes after the second, where there are both.
fn is_after(first: Civil, second: Civil, want: bool) -> bool {
    match (date(first), date(second)) {
        (Ok(first), Ok(second)) => first.is_after(second) == want,
        _ => false,
    }
}

fn date((year, month, day): Civil) -> Result<Date, BadDate> {
    Date::of(year, month, day)
}

fn is_moment(nanos: u64, stands: bool) -> bool {
    match Moment::new(nanos) {
        Ok(moment) => stands && moment.nanos() == nanos,
        Err(BadMoment) => !stands,
    }
}

fn is_age(now: u64, then: u64, want: u64) -> bool {
    let (now, then) = (moment(now), moment(then));
    then.nanos() <= now.nanos() && age(now, then) == want
}

impl Step<()> for Row {
    fn holds(&self, _: &mut ()) -> bool {
        match *self {
            OfDate(civil, bad) => date(civil).err() == bad,
            IsAfter(first, second, want) => is_after(first, second, want),
            OfMoment(nanos, stands) => is_moment(nanos, stands),
            Age(now, then, want) => is_age(now, then, want),
        }
    }
}

/// A part of a day, or the moment of its close.
#[derive(Clone, Copy)]
enum Part {
    Close,
    Session,
    Last25,
    Last10,
    /// When a halt of Level 1 or 2 may be declared.
    Breaker,
}

/// A time of a day in nanoseconds, and whether it's in that part.
#[derive(Clone, Copy)]
struct At(u64, Part, bool);

impl Step<Day> for At {
    fn holds(&self, day: &mut Day) -> bool {
        let At(nanos, part, want) = *self;
        let t = moment(nanos);
        let is_in = match part {
            Part::Close => close_moment(day) == t,
            Part::Session => in_session(t, day),
            Part::Last25 => last_25(t, day),
            Part::Last10 => last_10(t, day),
            Part::Breaker => breaker_open(t, day),
        };
        is_in == want
    }
}

#[test]
fn the_calendar_decides_which_dates_there_are(rt: HostRuntime) {
    check(
        &rt,
        &[
            OfDate((2000, 1, 1), None),
            OfDate((2099, 12, 31), None),
            OfDate((2024, 2, 29), None),
            OfDate((2000, 2, 29), None),
            OfDate((2023, 4, 30), None),
            OfDate((1999, 13, 40), Some(BadDate::Year)),
            OfDate((2100, 1, 1), Some(BadDate::Year)),
            OfDate((2024, 0, 40), Some(BadDate::Month)),
            OfDate((2024, 13, 1), Some(BadDate::Month)),
            OfDate((2024, 2, 30), Some(BadDate::DayOfMonth)),
            OfDate((2023, 2, 29), Some(BadDate::DayOfMonth)),
            OfDate((2023, 4, 31), Some(BadDate::DayOfMonth)),
            OfDate((2024, 1, 0), Some(BadDate::DayOfMonth)),
            OfDate((2024, 1, 200), Some(BadDate::DayOfMonth)),
        ],
    );
}

#[test]
fn dates_are_ordered_by_time(rt: HostRuntime) {
    check(
        &rt,
        &[
            IsAfter((2024, 6, 4), (2024, 6, 3), true),
            IsAfter((2024, 7, 1), (2024, 6, 3), true),
            IsAfter((2025, 1, 1), (2024, 6, 3), true),
            IsAfter((2024, 6, 3), (2024, 6, 3), false),
            IsAfter((2023, 12, 31), (2024, 6, 3), false),
        ],
    );
}

/// Whether a date is written so.
fn is_written(civil: Civil, want: &[u8]) -> bool {
    match date(civil) {
        Ok(date) => date_text(date).as_slice() == want,
        Err(_) => false,
    }
}

#[test]
fn a_date_is_written_with_its_zeros(rt: HostRuntime) {
    assert!(&rt; is_written((2024, 6, 3), b"2024-06-03"));
    assert!(&rt; is_written((2099, 12, 31), b"2099-12-31"));
}

#[test]
fn moments_stand_in_the_day(rt: HostRuntime) {
    check(
        &rt,
        &[
            OfMoment(86_399_999_999_999, true),
            OfMoment(86_400_000_000_000, false),
            Age(7, 7, 0),
            Age(9, 7, 2),
        ],
    );
}

const AT_9_29_59: u64 = 34_199_000_000_000;

const AT_9_30: u64 = 34_200_000_000_000;

const AT_12_25: u64 = 44_700_000_000_000;

const AT_12_35: u64 = 45_300_000_000_000;

const AT_12_50: u64 = 46_200_000_000_000;

const AT_13_00: u64 = 46_800_000_000_000;

const AT_15_25: u64 = 55_500_000_000_000;

const AT_15_35: u64 = 56_100_000_000_000;

const AT_15_50: u64 = 57_000_000_000_000;

const AT_16_00: u64 = 57_600_000_000_000;

#[test]
fn the_session_is_from_its_opening_to_before_the_close(rt: HostRuntime) {
    play(
        &rt,
        &mut day(Close::Regular),
        &[
            At(AT_16_00, Part::Close, true),
            At(AT_9_30 - 1, Part::Session, false),
            At(AT_9_30, Part::Session, true),
            At(AT_16_00 - 1, Part::Session, true),
            At(AT_16_00, Part::Session, false),
            At(AT_15_35 - 1, Part::Last25, false),
            At(AT_15_35, Part::Last25, true),
            At(AT_15_50 - 1, Part::Last10, false),
            At(AT_15_50, Part::Last10, true),
            At(AT_9_29_59, Part::Breaker, false),
            At(AT_15_25, Part::Breaker, true),
            At(AT_15_25 + 1, Part::Breaker, false),
        ],
    );
    play(
        &rt,
        &mut day(Close::Early),
        &[
            At(AT_13_00, Part::Close, true),
            At(AT_9_30 - 1, Part::Session, false),
            At(AT_9_30, Part::Session, true),
            At(AT_13_00 - 1, Part::Session, true),
            At(AT_13_00, Part::Session, false),
            At(AT_12_35 - 1, Part::Last25, false),
            At(AT_12_35, Part::Last25, true),
            At(AT_12_50 - 1, Part::Last10, false),
            At(AT_12_50, Part::Last10, true),
            At(AT_9_29_59, Part::Breaker, false),
            At(AT_12_25, Part::Breaker, true),
            At(AT_12_25 + 1, Part::Breaker, false),
        ],
    );
}
