//! Dates of the calendar.

ghost use Rattle.std.specs.Prelude.{◌≡◌, ◌↔◌, ◌+◌, ◌<◌, IsTrue, IsOk};
ghost use Rattle.session_core.specs.Dates.{IsYear, IsMonth, IsDayOf, IsCivil, date_number, text_of};
ghost use Rattle.session_core.specs.CivilDates.{civil_date};

use std::marker::Model;
use thiserror::Error;

/// The first part of a date that is out of its range.
#[derive(Clone, Copy, Debug, PartialEq, Eq, Error)]
pub enum BadDate {
    #[error("the year is not from 2000 to 2099")]
    Year,
    #[error("the month is not from 1 to 12")]
    Month,
    #[error("the month has no such day")]
    DayOfMonth,
}

/// A civil date of the years 2000 to 2099, ordered by time.
#[derive(Clone, Copy, Debug, PartialEq, Eq, PartialOrd, Ord)]
pub struct Date {
    year: u16,
    month: u8,
    day: u8,
}

impl Model for Date {
    ghost use Rattle.session_core.specs.Dates.{Civil, IsCivil};

    ghost Value = { Civil };

    ghost view = { λ d. record { year = d.year; month = d.month; day = d.day } };

    ghost invariant = { λ d. IsCivil (record { year = d.year; month = d.month; day = d.day }) };

    ghost inverse = { λ d. record { year = d.year; month = d.month; day = d.day } };
}

/// Whether the month of that year has that day.
fn exists(year: u16, month: u8, day: u8) -> bool
    requires year { IsYear year }
    requires month { IsMonth month }
    ensures { IsTrue result ↔ IsDayOf year month day }
{
    day <= 31 && jiff::civil::Date::new(year as i16, month as i8, day as i8).is_ok()
}

impl Date {
    /// The date of a year, a month and a day of the month, or the first of the three that is out of its range.
    pub fn of(year: u16, month: u8, day: u8) -> Result<Date, BadDate>
        ensures exact { result ≡ civil_date year month day }
        ensures range { IsOk result ↔ IsCivil (record { year = year; month = month; day = day }) }
    {
        if year < 2000 || year > 2099 {
            return Err(BadDate::Year);
        }
        if month < 1 || month > 12 {
            return Err(BadDate::Month);
        }
        if !exists(year, month, day) {
            return Err(BadDate::DayOfMonth);
        }
        Ok(Date { year, month, day })
    }

    /// The year, from 2000 to 2099.
    pub fn year(self) -> u16
        ensures value { result ≡ self.year }
        ensures range { IsYear result }
    {
        self.year
    }

    /// The month, from 1 to 12.
    pub fn month(self) -> u8
        ensures value { result ≡ self.month }
        ensures range { IsMonth result }
    {
        self.month
    }

    /// The day of the month, from 1.
    pub fn day(self) -> u8
        ensures value { result ≡ self.day }
        ensures range { IsDayOf self.year self.month result }
    {
        self.day
    }

    /// Whether the date comes after another.
    pub fn is_after(self, other: Date) -> bool
        ensures { IsTrue result ↔ (date_number other < date_number self) }
    {
        self > other
    }
}

/// The decimal digit of a number below ten, in ASCII.
fn digit(n: u8) -> u8
    requires { n < 10 }
    ensures { result ≡ n + 48 }
{
    n + b'0'
}

/// The date as `yyyy-mm-dd`, in ASCII.
pub fn date_text(d: Date) -> [u8; 10]
    ensures { result ≡ text_of d }
{
    let (century, year) = ((d.year / 100) as u8, (d.year % 100) as u8);
    [
        digit(century / 10),
        digit(century % 10),
        digit(year / 10),
        digit(year % 10),
        b'-',
        digit(d.month / 10),
        digit(d.month % 10),
        b'-',
        digit(d.day / 10),
        digit(d.day % 10),
    ]
}
