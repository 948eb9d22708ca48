//! What an admission tells beside its verdicts, and its room.

use super::script::{Script, play};
use super::{Entry, record};
use Entry::{Clock, Day, Listing};
use Step::{Admits, Fill, Holds, IsToday, Refuses};
use market_core::Admission;
use std::process::Abort;
use wire_in::Refusal;

/// What an admission is asked, or what it has to answer.
#[derive(Clone, Copy)]
enum Step {
    Admits(Entry),
    Refuses(Entry, Refusal),
    /// The first 16,384 names are listed at 05:00:00, and admitted.
    Fill,
    Holds { records: u64, names: u32 },
    /// The day of the month, where there is one.
    IsToday(Option<u8>),
}

/// Whether the verdict on a record is this one. The record is admitted where there is none.
fn tried(admission: &mut Admission, entry: Entry, want: Option<Refusal>) -> bool {
    let x = record(entry);
    match admission.verdict(&x) {
        None => want.is_none() && admission.admit(&x).is_ok(),
        verdict => verdict == want,
    }
}

/// Whether the first names are admitted, up to the most that there can be.
fn fills(admission: &mut Admission) -> bool {
    let mut is_right = true;
    for number in 0..16_384 {
        is_right &= tried(admission, Listing(18_000, number), None);
    }
    is_right
}

fn today(admission: &Admission) -> Option<u8> {
    let day = admission.today()?;
    Some(day.date.day())
}

impl Script<Step> for Admission {
    fn answers(&mut self, step: &Step) -> bool {
        match *step {
            Admits(entry) => tried(self, entry, None),
            Refuses(entry, refusal) => tried(self, entry, Some(refusal)),
            Fill => fills(self),
            Holds { records, names } => self.count() == records && self.names() == names,
            IsToday(want) => today(self) == want,
        }
    }
}

/// Takes the steps from a new admission of so many records on.
fn follow<R: Abort + AllocGlobal>(rt: &R, capacity: u64, steps: &[Step]) {
    let mut admission = Admission::new(rt.alloc(), capacity).expect(rt, "memory");
    play(rt, &mut admission, steps)
}

#[test]
fn an_admission_tells_how_many_records_and_names_it_holds_and_the_day(rt: HostRuntime) {
    follow(
        &rt,
        100,
        &[
            Holds {
                records: 0,
                names: 0,
            },
            IsToday(None),
            Refuses(Clock(36_000), Refusal::NoDay),
            Admits(Day(3)),
            Admits(Listing(18_000, 7)),
            Refuses(Listing(18_000, 7), Refusal::AlreadyListed),
            Admits(Day(4)),
            Admits(Listing(18_000, 7)),
            Holds {
                records: 4,
                names: 1,
            },
            IsToday(Some(4)),
        ],
    )
}

#[test]
fn before_any_day_a_full_journal_is_not_told(rt: HostRuntime) {
    follow(&rt, 0, &[Refuses(Clock(36_000), Refusal::NoDay)])
}

#[test]
fn the_directory_takes_16_384_names(rt: HostRuntime) {
    follow(
        &rt,
        16_386,
        &[
            Admits(Day(3)),
            Fill,
            Holds {
                records: 16_385,
                names: 16_384,
            },
            Refuses(Listing(18_000, 16_384), Refusal::DirectoryFull),
            Refuses(Listing(18_000, 0), Refusal::AlreadyListed),
            Admits(Day(4)),
            Refuses(Listing(18_000, 16_384), Refusal::DirectoryFull),
            Refuses(Listing(18_000, 0), Refusal::JournalFull),
        ],
    )
}
