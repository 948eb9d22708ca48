//! A directory of names and a journal that are full.

use super::{SERVE, Way, expect, fresh};
use host_core::Status;
use price_core::Tier;
use std::process::Abort;
use std::thread::Threads;
use test_days::Session;
use test_days::lines::{Line, at, clock, day, listed_as, listing_of, name_of, refused};
use wire_in::Refusal;

/// A journal for so many records answers the lines as they say, by one worker and by two.
fn expect_lines<Rt: Abort + AllocGlobal + Threads + Sync>(rt: &Rt, limit: u64, lines: &[Line]) {
    let session = Session::of(rt.alloc(), lines).expect(rt, "a session");
    let empty = fresh(rt, limit);
    for workers in [1, 2] {
        let way = Way { workers, ..SERVE };
        expect(
            rt,
            way,
            &session.input,
            &empty,
            Status::Done,
            &session.served,
        );
    }
}

fn add<R: Abort>(rt: &R, lines: &mut Vec<Line>, more: &[Line]) {
    lines.extend_from_slice(more).expect(rt, "memory");
}

/// Adds a day and listings of all 16,384 names that a directory takes, and then other listings.
fn add_all_names<R: Abort>(rt: &R, lines: &mut Vec<Line>) {
    let t = at(5, 0, 0);
    add(rt, lines, &[day(3)]);
    for symbol in 0..16_384u16 {
        let name = name_of(symbol);
        let listed = [
            listing_of(t, name, Tier::One, 10, 200_000),
            listed_as(symbol, name),
        ];
        add(rt, lines, &listed);
    }
    let others = [
        listing_of(t, name_of(0), Tier::One, 10, 200_000),
        refused(Refusal::AlreadyListed),
        listing_of(t, name_of(16_384), Tier::One, 10, 200_000),
        refused(Refusal::DirectoryFull),
        clock(t),
        refused(Refusal::JournalFull),
    ];
    add(rt, lines, &others);
}

#[test]
fn a_full_directory_is_told_before_a_full_journal(rt: HostRuntime) {
    let mut lines = Vec::new(rt.alloc());
    add_all_names(&rt, &mut lines);
    expect_lines(&rt, 16_385, &lines);
}
