//! Lines that have no bytes.

use price_core::Tier;
use session_core::Phase;
use std::alloc::Global;
use test_days::lines::{Line, at, clock, listing_of, state, trade};
use test_days::{BadLine, Session};

/// Whether these lines have no bytes, for this reason.
fn are_bad(alloc: Global, lines: &[Line], want: BadLine) -> bool {
    match Session::of(alloc, lines) {
        Ok(_) => false,
        Err(bad) => bad == want,
    }
}

/// Whether no frame says the listing of a name.
fn has_no_listing(alloc: Global, name: [u8; 8]) -> bool {
    let line = listing_of(at(4, 0, 0), name, Tier::One, 10, 500_000);
    are_bad(alloc, &[line], BadLine::Unsayable)
}

/// Whether no frame says a trade with a flag that is not assigned.
fn has_no_trade(alloc: Global) -> bool {
    let line = trade(at(4, 0, 0), 1, 500_000, 1024);
    are_bad(alloc, &[line], BadLine::Unsayable)
}

#[test]
fn a_record_that_no_frame_says_is_no_session(rt: HostRuntime) {
    assert!(&rt; has_no_listing(rt.alloc(), *b"\0\0\0\0\0\0\0\0"));
    assert!(&rt; has_no_listing(rt.alloc(), *b"A\0C\0\0\0\0\0"));
    assert!(&rt; has_no_trade(rt.alloc()));
}

/// Whether lines whose first one is a message are no session.
fn is_early(alloc: Global) -> bool {
    let lines = [state(Phase::Trading), clock(at(9, 30, 0))];
    are_bad(alloc, &lines, BadLine::Early)
}

#[test]
fn a_message_before_any_record_is_no_session(rt: HostRuntime) {
    assert!(&rt; is_early(rt.alloc()));
}
