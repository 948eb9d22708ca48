//! Published frames that break a law, and such that break none.

use super::values::{moment, price};
use audit_core::Audit;
use price_core::Cause;
use session_core::Phase;
use std::process::Abort;
use wire_out::{Frame, Message, Stamped};

const TEN: u64 = 36_000_000_000_000;

const SECOND: u64 = 1_000_000_000;

/// A message of the stock of id 0.
#[derive(Clone, Copy)]
enum Said {
    State(Phase),
    /// Bands that follow a new reference price.
    Moved(u64, u64, u64),
}

use Said::{Moved, State};

fn message(said: Said) -> Message {
    match said {
        State(phase) => Message::State { symbol: 0, phase },
        Moved(reference, lower, upper) => Message::Band {
            symbol: 0,
            cause: Cause::Moved,
            reference: price(reference),
            lower: price(lower),
            upper: price(upper),
        },
    }
}

/// A message that many nanoseconds after 10:00:00.
fn numbered(number: u64, after: u64, said: Said) -> Frame {
    Frame::Numbered {
        number,
        stamped: Stamped {
            moment: moment(TEN.wrapping_add(after)),
            message: message(said),
        },
    }
}

/// Whether no law was broken before a frame, and the frame breaks this one, 0 for none.
fn breaks(audit: &mut Audit, frame: &Frame, want: u8) -> bool {
    if !audit.clean() {
        return false;
    }
    match audit.take(frame) {
        Ok(law) => law.unwrap_or(0) == want,
        Err(_) => false,
    }
}

/// Takes messages numbered from 1 on, each with the law that it has to break, 0 for none.
fn play<R: Abort + AllocGlobal>(rt: &R, said: &[(u64, Said, u8)]) {
    let mut audit = Audit::new(rt.alloc()).unwrap();
    let mut number: u64 = 0;
    for (after, what, want) in said {
        number = number.wrapping_add(1);
        let frame = numbered(number, *after, *what);
        assert!(rt; breaks(&mut audit, &frame, *want), "message {number}");
    }
}

#[test]
fn a_limit_state_becomes_a_pause_after_15_seconds(rt: HostRuntime) {
    let most = 15 * SECOND;
    play(
        &rt,
        &[
            (0, State(Phase::Trading), 0),
            (0, State(Phase::LimitLow), 0),
            (most, State(Phase::Paused), 0),
        ],
    );
    play(
        &rt,
        &[
            (0, State(Phase::Trading), 0),
            (0, State(Phase::LimitLow), 0),
            (most - 1, State(Phase::Paused), 3),
        ],
    );
}

#[test]
fn a_reference_price_moves_behind_bands_alone(rt: HostRuntime) {
    play(
        &rt,
        &[
            (0, State(Phase::Trading), 0),
            (0, Moved(500_000, 475_000, 525_000), 4),
        ],
    );
}

/// Whether a refusal breaks no law and isn't counted, and an acknowledgement breaks the first law.
fn breaks_the_first_law(audit: &mut Audit) -> bool {
    let refused = Frame::Refused {
        frame_number: 1,
        code: 9,
        field: 0,
    };
    breaks(audit, &refused, 0)
        && audit.messages() == 0
        && breaks(audit, &Frame::Ack { input: 1 }, 1)
        && !audit.clean()
}

#[test]
fn frames_of_a_live_session_break_the_first_law(rt: HostRuntime) {
    let mut audit = Audit::new(rt.alloc()).unwrap();
    assert!(&rt; breaks_the_first_law(&mut audit));
}
