//! Sessions one after the other over one journal.

use super::{again, fall, fresh, leaves, serves, session_over};
use host_core::Status;
use std::process::Abort;
use std::thread::Threads;

/// A session without input over a disk sends this, and leaves the disk as it is.
fn expect_again<Rt: Abort + AllocGlobal + Threads + Sync>(
    rt: &Rt,
    words: &[&str],
    disk: &[u8],
    sent: &[u8],
) {
    leaves(rt, words, disk, b"", sent, Status::Done, disk);
}

#[test]
fn a_restart_tells_what_is_held_and_sends_again_what_is_asked_for(rt: HostRuntime) {
    let disk = serves(&rt, &fresh(&rt), &fall());
    let held = session_over(&rt, 3, 1, &[]);
    expect_again(&rt, &["serve"], &disk, &held.served);
    expect_again(&rt, &["serve", "--from", "2"], &disk, &held.served);
    expect_again(&rt, &["serve", "--from", "1"], &disk, &again(&rt));
}
