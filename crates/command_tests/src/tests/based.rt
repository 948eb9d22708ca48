//! A journal that begins with a base: what stands before it is counted, and neither read nor sent again.

use super::bytes::{ACK_3, DAY, VALUES};
use super::{WORKERS, joined, left_by, runs};
use host_core::Status;
use std::process::Abort;
use std::thread::Threads;

/// A journal of the second version that takes 5 records, and a batch whose frame says none.
const FIRST: &[u8] =
    b"HALTJNL2\0\0\0\0\0\0\0\x05\x01\0\0\0\x0a\xff\xff\xff\xff\xff\xff\xff\xff\xff\xff";

/// A base of 2 records and 9 messages, without its day, names and ids.
const BASE: &[u8] = b"\x01\x80\0\0\x28\0\0\0\0\0\0\0\x02\0\0\0\0\0\0\0\x09";

/// A greeting of these, and one of 4 records and 10 messages.
const HELLO_2: &[u8] = b"\x11\x81\0\0\0\0\0\0\0\x02\0\0\0\0\0\0\0\x09";

const HELLO_4: &[u8] = b"\x11\x81\0\0\0\0\0\0\0\x04\0\0\0\0\0\0\0\x0a";

/// Level 1 is declared, by the message 10.
const BREAKER: &[u8] = b"\x16\x18\0\0\0\0\0\0\0\x0a\0\0\x20\xbd\xe7\x36\x40\0\x01\0\x07\x18\x68";

const ACK_4: &[u8] = b"\x09\x82\0\0\0\0\0\0\0\x04";

/// What is told of the journal at the end.
const TOLD: &[u8] = b"inputs 4\nmessages 10\nlimit 5\nday 2024-06-03\nnames 0\n";

/// Sessions over a journal are sent this, whether they ask from the message 10 on or for all, and by each number of workers.
fn expect_again<Rt: Abort + AllocGlobal + Threads + Sync>(rt: &Rt, disk: &[u8], sent: &[u8]) {
    for workers in WORKERS {
        let words = ["serve", "--from", "10", "--workers", workers];
        runs(rt, &words, disk, b"", sent, Status::Done);
    }
    let words = ["serve", "--from", "1"];
    runs(rt, &words, disk, b"", sent, Status::Done);
}

#[test]
fn what_stands_before_a_base_is_counted_and_not_read(rt: HostRuntime) {
    let disk = joined(&rt, &[FIRST, BASE, DAY, b"\0\0\0\0\0"]);
    let answers = joined(&rt, &[HELLO_2, ACK_3, BREAKER, ACK_4]);
    let kept = left_by(&rt, &["serve"], &disk, VALUES, &answers, Status::Done);
    runs(&rt, &["status"], &kept, b"", TOLD, Status::Done);
    expect_again(&rt, &kept, &joined(&rt, &[BREAKER, HELLO_4]));
}
