//! Summaries of generated days.

use super::{CLOCKS, USUAL};
use host_core::Status;
use memory_host::{Call, MemoryHost};
use rehearse_core::rehearse;
use std::test::Fail;
use yard_core::OpenGate;

/// What the day of clocks gives: each symbol is listed, and opens with the session. No other rule applies without quotations and
/// trades.
const SUMMARY: &[u8] = b"records 9
refused 0
messages 4
listed 2
state 2
band 0
straddle 0
collar 0
release 0
short 0
breaker 0
marketresume 0
";

#[test]
fn a_day_of_clocks_is_summed_up(rt: HostRuntime) -> Result<(), Fail> {
    let mut host = MemoryHost::new(rt.alloc(), b"input", b"disk")?;
    host.pieces(1, 7);
    let status = rehearse(&rt, rt.alloc(), &mut host, &OpenGate, &CLOCKS, 1);
    let is_kept = host.disk() == b"disk".as_slice();
    assert!(rt; status == Status::Done && host.sent() == SUMMARY && is_kept);
    Ok(())
}

/// Whether a line stands in a text, of which it isn't the first.
fn has_line(text: &[u8], line: &[u8]) -> bool {
    for at in 0..text.len() {
        if text[at..].starts_with(line) {
            return true;
        }
    }
    false
}

#[test]
fn no_record_of_a_usual_day_is_refused(rt: HostRuntime) -> Result<(), Fail> {
    let mut host = MemoryHost::new(rt.alloc(), b"", b"")?;
    let status = rehearse(&rt, rt.alloc(), &mut host, &OpenGate, &USUAL, 1);
    let is_begun = host
        .sent()
        .starts_with(b"records 400501\nrefused 0\nmessages ");
    let is_listed = has_line(host.sent(), b"\nlisted 500\n");
    assert!(rt; status == Status::Done && is_begun && is_listed);
    Ok(())
}

#[test]
fn a_send_that_fails_ends_a_summary(rt: HostRuntime) -> Result<(), Fail> {
    let mut host = MemoryHost::new(rt.alloc(), b"", b"")?;
    host.pieces(1, 7);
    host.fail(Call::Send, 4)?;
    let status = rehearse(&rt, rt.alloc(), &mut host, &OpenGate, &CLOCKS, 1);
    let is_cut = SUMMARY.starts_with(host.sent()) && host.sent().len() < SUMMARY.len();
    assert!(rt; status == Status::SendFault && is_cut);
    Ok(())
}

#[test]
fn several_workers_sum_up_alike(rt: HostRuntime) -> Result<(), Fail> {
    let mut one = MemoryHost::new(rt.alloc(), b"", b"")?;
    let alone = rehearse(&rt, rt.alloc(), &mut one, &OpenGate, &USUAL, 1);
    assert!(rt; alone == Status::Done);
    for workers in [2, 4, 64] {
        let mut many = MemoryHost::new(rt.alloc(), b"", b"")?;
        let status = rehearse(&rt, rt.alloc(), &mut many, &OpenGate, &USUAL, workers);
        assert!(rt;
            status == Status::Done && many.sent() == one.sent(),
            "by {workers}"
        );
    }
    Ok(())
}
