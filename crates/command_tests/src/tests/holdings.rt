//! What a journal holds, told in five lines.

use super::ends::fail;
use super::{answers, fall, fresh, host, made, serves};
use host_core::Status;
use memory_host::{Call, MemoryHost};
use std::process::Abort;
use std::thread::Threads;

/// Tells what the disk of a host holds, and compares the text and how it ends. The disk stays as it is.
fn tells_over<Rt: Abort + AllocGlobal + Threads + Sync>(
    rt: &Rt,
    host: &mut MemoryHost,
    disk: &[u8],
    text: &str,
    want: Status,
) {
    answers(rt, &["status"], host, text.as_bytes(), want);
    assert!(rt; host.disk() == disk);
}

/// Tells what a disk holds.
fn tells<Rt: Abort + AllocGlobal + Threads + Sync>(rt: &Rt, disk: &[u8], text: &str, want: Status) {
    let mut host = host(rt, b"unread", disk);
    tells_over(rt, &mut host, disk, text, want);
}

#[test]
fn a_journal_of_three_records_is_told(rt: HostRuntime) {
    let disk = serves(&rt, &fresh(&rt), &fall());
    let text = "inputs 3\nmessages 1\nlimit 100000000\nday 2024-06-03\nnames 0\n";
    tells(&rt, &disk, text, Status::Done);
}

#[test]
fn an_empty_journal_is_told(rt: HostRuntime) {
    let disk = made(&rt, &["format", "--limit", "3"]);
    let text = "inputs 0\nmessages 0\nlimit 3\nday none\nnames 0\n";
    tells(&rt, &disk, text, Status::Done);
}

#[test]
fn nothing_is_told_of_damage_and_of_no_journal(rt: HostRuntime) {
    let damaged = b"HALTJNL1\0\0\0\0\0\0\0\x03\x01\0\0\0\0\0";
    tells(&rt, damaged, "", Status::Damaged { at: 16 });
    tells(&rt, b"", "", Status::NoJournal);
}

#[test]
fn a_report_that_cannot_be_sent_is_cut(rt: HostRuntime) {
    let disk = fresh(&rt);
    let mut host = host(&rt, b"", &disk);
    host.pieces(1, 7);
    fail(&rt, &mut host, Call::Send, 2);
    tells_over(&rt, &mut host, &disk, "inputs ", Status::SendFault);
}

#[test]
fn a_disk_that_fails_is_told(rt: HostRuntime) {
    let disk = fresh(&rt);
    let mut host = host(&rt, b"", &disk);
    fail(&rt, &mut host, Call::DiskRead, 1);
    tells_over(&rt, &mut host, &disk, "", Status::DiskFault);
}
