//! The journal, over memory and over real files.

ghost use Rattle.std.specs.Prelude.{◌≡◌, ◌<◌, ◌≤◌, ◌+◌, true, false, IfOk, IsTrue, length};
ghost use Rattle.wire_in.specs.Records.{is_day};
ghost use Rattle.wire_in.specs.Spelling.{InRange};
ghost use Rattle.memory_host.specs.Memory.{known};
ghost use Rattle.journal_core.specs.Journal.{HasBytes};
ghost use Rattle.journal_core.specs.Layout.{IsLimit};

use super::bases::kept_day;
use host_core::{Failed, Host, JournalFile, Opens, RealHost, Stream, SystemFiles};
use journal_core::{AppendError, Batch, FormatError, Journal, Scan, ScanError, format};
use memory_host::{MemoryHost, Pick};
use price_core::{Index, OptionalPrice, Price};
use session_core::{Close, Date, Day, Moment, Profile};
use std::alloc::Global;
use std::test::Fail;
use std::{fs, io};
use wire_in::Record;

/// The regular day of a date at a moment, with the previous close of the index.
fn day_at(moment: Moment, date: Date, index_close: Index) -> Record
    ensures day { is_day result ≡ true }
    ensures range { InRange result }
{
    Record::Day {
        moment,
        day: Day {
            date,
            close: Close::Regular,
            profile: Profile::Since18,
        },
        index_close,
    }
}

/// The day 2024-06-03 with an index close of 5,000.00, at 04:00:00.
pub fn day_record() -> Result<Record, Fail>
    ensures day { IfOk result (λ x. is_day x ≡ true) }
    ensures range { IfOk result InRange }
{
    let moment = Moment::new(14_400_000_000_000)?;
    let date = Date::of(2024, 6, 3)?;
    let index_close = Index::new(500_000)?;
    Ok(day_at(moment, date, index_close))
}

/// A batch of that day.
fn day(alloc: Global) -> Result<Batch, Fail>
    ensures { IfOk result (λ batch. 0 < length batch) }
{
    let moment = Moment::new(14_400_000_000_000)?;
    let date = Date::of(2024, 6, 3)?;
    let index_close = Index::new(500_000)?;
    let mut batch = Batch::new(alloc)?;
    batch.push(day_at(moment, date, index_close));
    Ok(batch)
}

/// A batch of so many quotes, whose frames are the longest.
fn quotes(alloc: Global, count: usize) -> Result<Batch, Fail>
    requires least { 0 < count }
    requires most { count ≤ 64 }
    ensures { IfOk result (λ batch. 0 < length batch) }
{
    let moment = Moment::new(34_200_000_000_000)?;
    let bid = Price::new(499_900)?;
    let mut batch = Batch::new(alloc)?;
    while batch.len() < count {
        batch.push(Record::Quote {
            moment,
            symbol: 7,
            bid: OptionalPrice::of(Some(bid)),
            offer: OptionalPrice::of(None),
            bid_size: 100,
            offer_size: 0,
        });
    }
    Ok(batch)
}

/// Reads a journal to its end.
pub fn open<H: Host>(alloc: Global, host: &mut H) -> Result<Journal, ScanError>
    ensures whole { IfOk result (λ journal. IsTrue journal.whole) }
    ensures gate { IfOk result (λ journal. HasBytes (journal.gate + 1) (H.outside host.new).disk) }
{
    let mut scan = Scan::begin(alloc, host)?;
    let mut batch = Batch::new(alloc)?;
    while scan.next(host, &mut batch)? {}
    Ok(scan.finish())
}

/// The journal of a disk.
pub fn opened(alloc: Global, disk: &[u8]) -> Result<Journal, ScanError> {
    let mut host = MemoryHost::new(alloc, b"", disk)?;
    open(alloc, &mut host)
}

/// How many records a disk holds.
pub fn count_of(alloc: Global, disk: &[u8]) -> Result<u64, ScanError> {
    Ok(opened(alloc, disk)?.count())
}

/// How many records are read on the disk that a crash leaves.
pub fn count_after(alloc: Global, host: &MemoryHost, pick: Pick) -> Result<u64, ScanError> {
    let mut next = host.crash(pick, b"")?;
    Ok(open(alloc, &mut next)?.count())
}

/// Makes an empty journal that takes so many records.
fn begin<H: Host>(alloc: Global, host: &mut H, limit: u64) -> Result<Journal, Fail>
    requires { IsLimit limit }
    ensures whole { IfOk result (λ journal. IsTrue journal.whole) }
    ensures gate { IfOk result (λ journal. HasBytes (journal.gate + 1) (H.outside host.new).disk) }
{
    format(host, limit)?;
    Ok(open(alloc, host)?)
}

/// Makes a journal that takes 3 records, and appends a day.
pub fn keep_day<H: Host>(alloc: Global, host: &mut H) -> Result<Journal, Fail>
    ensures whole { IfOk result (λ journal. IsTrue journal.whole) }
    ensures unrolled { IfOk result (λ journal. journal.rolled ≡ false) }
    ensures gate { IfOk result (λ journal. HasBytes (journal.gate + 1) (H.outside host.new).disk) }
{
    let mut journal = begin(alloc, host, 3)?;
    let day = day(alloc)?;
    journal.append(host, &day)?;
    Ok(journal)
}

/// A journal with the host that keeps it.
#[derive(Drop)]
pub struct Kept {
    pub host: MemoryHost,
    pub journal: Journal,
}

/// An empty journal in memory that takes so many records.
fn empty(alloc: Global, limit: u64) -> Result<Kept, Fail>
    requires { IsLimit limit }
    ensures whole { IfOk result (λ kept. IsTrue kept.journal.whole) }
    ensures gate { IfOk result (λ kept. HasBytes (kept.journal.gate + 1) (known kept.host).disk) }
{
    let mut host = MemoryHost::new(alloc, b"", b"")?;
    let journal = begin(alloc, &mut host, limit)?;
    Ok(Kept { host, journal })
}

/// Whether a journal is these bytes, in which so many records are read.
fn is_stored(alloc: Global, kept: Kept, disk: &[u8], count: u64) -> bool {
    count_of(alloc, disk) == Ok(count) && kept.host.disk() == disk
}

#[test]
fn a_fresh_journal_is_a_header_and_a_closed_gate(rt: HostRuntime) -> Result<(), Fail> {
    let fresh = b"HALTJNL2\0\0\0\0\0\0\0\x03\0";
    let kept = empty(rt.alloc(), 3)?;
    assert!(rt; is_stored(rt.alloc(), kept, fresh, 0));
    Ok(())
}

#[test]
fn a_batch_is_a_gate_a_length_and_frames(rt: HostRuntime) -> Result<(), Fail> {
    let disk =
        b"HALTJNL2\0\0\0\0\0\0\0\x03\x01\0\0\0\x14\x13\x01\0\0\x0d\x18\xc2\xe2\x80\0\x07\xe8\x06\x03\x01\x02\0\x07\xa1\x20\0";
    let kept = kept_day(rt.alloc())?;
    assert!(rt; is_stored(rt.alloc(), kept, disk, 1));
    Ok(())
}

/// Whether a batch finds no room in a journal.
fn is_full(mut kept: Kept, batch: &Batch, limit: u64) -> bool
    requires whole { IsTrue kept.journal.whole }
    requires some { 0 < length batch.now }
    requires gate { HasBytes (kept.journal.gate + 1) (known kept.host).disk }
{
    kept.journal.append(&mut kept.host, batch) == Err(AppendError::Full { limit })
}

#[test]
fn a_batch_that_finds_no_room_is_told(rt: HostRuntime) -> Result<(), Fail> {
    let more = quotes(rt.alloc(), 3)?;
    let kept = kept_day(rt.alloc())?;
    assert!(rt; is_full(kept, &more, 3));
    Ok(())
}

/// Whether the append of a batch is stopped at a call.
fn is_stopped(kept: &mut Kept, batch: &Batch, stop: u64) -> bool
    requires whole { IsTrue kept.old.journal.whole }
    requires some { 0 < length batch.now }
    requires gate { HasBytes (kept.old.journal.gate + 1) (known kept.old.host).disk }
{
    let first = kept.host.calls().saturating_add(stop);
    kept.host.stop_at(first.max(1));
    kept.journal.append(&mut kept.host, batch).is_err()
}

/// How many records are left of a batch, where the append is stopped at one of its four calls, or behind them.
fn records_of(alloc: Global, mut kept: Kept, batch: &Batch, stop: u64, pick: Pick) -> Option<u64>
    requires whole { IsTrue kept.journal.whole }
    requires some { 0 < length batch.now }
    requires gate { HasBytes (kept.journal.gate + 1) (known kept.host).disk }
{
    let stopped = is_stopped(&mut kept, batch, stop);
    let count = count_after(alloc, &kept.host, pick).ok();
    if stopped == (stop <= 4) { count } else { None }
}

/// How many records are so left of a batch of 64.
fn records_left(alloc: Global, stop: u64, pick: Pick) -> Result<Option<u64>, Fail> {
    let batch = quotes(alloc, 64)?;
    let kept = empty(alloc, 100)?;
    Ok(records_of(alloc, kept, &batch, stop, pick))
}

#[test]
fn a_stop_leaves_a_batch_whole_or_out(rt: HostRuntime) -> Result<(), Fail> {
    for (stop, pick, want) in [
        (1, Pick::Old, 0),
        (1, Pick::New, 0),
        (1, Pick::Bytes(0x55), 0),
        (2, Pick::Old, 0),
        (2, Pick::New, 0),
        (2, Pick::Bytes(0x55), 0),
        (3, Pick::Old, 0),
        (3, Pick::New, 64),
        (3, Pick::Bytes(0x55), 64),
        (4, Pick::Old, 0),
        (4, Pick::New, 64),
        (4, Pick::Bytes(0x55), 64),
        (1, Pick::Bytes(0), 0),
        (2, Pick::Bytes(0), 0),
        // A gate byte of 0 is closed.
        (3, Pick::Bytes(0), 0),
        (4, Pick::Bytes(0), 0),
        (5, Pick::Old, 64),
    ] {
        assert!(rt;
            records_left(rt.alloc(), stop, pick)? == Some(want),
            "at {stop}"
        );
    }
    Ok(())
}

/// A journal of the first version that takes 3 records: a clock in a batch whose gate is open, and a closed gate.
const CLOCK: [u8; 32] =
    *b"HALTJNL1\0\0\0\0\0\0\0\x03\x55\0\0\0\x0a\x09\x07\0\0\x1f\x1a\xce\xd9\xf0\0\0";

/// The first bytes of a disk, at most so many.
fn first_of(disk: &[u8], len: usize) -> &[u8] {
    &disk[..len.min(disk.len())]
}

/// How many records the first bytes of that journal hold, where it takes so many and one byte is another.
fn count_changed(
    alloc: Global,
    len: usize,
    limit: u32,
    at: usize,
    byte: u8,
) -> Result<u64, ScanError> {
    let mut disk = CLOCK;
    disk[12..16].copy_from_slice(&limit.to_be_bytes());
    disk[at % 32] = byte;
    count_of(alloc, first_of(disk.as_slice(), len))
}

#[test]
fn damage_is_told_with_its_offset(rt: HostRuntime) {
    for (len, limit, at, byte, want) in [
        (0, 3, 16, 0, Err(ScanError::NoJournal)),
        (16, 3, 16, 0, Err(ScanError::NoJournal)),
        (17, 3, 7, b'3', Err(ScanError::NoJournal)),
        (17, 0, 16, 0, Err(ScanError::NoJournal)),
        (17, 2_000_000_001, 16, 0, Err(ScanError::NoJournal)),
        (32, 3, 20, 0, Err(ScanError::Damaged { at: 16 })),
        (32, 3, 22, 0x0a, Err(ScanError::Damaged { at: 16 })),
        (28, 3, 16, 1, Err(ScanError::Damaged { at: 31 })),
        (32, 3, 16, 0x55, Ok(1)),
        (31, 3, 16, 0x55, Err(ScanError::Damaged { at: 31 })),
    ] {
        let count = count_changed(rt.alloc(), len, limit, at, byte);
        assert!(rt; count == want, "of {len} bytes");
    }
}

#[test]
fn a_frame_of_no_known_type_is_damage(rt: HostRuntime) {
    let disk = b"HALTJNL1\0\0\0\0\0\0\0\x03\x01\0\0\0\x02\x01\x0a\0";
    assert!(rt; count_of(rt.alloc(), disk) == Err(ScanError::Damaged { at: 16 }));
}

/// Appends a batch until the journal holds so many records.
fn fill(
    host: &mut MemoryHost,
    journal: &mut Journal,
    batch: &Batch,
    count: u64,
) -> Result<(), AppendError>
    requires whole { IsTrue journal.old.whole }
    requires some { 0 < length batch.now }
    requires gate { HasBytes (journal.old.gate + 1) (known host.old).disk }
{
    while journal.count() < count {
        journal.append(host, batch)?;
    }
    Ok(())
}

/// Whether so many records are read in so many calls.
fn is_read_in(alloc: Global, host: &mut MemoryHost, count: u64, calls: u64) -> bool {
    let before = host.calls();
    let Ok(journal) = open(alloc, host) else {
        return false;
    };
    journal.count() == count && host.calls().saturating_sub(before) == calls
}

/// Whether a journal that is filled with a batch is read in large pieces.
fn is_read_fast(alloc: Global, mut kept: Kept, batch: &Batch) -> bool
    requires whole { IsTrue kept.journal.whole }
    requires some { 0 < length batch.now }
    requires gate { HasBytes (kept.journal.gate + 1) (known kept.host).disk }
{
    fill(&mut kept.host, &mut kept.journal, batch, 8_000).is_ok()
        && is_read_in(alloc, &mut kept.host, 8_000, 12)
}

#[test]
fn a_long_journal_is_read_in_large_pieces(rt: HostRuntime) -> Result<(), Fail> {
    let batch = quotes(rt.alloc(), 64)?;
    let kept = empty(rt.alloc(), 9_000)?;
    assert!(rt; is_read_fast(rt.alloc(), kept, &batch));
    Ok(())
}

/// A host with the journal of a file.
fn over<'a, O: Opens + Drop>(
    files: O,
    path: &'a str,
) -> RealHost<Stream<io::Empty>, Stream<io::Sink>, JournalFile<'a, O>> {
    RealHost::new(
        Stream::new(io::empty()),
        Stream::new(io::sink()),
        JournalFile::new(files, path),
    )
}

/// Makes a file with a journal that takes 3 records, and appends a day.
fn keep_day_in<O: Opens + Drop>(files: O, alloc: Global, path: &str) -> Result<(), Fail> {
    keep_day(alloc, &mut over(files, path))?;
    Ok(())
}

/// How many records the journal of a file holds, and how many it takes.
fn count_in<O: Opens + Drop>(files: O, alloc: Global, path: &str) -> Result<(u64, u64), ScanError> {
    let journal = open(alloc, &mut over(files, path))?;
    Ok((journal.count(), journal.limit()))
}

/// Makes an empty journal of a file.
fn format_in<O: Opens + Drop>(files: O, path: &str) -> Result<(), FormatError> {
    format(&mut over(files, path), 5)
}

/// The length of a file's disk.
fn len_of<O: Opens + Drop>(files: O, path: &str) -> Result<u64, Failed> {
    over(files, path).disk_len()
}

#[test]
fn a_file_keeps_what_was_appended(rt: HostRuntime) -> Result<(), Fail> {
    let path = "appended.journal";
    // A file of an earlier run may stand there.
    let _ = fs::remove_file(&rt, path);
    keep_day_in(SystemFiles::new(&rt), rt.alloc(), path)?;
    assert!(rt; count_in(SystemFiles::new(&rt), rt.alloc(), path) == Ok((1, 3)));
    Ok(())
}

#[test]
fn no_file_is_a_fault_of_the_disk(rt: HostRuntime) {
    assert!(rt; format_in(SystemFiles::new(&rt), "-") == Err(FormatError::DiskFault));
    assert!(rt; count_in(SystemFiles::new(&rt), rt.alloc(), "-") == Err(ScanError::DiskFault));
}

#[test]
fn a_file_that_is_not_there_is_not_made(rt: HostRuntime) {
    let path = "new.journal";
    assert!(rt; len_of(SystemFiles::new(&rt), path) == Ok(0));
    assert!(rt; count_in(SystemFiles::new(&rt), rt.alloc(), path) == Err(ScanError::NoJournal));
    assert!(rt; fs::remove_file(&rt, path).is_err());
}

#[test]
fn a_journal_with_a_record_is_not_replaced(rt: HostRuntime) -> Result<(), Fail> {
    let path = "kept.journal";
    // A file of an earlier run may stand there.
    let _ = fs::remove_file(&rt, path);
    keep_day_in(SystemFiles::new(&rt), rt.alloc(), path)?;
    assert!(rt; format_in(SystemFiles::new(&rt), path) == Err(FormatError::DiskFault));
    assert!(rt; count_in(SystemFiles::new(&rt), rt.alloc(), path) == Ok((1, 3)));
    Ok(())
}
