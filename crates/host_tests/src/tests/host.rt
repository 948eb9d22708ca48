//! The real host, over streams and a file.

use super::disks::{Step, play, play_and_refuse, refuse};
use host_core::{
    Disk, Failed, Host, JournalFile, Opens, RealHost, Status, Stream, SystemFiles, send_all,
};
use std::fs;
use std::io::{self, Read, Write};
use std::process::Abort;
use std::rt::Files;

#[test]
fn each_status_has_its_code(rt: HostRuntime) {
    for (status, want) in [
        (Status::Done, 0),
        (Status::Usage, 2),
        (Status::Truncated, 3),
        (Status::ReadFault, 4),
        (Status::SendFault, 5),
        (Status::DiskFault, 6),
        (Status::SessionFull, 7),
        (Status::Damaged { at: 12 }, 8),
        (Status::NoJournal, 9),
        (Status::NoMemory, 10),
        (Status::BadText { line: 3 }, 11),
        (Status::NotAtDay, 12),
        (Status::Breach { place: 5, law: 3 }, 13),
    ] {
        assert!(rt; status.code() == want, "of {status:?}");
    }
}

// Gives one byte, and then fails.
#[derive(Drop)]
struct OneByte {
    given: bool,
}

impl Read for OneByte {
    fn read(&mut self, buf: &mut [u8]) -> io::Result<usize> {
        if self.given {
            return Err(io::ErrorKind::TimedOut.into());
        }
        self.given = true;
        match buf.first_mut() {
            Some(first) => {
                *first = b'a';
                Ok(1)
            }
            None => Ok(0),
        }
    }
}

// Takes up to two bytes in all.
#[derive(Drop)]
struct TwoBytes {
    taken: usize,
}

impl Write for TwoBytes {
    fn write(&mut self, buf: &[u8]) -> io::Result<usize> {
        let count = buf.len().min(2_usize.saturating_sub(self.taken));
        self.taken = self.taken.saturating_add(count);
        Ok(count)
    }

    fn flush(&mut self) -> io::Result<()> {
        Ok(())
    }
}

/// Whether a host reads one byte and sends two, and each call behind them fails, as each of its disk does.
fn fails_in_turn<H: Host>(host: &mut H) -> bool {
    let mut into = [0; 4];
    let reads = [host.read_input(&mut into), host.read_input(&mut into)];
    reads == [Ok(1), Err(Failed)]
        && into[0] == b'a'
        && send_all(host, b"abc") == Err(Failed)
        && host.disk_len() == Err(Failed)
        && host.disk_sync() == Err(Failed)
}

/// The same of a real host over streams, whose journal has no file.
fn fails_over<O: Opens + Drop, R: Read + Drop, W: Write + Drop>(
    files: O,
    input: R,
    output: W,
) -> bool {
    let (input, output) = (Stream::new(input), Stream::new(output));
    fails_in_turn(&mut RealHost::new(input, output, JournalFile::new(files, "-")))
}

#[test]
fn a_real_host_reads_and_sends_until_one_fails(rt: HostRuntime) {
    let mut sink = TwoBytes { taken: 0 };
    let fails = fails_over(SystemFiles::new(&rt), OneByte { given: false }, &mut sink);
    assert!(rt; fails && sink.taken == 2);
}

/// A page that is written in two pieces, and a run over it.
const WRITTEN: &[Step<'static>] = &[
    Step::WritePage(0, 9_000),
    Step::WritePage(9_000, 10_000),
    Step::Sync,
    Step::IsPage(0, 0),
    Step::Write(4_090, b"############"),
    Step::IsPage(4_090, 4_102),
    // 86 and 87 are the offsets 4,102 and 4,103, of which multiples of 251 are taken away.
    Step::Read(4_100, &[b'#', b'#', 86, 87]),
];

/// A read past its end.
const PAST_END: &[Step<'static>] = &[Step::Read(9_997, &[0; 4])];

/// The page is there when the file is opened again, and then a byte more.
const REOPENED: &[Step<'static>] = &[
    Step::Len(10_000),
    Step::IsPage(4_090, 4_102),
    Step::Write(10_000, b"#"),
    Step::Len(10_001),
];

/// A file keeps a page, and has it when it is opened again.
fn keeps_page<R: Abort + AllocGlobal, O: Opens + Drop>(rt: &R, first: O, second: O, path: &str) {
    play_and_refuse(rt, JournalFile::new(first, path), WRITTEN, PAST_END);
    play_and_refuse(rt, JournalFile::new(second, path), REOPENED, &[]);
}

#[test]
fn a_file_keeps_each_byte_where_it_was_written(rt: HostRuntime) {
    // A file of an earlier run may stand there.
    let _ = fs::remove_file(&rt, "pages.bin");
    let (first, second) = (SystemFiles::new(&rt), SystemFiles::new(&rt));
    keeps_page(&rt, first, second, "pages.bin");
}

const WRITE_ONE: &[Step<'static>] = &[Step::Write(0, b"one")];

const READ_ONE: &[Step<'static>] = &[Step::Read(0, b"one")];

/// None of these is done by a second disk of a file, while the first is open.
const HELD: &[Step<'static>] = &[
    Step::Len(3),
    Step::Read(0, b"one"),
    Step::Write(0, b"two"),
    Step::Sync,
];

/// The second of two disks of a file can be used once the first is closed.
fn takes_over<R: Abort + AllocGlobal, D: Disk + Drop, E: Disk + Drop>(
    rt: &R,
    mut first: D,
    mut second: E,
) {
    play(rt, &mut first, WRITE_ONE);
    refuse(rt, &mut second, HELD);
    play_and_refuse(rt, first, READ_ONE, &[]);
    play(rt, &mut second, &[Step::Len(3)]);
}

/// The same of two disks of a path.
fn holds<R: Abort + AllocGlobal, O: Opens + Drop>(rt: &R, first: O, second: O, path: &str) {
    let first = JournalFile::new(first, path);
    takes_over(rt, first, JournalFile::new(second, path));
}

#[test]
fn a_file_that_is_in_use_is_held(rt: HostRuntime) {
    let (first, second) = (SystemFiles::new(&rt), SystemFiles::new(&rt));
    holds(&rt, first, second, "held.bin");
}

const BEFORE: &[Step<'static>] = &[Step::Write(0, b"before")];

const AFTER: &[Step<'static>] = &[Step::Write(6, b" and after"), Step::Sync, Step::Len(16)];

const BOTH: &[Step<'static>] = &[Step::Read(0, b"before and after")];

/// A disk is written before and after its file gets another name.
fn writes_on<R: Abort + AllocGlobal + Files, D: Disk + Drop>(
    rt: &R,
    mut disk: D,
    old: &str,
    new: &str,
) {
    play(rt, &mut disk, BEFORE);
    assert!(rt; fs::rename(rt, old, new).is_ok());
    play_and_refuse(rt, disk, AFTER, &[]);
}

/// A file is written under two names, and has it all under the second.
fn stays_open<R: Abort + AllocGlobal + Files, O: Opens + Drop>(rt: &R, first: O, second: O) {
    let (old, new) = ("open.bin", "renamed.bin");
    writes_on(rt, JournalFile::new(first, old), old, new);
    play_and_refuse(rt, JournalFile::new(second, new), BOTH, &[]);
}

#[test]
fn a_file_stays_open_from_its_first_use_on(rt: HostRuntime) {
    stays_open(&rt, SystemFiles::new(&rt), SystemFiles::new(&rt));
}
