//! What a journal holds, told in five lines.

ghost use Rattle.std.specs.Prelude.{◌≡◌, ◌+◌, ◌≤◌, ◌++◌, List, IfOk, IfErr, [], length, decimal, codes, vec_len, vec_capacity};
ghost use Rattle.wire_in.specs.declared.record.Record.{Record};
ghost use Rattle.host_core.specs.Frames.{OnlySends};
ghost use Rattle.engine_core.specs.EngineState.{Represents};
ghost use Rattle.report_core.specs.InternalReport.{Tells, IsTold, IsGathered, IsUngathered};
ghost use Rattle.report_core.specs.Reported.{Reported, line, day_word, report_of};

use host_core::{Host, Status, send_all};
use itoa::Buffer;
use journal_core::{BATCH_MAX, Batch};
use price_core::NoMemory;
use recovery_core::{Recovery, Waiting};
use session_core::{Day, date_text};
use std::alloc::Global;
use std::thread::Threads;
use stream_core::Outbox;
use yard_core::OpenGate;

/// How many bytes the five lines take at most.
const LINES_MAX: usize = 256;

/// Appends bytes that the text has room for.
fn append_bytes(text: &mut Vec<u8>, bytes: &[u8])
    requires room { vec_len text.old + length bytes.now ≤ vec_capacity text.old }
    ensures items { text.new.items ≡ text.old.items ++ bytes.now }
    ensures len { vec_len text.new ≡ vec_len text.old + length bytes.now }
    ensures capacity { vec_capacity text.old ≤ vec_capacity text.new }
{
    let _ = text.extend_from_slice(bytes);
}

/// Appends a word and a value as a line.
fn append_line(text: &mut Vec<u8>, word: &str, value: &[u8])
    requires room { vec_len text.old + 32 ≤ vec_capacity text.old }
    requires word { length word.now ≤ 8 }
    requires value { length value.now ≤ 20 }
    ensures items { text.new.items ≡ text.old.items ++ line word.now value.now }
    ensures len { vec_len text.new ≤ vec_len text.old + 32 }
    ensures capacity { vec_capacity text.old ≤ vec_capacity text.new }
{
    append_bytes(text, word.as_bytes());
    text.push_reserved(b' ');
    append_bytes(text, value);
    text.push_reserved(b'\n');
}

/// Appends a word and a number as a line.
fn append_number(text: &mut Vec<u8>, word: &str, number: u64)
    requires room { vec_len text.old + 32 ≤ vec_capacity text.old }
    requires word { length word.now ≤ 8 }
    ensures items { text.new.items ≡ text.old.items ++ line word.now (decimal number) }
    ensures len { vec_len text.new ≤ vec_len text.old + 32 }
    ensures capacity { vec_capacity text.old ≤ vec_capacity text.new }
{
    let mut buffer = Buffer::new();
    append_line(text, word, buffer.format(number).as_bytes());
}

/// Appends the line of the day.
fn append_day(text: &mut Vec<u8>, day: Option<Day>)
    requires room { vec_len text.old + 32 ≤ vec_capacity text.old }
    ensures items { text.new.items ≡ text.old.items ++ line (codes "day") (day_word day) }
    ensures len { vec_len text.new ≤ vec_len text.old + 32 }
    ensures capacity { vec_capacity text.old ≤ vec_capacity text.new }
{
    match day {
        Some(day) => append_line(text, "day", &date_text(day.date)),
        None => append_line(text, "day", "none".as_bytes()),
    }
}

/// Writes the five lines of what was read.
fn report_text(recovery: &Recovery, text: &mut Vec<u8>)
    requires empty { text.old.items ≡ [] }
    requires room { LINES_MAX ≤ vec_capacity text.old }
    ensures lines { (held : List Record) → Represents recovery.now.engine recovery.now.scan.capacity held held
        → text.new.items ≡ report_of recovery.now.scan.capacity held }
{
    let engine = &recovery.engine;
    append_number(text, "inputs", engine.admission.count());
    append_number(text, "messages", engine.published);
    append_number(text, "limit", recovery.scan.limit());
    append_day(text, engine.admission.today());
    append_number(text, "names", u64::from(engine.admission.names()));
}

/// Sends the five lines of what was read.
fn tell<H: Host>(host: &mut H, recovery: &Recovery, mut text: Vec<u8>) -> Status
    requires empty { text.items ≡ [] }
    requires room { LINES_MAX ≤ vec_capacity text }
    ensures tells { (held : List Record) → Represents recovery.now.engine recovery.now.scan.capacity held held
        → Tells (report_of recovery.now.scan.capacity held) result (H.outside host.old) (H.outside host.new) }
    ensures ends { IsTold result (H.outside host.old) (H.outside host.new) }
    ensures keeps { OnlySends (H.outside host.old) (H.outside host.new) }
{
    report_text(recovery, &mut text);
    match send_all(host, &text) {
        Ok(()) => Status::Done,
        Err(_) => Status::SendFault,
    }
}

/// Room for what is read, and for the lines that tell of it.
#[derive(Drop)]
struct Room {
    outbox: Outbox,
    batch: Batch,
    waiting: Waiting,
    text: Vec<u8>,
}

impl Room {
    fn new(alloc: Global) -> Result<Room, NoMemory>
        ensures outbox { IfOk result (λ room. room.outbox ≡ []) }
        ensures waiting { IfOk result (λ room. BATCH_MAX ≤ room.waiting.most) }
        ensures empty { IfOk result (λ room. room.text.items ≡ []) }
        ensures text { IfOk result (λ room. LINES_MAX ≤ vec_capacity room.text) }
    {
        Ok(Room {
            outbox: Outbox::new(alloc)?,
            batch: Batch::new(alloc)?,
            waiting: Waiting::new(alloc, Recovery::most_waiting(1))?,
            text: Vec::with_capacity(alloc, LINES_MAX)?,
        })
    }
}

/// Reads a journal, by one worker, with the room that it was given.
fn gather<Rt: Threads + Sync, H: Host>(
    rt: &Rt,
    alloc: Global,
    host: &mut H,
    outbox: Outbox,
    waiting: Waiting,
    batch: &mut Batch,
) -> Result<Recovery, Status>
    requires outbox { outbox ≡ [] }
    requires waiting { BATCH_MAX ≤ waiting.most }
    ensures gathered { IfOk result (λ recovery. IsGathered recovery (H.outside host.old) (H.outside host.new)) }
    ensures ungathered { IfErr result (λ status. IsUngathered (host.new ≡ host.old) status (H.outside host.old) (H.outside host.new)) }
{
    let mut recovery = Recovery::begin(alloc, host, 1, outbox, waiting)?;
    recovery.read(rt, host, &OpenGate, None, batch)?;
    Ok(recovery)
}

/// Reads a journal, and sends what it holds: how many records, how many messages they gave, how many records it takes, the
/// last day, and how many names were ever listed. The journal and the input stay as they are. Memory is short only before the
/// first call of the host, or at a record of the journal.
pub fn report<Rt: Threads + Sync, H: Host>(rt: &Rt, alloc: Global, host: &mut H) -> Status
    ensures { Reported (host.new ≡ host.old) result (H.outside host.old) (H.outside host.new) }
{
    let Ok(room) = Room::new(alloc) else {
        return Status::NoMemory;
    };
    let Room {
        outbox,
        mut batch,
        waiting,
        text,
    } = room;
    match gather(rt, alloc, host, outbox, waiting, &mut batch) {
        Ok(recovery) => tell(host, &recovery, text),
        Err(status) => status,
    }
}
