//! The lines of a summary.

ghost use Rattle.std.specs.Prelude.{◌≡◌, ◌++◌, Err, OnOk, IfOk, codes, decimal};
ghost use Rattle.std.specs.Io.KnownBytes.{append_known};
ghost use Rattle.host_core.specs.Outside.{Elapses};
ghost use Rattle.stream_core.specs.Outcomes.{SentOrStarved};
ghost use Rattle.stream_core.specs.Pending.{SendsPrefix};
ghost use Rattle.gen_core.specs.SummaryLines.{count_line, message_lines, summary_lines};

use crate::tally::Tally;
use host_core::{Fault, Host, Status, send_all};
use itoa::Buffer;
use price_core::NoMemory;
use std::alloc::Global;

/// Appends a word and a count as a line.
fn append_count(text: &mut Vec<u8>, word: &str, count: u64) -> Result<(), NoMemory>
    ensures { OnOk result (text.new.items ≡ text.old.items ++ count_line word.now count) }
{
    let mut buffer = Buffer::new();
    text.extend_from_slice(word.as_bytes())?;
    text.push(b' ')?;
    text.extend_from_slice(buffer.format(count).as_bytes())?;
    text.push(b'\n')?;
    Ok(())
}

/// Appends the lines of the messages by kind.
fn append_messages(text: &mut Vec<u8>, tally: &Tally) -> Result<(), NoMemory>
    ensures { OnOk result (text.new.items ≡ text.old.items ++ message_lines tally.now) }
{
    append_count(text, "listed", tally.listed)?;
    append_count(text, "state", tally.state)?;
    append_count(text, "band", tally.band)?;
    append_count(text, "straddle", tally.straddle)?;
    append_count(text, "collar", tally.collar)?;
    append_count(text, "release", tally.release)?;
    append_count(text, "short", tally.short)?;
    append_count(text, "breaker", tally.breaker)?;
    append_count(text, "marketresume", tally.resume)
}

/// The twelve lines of a summary.
fn summary_text(
    alloc: Global,
    records: u64,
    refused: u64,
    tally: &Tally,
) -> Result<Vec<u8>, NoMemory>
    ensures { IfOk result (λ text. text.items ≡ summary_lines records refused tally.now) }
{
    let mut text = Vec::new(alloc);
    append_count(&mut text, "records", records)?;
    append_count(&mut text, "refused", refused)?;
    append_count(&mut text, "messages", tally.messages)?;
    append_messages(&mut text, tally)?;
    Ok(text)
}

/// Sends the twelve lines of a summary: how many records there are, how many of them were refused, and how many messages
/// the others gave, together and by kind.
pub fn send_summary<H: Host>(
    alloc: Global,
    host: &mut H,
    records: u64,
    refused: u64,
    tally: &Tally,
) -> Result<Status, Fault>
    ensures done { IfOk result (λ status. status ≡ Status.Done) }
    ensures sent { OnOk result ((H.outside host.new).sent ≡ append_known (H.outside host.old).sent (summary_lines records refused tally.now)) }
    ensures moments { Elapses (H.outside host.old) (H.outside host.new) (SendsPrefix (H.outside host.old).sent (summary_lines records refused tally.now) (H.outside host.old)) }
    ensures outside { SentOrStarved result (H.outside host.old) (H.outside host.new) }
    ensures unsent { result ≡ Err Fault.Memory → (H.outside host.new).sent ≡ (H.outside host.old).sent }
{
    let text = summary_text(alloc, records, refused, tally)?;
    send_all(host, &text).map_err(|_| Fault::Send)?;
    Ok(Status::Done)
}
