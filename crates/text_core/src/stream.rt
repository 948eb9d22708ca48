//! The two streams over a host: frames printed as lines, and lines packed as frames.

ghost use Rattle.std.specs.Prelude.{◌≡◌, ◌<◌, ◌≤◌, ◌^◌, ◌+◌, [], ℕ, List, Option, true, false, IfOk, OnOk, length, not, refl, ◌&&◌};
ghost use Rattle.host_core.specs.Outside.{Elapses};
ghost use Rattle.wire_in.specs.Cutting.{pending};
ghost use Rattle.text_core.specs.declared.task.Task.TheVariants as tasks;
ghost use Rattle.stream_core.specs.Outcomes.{Sent};
ghost use Rattle.stream_core.specs.Ends as ends;
ghost use Rattle.stream_core.specs.Pending.{SendsPrefix};
ghost use Rattle.stream_core.proofs.Sending.{sends_longer, sends_whole};
ghost use Rattle.text_core.specs.Streams.{rest_of, text_of, text_for, end_of};
ghost use Rattle.text_core.specs.Translated.{IsEnd, IsAnswer, Translated, Printed, Packed, bytes_max};
ghost use Rattle.text_core.specs.InternalStreams.{Answers, Given, Reads, Rests, Run, Translates, closed_units, ending_of, ends_before, fewer_left, rests_on, translates_sent, whole_text};

use crate::kind::Kind;
use crate::task::Task;
use crate::translator::Translator;
use host_core::{Fault, Host, Status};
use price_core::NoMemory;
use std::alloc::Global;
use stream_core::{Answerer, Outbox, PIECE, answer_input, answer_of};

/// The most bytes that a command reads.
const BYTES_MAX: u64 = 1_099_511_627_776;

/// A stream on its way, what it is taken for, and what its lines are of.
#[derive(Drop)]
pub struct Translation {
    pub task: Task,
    pub kind: Kind,
    pub translator: Translator,
}

/// Whether a last line is answered: at the end of the input, where no unit was bad.
fn closes(at_end: bool, bad: bool) -> bool
    ensures { result ≡ (at_end && not bad) }
{
    at_end && !bad
}

/// Answers the last line of a text that was read to its end, where no unit was bad.
fn close_at<H: Host>(
    translator: &mut Translator,
    task: Task,
    kind: Kind,
    outbox: &mut Outbox,
    host: &mut H,
    at_end: bool,
) -> Result<(), Fault>
    requires few { translator.old.writer.number < 2 ^ 42 }
    ensures run { (begin : Option (List ℕ)) (read : List ℕ) → Reads task kind begin read translator.old outbox.old (H.outside host.old).sent
        → Run begin (text_of task kind (closed_units task at_end read)) (H.outside host.old) (H.outside host.new)
        (OnOk result (Answers task kind begin (closed_units task at_end read) translator.new.writer outbox.new (H.outside host.new).sent)) }
    ensures cutter { translator.new.cutter ≡ translator.old.cutter }
    ensures bad { translator.old.writer.bad ≡ true → translator.new.writer.bad ≡ true }
    ensures few { OnOk result (translator.new.writer.number < 2 ^ 43) }
    ensures outside { Sent result (H.outside host.old) (H.outside host.new) }
{
    if closes(at_end, translator.writer.bad) {
        return translator.close(task, kind, outbox, host);
    }
    Ok(())
}

/// How a command ends that has answered all it read, so many bytes of at most so many.
fn ending(translator: &Translator, task: Task, read: u64, most: u64) -> Status
    requires few { translator.now.writer.number < 2 ^ 43 }
    ensures end { IsEnd result }
    ensures answer { IsAnswer task result }
    ensures status { (bytes : List ℕ) → (translator.now.writer.bad ≡ false → task ≡ tasks.Print → pending translator.now.cutter ≡ rest_of task bytes)
        → result ≡ ending_of task translator.now.writer (rest_of task bytes) read most }
    ensures good { ends.IsEnd result → translator.now.writer.bad ≡ false }
{
    if translator.writer.bad {
        Status::BadText {
            line: translator.writer.number + 1,
        }
    } else if read >= most {
        Status::SessionFull
    } else if task == Task::Print && translator.cutter.inside() {
        Status::Truncated
    } else {
        Status::Done
    }
}

impl Answerer for Translation {
    ghost Given = { Given };

    ghost input = { λ given. given.input };

    ghost limit = { λ given. given.most };

    ghost begin = { λ given. given.begin };

    ghost text = { λ given read. text_for given.task given.kind read };

    ghost whole = { λ given. whole_text given };

    ghost end_of = { λ given. end_of given.task given.kind given.most given.input };

    ghost may_end = { λ translation status. IsEnd status × IsAnswer translation.task status };

    ghost reads = { λ translation given count waiting now. Translates given count waiting translation now };

    ghost holds = { λ _ _ _ _. Unit {0} };

    ghost ready = { λ translation _ more. translation.translator.writer.number + more < 2 ^ 42 };

    ghost goes_on = { λ translation. not translation.translator.writer.bad };

    ghost runs = { λ given _ old _ new. Elapses old new (SendsPrefix given.begin (whole_text given) old) };

    ghost leaves = { λ given _ old _ new. Elapses old new (SendsPrefix given.begin (whole_text given) old) };

    ghost starved = { λ _ _. ⊥ };

    ghost does = { λ first old next new. Rests first next old new };

    ghost fails = { ⊥ };

    ghost starves = { ⊥ };

    ghost expects = { λ _ _ _ _ _ translates. translates.reads.answers.pending_is };

    ghost sent_on = { λ _ _ _ _ _ new translates _ sent. translates_sent new translates sent };

    ghost held_on = { λ _ _ _ _ _ _ _ _. tt };

    ghost ready_on = { λ _ _ _ _ _ ready. ready };

    ghost ready_for_fewer = { λ translation _ fewer more le ready. fewer_left translation fewer more le ready };

    ghost runs_sending = { λ _ _ _ _ _ _ translates run _. sends_longer _ translates.more _ translates.whole run };

    ghost runs_on = { λ _ _ _ _ _ _ _ first second. sends_whole first second };

    ghost leaves_on = { λ _ _ _ _ _ _ _ first second. sends_whole first second };

    ghost leaves_so = { λ _ _ _ _ _ run. run };

    ghost does_on = { λ _ _ _ _ _ _ first second. rests_on first second };

    ghost does_exchange = { λ _ _ _ keeps. record { same = refl; keeps = keeps } };

    ghost ends_on = { λ first next _ _ status does end. ends_before first next status does end };

    fn goes_on(&self) -> bool {
        !self.translator.writer.bad
    }

    fn feed<H: Host>(
        &mut self,
        outbox: &mut Outbox,
        host: &mut H,
        piece: &[u8],
    ) -> Result<(), Fault> {
        self.translator
            .feed(self.task, self.kind, outbox, host, piece)
    }

    fn finish<H: Host>(
        &mut self,
        outbox: &mut Outbox,
        host: &mut H,
        read: u64,
        most: u64,
    ) -> Result<Status, Fault> {
        let (task, kind) = (self.task, self.kind);
        close_at(&mut self.translator, task, kind, outbox, host, read < most)?;
        let status = ending(&self.translator, task, read, most);
        outbox.flush(host)?;
        Ok(status)
    }
}

/// What a command needs memory for: all of it is taken before the host is called.
#[derive(Drop)]
struct Room {
    outbox: Outbox,
    buffer: Vec<u8>,
}

/// Takes the room of a command.
fn take_room(alloc: Global) -> Result<Room, NoMemory>
    ensures outbox { IfOk result (λ room. room.outbox ≡ []) }
    ensures buffer { IfOk result (λ room. length room.buffer.items ≡ 65536) }
{
    Ok(Room {
        outbox: Outbox::new(alloc)?,
        buffer: vec![in alloc; 0; PIECE]?,
    })
}

/// Translates the input, up to its end, to so many bytes, or to its first bad unit.
fn translate<H: Host>(alloc: Global, host: &mut H, task: Task, kind: Kind) -> Status
    ensures { Translated (host.new ≡ host.old) task kind bytes_max result (H.outside host.old) (H.outside host.new) }
{
    let Ok(mut room) = take_room(alloc) else {
        return Status::NoMemory;
    };
    let mut translation = Translation {
        task,
        kind,
        translator: Translator::new(),
    };
    answer_of(answer_input(
        &mut translation,
        &mut room.outbox,
        host,
        &mut room.buffer,
        BYTES_MAX,
    ))
}

/// Cuts the input into frames by their length bytes, and sends the line of each with a newline, up to the end of the
/// input or to 1,099,511,627,776 bytes. It answers `BadText` with the number of the first frame whose body spells no
/// value, and `Truncated` where the input ends inside a frame. The disk is not touched.
pub fn print_stream<H: Host>(alloc: Global, host: &mut H, kind: Kind) -> Status
    ensures printed { Printed (host.new ≡ host.old) kind result (H.outside host.old) (H.outside host.new) }
{
    translate(alloc, host, Task::Print, kind)
}

/// Sends the frame of each line of the input, up to its end or to 1,099,511,627,776 bytes; the last line counts also
/// without its newline. It answers `BadText` with the number of the first line that prints no value. The disk is not
/// touched.
pub fn pack_stream<H: Host>(alloc: Global, host: &mut H, kind: Kind) -> Status
    ensures packed { Packed (host.new ≡ host.old) kind result (H.outside host.old) (H.outside host.new) }
{
    translate(alloc, host, Task::Pack, kind)
}
