//! A stream on its way: from pieces of the input to what is sent.

ghost use Rattle.std.specs.Prelude.{◌≡◌, ◌⊎◌, ◌+◌, ◌<◌, ◌≤◌, ◌^◌, ◌++◌, ◌∷◌, [], ℕ, List, Option, None, length, take, true, false, IsSome, OnOk, IfOk, IfSome};
ghost use Rattle.std.specs.Io.KnownBytes.{append_known};
ghost use Rattle.host_core.specs.Outside.{Elapses};
ghost use Rattle.wire_core.specs.Frames.{framed};
ghost use Rattle.wire_in.specs.Cutting.{pending, bodies_of, rest_of};
ghost use Rattle.text_core.specs.declared.task.Task.TheVariants as tasks;
ghost use Rattle.stream_core.specs.Outcomes.{Sent};
ghost use Rattle.stream_core.specs.Pending.{SendsPrefix};
ghost use Rattle.text_core.specs.Streams.{units_of, text_of, text_for, last_unit};
ghost use Rattle.text_core.specs.Streams as streams;
ghost use Rattle.text_core.specs.InternalStreams.{Answers, Reads, Run, IsOneLine};

use crate::kind::Kind;
use crate::line::Line;
use crate::task::Task;
use crate::writer::Writer;
use host_core::{Fault, Host};
use memchr::memchr;
use stream_core::Outbox;
use wire_in::Cutter;

/// The frame that is begun, the first 256 bytes of the line that is begun, since no longer line can be read, and what is
/// answered.
#[derive(Drop)]
pub struct Translator {
    pub cutter: Cutter,
    pub line: Line,
    pub writer: Writer,
}

/// The body of the whole frame that a piece begins with, where none was begun before. It is printed where it lies.
fn whole_frame<'a>(cutter: &Cutter, piece: &'a [u8]) -> Option<&'a [u8]>
    ensures between { IsSome result → pending cutter.now ≡ [] }
    ensures prefix { IfSome result (λ body. framed body.now ≡ take (length body.now + 1) piece.now) }
    ensures within { IfSome result (λ body. length body.now < length piece.now) }
    ensures short { IfSome result (λ body. length body.now ≤ 255) }
{
    if cutter.inside() {
        return None;
    }
    let (len, rest) = piece.split_first()?;
    rest.get(..usize::from(*len))
}

/// How long the line is that a newline ends first in a piece, without it.
pub fn line_len(piece: &[u8]) -> Option<usize>
    ensures within { IfSome result (λ n. n < length piece.now) }
    ensures line { IfSome result (λ n. IsOneLine (take n piece.now)) }
    ensures ended { IfSome result (λ n. take (n + 1) piece.now ≡ take n piece.now ++ 10 ∷ []) }
    ensures none { result ≡ None → IsOneLine piece.now }
{
    memchr(b'\n', piece)
}

impl Translator {
    /// Nothing was read yet.
    pub fn new() -> Translator
        ensures { result ≡ record { cutter = []; line = []; writer = record { number = 0; bad = false; output = [] } } }
    {
        Translator {
            cutter: Cutter::new(),
            line: Line::new(),
            writer: Writer::new(),
        }
    }

    /// Takes bytes up to the end of a frame or of the piece, and prints the frame if it is whole. Answers how many bytes
    /// it took.
    fn take_frame<H: Host>(
        &mut self,
        kind: Kind,
        outbox: &mut Outbox,
        host: &mut H,
        piece: &[u8],
    ) -> Result<usize, Fault>
        requires open { self.old.writer.bad ≡ false }
        requires few { self.old.writer.number < 2 ^ 42 }
        requires some { 0 < length piece.now }
        ensures run { (begin : Option (List ℕ)) (read : List ℕ) → Reads tasks.Print kind begin read self.old outbox.old (H.outside host.old).sent
            → Run begin (text_for tasks.Print kind read) (H.outside host.old) (H.outside host.new)
            (IfOk result (λ n. Reads tasks.Print kind begin (read ++ take n piece.now) self.new outbox.new (H.outside host.new).sent)) }
        ensures used { IfOk result (λ n. (0 < n) × (n ≤ length piece.now)) }
        ensures few { OnOk result (self.new.writer.number ≤ self.old.writer.number + 1) }
        ensures outside { Sent result (H.outside host.old) (H.outside host.new) }
    {
        if let Some(body) = whole_frame(&self.cutter, piece) {
            self.writer.answer(Task::Print, kind, outbox, host, body)?;
            return Ok(body.len() + 1);
        }
        let cut = self.cutter.take(piece);
        if !cut.whole {
            return Ok(cut.used);
        }
        self.writer
            .answer(Task::Print, kind, outbox, host, self.cutter.body())?;
        Ok(cut.used)
    }

    /// Packs the line that a newline ends, whose last bytes are these.
    fn end_line<H: Host>(
        &mut self,
        kind: Kind,
        outbox: &mut Outbox,
        host: &mut H,
        last: &[u8],
    ) -> Result<(), Fault>
        requires open { self.old.writer.bad ≡ false }
        requires few { self.old.writer.number < 2 ^ 42 }
        requires line { IsOneLine last.now }
        ensures run { (begin : Option (List ℕ)) (read : List ℕ) → Reads tasks.Pack kind begin read self.old outbox.old (H.outside host.old).sent
            → Run begin (text_for tasks.Pack kind read) (H.outside host.old) (H.outside host.new)
            (OnOk result (Reads tasks.Pack kind begin (read ++ last.now ++ 10 ∷ []) self.new outbox.new (H.outside host.new).sent)) }
        ensures few { OnOk result (self.new.writer.number ≤ self.old.writer.number + 1) }
        ensures outside { Sent result (H.outside host.old) (H.outside host.new) }
    {
        if self.line.is_empty() {
            return self.writer.answer(Task::Pack, kind, outbox, host, last);
        }
        self.line.keep(last);
        self.writer
            .answer(Task::Pack, kind, outbox, host, self.line.as_slice())?;
        self.line.clear();
        Ok(())
    }

    /// Takes bytes up to the end of a line or of the piece, and packs the line if it is whole. Answers how many bytes it
    /// took. A line that lies whole in the piece is packed where it lies.
    fn take_line<H: Host>(
        &mut self,
        kind: Kind,
        outbox: &mut Outbox,
        host: &mut H,
        piece: &[u8],
    ) -> Result<usize, Fault>
        requires open { self.old.writer.bad ≡ false }
        requires few { self.old.writer.number < 2 ^ 42 }
        requires some { 0 < length piece.now }
        ensures run { (begin : Option (List ℕ)) (read : List ℕ) → Reads tasks.Pack kind begin read self.old outbox.old (H.outside host.old).sent
            → Run begin (text_for tasks.Pack kind read) (H.outside host.old) (H.outside host.new)
            (IfOk result (λ n. Reads tasks.Pack kind begin (read ++ take n piece.now) self.new outbox.new (H.outside host.new).sent)) }
        ensures used { IfOk result (λ n. (0 < n) × (n ≤ length piece.now)) }
        ensures few { OnOk result (self.new.writer.number ≤ self.old.writer.number + 1) }
        ensures outside { Sent result (H.outside host.old) (H.outside host.new) }
    {
        let Some(len) = line_len(piece) else {
            self.line.keep(piece);
            return Ok(piece.len());
        };
        self.end_line(kind, outbox, host, &piece[..len])?;
        Ok(len + 1)
    }

    /// Takes some bytes of a piece, and answers the unit that they end, if they end one. Answers how many it took.
    fn advance<H: Host>(
        &mut self,
        task: Task,
        kind: Kind,
        outbox: &mut Outbox,
        host: &mut H,
        piece: &[u8],
    ) -> Result<usize, Fault>
        requires open { self.old.writer.bad ≡ false }
        requires few { self.old.writer.number < 2 ^ 42 }
        requires some { 0 < length piece.now }
        ensures run { (begin : Option (List ℕ)) (read : List ℕ) → Reads task kind begin read self.old outbox.old (H.outside host.old).sent
            → Run begin (text_for task kind read) (H.outside host.old) (H.outside host.new)
            (IfOk result (λ n. Reads task kind begin (read ++ take n piece.now) self.new outbox.new (H.outside host.new).sent)) }
        ensures used { IfOk result (λ n. (0 < n) × (n ≤ length piece.now)) }
        ensures few { OnOk result (self.new.writer.number ≤ self.old.writer.number + 1) }
        ensures outside { Sent result (H.outside host.old) (H.outside host.new) }
    {
        match task {
            Task::Print => self.take_frame(kind, outbox, host, piece),
            Task::Pack => self.take_line(kind, outbox, host, piece),
        }
    }

    /// Takes all bytes of a piece, or those up to the first bad unit, and answers each unit that is whole.
    pub fn feed<H: Host>(
        &mut self,
        task: Task,
        kind: Kind,
        outbox: &mut Outbox,
        host: &mut H,
        piece: &[u8],
    ) -> Result<(), Fault>
        requires open { self.old.writer.bad ≡ false }
        requires few { self.old.writer.number + length piece.now < 2 ^ 42 }
        ensures reads { (begin : Option (List ℕ)) (read : List ℕ) → Reads task kind begin read self.old outbox.old (H.outside host.old).sent
            → OnOk result (Reads task kind begin (read ++ piece.now) self.new outbox.new (H.outside host.new).sent) }
        ensures moments { (begin : Option (List ℕ)) (read : List ℕ) → Reads task kind begin read self.old outbox.old (H.outside host.old).sent
            → Elapses (H.outside host.old) (H.outside host.new) (SendsPrefix begin (text_of task kind (units_of task (read ++ piece.now))) (H.outside host.old)) }
        ensures few { OnOk result (self.new.writer.number ≤ self.old.writer.number + length piece.now) }
        ensures outside { Sent result (H.outside host.old) (H.outside host.new) }
    {
        let mut at = 0;
        while at < piece.len() && !self.writer.bad {
            at += self.advance(task, kind, outbox, host, &piece[at..])?;
        }
        Ok(())
    }

    /// Packs the last line of a text, which has no newline, if there is one.
    fn close_line<H: Host>(
        &mut self,
        kind: Kind,
        outbox: &mut Outbox,
        host: &mut H,
    ) -> Result<(), Fault>
        requires open { self.old.writer.bad ≡ false }
        requires few { self.old.writer.number < 2 ^ 42 }
        ensures answers { (begin : Option (List ℕ)) (read : List ℕ) → Reads tasks.Pack kind begin read self.old outbox.old (H.outside host.old).sent
            → OnOk result (Answers tasks.Pack kind begin (units_of tasks.Pack read ++ last_unit tasks.Pack (streams.rest_of tasks.Pack read)) self.new.writer outbox.new (H.outside host.new).sent) }
        ensures moments { (begin : Option (List ℕ)) (read : List ℕ) → Reads tasks.Pack kind begin read self.old outbox.old (H.outside host.old).sent
            → Elapses (H.outside host.old) (H.outside host.new) (SendsPrefix begin (text_of tasks.Pack kind (units_of tasks.Pack read)) (H.outside host.old)) }
        ensures cutter { self.new.cutter ≡ self.old.cutter }
        ensures few { OnOk result (self.new.writer.number ≤ self.old.writer.number + 1) }
        ensures outside { Sent result (H.outside host.old) (H.outside host.new) }
    {
        if self.line.is_empty() {
            return Ok(());
        }
        self.writer
            .answer(Task::Pack, kind, outbox, host, self.line.as_slice())
    }

    /// Answers the last line of a text, which has no newline, if there is one.
    pub fn close<H: Host>(
        &mut self,
        task: Task,
        kind: Kind,
        outbox: &mut Outbox,
        host: &mut H,
    ) -> Result<(), Fault>
        requires open { self.old.writer.bad ≡ false }
        requires few { self.old.writer.number < 2 ^ 42 }
        ensures answers { (begin : Option (List ℕ)) (read : List ℕ) → Reads task kind begin read self.old outbox.old (H.outside host.old).sent
            → OnOk result (Answers task kind begin (units_of task read ++ last_unit task (streams.rest_of task read)) self.new.writer outbox.new (H.outside host.new).sent) }
        ensures moments { (begin : Option (List ℕ)) (read : List ℕ) → Reads task kind begin read self.old outbox.old (H.outside host.old).sent
            → Elapses (H.outside host.old) (H.outside host.new) (SendsPrefix begin (text_of task kind (units_of task read)) (H.outside host.old)) }
        ensures cutter { self.new.cutter ≡ self.old.cutter }
        ensures few { OnOk result (self.new.writer.number ≤ self.old.writer.number + 1) }
        ensures outside { Sent result (H.outside host.old) (H.outside host.new) }
    {
        match task {
            Task::Print => Ok(()),
            Task::Pack => self.close_line(kind, outbox, host),
        }
    }
}
