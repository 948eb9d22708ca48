//! What is answered of a stream.

ghost use Rattle.std.specs.Prelude.{◌≡◌, ◌+◌, ◌<◌, ◌≤◌, ◌^◌, ◌++◌, ◌∷◌, [], ℕ, List, Option, length, true, false, if◌then◌else◌, OnOk};
ghost use Rattle.host_core.specs.Outside.{Elapses};
ghost use Rattle.text_core.specs.declared.task.Task.TheVariants as tasks;
ghost use Rattle.stream_core.specs.Outcomes.{Sent};
ghost use Rattle.stream_core.specs.Pending.{SendsPrefix};
ghost use Rattle.text_core.specs.Streams.{text_of};
ghost use Rattle.text_core.specs.InternalStreams.{Answers};

use crate::kind::Kind;
use crate::line::Line;
use crate::output::write_output;
use crate::task::Task;
use host_core::{Fault, Host};
use stream_core::Outbox;

/// How many units were answered, whether the one behind them was bad, and the room in which an answer is written.
#[derive(Drop)]
pub struct Writer {
    pub number: u64,
    pub bad: bool,
    pub output: Line,
}

impl Writer {
    /// Nothing was answered yet.
    pub fn new() -> Writer
        ensures { result ≡ record { number = 0; bad = false; output = [] } }
    {
        Writer {
            number: 0,
            bad: false,
            output: Line::new(),
        }
    }

    /// Answers one unit more. After an error the writer is of no further use.
    pub fn answer<H: Host>(
        &mut self,
        task: Task,
        kind: Kind,
        outbox: &mut Outbox,
        host: &mut H,
        unit: &[u8],
    ) -> Result<(), Fault>
        requires open { self.old.bad ≡ false }
        requires few { self.old.number < 2 ^ 42 }
        requires short { task ≡ tasks.Print → length unit.now ≤ 255 }
        ensures answers { (begin : Option (List ℕ)) (units : List (List ℕ)) → Answers task kind begin units self.old outbox.old (H.outside host.old).sent
            → OnOk result (Answers task kind begin (units ++ unit.now ∷ []) self.new outbox.new (H.outside host.new).sent) }
        ensures moments { (begin : Option (List ℕ)) (units : List (List ℕ)) → Answers task kind begin units self.old outbox.old (H.outside host.old).sent
            → Elapses (H.outside host.old) (H.outside host.new) (SendsPrefix begin (text_of task kind units) (H.outside host.old)) }
        ensures few { OnOk result (self.new.number ≤ self.old.number + 1) }
        ensures outside { Sent result (H.outside host.old) (H.outside host.new) }
    {
        self.output.clear();
        if !write_output(&mut self.output, task, kind, unit) {
            self.bad = true;
            return Ok(());
        }
        outbox.append_bytes(host, self.output.as_slice())?;
        self.number += 1;
        Ok(())
    }
}
