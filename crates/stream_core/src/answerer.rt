//! What answers an input that is read piece by piece.

ghost use Rattle.std.specs.Prelude.{◌≡◌, ◌≢◌, ◌≤◌, ◌+◌, [], ℕ, Bool, true, List, Option, Err, IfOk, OnOk, length, take};
ghost use Rattle.std.specs.Io.KnownBytes.{append_known};
ghost use Rattle.host_core.specs.declared.status.Status.{Status};
ghost use Rattle.host_core.specs.Outside.{Outside, Elapses};
ghost use Rattle.host_core.specs.Faults.{Causes};
ghost use Rattle.stream_core.specs.Ends.{IsEnd};
ghost use Rattle.stream_core.specs.Pending.{Expects, SendsPrefix};
ghost use Rattle.stream_core.specs.Taking.{OnlyExchanges};
ghost use Rattle.stream_core.specs.Answering.{IsNext, IsThrough, LeavesInput};

use crate::outbox::Outbox;
use host_core::{Fault, Host, Status};

/// Answers an input whose bytes it is given in pieces. What it answers waits in an outbox, and is sent before the next read.
pub trait Answerer {
    /// What its answers depend on: an input, how many bytes of it may be read, and what else the answerer begins with.
    ghost Given: { Type 0 };

    /// The input.
    ghost input: { Given → List ℕ };

    /// How many bytes of it may be read.
    ghost limit: { Given → ℕ };

    /// What had been sent before, where it is known.
    ghost begin: { Given → Option (List ℕ) };

    /// What it sends for the first bytes of the input, where more may follow.
    ghost text: { Given → List ℕ → List ℕ };

    /// What it sends for the input.
    ghost whole: { Given → List ℕ };

    /// How it ends over the input.
    ghost end_of: { Given → Status };

    /// How it may end where no fault ends it.
    ghost may_end: { Self → Status → Type 0 };

    /// So many bytes were read, and their answers were sent but for those that wait.
    ghost reads: { Self → Given → ℕ → List ℕ → Outside → Type 0 };

    /// What so many bytes give is held.
    ghost holds: { Self → Given → ℕ → Outside → Type 0 };

    /// So many bytes more may be given to it.
    ghost ready: { Self → Outside → ℕ → Type 0 };

    /// It takes further bytes.
    ghost goes_on: { Self → Bool };

    /// A run of it that goes on.
    ghost runs: { Given → Self → Outside → Self → Outside → Type 0 };

    /// What is said of a run of it that may have ended: what its stops leave, and what else it promises.
    ghost leaves: { Given → Self → Outside → Self → Outside → Type 0 };

    /// Memory was short.
    ghost starved: { Given → Outside → Type 0 };

    /// What any run of it does, whatever the input.
    ghost does: { Self → Outside → Self → Outside → Type 0 };

    /// A call of the disk may fail it.
    ghost fails: { Type 0 };

    /// It may find no memory.
    ghost starves: { Type 0 };

    /// What was sent and what waits are what the bytes give.
    ghost expects: { (answerer : Self) (given : Given) (count : ℕ) (waiting : List ℕ) (now : Outside) → reads answerer given count waiting now
        → Expects (begin given) now.sent waiting (text given (take count (input given))) };

    /// Once all was sent, nothing waits.
    ghost sent_on: { (answerer : Self) (given : Given) (count : ℕ) (waiting : List ℕ) (old new : Outside) → reads answerer given count waiting old → OnlyExchanges old new
        → new.sent ≡ append_known (begin given) (text given (take count (input given))) → reads answerer given count [] new };

    /// What the bytes give is held while the disk is left alone.
    ghost held_on: { (answerer : Self) (given : Given) (count : ℕ) (waiting : List ℕ) (old new : Outside) → reads answerer given count waiting old → OnlyExchanges old new
        → holds answerer given count new };

    /// It stays ready while the disk is left alone.
    ghost ready_on: { (answerer : Self) (old new : Outside) (more : ℕ) → OnlyExchanges old new → ready answerer old more → ready answerer new more };

    /// It is ready for fewer bytes.
    ghost ready_for_fewer: { (answerer : Self) (now : Outside) (fewer more : ℕ) → fewer ≤ more → ready answerer now more → ready answerer now fewer };

    /// To send what waits is a run.
    ghost runs_sending: { (answerer : Self) (given : Given) (count : ℕ) (waiting : List ℕ) (old new : Outside) → reads answerer given count waiting old
        → Elapses old new (SendsPrefix (begin given) (text given (take count (input given))) old) → OnlyExchanges old new → runs given answerer old answerer new };

    /// A run, and then another.
    ghost runs_on: { (given : Given) (first next last : Self) (old mid new : Outside) → runs given first old next mid → runs given next mid last new → runs given first old last new };

    /// A run, and then one that may have ended.
    ghost leaves_on: { (given : Given) (first next last : Self) (old mid new : Outside) → runs given first old next mid → leaves given next mid last new → leaves given first old last new };

    /// A run that goes on is one that may have ended.
    ghost leaves_so: { (given : Given) (first next : Self) (old new : Outside) → runs given first old next new → leaves given first old next new };

    /// What two runs do, one does after the other.
    ghost does_on: { (first next last : Self) (old mid new : Outside) → does first old next mid → does next mid last new → does first old last new };

    /// To send what waits and to read the input is a run.
    ghost does_exchange: { (answerer : Self) (old new : Outside) → OnlyExchanges old new → does answerer old answerer new };

    /// How it may end after a run it may before.
    ghost ends_on: { (first next : Self) (old new : Outside) (status : Status) → does first old next new → may_end next status → may_end first status };

    /// Whether it takes further bytes.
    fn goes_on(&self) -> bool
        ensures { result ≡ goes_on self.now };

    /// Answers bytes that follow those that it was given. After an error neither it nor the outbox is of further use.
    fn feed<H: Host>(
        &mut self,
        outbox: &mut Outbox,
        host: &mut H,
        piece: &[u8],
    ) -> Result<(), Fault>
        requires goes_on { goes_on self.old ≡ true }
        requires ready { ready self.old (H.outside host.old) (length piece.now) }
        ensures reads { (given : Given) (count : ℕ) → reads self.old given count outbox.old (H.outside host.old) → IsNext (input given) (limit given) count piece.now
            → OnOk result (reads self.new given (count + length piece.now) outbox.new (H.outside host.new)) }
        ensures runs { (given : Given) (count : ℕ) → reads self.old given count outbox.old (H.outside host.old) → IsNext (input given) (limit given) count piece.now
            → OnOk result (runs given self.old (H.outside host.old) self.new (H.outside host.new)) }
        ensures leaves { (given : Given) (count : ℕ) → reads self.old given count outbox.old (H.outside host.old) → IsNext (input given) (limit given) count piece.now
            → leaves given self.old (H.outside host.old) self.new (H.outside host.new) }
        ensures starved { (given : Given) (count : ℕ) → reads self.old given count outbox.old (H.outside host.old) → IsNext (input given) (limit given) count piece.now
            → result ≡ Err Fault.Memory → starved given (H.outside host.new) }
        ensures starves { result ≡ Err Fault.Memory → starves }
        ensures ready { (more : ℕ) → ready self.old (H.outside host.old) (length piece.now + more) → OnOk result (ready self.new (H.outside host.new) more) }
        ensures does { does self.old (H.outside host.old) self.new (H.outside host.new) }
        ensures keeps { LeavesInput (H.outside host.old) (H.outside host.new) }
        ensures causes { Causes result (H.outside host.old) (H.outside host.new) }
        ensures unread { result ≢ Err Fault.Read }
        ensures unkept { result ≡ Err Fault.Disk → fails };

    /// Ends an input of which so many bytes were read, of at most so many, and sends all that waits. It answers how the input
    /// ended.
    fn finish<H: Host>(
        &mut self,
        outbox: &mut Outbox,
        host: &mut H,
        read: u64,
        most: u64,
    ) -> Result<Status, Fault>
        requires ready { ready self.old (H.outside host.old) 0 }
        ensures exact { (given : Given) → limit given ≡ most → reads self.old given read outbox.old (H.outside host.old)
            → IsThrough (text given) (begin given) (goes_on self.old) (input given) read most (H.outside host.old)
            → IfOk result (λ status. (status ≡ end_of given) × ((H.outside host.new).sent ≡ append_known (begin given) (whole given))) }
        ensures held { (given : Given) → reads self.old given read outbox.old (H.outside host.old) → OnOk result (holds self.new given read (H.outside host.new)) }
        ensures leaves { (given : Given) → limit given ≡ most → reads self.old given read outbox.old (H.outside host.old)
            → IsThrough (text given) (begin given) (goes_on self.old) (input given) read most (H.outside host.old)
            → leaves given self.old (H.outside host.old) self.new (H.outside host.new) }
        ensures end { IfOk result (may_end self.old) }
        ensures whole { IfOk result (λ status. IsEnd status → goes_on self.old ≡ true) }
        ensures does { does self.old (H.outside host.old) self.new (H.outside host.new) }
        ensures keeps { LeavesInput (H.outside host.old) (H.outside host.new) }
        ensures causes { Causes result (H.outside host.old) (H.outside host.new) }
        ensures unread { result ≢ Err Fault.Read }
        ensures unkept { result ≡ Err Fault.Disk → fails }
        ensures unstarved { result ≢ Err Fault.Memory };
}
