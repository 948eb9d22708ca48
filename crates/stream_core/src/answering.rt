//! An input that is answered piece by piece.

ghost use Rattle.std.specs.Prelude.{◌≡◌, ◌<◌, ℕ, Some, true, Err, IfOk, length, min, drop};
ghost use Rattle.std.specs.Io.KnownBytes.{append_known};
ghost use Rattle.host_core.specs.Outside.{Continues};
ghost use Rattle.host_core.specs.Faults.{Causes};
ghost use Rattle.stream_core.specs.Asking.{Prompt};
ghost use Rattle.stream_core.specs.Taking.{ReadsAtMost};
ghost use Rattle.stream_core.specs.Ends.{IsEnd};
ghost use Rattle.stream_core.specs.Answering.{HasRead, HasAnswered};

use crate::answerer::Answerer;
use crate::input::exchange;
use crate::outbox::Outbox;
use host_core::{Fault, Host, Status};

/// Answers the input up to its end, up to so many bytes, or to where no further bytes are taken. It answers how the input ended,
/// or the fault that ended the run. What waits when it begins is sent before the first read.
pub fn answer_input<A: Answerer, H: Host>(
    answerer: &mut A,
    outbox: &mut Outbox,
    host: &mut H,
    buffer: &mut [u8],
    most: u64,
) -> Result<Status, Fault>
    requires buffer { 0 < length buffer.old }
    requires goes_on { A.goes_on answerer.old ≡ true }
    requires ready { A.ready answerer.old (H.outside host.old) most }
    ensures exact { (given : A.Given) → A.limit given ≡ most → HasRead (A.reads answerer.old given) (A.input given) 0 outbox.old (H.outside host.old)
        → IfOk result (λ status. (status ≡ A.end_of given) × ((H.outside host.new).sent ≡ append_known (A.begin given) (A.whole given))) }
    ensures taken { (given : A.Given) → A.limit given ≡ most → HasRead (A.reads answerer.old given) (A.input given) 0 outbox.old (H.outside host.old)
        → IfOk result (λ status. IsEnd status → ((H.outside host.new).input ≡ Some (drop (min most (length (A.input given))) (A.input given)))
        × A.holds answerer.new given (min most (length (A.input given))) (H.outside host.new)) }
    ensures end { IfOk result (A.may_end answerer.old) }
    ensures unread { (given : A.Given) → A.limit given ≡ most → HasRead (A.reads answerer.old given) (A.input given) 0 outbox.old (H.outside host.old) → result ≡ Err Fault.Read
        → (count : ℕ) × (count < most) × HasAnswered (A.text given) (A.begin given) (A.input given) count (H.outside host.new) × A.holds answerer.new given count (H.outside host.new) }
    ensures leaves { (given : A.Given) → A.limit given ≡ most → HasRead (A.reads answerer.old given) (A.input given) 0 outbox.old (H.outside host.old)
        → A.leaves given answerer.old (H.outside host.old) answerer.new (H.outside host.new) }
    ensures prompt { (given : A.Given) → A.limit given ≡ most → HasRead (A.reads answerer.old given) (A.input given) 0 outbox.old (H.outside host.old)
        → Prompt (A.text given) (A.begin given) (A.input given) (H.outside host.old).asks (H.outside host.new).asks }
    ensures starved { (given : A.Given) → A.limit given ≡ most → HasRead (A.reads answerer.old given) (A.input given) 0 outbox.old (H.outside host.old) → result ≡ Err Fault.Memory
        → A.starved given (H.outside host.new) }
    ensures bytes { ReadsAtMost most (H.outside host.old).input (H.outside host.new).input }
    ensures does { A.does answerer.old (H.outside host.old) answerer.new (H.outside host.new) }
    ensures continues { Continues (H.outside host.old) (H.outside host.new) }
    ensures causes { Causes result (H.outside host.old) (H.outside host.new) }
    ensures unkept { result ≡ Err Fault.Disk → A.fails }
    ensures starves { result ≡ Err Fault.Memory → A.starves }
{
    let mut read = 0;
    let mut open = true;
    while open {
        let room = buffer.len().min((most - read) as usize);
        let count = exchange(outbox, host, buffer, room)?;
        if count == 0 {
            open = false;
            continue;
        }
        answerer.feed(outbox, host, &buffer[..count])?;
        open = answerer.goes_on();
        read += count as u64;
    }
    answerer.finish(outbox, host, read, most)
}
