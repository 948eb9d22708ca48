//! The input of a session, read piece by piece.

ghost use Rattle.std.specs.Prelude.{◌≡◌, ◌≢◌, ◌⊎◌, ◌+◌, ◌<◌, ◌≤◌, ◌^◌, ◌++◌, ◌==◌, if◌then◌else◌, nat_le, [], ℕ, List, Option, Some, Ok, Err, IfOk, OnOk, OnErr, length, min, take, drop, MatchResult};
ghost use Rattle.std.specs.Io.KnownBytes.{append_known};
ghost use Rattle.host_core.specs.Outside.{Continues, Elapses};
ghost use Rattle.host_core.specs.Faults.{Causes};
ghost use Rattle.host_core.specs.HostCalls.{ReadsInput};
ghost use Rattle.wire_in.specs.declared.record.Record.{Record};
ghost use Rattle.wire_in.specs.Cutting.{pending, bodies_of, rest_of};
ghost use Rattle.stream_core.specs.Taking.{ReadsAtMost, TakesPiece, OnlyExchanges};
ghost use Rattle.stream_core.specs.Ends.{IsEnd, end_of};
ghost use Rattle.stream_core.specs.Pending.{Expects, SendsPrefix};
ghost use Rattle.engine_core.specs.Sessions.{Start, Answered, Prompt, Starved, expected};
ghost use Rattle.engine_core.specs.Unwritten.{WritesNothing, AcceptsNone};
ghost use Rattle.engine_core.specs.Serving.{Reads, Leaves, IsReady};

use crate::keeper::Keeper;
use crate::session::{Session, feed};
use host_core::{Fault, Host, Status};
use std::thread::Threads;
use stream_core::exchange;
use yard_core::Gate;

/// How a session ends that has read so many bytes of at most so many, and all that the input has where they are fewer.
fn ending(session: &Session, read: u64, most: u64) -> Status
    ensures end { IsEnd result }
    ensures status { (bytes : List ℕ) → pending session.now.cutter ≡ rest_of bytes
        → result ≡ (if nat_le most read then Status.SessionFull else if length (rest_of bytes) == 0 then Status.Done else Status.Truncated) }
{
    if read >= most {
        Status::SessionFull
    } else if session.cutter.inside() {
        Status::Truncated
    } else {
        Status::Done
    }
}

/// Answers the input up to its end, or up to so many bytes, in rounds of as many frames as the session's takes. It
/// answers Done, Truncated or SessionFull, or the fault that ended the session.
pub fn serve_input<Rt: Threads + Sync, K: Keeper, H: Host, G: Gate>(
    rt: &Rt,
    session: &mut Session,
    keeper: &mut K,
    host: &mut H,
    gate: &G,
    buffer: &mut [u8],
    most: u64,
) -> Result<Status, Fault>
    requires buffer { 0 < length buffer.old }
    requires empty { session.old.round.outcomes ≡ [] }
    requires ready { IsReady (K.has_room keeper.old (H.outside host.old).disk) K.most session.old }
    requires fresh { session.old.answered ≡ 0 }
    requires small { most < 2 ^ 41 }
    ensures exact { (start : Start) (input : List ℕ) → start.acknowledges ≡ K.acknowledges → Reads (K.holds keeper.old) start input 0 session.old (H.outside host.old)
        → IfOk result (λ status. (status ≡ end_of most input) × Answered (K.holds keeper.new) start input (min most (length input)) (H.outside host.new)) }
    ensures end { IfOk result IsEnd }
    ensures unread { (start : Start) (input : List ℕ) → start.acknowledges ≡ K.acknowledges → Reads (K.holds keeper.old) start input 0 session.old (H.outside host.old)
        → result ≡ Err Fault.Read → (count : ℕ) × (count < most) × Answered (K.holds keeper.new) start input count (H.outside host.new) }
    ensures moments { (start : Start) (input : List ℕ) → start.acknowledges ≡ K.acknowledges → Reads (K.holds keeper.old) start input 0 session.old (H.outside host.old)
        → Elapses (H.outside host.old) (H.outside host.new) (Leaves session.old.round.most (K.recovers keeper.old (H.outside host.old)) start (bodies_of (take most input))) }
    ensures nothing { (start : Start) (input : List ℕ) → start.acknowledges ≡ K.acknowledges → Reads (K.holds keeper.old) start input 0 session.old (H.outside host.old)
        → AcceptsNone start (bodies_of (take most input)) → WritesNothing (H.outside host.old) (H.outside host.new) }
    ensures prompt { (start : Start) (input : List ℕ) → start.acknowledges ≡ K.acknowledges → Reads (K.holds keeper.old) start input 0 session.old (H.outside host.old)
        → Prompt start input (H.outside host.old).asks (H.outside host.new).asks }
    ensures starved { (start : Start) (input : List ℕ) → start.acknowledges ≡ K.acknowledges → Reads (K.holds keeper.old) start input 0 session.old (H.outside host.old)
        → result ≡ Err Fault.Memory → Starved start (bodies_of (take most input)) (H.outside host.new) }
    ensures bytes { ReadsAtMost most (H.outside host.old).input (H.outside host.new).input }
    ensures touches { K.touches session.old.round.most (H.outside host.old) (H.outside host.new) }
    ensures continues { Continues (H.outside host.old) (H.outside host.new) }
    ensures causes { Causes result (H.outside host.old) (H.outside host.new) }
    ensures unkept { result ≡ Err Fault.Disk → K.fails }
{
    let mut read = 0;
    let mut open = true;
    while open {
        let room = session.at_once(buffer.len()).min((most - read) as usize);
        let count = exchange(&mut session.outbox, host, buffer, room)?;
        feed(rt, session, keeper, host, gate, &buffer[..count])?;
        open = count > 0;
        read += count as u64;
    }
    Ok(ending(session, read, most))
}
