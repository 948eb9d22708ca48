//! The input, read piece by piece.

ghost use Rattle.std.specs.Prelude.{◌≡◌, ◌≢◌, ◌<◌, ◌≤◌, [], ℕ, List, Option, Some, Err, IfOk, OnOk, OnErr, length, take, drop};
ghost use Rattle.std.specs.Io.KnownBytes.{append_known};
ghost use Rattle.host_core.specs.Outside.{Elapses};
ghost use Rattle.host_core.specs.Faults.{Causes};
ghost use Rattle.host_core.specs.HostCalls.{ReadsInput};
ghost use Rattle.stream_core.specs.Pending.{Expects, SendsPrefix};
ghost use Rattle.stream_core.specs.Taking.{TakesPiece, OnlyExchanges};
ghost use Rattle.stream_core.specs.Asking.{Prompt};

use crate::outbox::Outbox;
use host_core::{Failed, Fault, Host};

/// How many bytes one read asks for.
pub const PIECE: usize = 65_536;

/// Reads at most so many bytes into a prefix of a buffer.
fn read_piece<H: Host>(host: &mut H, buffer: &mut [u8], most: usize) -> Result<usize, Failed>
    requires some { 0 < most }
    requires room { most ≤ length buffer.old }
    ensures reads { ReadsInput result (take most buffer.new) (H.outside host.old) (H.outside host.new) }
{
    host.read_input(&mut buffer[..most])
}

/// Sends all that waits, and then reads the next piece of at most so many bytes into a prefix of a buffer. It answers how
/// many were read: 0 at the input's end, and where none may be read. After an error the outbox is of no further use.
#[tactic(auto, using(crate::proofs::Pieces::exchanges_on, crate::proofs::Pieces::takes_piece, crate::proofs::Asking::no_ask))]
pub fn exchange<H: Host>(
    outbox: &mut Outbox,
    host: &mut H,
    buffer: &mut [u8],
    most: usize,
) -> Result<usize, Fault>
    requires room { most ≤ length buffer.old }
    ensures empty { OnOk result (outbox.new ≡ []) }
    ensures sent { (begin : Option (List ℕ)) (text : List ℕ) → Expects begin (H.outside host.old).sent outbox.old text
        → OnOk result ((H.outside host.new).sent ≡ append_known begin text) }
    ensures unread { (begin : Option (List ℕ)) (text : List ℕ) → Expects begin (H.outside host.old).sent outbox.old text
        → result ≡ Err Fault.Read → (H.outside host.new).sent ≡ append_known begin text }
    ensures asked { result ≡ Err Fault.Read → 0 < most }
    ensures moments { (begin : Option (List ℕ)) (text : List ℕ) → Expects begin (H.outside host.old).sent outbox.old text
        → Elapses (H.outside host.old) (H.outside host.new) (SendsPrefix begin text (H.outside host.old)) }
    ensures prompt { (text : List ℕ → List ℕ) (begin : Option (List ℕ)) (input : List ℕ) (count : ℕ) → (H.outside host.old).input ≡ Some (drop count input) → count ≤ length input
        → Expects begin (H.outside host.old).sent outbox.old (text (take count input))
        → Prompt text begin input (H.outside host.old).asks (H.outside host.new).asks }
    ensures taken { IfOk result (λ n. TakesPiece most (H.outside host.old).input (H.outside host.new).input buffer.new n) }
    ensures untaken { OnErr result ((H.outside host.new).input ≡ (H.outside host.old).input) }
    ensures keeps { OnlyExchanges (H.outside host.old) (H.outside host.new) }
    ensures causes { Causes result (H.outside host.old) (H.outside host.new) }
    ensures unkept { result ≢ Err Fault.Disk }
    ensures unstarved { result ≢ Err Fault.Memory }
{
    let Ok(()) = outbox.flush(host) else {
        return Err(Fault::Send);
    };
    if most == 0 {
        return Ok(0);
    }
    let Ok(count) = read_piece(host, buffer, most) else {
        return Err(Fault::Read);
    };
    Ok(count)
}
