//! The cross of the auction of an input, over a host.

ghost use Rattle.std.specs.Prelude.{◌≡◌, ◌≤◌, [], ℕ, List, Some, Err, false, IfOk, OnOk, length};
ghost use Rattle.std.specs.Io.KnownBytes.{append_known};
ghost use Rattle.host_core.specs.Outside.{Elapses};
ghost use Rattle.stream_core.specs.Outcomes.{SentOrStarved};
ghost use Rattle.stream_core.specs.Pending.{SendsPrefix};
ghost use Rattle.stream_core.proofs.Streamed.{Ran};
ghost use Rattle.auction_core.specs.Texts.{IsTextFor, IsTextOf, end_of, end_of_lines, lines_of};
ghost use Rattle.auction_core.specs.Crossed.{HasCrossed, IsAnswer, IsEnd, SendsAtEnd, bytes_max};
ghost use Rattle.auction_core.specs.InternalReading.{Began, Holds, Reads};

use crate::auction::Auction;
use crate::listing::Listing;
use crate::reading::Reading;
use crate::sending::send_cross;
use cross_core::{Order, cross, fills};
use host_core::{Fault, Host, Status};
use price_core::NoMemory;
use std::alloc::Global;
use stream_core::{Outbox, PIECE, answer_input, answer_of};

/// The most bytes that are read: those of 1,000,001 lines of 255 bytes with their newlines, and one more.
const BYTES_MAX: u64 = 256_000_257;

/// Crosses the orders of an auction, and sends the lines of the cross.
fn cross_orders<H: Host>(
    alloc: Global,
    host: &mut H,
    auction: &Auction,
    orders: &[Order],
) -> Result<(), Fault>
    requires few { length orders.now ≤ 1000000 }
    requires order { auction.now.collars.lower ≤ auction.now.collars.upper }
    ensures sent { (text : List ℕ) → IsTextFor auction.now orders.now text → OnOk result ((H.outside host.new).sent ≡ append_known (H.outside host.old).sent text) }
    ensures moments { (text : List ℕ) → IsTextFor auction.now orders.now text
        → Elapses (H.outside host.old) (H.outside host.new) (SendsPrefix (H.outside host.old).sent text (H.outside host.old)) }
    ensures unsent { result ≡ Err Fault.Memory → (H.outside host.new).sent ≡ (H.outside host.old).sent }
    ensures outside { SentOrStarved result (H.outside host.old) (H.outside host.new) }
{
    let crossed = cross(alloc, orders, auction.reference, &auction.collars)?;
    let fills = fills(alloc, orders, &crossed)?;
    let mut outbox = Outbox::new(alloc)?;
    send_cross(&mut outbox, host, auction, &crossed, &fills)
}

/// Ends the input whose lines these are: sends the lines of the cross, or nothing where a line is bad.
fn finish<H: Host>(alloc: Global, host: &mut H, listing: &Listing) -> Result<Status, Fault>
    ensures status { (lines : List (List ℕ)) → Holds lines listing.now → IfOk result (λ status. status ≡ end_of_lines lines) }
    ensures sent { (lines : List (List ℕ)) (text : List ℕ) → Holds lines listing.now → IsTextOf lines text
        → OnOk result ((H.outside host.new).sent ≡ append_known (H.outside host.old).sent text) }
    ensures moments { (lines : List (List ℕ)) (text : List ℕ) → Holds lines listing.now → IsTextOf lines text
        → Elapses (H.outside host.old) (H.outside host.new) (SendsPrefix (H.outside host.old).sent text (H.outside host.old)) }
    ensures unsent { result ≡ Err Fault.Memory → (H.outside host.new).sent ≡ (H.outside host.old).sent }
    ensures end { IfOk result (λ status. IsEnd status × IsAnswer status) }
    ensures outside { SentOrStarved result (H.outside host.old) (H.outside host.new) }
{
    let Some(auction) = &listing.auction else {
        return Ok(Status::BadText { line: 1 });
    };
    if listing.bad {
        return Ok(listing.status());
    }
    cross_orders(alloc, host, auction, &listing.orders)?;
    Ok(Status::Done)
}

/// Ends an input of which these bytes were read.
fn end_input<H: Host>(alloc: Global, host: &mut H, reading: &mut Reading) -> Result<Status, Fault>
    ensures status { (read : List ℕ) → Reads read reading.old → IfOk result (λ status. status ≡ end_of read) }
    ensures sent { (read text : List ℕ) → Reads read reading.old → IsTextOf (lines_of read) text
        → OnOk result ((H.outside host.new).sent ≡ append_known (H.outside host.old).sent text) }
    ensures moments { (read text : List ℕ) → Reads read reading.old → IsTextOf (lines_of read) text
        → Elapses (H.outside host.old) (H.outside host.new) (SendsPrefix (H.outside host.old).sent text (H.outside host.old)) }
    ensures unsent { result ≡ Err Fault.Memory → (H.outside host.new).sent ≡ (H.outside host.old).sent }
    ensures end { IfOk result (λ status. IsEnd status × IsAnswer status) }
    ensures outside { SentOrStarved result (H.outside host.old) (H.outside host.new) }
{
    reading.close()?;
    finish(alloc, host, &reading.listing)
}

/// What is needed before the host is called.
#[derive(Drop)]
struct Room {
    reading: Reading,
    outbox: Outbox,
    buffer: Vec<u8>,
}

/// Takes the room.
fn take_room(alloc: Global) -> Result<Room, NoMemory>
    ensures reading { IfOk result (λ room. Reads [] room.reading) }
    ensures going { IfOk result (λ room. room.reading.listing.bad ≡ false) }
    ensures outbox { IfOk result (λ room. room.outbox ≡ []) }
    ensures buffer { IfOk result (λ room. length room.buffer.items ≡ 65536) }
{
    Ok(Room {
        reading: Reading::new(alloc),
        outbox: Outbox::new(alloc)?,
        buffer: vec![in alloc; 0; PIECE]?,
    })
}

/// Reads the lines of the input that newlines end, up to the first bad one.
fn read_lines<H: Host>(host: &mut H, room: &mut Room) -> Result<Status, Fault>
    requires reading { Reads [] room.old.reading }
    requires going { room.old.reading.listing.bad ≡ false }
    requires outbox { room.old.outbox ≡ [] }
    requires buffer { length room.old.buffer.items ≡ 65536 }
    ensures began { Began result room.new.reading (H.outside host.old) (H.outside host.new) }
{
    answer_input(
        &mut room.reading,
        &mut room.outbox,
        host,
        &mut room.buffer,
        BYTES_MAX,
    )
}

/// Reads the input and answers it.
fn cross_input<H: Host>(alloc: Global, host: &mut H, room: &mut Room) -> Result<Status, Fault>
    requires reading { Reads [] room.old.reading }
    requires going { room.old.reading.listing.bad ≡ false }
    requires outbox { room.old.outbox ≡ [] }
    requires buffer { length room.old.buffer.items ≡ 65536 }
    ensures ran { (whole : List ℕ → List ℕ) → ((input : List ℕ) → IsTextOf (lines_of input) (whole input))
        → Ran (λ read. []) whole end_of IsEnd IsAnswer bytes_max result (H.outside host.old) (H.outside host.new) }
    ensures unsent { result ≡ Err Fault.Memory → (input : List ℕ) → (H.outside host.old).input ≡ Some input → (H.outside host.new).sent ≡ (H.outside host.old).sent }
{
    let status = read_lines(host, room)?;
    match status {
        Status::Done => end_input(alloc, host, &mut room.reading),
        bad => Ok(bad),
    }
}

/// Reads the line `auction <time> <symbol> <reference> <lower> <upper>` and at most 1,000,000 lines `order <buy or sell> <price or ->
/// <size>`, and sends the cross of these orders at the end of the input: its indication, its volume and imbalance, its rows, and
/// what each order gets. It answers `BadText` at the first line that is none of these, counted from 1, and at line 1 where there is
/// no line; then, and where a read failed or memory ran out, nothing was sent. No more than 256,000,257 bytes are read: so many
/// hold a bad line. The disk is not touched.
pub fn cross_stream<H: Host>(alloc: Global, host: &mut H) -> Status
    ensures crossed { HasCrossed result (H.outside host.old) (H.outside host.new) }
    ensures unsent { SendsAtEnd result (H.outside host.old) (H.outside host.new) }
{
    let Ok(mut room) = take_room(alloc) else {
        return Status::NoMemory;
    };
    answer_of(cross_input(alloc, host, &mut room))
}
