//! Bytes that wait to be sent together.

ghost use Rattle.std.specs.Prelude.{◌≡◌, ◌+◌, ◌≤◌, ◌++◌, [], ℕ, List, Option, length, take, OnOk, OnErr, IfOk, IsOk};
ghost use Rattle.std.specs.Io.KnownBytes.{append_known};
ghost use Rattle.host_core.specs.Outside.{Elapses};
ghost use Rattle.wire_out.specs.Spelling.{spelling};
ghost use Rattle.wire_out.specs.declared.message.Frame.TheVariants as frames;
ghost use Rattle.stream_core.specs.Outcomes.{Sent};
ghost use Rattle.stream_core.specs.Pending.{Expects, SendsPrefix};

use host_core::{Fault, Host, send_all};
use price_core::NoMemory;
use std::alloc::Global;
use std::marker::Model;
use wire_out::{Frame, Stamped, put_frame, put_numbered};

/// How many bytes may wait.
const CAPACITY: usize = 65_536;

/// The most bytes that are appended at once.
const SHORT: usize = 256;

/// The bytes of frames and lines that wait to be sent in one piece. How many there are is a number of its own, so that a
/// frame is written where it is sent from.
#[derive(Drop)]
pub struct Outbox {
    room: Vec<u8>,
    count: usize,
}

impl Model for Outbox {
    ghost use Rattle.std.specs.Prelude.{◌≡◌, ◌≤◌, ℕ, List, length, take};

    ghost Value = { List ℕ };

    ghost view = { λ outbox. take outbox.count outbox.room.items };

    ghost invariant = { λ outbox. (length outbox.room.items ≡ 65536) × (outbox.count ≤ 65536) };
}

/// Writes a frame at the begin of the room, and answers how many bytes it has.
fn put_first(room: &mut [u8], frame: &Frame) -> usize
    requires { 64 ≤ length room.old }
    ensures fits { result ≤ 64 }
    ensures bytes { take result room.new ≡ spelling frame.now }
{
    let Some(cell) = room.first_chunk_mut() else {
        unreachable!()
    };
    put_frame(frame, cell)
}

/// As put_first, of a numbered message.
fn put_first_numbered(room: &mut [u8], number: u64, stamped: &Stamped) -> usize
    requires { 64 ≤ length room.old }
    ensures fits { result ≤ 64 }
    ensures bytes { take result room.new ≡ spelling (frames.Numbered number stamped.now) }
{
    let Some(cell) = room.first_chunk_mut() else {
        unreachable!()
    };
    put_numbered(number, stamped, cell)
}

impl Outbox {
    /// Nothing waits.
    pub fn new(alloc: Global) -> Result<Outbox, NoMemory>
        ensures { IfOk result (λ outbox. outbox ≡ []) }
    {
        Ok(Outbox {
            room: Vec::from_elem(alloc, 0, CAPACITY)?,
            count: 0,
        })
    }

    /// Sends all that waits, and makes no call of the host where nothing does. After an error the outbox is of no further use.
    pub fn flush<H: Host>(&mut self, host: &mut H) -> Result<(), Fault>
        ensures sent { (begin : Option (List ℕ)) (text : List ℕ) → Expects begin (H.outside host.old).sent self.old text
            → OnOk result ((H.outside host.new).sent ≡ append_known begin text) }
        ensures empty { OnOk result (self.new ≡ []) }
        ensures idle { self.old ≡ [] → (IsOk result) × (host.new ≡ host.old) }
        ensures moments { (begin : Option (List ℕ)) (text : List ℕ) → Expects begin (H.outside host.old).sent self.old text
            → Elapses (H.outside host.old) (H.outside host.new) (SendsPrefix begin text (H.outside host.old)) }
        ensures outside { Sent result (H.outside host.old) (H.outside host.new) }
    {
        if self.count == 0 {
            return Ok(());
        }
        send_all(host, &self.room[..self.count]).map_err(|_| Fault::Send)?;
        self.count = 0;
        Ok(())
    }

    /// Sends what waits where there may be no room for what is appended next.
    fn make_room<H: Host>(&mut self, host: &mut H) -> Result<(), Fault>
        ensures pending { (begin : Option (List ℕ)) (text : List ℕ) → Expects begin (H.outside host.old).sent self.old text
            → OnOk result (Expects begin (H.outside host.new).sent self.new text) }
        ensures room { OnOk result (length self.new + 256 ≤ 65536) }
        ensures moments { (begin : Option (List ℕ)) (text : List ℕ) → Expects begin (H.outside host.old).sent self.old text
            → Elapses (H.outside host.old) (H.outside host.new) (SendsPrefix begin text (H.outside host.old)) }
        ensures outside { Sent result (H.outside host.old) (H.outside host.new) }
    {
        if self.count + SHORT <= CAPACITY {
            return Ok(());
        }
        self.flush(host)
    }

    /// Writes bytes behind those that wait.
    fn write(&mut self, piece: &[u8])
        requires { length self.old + length piece.now ≤ 65536 }
        ensures { self.new ≡ self.old ++ piece.now }
    {
        let end = self.count + piece.len();
        self.room[self.count..end].copy_from_slice(piece);
        self.count = end;
    }

    /// Writes a frame behind the bytes that wait.
    fn write_frame(&mut self, frame: &Frame)
        requires { length self.old + 64 ≤ 65536 }
        ensures { self.new ≡ self.old ++ spelling frame.now }
    {
        self.count += put_first(&mut self.room[self.count..], frame);
    }

    /// Writes a numbered message behind the bytes that wait.
    fn write_numbered(&mut self, number: u64, stamped: &Stamped)
        requires { length self.old + 64 ≤ 65536 }
        ensures { self.new ≡ self.old ++ spelling (frames.Numbered number stamped.now) }
    {
        self.count += put_first_numbered(&mut self.room[self.count..], number, stamped);
    }

    /// Appends at most 256 bytes to those that wait, and sends these first where there is no room. After an error the
    /// outbox is of no further use.
    pub fn append_bytes<H: Host>(&mut self, host: &mut H, piece: &[u8]) -> Result<(), Fault>
        requires short { length piece.now ≤ 256 }
        ensures pending { (begin : Option (List ℕ)) (text : List ℕ) → Expects begin (H.outside host.old).sent self.old text
            → OnOk result (Expects begin (H.outside host.new).sent self.new (text ++ piece.now)) }
        ensures moments { (begin : Option (List ℕ)) (text : List ℕ) → Expects begin (H.outside host.old).sent self.old text
            → Elapses (H.outside host.old) (H.outside host.new) (SendsPrefix begin text (H.outside host.old)) }
        ensures outside { Sent result (H.outside host.old) (H.outside host.new) }
    {
        self.make_room(host)?;
        self.write(piece);
        Ok(())
    }

    /// Appends a frame to the bytes that wait, and sends these first where there is no room. After an error the outbox is
    /// of no further use.
    pub fn append<H: Host>(&mut self, host: &mut H, frame: &Frame) -> Result<(), Fault>
        ensures pending { (begin : Option (List ℕ)) (text : List ℕ) → Expects begin (H.outside host.old).sent self.old text
            → OnOk result (Expects begin (H.outside host.new).sent self.new (text ++ spelling frame.now)) }
        ensures moments { (begin : Option (List ℕ)) (text : List ℕ) → Expects begin (H.outside host.old).sent self.old text
            → Elapses (H.outside host.old) (H.outside host.new) (SendsPrefix begin text (H.outside host.old)) }
        ensures outside { Sent result (H.outside host.old) (H.outside host.new) }
    {
        self.make_room(host)?;
        self.write_frame(frame);
        Ok(())
    }

    /// Appends the frame of a numbered message, as append does that of any frame.
    pub fn append_numbered<H: Host>(
        &mut self,
        host: &mut H,
        number: u64,
        stamped: &Stamped,
    ) -> Result<(), Fault>
        ensures pending { (begin : Option (List ℕ)) (text : List ℕ) → Expects begin (H.outside host.old).sent self.old text
            → OnOk result (Expects begin (H.outside host.new).sent self.new (text ++ spelling (frames.Numbered number stamped.now))) }
        ensures moments { (begin : Option (List ℕ)) (text : List ℕ) → Expects begin (H.outside host.old).sent self.old text
            → Elapses (H.outside host.old) (H.outside host.new) (SendsPrefix begin text (H.outside host.old)) }
        ensures outside { Sent result (H.outside host.old) (H.outside host.new) }
    {
        self.make_room(host)?;
        self.write_numbered(number, stamped);
        Ok(())
    }
}
