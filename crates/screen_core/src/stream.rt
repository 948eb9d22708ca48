//! The lines of a board, of the frames of an input, over a host.

ghost use Rattle.std.specs.Prelude.{◌≡◌, ◌<◌, ◌≤◌, ◌^◌, ◌+◌, ◌++◌, [], ℕ, List, Option, true, IsSome, IfOk, IfSome, OnOk, OnErr, if◌then◌else◌, nat_le, length, take, refl};
ghost use Rattle.host_core.specs.Outside.{Elapses};
ghost use Rattle.wire_core.specs.Frames.{framed};
ghost use Rattle.wire_in.specs.Cutting.{bodies_of, pending};
ghost use Rattle.stream_core.specs.Ends.{IsEnd, end_of};
ghost use Rattle.stream_core.specs.Pending.{SendsPrefix};
ghost use Rattle.stream_core.specs.Taking.{OnlyExchanges};
ghost use Rattle.stream_core.proofs.Pieces.{exchanges_both};
ghost use Rattle.stream_core.proofs.Sending.{sends_longer, sends_whole};
ghost use Rattle.screen_core.specs.Screened.{Screened, IsAnswer, StopsAtDeal, screen_text};
ghost use Rattle.screen_core.specs.InternalScreens.{Given, IsFresh, IsReady, IsReadyFor, Knows, Reads, expects_none, ready_for_fewer, still_none};

use crate::screen::Screen;
use crate::sending::{Pages, send_rows};
use host_core::{Fault, Host, Status};
use price_core::NoMemory;
use std::alloc::Global;
use stream_core::{Answerer, Outbox, PIECE, answer_input, answer_of};
use wire_in::Cutter;

/// A screen on its way, with the frame that is begun, and the room for what is sent at the end.
#[derive(Drop)]
pub struct Screening {
    pub cutter: Cutter,
    pub screen: Screen,
    pub pages: Pages,
}

/// The body of the whole frame that a piece begins with, where none was begun before. It is taken where it lies.
fn whole_frame<'a>(cutter: &Cutter, piece: &'a [u8]) -> Option<&'a [u8]>
    ensures between { IsSome result → pending cutter.now ≡ [] }
    ensures prefix { IfSome result (λ body. framed body.now ≡ take (length body.now + 1) piece.now) }
    ensures within { IfSome result (λ body. length body.now < length piece.now) }
    ensures short { IfSome result (λ body. length body.now ≤ 255) }
{
    if cutter.inside() {
        return None;
    }
    let (len, rest) = piece.split_first()?;
    rest.get(..usize::from(*len))
}

/// How an input ends of which so many bytes were read, of at most so many, inside a frame or between frames.
fn ended(inside: bool, read: u64, most: u64) -> Status
    ensures { result ≡ (if nat_le most read then Status.SessionFull else if inside then Status.Truncated else Status.Done) }
{
    if read >= most {
        Status::SessionFull
    } else if inside {
        Status::Truncated
    } else {
        Status::Done
    }
}

impl Screening {
    /// Nothing was read yet.
    fn new(alloc: Global) -> Result<Screening, NoMemory>
        ensures { IfOk result IsFresh }
    {
        let cutter = Cutter::new();
        let screen = Screen::new(alloc)?;
        let pages = Pages::new(alloc)?;
        Ok(Screening {
            cutter,
            screen,
            pages,
        })
    }

    /// Takes bytes up to the end of a frame or of the piece, and the frame if it is whole. Answers how many bytes it took.
    fn advance(&mut self, piece: &[u8]) -> Result<usize, NoMemory>
        requires ready { IsReadyFor 1 self.old.screen }
        ensures used { IfOk result (λ n. (n ≤ length piece.now) × (0 < length piece.now → 0 < n)) }
        ensures reads { (read : List ℕ) → Reads read self.old → IfOk result (λ n. Reads (read ++ take n piece.now) self.new) }
        ensures ready { (more : ℕ) → IsReadyFor (1 + more) self.old.screen → OnOk result (IsReadyFor more self.new.screen) }
        ensures starved { (read : List ℕ) → Reads read self.old → OnErr result (StopsAtDeal (bodies_of (read ++ piece.now))) }
        ensures pages { self.new.pages ≡ self.old.pages }
    {
        if let Some(body) = whole_frame(&self.cutter, piece) {
            self.screen.take(body)?;
            return Ok(body.len() + 1);
        }
        let cut = self.cutter.take(piece);
        if !cut.whole {
            return Ok(cut.used);
        }
        self.screen.take(self.cutter.body())?;
        Ok(cut.used)
    }

    /// Takes all bytes of a piece.
    fn read(&mut self, piece: &[u8]) -> Result<(), NoMemory>
        requires ready { IsReadyFor (length piece.now) self.old.screen }
        ensures reads { (read : List ℕ) → Reads read self.old → OnOk result (Reads (read ++ piece.now) self.new) }
        ensures ready { (more : ℕ) → IsReadyFor (length piece.now + more) self.old.screen → OnOk result (IsReadyFor more self.new.screen) }
        ensures starved { (read : List ℕ) → Reads read self.old → OnErr result (StopsAtDeal (bodies_of (read ++ piece.now))) }
        ensures pages { self.new.pages ≡ self.old.pages }
    {
        let mut at = 0;
        while at < piece.len() {
            at += self.advance(&piece[at..])?;
        }
        Ok(())
    }
}

impl Answerer for Screening {
    ghost Given = { Given };

    ghost input = { λ given. given.input };

    ghost limit = { λ given. given.most };

    ghost begin = { λ given. given.begin };

    ghost text = { λ _ _. [] };

    ghost whole = { λ given. screen_text given.most given.input };

    ghost end_of = { λ given. end_of given.most given.input };

    ghost may_end = { λ _ status. IsEnd status × IsAnswer status };

    ghost reads = { λ screening given count waiting now. Knows given count waiting screening now };

    ghost holds = { λ _ _ _ _. Unit {0} };

    ghost ready = { λ screening _ more. IsReady more screening };

    ghost goes_on = { λ _. true };

    ghost runs = { λ given _ old _ new. Elapses old new (SendsPrefix given.begin (screen_text given.most given.input) old) };

    ghost leaves = { λ given _ old _ new. Elapses old new (SendsPrefix given.begin (screen_text given.most given.input) old) };

    ghost starved = { λ given now. (now.sent ≡ given.begin) × StopsAtDeal (bodies_of (take given.most given.input)) };

    ghost does = { λ _ old _ new. OnlyExchanges old new };

    ghost fails = { ⊥ };

    ghost starves = { Unit {0} };

    ghost expects = { λ _ _ _ _ _ knows. expects_none knows };

    ghost sent_on = { λ _ _ _ _ _ _ knows _ sent. still_none knows sent };

    ghost held_on = { λ _ _ _ _ _ _ _ _. tt };

    ghost ready_on = { λ _ _ _ _ _ ready. ready };

    ghost ready_for_fewer = { λ screening _ fewer more le ready. ready_for_fewer fewer more screening le ready };

    ghost runs_sending = { λ _ given _ _ _ _ _ run _. sends_longer [] (screen_text given.most given.input) _ refl run };

    ghost runs_on = { λ _ _ _ _ _ _ _ first second. sends_whole first second };

    ghost leaves_on = { λ _ _ _ _ _ _ _ first second. sends_whole first second };

    ghost leaves_so = { λ _ _ _ _ _ run. run };

    ghost does_on = { λ _ _ _ _ _ _ first second. exchanges_both first second };

    ghost does_exchange = { λ _ _ _ keeps. keeps };

    ghost ends_on = { λ _ _ _ _ _ _ end. end };

    fn goes_on(&self) -> bool {
        true
    }

    fn feed<H: Host>(
        &mut self,
        outbox: &mut Outbox,
        host: &mut H,
        piece: &[u8],
    ) -> Result<(), Fault> {
        let _ = outbox;
        let _ = host;
        self.read(piece)?;
        Ok(())
    }

    fn finish<H: Host>(
        &mut self,
        outbox: &mut Outbox,
        host: &mut H,
        read: u64,
        most: u64,
    ) -> Result<Status, Fault> {
        let status = ended(self.cutter.inside(), read, most);
        self.screen.show(&mut self.pages.rows);
        send_rows(outbox, host, &self.pages.rows, &mut self.pages.line)?;
        Ok(status)
    }
}

/// What is needed memory for before the host is called.
#[derive(Drop)]
struct Room {
    screening: Screening,
    outbox: Outbox,
    buffer: Vec<u8>,
}

/// Takes all room.
fn take_room(alloc: Global) -> Result<Room, NoMemory>
    ensures fresh { IfOk result (λ room. IsFresh room.screening) }
    ensures outbox { IfOk result (λ room. room.outbox ≡ []) }
    ensures buffer { IfOk result (λ room. length room.buffer.items ≡ 65536) }
{
    Ok(Room {
        screening: Screening::new(alloc)?,
        outbox: Outbox::new(alloc)?,
        buffer: vec![in alloc; 0; PIECE]?,
    })
}

/// Evaluates the frames of an input over no records, up to its end or up to so many bytes of it, 1 to 1,073,741,824, and then
/// sends a line for each name that was ever listed: its id, what a status board shows last of its state, and its price bands.
/// Frames that are refused leave no trace. The disk is not touched. Nothing is sent before the end. `NoMemory` comes at the
/// start, or at a trade whose stock has no room, and then nothing was sent.
pub fn board_stream<H: Host>(alloc: Global, host: &mut H, bytes: u64) -> Status
    requires some { 1 ≤ bytes }
    requires most { bytes ≤ 2 ^ 30 }
    ensures screened { Screened (host.new ≡ host.old) bytes result (H.outside host.old) (H.outside host.new) }
{
    let Ok(mut room) = take_room(alloc) else {
        return Status::NoMemory;
    };
    answer_of(answer_input(
        &mut room.screening,
        &mut room.outbox,
        host,
        &mut room.buffer,
        bytes,
    ))
}
