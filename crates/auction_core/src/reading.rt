//! The lines of an input, cut as they are read.

ghost use Rattle.std.specs.Prelude.{◌≡◌, ◌++◌, ◌∷◌, ◌<◌, ◌≤◌, [], ℕ, List, false, not, IfOk, OnOk, length, take};
ghost use Rattle.host_core.specs.Outside.{Elapses};
ghost use Rattle.stream_core.specs.Pending.{SendsPrefix};
ghost use Rattle.stream_core.specs.Taking.{OnlyExchanges};
ghost use Rattle.stream_core.proofs.Pieces.{exchanges_both};
ghost use Rattle.stream_core.proofs.Sending.{sends_whole};
ghost use Rattle.text_core.specs.InternalStreams.{IsOneLine};
ghost use Rattle.text_core.specs.declared.task.Task.TheVariants as tasks;
ghost use Rattle.text_core.specs.Streams.{units_of};
ghost use Rattle.auction_core.specs.Crossed.{IsEnd};
ghost use Rattle.auction_core.specs.Texts.{lines_of};
ghost use Rattle.auction_core.specs.InternalReading.{Given, Holds, Knows, Reads, end_so_far, expects_none, still_none};

use crate::listing::Listing;
use host_core::{Fault, Host, Status};
use price_core::NoMemory;
use std::alloc::Global;
use stream_core::{Answerer, Outbox};
use text_core::{Line, line_len};

/// The lines that were taken, and the first 256 bytes of the line that is begun, since no longer line is good.
#[derive(Drop)]
pub struct Reading {
    pub line: Line,
    pub listing: Listing,
}

impl Reading {
    /// Nothing was read yet.
    pub fn new(alloc: Global) -> Reading
        ensures reads { Reads [] result }
        ensures going { result.listing.bad ≡ false }
    {
        Reading {
            line: Line::new(),
            listing: Listing {
                auction: None,
                orders: Vec::new(alloc),
                bad: false,
            },
        }
    }

    /// Takes the line that a newline ends, whose last bytes are these.
    fn end_line(&mut self, last: &[u8]) -> Result<(), NoMemory>
        requires going { self.old.listing.bad ≡ false }
        requires line { IsOneLine last.now }
        ensures reads { (read : List ℕ) → Reads read self.old → OnOk result (Reads (read ++ last.now ++ 10 ∷ []) self.new) }
    {
        if self.line.is_empty() {
            return self.listing.take(last);
        }
        self.line.keep(last);
        self.listing.take(self.line.as_slice())?;
        self.line.clear();
        Ok(())
    }

    /// Takes bytes up to the end of a line or of the piece, and the line if it is whole. Answers how many bytes it took.
    fn advance(&mut self, piece: &[u8]) -> Result<usize, NoMemory>
        requires going { self.old.listing.bad ≡ false }
        ensures used { IfOk result (λ n. (n ≤ length piece.now) × (0 < length piece.now → 0 < n)) }
        ensures reads { (read : List ℕ) → Reads read self.old → IfOk result (λ n. Reads (read ++ take n piece.now) self.new) }
    {
        let Some(len) = line_len(piece) else {
            self.line.keep(piece);
            return Ok(piece.len());
        };
        self.end_line(&piece[..len])?;
        Ok(len + 1)
    }

    /// Takes all bytes of a piece, or those up to the end of the first bad line.
    fn read(&mut self, piece: &[u8]) -> Result<(), NoMemory>
        ensures reads { (read : List ℕ) → Reads read self.old → OnOk result (Reads (read ++ piece.now) self.new) }
    {
        let mut at = 0;
        while at < piece.len() && !self.listing.bad {
            at += self.advance(&piece[at..])?;
        }
        Ok(())
    }

    /// Takes the last line of an input, which has no newline, if there is one.
    pub fn close(&mut self) -> Result<(), NoMemory>
        ensures holds { (read : List ℕ) → Reads read self.old → OnOk result (Holds (lines_of read) self.new.listing) }
    {
        if self.listing.bad {
            return Ok(());
        }
        if self.line.is_empty() {
            return Ok(());
        }
        self.listing.take(self.line.as_slice())
    }
}

impl Answerer for Reading {
    ghost Given = { Given };

    ghost input = { λ given. given.input };

    ghost limit = { λ given. given.most };

    ghost begin = { λ given. given.begin };

    ghost text = { λ _ _. [] };

    ghost whole = { λ _. [] };

    ghost end_of = { λ given. end_so_far (units_of tasks.Pack (take given.most given.input)) };

    ghost may_end = { λ _ status. IsEnd status };

    ghost reads = { λ reading given count waiting now. Knows given count waiting reading now };

    ghost holds = { λ reading given count _. Reads (take count given.input) reading };

    ghost ready = { λ _ _ _. Unit {0} };

    ghost goes_on = { λ reading. not reading.listing.bad };

    ghost runs = { λ given _ old _ new. Elapses old new (SendsPrefix given.begin [] old) };

    ghost leaves = { λ given _ old _ new. Elapses old new (SendsPrefix given.begin [] old) };

    ghost starved = { λ given now. now.sent ≡ given.begin };

    ghost does = { λ _ old _ new. OnlyExchanges old new };

    ghost fails = { ⊥ };

    ghost starves = { Unit {0} };

    ghost expects = { λ _ _ _ _ _ knows. expects_none knows };

    ghost sent_on = { λ _ _ _ _ _ _ knows _ sent. still_none knows sent };

    ghost held_on = { λ _ _ _ _ _ _ knows _. knows.reads };

    ghost ready_on = { λ _ _ _ _ _ ready. ready };

    ghost ready_for_fewer = { λ _ _ _ _ _ ready. ready };

    ghost runs_sending = { λ _ _ _ _ _ _ _ run _. run };

    ghost runs_on = { λ _ _ _ _ _ _ _ first second. sends_whole first second };

    ghost leaves_on = { λ _ _ _ _ _ _ _ first second. sends_whole first second };

    ghost leaves_so = { λ _ _ _ _ _ run. run };

    ghost does_on = { λ _ _ _ _ _ _ first second. exchanges_both first second };

    ghost does_exchange = { λ _ _ _ keeps. keeps };

    ghost ends_on = { λ _ _ _ _ _ _ end. end };

    fn goes_on(&self) -> bool {
        !self.listing.bad
    }

    fn feed<H: Host>(
        &mut self,
        outbox: &mut Outbox,
        host: &mut H,
        piece: &[u8],
    ) -> Result<(), Fault> {
        let _ = outbox;
        let _ = host;
        self.read(piece)?;
        Ok(())
    }

    fn finish<H: Host>(
        &mut self,
        outbox: &mut Outbox,
        host: &mut H,
        read: u64,
        most: u64,
    ) -> Result<Status, Fault> {
        let _ = outbox;
        let _ = host;
        let _ = read;
        let _ = most;
        Ok(self.listing.status())
    }
}
