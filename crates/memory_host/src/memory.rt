//! A host in memory. It keeps the effects of its calls, from which what a stop may leave follows.

ghost use Rattle.std.specs.Prelude.{◌≡◌, ◌≤◌, [], length, All};
ghost use Rattle.memory_host.specs.Effects.{disk_of, sent_of};
ghost use Rattle.memory_host.specs.Requests.{IsBehind};

use crate::call::{Call, Numbered, Pieces};
use crate::effect::{Effect, Pick, Request};
use crate::keep::{requested, sent_on, synced, tore_at, wrote_at};
use crate::ledger::Ledger;
use crate::replay::replayed;
use host_core::{Failed, Host};
use price_core::NoMemory;
use std::alloc::Global;

/// An input, a sink and a disk in memory, for tests. It exposes everything. Its calls fail where they were asked to,
/// and where memory runs out.
#[derive(Debug, Drop)]
pub struct MemoryHost {
    alloc: Global,
    input: Vec<u8>,
    taken: usize,
    sent: Vec<u8>,
    disk: Vec<u8>,
    start: Vec<u8>,
    effects: Vec<Effect>,
    requests: Vec<Request>,
    ledger: Ledger,
    ghost within: { taken ≤ length input.items },
    ghost sent_is: { sent.items ≡ sent_of [] effects.items },
    ghost disk_is: { disk.items ≡ disk_of start.items effects.items },
    ghost behind: { All (IsBehind sent.items) requests.items },
}

impl MemoryHost {
    ghost use Rattle.std.specs.Prelude.{◌≡◌, ◌<◌, ◌∷◌, ◌++◌, ℕ, List, Some, IfOk, OnOk, OnErr};
    ghost use Rattle.host_core.specs.Outside.{MayLeave, Starts, ExposesTheSame};
    ghost use Rattle.memory_host.specs.Ledgers.{IsFresh, earliest};
    ghost use Rattle.memory_host.specs.Memory.{known, ledger_of, left_by};

    /// A host with this input and this disk, of which all is kept. Nothing was sent, and no call fails yet.
    pub fn new(alloc: Global, input: &[u8], disk: &[u8]) -> Result<MemoryHost, NoMemory>
        ensures starts { IfOk result (λ host. Starts input.now disk.now (known host)) }
        ensures unread { IfOk result (λ host. (known host).asks ≡ Some []) }
        ensures fresh { IfOk result (λ host. IsFresh (ledger_of host)) }
    {
        Ok(MemoryHost {
            alloc,
            input: Vec::from_slice(alloc, input)?,
            taken: 0,
            sent: Vec::new(alloc),
            disk: Vec::from_slice(alloc, disk)?,
            start: Vec::from_slice(alloc, disk)?,
            effects: Vec::new(alloc),
            requests: Vec::new(alloc),
            ledger: Ledger::new(alloc),
        })
    }

    /// Asks that the nth call of a kind fails, counted from 1 over all calls of that kind. May be asked for several.
    pub fn fail(&mut self, call: Call, nth: u64) -> Result<(), NoMemory>
        requires { 0 < nth }
        ensures asked { OnOk result ((ledger_of self.new).failures.items ≡ (ledger_of self.old).failures.items ++ record { call = call; number = nth } ∷ []) }
        ensures refused { OnErr result ((ledger_of self.new).failures.items ≡ (ledger_of self.old).failures.items) }
        ensures rest { ledger_of self.new ≡ record (ledger_of self.old) { failures = (ledger_of self.new).failures } }
        ensures exposes { ExposesTheSame (known self.old) (known self.new) }
        ensures asks { (known self.new).asks ≡ (known self.old).asks }
        ensures starts { (input disk : List ℕ) → Starts input disk (known self.old) → Starts input disk (known self.new) }
    {
        self.ledger.failures.push(Numbered { call, number: nth })?;
        Ok(())
    }

    /// Sets the most bytes of one read and of one send.
    pub fn pieces(&mut self, read: u32, send: u32)
        requires read { 0 < read }
        requires send { 0 < send }
        ensures read { (ledger_of self.new).pieces.read ≡ read }
        ensures send { (ledger_of self.new).pieces.send ≡ send }
        ensures rest { ledger_of self.new ≡ record (ledger_of self.old) { pieces = (ledger_of self.new).pieces } }
        ensures exposes { ExposesTheSame (known self.old) (known self.new) }
        ensures asks { (known self.new).asks ≡ (known self.old).asks }
        ensures starts { (input disk : List ℕ) → Starts input disk (known self.old) → Starts input disk (known self.new) }
    {
        self.ledger.pieces = Pieces {
            read: read as usize,
            send: send as usize,
        };
    }

    /// Asks that every call fails from the nth of any kind on, counted from 1. The earliest that was asked counts.
    pub fn stop_at(&mut self, nth: u64)
        requires { 0 < nth }
        ensures asked { ledger_of self.new ≡ record (ledger_of self.old) { fails_from = Some (earliest (ledger_of self.old).fails_from nth) } }
        ensures exposes { ExposesTheSame (known self.old) (known self.new) }
        ensures asks { (known self.new).asks ≡ (known self.old).asks }
        ensures starts { (input disk : List ℕ) → Starts input disk (known self.old) → Starts input disk (known self.new) }
    {
        let first = match self.ledger.fails_from {
            Some(earlier) => earlier.min(nth),
            None => nth,
        };
        self.ledger.fails_from = Some(first);
    }

    /// The bytes that were sent.
    pub fn sent(&self) -> &[u8]
        ensures { (known self.now).sent ≡ Some result.now }
    {
        &self.sent
    }

    /// What a read of the disk gives.
    pub fn disk(&self) -> &[u8]
        ensures { (known self.now).disk ≡ Some result.now }
    {
        &self.disk
    }

    /// How many calls of `Host` were made, up to the greatest of 64 bits.
    pub fn calls(&self) -> u64
        ensures { result ≡ (ledger_of self.now).calls.all }
    {
        self.ledger.calls.all
    }

    /// How many of the calls found no memory, up to the greatest of 64 bits.
    pub fn starved(&self) -> u64
        ensures { result ≡ (ledger_of self.now).starved }
    {
        self.ledger.starved
    }

    /// A host with a disk that a stop now may leave, and a new input. No call of it fails yet.
    pub fn crash(&self, pick: Pick, input: &[u8]) -> Result<MemoryHost, NoMemory>
        ensures left { MayLeave (known self.now) (left_by pick self.now) }
        ensures starts { IfOk result (λ host. Starts input.now (left_by pick self.now) (known host)) }
        ensures unread { IfOk result (λ host. (known host).asks ≡ Some []) }
        ensures fresh { IfOk result (λ host. IsFresh (ledger_of host)) }
    {
        let image = replayed(self.alloc, &self.start, &self.effects, pick)?;
        MemoryHost::new(self.alloc, input, &image)
    }
}

impl Host for MemoryHost {
    ghost use Rattle.std.specs.Prelude.{◌≡◌, ◌<◌, ◌≤◌, ◌+◌, ◌^◌, ℕ, List, length, min, Some, MatchResult, IfOk, OnErr};
    ghost use Rattle.host_core.specs.HostCalls.{ReadsInput, SendsPiece, MeasuresDisk, ReadsDisk, WritesDisk, SyncsDisk};
    ghost use Rattle.memory_host.specs.Effects.{remembered_sent, remembered_read, remembered_now};
    ghost use Rattle.memory_host.specs.Ledgers.{IsSpared, IsRefused};
    ghost use Rattle.memory_host.specs.Memory.{known, ledger_of, input_left, asks_of};

    ghost outside = { known };

    ghost sent_now = { λ host. remembered_sent host.sent.items host.start.items host.effects.items host.sent_is };

    ghost read_passes = { λ host. remembered_read (input_left host) host.sent.items host.disk.items host.start.items host.effects.items
        (asks_of host) host.ledger.faults.reading host.ledger.faults.sending host.ledger.faults.storing host.disk_is };

    ghost stops_now = { λ host sent is. remembered_now (input_left host) host.sent.items host.disk.items host.start.items host.effects.items
        (asks_of host) host.ledger.faults.reading host.ledger.faults.sending host.ledger.faults.storing host.disk_is };

    fn read_input(&mut self, into: &mut [u8]) -> Result<usize, Failed>
        requires { 0 < length into.old }
        ensures reads { ReadsInput result into.new (known self.old) (known self.new) }
        ensures count { IfOk result (λ n. n ≡ min (min (length (input_left self.old)) (length into.old)) (ledger_of self.old).pieces.read) }
        ensures ledger { MatchResult result
            (λ _. IsSpared Call.Read (ledger_of self.old) (ledger_of self.new))
            (λ _. IsRefused Call.Read (ledger_of self.old) (ledger_of self.new)) }
    {
        if self.ledger.begin(Call::Read) {
            return self.ledger.fail(Call::Read);
        }
        match requested(&mut self.requests, self.taken, self.sent.len()) {
            Ok(()) => {
                let rest = &self.input[self.taken..];
                let count = rest.len().min(into.len()).min(self.ledger.pieces.read);
                into[..count].copy_from_slice(&rest[..count]);
                self.taken += count;
                Ok(count)
            }
            Err(NoMemory) => self.ledger.starve(Call::Read),
        }
    }

    fn send(&mut self, piece: &[u8]) -> Result<usize, Failed>
        requires { 0 < length piece.now }
        ensures sends { SendsPiece result piece.now (known self.old) (known self.new) }
        ensures count { IfOk result (λ n. n ≡ min (length piece.now) (ledger_of self.old).pieces.send) }
        ensures unsent { OnErr result ((known self.new).sent ≡ (known self.old).sent) }
        ensures ledger { MatchResult result
            (λ _. IsSpared Call.Send (ledger_of self.old) (ledger_of self.new))
            (λ _. IsRefused Call.Send (ledger_of self.old) (ledger_of self.new)) }
    {
        if self.ledger.begin(Call::Send) {
            return self.ledger.fail(Call::Send);
        }
        let count = piece.len().min(self.ledger.pieces.send);
        match sent_on(
            self.alloc,
            &mut self.effects,
            &mut self.sent,
            &piece[..count],
        ) {
            Ok(()) => Ok(count),
            Err(NoMemory) => self.ledger.starve(Call::Send),
        }
    }

    fn disk_len(&mut self) -> Result<u64, Failed>
        ensures measures { MeasuresDisk result (known self.old) (known self.new) }
        ensures ledger { MatchResult result
            (λ _. IsSpared Call.Len (ledger_of self.old) (ledger_of self.new))
            (λ _. IsRefused Call.Len (ledger_of self.old) (ledger_of self.new)) }
    {
        if self.ledger.begin(Call::Len) {
            return self.ledger.fail(Call::Len);
        }
        Ok(self.disk.len() as u64)
    }

    fn disk_read(&mut self, at: u64, into: &mut [u8]) -> Result<(), Failed>
        requires within { (disk : List ℕ) → (known self.old).disk ≡ Some disk → at + length into.old ≤ length disk }
        requires fits { at + length into.old < 2 ^ 64 }
        ensures reads { ReadsDisk result at (length into.old) into.new (known self.old) (known self.new) }
        ensures ledger { MatchResult result
            (λ _. IsSpared Call.DiskRead (ledger_of self.old) (ledger_of self.new))
            (λ _. IsRefused Call.DiskRead (ledger_of self.old) (ledger_of self.new)) }
    {
        if self.ledger.begin(Call::DiskRead) {
            return self.ledger.fail(Call::DiskRead);
        }
        let at = at as usize;
        into.copy_from_slice(&self.disk[at..at + into.len()]);
        Ok(())
    }

    fn disk_write(&mut self, at: u64, piece: &[u8]) -> Result<(), Failed>
        requires within { (disk : List ℕ) → (known self.old).disk ≡ Some disk → at ≤ length disk }
        requires fits { at + length piece.now < 2 ^ 64 }
        ensures writes { WritesDisk result at piece.now (known self.old) (known self.new) }
        ensures unwritten { OnErr result ((known self.new).disk ≡ (known self.old).disk) }
        ensures ledger { MatchResult result
            (λ _. IsSpared Call.Write (ledger_of self.old) (ledger_of self.new))
            (λ _. IsRefused Call.Write (ledger_of self.old) (ledger_of self.new)) }
    {
        if self.ledger.begin(Call::Write) {
            return match tore_at(self.alloc, &mut self.effects, at, piece) {
                Ok(()) => self.ledger.fail(Call::Write),
                Err(NoMemory) => self.ledger.starve(Call::Write),
            };
        }
        match wrote_at(self.alloc, &mut self.effects, &mut self.disk, at, piece) {
            Ok(()) => Ok(()),
            Err(NoMemory) => self.ledger.starve(Call::Write),
        }
    }

    fn disk_sync(&mut self) -> Result<(), Failed>
        ensures syncs { SyncsDisk result (known self.old) (known self.new) }
        ensures ledger { MatchResult result
            (λ _. IsSpared Call.Sync (ledger_of self.old) (ledger_of self.new))
            (λ _. IsRefused Call.Sync (ledger_of self.old) (ledger_of self.new)) }
    {
        if self.ledger.begin(Call::Sync) {
            return self.ledger.fail(Call::Sync);
        }
        match synced(&mut self.effects) {
            Ok(()) => Ok(()),
            Err(NoMemory) => self.ledger.starve(Call::Sync),
        }
    }
}
