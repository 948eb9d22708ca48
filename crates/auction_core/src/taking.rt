//! The auction and its orders, line by line.

ghost use Rattle.std.specs.Prelude.{◌≡◌, ◌≤◌, ◌++◌, ◌∷◌, [], ℕ, List, None, false, true, is_some, OnOk};
ghost use Rattle.auction_core.specs.Crossed.{IsEnd};
ghost use Rattle.auction_core.specs.Texts.{good_lines};
ghost use Rattle.auction_core.specs.InternalReading.{Holds, end_so_far};

use crate::line_reading::{read_auction, read_order};
use crate::listing::Listing;
use host_core::Status;
use price_core::NoMemory;

/// The most orders of an auction.
const ORDERS: usize = 1_000_000;

impl Listing {
    /// Takes the first line.
    fn begin(&mut self, line: &[u8])
        requires none { self.old.auction ≡ None }
        requires going { self.old.bad ≡ false }
        ensures holds { (lines : List (List ℕ)) → Holds lines self.old → Holds (lines ++ line.now ∷ []) self.new }
    {
        match read_auction(line) {
            Some(auction) => self.auction = Some(auction),
            None => self.bad = true,
        }
    }

    /// Takes a further line.
    fn add(&mut self, line: &[u8]) -> Result<(), NoMemory>
        requires some { is_some self.old.auction ≡ true }
        requires going { self.old.bad ≡ false }
        ensures holds { (lines : List (List ℕ)) → Holds lines self.old → OnOk result (Holds (lines ++ line.now ∷ []) self.new) }
    {
        if self.orders.len() >= ORDERS {
            self.bad = true;
            return Ok(());
        }
        let Some(order) = read_order(line) else {
            self.bad = true;
            return Ok(());
        };
        self.orders.extend_from_slice(&[order])?;
        Ok(())
    }

    /// Takes a line.
    pub fn take(&mut self, line: &[u8]) -> Result<(), NoMemory>
        requires going { self.old.bad ≡ false }
        ensures holds { (lines : List (List ℕ)) → Holds lines self.old → OnOk result (Holds (lines ++ line.now ∷ []) self.new) }
    {
        if self.auction.is_some() {
            return self.add(line);
        }
        self.begin(line);
        Ok(())
    }

    /// How many lines were good.
    fn count(&self) -> u64
        ensures few { result ≤ 1000001 }
        ensures value { (lines : List (List ℕ)) → Holds lines self.now → result ≡ good_lines lines }
    {
        match self.auction {
            Some(_) => self.orders.len() as u64 + 1,
            None => 0,
        }
    }

    /// How the lines end that were taken, where more may follow.
    pub fn status(&self) -> Status
        ensures end { (lines : List (List ℕ)) → Holds lines self.now → result ≡ end_so_far lines }
        ensures kind { IsEnd result }
        ensures done { result ≡ Status.Done → self.now.bad ≡ false }
    {
        if !self.bad {
            return Status::Done;
        }
        Status::BadText {
            line: self.count() + 1,
        }
    }
}
