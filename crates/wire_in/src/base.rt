//! Bases: what a list of records that ends with a day leaves to the records behind it.

ghost use Rattle.std.specs.Prelude.{◌≡◌, ◌++◌, ◌∷◌, [], OnOk, OnErr};

use crate::record::Record;
use price_core::NoMemory;
use std::alloc::Global;
use std::marker::Model;
use thiserror::Error;

/// Names of symbols in order of their ids.
#[derive(Drop)]
pub struct Names {
    names: Vec<[u8; 8]>,
}

impl Model for Names {
    ghost use Rattle.std.specs.Prelude.{ℕ, List};

    ghost Value = { List (List ℕ) };

    ghost view = { λ n. n.names.items };
}

impl Names {
    /// No names.
    pub fn new(alloc: Global) -> Names
        ensures { result ≡ [] }
    {
        Names {
            names: Vec::new(alloc),
        }
    }

    /// Adds a name behind the others.
    pub fn push(&mut self, name: [u8; 8]) -> Result<(), NoMemory>
        ensures added { OnOk result (self.new ≡ self.old ++ name ∷ []) }
        ensures kept { OnErr result (self.new ≡ self.old) }
    {
        self.names.push(name)?;
        Ok(())
    }

    /// All names.
    pub fn list(&self) -> &[[u8; 8]]
        ensures { result.now ≡ self.now }
    {
        self.names.as_slice()
    }
}

/// Ids of symbols.
#[derive(Drop)]
pub struct Ids {
    ids: Vec<u16>,
}

impl Model for Ids {
    ghost use Rattle.std.specs.Prelude.{ℕ, List};

    ghost Value = { List ℕ };

    ghost view = { λ n. n.ids.items };
}

impl Ids {
    /// No ids.
    pub fn new(alloc: Global) -> Ids
        ensures { result ≡ [] }
    {
        Ids {
            ids: Vec::new(alloc),
        }
    }

    /// Adds an id behind the others.
    pub fn push(&mut self, id: u16) -> Result<(), NoMemory>
        ensures added { OnOk result (self.new ≡ self.old ++ id ∷ []) }
        ensures kept { OnErr result (self.new ≡ self.old) }
    {
        self.ids.push(id)?;
        Ok(())
    }

    /// All ids.
    pub fn list(&self) -> &[u16]
        ensures { result.now ≡ self.now }
    {
        self.ids.as_slice()
    }
}

/// How many records and messages there are up to a day, the record of that day, all names that were ever listed in order of
/// their ids, and the ids of the symbols whose short sale restriction the day carries.
#[derive(Drop)]
pub struct Base {
    pub records: u64,
    pub messages: u64,
    pub day: Record,
    pub names: Names,
    pub carried: Ids,
}

/// Why a body gives no base.
#[derive(Clone, Copy, Debug, PartialEq, Eq, Error)]
pub enum BaseError {
    /// The body spells no base.
    #[error("the base is not spelled as one")]
    BadBase,

    /// Memory ran out.
    #[error("out of memory")]
    NoMemory,
}

impl From<NoMemory> for BaseError {
    ghost use Rattle.wire_in.specs.declared.base.BaseError.TheVariants as errors;

    ghost from_gives = { λ _ e. e ≡ errors.NoMemory };

    fn from(_: NoMemory) -> BaseError {
        BaseError::NoMemory
    }
}
