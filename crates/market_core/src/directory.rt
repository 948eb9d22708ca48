//! The names that were ever listed, and their ids.

ghost use Rattle.std.specs.Prelude.{◌≡◌, ◌<◌, ◌≤◌, ◌∷◌, ◌++◌, [], None, length, position, IfOk};
ghost use Rattle.std.specs.Str.{bytes_eq};
ghost use Rattle.wire_in.specs.Bases.{AreNew};
ghost use Rattle.rulebook.specs.Admission.{most_names};

use indexmap::IndexSet;
use price_core::NoMemory;
use rulebook::MOST_NAMES;
use std::alloc::Global;
use std::marker::Model;
use wire_in::Names;

/// The names that were ever listed, in order of their first listing: the index of a name is its id. Its room is taken when
/// it is made.
#[derive(Drop)]
pub struct Directory {
    names: IndexSet<[u8; 8]>,
}

impl Model for Directory {
    ghost use Rattle.std.specs.Prelude.{ℕ, ◌+◌, ◌≤◌, List, length};
    ghost use Rattle.indexmap.specs.IndexSet.{spare};
    ghost use Rattle.rulebook.specs.Admission.{most_names};

    ghost Value = { List (List ℕ) };

    ghost view = { λ directory. directory.names.keys };

    ghost invariant = { λ directory. (length directory.names.keys ≤ most_names) × (most_names ≤ length directory.names.keys + spare directory.names) };
}

impl Directory {
    /// No names, with room for 16,384.
    pub fn new(alloc: Global) -> Result<Directory, NoMemory>
        ensures { IfOk result (λ directory. directory ≡ []) }
    {
        Ok(Directory {
            names: IndexSet::with_capacity(alloc, MOST_NAMES)?,
        })
    }

    /// These names. It takes over a directory of none, and its room.
    pub fn restore(self, names: &[[u8; 8]]) -> Directory
        requires none { self ≡ [] }
        requires few { length names.now ≤ most_names }
        requires different { AreNew [] names.now }
        ensures { result ≡ names.now }
    {
        let mut directory = self;
        for name in names {
            directory.push(*name);
        }
        directory
    }

    /// All names, in order of their ids.
    pub fn list(&self, alloc: Global) -> Result<Names, NoMemory>
        ensures { IfOk result (λ names. names ≡ self.now) }
    {
        let mut names = Names::new(alloc);
        for id in 0..self.names.len() {
            names.push(*self.names.get_index(id).unwrap())?;
        }
        Ok(names)
    }

    /// How many names there are.
    pub fn len(&self) -> usize
        ensures len { result ≡ length self.now }
        ensures bound { result ≤ most_names }
    {
        self.names.len()
    }

    /// The id of a name, where it was ever listed.
    pub fn id(&self, name: [u8; 8]) -> Option<u16>
        ensures { result ≡ position (bytes_eq name) self.now }
    {
        self.names.get_index_of(&name).map(|id| id as u16)
    }

    /// Lists a new name, and answers its id.
    pub fn push(&mut self, name: [u8; 8]) -> u16
        requires new { position (bytes_eq name) self.old ≡ None }
        requires room { length self.old < most_names }
        ensures id { result ≡ length self.old }
        ensures names { self.new ≡ self.old ++ name ∷ [] }
    {
        let (id, _) = self.names.insert_full(name).unwrap();
        id as u16
    }
}
