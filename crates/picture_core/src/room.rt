//! The rooms of labels: none is drawn over another.

ghost use Rattle.std.specs.Prelude.{◌≡◌, [], IfOk, OnOk, OnErr};
ghost use Rattle.picture_core.specs.Rooms.{room_of_words, meets, is_free, with_room};

use price_core::NoMemory;
use std::alloc::Global;
use std::marker::Model;

/// How wide a character is taken to be.
const CHARACTER: u128 = 30;

/// A stretch of the picture, without its right and its lower edge: y grows downwards.
#[derive(Clone, Copy, PartialEq, Eq)]
pub struct Room {
    pub left: u128,
    pub right: u128,
    pub top: u128,
    pub bottom: u128,
}

impl Room {
    /// The room of words that begin at a point, or end there.
    pub fn of_words(x: u64, y: u64, ends_there: bool, words: &str) -> Room
        ensures { result ≡ room_of_words x y ends_there words.now }
    {
        let x = u128::from(x);
        let y = u128::from(y);
        let width = words.len() as u128 * CHARACTER;
        let left = if ends_there {
            x.saturating_sub(width)
        } else {
            x
        };
        Room {
            left,
            right: left + width,
            top: y.saturating_sub(44),
            bottom: y + 12,
        }
    }

    /// Whether two rooms have a point in common.
    fn meets(&self, other: &Room) -> bool
        ensures { result ≡ meets self.now other.now }
    {
        self.left < other.right
            && other.left < self.right
            && self.top < other.bottom
            && other.top < self.bottom
    }
}

/// The rooms of the labels that are drawn. No two of them meet.
#[derive(Drop)]
pub struct Rooms {
    taken: Vec<Room>,
}

impl Model for Rooms {
    ghost use Rattle.std.specs.Prelude.{List};
    ghost use Rattle.picture_core.specs.declared.room.Room.{Room};
    ghost use Rattle.picture_core.specs.Rooms.{AreApart};

    ghost Value = { List Room };

    ghost view = { λ rooms. rooms.taken.items };

    ghost invariant = { λ rooms. AreApart rooms.taken.items };
}

impl Rooms {
    /// No label is drawn.
    pub fn new(alloc: Global) -> Rooms
        ensures { result ≡ [] }
    {
        Rooms {
            taken: Vec::new(alloc),
        }
    }

    /// Whether a label there would stand over none that is drawn.
    fn is_free(&self, room: &Room) -> bool
        ensures { result ≡ is_free self.now room.now }
    {
        self.taken.iter().all(|x| !x.meets(room))
    }

    /// Takes the room of a label, where it stands over none that is drawn. Answers whether it did.
    pub fn take(&mut self, room: Room) -> Result<bool, NoMemory>
        ensures free { IfOk result (λ drawn. drawn ≡ is_free self.old room) }
        ensures taken { OnOk result (self.new ≡ with_room self.old room) }
        ensures kept { OnErr result (self.new ≡ self.old) }
    {
        if !self.is_free(&room) {
            return Ok(false);
        }
        self.taken.push(room)?;
        Ok(true)
    }
}
