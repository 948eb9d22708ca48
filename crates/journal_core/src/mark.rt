//! The mark of a block: the four bytes behind its gate.

ghost use Rattle.std.specs.Prelude.{◌≡◌, ◌≢◌, ℕ, List, MatchOption, drop};

use wire_core::u32_at;

/// The fewest and the most bytes of a batch: one frame of 10 bytes, and 64 of 36.
const BATCH_LEAST: u32 = 10;

const BATCH_MOST: u32 = 2_304;

/// The fewest and the most bytes of a base: without names, and with 16,384 names of 8 bytes and as many ids of 2.
pub const BASE_LEAST: u32 = 40;

const BASE_MOST: u32 = 163_880;

/// What the mark of a base has more than the number of its bytes.
pub const BASE_MARK: u32 = 2_147_483_648;

/// The bytes of a gate and a mark.
pub const MARK_BYTES: usize = 5;

/// What the four bytes behind an open gate say of its block: whether it is a base or a batch, and how many bytes its body has.
#[derive(Clone, Copy, Debug, PartialEq, Eq)]
pub struct Mark {
    pub is_base: bool,
    pub count: u32,
}

impl Mark {
    ghost use Rattle.journal_core.specs.Layout.{OpensMark, IsLength, marked};
    ghost use Rattle.journal_core.specs.declared.mark.Mark.{Mark as MarkState};

    /// The mark of this number; none exactly where no mark has it.
    fn of(number: u32) -> Option<Mark>
        ensures { MatchOption result
            ((mark : MarkState) → IsLength mark.is_base mark.count → marked mark ≢ number)
            (λ mark. IsLength mark.is_base mark.count × (marked mark ≡ number)) }
    {
        if BATCH_LEAST <= number && number <= BATCH_MOST {
            return Some(Mark {
                is_base: false,
                count: number,
            });
        }
        if BASE_MARK + BASE_LEAST <= number && number <= BASE_MARK + BASE_MOST {
            return Some(Mark {
                is_base: true,
                count: number - BASE_MARK,
            });
        }
        None
    }

    /// The mark behind the open gate that some bytes begin with; none exactly where none stands there.
    pub fn read(bytes: &[u8]) -> Option<Mark>
        ensures { MatchOption result
            ((mark : MarkState) (rest : List ℕ) → ¬ OpensMark mark bytes.now rest)
            (λ mark. OpensMark mark bytes.now (drop 5 bytes.now)) }
    {
        if bytes.len() < MARK_BYTES || bytes[0] == 0 {
            return None;
        }
        Mark::of(u32_at(bytes, 1))
    }
}
