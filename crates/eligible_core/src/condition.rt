//! The conditions of a trade.

ghost use Rattle.std.specs.Prelude.{◌≡◌, ◌<◌};

use case_table::{Case, Cases, cases};

/// What a condition bit says of a trade.
#[derive(Clone, Copy, Debug, PartialEq, Eq)]
pub enum Condition {
    BarsNothing,
    Bars,
    NotAssigned,
}

const BARS_NOTHING: u32 = 0;

const BARS: u32 = 1;

const NOT_ASSIGNED: u32 = 2;

/// What each condition bit says, by its number.
const ROWS: [Case; 16] = cases! {
    15 0 => BARS_NOTHING; // opening or reopening trade of the primary listing exchange
    15 1 => BARS; // odd lot
    15 2 => BARS; // out of sequence
    15 3 => BARS; // average price
    15 4 => BARS; // settlement that isn't regular
    15 5 => BARS; // extended hours
    15 6 => BARS; // contingent
    15 7 => BARS; // derivatively priced
    15 8 => BARS_NOTHING; // sweep
    15 9 => BARS_NOTHING; // closing trade of the primary listing exchange
    15 10 => NOT_ASSIGNED;
    15 11 => NOT_ASSIGNED;
    15 12 => NOT_ASSIGNED;
    15 13 => NOT_ASSIGNED;
    15 14 => NOT_ASSIGNED;
    15 15 => NOT_ASSIGNED;
};

const CONDITIONS: Cases<16> = Cases {
    keys: 16,
    rows: ROWS,
};

impl Condition {
    ghost use Rattle.eligible_core.specs.Conditions.{condition_of, condition_at};

    /// What the condition bit of that number says.
    pub fn of(bit: u32) -> Condition
        requires { bit < 16 }
        ensures { result ≡ condition_of bit }
    {
        Condition::at(CONDITIONS.pick(bit))
    }

    fn at(answer: u32) -> Condition
        ensures { result ≡ condition_at answer }
    {
        match answer {
            BARS_NOTHING => Condition::BarsNothing,
            BARS => Condition::Bars,
            _ => Condition::NotAssigned,
        }
    }
}
