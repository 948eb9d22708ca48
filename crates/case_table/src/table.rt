//! A table of cases, and the row that applies first.

ghost use Rattle.std.specs.Prelude.{◌≡◌, ◌<◌, ◌≤◌, ◌↔◌, IsSome, IfSome, IsTrue, Some, find};
ghost use Rattle.case_table.specs.Rows.{answer_of, has_one_row, is_table, matches};

use crate::row::Case;

/// A table of cases over the keys below a number, of which each matches exactly one row. A table that is written as a
/// constant is checked with the code; `new` checks one as the program runs.
#[derive(Clone, Copy, Debug, PartialEq, Eq)]
pub struct Cases<const N: usize> {
    pub keys: u32,
    pub rows: [Case; N],
    ghost one_row_each: { IsTrue (is_table keys rows) },
}

impl<const N: usize> Cases<N> {
    /// The table of these rows over the keys below a number, from 1 to 4,096; none exactly where one of these keys
    /// doesn't match exactly one row.
    pub fn new(keys: u32, rows: [Case; N]) -> Option<Cases<N>>
        requires some { 1 ≤ keys }
        requires few { keys ≤ 4096 }
        ensures table { IsSome result ↔ IsTrue (is_table keys rows.entry) }
        ensures keys { IfSome result (λ table. table.keys ≡ keys) }
        ensures rows { IfSome result (λ table. table.rows ≡ rows.entry) }
    {
        if is_table(keys, &rows) {
            Some(Cases { keys, rows })
        } else {
            None
        }
    }

    /// The answer of the one row that a key matches.
    pub fn pick(&self, key: u32) -> u32
        requires { key < self.now.keys }
        ensures { answer_of key self.now.rows ≡ Some result }
    {
        match first_match(&self.rows, key) {
            Some(row) => row.answer,
            None => unreachable!(),
        }
    }
}

/// Whether each key below a number matches exactly one of the rows.
fn is_table(keys: u32, rows: &[Case]) -> bool
    ensures { result ≡ is_table keys rows.now }
{
    (0..keys).all(|key| has_one_row(rows, key))
}

/// Whether a key matches exactly one of the rows.
fn has_one_row(rows: &[Case], key: u32) -> bool
    ensures { result ≡ has_one_row rows.now key }
{
    rows.iter().filter(|row| row.matches(key)).count() == 1
}

/// The first of the rows that a key matches.
fn first_match(rows: &[Case], key: u32) -> Option<Case>
    ensures { result ≡ find (matches key) rows.now }
{
    rows.iter().copied().find(|row| row.matches(key))
}
