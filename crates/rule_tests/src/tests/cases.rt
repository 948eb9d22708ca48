//! Tables of cases.

ghost use Rattle.std.specs.Prelude.{◌≤◌};

use case_table::{Case, Cases, cases};

/// From 4 on the answer is 1, below 2 it is 2, and else 3.
const EIGHT: Cases<3> = Cases {
    keys: 8,
    rows: cases! {
        4 4 => 1;
        6 0 => 2;
        6 2 => 3;
    },
};

/// From 6 on no row matches.
const BELOW_6: [Case; 3] = cases! { 6 4 => 1; 6 0 => 2; 6 2 => 3; };

/// Two rows match 2.
const TWICE: [Case; 3] = cases! { 4 4 => 1; 4 0 => 2; 6 2 => 3; };

/// From 4 on no row matches, since the mask of the first leaves out a bit of its value.
const OUTSIDE_MASK: [Case; 3] = cases! { 4 5 => 1; 6 0 => 2; 6 2 => 3; };

/// From 4 on no row matches.
const BELOW_4: [Case; 2] = cases! { 6 0 => 2; 6 2 => 3; };

/// Whether each key below a number matches exactly one row.
fn is_table<const N: usize>(keys: u32, rows: [Case; N]) -> bool
    requires some { 1 ≤ keys }
    requires few { keys ≤ 4096 }
{
    Cases::new(keys, rows).is_some()
}

/// Whether each key has its one answer.
fn all_answer() -> bool {
    let mut is_right = true;
    for (key, want) in &[
        (0, 2),
        (1, 2),
        (2, 3),
        (3, 3),
        (4, 1),
        (5, 1),
        (6, 1),
        (7, 1),
    ] {
        is_right &= *key < 8 && EIGHT.pick(*key) == *want;
    }
    is_right
}

#[test]
fn the_one_row_of_a_key_answers(rt: HostRuntime) {
    assert!(&rt; all_answer());
}

/// Whether the rows of the eight keys are a table.
fn is_eight() -> bool {
    Cases::new(8, EIGHT.rows) == Some(EIGHT)
}

/// Whether one row for 4096 keys is a table, and answers at the last one.
fn is_one_row() -> bool {
    match Cases::new(4096, cases! { 0 0 => 5; }) {
        Some(every) => every.pick(4095) == 5,
        None => false,
    }
}

#[test]
fn rows_that_cover_each_key_once_are_a_table(rt: HostRuntime) {
    assert!(&rt; is_eight());
    assert!(&rt; is_one_row());
}

#[test]
fn rows_that_leave_a_key_out_or_cover_one_twice_are_none(rt: HostRuntime) {
    let are_tables = [
        is_table(8, BELOW_6),
        is_table(8, TWICE),
        is_table(8, OUTSIDE_MASK),
        is_table(1, cases! {}),
        is_table(4, BELOW_4),
        is_table(5, BELOW_4),
    ];
    assert!(rt; are_tables == [false, false, false, false, true, false]);
}
