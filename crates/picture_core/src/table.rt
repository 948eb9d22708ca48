//! The table of the pauses and halts below a picture.

ghost use Rattle.std.specs.Prelude.{◌≡◌, ◌<◌, ◌++◌, ◌^◌, length, IfOk, OnOk};
ghost use Rattle.std.specs.String.{string_bytes};
ghost use Rattle.picture_core.specs.Tables.{rows_for, page_height, cell, cells, table};

use crate::stop::{Stop, stop_text};
use price_core::NoMemory;
use std::alloc::Global;

/// How many rows four columns have.
fn rows_for(count: u64) -> u128
    ensures { result ≡ rows_for count }
{
    (u128::from(count) + 3) / 4
}

/// The height of a page with the table of so many.
pub fn page_height(count: u64) -> u128
    ensures { result ≡ page_height count }
{
    if count == 0 {
        4020
    } else {
        4140 + 70 * rows_for(count)
    }
}

/// A cell of the table, which is filled column by column.
#[tactic(auto, unfolding(crate::specs::Tables::cell))]
fn cell(alloc: Global, rows: u128, at: u64, stop: &Stop) -> Result<String, NoMemory>
    requires some { 0 < rows }
    requires few { rows < 2 ^ 64 }
    ensures { IfOk result (λ text. string_bytes text ≡ cell rows at stop.now) }
{
    let at = u128::from(at);
    let x = 800 + 1350 * (at / rows);
    let y = 4150 + 70 * (at % rows);
    let words = stop_text(alloc, stop)?;
    Ok(format!(in alloc; "<text x=\"{x}\" y=\"{y}\">{words}</text>\n")?)
}

/// Writes all cells.
fn put_cells(alloc: Global, text: &mut String, rows: u128, stops: &[Stop]) -> Result<(), NoMemory>
    requires some { 0 < rows }
    requires few { rows < 2 ^ 64 }
    ensures { OnOk result (string_bytes text.new ≡ string_bytes text.old ++ cells rows 0 stops.now) }
{
    for at in 0..stops.len() {
        text.push_str(cell(alloc, rows, at as u64, &stops[at])?.as_str())?;
    }
    Ok(())
}

/// Writes the table, where there are any.
#[tactic(auto, unfolding(crate::specs::Tables::table))]
pub fn put_table(alloc: Global, text: &mut String, stops: &[Stop]) -> Result<(), NoMemory>
    ensures { OnOk result (string_bytes text.new ≡ string_bytes text.old ++ table stops.now) }
{
    if stops.is_empty() {
        return Ok(());
    }
    text.push_str("<text class=\"strong\" x=\"800\" y=\"4070\">Pauses and halts</text>\n")?;
    put_cells(alloc, text, rows_for(stops.len() as u64), stops)?;
    Ok(())
}
