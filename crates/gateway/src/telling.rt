//! What is told of a day.

use crate::day::Day;
use crate::reader::Tally;
use crate::rows::Row;
use price_core::Price;
use session_core::Phase;
use std::alloc::{AllocError, Global};
use std::io;

/// The word of a phase.
fn phase_word(phase: Phase) -> &'static str {
    match phase {
        Phase::Shut => "shut",
        Phase::Trading => "trading",
        Phase::LimitLow => "limitlow",
        Phase::LimitHigh => "limithigh",
        Phase::Paused => "paused",
        Phase::Halted => "halted",
        Phase::Stopped => "stopped",
        Phase::Closing => "closing",
        Phase::Closed => "closed",
    }
}

/// An edge in dollars with four digits, or a dash where there is none.
fn edge_text(alloc: Global, edge: Option<Price>) -> Result<String, AllocError> {
    match edge {
        Some(price) => {
            let dollars = price.units() / 10_000;
            let rest = price.units() % 10_000;
            format!(in alloc; "{dollars}.{rest:04}")
        }
        None => format!(in alloc; "-"),
    }
}

/// Tells what stands last of a stock: its state, straddle state, short sale restriction and price bands.
fn tell_row<Rt: Print + AllocGlobal>(rt: &Rt, symbol: usize, row: &Row) -> io::Result<()> {
    let phase = phase_word(row.shown.phase);
    let straddle = if row.shown.straddle { "on" } else { "off" };
    let short = if row.shown.short {
        "restricted"
    } else {
        "free"
    };
    let lower = edge_text(rt.alloc(), row.lower)?;
    let upper = edge_text(rt.alloc(), row.upper)?;
    println!(rt; "{symbol} {phase} {straddle} {short} {lower} {upper}")
}

/// Tells what a reader counted; how often a version changed depends on how the threads ran, and goes to standard error.
fn tell_reader<Rt: Print + Eprint>(rt: &Rt, name: &str, tally: &Tally) -> io::Result<()> {
    println!(rt;
        "{name}: {} answers, versions fell {}",
        tally.answers, tally.fallen
    )?;
    eprintln!(rt; "{name}: versions changed {}", tally.changes)
}

/// Tells of a day.
pub fn tell_day<Rt: Print + Eprint + AllocGlobal>(rt: &Rt, day: &Day) -> io::Result<()> {
    tell_reader(rt, "reader 1", &day.first)?;
    tell_reader(rt, "reader 2", &day.second)?;
    for (symbol, row) in day.rows.iter().enumerate() {
        tell_row(rt, symbol, row)?;
    }
    Ok(())
}
