//! The records of a generated day, one after the other.

ghost use Rattle.std.specs.Prelude.{◌≡◌, ◌+◌, ◌<◌, ◌≤◌, length, IfOk, IfSome};
ghost use Rattle.wire_in.specs.Spelling.{InRange};
ghost use Rattle.gen_core.specs.Generated.{IsPlan, GivesFirst, generated};
ghost use Rattle.gen_core.specs.InternalState.{IsGap, IsGenerator, Steps};

use crate::draws::Draws;
use crate::modulus::Modulus;
use crate::plan::DayPlan;
use crate::session::{gap_of, session_record};
use crate::start::{day_record, listing};
use price_core::NoMemory;
use std::alloc::Global;
use std::marker::Model;
use wire_in::Record;

/// The records of a generated day that are still to be given.
#[derive(Drop)]
pub struct Generator {
    plan: DayPlan,
    /// How many nanoseconds the records of the session are apart.
    gap: u64,
    /// How many symbols there are.
    symbols: Modulus,
    given: u32,
    draws: Draws,
    /// For each symbol the flags of its next trade.
    flags: Vec<u16>,
}

impl Model for Generator {
    ghost use Rattle.std.specs.Prelude.{◌≡◌, List, drop};
    ghost use Rattle.wire_in.specs.declared.record.Record.{Record};
    ghost use Rattle.gen_core.specs.Generated.{generated};
    ghost use Rattle.gen_core.specs.InternalState.{IsGap, IsGenerator};

    ghost Value = { List Record };

    ghost view = { λ g. drop g.given (generated g.plan) };

    ghost invariant = { λ g. IsGenerator g.plan g.given g.draws.number g.flags.items × IsGap g.plan g.gap × (g.symbols ≡ g.plan.symbols) };
}

/// The day, or the listing of a symbol.
fn start_record(plan: &DayPlan, given: u32, draws: &Draws, flags: &[u16]) -> Record
    requires state { IsGenerator plan.now given draws.now.number flags.now }
    requires start { given ≤ plan.now.symbols }
    ensures { Steps plan.now given result draws.now.number flags.now }
{
    let _ = draws;
    let _ = flags;
    if given == 0 {
        day_record()
    } else {
        listing((given - 1) as u16)
    }
}

/// A record of the session.
#[inline(always)]
fn later_record(
    plan: &DayPlan,
    gap: u64,
    symbols: &Modulus,
    given: u32,
    draws: &mut Draws,
    flags: &mut [u16],
) -> Record
    requires symbols { symbols.now ≡ plan.now.symbols }
    requires state { IsGenerator plan.now given draws.old.number flags.old }
    requires gap { IsGap plan.now gap }
    requires later { plan.now.symbols < given }
    requires within { given < 1 + plan.now.symbols + plan.now.records }
    ensures { Steps plan.now given result draws.new.number flags.new }
{
    session_record(plan, gap, symbols, given - 1 - plan.symbols, draws, flags)
}

/// The record behind so many others.
#[inline(always)]
fn next_record(
    plan: &DayPlan,
    gap: u64,
    symbols: &Modulus,
    given: u32,
    draws: &mut Draws,
    flags: &mut [u16],
) -> Record
    requires symbols { symbols.now ≡ plan.now.symbols }
    requires state { IsGenerator plan.now given draws.old.number flags.old }
    requires gap { IsGap plan.now gap }
    requires within { given < 1 + plan.now.symbols + plan.now.records }
    ensures { Steps plan.now given result draws.new.number flags.new }
{
    if given <= plan.symbols {
        start_record(plan, given, draws, flags)
    } else {
        later_record(plan, gap, symbols, given, draws, flags)
    }
}

impl Generator {
    /// All records of a plan: a day, a listing for each symbol, and then so many records as the plan says.
    pub fn new(alloc: Global, plan: &DayPlan) -> Result<Generator, NoMemory>
        requires { IsPlan plan.now }
        ensures day { IfOk result (λ generator. generator ≡ generated plan.now) }
        ensures count { IfOk result (λ generator. length generator ≡ 1 + plan.now.symbols + plan.now.records) }
    {
        let flags = vec![in alloc; 1; plan.symbols as usize]?;
        Ok(Generator {
            plan: *plan,
            gap: gap_of(plan),
            symbols: Modulus::new(u64::from(plan.symbols)),
            given: 0,
            draws: Draws { number: plan.seed },
            flags,
        })
    }

    /// The next record; None exactly where all were given. It is joined into the loop that asks, so that a record is made where it
    /// is used.
    #[inline(always)]
    pub fn next(&mut self) -> Option<Record>
        ensures first { GivesFirst result self.old self.new }
        ensures range { IfSome result InRange }
    {
        if self.given == 1 + self.plan.symbols + self.plan.records {
            return None;
        }
        let record = next_record(
            &self.plan,
            self.gap,
            &self.symbols,
            self.given,
            &mut self.draws,
            &mut self.flags,
        );
        self.given += 1;
        Some(record)
    }
}
