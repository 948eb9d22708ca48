//! The messages of a list of records, each step evaluated afresh from the whole history before it.

ghost use Rattle.std.specs.Prelude.{◌≡◌, ◌↔◌, IfOk, IsTrue, reverse};
ghost use Rattle.rulebook.specs.Admission.{IsLawful};
ghost use Rattle.rulebook.specs.Book.{messages_of};

use crate::book::history;
use history_core::{messages, verdict};
use price_core::NoMemory;
use std::alloc::Global;
use wire_in::Record;
use wire_out::Stamped;

/// The records, the newest first.
fn newest_first(alloc: Global, xs: &[Record]) -> Result<Vec<Record>, NoMemory>
    ensures { IfOk result (λ accepted. accepted.items ≡ reverse xs.now) }
{
    Ok(xs.iter().rev().copied().collect(alloc)?)
}

/// Whether each of these records, which have the newest first, is admissible after those before it.
fn are_lawful(alloc: Global, accepted: &[Record]) -> Result<bool, NoMemory>
    ensures { IfOk result (λ lawful. IsTrue lawful ↔ IsLawful 18446744073709551615 accepted.now) }
{
    let Some((x, earlier)) = accepted.split_first() else {
        return Ok(true);
    };
    let refusal = verdict(alloc, u64::MAX, earlier, x)?;
    Ok(refusal.is_none() && are_lawful(alloc, earlier)?)
}

/// Whether each record of a list, the oldest first, is admissible after those before it, under a limit of
/// 18,446,744,073,709,551,615 records. The only error is that memory ran out.
pub fn is_lawful(alloc: Global, xs: &[Record]) -> Result<bool, NoMemory>
    ensures { IfOk result (λ lawful. IsTrue lawful ↔ IsLawful 18446744073709551615 (reverse xs.now)) }
{
    let accepted = newest_first(alloc, xs)?;
    are_lawful(alloc, &accepted)
}

/// The messages of a list of records, both with the oldest first. It keeps nothing but the list of events and searches
/// it for everything, as the reference of tests. The only error is that memory ran out.
pub fn afresh(alloc: Global, xs: &[Record]) -> Result<Vec<Stamped>, NoMemory>
    requires { IsLawful 18446744073709551615 (reverse xs.now) }
    ensures { IfOk result (λ out. out.items ≡ messages_of (reverse xs.now)) }
{
    let accepted = newest_first(alloc, xs)?;
    let h = history(alloc, &accepted)?;
    messages(alloc, &h)
}
