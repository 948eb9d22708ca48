//! Messages of several parts in one order.

ghost use Rattle.std.specs.Prelude.{◌≡◌, ℕ, ◌+◌, ◌<◌, ◌≤◌, ◌++◌, ◌∷◌, map, flat_map, length, drop, [], min, None, IfOk, OnOk, OnErr, IfSome, IsTrue, vec_len, vec_capacity};
ghost use Rattle.std.specs.List.Sorted.{IsNonDecreasingBy, IsPermutation};
ghost use Rattle.merge_core.specs.Merged.{of_input, merged, further, AreOfFirst, GoesOn};
ghost use Rattle.merge_core.specs.Weaving.{all_of, next_input, nows, Rise, IsFirstOfLeast};

use crate::tagged::Tagged;
use price_core::NoMemory;
use std::alloc::Global;

/// The messages of the market and then those of each part, one list behind the other.
fn gathered(
    alloc: Global,
    market: &[Tagged],
    parts: &[Vec<Tagged>],
) -> Result<Vec<Tagged>, NoMemory>
    ensures { IfOk result (λ all. all.items ≡ market.now ++ flat_map (λ part. part.items) parts.now) }
{
    let mut all = Vec::new(alloc);
    all.extend_from_slice(market)?;
    for part in parts {
        all.extend_from_slice(part)?;
    }
    Ok(all)
}

/// Sorts messages by their inputs. Those of one input keep their order.
fn sort_by_input(messages: &mut Vec<Tagged>) -> Result<(), NoMemory>
    ensures permutation { IsPermutation messages.old.items messages.new.items }
    ensures rises { OnOk result (IsNonDecreasingBy (λ message. message.input) messages.new.items) }
    ensures same { (input : ℕ) → of_input input messages.new.items ≡ of_input input messages.old.items }
{
    messages.sort_by_key(|message| message.input)?;
    Ok(())
}

/// The messages in one new list, in order.
fn in_order(
    alloc: Global,
    market: &[Tagged],
    parts: &[Vec<Tagged>],
) -> Result<Vec<Tagged>, NoMemory>
    ensures { IfOk result (λ all. (inputs : ℕ) → AreOfFirst inputs (market.now ∷ map (λ part. part.items) parts.now) → all.items ≡ merged inputs (market.now ∷ map (λ part. part.items) parts.now)) }
{
    let mut all = gathered(alloc, market, parts)?;
    sort_by_input(&mut all)?;
    Ok(all)
}

/// Appends messages to a list that has room for them, each with an index that lies so many further on.
fn push_further(messages: &[Tagged], first: u32, out: &mut Vec<Tagged>)
    requires { vec_len out.old + length messages.now ≤ vec_capacity out.old }
    ensures items { out.new.items ≡ out.old.items ++ further first messages.now }
{
    for message in messages {
        out.push_reserved(Tagged {
            input: first.saturating_add(message.input),
            stamped: message.stamped,
        });
    }
}

/// Appends messages, each with an index that lies so many further on. An error leaves the list as it was.
fn append_further(messages: &[Tagged], first: u32, out: &mut Vec<Tagged>) -> Result<(), NoMemory>
    ensures items { OnOk result (out.new.items ≡ out.old.items ++ further first messages.now) }
    ensures err { OnErr result (out.new.items ≡ out.old.items) }
{
    out.reserve(messages.len())?;
    push_further(messages, first, out);
    Ok(())
}

/// Whether the inputs of messages never fall.
fn rises(messages: &[Tagged]) -> bool
    ensures { IsTrue result → IsNonDecreasingBy (λ message. message.input) messages.now }
{
    let mut last = 0;
    for message in messages {
        if message.input < last {
            return false;
        }
        last = message.input;
    }
    true
}

/// Whether the inputs of the messages of each list never fall.
fn all_rise(lists: &[&[Tagged]]) -> bool
    ensures { IsTrue result → Rise lists.now }
{
    for &list in lists {
        if !rises(list) {
            return false;
        }
    }
    true
}

/// The messages of the market, and then those of each part, each a list of their own.
fn lists_of<'a>(
    alloc: Global,
    market: &'a [Tagged],
    parts: &'a [Vec<Tagged>],
) -> Result<Vec<&'a [Tagged]>, NoMemory>
    ensures { IfOk result (λ lists. nows lists.items ≡ market.now ∷ map (λ part. part.items) parts.now) }
{
    let mut lists = Vec::new(alloc);
    lists.reserve(parts.len().saturating_add(1))?;
    lists.push(market)?;
    for part in parts {
        lists.push(part.as_slice())?;
    }
    Ok(lists)
}

/// How many messages lists have, or the largest number where they have more.
fn count(lists: &[&[Tagged]]) -> usize
    ensures { result ≡ min (length (all_of lists.now)) 18446744073709551615 }
{
    let mut count: usize = 0;
    for &list in lists {
        count = count.saturating_add(list.len());
    }
    count
}

/// The input of a message, in a type with numbers above all inputs.
fn input_of(message: &Tagged) -> u64
    ensures is { result ≡ message.now.input }
    ensures small { result < 4294967296 }
{
    u64::from(message.input)
}

/// The input of the next message of a list, or the least number above all inputs where it is empty.
fn next_input(list: &[Tagged]) -> u64
    ensures is { result ≡ next_input list.now }
    ensures small { 0 < length list.now → result < 4294967296 }
{
    match list.first() {
        Some(message) => input_of(message),
        None => 1 << 32,
    }
}

/// The place of the first of the lists whose next message has the least input; none where all are empty.
fn first_of_least(lists: &[&[Tagged]]) -> Option<usize>
    requires { Rise lists.now }
    ensures some { IfSome result (IsFirstOfLeast lists.now) }
    ensures none { result ≡ None → all_of lists.now ≡ [] }
{
    let mut first = 0;
    let mut least = 1 << 32;
    for nth in 0..lists.len() {
        let input = next_input(lists[nth]);
        if input < least {
            least = input;
            first = nth;
        }
    }
    if least < 1 << 32 { Some(first) } else { None }
}

/// The messages of a list behind its first one.
fn after_first(list: &[Tagged]) -> &[Tagged]
    requires { 0 < length list.now }
    ensures { result.now ≡ drop 1 list.now }
{
    &list[1..]
}

/// Appends the messages of lists that rise to a list that has room for them, the least input first, each with an index that
/// lies so many further on.
fn weave(lists: &mut [&[Tagged]], first: u32, out: &mut Vec<Tagged>)
    requires rise { Rise lists.old }
    requires room { vec_len out.old + length (all_of lists.old) ≤ vec_capacity out.old }
    ensures merged { (inputs : ℕ) → AreOfFirst inputs (nows lists.old) → out.new.items ≡ out.old.items ++ further first (merged inputs (nows lists.old)) }
    ensures behind { GoesOn out.old.items out.new.items }
{
    while let Some(nth) = first_of_least(lists) {
        let list = lists[nth];
        let message = list[0];
        let rest = after_first(list);
        out.push_reserved(Tagged {
            input: first.saturating_add(message.input),
            stamped: message.stamped,
        });
        lists[nth] = rest;
    }
}

/// Appends the messages of the market and of each part, input by input: for each input in order those of the market, and
/// then those of each part, in order of parts. The input of the index 0 comes out with the first index. An error leaves the
/// list as it was.
pub fn merge(
    market: &[Tagged],
    parts: &[Vec<Tagged>],
    first: u32,
    out: &mut Vec<Tagged>,
) -> Result<(), NoMemory>
    ensures merged { OnOk result ((inputs : ℕ) → AreOfFirst inputs (market.now ∷ map (λ part. part.items) parts.now) → out.new.items ≡ out.old.items ++ further first (merged inputs (market.now ∷ map (λ part. part.items) parts.now))) }
    ensures behind { OnOk result (GoesOn out.old.items out.new.items) }
    ensures err { OnErr result (out.new.items ≡ out.old.items) }
{
    let mut lists = lists_of(*out.allocator(), market, parts)?;
    if !all_rise(&lists) {
        let all = in_order(*out.allocator(), market, parts)?;
        return append_further(&all, first, out);
    }
    out.reserve(count(&lists))?;
    weave(&mut lists, first, out);
    Ok(())
}
