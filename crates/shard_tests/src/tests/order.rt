//! Ranges of loads, and the order of messages.

use super::at;
use merge_core::{Tagged, merge};
use shard_core::cut;
use std::process::Abort;
use std::test::Fail;
use wire_out::{Message, Stamped};

/// Ranges of these loads, as many as there are ends, end there.
fn expect_ends<R: Abort + AllocGlobal>(rt: &R, loads: &[u32], ends: &[u32]) -> Result<(), Fail> {
    assert!(rt; loads.len() <= 16_384 && !ends.is_empty() && ends.len() <= 64);
    let found = cut(rt.alloc(), loads, ends.len() as u32)?;
    assert!(rt; found.as_slice() == ends);
    Ok(())
}

#[test]
fn each_range_ends_where_its_shares_of_the_loads_are_reached(rt: HostRuntime) -> Result<(), Fail> {
    expect_ends(&rt, &[], &[0, 0])?;
    expect_ends(&rt, &[5, 1, 1, 5], &[4])?;
    expect_ends(&rt, &[5, 1, 1, 5], &[2, 4])
}

/// A message of a symbol, which answers an input.
fn tagged(input: u32, symbol: u16) -> Tagged {
    Tagged {
        input,
        stamped: Stamped {
            moment: at(0),
            message: Message::Straddle { symbol, on: true },
        },
    }
}

/// A list of the market and two of parts, of which the second has these messages, are merged behind a message input by input.
fn expect_merged<R: Abort + AllocGlobal>(rt: &R, second: &[Tagged]) -> Result<(), Fail> {
    let first = vec![in rt.alloc(); tagged(1, 1)]?;
    let mut behind = Vec::new(rt.alloc());
    behind.extend_from_slice(second)?;
    let mut out = vec![in rt.alloc(); tagged(9, 4)]?;
    merge(&[tagged(1, 0)], &[first, behind], 20, &mut out)?;
    let want = [
        tagged(9, 4),
        tagged(20, 2),
        tagged(21, 0),
        tagged(21, 1),
        tagged(21, 3),
    ];
    assert!(rt; out.as_slice() == want.as_slice());
    Ok(())
}

#[test]
fn messages_are_merged_input_by_input_and_the_market_comes_first(
    rt: HostRuntime,
) -> Result<(), Fail> {
    expect_merged(&rt, &[tagged(0, 2), tagged(1, 3)])
}

#[test]
fn a_list_that_falls_is_merged_in_the_same_order(rt: HostRuntime) -> Result<(), Fail> {
    expect_merged(&rt, &[tagged(1, 3), tagged(0, 2)])
}
