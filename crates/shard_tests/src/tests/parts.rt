//! Parts of a market beside one market.

use market_core::Market;
use merge_core::Tagged;
use shard_core::Shards;
use std::alloc::Global;
use std::process::Abort;
use std::test::Fail;
use std::thread::Threads;
use wire_in::Record;
use wire_out::Stamped;
use yard_core::{Gate, OpenGate};

/// Records in blocks of at most so many.
#[derive(Clone, Copy)]
pub struct Blocks<'a> {
    pub xs: &'a [Record],
    pub most: usize,
}

/// A market in parts, and what it gave.
#[derive(Drop)]
pub struct Parts {
    shards: Shards,
    pub out: Vec<Tagged>,
}

impl Parts {
    /// A new market in 1 to 64 parts.
    pub fn new<R: Abort + AllocGlobal>(rt: &R, workers: u32) -> Result<Parts, Fail> {
        assert!(rt; 0 < workers && workers <= 64);
        Ok(Parts {
            shards: Shards::new(rt.alloc(), workers)?,
            out: Vec::new(rt.alloc()),
        })
    }

    /// Gives the parts a block of at most 65,536 records. How many messages they have given then.
    pub fn give<R: Abort + Threads + Sync, G: Gate>(
        &mut self,
        rt: &R,
        block: &[Record],
        gate: &G,
    ) -> Result<usize, Fail> {
        assert!(rt; self.shards.working() && block.len() <= 65_536);
        self.shards.block(rt, block, gate, &mut self.out)?;
        assert!(rt; self.shards.working());
        Ok(self.out.len())
    }
}

/// One market, and what it gave, each message with the index of its record in the block.
#[derive(Drop)]
struct Whole {
    market: Market,
    said: Vec<Stamped>,
    out: Vec<Tagged>,
}

impl Whole {
    fn new(alloc: Global) -> Result<Whole, Fail> {
        Ok(Whole {
            market: Market::new(alloc)?,
            said: Vec::new(alloc),
            out: Vec::new(alloc),
        })
    }

    fn apply(&mut self, input: u32, x: &Record) -> Result<(), Fail> {
        self.said.clear();
        self.market.apply(x, &mut self.said)?;
        for stamped in &self.said {
            self.out.push(Tagged {
                input,
                stamped: *stamped,
            })?;
        }
        Ok(())
    }

    fn give(&mut self, block: &[Record]) -> Result<(), Fail> {
        let mut input = 0u32;
        for x in block {
            self.apply(input, x)?;
            input = input.wrapping_add(1);
        }
        Ok(())
    }
}

/// One market and the same in parts give the same for a block: how many messages.
fn expect_block<R: Abort + Threads + Sync, G: Gate>(
    rt: &R,
    whole: &mut Whole,
    parts: &mut Parts,
    block: &[Record],
    gate: &G,
) -> Result<usize, Fail> {
    whole.out.clear();
    parts.out.clear();
    whole.give(block)?;
    let given = parts.give(rt, block, gate)?;
    assert!(rt; parts.out.as_slice() == whole.out.as_slice());
    Ok(given)
}

/// The same for each block of at most so many records.
fn expect_each<R: Abort + Threads + Sync, G: Gate>(
    rt: &R,
    whole: &mut Whole,
    parts: &mut Parts,
    blocks: Blocks,
    gate: &G,
) -> Result<usize, Fail> {
    let mut messages = 0usize;
    assert!(rt; 0 < blocks.most);
    for block in blocks.xs.chunks(blocks.most) {
        let given = expect_block(rt, whole, parts, block, gate)?;
        messages = messages.wrapping_add(given);
    }
    Ok(messages)
}

/// The same in so many new parts.
fn expect_parts<R: Abort + AllocGlobal + Threads + Sync, G: Gate>(
    rt: &R,
    whole: &mut Whole,
    workers: u32,
    blocks: Blocks,
    gate: &G,
) -> Result<usize, Fail> {
    let mut parts = Parts::new(rt, workers)?;
    let messages = expect_each(rt, whole, &mut parts, blocks, gate);
    drop(parts);
    messages
}

/// Blocks in so many parts give what one market gives: how many messages.
pub fn expect_messages<R: Abort + AllocGlobal + Threads + Sync, G: Gate>(
    rt: &R,
    workers: u32,
    blocks: Blocks,
    gate: &G,
) -> Result<usize, Fail> {
    let mut whole = Whole::new(rt.alloc())?;
    let messages = expect_parts(rt, &mut whole, workers, blocks, gate);
    drop(whole);
    messages
}

/// Blocks of at most so many records give some messages, in each of these numbers of parts what one market gives.
pub fn expect_blocks<R: Abort + AllocGlobal + Threads + Sync>(
    rt: &R,
    xs: &[Record],
    workers: &[u32],
    most: usize,
) -> Result<(), Fail> {
    for workers in workers {
        let blocks = Blocks { xs, most };
        assert!(rt; expect_messages(rt, *workers, blocks, &OpenGate)? > 0);
    }
    Ok(())
}
