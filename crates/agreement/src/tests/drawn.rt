//! Drawn days, evaluated in both ways.

use super::agrees;
use super::draw::Draw;
use market_core::Admission;
use std::alloc::Global;
use wire_in::Record;

/// Adds a hundred records that are drawn with a seed. Whether there is memory for them.
fn draw(seed: u64, xs: &mut Vec<Record>) -> bool {
    let mut draw = Draw::new(seed);
    let mut is_right = true;
    for _ in 0..100 {
        let x = draw.record();
        is_right &= xs.extend_from_slice(&[x]).is_ok();
    }
    is_right
}

/// Whether a record is admitted, which it is where there is no verdict on it.
fn is_admitted(admission: &mut Admission, x: &Record) -> bool {
    match admission.verdict(x) {
        None => admission.admit(x).is_ok(),
        Some(_) => false,
    }
}

/// Adds those of these records that are admitted. Whether there is memory for them.
fn take_all(admission: &mut Admission, xs: &[Record], taken: &mut Vec<Record>) -> bool {
    let mut is_right = true;
    for x in xs {
        if is_admitted(admission, x) {
            is_right &= taken.push(*x).is_ok();
        }
    }
    is_right
}

/// Adds those of these records that are admitted from the first one on. Whether there is memory for them.
fn admit(alloc: Global, xs: &[Record], taken: &mut Vec<Record>) -> bool {
    match Admission::new(alloc, u64::MAX) {
        Ok(mut admission) => take_all(&mut admission, xs, taken),
        Err(_) => false,
    }
}

/// Adds those of a hundred drawn records that are admissible. Whether there is memory for them.
fn draw_admissible(alloc: Global, seed: u64, taken: &mut Vec<Record>) -> bool {
    let mut drawn = Vec::new(alloc);
    draw(seed, &mut drawn) && admit(alloc, &drawn, taken)
}

/// Whether both ways agree over the records of a seed.
fn agree(alloc: Global, seed: u64) -> bool {
    let mut xs = Vec::new(alloc);
    draw_admissible(alloc, seed, &mut xs) && agrees(alloc, &xs, 0)
}

#[test]
fn a_market_gives_the_messages_that_the_list_gives(rt: HostRuntime) {
    for seed in 1..9 {
        assert!(&rt; agree(rt.alloc(), seed));
    }
}
