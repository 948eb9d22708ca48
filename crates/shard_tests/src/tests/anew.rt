//! Ranges that are cut anew between blocks, while names are listed.

use super::parts::expect_blocks;
use super::{add, after_open, day, letter_of, listing, of_session, opening};
use std::test::Fail;
use wire_in::Record;

/// Ten minutes of a session: a name more each minute, and each second a record of one of the symbols and a trade of the
/// first one.
fn listed_in_session(xs: &mut Vec<Record>) -> Result<(), Fail> {
    add(xs, day(3))?;
    for second in 0..600u32 {
        let minute = (second / 60) as u16;
        let moment = after_open(second);
        if second % 60 == 0 {
            add(xs, listing(moment, letter_of(minute)))?;
        }
        add(xs, of_session(second, 1 + minute))?;
        add(xs, opening(moment, 0))?;
    }
    Ok(())
}

#[test]
fn ranges_cut_anew_while_names_are_listed_give_the_same(rt: HostRuntime) -> Result<(), Fail> {
    let mut xs = Vec::new(rt.alloc());
    listed_in_session(&mut xs)?;
    for most in [50, 7, 65_536] {
        expect_blocks(&rt, &xs, &[2, 3, 7, 64], most)?;
    }
    Ok(())
}
