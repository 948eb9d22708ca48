//! A day of many stocks until the afternoon, in one block of several pieces.

use super::parts::expect_blocks;
use super::{add, after_open, at, clock, day, index_tick, listing, opening, quote, trade};
use std::test::Fail;
use wire_in::Record;

/// How many stocks are listed.
const STOCKS: u16 = 500;

/// A name of three letters for each stock.
fn name_of(stock: u16) -> [u8; 8] {
    let first = b'A' + (stock / 676 % 26) as u8;
    let second = b'A' + (stock / 26 % 26) as u8;
    let third = b'A' + (stock % 26) as u8;
    [first, second, third, 0, 0, 0, 0, 0]
}

/// A day begins, and the stocks are listed.
fn list_all(xs: &mut Vec<Record>) -> Result<(), Fail> {
    add(xs, day(3))?;
    for stock in 0..STOCKS {
        add(xs, listing(at(14_400), name_of(stock)))?;
    }
    Ok(())
}

/// Each stock opens at 09:30:00.
fn open_all(xs: &mut Vec<Record>) -> Result<(), Fail> {
    let open = after_open(0);
    add(xs, clock(open))?;
    for stock in 0..STOCKS {
        add(xs, opening(open, stock))?;
    }
    Ok(())
}

/// The records of a second: a clock, and while there is a stock for it, a quote and a trade; of a second of the tenth minute
/// on which a stock enters a limit state, and of one at which a breaker is declared.
fn second_of(second: u32, xs: &mut Vec<Record>) -> Result<(), Fail> {
    let t = after_open(second);
    add(xs, clock(t))?;
    if 0 < second && second <= u32::from(STOCKS) {
        let stock = (second - 1) as u16;
        xs.extend_from_slice(&[
            quote(t, stock, 199_900, 200_100),
            trade(t, stock, 2, 200_500, 0),
        ])?;
    }
    match second {
        600 => add(xs, quote(t, 7, 189_900, 190_000))?,
        640 => add(xs, index_tick(t, 465_000))?,
        _ => {}
    }
    Ok(())
}

/// A day, 500 listings and opening trades, a quote and a trade in each, and a clock each second from 09:30:00 to 13:56:40.
fn morning(xs: &mut Vec<Record>) -> Result<(), Fail> {
    list_all(xs)?;
    open_all(xs)?;
    for second in 1..=16_000 {
        second_of(second, xs)?;
    }
    Ok(())
}

#[test]
fn a_morning_of_500_stocks_gives_the_same_in_any_number_of_parts(
    rt: HostRuntime,
) -> Result<(), Fail> {
    let mut xs = Vec::new(rt.alloc());
    morning(&mut xs)?;
    expect_blocks(&rt, &xs, &[1, 2, 3, 7, 64], 65_536)
}
