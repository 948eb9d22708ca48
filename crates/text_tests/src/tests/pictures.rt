//! The program over lines in memory.

use Sign::{Begins, Ends, Has, Lacks, Nothing};
use host_core::{Status, Stream};
use picture_core::{Outcome, chart};
use std::alloc::Global;
use std::process::Abort;
use std::test::Fail;

const DONE: Outcome = Outcome::Ended(Status::Done);

/// What a text that was written shows.
#[derive(Clone, Copy)]
enum Sign {
    Begins(&'static str),
    Has(&'static str),
    Lacks(&'static str),
    Ends(&'static str),
    Nothing,
}

/// Whether a text shows a sign.
fn shows(text: &str, sign: Sign) -> bool {
    match sign {
        Begins(part) => text.starts_with(part),
        Has(part) => text.contains(part),
        Lacks(part) => !text.contains(part),
        Ends(part) => text.ends_with(part),
        Nothing => text.is_empty(),
    }
}

/// How the program ends for these words and lines, and what it writes.
fn ended(alloc: Global, words: &[&str], lines: &str) -> Result<(Outcome, String), Fail> {
    let mut reader = Stream::new(lines.as_bytes());
    let mut written = Vec::new(alloc);
    let end = chart(alloc, words, &mut reader, &mut Stream::new(&mut written));
    Ok((end, String::from_utf8(written)?))
}

/// The program ends in that way, and what it writes shows each sign.
fn expect<R: Abort + AllocGlobal>(
    rt: &R,
    words: &[&str],
    lines: &str,
    outcome: Outcome,
    signs: &[Sign],
) -> Result<(), Fail> {
    let (end, text) = ended(rt.alloc(), words, lines)?;
    for (place, sign) in signs.iter().enumerate() {
        assert!(rt; end == outcome && shows(&text, *sign), "sign {place}");
    }
    Ok(())
}

#[test]
fn a_pause_with_two_rounds_of_collars(rt: HostRuntime) -> Result<(), Fail> {
    let lines =
        "1 10:00:00.000000000 state 7 paused\n2 10:00:00.000000000 collar 7 0 45.0000 52.0000\n3 10:05:00.000000000 collar 7 1 42.0000 52.0000\n4 10:10:00.000000000 release 7 44.0000\n5 10:10:00.000000000 state 7 trading\n6 10:10:00.000000000 state 8 halted\n";
    // From 10:00 to 10:10, 120 units of x, and each round 60.
    expect(
        &rt,
        &["chart", "7"],
        lines,
        DONE,
        &[
            Has("<rect class=\"pause\" x=\"1520\" y=\"3320\" width=\"120\" height=\"60\""),
            Has("H1580M1520"),
            Has("H1640M1580"),
            Has(">44.00</text></g>"),
            Has(">pause from 10:00:00 to 10:10:00</text>"),
            Lacks("class=\"halt\""),
        ],
    )
}

#[test]
fn what_nothing_ends_goes_to_the_last_moment_that_is_told(rt: HostRuntime) -> Result<(), Fail> {
    let lines =
        "1 10:00:00.000000000 state 7 paused\n2 10:30:00.000000000 state 8 trading\nack 9\n";
    expect(
        &rt,
        &["chart", "7"],
        lines,
        DONE,
        &[
            Has("<rect class=\"pause\" x=\"1520\" y=\"3320\" width=\"360\""),
            Has(">pause from 10:00:00 on</text>"),
            Has("<path class=\"end\" d=\"M1880 300V"),
            Has("data ends 10:30:00"),
        ],
    )
}

#[test]
fn words_that_would_stand_over_others_are_left_out(rt: HostRuntime) -> Result<(), Fail> {
    let lines =
        "1 10:00:00.000000000 state 7 limitlow\n2 10:00:05.000000000 state 7 trading\n3 10:05:00.000000000 state 7 limitlow\n4 10:05:10.000000000 state 7 trading\n5 11:30:00.000000000 state 7 limitlow\n6 11:30:05.000000000 state 7 trading\n";
    expect(
        &rt,
        &["chart", "7"],
        lines,
        DONE,
        &[
            Has("<rect class=\"limit\" x=\"1520\""),
            Has("<rect class=\"limit\" x=\"1580\""),
            Has("<rect class=\"limit\" x=\"2600\""),
            Has("10:00:00 lower band"),
            Lacks("10:05:00 lower band"),
            Has("11:30:00 lower band"),
        ],
    )
}

#[test]
fn a_market_wide_halt(rt: HostRuntime) -> Result<(), Fail> {
    let lines =
        "hello 5 1\n2 10:20:00.000000000 breaker 1 4650.00\n3 10:20:00.000000000 state 0 stopped\nack 6\n4 10:35:00.000000000 marketresume\n";
    expect(
        &rt,
        &["chart", "0"],
        lines,
        DONE,
        &[
            Begins("<svg "),
            Has("<rect class=\"breaker\" x=\"1760\" y=\"3580\" width=\"180\""),
            Ends("</svg>\n"),
            Has("role=\"img\" aria-labelledby=\"title description\""),
            Has("<title id=\"title\">Symbol 0</title>"),
            Has("The data ends at 10:35:00. Level 1 from 10:20:00 to 10:35:00.</desc>"),
        ],
    )
}

const TWO_DAYS: &str =
    "1 04:00:00.000000000 listed 7 ABC\n2 10:00:00.000000000 state 7 paused\nack 4\n3 09:00:00.000000000 state 7 halted\n4 11:00:00.000000000 state 8 trading\n";

#[test]
fn the_moment_that_goes_back_begins_a_day(rt: HostRuntime) -> Result<(), Fail> {
    expect(
        &rt,
        &["chart", "7"],
        TWO_DAYS,
        DONE,
        &[
            Has("<title id=\"title\">Symbol 7, day 2 of 2</title>"),
            Has("<rect class=\"halt\""),
            Lacks("<rect class=\"pause\""),
            Has("data ends 11:00:00"),
        ],
    )?;
    expect(
        &rt,
        &["chart", "7", "--day", "1"],
        TWO_DAYS,
        DONE,
        &[
            Has("Symbol 7 ABC, day 1 of 2<"),
            Has("<rect class=\"pause\""),
            Lacks("<rect class=\"halt\""),
            Has("data ends 10:00:00"),
        ],
    )
}

#[test]
fn a_day_that_is_not_there(rt: HostRuntime) -> Result<(), Fail> {
    for number in ["3", "18446744073709551615"] {
        expect(
            &rt,
            &["chart", "7", "--day", number],
            TWO_DAYS,
            Outcome::NoDay,
            &[Nothing],
        )?;
    }
    expect(&rt, &["chart", "7"], "ack 1\n", Outcome::NoDay, &[Nothing])?;
    expect(&rt, &["chart", "7"], "", Outcome::NoDay, &[Nothing])
}

#[test]
fn a_symbol_that_is_not_there(rt: HostRuntime) -> Result<(), Fail> {
    let none = Outcome::NoSymbol;
    expect(&rt, &["chart", "9"], TWO_DAYS, none, &[Nothing])?;
    expect(
        &rt,
        &["chart", "8", "--day", "1"],
        TWO_DAYS,
        none,
        &[Nothing],
    )?;
    // A market-wide halt tells nothing of a symbol.
    let lines = "1 10:20:00.000000000 breaker 1 4650.00\n";
    expect(&rt, &["chart", "0"], lines, none, &[Nothing])
}

#[test]
fn a_symbol_by_its_name(rt: HostRuntime) -> Result<(), Fail> {
    let lines =
        "1 04:00:00.000000000 listed 7 A&B\n2 04:00:00.000000000 listed 8 07\n3 10:00:00.000000000 state 7 paused\n";
    let title = Has("<title id=\"title\">Symbol 7 A&#38;B</title>");
    for word in ["A&B", "7"] {
        expect(&rt, &["chart", word], lines, DONE, &[title])?;
    }
    // Digits are an id where they are the one spelling of one, else a name.
    let title = Has("<title id=\"title\">Symbol 8 07</title>");
    expect(&rt, &["chart", "07", "--day", "1"], lines, DONE, &[title])?;
    for word in ["A", "65536", "ABCDEFGH"] {
        expect(&rt, &["chart", word], lines, Outcome::NoSymbol, &[Nothing])?;
    }
    Ok(())
}

#[test]
fn pauses_stand_in_a_table_of_four_columns(rt: HostRuntime) -> Result<(), Fail> {
    let lines =
        "1 10:00:00.000000000 state 7 paused\n2 10:05:00.000000000 state 7 trading\n3 10:06:00.000000000 state 7 halted\n4 10:07:00.000000000 state 7 trading\n5 10:10:00.000000000 breaker 2 4500.00\n6 10:25:00.000000000 marketresume\n7 10:30:00.000000000 state 7 paused\n8 10:35:00.000000000 state 7 trading\n9 15:50:00.000000000 state 7 closing\n10 16:00:00.000000000 state 7 closed\n";
    expect(
        &rt,
        &["chart", "7"],
        lines,
        DONE,
        &[
            Has("viewBox=\"0 0 6400 4280\""),
            Has("<text x=\"800\" y=\"4150\">pause from 10:00:00 to 10:05:00</text>"),
            Has("<text x=\"800\" y=\"4220\">halt from 10:06:00 to 10:07:00</text>"),
            Has("<text x=\"2150\" y=\"4150\">Level 2 from 10:10:00 to 10:25:00</text>"),
            Has("<text x=\"2150\" y=\"4220\">pause from 10:30:00 to 10:35:00</text>"),
            Has("<text x=\"3500\" y=\"4150\">pause to the close from 15:50:00 to 16:00:00</text>"),
        ],
    )
}

/// A day on which two stocks are paused or halted, and Level 1 is declared.
const MARKET: &str =
    "1 04:00:00.000000000 listed 0 ABC\n2 04:00:00.000000000 listed 1 XYZ\n3 10:00:00.000000000 state 1 paused\n4 10:05:00.000000000 state 0 halted\n5 10:10:00.000000000 state 1 trading\n6 10:20:00.000000000 breaker 1 4650.00\n7 10:35:00.000000000 marketresume\n8 11:00:00.000000000 state 0 trading\n";

#[test]
fn a_day_of_the_market(rt: HostRuntime) -> Result<(), Fail> {
    expect(
        &rt,
        &["chart"],
        MARKET,
        DONE,
        &[
            Has("viewBox=\"0 0 6400 1030\""),
            Has("<title id=\"title\">Market</title>"),
            Has(
                "The data ends at 11:00:00. Stocks that were paused or halted: 2. Level 1 from 10:20:00 to 10:35:00.</desc>",
            ),
            Has("y=\"583\">1 XYZ</text>"),
            Has("<rect class=\"pause\" x=\"1520\" y=\"540\" width=\"120\" height=\"50\"/>"),
            Has("y=\"653\">0 ABC</text>"),
            Has("<rect class=\"halt\" x=\"1580\" y=\"610\" width=\"660\" height=\"50\"/>"),
            Has("<rect class=\"behind\" x=\"1760\" y=\"300\" width=\"180\" height=\"400\"/>"),
            Has("<rect class=\"breaker\" x=\"1760\" y=\"330\" width=\"180\" height=\"50\"/>"),
            Has("<text x=\"1955\" y=\"373\">10:20:00 to 10:35:00</text>"),
        ],
    )?;
    expect(
        &rt,
        &["chart", "--day", "1"],
        "1 04:00:00.000000000 listed 0 ABC\n2 09:30:00.000000000 state 0 trading\n",
        DONE,
        &[Has("no stock was paused or halted")],
    )?;
    expect(
        &rt,
        &["chart", "--day", "2"],
        MARKET,
        Outcome::NoDay,
        &[Nothing],
    )
}

#[test]
fn a_bad_line(rt: HostRuntime) -> Result<(), Fail> {
    let bad = Outcome::Ended(Status::BadText { line: 2 });
    expect(
        &rt,
        &["chart", "0"],
        "ack 1\nack 2 \nack 3\n",
        bad,
        &[Nothing],
    )
}

#[test]
fn other_words(rt: HostRuntime) -> Result<(), Fail> {
    let usage = Outcome::Ended(Status::Usage);
    for words in [
        ["chart", ""].as_slice(),
        &["chart", "--day"],
        &["chart", "--day", "0"],
        &["chart", "ABCDEFGHI"],
        &["chart", "A B"],
        &["chart", "-A"],
        &["chart", "7", "8"],
        &["chart", "7", "--day"],
        &["chart", "7", "--day", "0"],
        &["chart", "7", "--day", "01"],
        &["chart", "7", "--days", "1"],
        &["chart", "7", "--day", "18446744073709551616"],
    ] {
        expect(&rt, words, "ack 1\n", usage, &[Nothing])?;
    }
    expect(
        &rt,
        &["chart", "--help"],
        "",
        DONE,
        &[Begins("chart [<symbol>]")],
    )
}
