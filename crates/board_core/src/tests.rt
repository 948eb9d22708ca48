//! Tests of a board: two readers beside a writer, as many readers and symbols as a board may have, and each call once.

ghost use Rattle.std.specs.Prelude.{◌≡◌, ℕ, ◌+◌, ◌*◌, ◌<◌, ◌≤◌, ◌∷◌, [], All, vec_capacity, vec_len};
ghost use Rattle.wire_out.specs.declared.message.Message.TheVariants as messages;
ghost use Rattle.price_core.specs.declared.quote.Cause.TheVariants as causes;
ghost use Rattle.board_core.specs.Entries.{VersionsAtMost};
ghost use Rattle.board_core.specs.Seats.{entries_of, symbols_of, IsFresh, IsWriterOf, IsReaderOf};

use crate::board::{Board, ReaderSeat, WriterSeat};
use crate::shown::{Edge, Shown};
use price_core::{Cause, Price, Side};
use session_core::Phase;
use std::process::Abort;
use std::thread::{Threads, join};
use wire_out::{Message, ShortKind};

/// The bands of the first symbol, a cent apart, the lower one at so many cents.
fn bands(cents: u64) -> Message
    requires { (0 < cents) × (cents ≤ 100000) }
    ensures { result ≡ messages.Band 0 causes.Moved (100 * cents) (100 * cents) (100 * (cents + 1)) }
{
    let lower = Price::of(100 * cents);
    let upper = Price::of(100 * (cents + 1));
    Message::Band {
        symbol: 0,
        cause: Cause::Moved,
        reference: lower,
        lower,
        upper,
    }
}

/// Publishes so many bands, each a cent above the last ones.
fn publish_bands(board: &Board, mut seat: WriterSeat, count: u64) -> WriterSeat
    requires seat { IsWriterOf board.now seat × (entries_of seat ≡ []) }
    requires symbols { 0 < symbols_of board.now }
    requires count { count ≤ 10000 }
    ensures { IsWriterOf board.now result }
{
    for i in 0..count {
        board.publish(&mut seat, &bands(i + 1));
    }
    seat
}

/// Whether two edges, where they are of one version, are the two sides of bands that were published, or of none.
fn is_pair(low: &Edge, high: &Edge) -> bool {
    if low.version != high.version {
        return true;
    }
    match (low.price, high.price) {
        (None, None) => low.version == 0,
        (Some(lower), Some(upper)) => {
            lower.units() / 100 == low.version && upper.units() == lower.units() + 100
        }
        _ => false,
    }
}

/// Asks so often for both edges of the first symbol. It answers whether no version ever fell, and whether two edges of
/// one version were always the two sides of one bands entry.
fn ask(board: &Board, mut seat: ReaderSeat, times: u32) -> (bool, ReaderSeat)
    requires seat { IsReaderOf board.now seat }
    requires symbols { 0 < symbols_of board.now }
    ensures { IsReaderOf board.now result.1 }
{
    let mut is_right = true;
    let mut low_version = 0;
    let mut high_version = 0;
    for _ in 0..times {
        let low = board.edge(&mut seat, 0, Side::Low);
        let high = board.edge(&mut seat, 0, Side::High);
        let rises = low.version >= low_version && high.version >= high_version;
        is_right = is_pair(&low, &high) && rises && is_right;
        low_version = low.version;
        high_version = high.version;
    }
    (is_right, seat)
}

/// Two readers ask, each in a thread of its own.
fn ask_twice<R: Threads + Sync>(
    rt: &R,
    board: &Board,
    first: ReaderSeat,
    second: ReaderSeat,
    times: u32,
) -> ((bool, ReaderSeat), (bool, ReaderSeat))
    requires first { IsReaderOf board.now first }
    requires second { IsReaderOf board.now second }
    requires symbols { 0 < symbols_of board.now }
    ensures first { IsReaderOf board.now result.0.1 }
    ensures second { IsReaderOf board.now result.1.1 }
{
    join(
        rt,
        || -> (bool, ReaderSeat)
            requires { IsReaderOf board.now first × (0 < symbols_of board.now) }
            ensures { IsReaderOf board.entry.now result.1 }
        { ask(board, first, times) },
        || -> (bool, ReaderSeat)
            requires { IsReaderOf board.now second × (0 < symbols_of board.now) }
            ensures { IsReaderOf board.entry.now result.1 }
        { ask(board, second, times) },
    )
}

/// Two readers ask while the writer publishes, and then the board is closed. It answers whether both saw what they should.
fn ask_beside_a_writer<R: Threads + Sync + Abort>(
    rt: &R,
    board: Board,
    writer: WriterSeat,
    first: ReaderSeat,
    second: ReaderSeat,
    mut row: Vec<ReaderSeat>,
) -> bool
    requires writer { IsWriterOf board writer × (entries_of writer ≡ []) }
    requires first { IsReaderOf board first }
    requires second { IsReaderOf board second }
    requires row { All (IsReaderOf board) row.items }
    requires symbols { 0 < symbols_of board }
{
    let shared = &board;
    let (writer, (first, second)) = join(
        rt,
        || -> WriterSeat
            requires { IsWriterOf shared.now writer × (entries_of writer ≡ []) × (0 < symbols_of shared.now) }
            ensures { IsWriterOf shared.entry.now result }
        { publish_bands(shared, writer, 10_000) },
        || -> ((bool, ReaderSeat), (bool, ReaderSeat))
            requires { IsReaderOf shared.now first × IsReaderOf shared.now second × (0 < symbols_of shared.now) }
            ensures { IsReaderOf shared.entry.now result.0.1 × IsReaderOf shared.entry.now result.1.1 }
        { ask_twice(rt, shared, first, second, 10_000) },
    );
    let is_right = first.0 && second.0;
    let Ok(()) = row.push(first.1) else {
        panic!(rt; "there is no memory")
    };
    let Ok(()) = row.push(second.1) else {
        panic!(rt; "there is no memory")
    };
    board.close(writer, row);
    is_right
}

#[test]
fn two_readers_beside_a_writer_see_versions_rise_and_pairs_match(rt: HostRuntime) {
    let Ok((board, writer, mut seats)) = Board::new(rt.alloc(), 1, 2) else {
        panic!(rt; "there is no memory")
    };
    let second = seats.pop().unwrap();
    let first = seats.pop().unwrap();
    let is_right = ask_beside_a_writer(&rt, board, writer, first, second, seats);
    assert!(rt; is_right);
}

#[test]
fn a_reader_that_met_a_note_sees_what_was_published_before_it(rt: HostRuntime) {
    let Ok((board, mut writer, mut seats)) = Board::new(rt.alloc(), 1, 1) else {
        panic!(rt; "there is no memory")
    };
    let mut reader = seats.pop().unwrap();
    let first = board.state(&mut reader, 0);
    assert!(rt; first == shown(0, Phase::Shut, false));
    let low = board.edge(&mut reader, 0, Side::Low);
    assert!(rt;
        low == Edge {
            version: 0,
            price: None
        }
    );
    publish_day(&board, &mut writer);
    let note = board.note(&mut writer);
    board.meet(&mut reader, note);
    let last = board.state(&mut reader, 0);
    assert!(rt; last == shown(3, Phase::LimitLow, true));
    let low = board.edge(&mut reader, 0, Side::Low);
    assert!(rt;
        low == Edge {
            version: 2,
            price: Some(Price::of(475_000))
        }
    );
    let high = board.edge(&mut reader, 0, Side::High);
    assert!(rt;
        high == Edge {
            version: 2,
            price: Some(Price::of(525_000))
        }
    );
    let Ok(()) = seats.push(reader) else {
        panic!(rt; "there is no memory")
    };
    board.close(writer, seats);
}

/// The state that is shown of a symbol without a straddle state.
fn shown(version: u64, phase: Phase, short: bool) -> Shown {
    Shown {
        version,
        phase,
        straddle: false,
        short,
    }
}

/// A listing, the bands, a limit state, the restriction and a release, which the board doesn't show.
fn publish_day(board: &Board, writer: &mut WriterSeat)
    requires writer { IsWriterOf board.now writer.old × (entries_of writer.old ≡ []) }
    requires symbols { 0 < symbols_of board.now }
    ensures { IsWriterOf board.now writer.new }
{
    board.publish(
        writer,
        &Message::Listed {
            symbol: 0,
            name: *b"ACME\0\0\0\0",
        },
    );
    board.publish(
        writer,
        &Message::Band {
            symbol: 0,
            cause: Cause::First,
            reference: Price::of(500_000),
            lower: Price::of(475_000),
            upper: Price::of(525_000),
        },
    );
    board.publish(
        writer,
        &Message::State {
            symbol: 0,
            phase: Phase::LimitLow,
        },
    );
    board.publish(
        writer,
        &Message::Short {
            symbol: 0,
            kind: ShortKind::Triggered,
        },
    );
    board.publish(
        writer,
        &Message::Release {
            symbol: 0,
            price: Price::of(480_000),
        },
    );
}

/// The last symbol of a board of 16,384.
const LAST: u16 = 16_383;

/// Publishes that the last symbol trades.
fn publish_last(board: &Board, writer: &mut WriterSeat)
    requires writer { IsWriterOf board.now writer.old × (entries_of writer.old ≡ []) }
    requires symbols { 16383 < symbols_of board.now }
    ensures { IsWriterOf board.now writer.new }
{
    board.publish(
        writer,
        &Message::State {
            symbol: LAST,
            phase: Phase::Trading,
        },
    );
}

/// Each reader asks for the last symbol. Answers how many are shown that it trades, and the readers.
fn ask_each(
    board: &Board,
    mut seats: Vec<ReaderSeat>,
    mut asked: Vec<ReaderSeat>,
) -> (u32, Vec<ReaderSeat>)
    requires seats { All (IsFresh board.now) seats.items }
    requires asked { asked.items ≡ [] }
    requires room { vec_len seats ≤ vec_capacity asked }
    requires symbols { 16383 < symbols_of board.now }
    ensures { All (IsReaderOf board.now) result.1.items }
{
    let mut trading: u32 = 0;
    while let Some(mut seat) = seats.pop() {
        let found = board.state(&mut seat, u32::from(LAST));
        trading = trading.saturating_add(u32::from(found == shown(1, Phase::Trading, false)));
        asked.push_reserved(seat);
    }
    (trading, asked)
}

#[test]
fn each_of_64_readers_is_shown_the_last_of_16384_symbols(rt: HostRuntime) {
    let Ok(asked) = Vec::with_capacity(rt.alloc(), 64) else {
        panic!(rt; "there is no memory")
    };
    let Ok((board, mut writer, seats)) = Board::new(rt.alloc(), 16_384, 64) else {
        panic!(rt; "there is no memory")
    };
    publish_last(&board, &mut writer);
    let (trading, asked) = ask_each(&board, seats, asked);
    board.close(writer, asked);
    assert!(rt; trading == 64);
}
