//! How long the calls of a board take: alone, and beside readers that ask while the writer publishes.

ghost use Rattle.std.specs.Prelude.{◌≡◌, ◌+◌, ◌<◌, ◌≤◌, [], All, vec_len};
ghost use Rattle.board_core.specs.Entries.{VersionsAtMost};
ghost use Rattle.board_core.specs.Seats.{symbols_of, entries_of, IsWriterOf, IsReaderOf};

use crate::error::GatewayError;
use board_core::{Board, ReaderSeat, WriterSeat};
use price_core::{Cause, Price, Side};
use session_core::Phase;
use std::alloc::Global;
use std::fmt::{self, Display, Formatter};
use std::rt::Clock;
use std::thread::{Threads, join, map_vec};
use std::time::{Duration, Instant};
use wire_out::Message;

/// How many symbols the board has. The first one is published and asked for.
const SYMBOLS: u32 = 4;

/// How often a reader asks at most beside each publish.
const ASKS: u64 = 100;

/// How long so many calls took.
#[derive(Clone, Copy)]
struct Timed {
    time: Duration,
    calls: u64,
}

/// How long a reader's calls took.
#[derive(Clone, Copy)]
struct Asked {
    state: Timed,
    edge: Timed,
}

/// How long a writer's and a reader's calls took.
#[derive(Clone, Copy)]
struct Pace {
    publish: Timed,
    asked: Asked,
}

/// What is asked for.
#[derive(Clone, Copy)]
enum Ask {
    State,
    Edge,
}

/// When a reader stops: when it is shown these versions, or after so many calls of each kind.
#[derive(Clone, Copy)]
struct Until {
    state: u64,
    edge: u64,
    calls: u64,
}

impl Display for Timed {
    /// Writes the nanoseconds of a call, with one digit behind the point.
    fn fmt<W: fmt::Write>(&self, f: &mut Formatter<W>) -> fmt::Result {
        let calls = u128::from(self.calls.max(1));
        let tenths = self.time.as_nanos().saturating_mul(10) / calls;
        write!(f, "{}.{}", tenths / 10, tenths % 10)
    }
}

/// The present instant.
fn now<R: Clock>(rt: &R) -> Result<Instant, GatewayError> {
    Instant::now(rt).map_err(|_| GatewayError::ClockFault)
}

/// How long so many calls took that began then.
fn time_since<R: Clock>(rt: &R, start: Instant, calls: u64) -> Result<Timed, GatewayError> {
    match start.elapsed(rt) {
        Ok(time) => Ok(Timed { time, calls }),
        Err(_) => Err(GatewayError::ClockFault),
    }
}

/// Publishes the message of that number: bands by the even ones, and a state by the odd ones.
fn publish_one(board: &Board, writer: &mut WriterSeat, number: u64)
    requires writer { IsWriterOf board.now writer.old }
    requires symbols { 0 < symbols_of board.now }
    requires room { (number ≤ 100000000) × VersionsAtMost number (entries_of writer.old) 0 }
    ensures writer { IsWriterOf board.now writer.new }
    ensures room { VersionsAtMost (number + 1) (entries_of writer.new) 0 }
{
    if number % 2 == 0 {
        let bands = Message::Band {
            symbol: 0,
            cause: Cause::Moved,
            reference: Price::of(1_000_000),
            lower: Price::of(950_000),
            upper: Price::of(1_050_000),
        };
        board.publish(writer, &bands);
    } else {
        let state = Message::State {
            symbol: 0,
            phase: Phase::Trading,
        };
        board.publish(writer, &state);
    }
}

/// Publishes so many messages.
fn publish_timed<R: Clock>(
    rt: &R,
    board: &Board,
    mut writer: WriterSeat,
    count: u64,
) -> Result<Timed, GatewayError>
    requires writer { IsWriterOf board.now writer × (entries_of writer ≡ []) }
    requires symbols { 0 < symbols_of board.now }
    requires count { count ≤ 100000000 }
{
    let start = now(rt)?;
    for number in 0..count {
        publish_one(board, &mut writer, number);
    }
    time_since(rt, start, count)
}

/// Asks once, and answers the version that is shown.
fn version_shown(board: &Board, seat: &mut ReaderSeat, ask: Ask) -> u64
    requires seat { IsReaderOf board.now seat.old }
    requires symbols { 0 < symbols_of board.now }
    ensures { IsReaderOf board.now seat.new }
{
    match ask {
        Ask::State => board.state(seat, 0).version,
        Ask::Edge => board.edge(seat, 0, Side::Low).version,
    }
}

/// Asks until that version is shown, but only so often, and answers how often it asked.
fn ask_until(board: &Board, seat: &mut ReaderSeat, ask: Ask, version: u64, calls: u64) -> u64
    requires seat { IsReaderOf board.now seat.old }
    requires symbols { 0 < symbols_of board.now }
    ensures { IsReaderOf board.now seat.new }
{
    for asked in 0..calls {
        if version_shown(board, seat, ask) >= version {
            return asked + 1;
        }
    }
    calls
}

/// Asks for the state, and then for the lower band.
fn ask_timed<R: Clock>(
    rt: &R,
    board: &Board,
    mut seat: ReaderSeat,
    until: Until,
) -> Result<Asked, GatewayError>
    requires seat { IsReaderOf board.now seat }
    requires symbols { 0 < symbols_of board.now }
{
    let start = now(rt)?;
    let calls = ask_until(board, &mut seat, Ask::State, until.state, until.calls);
    let state = time_since(rt, start, calls)?;
    let start = now(rt)?;
    let calls = ask_until(board, &mut seat, Ask::Edge, until.edge, until.calls);
    let edge = time_since(rt, start, calls)?;
    Ok(Asked { state, edge })
}

/// Asks by each of these readers, in a thread of its own. Answers what the last one's calls took.
fn ask_each<R: Threads + Sync + Clock>(
    rt: &R,
    board: &Board,
    seats: Vec<ReaderSeat>,
    until: Until,
) -> Result<Asked, GatewayError>
    requires seats { (0 < vec_len seats) × All (IsReaderOf board.now) seats.items }
    requires symbols { 0 < symbols_of board.now }
{
    let ask = |seat: ReaderSeat| -> Result<Asked, GatewayError>
        requires { IsReaderOf board.now seat × (0 < symbols_of board.now) }
    { ask_timed(rt, board, seat, until) };
    match map_vec(rt, seats, &ask) {
        Ok(mut all) => all.pop().unwrap(),
        Err(_) => Err(GatewayError::NoMemory),
    }
}

/// Publishes so many messages while readers ask beside it: for the state until half of its versions are there, and then for
/// the lower band until all are.
fn publish_beside<R: Threads + Sync + Clock>(
    rt: &R,
    board: &Board,
    writer: WriterSeat,
    seats: Vec<ReaderSeat>,
    count: u64,
) -> Result<Pace, GatewayError>
    requires writer { IsWriterOf board.now writer × (entries_of writer ≡ []) }
    requires seats { (0 < vec_len seats) × All (IsReaderOf board.now) seats.items }
    requires symbols { 0 < symbols_of board.now }
    requires count { count ≤ 100000000 }
{
    let until = Until {
        state: count / 4,
        edge: count / 2,
        calls: count * ASKS,
    };
    let (publish, asked) = join(
        rt,
        || -> Result<Timed, GatewayError>
            requires { IsWriterOf board.now writer × (entries_of writer ≡ []) × (0 < symbols_of board.now) × (count ≤ 100000000) }
        { publish_timed(rt, board, writer, count) },
        || -> Result<Asked, GatewayError>
            requires { (0 < vec_len seats) × All (IsReaderOf board.now) seats.items × (0 < symbols_of board.now) }
        { ask_each(rt, board, seats, until) },
    );
    let (publish, asked) = (publish?, asked?);
    Ok(Pace { publish, asked })
}

/// Publishes so many messages while so many readers ask beside it.
fn pace_beside<R: Threads + Sync + Clock>(
    rt: &R,
    alloc: Global,
    count: u64,
    readers: u32,
) -> Result<Pace, GatewayError>
    requires count { count ≤ 100000000 }
    requires readers { (1 ≤ readers) × (readers ≤ 3) }
{
    let (board, writer, seats) = Board::new(alloc, SYMBOLS, readers)?;
    publish_beside(rt, &board, writer, seats, count)
}

/// Publishes so many messages, and then asks as often.
fn pace_alone<R: Clock>(rt: &R, alloc: Global, count: u64) -> Result<Pace, GatewayError>
    requires { count ≤ 100000000 }
{
    let (board, writer, mut seats) = Board::new(alloc, SYMBOLS, 1)?;
    let publish = publish_timed(rt, &board, writer, count)?;
    let until = Until {
        state: u64::MAX,
        edge: u64::MAX,
        calls: count,
    };
    let asked = ask_timed(rt, &board, seats.pop().unwrap(), until)?;
    Ok(Pace { publish, asked })
}

/// Tells the nanoseconds of a call of each kind.
fn tell_calls<R: Print>(rt: &R, pace: &Pace) -> Result<(), GatewayError> {
    let asked = pace.asked;
    println!(rt;
        "publish {} state {} edge {}",
        pace.publish, asked.state, asked.edge
    )
    .map_err(|_| GatewayError::SendFault)
}

/// Measures so many calls of `publish`, `state` and `edge` alone, and `publish` and its readers' calls beside one, two and
/// three readers, and tells the nanoseconds of a call. An error is want of memory, a clock that can't be read, or a failed
/// write.
pub fn tell_pace<R: Print + Threads + Sync + Clock>(
    rt: &R,
    alloc: Global,
    count: u64,
) -> Result<(), GatewayError>
    requires { count ≤ 100000000 }
{
    let pace = pace_alone(rt, alloc, count)?;
    print!(rt; "alone: ").map_err(|_| GatewayError::SendFault)?;
    tell_calls(rt, &pace)?;
    for readers in 1..4 {
        let pace = pace_beside(rt, alloc, count, readers)?;
        print!(rt; "readers {readers}: ").map_err(|_| GatewayError::SendFault)?;
        tell_calls(rt, &pace)?;
    }
    Ok(())
}
