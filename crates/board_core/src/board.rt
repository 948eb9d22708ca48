//! A board and its seats.

ghost use Rattle.std.specs.Prelude.{◌≡◌, ℕ, ◌+◌, ◌*◌, ◌%◌, ◌^◌, ◌<◌, ◌≤◌, ◌∷◌, [], All, IfOk, IfSome, vec_len};
ghost use Rattle.price_core.specs.declared.quote.Side.TheVariants.{Low, High};
ghost use Rattle.board_core.specs.Entries.{edge_word};

use crate::close::gather;
use crate::open::split_readers;
use crate::rule::{BoardRule, FindStep, MeetJoin, NoteSplit, PostStep, ReadStep};
use crate::shown::{Edge, Shown};
use crate::view::SeatView;
use atomic_table::{Seat, Table};
use price_core::{NoMemory, Price, Side};
use session_core::Phase;
use std::alloc::Global;
use wire_out::Message;

/// The state and the price bands of each symbol, which one writer publishes and up to 64 readers ask for. No call waits.
#[derive(Drop)]
pub struct Board {
    pub(crate) table: Table<(), SeatView, u32, BoardRule, Global>,
    ghost sized: { (table.shared.table_id.words ≡ 3 * table.shared.key) × (table.shared.table_id.slots ≡ 0) },
    ghost few: { (1 ≤ table.shared.key) × (table.shared.key ≤ 16384) },
}

/// The right to publish on a board.
#[derive(Drop)]
pub struct WriterSeat {
    pub(crate) seat: Seat<(), SeatView>,
}

/// The right to ask a board.
#[derive(Drop)]
pub struct ReaderSeat {
    /// It gives the seat a size, so that seats can lie in a slice.
    pub(crate) number: u32,
    pub(crate) seat: Seat<(), SeatView>,
}

/// What was published before some moment, to be told to a reader.
#[derive(Drop)]
pub struct Note {
    pub(crate) seat: Seat<(), SeatView>,
}

/// The word of the state of a symbol.
fn state_word(symbol: u32) -> usize
    ensures { result ≡ 3 * symbol }
{
    3 * symbol as usize
}

/// The word of one side of the bands of a symbol.
fn edge_word(symbol: u32, side: Side) -> usize
    ensures { result ≡ edge_word symbol side }
{
    let place = match side {
        Side::Low => 1,
        Side::High => 2,
    };
    3 * symbol as usize + place
}

impl Board {
    ghost use Rattle.board_core.specs.declared.entry.Entry.TheVariants.{State, Band};
    ghost use Rattle.board_core.specs.Entries.{shown_at, edge_at, with_state, with_edge, with_bands, entries_after, IsEntry};
    ghost use Rattle.board_core.specs.Views.{Follows};
    ghost use Rattle.board_core.specs.Seats.{symbols_of, entries_of, answers_of, notes_of, view_of, told_by, IsWriterOf, IsReaderOf, IsNoteOf, IsFresh, IsOn, HasRoomFor, IsWhole};

    /// A board of so many symbols, its writer's seat and so many readers'. Each symbol is shut and has no price bands; an error
    /// is want of memory.
    pub fn new(
        alloc: Global,
        symbols: u32,
        readers: u32,
    ) -> Result<(Board, WriterSeat, Vec<ReaderSeat>), NoMemory>
        requires symbols { (1 ≤ symbols) × (symbols ≤ 16384) }
        requires readers { (1 ≤ readers) × (readers ≤ 64) }
        ensures symbols { IfOk result (λ made. symbols_of made.0 ≡ symbols) }
        ensures writer { IfOk result (λ made. IsWriterOf made.0 made.1 × (entries_of made.1 ≡ [])) }
        ensures readers { IfOk result (λ made. (vec_len made.2 ≡ readers) × All (IsFresh made.0) made.2.items) }
    {
        let row = Vec::with_capacity(alloc, readers as usize)?;
        let words = vec![in alloc; 0u64; 3 * symbols as usize]?;
        let (table, mut seat) = Table::of_words(alloc, words.as_slice(), &symbols)?;
        let board = Board { table };
        let row = split_readers(&board, &mut seat, readers, row);
        Ok((board, WriterSeat { seat }, row))
    }

    /// Publishes a message: the entries that it makes stand in the words of its symbol.
    pub fn publish(&self, seat: &mut WriterSeat, m: &Message)
        requires seat { IsWriterOf self.now seat.old }
        requires symbol { IsOn (symbols_of self.now) m.now }
        requires room { HasRoomFor (entries_of seat.old) m.now }
        requires cents { IsWhole m.now }
        ensures seat { IsWriterOf self.now seat.new }
        ensures entries { entries_of seat.new ≡ entries_after (entries_of seat.old) m.now }
    {
        match *m {
            Message::Listed { symbol, name: _ } => {
                self.post_state(seat, symbol, Phase::Shut, false, false);
                self.post_bands(seat, symbol, None, None);
            }
            Message::State { symbol, phase } => {
                let shown = self.latest_state(seat, symbol);
                self.post_state(seat, symbol, phase, shown.straddle, shown.short);
            }
            Message::Band {
                symbol,
                cause: _,
                reference: _,
                lower,
                upper,
            } => self.post_bands(seat, symbol, Some(lower), Some(upper)),
            Message::Straddle { symbol, on } => {
                let shown = self.latest_state(seat, symbol);
                self.post_state(seat, symbol, shown.phase, on, shown.short);
            }
            Message::Short { symbol, kind: _ } => {
                let shown = self.latest_state(seat, symbol);
                self.post_state(seat, symbol, shown.phase, shown.straddle, true);
            }
            Message::Collar { .. }
            | Message::Release { .. }
            | Message::Breaker { .. }
            | Message::MarketResume => {}
        }
    }

    /// The state that the writer has published last.
    fn latest_state(&self, seat: &mut WriterSeat, symbol: u16) -> Shown
        requires seat { IsWriterOf self.now seat.old }
        requires symbol { symbol < symbols_of self.now }
        ensures seat { IsWriterOf self.now seat.new }
        ensures entries { entries_of seat.new ≡ entries_of seat.old }
        ensures latest { result ≡ shown_at symbol (entries_of seat.old) }
    {
        let word = state_word(u32::from(symbol));
        let own = self.table.shared.load::<FindStep>(&mut seat.seat, word);
        Shown::of_number(own)
    }

    /// The edge that the writer has published last.
    fn latest_edge(&self, seat: &mut WriterSeat, symbol: u16, side: Side) -> Edge
        requires seat { IsWriterOf self.now seat.old }
        requires symbol { symbol < symbols_of self.now }
        ensures seat { IsWriterOf self.now seat.new }
        ensures entries { entries_of seat.new ≡ entries_of seat.old }
        ensures latest { result ≡ edge_at symbol side (entries_of seat.old) }
    {
        let word = edge_word(u32::from(symbol), side);
        let own = self.table.shared.load::<FindStep>(&mut seat.seat, word);
        Edge::of_number(own)
    }

    /// Makes a state entry, by one store.
    fn post_state(
        &self,
        seat: &mut WriterSeat,
        symbol: u16,
        phase: Phase,
        straddle: bool,
        short: bool,
    )
        requires seat { IsWriterOf self.now seat.old }
        requires symbol { symbol < symbols_of self.now }
        requires room { (shown_at symbol (entries_of seat.old)).version + 1 < 2 ^ 34 }
        ensures seat { IsWriterOf self.now seat.new }
        ensures entries { entries_of seat.new ≡ with_state symbol phase straddle short (entries_of seat.old) }
    {
        let version = self.latest_state(seat, symbol).version + 1;
        let shown = Shown {
            version,
            phase,
            straddle,
            short,
        };
        let word = state_word(u32::from(symbol));
        self.table
            .shared
            .store::<PostStep>(&mut seat.seat, word, shown.number());
    }

    /// Makes one side of a bands entry, by one store.
    fn post_edge(&self, seat: &mut WriterSeat, symbol: u16, side: Side, price: Option<Price>)
        requires seat { IsWriterOf self.now seat.old }
        requires symbol { symbol < symbols_of self.now }
        requires room { (edge_at symbol side (entries_of seat.old)).version + 1 < 2 ^ 34 }
        requires cents { IfSome price (λ units. units % 100 ≡ 0) }
        ensures seat { IsWriterOf self.now seat.new }
        ensures entries { entries_of seat.new ≡ with_edge symbol side price (entries_of seat.old) }
    {
        let version = self.latest_edge(seat, symbol, side).version + 1;
        let edge = Edge { version, price };
        let word = edge_word(u32::from(symbol), side);
        self.table
            .shared
            .store::<PostStep>(&mut seat.seat, word, edge.number());
    }

    /// Makes a bands entry: its lower side, and then its upper side.
    fn post_bands(
        &self,
        seat: &mut WriterSeat,
        symbol: u16,
        lower: Option<Price>,
        upper: Option<Price>,
    )
        requires seat { IsWriterOf self.now seat.old }
        requires symbol { symbol < symbols_of self.now }
        requires low_room { (edge_at symbol Low (entries_of seat.old)).version + 1 < 2 ^ 34 }
        requires high_room { (edge_at symbol High (entries_of seat.old)).version + 1 < 2 ^ 34 }
        requires low_cents { IfSome lower (λ units. units % 100 ≡ 0) }
        requires high_cents { IfSome upper (λ units. units % 100 ≡ 0) }
        ensures seat { IsWriterOf self.now seat.new }
        ensures entries { entries_of seat.new ≡ with_bands symbol lower upper (entries_of seat.old) }
    {
        self.post_edge(seat, symbol, Side::Low, lower);
        self.post_edge(seat, symbol, Side::High, upper);
    }

    /// The state of a symbol, by one load. It isn't older than what this reader was answered or told before.
    pub fn state(&self, seat: &mut ReaderSeat, symbol: u32) -> Shown
        requires seat { IsReaderOf self.now seat.old }
        requires symbol { symbol < symbols_of self.now }
        ensures seat { IsReaderOf self.now seat.new }
        ensures answer { answers_of seat.new ≡ State symbol result ∷ answers_of seat.old }
        ensures notes { notes_of seat.new ≡ notes_of seat.old }
        ensures follows { Follows (view_of seat.old) (State symbol result) }
    {
        let word = state_word(symbol);
        let number = self.table.shared.load::<ReadStep>(&mut seat.seat, word);
        Shown::of_number(number)
    }

    /// One side of the price bands of a symbol, by one load. It isn't older than what this reader was answered or told before.
    pub fn edge(&self, seat: &mut ReaderSeat, symbol: u32, side: Side) -> Edge
        requires seat { IsReaderOf self.now seat.old }
        requires symbol { symbol < symbols_of self.now }
        ensures seat { IsReaderOf self.now seat.new }
        ensures answer { answers_of seat.new ≡ Band symbol side result ∷ answers_of seat.old }
        ensures notes { notes_of seat.new ≡ notes_of seat.old }
        ensures follows { Follows (view_of seat.old) (Band symbol side result) }
    {
        let word = edge_word(symbol, side);
        let number = self.table.shared.load::<ReadStep>(&mut seat.seat, word);
        Edge::of_number(number)
    }

    /// A note of all that was published so far.
    pub fn note(&self, seat: &mut WriterSeat) -> Note
        requires seat { IsWriterOf self.now seat.old }
        ensures seat { IsWriterOf self.now seat.new }
        ensures entries { entries_of seat.new ≡ entries_of seat.old }
        ensures note { IsNoteOf self.now result }
        ensures told { told_by result ≡ entries_of seat.old }
    {
        Note {
            seat: self.table.shared.split_seat::<NoteSplit>(&mut seat.seat),
        }
    }

    /// Tells a reader what was published before the note.
    pub fn meet(&self, seat: &mut ReaderSeat, note: Note)
        requires seat { IsReaderOf self.now seat.old }
        requires note { IsNoteOf self.now note }
        ensures seat { IsReaderOf self.now seat.new }
        ensures answers { answers_of seat.new ≡ answers_of seat.old }
        ensures notes { notes_of seat.new ≡ told_by note ∷ notes_of seat.old }
    {
        self.table
            .shared
            .join_seat::<MeetJoin>(&mut seat.seat, note.seat);
    }

    /// Ends the board. Each answer that these readers had was an entry that the writer made.
    pub fn close(self, writer: WriterSeat, readers: Vec<ReaderSeat>)
        requires writer { IsWriterOf self writer }
        requires readers { All (IsReaderOf self) readers.items }
        ensures { All (λ reader. All (λ answer. IsEntry answer (entries_of writer)) (answers_of reader)) readers.items }
    {
        let writer = gather(&self, writer, readers);
        self.table.close_with(writer.seat).free();
    }
}
