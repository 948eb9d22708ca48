//! The records of a day, and why one is refused.

ghost use Rattle.std.specs.Prelude.{◌≡◌};

use price_core::{Index, Leverage, OptionalPrice, Price, Tier, Unmatched};
use session_core::{Day, Moment};
use thiserror::Error;

/// What the primary listing exchange announces for a symbol: that its opening quotation stands, that it pauses, that
/// it is halted, or that it may resume.
#[derive(Clone, Copy, Debug, PartialEq, Eq)]
pub enum NoticeKind {
    OpenQuote,
    PauseNow,
    Halt,
    Resume,
}

/// The kinds of records: those that begin a day, those that list a symbol, those that concern the whole market and those
/// of one symbol, which they name by its id.
#[derive(Clone, Copy, Debug, PartialEq, Eq)]
pub enum RecordKind {
    Day,
    Listing,
    Tick,
    OfSymbol,
}

/// What an input frame says. Prices are ten-thousandths of a dollar, sizes are shares.
#[derive(Clone, Copy, Debug, PartialEq, Eq)]
pub enum Record {
    /// A trading day begins; index_close is the prior close of the index.
    Day {
        moment: Moment,
        day: Day,
        index_close: Index,
    },
    /// A symbol is listed for the day. Its name is one to eight visible ASCII characters and then zero bytes; close is
    /// its prior closing price.
    Listing {
        moment: Moment,
        name: [u8; 8],
        tier: Tier,
        leverage: Leverage,
        close: Option<Price>,
    },
    /// A trade, with its number and its sale conditions.
    Trade {
        moment: Moment,
        symbol: u16,
        number: u32,
        price: Price,
        size: u32,
        flags: u16,
    },
    /// The trades of that number are cancelled.
    Cancel {
        moment: Moment,
        symbol: u16,
        number: u32,
    },
    /// The national best bid and offer.
    Quote {
        moment: Moment,
        symbol: u16,
        bid: OptionalPrice,
        offer: OptionalPrice,
        bid_size: u32,
        offer_size: u32,
    },
    /// A value of the index.
    IndexTick {
        moment: Moment,
        value: Index,
    },
    /// Time has passed.
    Clock {
        moment: Moment,
    },
    /// A notice of the primary listing exchange.
    Notice {
        moment: Moment,
        symbol: u16,
        kind: NoticeKind,
    },
    /// An indication of a reopening auction: its price, and the side of the market orders that it leaves unmatched.
    Indication {
        moment: Moment,
        symbol: u16,
        price: Price,
        unmatched: Unmatched,
    },
}

impl Record {
    ghost use Rattle.wire_in.specs.Records.{moment_of, kind_of, is_day, is_tick, symbol_of};

    /// The moment of the record.
    pub fn moment(&self) -> Moment
        ensures { result ≡ moment_of self.now }
    {
        match *self {
            Record::Day { moment, .. }
            | Record::Listing { moment, .. }
            | Record::Trade { moment, .. }
            | Record::Cancel { moment, .. }
            | Record::Quote { moment, .. }
            | Record::IndexTick { moment, .. }
            | Record::Clock { moment }
            | Record::Notice { moment, .. }
            | Record::Indication { moment, .. } => moment,
        }
    }

    /// The kind of the record.
    pub fn kind(&self) -> RecordKind
        ensures { result ≡ kind_of self.now }
    {
        match self {
            Record::Day { .. } => RecordKind::Day,
            Record::Listing { .. } => RecordKind::Listing,
            Record::IndexTick { .. } | Record::Clock { .. } => RecordKind::Tick,
            Record::Trade { .. }
            | Record::Cancel { .. }
            | Record::Quote { .. }
            | Record::Notice { .. }
            | Record::Indication { .. } => RecordKind::OfSymbol,
        }
    }

    /// Whether the record begins a day.
    pub fn is_day(&self) -> bool
        ensures { result ≡ is_day self.now }
    {
        matches!(self, Record::Day { .. })
    }

    /// Whether the record is a clock or an index tick, at which each listed symbol is evaluated.
    pub fn is_tick(&self) -> bool
        ensures { result ≡ is_tick self.now }
    {
        matches!(self, Record::IndexTick { .. } | Record::Clock { .. })
    }

    /// The symbol that the record names by its id.
    pub fn symbol(&self) -> Option<u16>
        ensures { result ≡ symbol_of self.now }
    {
        match *self {
            Record::Trade { symbol, .. }
            | Record::Cancel { symbol, .. }
            | Record::Quote { symbol, .. }
            | Record::Notice { symbol, .. }
            | Record::Indication { symbol, .. } => Some(symbol),
            _ => None,
        }
    }
}

/// Why an input frame is refused: the frame says no record, or the record isn't admissible.
#[derive(Clone, Copy, Debug, PartialEq, Eq, Error)]
pub enum Refusal {
    #[error("the type is unknown")]
    UnknownType,
    /// The body has another length than its type has.
    #[error("the length is not that of the type")]
    BadLength,
    /// The number of the first field outside its range, 1 for the moment.
    #[error("field {0} is outside its range")]
    BadField(u8),
    #[error("no day has begun")]
    NoDay,
    /// The moment is before that of the record before, or the day isn't after the day before.
    #[error("the record is out of order")]
    OutOfOrder,
    #[error("no symbol of the day has that id")]
    UnknownSymbol,
    #[error("the name is listed already")]
    AlreadyListed,
    #[error("the directory of names is full")]
    DirectoryFull,
    #[error("the journal is full")]
    JournalFull,
}

impl Refusal {
    ghost use Rattle.wire_in.specs.Refusals.{code_of, field_of};

    /// The code by which the refusal is told, from 1 to 9.
    pub fn code(&self) -> u8
        ensures { result ≡ code_of self.now }
    {
        match *self {
            Refusal::UnknownType => 1,
            Refusal::BadLength => 2,
            Refusal::BadField(_) => 3,
            Refusal::NoDay => 4,
            Refusal::OutOfOrder => 5,
            Refusal::UnknownSymbol => 6,
            Refusal::AlreadyListed => 7,
            Refusal::DirectoryFull => 8,
            Refusal::JournalFull => 9,
        }
    }

    /// The number of the field that is refused, or 0 where no field is.
    pub fn field(&self) -> u8
        ensures { result ≡ field_of self.now }
    {
        match *self {
            Refusal::BadField(field) => field,
            _ => 0,
        }
    }
}
