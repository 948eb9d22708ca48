//! A command with its options.

use text_core::Kind;

/// The most records that a journal takes.
pub const LIMIT_MAX: u64 = 2_000_000_000;

/// The most bytes that one run reads.
pub const BYTES_MAX: u64 = 1_099_511_627_776;

/// The most bytes that a board reads.
pub const BOARD_BYTES_MAX: u64 = 1_073_741_824;

/// The most workers of a run.
pub const WORKERS_MAX: u64 = 64;

/// The most frames of a batch.
pub const BATCH_MAX: u64 = 64;

/// The most symbols of a generated day.
pub const SYMBOLS_MAX: u64 = 16_384;

/// The most records of a generated day behind its listings.
pub const RECORDS_MAX: u64 = 100_000_000;

/// What the words of a process ask for.
#[derive(Clone, Copy, Debug, PartialEq, Eq)]
pub enum Command {
    /// Makes an empty journal that takes so many records, from 1 to 2,000,000,000.
    Format {
        limit: u64,
    },
    /// Serves a session that sends the messages from a number on again, where one is given, evaluates the records of its
    /// journal by so many workers, from 1 to 64, answers so many frames at most in one batch, from 1 to 64, and reads so many
    /// bytes at most, from 1 to 1,099,511,627,776.
    Serve {
        from: Option<u64>,
        workers: u32,
        batch: u32,
        bytes: u64,
    },
    /// Replays the input by so many workers, from 1 to 64, up to so many bytes.
    Replay {
        workers: u32,
        bytes: u64,
    },
    /// Tells what a journal holds.
    Status,
    /// Prints a line for each frame of the input.
    Print {
        kind: Kind,
    },
    /// Packs a frame for each line of the input.
    Pack {
        kind: Kind,
    },
    /// Generates a day of a seed with so many symbols, from 1 to 16,384, and so many records behind their listings, up to
    /// 100,000,000; or tells counts of it alone, which so many workers evaluate, from 1 to 64.
    Generate {
        seed: u64,
        symbols: u32,
        records: u32,
        workers: u32,
        summary: bool,
    },
    /// Puts a base of all records behind the last record of a journal, which must be a Day.
    Roll,
    /// Tells the last state and price bands of each symbol of the input, up to so many bytes, from 1 to 1,073,741,824.
    Board {
        bytes: u64,
    },
    /// Crosses the orders of the input.
    Cross,
    /// Audits the published frames of the input.
    Audit,
    /// Sends the records of a journal behind its last base, from that number on, which is at least 1, for a second journal.
    Ship {
        from: u64,
    },
    /// Takes such records of the input into a journal: so many frames at most in one batch, from 1 to 64, and so many bytes at
    /// most, from 1 to 1,099,511,627,776.
    Standby {
        batch: u32,
        bytes: u64,
    },
}

/// The name of a command.
#[derive(Clone, Copy, Debug, PartialEq, Eq)]
pub enum Verb {
    Format,
    Serve,
    Replay,
    Status,
    Print,
    Pack,
    Generate,
    Roll,
    Board,
    Cross,
    Audit,
    Ship,
    Standby,
}

/// All commands, in the order in which the command line has them.
pub static VERBS: [Verb; 13] = [
    Verb::Format,
    Verb::Serve,
    Verb::Replay,
    Verb::Status,
    Verb::Print,
    Verb::Pack,
    Verb::Generate,
    Verb::Roll,
    Verb::Board,
    Verb::Cross,
    Verb::Audit,
    Verb::Ship,
    Verb::Standby,
];

impl Verb {
    ghost use Rattle.std.specs.Prelude.{◌≡◌};
    ghost use Rattle.words_core.specs.Commands.{verb_of, word_of};

    /// The command of this name.
    pub fn of(word: &str) -> Option<Verb>
        ensures { result ≡ verb_of word.now }
    {
        match word {
            "format" => Some(Verb::Format),
            "serve" => Some(Verb::Serve),
            "replay" => Some(Verb::Replay),
            "status" => Some(Verb::Status),
            "print" => Some(Verb::Print),
            "pack" => Some(Verb::Pack),
            "generate" => Some(Verb::Generate),
            "roll" => Some(Verb::Roll),
            "board" => Some(Verb::Board),
            "cross" => Some(Verb::Cross),
            "audit" => Some(Verb::Audit),
            "ship" => Some(Verb::Ship),
            "standby" => Some(Verb::Standby),
            _ => None,
        }
    }

    /// The name of this command.
    pub fn name<'a>(self) -> &'a str
        ensures { result.now ≡ word_of self }
    {
        match self {
            Verb::Format => "format",
            Verb::Serve => "serve",
            Verb::Replay => "replay",
            Verb::Status => "status",
            Verb::Print => "print",
            Verb::Pack => "pack",
            Verb::Generate => "generate",
            Verb::Roll => "roll",
            Verb::Board => "board",
            Verb::Cross => "cross",
            Verb::Audit => "audit",
            Verb::Ship => "ship",
            Verb::Standby => "standby",
        }
    }
}

ghost use Rattle.std.specs.Prelude.{◌≡◌};
ghost use Rattle.words_core.specs.Commands.{kind_of};

/// The kind of this name.
pub fn kind_of(word: &str) -> Option<Kind>
    ensures { result ≡ kind_of word.now }
{
    match word {
        "records" => Some(Kind::Records),
        "published" => Some(Kind::Published),
        _ => None,
    }
}
