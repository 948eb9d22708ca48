//! The texts of help.

use crate::command::Verb;
use crate::setting::Setting;

/// The laws of published frames, as the help of `audit` has them.
const LAWS: &str = "\
Laws of what is published on a day:
  1  frames are numbered messages, from 1 on without a gap, and refusals
  2  no moment is before that of the message before
  3  out of a limit state a pause, or the wait for the close, comes after 15 seconds at the earliest, and trading before that
  4  a reference price that moves does so by one per cent at least and 30 seconds after the last one at the earliest;
     bands that the time of day changes keep the reference price, and are others
  5  bands come while the stock trades, are whole cents, and lie a cent apart at least
  6  an auction begins right behind the state of its pause; each round lasts five minutes, after which one collar at most
     moves, outward, or the auction releases, and trading follows right behind
  7  a market-wide halt has a greater level than each before it, and begins where none is in effect; the market resumes
     15 minutes after one of Level 1 or 2";

/// The exit codes of `ship`, as its help has them.
const SHIP_CODES: &str = "\
Exit codes:
  0   all was sent
  2   the words are not understood
  5   the output could not be written
  6   the journal could not be read
  8   the journal is damaged; some records before the damage may have been sent
  9   there is no journal
  10  out of memory";

/// The exit codes of `standby`, as its help has them.
const STANDBY_CODES: &str = "\
Exit codes:
  0   the input ended behind a frame, and each frame has its reply
  2   the words are not understood
  3   the input ended inside a frame
  4   the input could not be read
  5   the output could not be written
  6   the journal could not be read or written
  7   the bytes of the session are used up
  8   the journal is damaged; nothing was taken
  9   there is no journal
  10  out of memory";

/// All exit codes, as the help of the program has them.
pub const CODES: &str = "\
Exit codes:
  0   all went well
  2   the words are not understood
  3   the input ended inside a frame
  4   the input could not be read
  5   the output could not be written
  6   the journal could not be read or written
  7   the bytes that may be read are used up
  8   the journal is damaged at the byte that is told
  9   there is no journal
  10  out of memory
  11  the line or frame whose number is told is not understood
  12  of roll: the last record is not a day
  13  of audit: a law is broken at the frame that is told";

/// What a command does.
pub fn about<'a>(verb: Verb) -> &'a str {
    match verb {
        Verb::Format => "Makes an empty journal where none with records stands",
        Verb::Serve => "Answers the frames of the input over the journal",
        Verb::Replay => "Sends the messages of the frames of the input, without a journal",
        Verb::Status => "Tells what the journal holds",
        Verb::Print => "Prints a line for each frame of the input",
        Verb::Pack => "Packs a frame for each line of the input",
        Verb::Generate => "Sends the frames of a day for trials",
        Verb::Roll => {
            "Puts a base of all records behind the last one, which must be a Day; later starts begin there"
        }
        Verb::Board => {
            "Tells the last state and price bands of each symbol of the input, without a journal"
        }
        Verb::Cross => {
            "Tells the price at which the orders of an auction cross, and what each gets"
        }
        Verb::Audit => {
            "Tells whether published frames of one day keep the laws of what is published"
        }
        Verb::Ship => {
            "Sends the records of the journal behind its last base, as frames for a second journal"
        }
        Verb::Standby => {
            "Takes the frames that ship sends into this journal, and replies how many records it has"
        }
    }
}

/// What the help of a command has behind its options.
pub fn after<'a>(verb: Verb) -> Option<&'a str> {
    match verb {
        Verb::Audit => Some(LAWS),
        Verb::Ship => Some(SHIP_CODES),
        Verb::Standby => Some(STANDBY_CODES),
        _ => None,
    }
}

/// What an option of a command is, with its range and its default in words.
pub fn meaning<'a>(verb: Verb, setting: Setting) -> &'a str {
    match (verb, setting) {
        (_, Setting::Limit) => {
            "How many records the journal takes, from 1 to 2000000000 [default: 100000000]"
        }
        (Verb::Ship, Setting::From) => {
            "The number of the first record that is sent, from 1 to 18446744073709551615 [default: 1]"
        }
        (_, Setting::From) => {
            "The number from which on messages are sent again, from 1 to 18446744073709551615; none if not given"
        }
        (_, Setting::Seed) => {
            "The seed of the draws, from 0 to 18446744073709551615 [default: 1]"
        }
        (_, Setting::Symbols) => "How many symbols are listed, from 1 to 16384 [default: 500]",
        (_, Setting::Records) => {
            "How many records follow the listings, from 0 to 100000000; up to 23400 of them are clocks [default: 400000]"
        }
        (Verb::Serve, Setting::Workers) => {
            "How many workers evaluate the journal's records at the start, from 1 to 64; those of the input are evaluated by one [default: 1]"
        }
        (Verb::Generate, Setting::Workers) => {
            "How many workers evaluate the records for a summary, from 1 to 64 [default: 1]"
        }
        (_, Setting::Workers) => "How many workers evaluate the records, from 1 to 64 [default: 1]",
        (_, Setting::Batch) => {
            "How many frames are answered in one batch at most, from 1 to 64 [default: 64]"
        }
        (Verb::Board, Setting::Bytes) => {
            "How many bytes of the input are read, from 1 to 1073741824 [default: 1073741824]"
        }
        (_, Setting::Bytes) => {
            "How many bytes of the input are read at most, from 1 to 1099511627776 [default: 1099511627776]"
        }
        (_, Setting::Kind) => "What the lines are of",
        (_, Setting::Summary) => "Tells counts of the day in place of its frames",
    }
}
