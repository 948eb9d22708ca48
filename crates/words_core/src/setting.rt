//! The options of commands: which each takes, in which ranges, and with which defaults.

ghost use Rattle.std.specs.Prelude.{◌≡◌};
ghost use Rattle.words_core.specs.Settings.{name_of, setting_of, number, takes, default_of};

use crate::command::{
    BATCH_MAX, BOARD_BYTES_MAX, BYTES_MAX, LIMIT_MAX, RECORDS_MAX, SYMBOLS_MAX, Verb, WORKERS_MAX,
};

/// An option of a command.
#[derive(Clone, Copy, Debug, PartialEq, Eq)]
pub enum Setting {
    Limit,
    From,
    Seed,
    Symbols,
    Records,
    Workers,
    Batch,
    Bytes,
    Kind,
    Summary,
}

/// All options, in the order in which the line of a command has them.
pub static SETTINGS: [Setting; 10] = [
    Setting::Limit,
    Setting::From,
    Setting::Seed,
    Setting::Symbols,
    Setting::Records,
    Setting::Workers,
    Setting::Batch,
    Setting::Bytes,
    Setting::Kind,
    Setting::Summary,
];

/// What a command takes as an option.
#[derive(Clone, Copy, Debug, PartialEq, Eq)]
pub enum Value {
    /// A number in a range, with a default where there is one.
    Number {
        least: u64,
        most: u64,
        default: Option<u64>,
    },
    /// The word of a kind, which has to be given.
    Kind,
    /// No value: the option is one word.
    Nothing,
}

impl Setting {
    /// The option of this word.
    pub fn of(word: &str) -> Option<Setting>
        ensures { result ≡ setting_of word.now }
    {
        match word {
            "--limit" => Some(Setting::Limit),
            "--from" => Some(Setting::From),
            "--seed" => Some(Setting::Seed),
            "--symbols" => Some(Setting::Symbols),
            "--records" => Some(Setting::Records),
            "--workers" => Some(Setting::Workers),
            "--batch" => Some(Setting::Batch),
            "--bytes" => Some(Setting::Bytes),
            "--kind" => Some(Setting::Kind),
            "--summary" => Some(Setting::Summary),
            _ => None,
        }
    }

    /// The name of this option.
    pub fn name<'a>(self) -> &'a str
        ensures { result.now ≡ name_of self }
    {
        match self {
            Setting::Limit => "limit",
            Setting::From => "from",
            Setting::Seed => "seed",
            Setting::Symbols => "symbols",
            Setting::Records => "records",
            Setting::Workers => "workers",
            Setting::Batch => "batch",
            Setting::Bytes => "bytes",
            Setting::Kind => "kind",
            Setting::Summary => "summary",
        }
    }
}

fn number(least: u64, most: u64, default: Option<u64>) -> Option<Value>
    ensures { result ≡ number least most default }
{
    Some(Value::Number {
        least,
        most,
        default,
    })
}

/// What a command takes as an option; none where it doesn't take it.
#[tactic(auto, unfolding(crate::specs::Settings::takes))]
pub fn takes(verb: Verb, setting: Setting) -> Option<Value>
    ensures { result ≡ takes verb setting }
{
    match (verb, setting) {
        (Verb::Format, Setting::Limit) => number(1, LIMIT_MAX, Some(100_000_000)),
        (Verb::Serve, Setting::From) => number(1, u64::MAX, None),
        (Verb::Ship, Setting::From) => number(1, u64::MAX, Some(1)),
        (Verb::Serve | Verb::Replay | Verb::Generate, Setting::Workers) => {
            number(1, WORKERS_MAX, Some(1))
        }
        (Verb::Serve | Verb::Standby, Setting::Batch) => number(1, BATCH_MAX, Some(BATCH_MAX)),
        (Verb::Serve | Verb::Replay | Verb::Standby, Setting::Bytes) => {
            number(1, BYTES_MAX, Some(BYTES_MAX))
        }
        (Verb::Board, Setting::Bytes) => number(1, BOARD_BYTES_MAX, Some(BOARD_BYTES_MAX)),
        (Verb::Print | Verb::Pack, Setting::Kind) => Some(Value::Kind),
        (Verb::Generate, Setting::Seed) => number(0, u64::MAX, Some(1)),
        (Verb::Generate, Setting::Symbols) => number(1, SYMBOLS_MAX, Some(500)),
        (Verb::Generate, Setting::Records) => number(0, RECORDS_MAX, Some(400_000)),
        (Verb::Generate, Setting::Summary) => Some(Value::Nothing),
        _ => None,
    }
}

/// The default of a number that has one.
pub fn default_of(value: Option<Value>) -> u64
    ensures { result ≡ default_of value }
{
    match value {
        Some(
            Value::Number {
                default: Some(default),
                ..
            },
        ) => default,
        _ => 0,
    }
}
