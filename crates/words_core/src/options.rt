//! The options that were given to a command, and the command with them.

ghost use Rattle.std.specs.Prelude.{◌≡◌, true, IfSome, option_map};
ghost use Rattle.words_core.specs.Settings.{takes, is_small};
ghost use Rattle.words_core.specs.Plain.{no_options, given_of, is_given, with_number, with_word, with_any, with_once, with_option, with_summary, number_of, command_with, IsWithin};
ghost use Rattle.words_core.specs.declared.command.Verb.{Verb};

use crate::command::{Command, Verb, kind_of};
use crate::number::{is_plain, numeral_in};
use crate::setting::{Setting, Value, default_of, takes};
use text_core::Kind;

/// The options that were given so far, with their values.
#[derive(Clone, Copy, Debug, PartialEq, Eq)]
pub struct Options {
    limit: Option<u64>,
    from: Option<u64>,
    seed: Option<u64>,
    symbols: Option<u64>,
    records: Option<u64>,
    workers: Option<u64>,
    batch: Option<u64>,
    bytes: Option<u64>,
    kind: Option<Kind>,
    summary: bool,
}

/// No options.
pub fn no_options() -> Options
    ensures exact { result ≡ no_options }
    ensures range { (verb : Verb) → IsWithin verb result }
{
    Options {
        limit: None,
        from: None,
        seed: None,
        symbols: None,
        records: None,
        workers: None,
        batch: None,
        bytes: None,
        kind: None,
        summary: false,
    }
}

impl Options {
    /// The number that was given of an option.
    fn given(self, setting: Setting) -> Option<u64>
        ensures { result ≡ given_of setting self }
    {
        match setting {
            Setting::Limit => self.limit,
            Setting::From => self.from,
            Setting::Seed => self.seed,
            Setting::Symbols => self.symbols,
            Setting::Records => self.records,
            Setting::Workers => self.workers,
            Setting::Batch => self.batch,
            Setting::Bytes => self.bytes,
            Setting::Kind | Setting::Summary => None,
        }
    }

    fn with_number(self, setting: Setting, n: u64) -> Options
        ensures { result ≡ with_number setting n self }
    {
        let n = Some(n);
        match setting {
            Setting::Limit => Options { limit: n, ..self },
            Setting::From => Options { from: n, ..self },
            Setting::Seed => Options { seed: n, ..self },
            Setting::Symbols => Options { symbols: n, ..self },
            Setting::Records => Options { records: n, ..self },
            Setting::Workers => Options { workers: n, ..self },
            Setting::Batch => Options { batch: n, ..self },
            Setting::Bytes => Options { bytes: n, ..self },
            Setting::Kind | Setting::Summary => self,
        }
    }

    fn is_given(self, setting: Setting) -> bool
        ensures { result ≡ is_given setting self }
    {
        match setting {
            Setting::Kind => self.kind.is_some(),
            Setting::Summary => self.summary,
            _ => self.given(setting).is_some(),
        }
    }

    /// The options with one more, of this value by its word.
    fn with_word(self, verb: Verb, setting: Setting, word: &str) -> Option<Options>
        requires { IsWithin verb self }
        ensures exact { result ≡ with_word (takes verb setting) setting word.now self }
        ensures range { IfSome result (IsWithin verb) }
    {
        let value = takes(verb, setting)?;
        match value {
            Value::Number { least, most, .. } => {
                let n = numeral_in(word.as_bytes(), least, most)?;
                Some(self.with_number(setting, n))
            }
            Value::Kind => {
                let kind = kind_of(word)?;
                Some(Options {
                    kind: Some(kind),
                    ..self
                })
            }
            Value::Nothing => Some(Options {
                summary: word == "true",
                ..self
            }),
        }
    }

    /// The options with one more, where the command takes it and there is a word.
    pub fn with_any(self, verb: Verb, setting: Setting, word: Option<&str>) -> Option<Options>
        requires { IsWithin verb self }
        ensures exact { result ≡ with_any (takes verb setting) setting (option_map (λ w. w.now) word.entry) self }
        ensures range { IfSome result (IsWithin verb) }
    {
        if takes(verb, setting).is_none() {
            return Some(self);
        }
        match word {
            Some(word) => self.with_word(verb, setting, word),
            None => Some(self),
        }
    }

    /// The options with one more, which the command takes, and which was not given before.
    fn with_once(self, verb: Verb, setting: Setting, word: &str) -> Option<Options>
        requires { IsWithin verb self }
        ensures exact { result ≡ with_once verb self word.now setting }
        ensures range { IfSome result (IsWithin verb) }
    {
        if self.is_given(setting) {
            return None;
        }
        self.with_word(verb, setting, word)
    }

    /// The same under this name and with this value, of a plain line.
    pub fn with_option(self, verb: Verb, name: &str, word: &str) -> Option<Options>
        requires { IsWithin verb self }
        ensures exact { result ≡ with_option verb self name.now word.now }
        ensures range { IfSome result (IsWithin verb) }
    {
        if !is_plain(word.as_bytes()) {
            return None;
        }
        let setting = Setting::of(name)?;
        self.with_once(verb, setting, word)
    }

    /// The options with `--summary`, where the command takes it.
    pub fn with_summary(self, verb: Verb) -> Option<Options>
        requires { IsWithin verb self }
        ensures exact { result ≡ with_summary verb self }
        ensures range { IfSome result (IsWithin verb) }
    {
        self.with_once(verb, Setting::Summary, "true")
    }

    /// The number of an option: the one that was given, or else its default.
    fn number(self, verb: Verb, setting: Setting) -> u64
        ensures { result ≡ number_of verb setting self }
    {
        match self.given(setting) {
            Some(n) => n,
            None => default_of(takes(verb, setting)),
        }
    }

    /// The number of an option whose numbers have 32 bits.
    fn small_number(self, verb: Verb, setting: Setting) -> u32
        requires within { IsWithin verb self }
        requires small { is_small (takes verb setting) ≡ true }
        ensures { result ≡ number_of verb setting self }
    {
        self.number(verb, setting) as u32
    }

    /// A command with these options.
    #[tactic(auto, unfolding(crate::specs::Settings::takes))]
    pub fn command(self, verb: Verb) -> Option<Command>
        requires { IsWithin verb self }
        ensures { result ≡ command_with verb self }
    {
        match verb {
            Verb::Format => Some(Command::Format {
                limit: self.number(verb, Setting::Limit),
            }),
            Verb::Serve => Some(Command::Serve {
                from: self.from,
                workers: self.small_number(verb, Setting::Workers),
                batch: self.small_number(verb, Setting::Batch),
                bytes: self.number(verb, Setting::Bytes),
            }),
            Verb::Replay => Some(Command::Replay {
                workers: self.small_number(verb, Setting::Workers),
                bytes: self.number(verb, Setting::Bytes),
            }),
            Verb::Status => Some(Command::Status),
            Verb::Print => self.kind.map(|kind| Command::Print { kind }),
            Verb::Pack => self.kind.map(|kind| Command::Pack { kind }),
            Verb::Generate => Some(Command::Generate {
                seed: self.number(verb, Setting::Seed),
                symbols: self.small_number(verb, Setting::Symbols),
                records: self.small_number(verb, Setting::Records),
                workers: self.small_number(verb, Setting::Workers),
                summary: self.summary,
            }),
            Verb::Roll => Some(Command::Roll),
            Verb::Board => Some(Command::Board {
                bytes: self.number(verb, Setting::Bytes),
            }),
            Verb::Cross => Some(Command::Cross),
            Verb::Audit => Some(Command::Audit),
            Verb::Ship => Some(Command::Ship {
                from: self.number(verb, Setting::From),
            }),
            Verb::Standby => Some(Command::Standby {
                batch: self.small_number(verb, Setting::Batch),
                bytes: self.number(verb, Setting::Bytes),
            }),
        }
    }
}
