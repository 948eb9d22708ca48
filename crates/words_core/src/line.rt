//! The command line as `clap` takes it.

ghost use Rattle.std.specs.Prelude.{◌≡◌, IfOk, false, fold};
ghost use Rattle.clap.specs.Words.{app_of, rule_of, new_app, with_rule};
ghost use Rattle.clap.specs.declared.builder.command.Command.TheViews.{out-Command as fields_of};
ghost use Rattle.words_core.specs.Commands.{word_of};
ghost use Rattle.words_core.specs.Line.{named, option_of, with_setting, line_of, program, with_command, halts_line};

use crate::command::{VERBS, Verb};
use crate::help::{CODES, about, after, meaning};
use crate::setting::{SETTINGS, Setting, Value, takes};
use clap::builder::ValueParser;
use clap::{Arg, ArgAction, Command};
use std::alloc::{AllocError, Global};

/// The version that `--version` tells.
const VERSION: &str = "0.1.0";

/// An option with its name and its help.
fn named<'a>(alloc: Global, setting: Setting, help: &'a str) -> Arg<'a>
    ensures rule { rule_of result ≡ named setting }
    ensures local { result.global ≡ false }
{
    let name = setting.name();
    Arg::new(alloc, name).long(name).help(help)
}

/// An option of a command, with what it takes.
fn option_of<'a>(
    alloc: Global,
    kind: ValueParser<'a>,
    verb: Verb,
    setting: Setting,
    value: Value,
) -> Arg<'a>
    ensures rule { rule_of result ≡ option_of kind.entry setting value }
    ensures local { result.global ≡ false }
{
    let option = named(alloc, setting, meaning(verb, setting));
    match value {
        Value::Number { least, most, .. } => option
            .value_name("N")
            .value_parser(ValueParser::unsigned(least, most)),
        Value::Kind => option.value_name("KIND").value_parser(kind).required(true),
        Value::Nothing => option.action(ArgAction::SetTrue),
    }
}

/// A command without options.
fn bare<'a>(alloc: Global, verb: Verb) -> Command<'a>
    ensures app { app_of result ≡ new_app (word_of verb) }
    ensures local { (fields_of result).has_globals ≡ false }
{
    let command = Command::new(alloc, verb.name()).about(about(verb));
    match after(verb) {
        Some(text) => command.after_help(text),
        None => command,
    }
}

/// A command with one option more.
fn with_option<'a>(command: Command<'a>, option: Arg<'a>) -> Result<Command<'a>, AllocError>
    requires option { option.global ≡ false }
    ensures app { IfOk result (λ c. app_of c ≡ with_rule (app_of command.entry) (rule_of option.entry)) }
    ensures local { (fields_of command.entry).has_globals ≡ false → IfOk result (λ c. (fields_of c).has_globals ≡ false) }
{
    command.arg(option)
}

/// A command with one option more, where it takes that.
fn with_setting<'a>(
    alloc: Global,
    kind: ValueParser<'a>,
    verb: Verb,
    line: Command<'a>,
    setting: Setting,
) -> Result<Command<'a>, AllocError>
    ensures app { IfOk result (λ c. app_of c ≡ with_setting kind.entry verb (app_of line.entry) setting) }
    ensures local { (fields_of line.entry).has_globals ≡ false → IfOk result (λ c. (fields_of c).has_globals ≡ false) }
{
    match takes(verb, setting) {
        Some(value) => with_option(line, option_of(alloc, kind, verb, setting, value)),
        None => Ok(line),
    }
}

/// A command with those of these options that it takes.
fn with_settings<'a>(
    alloc: Global,
    kind: ValueParser<'a>,
    verb: Verb,
    settings: &[Setting],
) -> Result<Command<'a>, AllocError>
    ensures app { IfOk result (λ c. app_of c ≡ fold (with_setting kind.entry verb) (new_app (word_of verb)) settings.now) }
    ensures local { IfOk result (λ c. (fields_of c).has_globals ≡ false) }
{
    let mut line = bare(alloc, verb);
    for setting in settings {
        line = with_setting(alloc, kind, verb, line, *setting)?;
    }
    Ok(line)
}

/// The line of a command.
fn line_of<'a>(alloc: Global, kind: ValueParser<'a>, verb: Verb) -> Result<Command<'a>, AllocError>
    ensures app { IfOk result (λ c. app_of c ≡ line_of kind.entry verb) }
    ensures local { IfOk result (λ c. (fields_of c).has_globals ≡ false) }
{
    with_settings(alloc, kind, verb, SETTINGS.as_slice())
}

/// The program without its commands.
fn program<'a>(alloc: Global) -> Result<Command<'a>, AllocError>
    ensures app { IfOk result (λ c. app_of c ≡ program) }
{
    Command::new(alloc, "halts")
        .about(
            "Trading halts of US equities over a live input and a journal, whose path may be - for none",
        )
        .no_binary_name(true)
        .version(VERSION)
        .subcommand_required(true)
        .after_help(CODES)
        .bin_name("halts <journal>")
}

/// The program with one command more.
#[tactic(auto, unfolding(crate::specs::Line::with_command))]
fn with_command<'a>(
    alloc: Global,
    kind: ValueParser<'a>,
    halts: Command<'a>,
    verb: Verb,
) -> Result<Command<'a>, AllocError>
    ensures app { IfOk result (λ c. app_of c ≡ with_command kind.entry (app_of halts.entry) verb) }
{
    halts.subcommand(line_of(alloc, kind, verb)?)
}

/// The program with these commands.
fn with_commands<'a>(
    alloc: Global,
    kind: ValueParser<'a>,
    verbs: &[Verb],
) -> Result<Command<'a>, AllocError>
    ensures app { IfOk result (λ c. app_of c ≡ fold (with_command kind.entry) program verbs.now) }
{
    let mut halts = program(alloc)?;
    for verb in verbs {
        halts = with_command(alloc, kind, halts, *verb)?;
    }
    Ok(halts)
}

/// The whole command line, with the words for kinds of lines.
pub fn halts_line<'a>(alloc: Global, kinds: &'a [&'a str]) -> Result<Command<'a>, AllocError>
    ensures app { IfOk result (λ c. app_of c ≡ halts_line kinds.entry) }
{
    with_commands(alloc, ValueParser::Names(kinds), VERBS.as_slice())
}
