//! The command of a line that `clap` took.

ghost use Rattle.std.specs.Prelude.{◌≡◌, IfSome, Some, fold, option_map};
ghost use Rattle.clap.specs.Words.{found_of, first_of, rows_of, subcommand_rows_of};
ghost use Rattle.words_core.specs.Commands.{IsInRange};
ghost use Rattle.words_core.specs.Plain.{IsWithin, no_options};
ghost use Rattle.words_core.specs.Asked.{with_found, command_from, command_found};

use crate::command::{Command, Verb};
use crate::options::{Options, no_options};
use crate::setting::{SETTINGS, Setting};
use clap::ArgMatches;

/// The first value of an option, as text.
fn text_of<'a>(found: &ArgMatches<'a>, id: &str) -> Option<&'a str>
    ensures { option_map (λ s. s.now) result ≡ first_of id.now (rows_of (found_of found.now)) }
{
    found.get_str(id)
}

/// The options with one more, where the command takes it and it was found.
#[tactic(auto, unfolding(crate::specs::Asked::with_found))]
fn with_found(
    verb: Verb,
    found: &ArgMatches<'_>,
    given: Option<Options>,
    setting: Setting,
) -> Option<Options>
    requires { IfSome given (IsWithin verb) }
    ensures exact { result ≡ with_found verb (rows_of (found_of found.now)) given setting }
    ensures range { IfSome result (IsWithin verb) }
{
    let given = given?;
    given.with_any(verb, setting, text_of(found, setting.name()))
}

/// Those of these options that were found.
fn options_found(verb: Verb, found: &ArgMatches<'_>, settings: &[Setting]) -> Option<Options>
    ensures exact { result ≡ fold (with_found verb (rows_of (found_of found.now))) (Some no_options) settings.now }
    ensures range { IfSome result (IsWithin verb) }
{
    let mut given = Some(no_options());
    for setting in settings {
        given = with_found(verb, found, given, *setting);
    }
    given
}

fn command_from(verb: Verb, found: &ArgMatches<'_>) -> Option<Command>
    ensures exact { result ≡ command_from verb (rows_of (found_of found.now)) }
    ensures range { IfSome result IsInRange }
{
    let given = options_found(verb, found, SETTINGS.as_slice())?;
    given.command(verb)
}

/// The command of a line that was taken.
pub fn command_found(found: &ArgMatches<'_>) -> Option<Command>
    ensures exact { result ≡ command_found (subcommand_rows_of found.now) }
    ensures range { IfSome result IsInRange }
{
    let (name, options) = found.subcommand()?;
    command_from(Verb::of(name)?, options)
}
