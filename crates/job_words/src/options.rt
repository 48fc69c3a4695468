// Options of the form `--name=value` or `--name value`, read by `clap`.
ghost use Rattle.std.specs.Prelude.{◌≡◌, ◌≢◌, ◌++◌, ℕ, List, [], IfOk, map, string_bytes, true, false, Err};
ghost use Rattle.clap.specs.Words.{app_of, first_value, found_of, kind_of, rule_of};
ghost use Rattle.job_words.specs.Options.{OptionRow, row_of, option_rule, options_app, is_accepted, value_in};

use crate::fault::WordsFault;
use clap::error::ErrorKind;
use clap::{Arg, ArgAction, ArgMatches, Command, Error};
use std::alloc::{AllocError, Global};

/// An option of a command. It takes one value and is given at most once.
#[derive(Clone, Copy, Debug)]
pub struct CommandOption {
    pub name: &'static str,
    /// Whether the option is required among the words.
    pub required: bool,
}

/// The values of the options among the words, of which the first is the command's name. The command has options of its own,
/// and then those of its drawing, if it has one.
pub fn match_words<'a>(
    alloc: Global,
    own: &[CommandOption],
    of_drawing: &[CommandOption],
    words: &'a [String],
) -> Result<ArgMatches<'a>, WordsFault>
    ensures accepted { IfOk result (λ m.
        is_accepted (map row_of own.now ++ map row_of of_drawing.now) (map string_bytes words.entry.now) ≡ true) }
    ensures values { IfOk result (λ m. (name : List ℕ) → first_value (found_of m) name
        ≡ value_in (map row_of own.now ++ map row_of of_drawing.now) (map string_bytes words.entry.now) name) }
    ensures usage { result ≡ Err WordsFault.Usage
        → is_accepted (map row_of own.now ++ map row_of of_drawing.now) (map string_bytes words.entry.now) ≡ false }
{
    let command = command_with(alloc, own, of_drawing)?;
    match command.try_get_matches_from(words) {
        Ok(matches) => Ok(matches),
        Err(error) => Err(words_fault(&error)),
    }
}

/// Memory ran out, or else the words aren't accepted.
fn words_fault(error: &Error) -> WordsFault
    ensures { result ≡ WordsFault.Usage → kind_of error.now ≢ ErrorKind.OutOfMemory }
{
    if error.kind() == ErrorKind::OutOfMemory {
        WordsFault::Memory
    } else {
        WordsFault::Usage
    }
}

/// A command with these options, without help, version and positional arguments.
fn command_with<'a>(
    alloc: Global,
    own: &[CommandOption],
    of_drawing: &[CommandOption],
) -> Result<Command<'a>, AllocError>
    ensures { IfOk result (λ c. app_of c ≡ options_app (map row_of own.now ++ map row_of of_drawing.now)) }
{
    with_options(
        alloc,
        with_options(alloc, bare_command(alloc), own)?,
        of_drawing,
    )
}

/// A command without options.
fn bare_command<'a>(alloc: Global) -> Command<'a>
    ensures { app_of result ≡ options_app [] }
{
    Command::new(alloc, "engrave")
        .disable_help_flag(true)
        .disable_version_flag(true)
}

/// The command with more options.
fn with_options<'a>(
    alloc: Global,
    command: Command<'a>,
    options: &[CommandOption],
) -> Result<Command<'a>, AllocError>
    ensures { IfOk result (λ c. (before : List OptionRow) → app_of command.entry ≡ options_app before
        → app_of c ≡ options_app (before ++ map row_of options.now)) }
{
    let mut longer = command;
    for option in options {
        longer = longer.arg(argument_of(alloc, option))?;
    }
    Ok(longer)
}

/// `--name`, with one value each time it is given.
fn argument_of<'a>(alloc: Global, option: &CommandOption) -> Arg<'a>
    ensures rule { rule_of result ≡ option_rule (row_of option.now) }
    ensures local { result.global ≡ false }
{
    Arg::new(alloc, option.name)
        .long(option.name)
        .action(ArgAction::Set)
        .required(option.required)
}
