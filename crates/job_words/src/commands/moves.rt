// `moves`: the moves of a G-code program.
ghost use Rattle.std.specs.Prelude.{◌≡◌, IfOk, Some, None, Err, map, string_bytes};
ghost use Rattle.clap.specs.Words.{first_value, found_of};
ghost use Rattle.job_words.specs.Commands.Moves.{moves, moves_options, moves_request};
ghost use Rattle.job_words.specs.Options.{row_of};
ghost use Rattle.job_words.specs.Request.{IsInRange, command_request};

use crate::fault::WordsFault;
use crate::found::{CODE, UNITS, text_in, units_in};
use crate::options::{CommandOption, match_words};
use crate::request::Request;
use clap::ArgMatches;
use std::alloc::Global;

static OPTIONS: [CommandOption; 2] = [CODE, UNITS];

#[tactic(auto, unfolding(crate::specs::Commands::Moves::moves_options))]
fn options() -> &'static [CommandOption]
    ensures { map row_of result.now ≡ moves_options }
{
    &OPTIONS
}

/// What the words, of which the first is the command's name, ask for.
#[tactic(auto, unfolding(crate::specs::Request::command_request))]
pub fn read(alloc: Global, words: &[String]) -> Result<Request, WordsFault>
    ensures accepted { IfOk result (λ r. command_request moves (map string_bytes words.now) ≡ Some r) }
    ensures range { IfOk result IsInRange }
    ensures usage { result ≡ Err WordsFault.Usage → command_request moves (map string_bytes words.now) ≡ None }
{
    let found = match_words(alloc, options(), &[], words)?;
    read_values(alloc, &found)
}

#[tactic(auto, unfolding(crate::specs::Commands::Moves::moves_request))]
fn read_values(alloc: Global, found: &ArgMatches) -> Result<Request, WordsFault>
    ensures accepted { IfOk result (λ r. moves_request (first_value (found_of found.now)) ≡ Some r) }
    ensures range { IfOk result IsInRange }
    ensures usage { result ≡ Err WordsFault.Usage → moves_request (first_value (found_of found.now)) ≡ None }
{
    let units = units_in(found).ok_or(WordsFault::Usage)?;
    let code = text_in(alloc, found, "code")?;
    Ok(Request::Moves { code, units })
}
