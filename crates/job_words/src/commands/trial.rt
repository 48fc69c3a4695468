// `trial`: a trial of the whole program on a drawing that it makes itself.
ghost use Rattle.std.specs.Prelude.{◌≡◌, IfOk, Some, None, Err, map, string_bytes};
ghost use Rattle.clap.specs.Words.{first_value, found_of};
ghost use Rattle.job_words.specs.Commands.Trial.{trial, trial_options, trial_request};
ghost use Rattle.job_words.specs.Options.{row_of};
ghost use Rattle.job_words.specs.Request.{IsInRange, command_request};

use crate::fault::WordsFault;
use crate::found::{COUNT, count_in};
use crate::options::{CommandOption, match_words};
use crate::request::Request;
use clap::ArgMatches;
use std::alloc::Global;

static OPTIONS: [CommandOption; 1] = [COUNT];

#[tactic(auto, unfolding(crate::specs::Commands::Trial::trial_options))]
fn options() -> &'static [CommandOption]
    ensures { map row_of result.now ≡ trial_options }
{
    &OPTIONS
}

/// What the words, of which the first is the command's name, ask for.
#[tactic(auto, unfolding(crate::specs::Request::command_request))]
pub fn read(alloc: Global, words: &[String]) -> Result<Request, WordsFault>
    ensures accepted { IfOk result (λ r. command_request trial (map string_bytes words.now) ≡ Some r) }
    ensures range { IfOk result IsInRange }
    ensures usage { result ≡ Err WordsFault.Usage → command_request trial (map string_bytes words.now) ≡ None }
{
    let found = match_words(alloc, options(), &[], words)?;
    read_values(&found)
}

#[tactic(auto, unfolding(crate::specs::Commands::Trial::trial_request))]
fn read_values(found: &ArgMatches) -> Result<Request, WordsFault>
    ensures accepted { IfOk result (λ r. trial_request (first_value (found_of found.now)) ≡ Some r) }
    ensures range { IfOk result IsInRange }
    ensures usage { result ≡ Err WordsFault.Usage → trial_request (first_value (found_of found.now)) ≡ None }
{
    let count = count_in(found).ok_or(WordsFault::Usage)?;
    Ok(Request::Trial { count })
}
