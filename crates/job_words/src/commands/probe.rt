// `probe`: the greatest depth at one point of a drawing.
ghost use Rattle.std.specs.Prelude.{◌≡◌, ◌++◌, IfOk, Some, None, Err, map, string_bytes};
ghost use Rattle.clap.specs.Words.{first_value, found_of};
ghost use Rattle.job_words.specs.Commands.Probe.{probe, probe_options, probe_request};
ghost use Rattle.job_words.specs.Options.{row_of};
ghost use Rattle.job_words.specs.Shape.{shape_options};
ghost use Rattle.job_words.specs.Request.{IsInRange, command_request};

use crate::fault::WordsFault;
use crate::found::{AT, BIT, LIMIT, RMAX, at_in, bit_in, limit_in, rmax_in};
use crate::options::{CommandOption, match_words};
use crate::request::Request;
use crate::shape::{of_drawing, shape_in};
use clap::ArgMatches;
use std::alloc::Global;

static OWN: [CommandOption; 4] = [AT, BIT, RMAX, LIMIT];

#[tactic(auto, unfolding(crate::specs::Commands::Probe::probe_options))]
fn own() -> &'static [CommandOption]
    ensures { map row_of result.now ++ shape_options ≡ probe_options }
{
    &OWN
}

/// What the words, of which the first is the command's name, ask for.
#[tactic(auto, unfolding(crate::specs::Request::command_request))]
pub fn read(alloc: Global, words: &[String]) -> Result<Request, WordsFault>
    ensures accepted { IfOk result (λ r. command_request probe (map string_bytes words.now) ≡ Some r) }
    ensures range { IfOk result IsInRange }
    ensures usage { result ≡ Err WordsFault.Usage → command_request probe (map string_bytes words.now) ≡ None }
{
    let found = match_words(alloc, own(), of_drawing(), words)?;
    read_values(alloc, &found)
}

#[tactic(auto, unfolding(crate::specs::Commands::Probe::probe_request))]
fn read_values(alloc: Global, found: &ArgMatches) -> Result<Request, WordsFault>
    ensures accepted { IfOk result (λ r. probe_request (first_value (found_of found.now)) ≡ Some r) }
    ensures range { IfOk result IsInRange }
    ensures usage { result ≡ Err WordsFault.Usage → probe_request (first_value (found_of found.now)) ≡ None }
{
    let at = at_in(found).ok_or(WordsFault::Usage)?;
    let bit = bit_in(found).ok_or(WordsFault::Usage)?;
    let rmax = rmax_in(found).ok_or(WordsFault::Usage)?;
    let limit = limit_in(found).ok_or(WordsFault::Usage)?;
    let shape = shape_in(alloc, found)?;
    Ok(Request::Probe {
        shape,
        at,
        bit,
        rmax,
        limit,
    })
}
