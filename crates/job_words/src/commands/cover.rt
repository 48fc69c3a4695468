// `cover`: what a G-code program leaves uncut of a drawing.
ghost use Rattle.std.specs.Prelude.{◌≡◌, ◌++◌, IfOk, Some, None, Err, map, string_bytes};
ghost use Rattle.clap.specs.Words.{first_value, found_of};
ghost use Rattle.job_words.specs.Commands.Cover.{cover, cover_options, cover_request};
ghost use Rattle.job_words.specs.Options.{row_of};
ghost use Rattle.job_words.specs.Shape.{shape_options};
ghost use Rattle.job_words.specs.Request.{IsInRange, command_request};

use crate::fault::WordsFault;
use crate::found::{BIT, CODE, PITCH, RMAX, bit_in, pitch_in, rmax_in, text_in};
use crate::options::{CommandOption, match_words};
use crate::request::Request;
use crate::shape::{of_drawing, shape_in};
use clap::ArgMatches;
use std::alloc::Global;

static OWN: [CommandOption; 4] = [BIT, RMAX, PITCH, CODE];

#[tactic(auto, unfolding(crate::specs::Commands::Cover::cover_options))]
fn own() -> &'static [CommandOption]
    ensures { map row_of result.now ++ shape_options ≡ cover_options }
{
    &OWN
}

/// What the words, of which the first is the command's name, ask for.
#[tactic(auto, unfolding(crate::specs::Request::command_request))]
pub fn read(alloc: Global, words: &[String]) -> Result<Request, WordsFault>
    ensures accepted { IfOk result (λ r. command_request cover (map string_bytes words.now) ≡ Some r) }
    ensures range { IfOk result IsInRange }
    ensures usage { result ≡ Err WordsFault.Usage → command_request cover (map string_bytes words.now) ≡ None }
{
    let found = match_words(alloc, own(), of_drawing(), words)?;
    read_values(alloc, &found)
}

#[tactic(auto, unfolding(crate::specs::Commands::Cover::cover_request))]
fn read_values(alloc: Global, found: &ArgMatches) -> Result<Request, WordsFault>
    ensures accepted { IfOk result (λ r. cover_request (first_value (found_of found.now)) ≡ Some r) }
    ensures range { IfOk result IsInRange }
    ensures usage { result ≡ Err WordsFault.Usage → cover_request (first_value (found_of found.now)) ≡ None }
{
    let bit = bit_in(found).ok_or(WordsFault::Usage)?;
    let rmax = rmax_in(found).ok_or(WordsFault::Usage)?;
    let pitch = pitch_in(found).ok_or(WordsFault::Usage)?;
    let shape = shape_in(alloc, found)?;
    let code = text_in(alloc, found, "code")?;
    Ok(Request::Cover {
        shape,
        code,
        bit,
        rmax,
        pitch,
    })
}
