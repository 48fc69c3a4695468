// `repair`: a G-code program in which moves that leave the drawing have become lifts.
ghost use Rattle.std.specs.Prelude.{◌≡◌, ◌++◌, IfOk, Some, None, Err, map, string_bytes};
ghost use Rattle.clap.specs.Words.{first_value, found_of};
ghost use Rattle.job_words.specs.Commands.Repair.{repair, repair_options, repair_request};
ghost use Rattle.job_words.specs.Options.{row_of};
ghost use Rattle.job_words.specs.Shape.{shape_options};
ghost use Rattle.job_words.specs.Request.{IsInRange, command_request};

use crate::fault::WordsFault;
use crate::found::{BIT, CODE, FEED, RMAX, SAFE, bit_in, feed_in, rmax_in, safe_in, text_in};
use crate::options::{CommandOption, match_words};
use crate::request::Request;
use crate::shape::{of_drawing, shape_in};
use clap::ArgMatches;
use std::alloc::Global;

static OWN: [CommandOption; 5] = [BIT, RMAX, SAFE, FEED, CODE];

#[tactic(auto, unfolding(crate::specs::Commands::Repair::repair_options))]
fn own() -> &'static [CommandOption]
    ensures { map row_of result.now ++ shape_options ≡ repair_options }
{
    &OWN
}

/// What the words, of which the first is the command's name, ask for.
#[tactic(auto, unfolding(crate::specs::Request::command_request))]
pub fn read(alloc: Global, words: &[String]) -> Result<Request, WordsFault>
    ensures accepted { IfOk result (λ r. command_request repair (map string_bytes words.now) ≡ Some r) }
    ensures range { IfOk result IsInRange }
    ensures usage { result ≡ Err WordsFault.Usage → command_request repair (map string_bytes words.now) ≡ None }
{
    let found = match_words(alloc, own(), of_drawing(), words)?;
    read_values(alloc, &found)
}

#[tactic(auto, unfolding(crate::specs::Commands::Repair::repair_request))]
fn read_values(alloc: Global, found: &ArgMatches) -> Result<Request, WordsFault>
    ensures accepted { IfOk result (λ r. repair_request (first_value (found_of found.now)) ≡ Some r) }
    ensures range { IfOk result IsInRange }
    ensures usage { result ≡ Err WordsFault.Usage → repair_request (first_value (found_of found.now)) ≡ None }
{
    let bit = bit_in(found).ok_or(WordsFault::Usage)?;
    let rmax = rmax_in(found).ok_or(WordsFault::Usage)?;
    let safe = safe_in(found).ok_or(WordsFault::Usage)?;
    let feed = feed_in(found).ok_or(WordsFault::Usage)?;
    let shape = shape_in(alloc, found)?;
    let code = text_in(alloc, found, "code")?;
    Ok(Request::Repair {
        shape,
        code,
        bit,
        rmax,
        safe,
        feed,
    })
}
