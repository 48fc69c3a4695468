// `flatten`: the drawing in loops form.
ghost use Rattle.std.specs.Prelude.{◌≡◌, IfOk, Some, None, Err, map, string_bytes};
ghost use Rattle.clap.specs.Words.{first_value, found_of};
ghost use Rattle.job_words.specs.Commands.Flatten.{flatten, flatten_options, flatten_request};
ghost use Rattle.job_words.specs.Request.{IsInRange, command_request};

use crate::fault::WordsFault;
use crate::options::match_words;
use crate::request::Request;
use crate::shape::{of_drawing, shape_in};
use clap::ArgMatches;
use std::alloc::Global;

/// What the words, of which the first is the command's name, ask for.
#[tactic(auto, unfolding(crate::specs::Request::command_request, crate::specs::Commands::Flatten::flatten_options))]
pub fn read(alloc: Global, words: &[String]) -> Result<Request, WordsFault>
    ensures accepted { IfOk result (λ r. command_request flatten (map string_bytes words.now) ≡ Some r) }
    ensures range { IfOk result IsInRange }
    ensures usage { result ≡ Err WordsFault.Usage → command_request flatten (map string_bytes words.now) ≡ None }
{
    let found = match_words(alloc, &[], of_drawing(), words)?;
    read_values(alloc, &found)
}

#[tactic(auto, unfolding(crate::specs::Commands::Flatten::flatten_request))]
fn read_values(alloc: Global, found: &ArgMatches) -> Result<Request, WordsFault>
    ensures accepted { IfOk result (λ r. flatten_request (first_value (found_of found.now)) ≡ Some r) }
    ensures range { IfOk result IsInRange }
    ensures usage { result ≡ Err WordsFault.Usage → flatten_request (first_value (found_of found.now)) ≡ None }
{
    let shape = shape_in(alloc, found)?;
    Ok(Request::Flatten { shape })
}
