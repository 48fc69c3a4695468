// `flat`: the G-code program by which a flat bit mills the floor.
ghost use Rattle.std.specs.Prelude.{◌≡◌, ◌++◌, IfOk, Some, None, Err, map, string_bytes};
ghost use Rattle.clap.specs.Words.{first_value, found_of};
ghost use Rattle.job_words.specs.Commands.Flat.{flat, flat_options, flat_request, has_lines};
ghost use Rattle.job_words.specs.Options.{row_of};
ghost use Rattle.job_words.specs.Shape.{shape_options};
ghost use Rattle.job_words.specs.Request.{IsInRange, command_request};

use crate::fault::WordsFault;
use crate::found::{
    BIT, FEED, LIMIT, OVER, PITCH, POCKET, RADIUS, RMAX, SAFE, bit_in, feed_in, limit_in, lines_in,
    over_in, pitch_in, radius_in, rmax_in, safe_in,
};
use crate::options::{CommandOption, match_words};
use crate::request::{PocketWord, Request};
use crate::shape::{of_drawing, shape_in};
use clap::ArgMatches;
use std::alloc::Global;

static OWN: [CommandOption; 9] = [BIT, RMAX, RADIUS, LIMIT, OVER, SAFE, FEED, PITCH, POCKET];

#[tactic(auto, unfolding(crate::specs::Commands::Flat::flat_options))]
fn own() -> &'static [CommandOption]
    ensures { map row_of result.now ++ shape_options ≡ flat_options }
{
    &OWN
}

/// What the words, of which the first is the command's name, ask for.
#[tactic(auto, unfolding(crate::specs::Request::command_request))]
pub fn read(alloc: Global, words: &[String]) -> Result<Request, WordsFault>
    ensures accepted { IfOk result (λ r. command_request flat (map string_bytes words.now) ≡ Some r) }
    ensures range { IfOk result IsInRange }
    ensures usage { result ≡ Err WordsFault.Usage → command_request flat (map string_bytes words.now) ≡ None }
{
    let found = match_words(alloc, own(), of_drawing(), words)?;
    read_values(alloc, &found)
}

#[tactic(auto, unfolding(crate::specs::Commands::Flat::flat_request))]
fn read_values(alloc: Global, found: &ArgMatches) -> Result<Request, WordsFault>
    ensures accepted { IfOk result (λ r. flat_request (first_value (found_of found.now)) ≡ Some r) }
    ensures range { IfOk result IsInRange }
    ensures usage { result ≡ Err WordsFault.Usage → flat_request (first_value (found_of found.now)) ≡ None }
{
    let bit = bit_in(found).ok_or(WordsFault::Usage)?;
    let rmax = rmax_in(found).ok_or(WordsFault::Usage)?;
    let radius = radius_in(found).ok_or(WordsFault::Usage)?;
    let limit = limit_in(found).ok_or(WordsFault::Usage)?;
    let over = over_in(found).ok_or(WordsFault::Usage)?;
    let safe = safe_in(found).ok_or(WordsFault::Usage)?;
    let feed = feed_in(found).ok_or(WordsFault::Usage)?;
    let pitch = pitch_in(found).ok_or(WordsFault::Usage)?;
    let pocket = lines_in(found).ok_or(WordsFault::Usage)?;
    let shape = shape_in(alloc, found)?;
    if !has_lines(pocket) {
        return Err(WordsFault::Usage);
    }
    Ok(Request::Flat {
        shape,
        bit,
        rmax,
        radius,
        limit,
        over,
        safe,
        feed,
        pitch,
        pocket,
    })
}

/// Whether the word asks for rows or columns.
fn has_lines(pocket: PocketWord) -> bool
    ensures { result ≡ has_lines pocket }
{
    !matches!(pocket, PocketWord::NoPocket)
}
