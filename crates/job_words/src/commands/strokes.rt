// `strokes`: the G-code program that follows open lines at one depth.
ghost use Rattle.std.specs.Prelude.{◌≡◌, ◌++◌, IfOk, Some, None, Err, map, string_bytes};
ghost use Rattle.plane_exact.specs.Cone.{IsFromOneTo};
ghost use Rattle.clap.specs.Words.{first_value, found_of};
ghost use Rattle.job_words.specs.Commands.Strokes.{has_strokes, is_narrow, strokes, strokes_options, strokes_request};
ghost use Rattle.job_words.specs.Options.{row_of};
ghost use Rattle.job_words.specs.Shape.{shape_options};
ghost use Rattle.job_words.specs.Request.{IsInRange, command_request};

use crate::fault::WordsFault;
use crate::found::{
    BIT, DEPTH, FEED, PITCH, RMAX, SAFE, bit_in, depth_in, feed_in, pitch_in, rmax_in, safe_in,
};
use crate::options::{CommandOption, match_words};
use crate::request::{FormWord, Request};
use crate::shape::{of_drawing, shape_in};
use clap::ArgMatches;
use std::alloc::Global;

static OWN: [CommandOption; 6] = [BIT, RMAX, DEPTH, SAFE, FEED, PITCH];

#[tactic(auto, unfolding(crate::specs::Commands::Strokes::strokes_options))]
fn own() -> &'static [CommandOption]
    ensures { map row_of result.now ++ shape_options ≡ strokes_options }
{
    &OWN
}

/// What the words, of which the first is the command's name, ask for.
#[tactic(auto, unfolding(crate::specs::Request::command_request))]
pub fn read(alloc: Global, words: &[String]) -> Result<Request, WordsFault>
    ensures accepted { IfOk result (λ r. command_request strokes (map string_bytes words.now) ≡ Some r) }
    ensures range { IfOk result IsInRange }
    ensures usage { result ≡ Err WordsFault.Usage → command_request strokes (map string_bytes words.now) ≡ None }
{
    let found = match_words(alloc, own(), of_drawing(), words)?;
    read_values(alloc, &found)
}

#[tactic(auto, unfolding(crate::specs::Commands::Strokes::strokes_request))]
fn read_values(alloc: Global, found: &ArgMatches) -> Result<Request, WordsFault>
    ensures accepted { IfOk result (λ r. strokes_request (first_value (found_of found.now)) ≡ Some r) }
    ensures range { IfOk result IsInRange }
    ensures usage { result ≡ Err WordsFault.Usage → strokes_request (first_value (found_of found.now)) ≡ None }
{
    let bit = bit_in(found).ok_or(WordsFault::Usage)?;
    let rmax = rmax_in(found).ok_or(WordsFault::Usage)?;
    let depth = depth_in(found).ok_or(WordsFault::Usage)?;
    let safe = safe_in(found).ok_or(WordsFault::Usage)?;
    let feed = feed_in(found).ok_or(WordsFault::Usage)?;
    let pitch = pitch_in(found).ok_or(WordsFault::Usage)?;
    let shape = shape_in(alloc, found)?;
    if !has_strokes(shape.form) || !is_narrow(bit, rmax, depth) {
        return Err(WordsFault::Usage);
    }
    Ok(Request::Strokes {
        shape,
        bit,
        rmax,
        depth,
        safe,
        feed,
        pitch,
    })
}

/// Whether a drawing of this form may have open lines.
fn has_strokes(form: FormWord) -> bool
    ensures { result ≡ has_strokes form }
{
    matches!(form, FormWord::Dxf | FormWord::Cxf)
}

/// Whether the bit is no wider than its greatest radius at the depth.
fn is_narrow(bit: (u32, u32), rmax: u32, depth: u32) -> bool
    requires slope { IsFromOneTo 2000 bit.0 × IsFromOneTo 2000 bit.1 }
    requires rmax { IsFromOneTo 8191 rmax }
    requires depth { IsFromOneTo 32767 depth }
    ensures { result ≡ is_narrow bit rmax depth }
{
    bit.0 * depth <= bit.1 * rmax
}
