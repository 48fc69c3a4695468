// `strokes`: the G-code program that follows open lines at one depth.
ghost use Rattle.std.specs.Prelude.{◌≡◌, ◌≤◌, IfErr, length, true};
ghost use Rattle.coverage_report.specs.declared.cover.TheConstants.{MOST_PITCH};
ghost use Rattle.engrave_model.specs.declared.TheConstants.{MOST_EDGES};
ghost use Rattle.gcode_text.specs.Path.{IsJob};
ghost use Rattle.job_words.specs.Commands.Strokes.{has_strokes};
ghost use Rattle.job_words.specs.Shape.{IsShapeInRange};
ghost use Rattle.plane_exact.specs.Cone.{IsFromOneTo};
ghost use Rattle.plane_exact.specs.declared.moves.TheConstants.{MOST_DEPTH};
ghost use Rattle.engrave_core.specs.Commands.Strokes.{IsDueOfStrokes, IsEngravedOrRefused, IsRefusalOfStrokes};
ghost use Rattle.engrave_core.specs.Given.{IsReported};
ghost use Rattle.engrave_core.specs.Outcome.{outcome_of};
ghost use Rattle.engrave_core.specs.Refusals.{IsRefusalOfReport};
ghost use Rattle.engrave_core.specs.Stored.{AnswersFrom};

use crate::drawing::load_strokes;
use crate::refusal::Refusal;
use carve_plan::in_order;
use coverage_report::MOST_PITCH;
use engrave_model::MOST_EDGES;
use gcode_text::{Job, write_strokes};
use job_words::DrawingWords;
use path_order::order;
use plane_exact::{MOST_DEPTH, Seg};
use shop_port::Depot;
use std::alloc::Global;
use stroke_engrave::{stroke_chains, stroke_cut};

/// The program, or the refusal of the strokes or of too many points.
pub fn run<D: Depot>(
    alloc: Global,
    shape: &DrawingWords,
    job: &Job,
    depth: u32,
    pitch: u32,
    depot: &mut D,
) -> Result<Vec<u8>, Refusal>
    requires shape { IsShapeInRange shape.now }
    requires form { has_strokes shape.now.form ≡ true }
    requires job { IsJob job.now }
    requires depth { IsFromOneTo MOST_DEPTH depth }
    requires pitch { IsFromOneTo MOST_PITCH pitch }
    ensures value { AnswersFrom D.held D.faults D.misses depot.old depot.new
        (λ files. IsReported (IsDueOfStrokes files shape.now job.now depth pitch)) result }
    ensures refusal { IfErr result (λ refusal. IsRefusalOfStrokes shape.now (outcome_of refusal)) }
{
    let strokes = load_strokes(alloc, shape, depot)?;
    text_of(alloc, &strokes, job, depth, pitch)
}

/// The text of the program.
// Apart from `run`, since it reads no file.
fn text_of(
    alloc: Global,
    strokes: &[Seg],
    job: &Job,
    depth: u32,
    pitch: u32,
) -> Result<Vec<u8>, Refusal>
    requires few { length strokes.now ≤ MOST_EDGES }
    requires job { IsJob job.now }
    requires depth { IsFromOneTo MOST_DEPTH depth }
    requires pitch { IsFromOneTo MOST_PITCH pitch }
    ensures value { IsReported (IsEngravedOrRefused job.now depth pitch strokes.now) result }
    ensures refusal { IfErr result (λ refusal. IsRefusalOfReport (outcome_of refusal)) }
{
    let chains = stroke_chains(alloc, strokes, depth)?;
    let numbers = order(alloc, &chains)?;
    let ordered = in_order(alloc, chains, &numbers)?;
    let (cut, points) = stroke_cut(alloc, strokes, &job.bit, depth, pitch)?;
    let number = strokes.len() as u32;
    let text = write_strokes(alloc, job, number, depth, &ordered, cut, points)?;
    Ok(text)
}
