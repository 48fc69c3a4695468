// `cover`: the report on what a G-code program leaves uncut of a drawing.
ghost use Rattle.std.specs.Prelude.{◌≡◌, IfOk, IfErr};
ghost use Rattle.coverage_report.specs.declared.cover.TheConstants.{MOST_PITCH};
ghost use Rattle.plane_exact.specs.Cone.{IsFromOneTo};
ghost use Rattle.job_words.specs.Shape.{IsShapeInRange};
ghost use Rattle.engrave_core.specs.Commands.Cover.{IsCoveredOrRefused, IsDueOfCover, IsRefusalOfCover, cover_text};
ghost use Rattle.engrave_core.specs.Given.{IsReported};
ghost use Rattle.engrave_core.specs.Outcome.{outcome_of};
ghost use Rattle.engrave_core.specs.Refusals.{IsRefusalOfReport};
ghost use Rattle.engrave_core.specs.Stored.{AnswersFrom};

use crate::drawing::load_drawing;
use crate::files::load_code;
use crate::refusal::Refusal;
use coverage_report::{MOST_PITCH, uncut};
use depth_rule::Scene;
use gcode_text::{Subject, write_report};
use job_words::{DrawingWords, Text};
use plane_exact::{Bit, LineMove, Uncut};
use shop_port::Depot;
use std::alloc::{AllocError, Global};

/// The report, or the refusal of the drawing, of the program or of the report.
pub fn run<D: Depot>(
    alloc: Global,
    shape: &DrawingWords,
    code: &Text,
    bit: &Bit,
    pitch: u32,
    depot: &mut D,
) -> Result<Vec<u8>, Refusal>
    requires shape { IsShapeInRange shape.now }
    requires pitch { IsFromOneTo MOST_PITCH pitch }
    ensures value { AnswersFrom D.held D.faults D.misses depot.old depot.new
        (λ files. IsReported (IsDueOfCover files shape.now code.now bit.now pitch)) result }
    ensures refusal { IfErr result (λ refusal. IsRefusalOfCover shape.now (outcome_of refusal)) }
{
    let loaded = load_drawing(alloc, shape, depot)?;
    let moves = load_code(alloc, code.as_str(), shape.units, depot)?;
    report_text(alloc, &loaded.scene, bit, &moves, pitch)
}

/// The report on the moves.
// Apart from `run`, since it reads no file.
fn report_text(
    alloc: Global,
    scene: &Scene,
    bit: &Bit,
    moves: &[LineMove],
    pitch: u32,
) -> Result<Vec<u8>, Refusal>
    requires { IsFromOneTo MOST_PITCH pitch }
    ensures value { IsReported (IsCoveredOrRefused bit.now pitch scene.now moves.now) result }
    ensures refusal { IfErr result (λ refusal. IsRefusalOfReport (outcome_of refusal)) }
{
    let uncut = uncut(alloc, scene, bit, moves, pitch)?;
    Ok(lines_of(alloc, &uncut)?)
}

fn lines_of(alloc: Global, uncut: &Uncut) -> Result<Vec<u8>, AllocError>
    ensures { IfOk result (λ text. text.items ≡ cover_text uncut.now) }
{
    let mut text = Vec::new(alloc);
    write_report(Subject::Uncut, uncut, "", "\n", &mut text)?;
    Ok(text)
}
