// `carve`: the G-code program of the drawing's plan, with the report on what it leaves uncut.
ghost use Rattle.std.specs.Prelude.{◌≡◌, IfErr, IfSome};
ghost use Rattle.cleanup_pocket.specs.declared.pockets.TheConstants.{MOST_OVER};
ghost use Rattle.coverage_report.specs.declared.cover.TheConstants.{MOST_PITCH};
ghost use Rattle.gcode_text.specs.Path.{IsJob};
ghost use Rattle.plane_exact.specs.Cone.{IsFromOneTo};
ghost use Rattle.job_words.specs.Shape.{IsShapeInRange};
ghost use Rattle.engrave_core.specs.Commands.Carve.{IsCarvedOrRefused, IsDueOfCarve, IsRefusalOfCarve, pocket_of};
ghost use Rattle.engrave_core.specs.Given.{IsReported};
ghost use Rattle.engrave_core.specs.Outcome.{outcome_of};
ghost use Rattle.engrave_core.specs.Programs.{IsRefusalOfProgram};
ghost use Rattle.engrave_core.specs.Stored.{AnswersFrom};

use crate::drawing::load_drawing;
use crate::program::program_of;
use crate::refusal::Refusal;
use cleanup_pocket::{MOST_OVER, Way};
use coverage_report::MOST_PITCH;
use depth_rule::Scene;
use gcode_text::Job;
use job_words::{DrawingWords, PocketWord};
use shop_port::Depot;
use std::alloc::Global;

/// The program, or the refusal of the drawing, of its plan or of the report.
pub fn run<D: Depot>(
    alloc: Global,
    shape: &DrawingWords,
    job: &Job,
    pitch: u32,
    pockets: Option<(Way, u32)>,
    depot: &mut D,
) -> Result<Vec<u8>, Refusal>
    requires shape { IsShapeInRange shape.now }
    requires job { IsJob job.now }
    requires pitch { IsFromOneTo MOST_PITCH pitch }
    requires over { IfSome pockets (λ asked. IsFromOneTo MOST_OVER asked.1) }
    ensures value { AnswersFrom D.held D.faults D.misses depot.old depot.new
        (λ files. IsReported (IsDueOfCarve files shape.now job.now pitch pockets)) result }
    ensures refusal { IfErr result (λ refusal. IsRefusalOfCarve shape.now (outcome_of refusal)) }
{
    let loaded = load_drawing(alloc, shape, depot)?;
    text_of(alloc, &loaded.scene, job, pitch, pockets)
}

/// The text of the program.
// Apart from `run`, since it reads no file.
fn text_of(
    alloc: Global,
    scene: &Scene,
    job: &Job,
    pitch: u32,
    pockets: Option<(Way, u32)>,
) -> Result<Vec<u8>, Refusal>
    requires job { IsJob job.now }
    requires pitch { IsFromOneTo MOST_PITCH pitch }
    requires over { IfSome pockets (λ asked. IsFromOneTo MOST_OVER asked.1) }
    ensures value { IsReported (IsCarvedOrRefused job.now pitch pockets scene.now) result }
    ensures refusal { IfErr result (λ refusal. IsRefusalOfProgram (outcome_of refusal)) }
{
    match program_of(alloc, scene, job, pitch, pockets) {
        Ok(program) => Ok(program.text),
        Err(refusal) => Err(refusal),
    }
}

/// The pocket that the words ask for.
pub fn pocket_of(word: PocketWord, over: u32) -> Option<(Way, u32)>
    ensures { result ≡ pocket_of word over }
{
    match word {
        PocketWord::NoPocket => None,
        PocketWord::X => Some((Way::X, over)),
        PocketWord::Y => Some((Way::Y, over)),
        PocketWord::Both => Some((Way::Both, over)),
    }
}
