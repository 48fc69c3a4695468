// `flat`: the G-code program by which a flat bit mills the floor.
ghost use Rattle.std.specs.Prelude.{◌≡◌, ◌≤◌, IfErr};
ghost use Rattle.cleanup_pocket.specs.declared.pockets.TheConstants.{MOST_OVER};
ghost use Rattle.coverage_report.specs.declared.cover.TheConstants.{MOST_PITCH};
ghost use Rattle.gcode_text.specs.Path.{IsJob};
ghost use Rattle.job_words.specs.Shape.{IsShapeInRange};
ghost use Rattle.plane_exact.specs.Cone.{IsFromOneTo};
ghost use Rattle.plane_exact.specs.declared.bit.TheConstants.{MOST_RADIUS};
ghost use Rattle.engrave_core.specs.Commands.Flat.{IsDueOfFlat, IsMilledOrRefused, IsRefusalOfFlat, lines_of};
ghost use Rattle.engrave_core.specs.Given.{IsReported};
ghost use Rattle.engrave_core.specs.Outcome.{outcome_of};
ghost use Rattle.engrave_core.specs.Refusals.{IsRefusalOfMilling};
ghost use Rattle.engrave_core.specs.Stored.{AnswersFrom};

use crate::drawing::load_drawing;
use crate::refusal::Refusal;
use carve_plan::in_order;
use cleanup_pocket::{MOST_OVER, Way};
use coverage_report::MOST_PITCH;
use depth_rule::Scene;
use flat_bit::{flat, floor_left};
use gcode_text::{Job, write_flat};
use job_words::{DrawingWords, PocketWord};
use path_order::order;
use plane_exact::MOST_RADIUS;
use shop_port::Depot;
use std::alloc::Global;

/// How a floor is milled.
#[derive(Clone, Copy, Debug, PartialEq, Eq)]
pub struct Milling {
    /// The radius of the flat bit, in grid units, from 1 to 8191.
    pub radius: u32,
    /// The distance of the lines, in grid units, from 1 to 8191.
    pub over: u32,
    /// Which lines: rows, columns, or both.
    pub way: Way,
}

/// The program, or the refusal of the drawing, of too many chains or of too many points.
pub fn run<D: Depot>(
    alloc: Global,
    shape: &DrawingWords,
    job: &Job,
    milling: &Milling,
    pitch: u32,
    depot: &mut D,
) -> Result<Vec<u8>, Refusal>
    requires shape { IsShapeInRange shape.now }
    requires job { IsJob job.now }
    requires radius { IsFromOneTo MOST_RADIUS milling.now.radius }
    requires over { IsFromOneTo MOST_OVER milling.now.over }
    requires pitch { IsFromOneTo MOST_PITCH pitch }
    ensures value { AnswersFrom D.held D.faults D.misses depot.old depot.new
        (λ files. IsReported (IsDueOfFlat files shape.now job.now milling.now pitch)) result }
    ensures refusal { IfErr result (λ refusal. IsRefusalOfFlat shape.now (outcome_of refusal)) }
{
    let loaded = load_drawing(alloc, shape, depot)?;
    text_of(alloc, &loaded.scene, job, milling, pitch)
}

/// The text of the program.
// Apart from `run`, since it reads no file.
fn text_of(
    alloc: Global,
    scene: &Scene,
    job: &Job,
    milling: &Milling,
    pitch: u32,
) -> Result<Vec<u8>, Refusal>
    requires job { IsJob job.now }
    requires radius { IsFromOneTo MOST_RADIUS milling.now.radius }
    requires over { IsFromOneTo MOST_OVER milling.now.over }
    requires pitch { IsFromOneTo MOST_PITCH pitch }
    ensures value { IsReported (IsMilledOrRefused job.now milling.now pitch scene.now) result }
    ensures refusal { IfErr result (λ refusal. IsRefusalOfMilling (outcome_of refusal)) }
{
    let Milling { radius, over, way } = *milling;
    // That the bit has some width is known from its slope.
    let _slope = (job.bit.sn(), job.bit.sd());
    let chains = flat(alloc, scene, &job.bit, job.limit, radius, over, way)?;
    let numbers = order(alloc, &chains)?;
    let ordered = in_order(alloc, chains, &numbers)?;
    let left = floor_left(alloc, scene, &job.bit, job.limit, radius, &ordered, pitch)?;
    let text = write_flat(alloc, job, radius, &ordered, &left)?;
    Ok(text)
}

/// By which lines the words ask for the floor to be milled.
pub fn lines_of(word: PocketWord) -> Way
    ensures { result ≡ lines_of word }
{
    match word {
        PocketWord::NoPocket | PocketWord::X => Way::X,
        PocketWord::Y => Way::Y,
        PocketWord::Both => Way::Both,
    }
}
