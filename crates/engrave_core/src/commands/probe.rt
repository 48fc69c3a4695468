// `probe`: the greatest depth at one point of a drawing.
ghost use Rattle.std.specs.Prelude.{IfOk, IfErr, string_bytes};
ghost use Rattle.plane_exact.specs.Cone.{IsFromOneTo};
ghost use Rattle.job_words.specs.Shape.{IsShapeInRange};
ghost use Rattle.engrave_core.specs.Commands.Probe.{IsDueOfProbe, IsProbeText, IsRefusalOfProbe};
ghost use Rattle.engrave_core.specs.Given.{IsReported};
ghost use Rattle.engrave_core.specs.Stored.{AnswersFrom};
ghost use Rattle.engrave_core.specs.Outcome.{outcome_of};

use crate::drawing::load_drawing;
use crate::refusal::Refusal;
use depth_rule::{Scene, greatest_depth};
use job_words::DrawingWords;
use plane_exact::{Bit, Point};
use shop_port::Depot;
use std::alloc::{AllocError, Global};

/// The text of the greatest depth at the point, or the refusal of the drawing.
pub fn run<D: Depot>(
    alloc: Global,
    shape: &DrawingWords,
    at: Point,
    bit: &Bit,
    limit: u32,
    depot: &mut D,
) -> Result<Vec<u8>, Refusal>
    requires shape { IsShapeInRange shape.now }
    requires limit { IsFromOneTo 32767 limit }
    ensures value { AnswersFrom D.held D.faults D.misses depot.old depot.new
        (λ files. IsReported (IsDueOfProbe files shape.now at bit.now limit)) result }
    ensures refusal { IfErr result (λ refusal. IsRefusalOfProbe shape.now (outcome_of refusal)) }
{
    let loaded = load_drawing(alloc, shape, depot)?;
    Ok(depth_text(alloc, &loaded.scene, at, bit, limit)?.into_bytes())
}

/// `depth Z`, the greatest depth at the point of the drawing.
fn depth_text(
    alloc: Global,
    scene: &Scene,
    at: Point,
    bit: &Bit,
    limit: u32,
) -> Result<String, AllocError>
    requires { IsFromOneTo 32767 limit }
    ensures { IfOk result (λ text. IsProbeText at bit.now limit scene.now (string_bytes text)) }
{
    let depth = greatest_depth(scene, at, bit, limit);
    format!(in alloc; "depth {depth}\n")
}
