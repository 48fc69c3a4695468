// `repair`: a G-code program in which moves that aren't clear for a drawing have become lifts.
ghost use Rattle.std.specs.Prelude.{◌≤◌, IfErr, length};
ghost use Rattle.gcode_text.specs.Following.{AreFollowing};
ghost use Rattle.gcode_text.specs.declared.job.TheConstants.{MOST_FEED, MOST_SAFE_HEIGHT};
ghost use Rattle.gcode_text.specs.declared.modal.TheConstants.{MOST_MOVES};
ghost use Rattle.plane_exact.specs.Cone.{IsFromOneTo};
ghost use Rattle.job_words.specs.Shape.{IsShapeInRange};
ghost use Rattle.engrave_core.specs.Commands.Repair.{IsDueOfRepair, IsMendedOrRefused, IsRefusalOfRepair};
ghost use Rattle.engrave_core.specs.Given.{IsReported};
ghost use Rattle.engrave_core.specs.Outcome.{outcome_of};
ghost use Rattle.engrave_core.specs.Refusals.{IsRefusalOfVisits};
ghost use Rattle.engrave_core.specs.Stored.{AnswersFrom};

use crate::drawing::load_drawing;
use crate::files::load_code;
use crate::refusal::Refusal;
use code_repair::repair;
use depth_rule::Scene;
use gcode_text::{MOST_FEED, MOST_MOVES, MOST_SAFE_HEIGHT, write_visits};
use grid_num::Units;
use job_words::{DrawingWords, Text};
use plane_exact::{Bit, LineMove};
use shop_port::Depot;
use std::alloc::Global;

/// The repaired program, or the refusal of the drawing, of the program or of the repair.
pub fn run<D: Depot>(
    alloc: Global,
    shape: &DrawingWords,
    code: &Text,
    bit: &Bit,
    safe: u32,
    feed: u32,
    depot: &mut D,
) -> Result<Vec<u8>, Refusal>
    requires shape { IsShapeInRange shape.now }
    requires safe { IsFromOneTo MOST_SAFE_HEIGHT safe }
    requires feed { IsFromOneTo MOST_FEED feed }
    ensures value { AnswersFrom D.held D.faults D.misses depot.old depot.new
        (λ files. IsReported (IsDueOfRepair files shape.now code.now bit.now safe feed)) result }
    ensures refusal { IfErr result (λ refusal. IsRefusalOfRepair shape.now (outcome_of refusal)) }
{
    let loaded = load_drawing(alloc, shape, depot)?;
    let moves = load_code(alloc, code.as_str(), shape.units, depot)?;
    text_of(alloc, &loaded.scene, bit, shape.units, safe, feed, &moves)
}

/// The text of the repaired program.
// Apart from `run`, since it reads no file.
fn text_of(
    alloc: Global,
    scene: &Scene,
    bit: &Bit,
    units: Units,
    safe: u32,
    feed: u32,
    moves: &[LineMove],
) -> Result<Vec<u8>, Refusal>
    requires safe { IsFromOneTo MOST_SAFE_HEIGHT safe }
    requires feed { IsFromOneTo MOST_FEED feed }
    requires few { length moves.now ≤ MOST_MOVES }
    requires following { AreFollowing moves.now }
    ensures value { IsReported (IsMendedOrRefused units bit.now safe feed scene.now moves.now) result }
    ensures refusal { IfErr result (λ refusal. IsRefusalOfVisits (outcome_of refusal)) }
{
    // That the bit has some width is known from its slope.
    let _slope = bit.sn();
    let repaired = repair(alloc, scene, bit, safe, moves)?;
    let count = moves.len() as u32;
    Ok(write_visits(
        alloc,
        units,
        safe,
        feed,
        &repaired.visits,
        repaired.changed,
        count,
    )?)
}
