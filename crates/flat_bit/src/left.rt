// The report on the floor that a flat bit leaves.
ghost use Rattle.std.specs.Prelude.{MatchResult};
ghost use Rattle.plane_exact.specs.Cone.{IsFromOneTo};
ghost use Rattle.plane_exact.specs.declared.bit.TheConstants.{MOST_RADIUS};
ghost use Rattle.plane_exact.specs.declared.moves.TheConstants.{MOST_DEPTH};
ghost use Rattle.coverage_report.specs.Report.{IsCoverFault};
ghost use Rattle.coverage_report.specs.declared.cover.TheConstants.{MOST_PITCH};
ghost use Rattle.depth_rule.specs.Deepest.{deepest_of};
ghost use Rattle.gcode_text.specs.Path.{chain_moves};
ghost use Rattle.gcode_text.specs.declared.job.Job.{Job};
ghost use Rattle.flat_bit.specs.Left.{AreLevel, IsFloorReport};

use crate::discs::{disc_moves, right_angled_bit};
use crate::marks::FloorMarks;
use coverage_report::{CoverFault, MOST_PITCH, marked_uncut};
use depth_rule::{Scene, deepest};
use plane_exact::{Bit, Chain, MOST_DEPTH, MOST_RADIUS, Uncut};
use std::alloc::Global;

/// Which points over the floor a flat bit of this radius doesn't reach along the chains, whatever the safe height and the feed of their
/// program. The points are those of the report of `coverage_report::uncut` at which the deepest depth that the limit and the conical bit
/// allow is the greatest that fits, and isn't 0; `drawing` counts them, and `left` those that aren't reached. All nodes of the chains are
/// at that depth. It is a fault if the report has more than 16,777,216 points.
pub fn floor_left(
    alloc: Global,
    scene: &Scene,
    bit: &Bit,
    limit: u32,
    radius: u32,
    chains: &[Chain],
    pitch: u32,
) -> Result<Uncut, CoverFault>
    requires limit { IsFromOneTo MOST_DEPTH limit }
    requires radius { IsFromOneTo MOST_RADIUS radius }
    requires level { AreLevel (deepest_of bit.now limit) chains.now }
    requires pitch { IsFromOneTo MOST_PITCH pitch }
    ensures { MatchResult result (λ left. (job : Job) → IsFloorReport scene.now bit.now limit radius (chain_moves job chains.now) pitch left) (λ fault. IsCoverFault scene.now pitch fault) }
{
    let marks = FloorMarks {
        scene,
        bit,
        limit,
        deepest: deepest(bit, limit),
    };
    let moves = disc_moves(alloc, chains, radius)?;
    marked_uncut(alloc, scene, &marks, &right_angled_bit(), &moves, pitch)
}
