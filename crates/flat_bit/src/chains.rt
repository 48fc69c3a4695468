// The ways of a flat bit over the floor of a drawing.
ghost use Rattle.std.specs.Prelude.{◌≤◌, IfOk, MatchResult, length};
ghost use Rattle.plane_exact.specs.Cone.{IsFromOneTo};
ghost use Rattle.plane_exact.specs.declared.bit.TheConstants.{MOST_RADIUS};
ghost use Rattle.plane_exact.specs.declared.moves.TheConstants.{MOST_DEPTH};
ghost use Rattle.plane_exact.specs.declared.node.TheConstants.{MOST_CHAINS};
ghost use Rattle.cleanup_pocket.specs.declared.pockets.TheConstants.{MOST_OVER};
ghost use Rattle.flat_bit.specs.Fault.{IsMillFault};
ghost use Rattle.flat_bit.specs.Flat.{IsFlat};

use crate::floor::FlatFloor;
use cleanup_pocket::{MOST_OVER, PocketFault, Way, floor_chains};
use depth_rule::{Scene, deepest};
use plane_exact::{Bit, Chain, MOST_DEPTH, MOST_RADIUS};
use std::alloc::Global;

/// The chains along which a flat bit of this radius, from 1 to 8191 grid units, mills the floor that the conical bit leaves at the deepest
/// depth that `limit`, from 1 to 32,767 grid units, and its greatest radius allow.
///
/// They are those of `cleanup_pocket::pocket`, with other good points: a point inside the drawing is good where every edge is at least as
/// far as the radius and the conical bit's width at that depth together, and two neighbours are joined where this holds of each point
/// between them. A drawing of no loop has no chain, and neither has one for which no depth above 0 is allowed.
///
/// The error is that there are more than 131,072 chains, or that memory ran out.
pub fn flat(
    alloc: Global,
    scene: &Scene,
    bit: &Bit,
    limit: u32,
    radius: u32,
    over: u32,
    way: Way,
) -> Result<Vec<Chain>, PocketFault>
    requires limit { IsFromOneTo MOST_DEPTH limit }
    requires radius { IsFromOneTo MOST_RADIUS radius }
    requires over { IsFromOneTo MOST_OVER over }
    ensures value { MatchResult result (λ chains. IsFlat scene.now bit.now limit radius over way chains.items) (IsMillFault scene.now bit.now limit radius over way) }
    ensures few { IfOk result (λ chains. length chains.items ≤ MOST_CHAINS) }
{
    let deepest = deepest(bit, limit);
    if deepest == 0 {
        return Ok(Vec::new(alloc));
    }
    let floor = FlatFloor {
        scene,
        bit,
        limit,
        radius,
        deepest,
        reach: radius * bit.sd() + bit.sn() * deepest,
    };
    floor_chains(alloc, &floor, over, way)
}
