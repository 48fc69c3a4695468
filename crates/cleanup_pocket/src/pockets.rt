// The pocket of a drawing.
ghost use Rattle.std.specs.Prelude.{◌≤◌, IfOk, MatchResult, length};
ghost use Rattle.plane_exact.specs.declared.node.TheConstants.{MOST_CHAINS};
ghost use Rattle.plane_exact.specs.Cone.{IsFromOneTo};
ghost use Rattle.cleanup_pocket.specs.Fault.{IsPocketFault};
ghost use Rattle.cleanup_pocket.specs.Pocket.{IsPocket};

use crate::axis::Way;
use crate::chains::floor_chains;
use crate::deep::PocketFloor;
use crate::fault::PocketFault;
use depth_rule::{Scene, deepest};
use plane_exact::{Bit, Chain, MOST_DEPTH};
use std::alloc::Global;

/// The greatest distance between a pocket's lines, in grid units.
pub const MOST_OVER: u32 = 8191;

/// The chains of the drawing's pocket: of the flat floors at the deepest depth that `limit`, from 1 to 32,767 grid units, and the bit's
/// greatest radius allow.
///
/// Along each row whose y is a multiple of `over`, from 1 to 8191 grid units, from the drawing's least y to its greatest, they are the
/// longest runs of grid points at which the deepest depth fits, between which the bit stays clear of every edge: from the first point of
/// the run to its last, both at the deepest depth; a run of one point is a chain of one node. Rows are ascending, and so are the runs of a
/// row. Columns are the same with x and y exchanged, and come behind the rows where both are asked for. A drawing of no loop has no
/// pocket, and neither has one for which no depth above 0 is allowed.
///
/// The error is that there are more than 131,072 chains, or that memory ran out.
pub fn pocket(
    alloc: Global,
    scene: &Scene,
    bit: &Bit,
    limit: u32,
    over: u32,
    way: Way,
) -> Result<Vec<Chain>, PocketFault>
    requires limit { IsFromOneTo MOST_DEPTH limit }
    requires over { IsFromOneTo MOST_OVER over }
    ensures value { MatchResult result (λ chains. IsPocket scene.now bit.now limit over way chains.items) (IsPocketFault scene.now bit.now limit over way) }
    ensures few { IfOk result (λ chains. length chains.items ≤ MOST_CHAINS) }
{
    let deepest = deepest(bit, limit);
    if deepest == 0 {
        return Ok(Vec::new(alloc));
    }
    let floor = PocketFloor {
        scene,
        bit,
        limit,
        deepest,
    };
    floor_chains(alloc, &floor, over, way)
}
