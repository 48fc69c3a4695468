// The chains of a floor.
ghost use Rattle.std.specs.Prelude.{◌≤◌, IfOk, MatchResult, length};
ghost use Rattle.plane_exact.specs.Cone.{IsFromOneTo};
ghost use Rattle.plane_exact.specs.declared.node.TheConstants.{MOST_CHAINS};
ghost use Rattle.cleanup_pocket.specs.Fault.{IsManyFault};
ghost use Rattle.cleanup_pocket.specs.Floors.{AreFloorChains};

use crate::axis::Way;
use crate::fault::PocketFault;
use crate::floor::Floor;
use crate::kept::Kept;
use crate::pockets::MOST_OVER;
use plane_exact::Chain;
use std::alloc::Global;

/// The chains along which the floor is milled, by rows or columns that are `over` grid units apart, from 1 to 8191.
///
/// Along each row whose y is a multiple of `over`, from the drawing's least y to its greatest, they are the longest runs of good grid points
/// each of which is joined to the next: from the first point of the run to its last, both at the floor's depth; a run of one point is a
/// chain of one node. Rows are ascending, and so are the runs of a row. Columns are the same with x and y exchanged, and come behind the
/// rows where both are asked for. A drawing of no loop has no chain.
///
/// The error is that there are more than 131,072 chains, or that memory ran out.
pub fn floor_chains<F: Floor>(
    alloc: Global,
    floor: &F,
    over: u32,
    way: Way,
) -> Result<Vec<Chain>, PocketFault>
    requires { IsFromOneTo MOST_OVER over }
    ensures value { MatchResult result (λ chains. AreFloorChains (F.is_good floor.now) (F.is_way floor.now) (F.depth_of floor.now) (F.loops_of floor.now) over way chains.items) (IsManyFault (AreFloorChains (F.is_good floor.now) (F.is_way floor.now) (F.depth_of floor.now) (F.loops_of floor.now) over way)) }
    ensures few { IfOk result (λ chains. length chains.items ≤ MOST_CHAINS) }
{
    let Some(bounds) = floor.scene().bounds() else {
        return Ok(Vec::new(alloc));
    };
    let mut kept = Kept {
        chains: Vec::new(alloc),
        has_more: false,
    };
    kept.add_way(alloc, floor, &bounds, over, way)?;
    if kept.has_more {
        return Err(PocketFault::TooMany);
    }
    Ok(kept.chains)
}
