// The chains of a plan's pocket.
ghost use Rattle.std.specs.Prelude.{◌≡◌, ◌++◌, ◌≤◌, IfOk, IfSome, MatchResult, OnOk, length};
ghost use Rattle.plane_exact.specs.Cone.{IsFromOneTo};
ghost use Rattle.plane_exact.specs.declared.node.TheConstants.{MOST_CHAINS};
ghost use Rattle.cleanup_pocket.specs.declared.pockets.TheConstants.{MOST_OVER};
ghost use Rattle.carve_plan.specs.Pockets.{IsMillFault};
ghost use Rattle.carve_plan.specs.Plan.{ArePocketChains};

use crate::fault::PlanFault;
use cleanup_pocket::{MOST_OVER, PocketFault, Way, pocket};
use depth_rule::Scene;
use plane_exact::{Bit, Chain, MOST_DEPTH};
use std::alloc::{AllocError, Global};

/// The chains of the drawing's pocket, where one is asked for, no more than a path may have. The error is that they are more, or that
/// memory ran out.
pub fn pocket_chains(
    alloc: Global,
    scene: &Scene,
    bit: &Bit,
    limit: u32,
    pockets: Option<(Way, u32)>,
) -> Result<Vec<Chain>, PlanFault>
    requires limit { IsFromOneTo MOST_DEPTH limit }
    requires over { IfSome pockets (λ asked. IsFromOneTo MOST_OVER asked.1) }
    ensures value { MatchResult result (λ chains. ArePocketChains scene.now bit.now limit pockets chains.items) (IsMillFault scene.now bit.now limit pockets) }
    ensures few { IfOk result (λ chains. length chains.items ≤ MOST_CHAINS) }
{
    let Some((way, over)) = pockets else {
        return Ok(Vec::new(alloc));
    };
    match pocket(alloc, scene, bit, limit, over, way) {
        Ok(chains) => Ok(chains),
        Err(PocketFault::TooMany) => Err(PlanFault::TooManyChains),
        Err(PocketFault::Memory) => Err(PlanFault::Memory),
    }
}

/// Puts the pocket's chains behind the others. The error is running out of memory.
pub fn append(chains: &mut Vec<Chain>, pocket: Vec<Chain>) -> Result<(), AllocError>
    ensures { OnOk result (chains.new.items ≡ chains.old.items ++ pocket.items) }
{
    for chain in pocket {
        chains.push(chain)?;
    }
    Ok(())
}
