// The limits of a path's chains.
ghost use Rattle.std.specs.Prelude.{◌<◌, MatchOption, MatchResult, length};
ghost use Rattle.plane_exact.specs.Nodes.{AreWithinLimits, joined};
ghost use Rattle.plane_exact.specs.declared.node.TheConstants.{MOST_NODES};
ghost use Rattle.carve_plan.specs.Made.{IsCounted};
ghost use Rattle.carve_plan.specs.Pockets.{IsLimitFault};

use crate::fault::PlanFault;
use plane_exact::{Chain, MOST_CHAINS, MOST_NODES};

/// Whether a path may have these chains. The error is that their nodes are too many, or else the chains.
pub fn within_limits(chains: &[Chain]) -> Result<(), PlanFault>
    ensures { MatchResult result (λ _. AreWithinLimits chains.now) (IsLimitFault chains.now) }
{
    count_nodes(chains).ok_or(PlanFault::TooManyNodes)?;
    if chains.len() > MOST_CHAINS {
        return Err(PlanFault::TooManyChains);
    }
    Ok(())
}

/// How many nodes the chains have in all; None where they are more than 4,194,304, the most that a path may have.
pub fn count_nodes(chains: &[Chain]) -> Option<usize>
    ensures { MatchOption result (MOST_NODES < length (joined chains.now)) (λ count. IsCounted count chains.now) }
{
    let mut count = 0;
    for chain in chains {
        let more = chain.nodes().len();
        if more > MOST_NODES - count {
            return None;
        }
        count += more;
    }
    Some(count)
}
