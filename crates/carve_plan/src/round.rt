// The chains round the loops of a drawing.
ghost use Rattle.std.specs.Prelude.{◌≡◌, ◌≤◌, All, MatchResult, length, take, drop};
ghost use Rattle.plane_exact.specs.Cone.{IsFromOneTo};
ghost use Rattle.carve_plan.specs.Made.{AreStopChains, HasManyNodes, IsCutFault};
ghost use Rattle.carve_plan.specs.Stops.{IsOfAnother};

use crate::fault::PlanFault;
use crate::made::Made;
use crate::stop::Stop;
use depth_rule::Scene;
use plane_exact::{Bit, Chain, MOST_DEPTH};
use std::alloc::Global;

/// How often the way between two nodes may be halved.
pub const MOST_HALVED: u32 = 8;

/// The chains round the loops of the stops, loop by loop. The error is that they have too many nodes, or that memory ran out.
pub fn chains_of(
    alloc: Global,
    scene: &Scene,
    bit: &Bit,
    limit: u32,
    stops: &[Stop],
) -> Result<Vec<Chain>, PlanFault>
    requires { IsFromOneTo MOST_DEPTH limit }
    ensures { MatchResult result (λ chains. AreStopChains scene.now bit.now limit stops.now chains.items) (IsCutFault (HasManyNodes scene.now bit.now limit stops.now)) }
{
    let mut made = Made {
        chains: Vec::new(alloc),
        nodes: 0,
    };
    let mut left = stops;
    while let Some((first, others)) = left.split_first() {
        let (round, later) = others.split_at(count_of_loop(others, first.loop_no));
        made.add_round(alloc, scene, bit, limit, first.node, round)?;
        left = later;
    }
    Ok(made.chains)
}

// How many of the stops, before any of another, are of the loop.
fn count_of_loop(stops: &[Stop], loop_no: u32) -> usize
    ensures within { result ≤ length stops.now }
    ensures same { All (λ stop. stop.loop_no ≡ loop_no) (take result stops.now) }
    ensures whole { IsOfAnother loop_no (drop result stops.now) }
{
    let mut count = 0;
    while count < stops.len() {
        if stops[count].loop_no != loop_no {
            return count;
        }
        count += 1;
    }
    count
}
