// The plan of a drawing.
ghost use Rattle.std.specs.Prelude.{IfSome, MatchResult};
ghost use Rattle.plane_exact.specs.Cone.{IsFromOneTo};
ghost use Rattle.cleanup_pocket.specs.declared.pockets.TheConstants.{MOST_OVER};
ghost use Rattle.carve_plan.specs.Fault.{IsPlanFault};
ghost use Rattle.carve_plan.specs.Plan.{IsPlan};

use crate::chains::in_order;
use crate::fault::PlanFault;
use crate::limits::within_limits;
use crate::milled::{append, pocket_chains};
use crate::round::chains_of;
use crate::stop::stops_of;
use cleanup_pocket::{MOST_OVER, Way};
use depth_rule::Scene;
use path_order::order;
use plane_exact::{Bit, Chain, MOST_DEPTH};
use std::alloc::Global;
use tangent_disc::{ContactFault, MOST_STEP, contacts};

/// The chains that carve the drawing, in the order in which they are cut.
///
/// Along each loop there is a contact at most every `step` grid units, from 1 to 32,767. At the centre of its greatest disc, of a radius
/// of at most the bit's, lies its node, as deep as fits there and at most `limit`, from 1 to 32,767. The bit goes from node to node round
/// the loop, straight where that is clear, and else by halves of the way, at most eight times halved, or lifted. Where a pocket is asked
/// for, by these lines and so many grid units apart, from 1 to 8191, its chains are among them.
///
/// The errors come in this order: the contacts' fault; too many nodes, those of the pocket being counted where it has no more chains than a
/// path may have; too many chains; or at any time that memory ran out.
pub fn plan(
    alloc: Global,
    scene: &Scene,
    bit: &Bit,
    limit: u32,
    step: u32,
    pockets: Option<(Way, u32)>,
) -> Result<Vec<Chain>, PlanFault>
    requires limit { IsFromOneTo MOST_DEPTH limit }
    requires step { IsFromOneTo MOST_STEP step }
    requires over { IfSome pockets (λ asked. IsFromOneTo MOST_OVER asked.1) }
    ensures { MatchResult result (λ plan. IsPlan scene.now bit.now limit step pockets plan.items) (IsPlanFault scene.now bit.now limit step pockets) }
{
    let contacts = match contacts(alloc, scene.drawing(), step) {
        Ok(contacts) => contacts,
        Err(ContactFault::Memory) => return Err(PlanFault::Memory),
        Err(fault) => return Err(PlanFault::Contact(fault)),
    };
    let stops = stops_of(alloc, scene, bit, limit, &contacts)?;
    let mut chains = chains_of(alloc, scene, bit, limit, &stops)?;
    let pocket = pocket_chains(alloc, scene, bit, limit, pockets)?;
    append(&mut chains, pocket)?;
    within_limits(&chains)?;
    let numbers = order(alloc, &chains)?;
    Ok(in_order(alloc, chains, &numbers)?)
}
