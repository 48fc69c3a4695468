// The stops along a drawing's outline.
ghost use Rattle.std.specs.Prelude.{IfOk, All};
ghost use Rattle.std.specs.List.{AllZip};
ghost use Rattle.plane_exact.specs.Cone.{IsFromOneTo};
ghost use Rattle.tangent_disc.specs.Contacts.{IsContactOf};
ghost use Rattle.carve_plan.specs.Stops.{IsStop};

use depth_rule::{Scene, greatest_depth};
use plane_exact::{Bit, MOST_DEPTH, Node};
use std::alloc::{AllocError, Global};
use tangent_disc::{Contact, tangent};

/// Where the bit stops for a contact.
#[derive(Clone, Copy, Debug, PartialEq, Eq)]
pub struct Stop {
    /// The number of the contact's loop.
    pub loop_no: u32,
    /// At the centre of the contact's greatest disc, and as deep as fits there.
    pub node: Node,
}

/// The stops of contacts of the scene's drawing, in turn. The error is running out of memory.
pub fn stops_of(
    alloc: Global,
    scene: &Scene,
    bit: &Bit,
    limit: u32,
    contacts: &[Contact],
) -> Result<Vec<Stop>, AllocError>
    requires limit { IsFromOneTo MOST_DEPTH limit }
    requires contacts { All (IsContactOf scene.now) contacts.now }
    ensures { IfOk result (λ stops. AllZip (IsStop scene.now bit.now limit) contacts.now stops.items) }
{
    let mut stops = Vec::with_capacity(alloc, contacts.len())?;
    for contact in contacts {
        stops.push(stop_at(scene, bit, limit, contact))?;
    }
    Ok(stops)
}

// The stop of one contact.
fn stop_at(scene: &Scene, bit: &Bit, limit: u32, contact: &Contact) -> Stop
    requires limit { IsFromOneTo MOST_DEPTH limit }
    requires contact { IsContactOf scene.now contact.now }
    ensures { IsStop scene.now bit.now limit contact.now result }
{
    let at = tangent(scene, contact, bit.rmax()).centre;
    let depth = greatest_depth(scene, at, bit, limit);
    Stop {
        loop_no: contact.loop_no,
        node: Node { at, depth },
    }
}
