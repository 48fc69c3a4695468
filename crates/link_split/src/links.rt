// The link from one node to another.
ghost use Rattle.std.specs.Prelude.{◌≡◌, ◌≤◌, ◌++◌, ◌∷◌, ◌↔◌, [], IfOk, IsTrue, OnOk};
ghost use Rattle.plane_exact.specs.Cone.{IsFromOneTo};
ghost use Rattle.engrave_model.specs.Drawing.{edges_of};
ghost use Rattle.link_split.specs.Link.{AreAtSurface, IsGrownBy, IsLink};

use crate::halves::midway;
use crate::step::Step;
use depth_rule::{Scene, is_clear};
use plane_exact::{Bit, MOST_DEPTH, Move, Node};
use std::alloc::{AllocError, Global};

/// The greatest number of times that a way is halved: after so many halvings the points of any two nodes are neighbours.
pub const MOST_HALVINGS: u32 = 16;

/// The steps of the link from `p` to `q`, whose way may be halved `halvings` times, at most 16. No depth of a node on the way is
/// above `limit`, which is from 1 to 32,767, in grid units. A node at which the bit would be too wide is reached and left by lifts
/// alone. The error is running out of memory.
pub fn link(
    alloc: Global,
    scene: &Scene,
    bit: &Bit,
    limit: u32,
    p: Node,
    q: Node,
    halvings: u32,
) -> Result<Vec<Step>, AllocError>
    requires limit { IsFromOneTo MOST_DEPTH limit }
    requires halvings { halvings ≤ MOST_HALVINGS }
    ensures { IfOk result (λ steps. IsLink (edges_of scene.now) bit.now limit halvings p q steps.items) }
{
    let mut steps = Vec::new(alloc);
    add_link(&mut steps, scene, bit, limit, p, q, halvings)?;
    Ok(steps)
}

/// Puts the steps of the link behind those that are there.
fn add_link(
    steps: &mut Vec<Step>,
    scene: &Scene,
    bit: &Bit,
    limit: u32,
    p: Node,
    q: Node,
    halvings: u32,
) -> Result<(), AllocError>
    requires { IsFromOneTo MOST_DEPTH limit }
    ensures { OnOk result (IsGrownBy (IsLink (edges_of scene.now) bit.now limit halvings p q) steps.old.items steps.new.items) }
{
    if p == q {
        return Ok(());
    }
    if are_at_surface(p, q) {
        return add(steps, Step::Lift(q));
    }
    if is_clear(scene, bit, &Move::between(p, q)) {
        return add(steps, Step::To(q));
    }
    if halvings == 0 {
        return add(steps, Step::Lift(q));
    }
    let Some(mid) = midway(scene, bit, limit, p, q) else {
        return add(steps, Step::Lift(q));
    };
    add_link(steps, scene, bit, limit, p, mid, halvings - 1)?;
    add_link(steps, scene, bit, limit, mid, q, halvings - 1)
}

// Whether both nodes are at the surface.
fn are_at_surface(p: Node, q: Node) -> bool
    ensures { IsTrue result ↔ AreAtSurface p q }
{
    p.depth == 0 && q.depth == 0
}

// Puts the step behind those that are there.
fn add(steps: &mut Vec<Step>, step: Step) -> Result<(), AllocError>
    ensures { OnOk result (steps.new.items ≡ steps.old.items ++ step ∷ []) }
{
    steps.push(step)?;
    Ok(())
}
