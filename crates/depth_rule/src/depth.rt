// The greatest depth that the bit may have at a point of a drawing.
ghost use Rattle.std.specs.Prelude.{◌≡◌, ◌≤◌};
ghost use Rattle.plane_exact.specs.Cone.{IsCone, IsFromOneTo};
ghost use Rattle.engrave_model.specs.Depth.{IsDiscClear, IsEdgeClear, IsGreatestDepth};
ghost use Rattle.engrave_model.specs.Drawing.{edges_of};
ghost use Rattle.depth_rule.specs.Deepest.{deepest_of};
ghost use Rattle.depth_rule.specs.Greatest.{IsGreatestUpTo};

use crate::around::disc_box;
use crate::scene::Scene;
use plane_exact::{Bit, MOST_DEPTH, Point, Seg};
use swept_move::is_edge_clear;

// How wide the first disc is that is asked for, in grid units: most depths of lettering are found with it.
const FIRST_RADIUS: u32 = 32;

/// The greatest depth up to `limit`, in grid units, that the bit may have over `p`: the greatest one at which its open
/// disc holds no point of an edge and is no wider than the bit allows. It is 0 where `p` isn't inside.
pub fn greatest_depth(scene: &Scene, p: Point, bit: &Bit, limit: u32) -> u32
    requires { IsFromOneTo MOST_DEPTH limit }
    ensures { IsGreatestDepth (edges_of scene.now) bit.now limit p result }
{
    if scene.is_inside(p) {
        greatest_clear(scene, p, bit, deepest(bit, limit))
    } else {
        0
    }
}

/// The greatest depth up to `limit`, in grid units, at which the bit's radius is at most its greatest one. No depth that fits anywhere is
/// greater.
pub fn deepest(bit: &Bit, limit: u32) -> u32
    ensures value { result ≡ deepest_of bit.now limit }
    ensures range { IsCone bit.now.sn bit.now.sd bit.now.rmax }
{
    limit.min(bit.sd() * bit.rmax() / bit.sn())
}

/// The greatest depth up to `most` at which the bit's disc over `p` is clear of the edges, however wide it is. It asks for a small disc
/// first, and for one of twice the depth as long as that one is clear: so the work follows the depth that is found.
pub fn greatest_clear(scene: &Scene, p: Point, bit: &Bit, most: u32) -> u32
    requires { most ≤ MOST_DEPTH }
    ensures { IsGreatestUpTo (IsDiscClear (edges_of scene.now) bit.now p) most result }
{
    let mut asked = most.min(first_depth(bit));
    loop {
        let depth = clear_near(scene, p, bit, asked);
        if depth < asked || asked == most {
            return depth;
        }
        asked = most.min(2 * asked);
    }
}

/// The depth of a disc of about the first radius.
fn first_depth(bit: &Bit) -> u32
    ensures { 1 ≤ result }
{
    (FIRST_RADIUS * bit.sd() / bit.sn()).max(1)
}

/// The greatest depth up to `most` at which the disc is clear, by the edges near the disc of `most` alone.
fn clear_near(scene: &Scene, p: Point, bit: &Bit, most: u32) -> u32
    requires { most ≤ MOST_DEPTH }
    ensures { IsGreatestUpTo (IsDiscClear (edges_of scene.now) bit.now p) most result }
{
    let mut depth = most;
    for e in scene.near(disc_box(p, bit, most)) {
        depth = clear_of_edge(&scene.edge(e), p, bit, depth);
    }
    depth
}

/// The greatest depth up to `most` at which the disc holds no point of the edge. An edge that doesn't limit it costs one test.
fn clear_of_edge(e: &Seg, p: Point, bit: &Bit, most: u32) -> u32
    requires { most ≤ MOST_DEPTH }
    ensures { IsGreatestUpTo (λ z. IsEdgeClear bit.now p z e.now) most result }
{
    if is_edge_clear(*e, p, bit, most) {
        most
    } else {
        bisected(e, p, bit, most)
    }
}

/// The same, by bisection.
fn bisected(e: &Seg, p: Point, bit: &Bit, most: u32) -> u32
    requires { most ≤ MOST_DEPTH }
    ensures { IsGreatestUpTo (λ z. IsEdgeClear bit.now p z e.now) most result }
{
    // The depth `low` is clear, and none above `high` is.
    let mut low = 0;
    let mut high = most;
    while low < high {
        let middle = high - (high - low) / 2;
        if is_edge_clear(*e, p, bit, middle) {
            low = middle;
        } else {
            high = middle - 1;
        }
    }
    low
}
