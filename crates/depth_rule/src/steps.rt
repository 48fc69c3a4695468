// How deep the bit may go at a grid point, by the definition: depth after depth, edge after edge.
ghost use Rattle.std.specs.Prelude.{◌↔◌, ◌*◌, ◌≤◌, All, IsTrue};
ghost use Rattle.engrave_model.specs.Depth.{IsDiscClear, IsEdgeClear, IsGreatestDepth};

use evenodd_region::is_inside;
use plane_exact::{Bit, MOST_DEPTH, Point, Seg};
use swept_move::is_edge_clear;

/// Whether the bit may have the depth `z` over `p`, where `p` is inside: it isn't too wide, and its disc is clear.
fn is_clear_depth(edges: &[Seg], p: Point, bit: &Bit, z: u32) -> bool
    requires { z ≤ MOST_DEPTH }
    ensures { IsTrue result ↔ ((bit.now.sn * z ≤ bit.now.sd * bit.now.rmax) × IsDiscClear edges.now bit.now p z) }
{
    bit.sn() * z <= bit.sd() * bit.rmax() && is_disc_clear(edges, p, bit, z)
}

/// The greatest depth up to `limit`, in grid units, that the bit may have over `p`: from the limit down, the first depth
/// that fits. This is the definition as a program; it is slow, and other programs are compared with it.
pub fn greatest_depth_by_steps(edges: &[Seg], p: Point, bit: &Bit, limit: u32) -> u32
    requires { limit ≤ MOST_DEPTH }
    ensures { IsGreatestDepth edges.now bit.now limit p result }
{
    if !is_inside(edges, p) {
        return 0;
    }
    let mut z = limit;
    while z > 0 && !is_clear_depth(edges, p, bit, z) {
        z -= 1;
    }
    z
}

// Whether the open disc that the bit cuts over `p` at the depth `z` holds no point of any edge.
fn is_disc_clear(edges: &[Seg], p: Point, bit: &Bit, z: u32) -> bool
    requires { z ≤ MOST_DEPTH }
    ensures { IsTrue result ↔ IsDiscClear edges.now bit.now p z }
{
    are_edges_clear(edges, p, bit, z)
}

fn are_edges_clear(edges: &[Seg], p: Point, bit: &Bit, z: u32) -> bool
    requires { z ≤ MOST_DEPTH }
    ensures { IsTrue result ↔ All (IsEdgeClear bit.now p z) edges.now }
{
    edges.iter().all(|e| is_edge_clear(*e, p, bit, z))
}
