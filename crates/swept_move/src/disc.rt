// The disc that the bit cuts over a grid point, against an edge.
ghost use Rattle.std.specs.Prelude.{◌↔◌, ◌≤◌, IsTrue};
ghost use Rattle.engrave_model.specs.Depth.{IsEdgeClear};

use plane_exact::{Bit, MOST_DEPTH, Point, Seg, dist_at_least};

/// Whether the open disc that the bit cuts over `p` at the depth `z`, in grid units, holds no point of the edge.
pub fn is_edge_clear(e: Seg, p: Point, bit: &Bit, z: u32) -> bool
    requires { z ≤ MOST_DEPTH }
    ensures { IsTrue result ↔ IsEdgeClear bit.now p z e }
{
    dist_at_least(p, e, bit.sn() * z, bit.sd())
}
