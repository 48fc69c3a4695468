// The nodes of strokes.
ghost use Rattle.std.specs.Prelude.{◌≡◌, ◌≤◌};
ghost use Rattle.plane_exact.specs.declared.moves.TheConstants.{MOST_DEPTH};
ghost use Rattle.stroke_engrave.specs.Chains.{node_at};

use plane_exact::{MOST_DEPTH, Node, Point};

/// The node over the point at this depth.
pub fn node_at(at: Point, depth: u32) -> Node
    requires { depth ≤ MOST_DEPTH }
    ensures { result ≡ node_at depth at }
{
    Node { at, depth }
}
