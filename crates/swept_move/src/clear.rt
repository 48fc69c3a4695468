// Whether a straight move keeps off an edge, by whole-number tests of the ends of both.
ghost use Rattle.std.specs.Prelude.{◌↔◌, IsTrue};
ghost use Rattle.plane_exact.specs.Moves.{IsDeep, IsTooDeep};
ghost use Rattle.swept_move.specs.Clear.{PassesEdge};

use crate::deep_move::DeepMove;
use plane_exact::{Bit, Move, Seg};

/// Whether the move passes the tests against the edge: no disc at its ends holds a point of the edge, no disc on its way
/// holds an end of the edge, and path and edge don't cross, all as far as the tip is below the surface.
pub fn clear_of(mv: &Move, bit: &Bit, s: Seg) -> bool
    requires narrow { ¬ IsTooDeep bit.now mv.now }
    requires deep { IsDeep mv.now }
    ensures { IsTrue result ↔ PassesEdge bit.now mv.now s }
{
    DeepMove::new(mv.from, mv.to).passes(bit, &s)
}
