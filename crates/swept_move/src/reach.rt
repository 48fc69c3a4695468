// How far from its path a move may cut.
ghost use Rattle.std.specs.Prelude.{◌*◌, ◌≤◌};
ghost use Rattle.plane_exact.specs.Moves.{IsDeep, IsTooDeep};
ghost use Rattle.swept_move.specs.Reach.{IsReach};

use plane_exact::{Bit, MOST_RADIUS, Move};

/// How far from its path the move may cut at the surface, in tenths of a grid unit, rounded up: the bit's radius at the deeper of its
/// ends. It is at most the bit's greatest radius, whatever that is.
pub fn reach_of(mv: &Move, bit: &Bit) -> u32
    requires { ¬ IsTooDeep bit.now mv.now }
    ensures value { IsReach bit.now mv.now result }
    ensures some { IsDeep mv.now → 1 ≤ result }
    ensures within { result ≤ 10 * bit.now.rmax }
    ensures range { result ≤ 10 * MOST_RADIUS }
{
    let deepest = mv.from.depth().max(mv.to.depth());
    (bit.sn() * deepest).div_ceil(bit.sd())
}
