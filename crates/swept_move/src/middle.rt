// A point of a row that a move removes.
ghost use Rattle.std.specs.Prelude.{MatchOption};
ghost use Rattle.swept_move.specs.Middle.{IsMiddle, IsRowMissed};

use crate::sight::sight_of;
use plane_exact::{Bit, Move, Point};

// How far to the right of a point the move removes a point of its row, in grid units and rounded down. None where it removes none.
// Three points of the row are looked at: over either end, and where the path crosses it.
pub fn middle_of(mv: &Move, bit: &Bit, point: Point) -> Option<i64>
    ensures { MatchOption result (IsRowMissed bit.now mv.now point.y) (λ i. IsMiddle bit.now mv.now point i) }
{
    let from = sight_of(point, mv.from);
    let to = sight_of(point, mv.to);
    if from.meets(bit) {
        Some(from.column())
    } else if to.meets(bit) {
        Some(to.column())
    } else if from.crosses(to) {
        Some(from.crossing(to))
    } else if to.crosses(from) {
        Some(to.crossing(from))
    } else {
        None
    }
}
