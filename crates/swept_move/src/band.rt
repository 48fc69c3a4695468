// The rows and the columns of grid points that a move can reach.
ghost use Rattle.std.specs.Prelude.{◌≡◌, MatchOption};
ghost use Rattle.plane_exact.specs.Heights.{IsFineCoordinate};
ghost use Rattle.plane_exact.specs.Plane.{GridPoint, rational};
ghost use Rattle.engrave_model.specs.Removal.{Removes};
ghost use Rattle.swept_move.specs.Band.{IsColumnBand};
ghost use Rattle.swept_move.specs.Row.{IsBand};

use crate::span::{Span, span_of};
use plane_exact::{Bit, Move};

/// The first and the last row that the move can reach: as far below and above its ends as the bit's radius there, at most. None
/// where it removes nothing, neither end being below the surface.
pub fn row_band(mv: &Move, bit: &Bit) -> Option<(i32, i32)>
    ensures { MatchOption result ((p : GridPoint) → ¬ Removes bit.now mv.now (rational p)) (λ band. IsBand bit.now mv.now band.0 band.1) }
{
    if !mv.is_deep() {
        return None;
    }
    let rows = rows_of(mv, bit);
    Some((rows.low, rows.high))
}

// The rows that it can reach.
fn rows_of(mv: &Move, bit: &Bit) -> Span
    ensures { IsBand bit.now mv.now result.low result.high }
{
    let from = span_of(bit, mv.from.up(), mv.from.depth());
    let to = span_of(bit, mv.to.up(), mv.to.depth());
    from.joined(to)
}

// The columns that it can reach.
pub fn columns_of(mv: &Move, bit: &Bit) -> Span
    ensures { IsColumnBand bit.now mv.now result.low result.high }
{
    let from = span_of(bit, mv.from.across(), mv.from.depth());
    let to = span_of(bit, mv.to.across(), mv.to.depth());
    from.joined(to)
}
