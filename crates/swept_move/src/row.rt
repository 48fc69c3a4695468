// What a move removes of a row of grid points.
ghost use Rattle.std.specs.Prelude.{◌≤◌, pos, ◌≤ℤ◌, MatchOption};
ghost use Rattle.plane_exact.specs.Plane.{IsCoordinate};
ghost use Rattle.swept_move.specs.Middle.{IsMiddle};
ghost use Rattle.swept_move.specs.Row.{IsRowCut, IsRowSpared};
ghost use Rattle.swept_move.specs.Search.{IsFirst, IsLast, RemovesBehind};

use crate::band::columns_of;
use crate::middle::middle_of;
use crate::removed::point_removed;
use crate::stretch::Stretch;
use plane_exact::{Bit, Move};

/// The least and the greatest x from x0 to x1 for which the move removes (x, y) at some moment; every x between them is removed
/// too. None where none is.
pub fn row_cut(mv: &Move, bit: &Bit, y: i32, x0: i32, x1: i32) -> Option<(i32, i32)>
    requires row { IsCoordinate y }
    requires first { IsCoordinate x0 }
    requires last { IsCoordinate x1 }
    requires order { x0 ≤ℤ x1 }
    ensures { MatchOption result (IsRowSpared bit.now mv.now y x0 x1) (λ cut. IsRowCut bit.now mv.now y x0 x1 cut.0 cut.1) }
{
    let columns = columns_of(mv, bit);
    let (first, last) = (x0.max(columns.low), x1.min(columns.high));
    if first > last {
        return None;
    }
    cut_between(mv, bit, y, first, last)
}

// The same by bisection alone. It tests about twice as many points as the number of those that it is asked for has binary digits,
// or fewer: so the row is clipped to the columns that the move can reach before.
fn cut_between(mv: &Move, bit: &Bit, y: i32, x0: i32, x1: i32) -> Option<(i32, i32)>
    requires row { IsCoordinate y }
    requires first { IsCoordinate x0 }
    requires last { IsCoordinate x1 }
    requires order { x0 ≤ℤ x1 }
    ensures { MatchOption result (IsRowSpared bit.now mv.now y x0 x1) (λ cut. IsRowCut bit.now mv.now y x0 x1 cut.0 cut.1) }
{
    let row = Stretch::new(y, x0, x1);
    let Some(middle) = middle_of(mv, bit, row.start) else {
        return None;
    };
    let first = first_removed(mv, bit, &row, middle);
    if !point_removed(mv, bit, row.point(first)) {
        return None;
    }
    let last = last_removed(mv, bit, &row, middle, first);
    Some((row.point(first).x(), row.point(last).x()))
}

// The first point of the row that the move removes, if it removes one. The move removes some point of the row's line that is at
// least `middle` and less than `middle + 1` from its start: so each point behind it comes after the first, if there is one.
fn first_removed(mv: &Move, bit: &Bit, row: &Stretch, middle: i64) -> u32
    requires { IsMiddle bit.now mv.now row.now.start middle }
    ensures { IsFirst (RemovesBehind bit.now mv.now row.now.start) row.now.last result }
{
    let mut low = 0;
    let mut high = row.last;
    while low < high {
        let half = low + (high - low) / 2;
        if middle < i64::from(half) || point_removed(mv, bit, row.point(half)) {
            high = half;
        } else {
            low = half + 1;
        }
    }
    low
}

// The last point of the row that the move removes, by one that it does. From that one up to the middle all are removed.
fn last_removed(mv: &Move, bit: &Bit, row: &Stretch, middle: i64, first: u32) -> u32
    requires middle { IsMiddle bit.now mv.now row.now.start middle }
    requires within { first ≤ row.now.last }
    requires removed { RemovesBehind bit.now mv.now row.now.start first }
    ensures { IsLast (RemovesBehind bit.now mv.now row.now.start) row.now.last result }
{
    let mut low = first;
    let mut high = row.last;
    while low < high {
        let half = high - (high - low) / 2;
        if i64::from(half) <= middle || point_removed(mv, bit, row.point(half)) {
            low = half;
        } else {
            high = half - 1;
        }
    }
    low
}
