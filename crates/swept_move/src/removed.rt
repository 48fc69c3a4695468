// Whether a move removes a grid point, at any of its moments and at any depth.
ghost use Rattle.std.specs.Prelude.{◌≡◌, ◌↔◌, pos, neg_ℤ, ◌*ℤ◌, ◌<ℤ◌, IsTrue};
ghost use Rattle.plane_exact.specs.Plane.{rational};
ghost use Rattle.engrave_model.specs.Removal.{Removes};
ghost use Rattle.swept_move.specs.Dip.{IsDip, IsMet, move_of};
ghost use Rattle.swept_move.specs.Range.{IsFineCoefficient, IsFineWay};

use crate::clearance::{Clearance, product};
use crate::coefficients::clearance;
use crate::way::{height, way_from};
use plane_exact::{Bit, Move, Point, Spot};

/// Whether some moment of the move removes the grid point: the tip is below the surface then, and the point is inside the open disc
/// that the bit cuts. The move may be too deep for the bit, and pass the surface.
pub fn point_removed(mv: &Move, bit: &Bit, p: Point) -> bool
    ensures { IsTrue result ↔ Removes bit.now mv.now (rational p) }
{
    if mv.from.h < 0 {
        removes_from(mv.from, mv.to, bit, p)
    } else {
        mv.to.h < 0 && removes_from(mv.to, mv.from, bit, p)
    }
}

// The same of a move from a spot below the surface.
fn removes_from(from: Spot, to: Spot, bit: &Bit, p: Point) -> bool
    requires { from.h <ℤ pos 0 }
    ensures { IsTrue result ↔ Removes bit.now (move_of from to) (rational p) }
{
    let first = depth(from);
    let last = depth(to);
    let ends = clearance(bit, way_from(p, from), way_from(p, to), first, last);
    is_met(ends, first, last)
}

// How deep the spot is: below 0 where it is above the surface.
pub fn depth(spot: Spot) -> i64
    ensures value { result ≡ neg_ℤ spot.h }
    ensures range { IsFineWay result }
{
    -height(spot)
}

// Whether the first of two places holds the point, or the last, or one between them. `ends` are the products of the ways from the
// point to the two places, `c` of the first, `a` of the last and `half` of both, and `first` and `last` are their depths.
fn is_met(ends: Clearance, first: i64, last: i64) -> bool
    requires first { IsFineWay first }
    requires last { IsFineWay last }
    ensures { IsTrue result ↔ IsMet ends.c ends.half ends.a first last }
{
    ends.c < 0 || (is_held(ends.a, last) || is_dip(ends, first, last))
}

// Whether a place holds the point, by the product of the way to it with itself and by its depth.
fn is_held(square: i64, depth: i64) -> bool
    ensures { IsTrue result ↔ ((square <ℤ pos 0) × (pos 0 <ℤ depth)) }
{
    square < 0 && depth > 0
}

// Whether a place between the two holds the point where neither of the two does.
fn is_dip(ends: Clearance, first: i64, last: i64) -> bool
    requires first { IsFineWay first }
    requires last { IsFineWay last }
    ensures { IsTrue result ↔ IsDip ends.c ends.half ends.a first last }
{
    ends.half < 0
        && (is_less(ends.c, ends.a, ends.half, ends.half)
            && is_less(ends.half, first, ends.c, last))
}

// Whether a * b is less than c * d. Two numbers of 63 bits make 126, so the products are taken in 128.
pub fn is_less(a: i64, b: i64, c: i64, d: i64) -> bool
    requires a { IsFineCoefficient a }
    requires b { IsFineCoefficient b }
    requires c { IsFineCoefficient c }
    requires d { IsFineCoefficient d }
    ensures { IsTrue result ↔ ((a *ℤ b) <ℤ (c *ℤ d)) }
{
    product(a, b) < product(c, d)
}
