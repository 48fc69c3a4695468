// How an edge lies to a rational point near the grid. All products are of ways times the point's denominator, which
// stay below 2^47; 64 bits hold those, and 128 bits their products.
ghost use Rattle.std.specs.Prelude.{◌≡◌, ◌↔◌, ◌-ℤ◌, ◌*ℤ◌, pos, int_le, int_lt, true, false, IsTrue};
ghost use Rattle.plane_exact.specs.Plane.{IsBetween};
ghost use Rattle.engrave_model.specs.Inside.{is_at_or_below, is_counted};
ghost use Rattle.evenodd_region.specs.Lookup.{IsOfRow};
ghost use Rattle.evenodd_region.specs.Ratios.{exchanged, rational_of, turn, facing};

use crate::ratio::RatioPoint;
use crate::way::scaled_way;
use plane_exact::{Point, Seg, Way};

// A rational point and the row that it belongs to, which the rows of edges are compared with, without any product.
#[derive(Clone, Copy)]
pub(crate) struct RowPoint {
    pub at: RatioPoint,
    pub row: i32,
    ghost of: { IsOfRow row (rational_of at) },
}

// The same, and the column that the point belongs to: an edge with both ends on one side of it needs no product either.
#[derive(Clone, Copy)]
pub(crate) struct CellPoint {
    pub on: RowPoint,
    pub column: i32,
    ghost across: { IsOfRow column (exchanged (rational_of on.at)) },
}

// Up to 73,727 * 2^30 in either coordinate, as the ways to these points are, times the denominator.
type RatioWay = Way<79_163_763_458_048>;

fn way_to(p: RatioPoint, from: Point) -> RatioWay
    ensures across { result.x ≡ p.x -ℤ p.over *ℤ from.x }
    ensures up { result.y ≡ p.y -ℤ p.over *ℤ from.y }
{
    scaled_way(from, p.x, p.y, p.over)
}

// (p - a) × (p - b), times the square of the denominator of p.
fn turn(p: RatioPoint, a: Point, b: Point) -> i128
    ensures { result ≡ turn (rational_of p) a b }
{
    way_to(p, a).wide_cross(way_to(p, b))
}

// (p - a) · (p - b), times the same.
fn facing(p: RatioPoint, a: Point, b: Point) -> i128
    ensures { result ≡ facing (rational_of p) a b }
{
    way_to(p, a).wide_dot(way_to(p, b))
}

// Whether the row of the point is among those from `a` to `b`, as it is where the point lies between them.
fn reach_row(a: Point, b: Point, p: RowPoint) -> bool
    ensures { IsBetween a b (rational_of p.at) → IsTrue result }
{
    a.y().min(b.y()) <= p.row && p.row <= a.y().max(b.y())
}

// Whether the point is a point of the edge. Most edges of a band are told by their rows.
pub(crate) fn is_on_edge(e: Seg, p: RowPoint) -> bool
    ensures { IsTrue result ↔ IsBetween e.a e.b (rational_of p.at) }
{
    if !reach_row(e.a, e.b, p) {
        return false;
    }
    turn(p.at, e.a, e.b) == 0 && facing(p.at, e.a, e.b) <= 0
}

// Whether `corner` isn't above the row of `p`.
fn is_at_or_below(corner: Point, p: RowPoint) -> bool
    ensures { result ≡ is_at_or_below corner (rational_of p.at) }
{
    corner.y() <= p.row
}

// Whether `corner` isn't to the right of the column of `p`.
fn is_at_or_left(corner: Point, p: CellPoint) -> bool
    ensures { result ≡ int_le (p.on.at.over *ℤ corner.x) p.on.at.x }
{
    corner.x() <= p.column
}

// Whether an edge that rises from `a` to `b` passes the row of the point strictly to the right of it. Where both ends are on one
// side, so is the crossing.
fn rises_right_of(a: Point, b: Point, p: CellPoint) -> bool
    requires starts { is_at_or_below a (rational_of p.on.at) ≡ true }
    requires ends { is_at_or_below b (rational_of p.on.at) ≡ false }
    ensures { result ≡ int_lt (pos 0) (turn (rational_of p.on.at) a b) }
{
    match (is_at_or_left(a, p), is_at_or_left(b, p)) {
        (true, true) => false,
        (false, false) => true,
        _ => turn(p.on.at, a, b) > 0,
    }
}

// Whether the edge passes the row of the point strictly to the right of it.
pub(crate) fn is_edge_counted(e: Seg, p: CellPoint) -> bool
    ensures { result ≡ is_counted (rational_of p.on.at) e }
{
    match (is_at_or_below(e.a, p.on), is_at_or_below(e.b, p.on)) {
        (true, false) => rises_right_of(e.a, e.b, p),
        (false, true) => rises_right_of(e.b, e.a, p),
        _ => false,
    }
}
