// How far an edge is from the tip, in tenths of a grid unit: whether the bit's disc at the surface holds a point of it.
ghost use Rattle.std.specs.Prelude.{◌≡◌, ◌↔◌, ◌≤◌, pos, ◌+ℤ◌, ◌-ℤ◌, ◌*ℤ◌, ◌≤ℤ◌, IsTrue};
ghost use Rattle.plane_exact.specs.Moves.{depth_of};
ghost use Rattle.engrave_model.specs.Depth.{IsEdgeClear};
ghost use Rattle.swept_move.specs.Range.{IsFineCoefficient, IsFineProduct};
ghost use Rattle.plane_exact.specs.Heights.{IsHeight};
ghost use Rattle.integer_algebra.specs.Ranges.{IsUpTo};
ghost use Rattle.swept_move.specs.Clear.{tenfold_edge};

use crate::clearance::product;
use crate::way::{FineWay, way_along, way_from};
use plane_exact::{Bit, Seg, Spot};

// Whether the disc that the bit cuts at the surface, where its tip is at the spot, holds no point of the edge. The nearest point of the
// edge is one of its ends, or the foot of the spot on its line.
pub fn is_disc_off(bit: &Bit, spot: Spot, edge: &Seg) -> bool
    ensures { IsTrue result ↔ IsEdgeClear bit.now spot.at (depth_of spot.h) (tenfold_edge edge.now) }
{
    let along = way_along(edge);
    let from_a = way_from(edge.a, spot);
    let from_b = way_from(edge.b, spot);
    let reach = reach_at(bit, spot);
    if from_a.dot(along) <= 0 {
        is_long(from_a, reach, bit.sd())
    } else if from_b.dot(along) >= 0 {
        is_long(from_b, reach, bit.sd())
    } else {
        is_line_off(from_a, along, reach, bit.sd())
    }
}

// How deep the spot is below the surface: 0 from the surface up.
fn depth(spot: Spot) -> i64
    ensures value { result ≡ pos (depth_of spot.h) }
    ensures range { IsHeight result }
{
    spot.depth() as i64
}

// SN times the depth: SD times as far as the disc reaches.
fn reach_at(bit: &Bit, spot: Spot) -> i64
    ensures value { result ≡ pos bit.now.sn *ℤ pos (depth_of spot.h) }
    ensures range { IsUpTo (pos 655340000) result }
{
    bit.sn() as i64 * depth(spot)
}

// Whether the way is at least `reach / sd` long.
fn is_long(way: FineWay, reach: i64, sd: u32) -> bool
    requires reach { IsUpTo (pos 655340000) reach }
    requires sd { sd ≤ 2000 }
    ensures { IsTrue result ↔ ((reach *ℤ reach) ≤ℤ ((way.x *ℤ way.x +ℤ way.y *ℤ way.y) *ℤ (pos sd *ℤ pos sd))) }
{
    product(reach, reach) <= product(way.dot(way), squared(sd))
}

// Whether the line along a way is at least `reach / sd` from the end of another, which begins on it: its height above the line,
// times the length of the first, is the cross product.
fn is_line_off(from: FineWay, along: FineWay, reach: i64, sd: u32) -> bool
    requires reach { IsUpTo (pos 655340000) reach }
    requires sd { sd ≤ 2000 }
    ensures { IsTrue result ↔ (((reach *ℤ reach) *ℤ (along.x *ℤ along.x +ℤ along.y *ℤ along.y)) ≤ℤ (((along.x *ℤ from.y -ℤ along.y *ℤ from.x) *ℤ pos sd) *ℤ ((along.x *ℤ from.y -ℤ along.y *ℤ from.x) *ℤ pos sd))) }
{
    let height = scaled(along.cross(from), sd);
    product(squared_reach(reach), along.dot(along)) <= product(height, height)
}

fn squared(sd: u32) -> i64
    requires { sd ≤ 2000 }
    ensures value { result ≡ pos sd *ℤ pos sd }
    ensures range { IsFineCoefficient result }
{
    sd as i64 * sd as i64
}

fn squared_reach(reach: i64) -> i64
    requires { IsUpTo (pos 655340000) reach }
    ensures value { result ≡ reach *ℤ reach }
    ensures range { IsFineCoefficient result }
{
    reach * reach
}

fn scaled(product: i64, sd: u32) -> i64
    requires product { IsFineProduct product }
    requires sd { sd ≤ 2000 }
    ensures value { result ≡ product *ℤ pos sd }
    ensures range { IsFineCoefficient result }
{
    product * sd as i64
}
