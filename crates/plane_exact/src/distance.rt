// The distance of a point and a segment, compared exactly.
ghost use mir.Syntax.{w128};
ghost use Rattle.std.specs.Prelude.{◌≡◌, ◌↔◌, ◌*◌, ◌≤◌, pos, ◌*ℤ◌, ◌≤ℤ◌, FitsSigned, IsTrue};
ghost use Rattle.plane_exact.specs.Plane.{RationalPoint, IsBetween, rational};
ghost use Rattle.plane_exact.specs.Distance.{IsAtLeastApart, square};
ghost use Rattle.plane_exact.specs.Product.{cross_of, dot_of};

use crate::bit::MOST_SLOPE;
use crate::moves::MOST_DEPTH;
use crate::point::{Point, Seg};
use crate::product::{cross, dot};

/// Whether every rational point of `s` is at least `num / den` grid units from `p`.
///
/// `num` is at most 65,534,000 and `den` from 1 to 2,000. The ends of `s` may be one point.
pub fn dist_at_least(p: Point, s: Seg, num: u32, den: u32) -> bool
    requires num { num ≤ MOST_SLOPE * MOST_DEPTH }
    requires den_low { 1 ≤ den }
    requires den_high { den ≤ MOST_SLOPE }
    ensures { IsTrue result ↔ ((w : RationalPoint) → IsBetween s.a s.b w → IsAtLeastApart (pos num) (pos den) (rational p) w) }
{
    if dot(s.a, s.b, p) <= 0 {
        point_at_least(p, s.a, num, den)
    } else if dot(s.b, s.a, p) <= 0 {
        point_at_least(p, s.b, num, den)
    } else {
        line_at_least(p, s, num, den)
    }
}

// Whether `q` is at least `num / den` grid units from `p`.
fn point_at_least(p: Point, q: Point, num: u32, den: u32) -> bool
    requires num { num ≤ MOST_SLOPE * MOST_DEPTH }
    requires den { den ≤ MOST_SLOPE }
    ensures { IsTrue result ↔ (square (pos num) ≤ℤ (dot_of p q q *ℤ square (pos den))) }
{
    squared(num) <= times(dot(p, q, q) as i128, squared(den))
}

// Whether the line through `s` is at least `num / den` grid units from `p`: its height above `s`, times the length of `s`, is the
// cross product. True where the ends of `s` are one point, since that has no line.
fn line_at_least(p: Point, s: Seg, num: u32, den: u32) -> bool
    requires num { num ≤ MOST_SLOPE * MOST_DEPTH }
    requires den { den ≤ MOST_SLOPE }
    ensures { IsTrue result ↔ ((square (pos num) *ℤ dot_of s.a s.b s.b) ≤ℤ ((cross_of s.a s.b p *ℤ cross_of s.a s.b p) *ℤ square (pos den))) }
{
    let height = cross(s.a, s.b, p) as i128;
    times(squared(num), dot(s.a, s.b, s.b) as i128) <= times(times(height, height), squared(den))
}

fn squared(number: u32) -> i128
    requires { number ≤ MOST_SLOPE * MOST_DEPTH }
    ensures { result ≡ square (pos number) }
{
    number as i128 * number as i128
}

fn times(a: i128, b: i128) -> i128
    requires { FitsSigned w128 (a *ℤ b) }
    ensures { result ≡ a *ℤ b }
{
    a * b
}
