// The points of a segment.
ghost use Rattle.std.specs.Prelude.{◌↔◌, IsTrue};
ghost use Rattle.plane_exact.specs.Plane.{IsBetween, rational};

use crate::point::{Point, Seg};
use crate::product::{cross, dot};

/// Whether `s` passes through `p`, which may be one of its ends.
pub fn passes_through(s: Seg, p: Point) -> bool
    ensures { IsTrue result ↔ IsBetween s.a s.b (rational p) }
{
    cross(s.a, s.b, p) == 0 && dot(p, s.a, s.b) <= 0
}
