// Whether two points are one.
ghost use Rattle.std.specs.Prelude.{◌≡◌};
ghost use Rattle.plane_exact.specs.Plane.{IsOnGrid};
ghost use Rattle.plane_exact.specs.Same.{same_point};

use crate::point::Point;

/// Whether the two points have the same coordinates.
pub fn is_same_point(p: Point, q: Point) -> bool
    ensures value { result ≡ same_point p q }
    ensures first { IsOnGrid p.x p.y }
    ensures second { IsOnGrid q.x q.y }
{
    p.x() == q.x() && p.y() == q.y()
}
