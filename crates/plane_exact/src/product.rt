// The ways between grid points, and their products.
ghost use Rattle.std.specs.Prelude.{◌≡◌, ◌-ℤ◌};
ghost use Rattle.plane_exact.specs.Product.{cross_of, dot_of, IsProduct};

use crate::point::Point;
use crate::way::Way;

/// The way from one grid point to another, in grid units.
pub type Offset = Way<65_535>;

/// The offset of one grid point from another, `to - from`.
pub fn offset_from(from: Point, to: Point) -> Offset
    ensures across { result.x ≡ to.x -ℤ from.x }
    ensures up { result.y ≡ to.y -ℤ from.y }
{
    Way {
        x: to.x() as i64 - from.x() as i64,
        y: to.y() as i64 - from.y() as i64,
    }
}

/// The cross product (a - o) × (b - o): above 0 where `b` lies left of the line from `o` through `a`, 0 where it lies on it.
pub fn cross(o: Point, a: Point, b: Point) -> i64
    ensures value { result ≡ cross_of o a b }
    ensures range { IsProduct result }
{
    offset_from(o, a).cross(offset_from(o, b))
}

/// The dot product (a - o) · (b - o): above 0 where the ways from `o` to `a` and to `b` make an angle below a right one.
pub fn dot(o: Point, a: Point, b: Point) -> i64
    ensures value { result ≡ dot_of o a b }
    ensures range { IsProduct result }
{
    offset_from(o, a).dot(offset_from(o, b))
}
