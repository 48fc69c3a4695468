// A stretch of a row of grid points.
ghost use Rattle.std.specs.Prelude.{◌≡◌, ◌≤◌, pos, ◌+ℤ◌, ◌≤ℤ◌};
ghost use Rattle.plane_exact.specs.Plane.{IsCoordinate};

use plane_exact::Point;

// From a first point to the right, up to the point that is `last` from it.
#[derive(Clone, Copy)]
pub struct Stretch {
    pub start: Point,
    pub last: u32,
    ghost end: { IsCoordinate (start.x +ℤ pos last) },
}

impl Stretch {
    // The points of the row y from x0 to x1.
    pub fn new(y: i32, x0: i32, x1: i32) -> Stretch
        requires row { IsCoordinate y }
        requires first { IsCoordinate x0 }
        requires last { IsCoordinate x1 }
        requires order { x0 ≤ℤ x1 }
        ensures start { result.start ≡ record { x = x0; y = y } }
        ensures last { x0 +ℤ pos result.last ≡ x1 }
    {
        Stretch {
            start: point_at(i64::from(x0), i64::from(y)),
            last: (x1 - x0) as u32,
        }
    }

    // The point that is i from the first.
    pub fn point(&self, i: u32) -> Point
        requires { i ≤ self.now.last }
        ensures { result ≡ record { x = self.now.start.x +ℤ pos i; y = self.now.start.y } }
    {
        point_at(
            i64::from(self.start.x()) + i64::from(i),
            i64::from(self.start.y()),
        )
    }
}

// The point with these coordinates.
fn point_at(x: i64, y: i64) -> Point
    requires across { IsCoordinate x }
    requires up { IsCoordinate y }
    ensures { result ≡ record { x = x; y = y } }
{
    match Point::new(x, y) {
        Some(point) => point,
        None => unreachable!(),
    }
}
