// Points of the grid by their numbers.
ghost use Rattle.plane_exact.specs.Plane.{IsOnGrid};

use plane_exact::Point;

pub fn point(x: i64, y: i64) -> Point
    requires { IsOnGrid x y }
{
    Point::new(x, y).unwrap()
}
