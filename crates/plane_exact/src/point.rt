// Points and segments of the grid.
ghost use Rattle.std.specs.Prelude.{◌≡◌, ◌↔◌, IsSome, IfSome};
ghost use Rattle.std.specs.Int.{int_max, int_min};
ghost use Rattle.plane_exact.specs.Plane.{IsOnGrid};

use std::marker::Model;

/// A point of the grid. Both coordinates are in grid units, from -32,768 to 32,767.
#[derive(Clone, Copy, Debug, PartialEq, Eq)]
pub struct Point {
    x: i32,
    y: i32,
}

impl Model for Point {
    ghost use Rattle.plane_exact.specs.Plane.{GridPoint, IsOnGrid};

    ghost Value = { GridPoint };

    ghost view = { λ p. record { x = p.x; y = p.y } };

    ghost invariant = { λ p. IsOnGrid p.x p.y };

    ghost inverse = { λ g. record { x = g.x; y = g.y } };
}

impl Point {
    /// The point with these coordinates, or None where one of them is out of range.
    pub fn new(x: i64, y: i64) -> Option<Point>
        ensures range { IsSome result ↔ IsOnGrid x y }
        ensures value { IfSome result (λ p. p ≡ record { x = x; y = y }) }
    {
        if -32_768 <= x && x <= 32_767 && -32_768 <= y && y <= 32_767 {
            Some(Point {
                x: x as i32,
                y: y as i32,
            })
        } else {
            None
        }
    }

    /// The distance to the right of the origin, in grid units.
    pub fn x(&self) -> i32
        ensures value { result ≡ self.now.x }
        ensures range { IsOnGrid self.now.x self.now.y }
    {
        self.x
    }

    /// The distance above the origin, in grid units.
    pub fn y(&self) -> i32
        ensures value { result ≡ self.now.y }
        ensures range { IsOnGrid self.now.x self.now.y }
    {
        self.y
    }

    /// The lower left corner of the box whose sides the two points lie on.
    pub fn lower_left(self, other: Point) -> Point
        ensures across { result.x ≡ int_min self.x other.x }
        ensures up { result.y ≡ int_min self.y other.y }
    {
        Point {
            x: self.x.min(other.x),
            y: self.y.min(other.y),
        }
    }

    /// The upper right corner of that box.
    pub fn upper_right(self, other: Point) -> Point
        ensures across { result.x ≡ int_max self.x other.x }
        ensures up { result.y ≡ int_max self.y other.y }
    {
        Point {
            x: self.x.max(other.x),
            y: self.y.max(other.y),
        }
    }
}

/// The straight path from `a` to `b`, both ends among its points.
#[derive(Clone, Copy, Debug, PartialEq, Eq)]
pub struct Seg {
    pub a: Point,
    pub b: Point,
}
