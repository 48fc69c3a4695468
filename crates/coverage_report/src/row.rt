// A row of points of a report.
use plane_exact::Point;
use std::marker::Model;

/// Points of one row of the grid, at least one: `count` of them, from (x, y) on to the right at this pitch, in grid units.
#[derive(Clone, Copy, Debug, PartialEq, Eq)]
pub struct Row {
    pub y: i32,
    pub x: i32,
    pub pitch: u32,
    pub count: u32,
}

impl Model for Row {
    ghost use Rattle.coverage_report.specs.Rows.{IsPointRow, PointRow};

    ghost Value = { PointRow };

    ghost view = { λ r. record { y = r.y; x = r.x; pitch = r.pitch; count = r.count } };

    ghost invariant = { λ r. IsPointRow (record { y = r.y; x = r.x; pitch = r.pitch; count = r.count }) };

    ghost inverse = { λ p. record { y = p.y; x = p.x; pitch = p.pitch; count = p.count } };
}

impl Row {
    ghost use Rattle.std.specs.Prelude.{◌≡◌, ◌<◌, ◌*◌, pos, ◌+ℤ◌};
    ghost use Rattle.evenodd_region.specs.RowBits.{point_of_row};

    /// The point of this number, from 0 on.
    pub fn point(&self, i: u32) -> Point
        requires { i < self.now.count }
        ensures { result ≡ point_of_row self.now.y self.now.x self.now.pitch i }
    {
        let x = self.x + (i * self.pitch) as i32;
        Point::new(i64::from(x), i64::from(self.y)).unwrap()
    }
}
