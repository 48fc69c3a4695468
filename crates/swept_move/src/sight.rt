// An end of a move, as it lies from a grid point and the row through it.
ghost use Rattle.std.specs.Prelude.{◌↔◌, ◌≤◌, pos, ◌-ℤ◌, ◌*ℤ◌, ◌≤ℤ◌, ◌<ℤ◌, IsTrue};
ghost use Rattle.integer_algebra.specs.Floors.{IsFloor};
ghost use Rattle.swept_move.specs.Middle.{IsCrossing, IsSight, MeetsRow};
ghost use Rattle.swept_move.specs.Range.{IsFineWay};

use crate::removed::{depth, is_less};
use crate::way::{FineWay, way_from};
use plane_exact::{Bit, Point, Spot, floor_div};

// The way from the point to the end, and how deep the end is: below 0 where it is above the surface.
#[derive(Clone, Copy)]
pub struct Sight {
    pub way: FineWay,
    pub depth: i64,
    ghost range: { IsFineWay depth },
}

// How the spot lies from the point.
pub fn sight_of(point: Point, spot: Spot) -> Sight
    ensures { IsSight point spot result.way.x result.way.y result.depth }
{
    Sight {
        way: way_from(point, spot),
        depth: depth(spot),
    }
}

impl Sight {
    // Whether the bit's disc over the end meets the row.
    pub fn meets(self, bit: &Bit) -> bool
        ensures value { IsTrue result ↔ MeetsRow bit.now self.way.y self.depth }
        ensures wide { 1 ≤ bit.now.sn }
    {
        let (sn, sd) = (bit.sn() as i64, bit.sd() as i64);
        is_less(sd, self.way.y, sn, self.depth) && is_less(sd, -self.way.y, sn, self.depth)
    }

    // How far the end is to the right of the point, in grid units, rounded down.
    pub fn column(self) -> i64
        ensures { IsFloor self.way.x (pos 10) result }
    {
        floor_div(self.way.x, 10)
    }

    // Whether the way from here up to the other end crosses the row below the surface.
    pub fn crosses(self, upper: Sight) -> bool
        ensures { IsTrue result ↔ IsCrossing self.way.y self.depth upper.way.y upper.depth }
    {
        self.way.y < 0
            && (upper.way.y > 0 && is_less(self.way.y, upper.depth, upper.way.y, self.depth))
    }

    // How far to the right of the point it does, in grid units, rounded down.
    pub fn crossing(self, upper: Sight) -> i64
        requires under { self.way.y <ℤ pos 0 }
        requires over { pos 0 <ℤ upper.way.y }
        ensures { IsFloor (self.way.x *ℤ upper.way.y -ℤ self.way.y *ℤ upper.way.x) (pos 10 *ℤ (upper.way.y -ℤ self.way.y)) result }
    {
        floor_div(self.way.cross(upper.way), 10 * (upper.way.y - self.way.y))
    }
}
