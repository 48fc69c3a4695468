// Whether an edge has a point in an open disc.
ghost use Rattle.std.specs.Prelude.{◌≡◌, ◌↔◌, ◌≤◌, IsTrue, false, pos, ◌+ℤ◌, ◌-ℤ◌, ◌*ℤ◌, ◌≤ℤ◌};
ghost use Rattle.plane_exact.specs.Distance.{square};
ghost use Rattle.plane_exact.specs.declared.point.Seg.{Seg as Edge};
ghost use Rattle.lane_kernels.specs.Boxes.{is_met};
ghost use Rattle.segment_grid.specs.Near.{box_of};
ghost use Rattle.tangent_disc.specs.OpenDisc.{IsOff, centre_of};

use crate::open_disc::OpenDisc;
use crate::rounding::grid_floor;
use crate::ways::{DiscWay, times};
use evenodd_region::scaled_way;
use lane_kernels::Rect;
use plane_exact::{MOST_RADIUS, Offset, Point, Seg, offset_from};

impl OpenDisc {
    // Whether no point of the edge is in the disc. What counts is the edge's nearest point to the centre: its start, where the edge leads
    // away from the centre, its end, where it comes nearer up to there, and else the foot of the centre on its line.
    pub(crate) fn is_off(&self, edge: &Seg) -> bool
        ensures { IsTrue result ↔ IsOff (centre_of self.now) self.now.reach edge.now }
    {
        let along = offset_from(edge.a, edge.b);
        let start = self.way_from(edge.a);
        let end = self.way_from(edge.b);
        if start.dot(along) <= 0 {
            self.is_far(start)
        } else if end.dot(along) >= 0 {
            self.is_far(end)
        } else {
            self.is_line_far(start, along)
        }
    }

    // The way from the grid point to the centre, times the denominator.
    fn way_from(&self, p: Point) -> DiscWay
        ensures across { result.x ≡ self.now.x -ℤ self.now.over *ℤ p.x }
        ensures up { result.y ≡ self.now.y -ℤ self.now.over *ℤ p.y }
    {
        scaled_way(p, self.x, self.y, self.over)
    }

    // Whether a way so long leads out of the disc.
    fn is_far(&self, way: DiscWay) -> bool
        ensures { IsTrue result ↔ (self.now.reach ≤ℤ (square way.x +ℤ square way.y)) }
    {
        self.reach <= way.wide_dot(way)
    }

    // Whether the line of the edge keeps out of the disc: its distance from the centre, times the edge's length, is the cross product.
    fn is_line_far(&self, start: DiscWay, along: Offset) -> bool
        ensures { IsTrue result ↔ ((self.now.reach *ℤ (square along.x +ℤ square along.y)) ≤ℤ square (start.x *ℤ along.y -ℤ start.y *ℤ along.x)) }
    {
        let height = i128::from(start.cross(along));
        times(self.reach, i128::from(along.length_squared())) <= times(height, height)
    }

    // A box about the disc, whose radius is at most `radius`: an edge whose box misses it has no point in the disc.
    pub(crate) fn box_around(&self, radius: u32) -> Rect
        requires low { radius ≤ MOST_RADIUS }
        requires wide { self.now.reach ≤ℤ square (pos radius *ℤ self.now.over) }
        ensures { (e : Edge) → is_met result (box_of e) ≡ false → IsOff (centre_of self.now) self.now.reach e }
    {
        let column = grid_floor(self.x, self.over);
        let row = grid_floor(self.y, self.over);
        Rect {
            x0: column - radius as i32,
            y0: row - radius as i32,
            x1: column + radius as i32,
            y1: row + radius as i32,
        }
    }
}
