// A move that goes below the surface, in tenths of a grid unit, against the edges of a drawing.
ghost use Rattle.std.specs.Prelude.{◌≡◌, ◌↔◌, pos, neg_ℤ, ◌-ℤ◌, ◌*ℤ◌, ◌<ℤ◌, IsTrue};
ghost use Rattle.swept_move.specs.Motion.{IsDeepBetween, PassesBetween, deep_part, sweep_between};
ghost use Rattle.swept_move.specs.Part.{IsNotNegativeIn};
ghost use Rattle.swept_move.specs.Sweep.{IsSweepCrossing, side_by, sweep_margin};
ghost use Rattle.swept_move.specs.Range.{IsFineWay};
ghost use Rattle.swept_move.specs.Clear.{tenfold, tenfold_edge};

use crate::coefficients::clearance;
use crate::distance::is_disc_off;
use crate::moments::{Moments, deep_moments};
use crate::sides::{are_opposite, side_at};
use crate::way::{FineWay, height, way_along, way_between, way_from};
use plane_exact::{Bit, Point, Seg, Spot};

// With what the tests against every edge need of it.
#[derive(Clone, Copy)]
pub struct DeepMove {
    from: Spot,
    to: Spot,
    path: FineWay,
    part: Moments,
    ghost across: { path.x ≡ to.at.x -ℤ from.at.x },
    ghost up: { path.y ≡ to.at.y -ℤ from.at.y },
    ghost moments: { record { first = part.first; last = part.last; over = part.over } ≡ deep_part from.h to.h },
}

impl DeepMove {
    pub fn new(from: Spot, to: Spot) -> DeepMove
        requires { IsDeepBetween from to }
        ensures start { result.from ≡ from }
        ensures finish { result.to ≡ to }
    {
        DeepMove {
            from,
            to,
            path: way_between(from, to),
            part: deep_moments(height(from), height(to)),
        }
    }

    // Whether it passes the tests against the edge, those that take the least work first.
    // If you change this: the tests may change places, but together they are `PassesBetween` of `specs/Motion.antt`, of which the laws
    // of `law.rt` say that it is neither more nor less than that no moment of the move removes a point of the edge. A test left out or
    // loosened breaks the proof here; one that is to mean something else changes that definition, and breaks the laws.
    pub fn passes(&self, bit: &Bit, edge: &Seg) -> bool
        requires { IsDeepBetween self.now.from self.now.to }
        ensures { IsTrue result ↔ PassesBetween bit.now self.now.from self.now.to (tenfold_edge edge.now) }
    {
        !self.is_crossing(edge)
            && self.is_corner_off(bit, edge.a)
            && self.is_corner_off(bit, edge.b)
            && is_disc_off(bit, self.from, edge)
            && is_disc_off(bit, self.to, edge)
    }

    // Whether no disc of its moments below the surface holds the corner.
    fn is_corner_off(&self, bit: &Bit, corner: Point) -> bool
        requires { IsDeepBetween self.now.from self.now.to }
        ensures { IsTrue result ↔ IsNotNegativeIn (deep_part self.now.from.h self.now.to.h) (sweep_margin bit.now (sweep_between self.now.from self.now.to) (tenfold corner)) }
    {
        let from_corner = way_from(corner, self.from);
        let clearance = clearance(bit, from_corner, self.path, self.depth(), self.descent());
        clearance.is_not_negative_in(self.part)
    }

    // How deep its start is: below 0 where that is above the surface.
    fn depth(&self) -> i64
        ensures value { result ≡ neg_ℤ self.now.from.h }
        ensures range { IsFineWay result }
    {
        -height(self.from)
    }

    // How much deeper its finish is.
    fn descent(&self) -> i64
        ensures value { result ≡ self.now.from.h -ℤ self.now.to.h }
        ensures range { IsFineWay result }
    {
        height(self.from) - height(self.to)
    }

    // Whether it crosses the edge, with the ends of its part below the surface and those of the edge strictly on opposite sides.
    fn is_crossing(&self, edge: &Seg) -> bool
        ensures { IsTrue result ↔ IsSweepCrossing (sweep_between self.now.from self.now.to) (tenfold_edge edge.now) }
    {
        let from_a = way_from(edge.a, self.from);
        let from_b = way_from(edge.b, self.from);
        are_opposite(self.path.cross(from_a), self.path.cross(from_b))
            && self.crosses_line(from_a, way_along(edge))
    }

    // Whether the ends of its part below the surface lie strictly on opposite sides of the line along a way, from a point of which
    // its start is the way `from`.
    fn crosses_line(&self, from: FineWay, along: FineWay) -> bool
        ensures { IsTrue result ↔ ((side_by self.now.part.over self.now.part.first along.x along.y from.x from.y self.now.path.x self.now.path.y
            *ℤ side_by self.now.part.over self.now.part.last along.x along.y from.x from.y self.now.path.x self.now.path.y) <ℤ pos 0) }
    {
        let base = along.cross(from);
        let turn = along.cross(self.path);
        let first = side_at(self.part.first, self.part.over, base, turn);
        let last = side_at(self.part.last, self.part.over, base, turn);
        are_opposite(first, last)
    }
}
