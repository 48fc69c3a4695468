// The floor of a pocket: the grid points at which the deepest depth fits.
ghost use Rattle.std.specs.Prelude.{◌≡◌, ◌↔◌, ◌+◌, ◌*◌, ◌<◌, ◌≤◌, pos, ◌+ℤ◌, ◌<ℤ◌, ◌≤ℤ◌, IsTrue, MatchOption};
ghost use Rattle.std.proofs.Common.{arith, inl, inr, subst};
ghost use Rattle.plane_exact.specs.Cone.{IsFromOneTo};
ghost use Rattle.plane_exact.specs.declared.moves.TheConstants.{MOST_DEPTH};
ghost use Rattle.plane_exact.specs.Plane.{IsCoordinate};
ghost use Rattle.engrave_model.specs.Drawing.{edges_of};
ghost use Rattle.depth_rule.specs.Deepest.{deepest_of};
ghost use Rattle.cleanup_pocket.specs.Floors.{IsJoinedBy};
ghost use Rattle.cleanup_pocket.specs.Pocket.{IsClearWay, IsGood};
ghost use Rattle.cleanup_pocket.specs.Walk.{AreJoinedFrom};

use crate::floor::Floor;
use crate::line::Line;
use depth_rule::{Scene, clearance, greatest_depth, is_clear};
use plane_exact::{Bit, MOST_DEPTH};

/// The grid points of a drawing at which the deepest depth fits that a limit, from 1 to 32,767 grid units, and the bit allow.
#[derive(Clone, Copy)]
pub struct PocketFloor<'a> {
    pub scene: &'a Scene,
    pub bit: &'a Bit,
    pub limit: u32,
    /// The deepest depth, at least 1.
    pub deepest: u32,
    ghost limit_range: { IsFromOneTo MOST_DEPTH limit },
    ghost deepest_is: { deepest ≡ deepest_of bit.now limit },
    ghost deep: { 1 ≤ deepest },
    ghost slope: { 1 ≤ bit.now.sn },
    ghost over: { 1 ≤ bit.now.sd },
}

impl<'a> Floor for PocketFloor<'a> {
    ghost loops_of = { λ floor. floor.scene.now };

    ghost depth_of = { λ floor. deepest_of floor.bit.now floor.limit };

    ghost is_good = { λ floor. IsGood (edges_of floor.scene.now) floor.bit.now floor.limit };

    ghost is_way = { λ floor. IsClearWay (edges_of floor.scene.now) floor.bit.now floor.limit };

    ghost deep = { λ floor. subst (λ z. 1 ≤ z) floor.deepest_is floor.deep };

    ghost good_inside = { λ floor axis line place good. let is = floor.deepest_is in let deep = floor.deep in elim good.fits [ inl none ↦ absurd (Prim.omega arith) | inr clear ↦ clear.inside ] };

    fn scene(&self) -> &Scene {
        self.scene
    }

    fn depth(&self) -> u32 {
        self.deepest
    }

    fn bad_ahead(&self, line: &Line, place: i32) -> u32 {
        let p = line.point(place);
        if !self.scene.is_inside(p) {
            return clearance(self.scene, p, line.left(place)).max(1);
        }
        let depth = greatest_depth(self.scene, p, self.bit, self.limit);
        if depth < self.deepest {
            self.shallow_ahead(depth)
        } else {
            0
        }
    }

    fn joined_ahead(&self, line: &Line, place: i32) -> u32 {
        let wide = self.wide_ahead(line, place);
        if wide > 0 {
            wide
        } else if self.is_joined(line, place) {
            1
        } else {
            0
        }
    }
}

impl<'a> PocketFloor<'a> {
    // How many points of a line from one on, at which this depth is the greatest, are too shallow.
    fn shallow_ahead(&self, depth: u32) -> u32
        requires { depth < self.now.deepest }
        ensures some { 1 ≤ result }
        ensures reach { self.now.bit.now.sd * result + self.now.bit.now.sn * (depth + 1) ≤ self.now.bit.now.sd + self.now.bit.now.sn * self.now.deepest }
        ensures range { result ≤ MOST_DEPTH }
    {
        1 + self.bit.sn() * (self.deepest - depth - 1) / self.bit.sd()
    }

    // How many places from this good one on are joined since all edges are farther than the bit's radius.
    fn wide_ahead(&self, line: &Line, place: i32) -> u32
        requires place { IsCoordinate place }
        requires within { place ≤ℤ line.now.high }
        requires good { IsGood (edges_of self.now.scene.now) self.now.bit.now self.now.limit line.now.axis line.now.at place }
        ensures joined { AreJoinedFrom (IsJoinedBy (IsGood (edges_of self.now.scene.now) self.now.bit.now self.now.limit) (IsClearWay (edges_of self.now.scene.now) self.now.bit.now self.now.limit) line.now.axis line.now.at) place result }
        ensures range { result ≤ MOST_DEPTH }
    {
        let radius = self.bit.sn() * self.deepest;
        let most = (line.left(place) + radius / self.bit.sd()).min(MOST_DEPTH);
        let clear = clearance(self.scene, line.point(place), most);
        (self.bit.sd() * clear).saturating_sub(radius) / self.bit.sd()
    }

    // Whether the good place is joined to the next, which is good where the move between them is clear.
    fn is_joined(&self, line: &Line, place: i32) -> bool
        requires place { IsCoordinate place }
        requires within { place <ℤ line.now.high }
        requires good { IsGood (edges_of self.now.scene.now) self.now.bit.now self.now.limit line.now.axis line.now.at place }
        ensures { IsTrue result ↔ IsJoinedBy (IsGood (edges_of self.now.scene.now) self.now.bit.now self.now.limit) (IsClearWay (edges_of self.now.scene.now) self.now.bit.now self.now.limit) line.now.axis line.now.at place }
    {
        is_clear(self.scene, self.bit, &line.step(place, self.deepest))
    }
}
