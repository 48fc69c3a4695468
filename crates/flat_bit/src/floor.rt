// The floor of a flat bit: the grid points at which it keeps off the walls that the conical bit cuts.
ghost use Rattle.std.specs.Prelude.{◌≡◌, ◌*◌, ◌≤◌, ◌≤ℤ◌};
ghost use Rattle.std.proofs.Common.{subst};
ghost use Rattle.plane_exact.specs.Cone.{IsFromOneTo};
ghost use Rattle.plane_exact.specs.declared.bit.TheConstants.{MOST_SLOPE};
ghost use Rattle.plane_exact.specs.declared.moves.TheConstants.{MOST_DEPTH};
ghost use Rattle.plane_exact.specs.Plane.{IsCoordinate, rational};
ghost use Rattle.engrave_model.specs.Drawing.{edges_of};
ghost use Rattle.engrave_model.specs.Inside.{IsInside};
ghost use Rattle.depth_rule.specs.Deepest.{deepest_of};
ghost use Rattle.cleanup_pocket.specs.Floors.{IsJoinedBy, point_on};
ghost use Rattle.cleanup_pocket.specs.Walk.{AreJoinedFrom, IsBadAhead};
ghost use Rattle.flat_bit.specs.Flat.{IsFlatGood, IsFlatWay, flat_reach};

use crate::apart::is_apart;
use cleanup_pocket::{Floor, Line};
use depth_rule::{Scene, clearance};
use plane_exact::{Bit, MOST_DEPTH, MOST_SLOPE};

/// The grid points inside a drawing at which every edge is at least as far as a flat bit's radius and the width together that the conical
/// bit has at the deepest depth.
#[derive(Clone, Copy)]
pub struct FlatFloor<'a> {
    pub scene: &'a Scene,
    /// The conical bit.
    pub bit: &'a Bit,
    /// The deepest depth that is allowed, from 1 to 32,767 grid units.
    pub limit: u32,
    /// The flat bit's radius, in grid units.
    pub radius: u32,
    /// The deepest depth that the limit and the conical bit allow, at least 1.
    pub deepest: u32,
    /// How far the flat bit's axis keeps from the edges, in grid units, times the conical bit's `sd`.
    pub reach: u32,
    ghost limit_range: { IsFromOneTo MOST_DEPTH limit },
    ghost radius_range: { 1 ≤ radius },
    ghost deepest_is: { deepest ≡ deepest_of bit.now limit },
    ghost deep: { 1 ≤ deepest },
    ghost reach_is: { reach ≡ flat_reach bit.now radius (deepest_of bit.now limit) },
    ghost reach_range: { reach ≤ 16382 * bit.now.sd },
    ghost over: { IsFromOneTo MOST_SLOPE bit.now.sd },
}

impl<'a> Floor for FlatFloor<'a> {
    ghost loops_of = { λ floor. floor.scene.now };

    ghost depth_of = { λ floor. deepest_of floor.bit.now floor.limit };

    ghost is_good = { λ floor. IsFlatGood (edges_of floor.scene.now) floor.bit.now floor.limit floor.radius };

    ghost is_way = { λ floor. IsFlatWay (edges_of floor.scene.now) floor.bit.now floor.limit floor.radius };

    ghost deep = { λ floor. subst (λ z. 1 ≤ z) floor.deepest_is floor.deep };

    ghost good_inside = { λ floor axis line place good. good.inside };

    fn scene(&self) -> &Scene {
        self.scene
    }

    fn depth(&self) -> u32 {
        self.deepest
    }

    fn bad_ahead(&self, line: &Line, place: i32) -> u32 {
        let p = line.point(place);
        if self.scene.is_inside(p) {
            self.near_ahead(line, place)
        } else {
            clearance(self.scene, p, line.left(place)).max(1)
        }
    }

    fn joined_ahead(&self, line: &Line, place: i32) -> u32 {
        let wide = self.wide_ahead(line, place);
        if wide > 0 {
            wide
        } else if self.bad_ahead(line, place + 1) == 0 {
            1
        } else {
            0
        }
    }
}

impl<'a> FlatFloor<'a> {
    // How many places from this inner one on are too near to an edge, as far as its clearance tells; 0 where it is good.
    fn near_ahead(&self, line: &Line, place: i32) -> u32
        requires place { IsCoordinate place }
        requires inside { IsInside (edges_of self.now.scene.now) (rational (point_on line.now.axis line.now.at place)) }
        ensures ahead { IsBadAhead (IsFlatGood (edges_of self.now.scene.now) self.now.bit.now self.now.limit self.now.radius line.now.axis line.now.at) place result }
        ensures range { result ≤ MOST_DEPTH }
    {
        let p = line.point(place);
        let whole = self.reach / self.bit.sd();
        let clear = clearance(self.scene, p, whole + 1);
        if clear < whole {
            whole - clear
        } else if clear > whole {
            0
        } else if is_apart(self.scene, p, self.reach, self.bit.sd()) {
            0
        } else {
            1
        }
    }

    // How many places from this good one on are joined since all edges are farther than the reach.
    fn wide_ahead(&self, line: &Line, place: i32) -> u32
        requires place { IsCoordinate place }
        requires within { place ≤ℤ line.now.high }
        requires good { IsFlatGood (edges_of self.now.scene.now) self.now.bit.now self.now.limit self.now.radius line.now.axis line.now.at place }
        ensures joined { AreJoinedFrom (IsJoinedBy (IsFlatGood (edges_of self.now.scene.now) self.now.bit.now self.now.limit self.now.radius) (IsFlatWay (edges_of self.now.scene.now) self.now.bit.now self.now.limit self.now.radius) line.now.axis line.now.at) place result }
        ensures range { result ≤ MOST_DEPTH }
    {
        let most = (line.left(place) + self.reach / self.bit.sd()).min(MOST_DEPTH);
        let clear = clearance(self.scene, line.point(place), most);
        (self.bit.sd() * clear).saturating_sub(self.reach) / self.bit.sd()
    }
}
