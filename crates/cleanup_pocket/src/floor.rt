// A floor: where a bit may be at one depth, and from which places of a line it may go to the next.
ghost use Rattle.std.specs.Prelude.{◌≡◌, ◌≤◌, ℕ, ℤ, List, ◌≤ℤ◌};
ghost use Rattle.plane_exact.specs.declared.moves.TheConstants.{MOST_DEPTH};
ghost use Rattle.plane_exact.specs.Plane.{GridPoint, IsCoordinate, rational};
ghost use Rattle.engrave_model.specs.Drawing.{edges_of};
ghost use Rattle.engrave_model.specs.Inside.{IsInside};
ghost use Rattle.cleanup_pocket.specs.Floors.{IsJoinedBy, OfPlaces, point_on};
ghost use Rattle.cleanup_pocket.specs.Walk.{IsBadAhead, IsBounded, IsJoinedAhead};
ghost use Rattle.cleanup_pocket.specs.declared.axis.Axis.{Axis};

use crate::line::Line;
use depth_rule::Scene;

/// What a bit may mill of a drawing at one depth, row by row or column by column.
///
/// A place of a line is good where the bit may be at that depth. Two successive good places are joined where it may also go from the one to
/// the other.
pub trait Floor {
    /// The loops of the drawing.
    ghost loops_of: { Self → List (List GridPoint) };

    /// The depth.
    ghost depth_of: { Self → ℕ };

    /// Which places are good.
    ghost is_good: { Self → OfPlaces };

    /// From which places the bit may go to the next.
    ghost is_way: { Self → OfPlaces };

    /// The drawing.
    fn scene(&self) -> &Scene
        ensures { result.now ≡ loops_of self.now };

    /// The depth in grid units.
    fn depth(&self) -> u32
        ensures value { result ≡ depth_of self.now }
        ensures range { result ≤ MOST_DEPTH };

    /// How many places from this one on aren't good, as far as this one tells; 0 where it is good.
    fn bad_ahead(&self, line: &Line, place: i32) -> u32
        requires place { IsCoordinate place }
        requires within { place ≤ℤ line.now.high }
        ensures ahead { IsBadAhead (is_good self.now line.now.axis line.now.at) place result }
        ensures range { result ≤ MOST_DEPTH };

    /// How many places from this good one on are joined to the next, as far as this one tells; 0 where it isn't itself.
    fn joined_ahead(&self, line: &Line, place: i32) -> u32
        requires good { is_good self.now line.now.axis line.now.at place }
        requires bounded { IsBounded (is_good self.now line.now.axis line.now.at) line.now.low line.now.high }
        ensures ahead { IsJoinedAhead (IsJoinedBy (is_good self.now) (is_way self.now) line.now.axis line.now.at) place result }
        ensures range { result ≤ MOST_DEPTH };

    /// The depth is at least 1.
    ghost deep: { (floor : Self) → 1 ≤ depth_of floor };

    /// Good places are inside the drawing.
    ghost good_inside: { (floor : Self) (axis : Axis) (line place : ℤ) → is_good floor axis line place → IsInside (edges_of (loops_of floor)) (rational (point_on axis line place)) };
}
