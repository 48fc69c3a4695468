// The node halfway between two nodes of a path.
ghost use Rattle.std.specs.Prelude.{◌↔◌, IsTrue, MatchOption};
ghost use Rattle.plane_exact.specs.Cone.{IsFromOneTo};
ghost use Rattle.plane_exact.specs.Plane.{IsCoordinate};
ghost use Rattle.engrave_model.specs.Drawing.{edges_of};
ghost use Rattle.link_split.specs.Midway.{AreNeighbours, HasNoMidway, IsHalf, IsHalfway, IsMidway, IsWithinOne};

use depth_rule::{Scene, greatest_depth};
use plane_exact::{Bit, MOST_DEPTH, Node, Point};

/// The node at which the way from `p` to `q` may be halved: the points aren't neighbours, and some depth fits halfway.
pub fn midway(scene: &Scene, bit: &Bit, limit: u32, p: Node, q: Node) -> Option<Node>
    requires { IsFromOneTo MOST_DEPTH limit }
    ensures { MatchOption result (HasNoMidway (edges_of scene.now) bit.now limit p q) (IsMidway (edges_of scene.now) bit.now limit p q) }
{
    if are_neighbours(p.at, q.at) {
        return None;
    }
    let mid = halfway(scene, bit, limit, p, q);
    if mid.depth == 0 { None } else { Some(mid) }
}

/// The node halfway between `p` and `q`, as deep as fits there.
fn halfway(scene: &Scene, bit: &Bit, limit: u32, p: Node, q: Node) -> Node
    requires { IsFromOneTo MOST_DEPTH limit }
    ensures { IsHalfway (edges_of scene.now) bit.now limit p q result }
{
    let at = point_halfway(p.at, q.at);
    Node {
        at,
        depth: greatest_depth(scene, at, bit, limit),
    }
}

/// The point halfway, rounded down in each coordinate.
fn point_halfway(p: Point, q: Point) -> Point
    ensures across { IsHalf p.x q.x result.x }
    ensures up { IsHalf p.y q.y result.y }
{
    match Point::new(half(p.x(), q.x()), half(p.y(), q.y())) {
        Some(point) => point,
        None => unreachable!(),
    }
}

// Half the sum of two coordinates, rounded down.
fn half(a: i32, b: i32) -> i64
    requires first { IsCoordinate a }
    requires second { IsCoordinate b }
    ensures value { IsHalf a b result }
    ensures range { IsCoordinate result }
{
    i64::from(a + b).div_euclid(2)
}

/// Whether neither coordinate of the points differs by more than 1.
fn are_neighbours(p: Point, q: Point) -> bool
    ensures { IsTrue result ↔ AreNeighbours p q }
{
    are_within_one(p.x(), q.x()) && are_within_one(p.y(), q.y())
}

// Whether two coordinates differ by at most 1.
fn are_within_one(a: i32, b: i32) -> bool
    requires first { IsCoordinate a }
    requires second { IsCoordinate b }
    ensures { IsTrue result ↔ IsWithinOne a b }
{
    if a > b + 1 {
        return false;
    }
    if b > a + 1 {
        return false;
    }
    true
}
