// The discs that touch the outline at a contact on one side of its edge.
ghost use Rattle.std.specs.Prelude.{◌≡◌, ◌↔◌, ◌≤◌, IsTrue, ◌+ℤ◌, ◌*ℤ◌};
ghost use Rattle.plane_exact.specs.Distance.{square};
ghost use Rattle.tangent_disc.specs.Tangent.{IsEdgePoint, normal, point_x, point_y};
ghost use Rattle.tangent_disc.specs.Touch.{IsDiscOf, IsFreeOf, IsTouchAt};
ghost use Rattle.tangent_disc.specs.Ways.{IsStep};

use crate::disc::Side;
use crate::edge_point::EdgePoint;
use crate::open_disc::OpenDisc;
use crate::ways::{Progress, times};
use plane_exact::{MOST_RADIUS, Offset, Seg, Way, offset_from};

// The centres of these discs lie on a line through the contact: the centre of the disc j is the contact and j steps, over a common
// denominator.
#[derive(Clone, Copy)]
pub(crate) struct Touch {
    pub side: Side,
    pub point: EdgePoint,
    pub across: Progress,
    pub up: Progress,
    pub over: i64,
    // The square of the step's length, which is at most 1, times that of the denominator.
    pub size: i64,
    ghost at: { IsTouchAt side point across up over size },
}

// The way of the edge turned by a quarter to the side.
fn turned(edge: &Seg, side: Side) -> Offset
    ensures across { result.x ≡ (normal side edge.now).x }
    ensures up { result.y ≡ (normal side edge.now).y }
{
    let along = offset_from(edge.a, edge.b);
    match side {
        Side::Left => Way {
            x: -along.y,
            y: along.x,
        },
        Side::Right => Way {
            x: along.y,
            y: -along.x,
        },
        Side::Nowhere => Way { x: 0, y: 0 },
    }
}

impl Touch {
    pub(crate) fn of(point: &EdgePoint, side: Side) -> Touch
        requires { IsEdgePoint point.now }
        ensures side { result.side ≡ side }
        ensures point { result.point ≡ point.now }
    {
        let normal = turned(&point.edge, side);
        let across = point.progress_across(normal.x);
        let up = point.progress_up(normal.y);
        Touch {
            side,
            point: *point,
            across,
            up,
            over: point.n * point.length,
            size: across.step * across.step + up.step * up.step,
        }
    }

    // The disc `j`.
    pub(crate) fn disc(&self, j: u32) -> OpenDisc
        requires { j ≤ MOST_RADIUS }
        ensures { IsDiscOf self.now.side self.now.point j result }
    {
        OpenDisc {
            x: self.across.at(j),
            y: self.up.at(j),
            over: self.over,
            reach: times(i128::from(j * j), i128::from(self.size)),
        }
    }

    // Whether no point of the edge is in the disc `j`.
    pub(crate) fn is_free_of(&self, j: u32, edge: &Seg) -> bool
        requires { j ≤ MOST_RADIUS }
        ensures { IsTrue result ↔ IsFreeOf self.now.side self.now.point j edge.now }
    {
        self.disc(j).is_off(edge)
    }
}
