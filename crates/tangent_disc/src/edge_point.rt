// A contact with its edge at hand.
ghost use Rattle.std.specs.Prelude.{◌≡◌, pos, ◌+ℤ◌, ◌-ℤ◌, ◌*ℤ◌, ◌≤ℤ◌};
ghost use Rattle.plane_exact.specs.Plane.{IsCoordinate};
ghost use Rattle.plane_exact.specs.Product.{IsDifference};
ghost use Rattle.engrave_model.specs.Drawing.{IsDrawing};
ghost use Rattle.tangent_disc.specs.Contacts.{IsContactOf};
ghost use Rattle.tangent_disc.specs.Tangent.{IsEdgePoint, IsPointOfContact, centre_over, point_x, point_y};
ghost use Rattle.tangent_disc.specs.Ways.{IsAmongGrid};

use crate::contact::Contact;
use crate::pieces::length_up;
use crate::ways::Progress;
use loops_text::Drawing;
use plane_exact::Seg;

/// The point at k / n of the way along an edge.
#[derive(Clone, Copy)]
pub struct EdgePoint {
    pub edge: Seg,
    /// From 0 to `n`.
    pub k: i64,
    /// From 1 to 8192.
    pub n: i64,
    /// The length of the edge, rounded up, from 1 to 92,681.
    pub length: i64,
}

impl EdgePoint {
    // The contact as a point of its edge.
    pub(crate) fn of(drawing: &Drawing, c: &Contact) -> EdgePoint
        requires { IsContactOf drawing.now c.now }
        ensures value { IsPointOfContact drawing.now c.now result }
        ensures range { IsEdgePoint result }
        ensures drawing { IsDrawing drawing.now }
    {
        let edge = drawing.edge(c.edge);
        EdgePoint {
            edge,
            k: i64::from(c.k),
            n: i64::from(c.n),
            length: i64::from(length_up(&edge)),
        }
    }

    // How the first coordinate of the centres of the discs goes from here, where `normal` is that of the edge's normal.
    pub(crate) fn progress_across(&self, normal: i64) -> Progress
        requires range { IsEdgePoint self.now }
        requires normal { IsDifference normal }
        ensures start { result.start ≡ self.now.length *ℤ point_x self.now }
        ensures step { result.step ≡ self.now.n *ℤ normal }
        ensures among { IsAmongGrid result.start (centre_over self.now) }
    {
        self.progress(
            i64::from(self.edge.a.x()),
            i64::from(self.edge.b.x()),
            normal,
        )
    }

    // The same of the second coordinate.
    pub(crate) fn progress_up(&self, normal: i64) -> Progress
        requires range { IsEdgePoint self.now }
        requires normal { IsDifference normal }
        ensures start { result.start ≡ self.now.length *ℤ point_y self.now }
        ensures step { result.step ≡ self.now.n *ℤ normal }
        ensures among { IsAmongGrid result.start (centre_over self.now) }
    {
        self.progress(
            i64::from(self.edge.a.y()),
            i64::from(self.edge.b.y()),
            normal,
        )
    }

    // The same of the coordinate in which the edge goes from `from` to `to`.
    fn progress(&self, from: i64, to: i64, normal: i64) -> Progress
        requires range { IsEdgePoint self.now }
        requires from { IsCoordinate from }
        requires to { IsCoordinate to }
        requires normal { IsDifference normal }
        ensures start { result.start ≡ self.now.length *ℤ (self.now.n *ℤ from +ℤ self.now.k *ℤ (to -ℤ from)) }
        ensures step { result.step ≡ self.now.n *ℤ normal }
        ensures among { IsAmongGrid result.start (centre_over self.now) }
    {
        Progress {
            start: self.length * (self.n * from + self.k * (to - from)),
            step: self.n * normal,
        }
    }
}
