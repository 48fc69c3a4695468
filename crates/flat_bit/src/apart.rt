// Whether a point keeps a distance from the edges.
ghost use Rattle.std.specs.Prelude.{◌≡◌, ◌↔◌, ◌*◌, ◌≤◌, IsTrue, false};
ghost use Rattle.plane_exact.specs.Cone.{IsFromOneTo};
ghost use Rattle.plane_exact.specs.Plane.{rational};
ghost use Rattle.plane_exact.specs.declared.point.Seg.{Seg};
ghost use Rattle.engrave_model.specs.Drawing.{edges_of};
ghost use Rattle.lane_kernels.specs.Boxes.{is_met};
ghost use Rattle.segment_grid.specs.Near.{box_of};
ghost use Rattle.flat_bit.specs.Apart.{IsApart, IsEdgeApart};

use depth_rule::Scene;
use lane_kernels::Rect;
use plane_exact::{MOST_SLOPE, Point, dist_at_least};

/// Whether no point of an edge is nearer to `p` than `reach / over` grid units, which is at most 32,764. Only the edges near that disc are
/// asked.
pub fn is_apart(scene: &Scene, p: Point, reach: u32, over: u32) -> bool
    requires reach { reach ≤ 32764 * over }
    requires over { IsFromOneTo MOST_SLOPE over }
    ensures { IsTrue result ↔ IsApart (edges_of scene.now) reach over (rational p) }
{
    for e in scene.near(box_round(p, reach, over)) {
        if !dist_at_least(p, scene.edge(e), reach, over) {
            return false;
        }
    }
    true
}

// A box round the disc over `p` of the radius `reach / over` grid units.
fn box_round(p: Point, reach: u32, over: u32) -> Rect
    requires reach { reach ≤ 32764 * over }
    requires over { IsFromOneTo MOST_SLOPE over }
    ensures { (e : Seg) → is_met result (box_of e) ≡ false → IsEdgeApart reach over (rational p) e }
{
    let radius = reach.div_ceil(over) as i32;
    Rect {
        x0: p.x() - radius,
        y0: p.y() - radius,
        x1: p.x() + radius,
        y1: p.y() + radius,
    }
}
