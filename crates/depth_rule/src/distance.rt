// How far a point is from the edges of a drawing.
ghost use Rattle.std.specs.Prelude.{◌≡◌, ◌≤◌};
ghost use Rattle.engrave_model.specs.Drawing.{edges_of};
ghost use Rattle.depth_rule.specs.Clearance.{IsClearance};
ghost use Rattle.depth_rule.specs.Greatest.{IsGreatestUpTo};

use crate::depth::greatest_clear;
use crate::scene::Scene;
use plane_exact::{Bit, MOST_DEPTH, MOST_RADIUS, Point};

/// The clearance of `p` in grid units, as far as `cap`, which is at most 32,767: the greatest whole number up to it such that no point
/// of an edge is nearer to `p`. A point outside the drawing has one too, and that of a point of an edge is 0.
pub fn clearance(scene: &Scene, p: Point, cap: u32) -> u32
    requires { cap ≤ MOST_DEPTH }
    ensures { IsGreatestUpTo (IsClearance (edges_of scene.now) p) cap result }
{
    greatest_clear(scene, p, &right_angled_bit(), cap)
}

// The bit whose radius at each depth is that depth.
fn right_angled_bit() -> Bit
    ensures slope { result.sn ≡ 1 }
    ensures over { result.sd ≡ 1 }
{
    Bit::new(1, 1, MOST_RADIUS).unwrap()
}
