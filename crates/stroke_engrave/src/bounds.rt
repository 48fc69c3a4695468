// The box round strokes that the bit may cut in.
ghost use Rattle.std.specs.Prelude.{◌≡◌, [], ◌≤◌, ◌+ℤ◌, pos, MatchOption};
ghost use Rattle.integer_algebra.specs.Ranges.{IsUpTo};
ghost use Rattle.evenodd_region.specs.Bounds.{IsBoxOf};
ghost use Rattle.plane_exact.specs.declared.moves.TheConstants.{MOST_DEPTH};
ghost use Rattle.stroke_engrave.specs.Bounds.{IsStrokeBox, ends_of, to_coordinate};

use depth_rule::Bounds;
use plane_exact::{Bit, MOST_DEPTH, Point, Seg};

// The box of the strokes' ends, widened on each side by the least whole number that is at least the bit's radius at the depth, and cut to
// the coordinates; None without strokes.
pub fn stroke_bounds(strokes: &[Seg], bit: &Bit, depth: u32) -> Option<Bounds>
    requires { depth ≤ MOST_DEPTH }
    ensures { MatchOption result (strokes.now ≡ []) (λ b. IsStrokeBox bit.now depth strokes.now b.low b.high) }
{
    let ends = ends_box(strokes)?;
    let reach = i64::from((bit.sn() * depth).div_ceil(bit.sd()));
    Some(Bounds {
        low: shifted(ends.low, -reach),
        high: shifted(ends.high, reach),
    })
}

// The least box that holds the strokes' ends.
fn ends_box(strokes: &[Seg]) -> Option<Bounds>
    ensures { MatchOption result (strokes.now ≡ []) (λ b. IsBoxOf (ends_of strokes.now) b.low b.high) }
{
    let (first, _) = strokes.split_first()?;
    let mut low = first.a;
    let mut high = first.a;
    for stroke in strokes {
        low = low.lower_left(stroke.a).lower_left(stroke.b);
        high = high.upper_right(stroke.a).upper_right(stroke.b);
    }
    Some(Bounds { low, high })
}

// The point so far to the right and upwards, or as far as the coordinates go.
fn shifted(p: Point, by: i64) -> Point
    requires { IsUpTo (pos 100000000) by }
    ensures { result ≡ record { x = to_coordinate (p.x +ℤ by); y = to_coordinate (p.y +ℤ by) } }
{
    let x = (i64::from(p.x()) + by).clamp(-32_768, 32_767);
    let y = (i64::from(p.y()) + by).clamp(-32_768, 32_767);
    Point::new(x, y).unwrap()
}
