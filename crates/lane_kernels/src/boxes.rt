// Boxes along the axes, and which of many meet one.
ghost use Rattle.std.specs.Prelude.{◌≡◌, ◌≤◌, length, map, take};
ghost use Rattle.lane_kernels.specs.Boxes.{hit_of, is_met, overlap};

use crate::lanes::put_four;

/// A box along the axes, its sides and corners among its points. It holds the points from `x0` to `x1` and from `y0` to `y1`; where a
/// first number is above its second one it holds none, and meets a box as `is_met` says.
#[derive(Clone, Copy, Debug, PartialEq, Eq, Default)]
pub struct Rect {
    pub x0: i32,
    pub y0: i32,
    pub x1: i32,
    pub y1: i32,
}

impl Rect {
    /// Whether the two boxes have a point in common, a side or a corner among them.
    pub fn is_met(self, other: Rect) -> bool
        ensures { result ≡ is_met self other }
    {
        self.overlaps_across(other) && self.overlaps_up(other)
    }

    #[tactic(auto, unfolding(crate::specs::Boxes::overlap))]
    fn overlaps_across(self, other: Rect) -> bool
        ensures { result ≡ overlap self.x0 self.x1 other.x0 other.x1 }
    {
        other.x0 <= self.x1 && self.x0 <= other.x1
    }

    #[tactic(auto, unfolding(crate::specs::Boxes::overlap))]
    fn overlaps_up(self, other: Rect) -> bool
        ensures { result ≡ overlap self.y0 self.y1 other.y0 other.y1 }
    {
        other.y0 <= self.y1 && self.y0 <= other.y1
    }
}

/// Sets `out[i]` to 1 where the box `boxes[i]` meets the box `q`, and to 0 where it doesn't.
pub fn boxes_hit(boxes: &[Rect], q: Rect, out: &mut [u8])
    requires { length out.old ≡ length boxes.now }
    ensures { out.new ≡ map (hit_of q) boxes.now }
{
    let mut at = 0;
    while boxes.len() - at >= 4 {
        put_four(boxes, q, out, at);
        at += 4;
    }
    put_rest(boxes, q, out, at);
}

// Sets the flags from the number `at` on, box by box.
fn put_rest(boxes: &[Rect], q: Rect, out: &mut [u8], mut at: usize)
    requires room { at ≤ length boxes.now }
    requires same { length out.old ≡ length boxes.now }
    requires front { take at out.old ≡ map (hit_of q) (take at boxes.now) }
    ensures { out.new ≡ map (hit_of q) boxes.now }
{
    while at < boxes.len() {
        out[at] = if q.is_met(boxes[at]) { 1 } else { 0 };
        at += 1;
    }
}
