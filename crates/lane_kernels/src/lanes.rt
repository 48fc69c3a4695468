// Boxes by vectors.
ghost use Rattle.std.specs.Prelude.{◌≡◌, ◌+◌, ◌≤◌, length, map, take};
ghost use Rattle.lane_kernels.specs.Boxes.{hit_of};

use crate::boxes::Rect;
use std::simd::i32x4;

// Whether the two boxes meet, by all four comparisons at once.
fn flag_of(b: Rect, q: Rect) -> u8
    ensures { result ≡ hit_of q b }
{
    let low = i32x4::from_array([b.x0, b.y0, q.x0, q.y0]);
    let high = i32x4::from_array([q.x1, q.y1, b.x1, b.y1]);
    low.simd_le(high).all() as u8
}

// Sets the next four flags.
pub(crate) fn put_four(boxes: &[Rect], q: Rect, out: &mut [u8], at: usize)
    requires room { at + 4 ≤ length boxes.now }
    requires same { length out.old ≡ length boxes.now }
    requires front { take at out.old ≡ map (hit_of q) (take at boxes.now) }
    ensures front { take (at + 4) out.new ≡ map (hit_of q) (take (at + 4) boxes.now) }
    ensures same { length out.new ≡ length boxes.now }
{
    out[at] = flag_of(boxes[at], q);
    out[at + 1] = flag_of(boxes[at + 1], q);
    out[at + 2] = flag_of(boxes[at + 2], q);
    out[at + 3] = flag_of(boxes[at + 3], q);
}
