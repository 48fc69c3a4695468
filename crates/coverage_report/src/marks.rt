// Which points of a row are marked, and stay marked.
ghost use Rattle.std.specs.Prelude.{◌≡◌, ◌≤◌, ◌+◌, ◌-◌, ◌*◌, ◌/◌, ◌+ℤ◌, pos, length};
ghost use Rattle.plane_exact.specs.Plane.{GridPoint, IsCoordinate};
ghost use Rattle.coverage_report.specs.Cuts.{AreWithout};
ghost use Rattle.coverage_report.specs.Marked.{IsRowMarked};
ghost use Rattle.coverage_report.specs.Points.{IsDrawn};

use depth_rule::Scene;
use lane_kernels::and_not;

/// What marks points of the grid, as a drawing marks those that it holds.
pub trait Marks {
    /// Which points are marked.
    ghost is_marked: { Self → GridPoint → Type 0 };

    /// Which points of a row are marked. The row has `count` points, from (x0, y) to the right at this pitch, in grid units, and
    /// there are as many words as so many bits need. Bit i % 64 of the word i / 64, the lowest first, becomes 1 where the point i is
    /// marked; the bits from `count` on become 0.
    fn mark_row(&self, y: i32, x0: i32, pitch: u32, count: u32, bits: &mut [u64])
        requires row { IsCoordinate y }
        requires first { IsCoordinate x0 }
        requires last { IsCoordinate (x0 +ℤ pos ((count - 1) * pitch)) }
        requires some { 1 ≤ count }
        requires apart { 1 ≤ pitch }
        requires words { length bits.old ≡ (count + 63) / 64 }
        ensures { IsRowMarked (is_marked self.now) y x0 pitch count bits.new };
}

impl Marks for Scene {
    ghost is_marked = { IsDrawn };

    fn mark_row(&self, y: i32, x0: i32, pitch: u32, count: u32, bits: &mut [u64]) {
        self.row_inside(y, x0, pitch, count, bits);
    }
}

/// Clears the bits of the points that are cut, and leaves the others.
pub fn clear_cut(cut: &[u64], bits: &mut [u64])
    requires { length bits.old ≡ length cut.now }
    ensures { AreWithout cut.now bits.old bits.new }
{
    and_not(bits, cut);
}
