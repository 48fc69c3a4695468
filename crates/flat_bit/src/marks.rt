// Which points of a row are over the floor.
ghost use Rattle.std.specs.Prelude.{◌≡◌, ◌≢◌, ◌↔◌, ℕ, ◌<◌, ◌*◌, ◌+ℤ◌, pos, length, IsTrue};
ghost use Rattle.plane_exact.specs.Cone.{IsCone};
ghost use Rattle.plane_exact.specs.Plane.{IsCoordinate, rational};
ghost use Rattle.engrave_model.specs.Drawing.{edges_of};
ghost use Rattle.engrave_model.specs.Inside.{IsInside};
ghost use Rattle.evenodd_region.specs.RowBits.{IsSetIn, point_of_row};
ghost use Rattle.depth_rule.specs.Deepest.{deepest_of};
ghost use Rattle.flat_bit.specs.Left.{IsFloorPoint};

use crate::apart::is_apart;
use coverage_report::Marks;
use depth_rule::Scene;
use plane_exact::{Bit, Point};

/// Marks the grid points at which the deepest depth that a limit and the conical bit allow is the greatest that fits, and isn't 0.
#[derive(Clone, Copy)]
pub struct FloorMarks<'a> {
    pub scene: &'a Scene,
    pub bit: &'a Bit,
    pub limit: u32,
    /// The deepest depth.
    pub deepest: u32,
    ghost deepest_is: { deepest ≡ deepest_of bit.now limit },
    ghost cone: { IsCone bit.now.sn bit.now.sd bit.now.rmax },
}

impl FloorMarks<'_> {
    // Whether the point, which is inside, is over the floor.
    fn is_over(&self, p: Point) -> bool
        requires { IsInside (edges_of self.now.scene.now) (rational p) }
        ensures { IsTrue result ↔ IsFloorPoint self.now.scene.now self.now.bit.now self.now.limit p }
    {
        self.deepest > 0 && is_apart(self.scene, p, self.bit.sn() * self.deepest, self.bit.sd())
    }
}

impl Marks for FloorMarks<'_> {
    ghost is_marked = { λ marks p. IsFloorPoint marks.scene.now marks.bit.now marks.limit p };

    fn mark_row(&self, y: i32, x0: i32, pitch: u32, count: u32, bits: &mut [u64]) {
        self.scene.row_inside(y, x0, pitch, count, bits);
        for i in 0..count {
            if is_set(bits, i) && !self.is_over(point_of_row(y, x0, pitch, i)) {
                clear(bits, i);
            }
        }
    }
}

// The point of this number, from 0, of the row that begins at (x0, y).
fn point_of_row(y: i32, x0: i32, pitch: u32, i: u32) -> Point
    requires up { IsCoordinate y }
    requires first { IsCoordinate x0 }
    requires there { IsCoordinate (x0 +ℤ pos (i * pitch)) }
    ensures { result ≡ point_of_row y x0 pitch i }
{
    let x = x0 + (i * pitch) as i32;
    Point::new(i64::from(x), i64::from(y)).unwrap()
}

// Whether the bit of this number is 1.
fn is_set(bits: &[u64], i: u32) -> bool
    requires { i < 64 * length bits.now }
    ensures { IsTrue result ↔ IsSetIn bits.now i }
{
    bits[(i / 64) as usize] >> (i % 64) & 1 == 1
}

// Makes the bit of this number 0.
fn clear(bits: &mut [u64], i: u32)
    requires { i < 64 * length bits.old }
    ensures { (j : ℕ) → IsSetIn bits.new j ↔ (IsSetIn bits.old j × (j ≢ i)) }
{
    bits[(i / 64) as usize] &= !(1 << (i % 64));
}
