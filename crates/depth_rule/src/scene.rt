// A drawing made ready to be asked: which points it holds, and its edges by number.
use crate::bounds::{Bounds, bounds_of_starts};
use evenodd_region::{Rows, inside, inside_ratio, row_inside};
use lane_kernels::Rect;
use loops_text::Drawing;
use plane_exact::{Point, Seg, Spot};
use segment_grid::{Grid, Near};
use std::alloc::{AllocError, Global};
use std::marker::Model;

/// A drawing, ready to be asked about points, depths and moves.
#[derive(Debug, Drop)]
pub struct Scene {
    drawing: Drawing,
    rows: Rows,
    grid: Grid,
}

impl Model for Scene {
    ghost use Rattle.std.specs.Prelude.{List};
    ghost use Rattle.plane_exact.specs.Plane.{GridPoint};
    ghost use Rattle.depth_rule.specs.Kept.{IsKept};

    ghost Value = { List (List GridPoint) };

    ghost view = { λ s. s.drawing };

    ghost invariant = { λ s. IsKept s.rows s.grid s.drawing };
}

impl Scene {
    ghost use Rattle.std.specs.Prelude.{◌≡◌, ◌↔◌, ◌<◌, ◌≤◌, ◌+◌, ◌-◌, ◌*◌, ◌/◌, ◌+ℤ◌, pos, [], length, Some, IfOk, IsTrue, MatchOption};
    ghost use Rattle.std.specs.List.{slice_get};
    ghost use Rattle.plane_exact.specs.Plane.{IsCoordinate, RationalPoint, rational};
    ghost use Rattle.engrave_model.specs.Drawing.{IsDrawing, edges_of};
    ghost use Rattle.engrave_model.specs.Inside.{IsInside};
    ghost use Rattle.engrave_model.specs.Removal.{from_tenths};
    ghost use Rattle.evenodd_region.specs.Bounds.{IsBoxOf, points_of};
    ghost use Rattle.evenodd_region.specs.Lookup.{IsPointOf, IsRatio};
    ghost use Rattle.evenodd_region.specs.RowBits.{IsRowOf};
    ghost use Rattle.segment_grid.specs.Near.{AreNear};

    /// The scene of a drawing. It may answer that memory ran out.
    pub fn new(alloc: Global, drawing: Drawing) -> Result<Scene, AllocError>
        ensures { IfOk result (λ scene. scene ≡ drawing) }
    {
        let rows = Rows::build(alloc, &drawing)?;
        let grid = Grid::build(alloc, &drawing)?;
        Ok(Scene {
            drawing,
            rows,
            grid,
        })
    }

    /// The drawing, whose edges keep their numbers.
    pub fn drawing(&self) -> &Drawing
        ensures { result.now ≡ self.now }
    {
        &self.drawing
    }

    /// The edge with this number.
    pub fn edge(&self, e: u32) -> Seg
        requires { e < length (edges_of self.now) }
        ensures edge { slice_get (edges_of self.now) e ≡ Some result }
        ensures drawing { IsDrawing self.now }
    {
        self.drawing.edge(e)
    }

    /// The numbers of the edges whose boxes meet `q`, each once, in any order. It takes no memory.
    pub fn near(&self, q: Rect) -> Near<'_>
        ensures { AreNear (edges_of self.now) q result }
    {
        self.grid.near(&self.drawing, q)
    }

    /// The least box that holds all points of the drawing, or None where it has none.
    pub fn bounds(&self) -> Option<Bounds>
        ensures { MatchOption result (points_of self.now ≡ []) (λ b. IsBoxOf (points_of self.now) b.low b.high) }
    {
        bounds_of_starts(self.drawing.all_edges())
    }

    /// Whether the drawing holds the grid point.
    pub fn is_inside(&self, p: Point) -> bool
        ensures { IsTrue result ↔ IsInside (edges_of self.now) (rational p) }
    {
        inside(&self.rows, p)
    }

    /// Whether the drawing holds the point (x / den, y / den), in grid units. The denominator is from 1 to 2^30, and both
    /// quotients are from -40,960 to 40,959.
    pub fn inside_at(&self, x: i128, y: i128, den: i128) -> bool
        requires { IsRatio x y den }
        ensures { (w : RationalPoint) → IsPointOf x y den w → IsTrue result ↔ IsInside (edges_of self.now) w }
    {
        inside_ratio(&self.rows, x, y, den)
    }

    /// Which points of a row the drawing holds. The row has `count` points, from (x0, y) to the right at this pitch, in grid
    /// units, and there are as many words as so many bits need. Bit i % 64 of the word i / 64, the lowest first, is 1 where the
    /// point i is inside; the bits from `count` on are 0.
    pub fn row_inside(&self, y: i32, x0: i32, pitch: u32, count: u32, bits: &mut [u64])
        requires row { IsCoordinate y }
        requires first { IsCoordinate x0 }
        requires last { IsCoordinate (x0 +ℤ pos ((count - 1) * pitch)) }
        requires some { 1 ≤ count }
        requires apart { 1 ≤ pitch }
        requires words { length bits.old ≡ (count + 63) / 64 }
        ensures { IsRowOf (edges_of self.now) y x0 pitch count bits.new }
    {
        row_inside(&self.rows, y, x0, pitch, count, bits);
    }

    /// Whether the drawing holds the place of the spot.
    pub fn holds(&self, spot: Spot) -> bool
        ensures { IsTrue result ↔ IsInside (edges_of self.now) (from_tenths spot.at) }
    {
        self.inside_at(i128::from(spot.x), i128::from(spot.y), 10)
    }
}
