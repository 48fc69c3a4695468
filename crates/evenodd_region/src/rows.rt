// Which points a drawing holds, by the even-odd rule over the edges of a band of rows.
ghost use Rattle.std.specs.Prelude.{◌≡◌, ◌↔◌, ◌%◌, ◌≤◌, pos, ◌-ℤ◌, IsTrue, List, count_by, filter, IfOk};
ghost use Rattle.plane_exact.specs.Plane.{GridPoint, RationalPoint, rational};
ghost use Rattle.engrave_model.specs.Drawing.{edges_of};
ghost use Rattle.engrave_model.specs.Inside.{IsInside, IsOnOutline, is_counted};
ghost use Rattle.evenodd_region.specs.Lookup.{AreRowsOf, IsOfRow, IsPointOf, IsRatio, band_of, lies_in};
ghost use Rattle.evenodd_region.specs.Ratios.{rational_of};

use crate::bands::Layout;
use crate::grid::is_inside;
use crate::ratio::RatioPoint;
use crate::sides::{CellPoint, RowPoint, is_edge_counted, is_on_edge};
use loops_text::Drawing;
use plane_exact::{Point, Seg};
use std::alloc::{AllocError, Global};
use std::marker::Model;

/// The edges of a drawing by bands of rows, kept for asking which points it holds.
#[derive(Debug, Drop)]
pub struct Rows {
    layout: Layout,
    // Copies of the edges, and not their numbers: a question reads all edges of a band, which so stand one behind the other,
    // and the rows borrow nothing of the drawing.
    bands: Vec<Vec<Seg>>,
}

impl Model for Rows {
    ghost use Rattle.std.specs.Prelude.{◌≡◌, map, vec_len};
    ghost use Rattle.evenodd_region.specs.Lookup.{Bands};

    ghost Value = { Bands };

    ghost view = { λ rows. record { low = rows.layout.low; height = rows.layout.height; edges = map (λ band. band.items) rows.bands.items } };

    ghost invariant = { λ rows. vec_len rows.bands ≡ rows.layout.count };
}

impl Rows {
    /// The rows of the drawing, kept in this allocator. The error is running out of memory.
    pub fn build(alloc: Global, drawing: &Drawing) -> Result<Rows, AllocError>
        ensures { IfOk result (λ rows. AreRowsOf rows drawing.now) }
    {
        let edges = drawing.all_edges();
        let layout = Layout::of(edges);
        Ok(Rows {
            layout,
            bands: layout.bands(alloc, edges)?,
        })
    }

    // The edges of the band that the row belongs to.
    pub(crate) fn band_of(&self, row: i32) -> &[Seg]
        ensures { (loops : List (List GridPoint)) → AreRowsOf self.now loops → result.now ≡ filter (lies_in self.now (band_of self.now row)) (edges_of loops) }
    {
        &self.bands[self.layout.band_of(row)]
    }
}

/// Whether the drawing for which the rows stand holds the grid point: it lies on no edge, and to the left of an odd number
/// of edges that pass its row.
pub fn inside(rows: &Rows, p: Point) -> bool
    ensures { (loops : List (List GridPoint)) → AreRowsOf rows.now loops → IsTrue result ↔ IsInside (edges_of loops) (rational p) }
{
    is_inside(rows.band_of(p.y()), p)
}

/// Whether the drawing for which the rows stand holds the point (x / den, y / den), in grid units. The denominator is from 1
/// to 2^30, and both quotients are from -40,960 to 40,959.
pub fn inside_ratio(rows: &Rows, x: i128, y: i128, den: i128) -> bool
    requires { IsRatio x y den }
    ensures { (loops : List (List GridPoint)) (w : RationalPoint) → AreRowsOf rows.now loops → IsPointOf x y den w → IsTrue result ↔ IsInside (edges_of loops) w }
{
    let at = RatioPoint {
        x: x as i64,
        y: y as i64,
        over: den as i64,
    };
    let row = row_of(at);
    let column = row_of(at.exchanged());
    let p = CellPoint {
        on: RowPoint { at, row },
        column,
    };
    is_inside_at(rows.band_of(row), p)
}

// The row that the point belongs to.
fn row_of(p: RatioPoint) -> i32
    ensures { IsOfRow result (rational_of p) }
{
    whole_rows(p) as i32 - 40_960
}

// How many whole rows the point is above the row -40,960, the lowest near the grid.
fn whole_rows(p: RatioPoint) -> u32
    ensures few { result ≤ 81919 }
    ensures row { IsOfRow (pos result -ℤ pos 40960) (rational_of p) }
{
    let above = (p.y + 40_960 * p.over) as u64;
    (above / p.over as u64) as u32
}

fn is_inside_at(edges: &[Seg], p: CellPoint) -> bool
    ensures { IsTrue result ↔ IsInside edges.now (rational_of p.on.at) }
{
    is_count_odd(edges, p) && !is_on_outline(edges, p.on)
}

// Whether an odd number of edges is counted at the point.
fn is_count_odd(edges: &[Seg], p: CellPoint) -> bool
    ensures { IsTrue result ↔ (count_by (is_counted (rational_of p.on.at)) edges.now % 2 ≡ 1) }
{
    edges.iter().filter(|e| is_edge_counted(**e, p)).count() % 2 == 1
}

// Whether the point lies on an edge.
fn is_on_outline(edges: &[Seg], p: RowPoint) -> bool
    ensures { IsTrue result ↔ IsOnOutline edges.now (rational_of p.at) }
{
    edges.iter().any(|e| is_on_edge(*e, p))
}
