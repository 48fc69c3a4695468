// Which points of a row a drawing holds, edge by edge.
ghost use Rattle.std.specs.Prelude.{◌≡◌, ℕ, ◌+◌, ◌-◌, ◌*◌, ◌/◌, ◌≤◌, List, [], length, pos, ◌+ℤ◌};
ghost use Rattle.plane_exact.specs.Plane.{GridPoint, IsCoordinate};
ghost use Rattle.engrave_model.specs.Drawing.{edges_of};
ghost use Rattle.evenodd_region.specs.Lookup.{AreRowsOf};
ghost use Rattle.evenodd_region.specs.Meetings.{AreMarked, AreOffOutline};
ghost use Rattle.evenodd_region.specs.RowBits.{IsRowOf};

use crate::meeting::Row;
use crate::rows::Rows;
use crate::words::{clear_between, flip_below};
use plane_exact::{Point, Seg};

/// Which points of a row the drawing holds for which the rows stand. The row has `count` points, from (x0, y) to the right at
/// this pitch, and there are as many words as so many bits need. Bit i % 64 of the word i / 64, the lowest first, is 1 where
/// the point i is inside; the bits from `count` on are 0.
pub fn row_inside(rows: &Rows, y: i32, x0: i32, pitch: u32, count: u32, bits: &mut [u64])
    requires row { IsCoordinate y }
    requires first { IsCoordinate x0 }
    requires last { IsCoordinate (x0 +ℤ pos ((count - 1) * pitch)) }
    requires some { 1 ≤ count }
    requires apart { 1 ≤ pitch }
    requires words { length bits.old ≡ (count + 63) / 64 }
    ensures { (loops : List (List GridPoint)) → AreRowsOf rows.now loops → IsRowOf (edges_of loops) y x0 pitch count bits.new }
{
    let row = Row {
        start: Point::new(i64::from(x0), i64::from(y)).unwrap(),
        pitch,
        count,
    };
    let band = rows.band_of(y);
    bits.fill(0);
    mark_counted(&row, band, bits);
    clear_outline(&row, band, bits);
}

// Sets the bits of the points at which an odd number of the edges is counted, where no bit is set.
fn mark_counted(row: &Row, edges: &[Seg], bits: &mut [u64])
    requires room { row.now.count ≤ 64 * length bits.old }
    requires none { AreMarked row.now [] bits.old }
    ensures { AreMarked row.now edges.now bits.new }
{
    for e in edges {
        let meeting = row.meeting(*e);
        if meeting.passes {
            flip_below(bits, meeting.before(row.count));
        }
    }
}

// Clears the bits of the points that lie on an edge.
fn clear_outline(row: &Row, edges: &[Seg], bits: &mut [u64])
    requires { row.now.count ≤ 64 * length bits.old }
    ensures { AreOffOutline row.now edges.now bits.old bits.new }
{
    for e in edges {
        let meeting = row.meeting(*e);
        clear_between(bits, meeting.before(row.count), meeting.through(row.count));
    }
}
