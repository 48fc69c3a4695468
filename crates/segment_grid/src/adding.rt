// Adding an edge to the cells of a level.
ghost use Rattle.std.specs.Prelude.{◌≡◌, ◌≤◌, ◌<◌, IfSome, OnOk, [], vec_len};
ghost use Rattle.segment_grid.specs.Added.{AddsToLevel, AddsToRow, IsBareBucket, IsExtended, IsPushed};
ghost use Rattle.segment_grid.specs.Cells.{IsIn};
ghost use Rattle.segment_grid.specs.Grid.{IsPlaced};

use crate::open::{Bucket, OpenLevel};
use crate::walk::offset_of;
use lane_kernels::Rect;
use smallvec::SmallVec;
use std::alloc::{AllocError, Global};

impl Bucket {
    fn empty(alloc: Global) -> Bucket
        ensures { IsBareBucket result }
    {
        Bucket {
            numbers: SmallVec::new(alloc),
            boxes: SmallVec::new(alloc),
        }
    }

    // On an error the bucket is of no more use.
    fn push(&mut self, number: u32, b: Rect) -> Result<(), AllocError>
        ensures { OnOk result (IsPushed self.old self.new (number, b)) }
    {
        self.numbers.push(number)?;
        self.boxes.push(b)?;
        Ok(())
    }
}

// A cell, by its row from below and its column from the left.
#[derive(Clone, Copy, Debug)]
pub(crate) struct Cell {
    pub row: usize,
    pub column: usize,
}

impl OpenLevel {
    // The cell in which the box begins; None where it begins before the level, or is larger than a cell.
    pub(crate) fn cell_of(&self, b: Rect) -> Option<Cell>
        ensures { IfSome result (λ cell. IsPlaced self.now.x0 self.now.y0 self.now.width self.now.height cell.row cell.column b) }
    {
        let column = cell_along(self.x0, self.width, b.x0, b.x1)?;
        let row = cell_along(self.y0, self.height, b.y0, b.y1)?;
        Some(Cell { row, column })
    }

    // Adds the edge with this number and this box, which belongs to the cell, where a row has so many columns.
    pub(crate) fn put(
        &mut self,
        cell: Cell,
        columns: usize,
        number: u32,
        b: Rect,
    ) -> Result<(), AllocError>
        requires { IsPlaced self.old.x0 self.old.y0 self.old.width self.old.height cell.row cell.column b }
        ensures { OnOk result (AddsToLevel self.old self.new (number, b)) }
    {
        reach_row(&mut self.rows, cell.row)?;
        put_in_row(&mut self.rows[cell.row], cell.column, columns, number, b)
    }
}

// Adds the edge to the bucket in the column.
fn put_in_row(
    row: &mut Vec<Bucket>,
    column: usize,
    columns: usize,
    number: u32,
    b: Rect,
) -> Result<(), AllocError>
    ensures { OnOk result (AddsToRow column row.old.items row.new.items (number, b)) }
{
    reach_column(row, column, columns)?;
    row[column].push(number, b)
}

// Makes rows until there is the one with this number.
fn reach_row(rows: &mut Vec<Vec<Bucket>>, row: usize) -> Result<(), AllocError>
    ensures there { OnOk result (row < vec_len rows.new) }
    ensures extended { OnOk result (IsExtended (λ row. row.items ≡ []) rows.old.items rows.new.items) }
{
    let alloc = *rows.allocator();
    while rows.len() <= row {
        rows.push(Vec::new(alloc))?;
    }
    Ok(())
}

// Makes cells until there is the one in this column. Memory is taken at once for as many columns as there are.
fn reach_column(row: &mut Vec<Bucket>, column: usize, columns: usize) -> Result<(), AllocError>
    ensures there { OnOk result (column < vec_len row.new) }
    ensures extended { OnOk result (IsExtended IsBareBucket row.old.items row.new.items) }
{
    let alloc = *row.allocator();
    if row.is_empty() {
        row.reserve_exact(columns)?;
    }
    while row.len() <= column {
        row.push(Bucket::empty(alloc))?;
    }
    Ok(())
}

// The cell of this side that the range begins in, where cells begin at the origin; None where it begins before it, or is longer.
fn cell_along(origin: i32, side: u32, low: i32, high: i32) -> Option<usize>
    requires { 1 ≤ side }
    ensures { IfSome result (λ cell. IsIn origin side cell low high) }
{
    let offset = offset_of(low, origin)?;
    if offset_of(high, low)? > side {
        return None;
    }
    Some((offset / side) as usize)
}
