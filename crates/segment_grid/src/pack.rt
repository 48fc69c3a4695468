// Packing the cells of levels once all edges are added, so that the cells of a row that are asked are one part of a list.
ghost use Rattle.std.specs.Prelude.{◌≡◌, IfOk, OnOk};
ghost use Rattle.std.specs.List.{AllZip};
ghost use Rattle.segment_grid.specs.Packed.{IsCellMore, IsLevelFrom, IsRowFrom};

use crate::level::{Level, Row};
use crate::open::{Bucket, OpenLevel};
use std::alloc::{AllocError, Global};

// The levels with the same cells, packed. Each row of buckets is freed as soon as it is packed, so that the next take its memory.
pub(crate) fn packed(alloc: Global, levels: Vec<OpenLevel>) -> Result<Vec<Level>, AllocError>
    ensures { IfOk result (λ packed. AllZip IsLevelFrom levels.items packed.items) }
{
    let mut packed = Vec::with_capacity(alloc, levels.len())?;
    for level in levels {
        packed.push(Level::of(alloc, level)?)?;
    }
    Ok(packed)
}

impl Level {
    fn of(alloc: Global, source: OpenLevel) -> Result<Level, AllocError>
        ensures { IfOk result (λ level. IsLevelFrom source level) }
    {
        Ok(Level {
            x0: source.x0,
            y0: source.y0,
            width: source.width,
            height: source.height,
            rows: packed_rows(alloc, source.rows)?,
        })
    }
}

fn packed_rows(alloc: Global, rows: Vec<Vec<Bucket>>) -> Result<Vec<Row>, AllocError>
    ensures { IfOk result (λ packed. AllZip (λ buckets row. IsRowFrom buckets.items row) rows.items packed.items) }
{
    let mut packed = Vec::with_capacity(alloc, rows.len())?;
    for row in rows {
        packed.push(Row::of(alloc, row.as_slice())?)?;
    }
    Ok(packed)
}

impl Row {
    fn of(alloc: Global, buckets: &[Bucket]) -> Result<Row, AllocError>
        ensures { IfOk result (λ row. IsRowFrom buckets.now row) }
    {
        let count = edges_in(buckets);
        let mut row = Row {
            numbers: Vec::with_capacity(alloc, count)?,
            boxes: Vec::with_capacity(alloc, count)?,
            starts: Vec::with_capacity(alloc, buckets.len())?,
        };
        for bucket in buckets {
            row.push_cell(bucket)?;
        }
        Ok(row)
    }

    // A row can't have more edges than a drawing has, so the conversion doesn't fail. The error spares the proof of that.
    fn push_cell(&mut self, bucket: &Bucket) -> Result<(), AllocError>
        ensures { OnOk result (IsCellMore self.old self.new bucket.now) }
    {
        let Ok(start) = u32::try_from(self.numbers.len()) else {
            return Err(AllocError);
        };
        self.starts.push(start)?;
        self.numbers.extend_from_slice(bucket.numbers.as_slice())?;
        self.boxes.extend_from_slice(bucket.boxes.as_slice())?;
        Ok(())
    }
}

// How many edges the buckets have, so that memory is taken at once.
fn edges_in(buckets: &[Bucket]) -> usize {
    let mut count: usize = 0;
    for bucket in buckets {
        count = count.saturating_add(bucket.numbers.len());
    }
    count
}
