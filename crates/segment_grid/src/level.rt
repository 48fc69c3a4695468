// The edges of about one size, in cells of that size.
ghost use Rattle.std.specs.Prelude.{◌≤◌};

use lane_kernels::Rect;

// The edges of a row of cells, cell after cell from left to right: their numbers and their boxes, the one beside the other, and for
// each cell how many edges stand in those before it.
#[derive(Debug, Drop)]
pub struct Row {
    pub numbers: Vec<u32>,
    pub boxes: Vec<Rect>,
    pub starts: Vec<u32>,
}

// Rows of cells from the place (x0, y0) on, upwards. An edge stands in the one cell in which its box begins, at its lower left
// corner, and its box is no wider and no higher than a cell.
#[derive(Debug, Drop)]
pub struct Level {
    pub x0: i32,
    pub y0: i32,
    pub width: u32,
    pub height: u32,
    pub rows: Vec<Row>,
    ghost wide: { 1 ≤ width },
    ghost high: { 1 ≤ height },
}
