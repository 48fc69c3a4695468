// The edges of about one size while edges are added.
ghost use Rattle.std.specs.Prelude.{◌≤◌};

use lane_kernels::Rect;
use smallvec::SmallVec;

// The edges that begin in one cell: their numbers and their boxes, the one beside the other.
#[derive(Debug, Drop)]
pub struct Bucket {
    pub numbers: SmallVec<u32, 2>,
    pub boxes: SmallVec<Rect, 2>,
}

// Rows of cells from the place (x0, y0) on, upwards, and in a row from left to right. A level is made of it when it has all its edges.
#[derive(Debug, Drop)]
pub struct OpenLevel {
    pub x0: i32,
    pub y0: i32,
    pub width: u32,
    pub height: u32,
    pub rows: Vec<Vec<Bucket>>,
    ghost wide: { 1 ≤ width },
    ghost high: { 1 ≤ height },
}
