// Where the cells of a drawing begin, and how large they are. No clause of the grid rests on these choices: another frame would be
// slower or take more memory, and no less right.
ghost use Rattle.std.specs.Prelude.{◌≤◌, ◌<◌};

use crate::boxes::{bounds_of, box_of};
use lane_kernels::Rect;
use plane_exact::Seg;

// The cells of a level are as few as make so many edges a cell, were they spread evenly: more cells would cost more memory and more
// steps of an ask over empty ones, fewer cells longer lists.
const EDGES_IN_CELL: u64 = 1;

// A side of a cell is so many times the next smaller one.
const GROWTH: u32 = 4;

// An edge's class of length is 0 up to the base, 1 up to GROWTH times the base, 2 up to GROWTH times that, and so on.
const CLASSES: usize = 9;

// The least box that holds the edges, and the least sides of their cells.
#[derive(Debug, Drop)]
pub(crate) struct Frame {
    pub bounds: Rect,
    base: u32,
    // The least height of the cells for flat edges by the class of their width, and the least width of those for steep edges by the
    // class of their height. They are less than the base where many edges are long one way: since such cells are few along the
    // edges, they may be thin.
    heights: [u32; CLASSES],
    widths: [u32; CLASSES],
}

// The sides of a cell.
#[derive(Clone, Copy, Debug)]
pub(crate) struct Size {
    pub width: u32,
    pub height: u32,
    ghost wide: { 1 ≤ width },
    ghost high: { 1 ≤ height },
}

impl Frame {
    pub fn of(edges: &[Seg]) -> Frame {
        let bounds = bounds_of(edges);
        let across = width_of(bounds);
        let up = height_of(bounds);
        let base = base_of(across, up, edges.len() as u64 / EDGES_IN_CELL);
        let counts = counts_of(edges, base);
        Frame {
            bounds,
            base,
            heights: least_sides(base, across, up, counts.flat),
            widths: least_sides(base, up, across, counts.steep),
        }
    }

    // The size of the cells for such boxes.
    pub fn size_for(&self, b: Rect) -> Size {
        let wide = class_of(width_of(b), self.base);
        let high = class_of(height_of(b), self.base);
        let least_width = if wide == 0 {
            self.widths[high]
        } else {
            self.base
        };
        let least_height = if high == 0 {
            self.heights[wide]
        } else {
            self.base
        };
        Size {
            width: side_for(width_of(b), least_width),
            height: side_for(height_of(b), least_height),
        }
    }

    // How many cells of this width the frame has in a row.
    pub fn columns(&self, width: u32) -> usize
        requires { 1 ≤ width }
    {
        cells(width_of(self.bounds), width) as usize
    }
}

fn width_of(b: Rect) -> u32 {
    b.x0.abs_diff(b.x1)
}

fn height_of(b: Rect) -> u32 {
    b.y0.abs_diff(b.y1)
}

// The least side with which at most so many cells cover the frame; if none does, one with which a single cell does.
fn base_of(across: u32, up: u32, most: u64) -> u32
    ensures { 1 ≤ result }
{
    let mut low = 1;
    let mut high = across.max(up).saturating_add(1);
    while low < high {
        let side = low + (high - low) / 2;
        if cells(across, side).saturating_mul(cells(up, side)) <= most {
            high = side;
        } else {
            low = side + 1;
        }
    }
    low
}

// How many edges are flat, by the class of their width, and how many steep, by that of their height.
#[derive(Debug, Drop)]
struct Counts {
    flat: [u32; CLASSES],
    steep: [u32; CLASSES],
}

fn counts_of(edges: &[Seg], base: u32) -> Counts {
    let mut counts = Counts {
        flat: [0; CLASSES],
        steep: [0; CLASSES],
    };
    for e in edges {
        let b = box_of(*e);
        let wide = class_of(width_of(b), base);
        let high = class_of(height_of(b), base);
        if high == 0 {
            counts.flat[wide] = counts.flat[wide].saturating_add(1);
        } else if wide == 0 {
            counts.steep[high] = counts.steep[high].saturating_add(1);
        }
    }
    counts
}

// For each class of edges along one side of the frame, the least side of their cells beside it. With it these cells are no more
// than there are to be for so many edges; it is no more than the base.
fn least_sides(base: u32, along: u32, beside: u32, counts: [u32; CLASSES]) -> [u32; CLASSES]
    requires { 1 ≤ base }
{
    let mut sides = [base; CLASSES];
    let mut long = base;
    for class in 1..CLASSES {
        long = long.saturating_mul(GROWTH);
        let lanes = counts[class] as u64 / EDGES_IN_CELL / cells(along, long);
        if lanes > 0 {
            let side = (beside as u64 / lanes) as u32;
            sides[class] = side.saturating_add(1).min(base);
        }
    }
    sides
}

// How many cells of this side cover the length, both ends among its places.
fn cells(length: u32, side: u32) -> u64
    requires { 1 ≤ side }
    ensures { 1 ≤ result }
{
    (length / side) as u64 + 1
}

fn class_of(length: u32, base: u32) -> usize
    ensures { result < CLASSES }
{
    let mut class = 0;
    let mut side = base;
    while side < length && class + 1 < CLASSES {
        side = side.saturating_mul(GROWTH);
        class += 1;
    }
    class
}

// The first of the least side, GROWTH times it and so on that is at least the length.
fn side_for(length: u32, least: u32) -> u32
    ensures { 1 ≤ result }
{
    let mut side = least.max(1);
    while side < length {
        side = side.saturating_mul(GROWTH);
    }
    side
}
