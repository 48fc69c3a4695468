// Making the levels of a grid of the edges of a drawing.
ghost use Rattle.std.specs.Prelude.{◌≡◌, ◌≤◌, ◌<◌, All, IfOk, IfSome, IsPermutation, OnOk, length, pos, ◌+ℤ◌, ◌≤ℤ◌, vec_len};
ghost use Rattle.engrave_model.specs.Drawing.{edges_of};
ghost use Rattle.segment_grid.specs.Added.{AddsToLevels, IsBareLevel, IsExtended};
ghost use Rattle.segment_grid.specs.Grid.{IsPlaced};
ghost use Rattle.segment_grid.specs.Open.{IsOpenSorted, entries_in_open};
ghost use Rattle.segment_grid.specs.Near.{entries_of};

use crate::adding::Cell;
use crate::boxes::box_of;
use crate::frame::{Frame, Size};
use crate::open::OpenLevel;
use lane_kernels::Rect;
use loops_text::Drawing;
use std::alloc::{AllocError, Global};

// The levels with all edges of the drawing.
pub(crate) fn levels_of(alloc: Global, d: &Drawing) -> Result<Vec<OpenLevel>, AllocError>
    ensures once { IfOk result (λ levels. IsPermutation (entries_of (edges_of d.now)) (entries_in_open levels.items)) }
    ensures placed { IfOk result (λ levels. All IsOpenSorted levels.items) }
{
    let edges = d.all_edges();
    let frame = Frame::of(edges);
    let mut levels = Vec::new(alloc);
    for number in 0..d.edges() {
        let edge = edges[number as usize];
        add_edge(&mut levels, &frame, number, box_of(edge))?;
    }
    Ok(levels)
}

// Adds the edge with this number and this box to the level for its size.
fn add_edge(
    levels: &mut Vec<OpenLevel>,
    frame: &Frame,
    number: u32,
    b: Rect,
) -> Result<(), AllocError>
    ensures { OnOk result (AddsToLevels levels.old.items levels.new.items (number, b)) }
{
    let at = level_for(levels, frame, b)?;
    let level = &levels[at];
    if let Some(cell) = level.cell_of(b) {
        let columns = frame.columns(level.width);
        return levels[at].put(cell, columns, number, b);
    }
    // The frame holds the box and a cell of the level is no smaller than it, so this isn't reached. It spares the proof of that.
    let alloc = *levels.allocator();
    let last = levels.len();
    levels.push(OpenLevel::around(alloc, b))?;
    levels[last].put(Cell { row: 0, column: 0 }, 1, number, b)
}

// The place of the level for boxes of this size, which is added where there is none yet.
fn level_for(levels: &mut Vec<OpenLevel>, frame: &Frame, b: Rect) -> Result<usize, AllocError>
    ensures there { IfOk result (λ at. at < vec_len levels.new) }
    ensures extended { OnOk result (IsExtended IsBareLevel levels.old.items levels.new.items) }
{
    let size = frame.size_for(b);
    if let Some(at) = place_of(levels, size) {
        return Ok(at);
    }
    let at = levels.len();
    let alloc = *levels.allocator();
    levels.push(OpenLevel {
        x0: frame.bounds.x0,
        y0: frame.bounds.y0,
        width: size.width,
        height: size.height,
        rows: Vec::new(alloc),
    })?;
    Ok(at)
}

fn place_of(levels: &[OpenLevel], size: Size) -> Option<usize>
    ensures { IfSome result (λ at. at < length levels.now) }
{
    levels.iter().position(|level| level.width == size.width && level.height == size.height)
}

impl OpenLevel {
    // An empty level, which begins at the box with a cell that holds it.
    fn around(alloc: Global, b: Rect) -> OpenLevel
        ensures bare { IsBareLevel result }
        ensures placed { IsPlaced result.x0 result.y0 result.width result.height 0 0 b }
    {
        OpenLevel {
            x0: b.x0,
            y0: b.y0,
            width: reach_of(b.x0, b.x1),
            height: reach_of(b.y0, b.y1),
            rows: Vec::new(alloc),
        }
    }
}

// The length of the range, but no less than 1.
fn reach_of(low: i32, high: i32) -> u32
    ensures some { 1 ≤ result }
    ensures reaches { high ≤ℤ (low +ℤ pos result) }
{
    low.abs_diff(high).max(1)
}
