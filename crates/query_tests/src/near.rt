// Which edges are near a box, by the grid and by asking each edge; and the levels and cells that the grids of drawings have: no
// clause says that they are few.
use crate::random::next;
use crate::scenes::push_square;
use lane_kernels::Rect;
use loops_text::Drawing;
use plane_exact::Point;
use segment_grid::{Grid, box_of};
use std::alloc::Global;

fn rect(low: (i32, i32), high: (i32, i32)) -> Rect {
    Rect {
        x0: low.0,
        y0: low.1,
        x1: high.0,
        y1: high.1,
    }
}

// The numbers of the edges near the box, the least first.
fn near(alloc: Global, d: &Drawing, q: Rect) -> Option<Vec<u32>> {
    let grid = Grid::build(alloc, d).ok()?;
    let mut numbers = Vec::new(alloc);
    for number in grid.near(d, q) {
        numbers.push(number).ok()?;
    }
    numbers.sort_unstable();
    Some(numbers)
}

// The same by asking each edge.
fn met(alloc: Global, d: &Drawing, q: Rect) -> Option<Vec<u32>> {
    let mut numbers = Vec::new(alloc);
    for number in 0..d.edges() {
        if box_of(d.edge(number)).is_met(q) {
            numbers.push(number).ok()?;
        }
    }
    Some(numbers)
}

// Whether these are the edges near the box.
fn are_near(alloc: Global, d: &Drawing, q: Rect, wanted: &[u32]) -> Option<bool> {
    let numbers = near(alloc, d, q)?;
    Some(numbers.as_slice() == wanted)
}

// Whether the edges near the box are those that it meets.
fn near_are_met(alloc: Global, d: &Drawing, q: Rect) -> Option<bool> {
    let wanted = met(alloc, d, q)?;
    are_near(alloc, d, q, &wanted)
}

fn push_line(d: &mut Drawing, from: (i64, i64), to: (i64, i64)) -> Option<()> {
    let ends = [Point::new(from.0, from.1)?, Point::new(to.0, to.1)?];
    d.push_loop(&ends).ok()
}

fn cells_of(grid: &Grid) -> usize {
    let mut cells: usize = 0;
    for level in &grid.levels {
        for row in &level.rows {
            cells = cells.wrapping_add(row.starts.len());
        }
    }
    cells
}

// The levels of the drawing's grid, and its cells.
fn size_of(alloc: Global, d: &Drawing) -> Option<(usize, usize)> {
    let grid = Grid::build(alloc, d).ok()?;
    Some((grid.levels.len(), cells_of(&grid)))
}

fn size_of_hatch(alloc: Global) -> Option<(usize, usize)> {
    let mut d = Drawing::empty(alloc);
    for line in 0..200i64 {
        let y = line.wrapping_mul(100);
        push_line(&mut d, (-15_000, y), (15_000, y))?;
    }
    size_of(alloc, &d)
}

// All edges of one size stand in one level, and there are fewer cells than edges.
#[test]
fn level_of_a_hatch(rt: HostRuntime) {
    assert_eq!(rt; size_of_hatch(rt.alloc()), Some((1, 200)));
}

// Squares of this side in rows of so many, the first of which begins at (low, low), so far from one to the next.
fn squares(alloc: Global, count: i64, low: i64, apart: i64, side: i64) -> Option<Drawing> {
    let mut d = Drawing::empty(alloc);
    for row in 0..count {
        for column in 0..count {
            let x = column.wrapping_mul(apart).wrapping_add(low);
            let y = row.wrapping_mul(apart).wrapping_add(low);
            push_square(&mut d, x, y, side)?;
        }
    }
    Some(d)
}

fn size_of_mixture(alloc: Global) -> Option<(usize, usize)> {
    let mut d = squares(alloc, 16, -16_000, 2_000, 100)?;
    push_line(&mut d, (-16_000, 0), (14_000, 7))?;
    push_line(&mut d, (0, -16_000), (7, 14_000))?;
    push_line(&mut d, (-16_000, -16_000), (14_000, 14_000))?;
    size_of(alloc, &d)
}

// Small edges, flat ones, steep ones and ones that are long both ways have a level each.
#[test]
fn levels_of_a_mixture(rt: HostRuntime) {
    let size = size_of_mixture(rt.alloc());
    assert!(rt; size.is_some_and(|(levels, cells)| levels == 4 && cells < 1030));
}

// A square with a side of 1000.
fn are_near_in_square(alloc: Global, q: Rect, wanted: &[u32]) -> Option<bool> {
    let d = squares(alloc, 1, 0, 0, 1000)?;
    are_near(alloc, &d, q, wanted)
}

// Boxes at its corners, along its sides, within it and far off, and the edges near them.
const NEAR_SQUARE: [((i32, i32), (i32, i32), &[u32]); 13] = [
    ((0, 0), (10, 10), &[0, 3]),
    ((0, 0), (0, 0), &[0, 3]),
    ((1000, 0), (1000, 0), &[0, 1]),
    ((1000, 1000), (1000, 1000), &[1, 2]),
    ((0, 1000), (0, 1000), &[2, 3]),
    ((500, 0), (500, 0), &[0]),
    ((400, 400), (600, 600), &[]),
    ((1001, -5), (1005, 1005), &[]),
    ((-5, -5), (1005, 1005), &[0, 1, 2, 3]),
    ((i32::MIN, i32::MIN), (i32::MAX, i32::MAX), &[0, 1, 2, 3]),
    ((i32::MIN, 500), (i32::MAX, 500), &[1, 3]),
    ((i32::MIN, i32::MIN), (-1, i32::MAX), &[]),
    ((i32::MAX, 0), (i32::MAX, 1000), &[]),
];

#[test]
fn edges_near_a_box(rt: HostRuntime) {
    for (low, high, want) in NEAR_SQUARE {
        assert_eq!(rt;
            are_near_in_square(rt.alloc(), rect(low, high), want),
            Some(true),
            "{low:?} {high:?}"
        );
    }
}

// Lines of the whole width, one in each row of the grid's range: the most edges that a drawing has.
fn are_near_in_hatch(alloc: Global, q: Rect, wanted: &[u32]) -> Option<bool> {
    let mut d = Drawing::empty(alloc);
    for y in -32_768..32_768 {
        push_line(&mut d, (-32_768, y), (32_767, y))?;
    }
    are_near(alloc, &d, q, wanted)
}

const NEAR_HATCH: [((i32, i32), (i32, i32), &[u32]); 4] = [
    ((0, -32_768), (5, -32_768), &[0, 1]),
    ((-7, 0), (5, 1), &[65_536, 65_537, 65_538, 65_539]),
    ((32_767, 32_767), (40_000, 40_000), &[131_070, 131_071]),
    ((32_768, 0), (40_000, 10), &[]),
];

#[test]
fn edges_near_a_box_in_a_hatch(rt: HostRuntime) {
    for (low, high, want) in NEAR_HATCH {
        assert_eq!(rt;
            are_near_in_hatch(rt.alloc(), rect(low, high), want),
            Some(true),
            "{low:?} {high:?}"
        );
    }
}

// Squares side by side whose corners lie on the borders of cells, and an edge through all of them.
fn bordering(alloc: Global) -> Option<Drawing> {
    let mut d = squares(alloc, 8, 0, 32, 32)?;
    push_line(&mut d, (0, 0), (256, 256))?;
    Some(d)
}

fn near_borders_are_met(alloc: Global, q: Rect) -> Option<bool> {
    let d = bordering(alloc)?;
    near_are_met(alloc, &d, q)
}

// A box of this side, whose right side is at a border and whose lower one is, too.
fn border_box(x: i32, y: i32, side: i32) -> Rect {
    let right = x.wrapping_mul(32);
    let low = y.wrapping_mul(32);
    rect(
        (right.wrapping_sub(side), low),
        (right, low.wrapping_add(side)),
    )
}

#[test]
fn edges_near_the_borders_of_cells(rt: HostRuntime) {
    for x in 0..10i32 {
        for y in 0..10i32 {
            for side in [0, 1, 31, 32, 33] {
                let q = border_box(x, y, side);
                assert_eq!(rt; near_borders_are_met(rt.alloc(), q), Some(true), "{q:?}");
            }
        }
    }
}

// Adds a loop of so many points about a place. One with equal neighbours isn't taken.
fn add_loop(
    d: &mut Drawing,
    alloc: Global,
    state: &mut u64,
    reach: i32,
    corners: u32,
) -> Option<()> {
    let mut points = Vec::new(alloc);
    let at = (next(state, 16_000), next(state, 16_000));
    for _ in 0..corners {
        let x = at.0.wrapping_add(next(state, reach));
        let y = at.1.wrapping_add(next(state, reach));
        points.push(Point::new(i64::from(x), i64::from(y))?).ok()?;
    }
    let _ = d.push_loop(&points);
    Some(())
}

// A drawing of loops of up to seven points, some small and some as wide as the grid.
fn random_drawing(alloc: Global, state: &mut u64) -> Option<Drawing> {
    let mut d = Drawing::empty(alloc);
    for reach in [3, 200, 16_000] {
        for corners in 2..8 {
            add_loop(&mut d, alloc, state, reach, corners)?;
        }
    }
    Some(d)
}

// A box up to twice as wide and as high as `reach`.
fn random_box(state: &mut u64, reach: i32) -> Rect {
    let at = (next(state, 17_000), next(state, 17_000));
    let width = next(state, reach).wrapping_add(reach);
    let height = next(state, reach).wrapping_add(reach);
    rect(at, (at.0.wrapping_add(width), at.1.wrapping_add(height)))
}

// The first of four boxes in the next drawing that has other edges near it than it meets, where there is one.
fn first_odd_box(alloc: Global, state: &mut u64) -> Option<Option<Rect>> {
    let d = random_drawing(alloc, state)?;
    for reach in [5, 300, 9_000, 40_000] {
        let q = random_box(state, reach);
        if !near_are_met(alloc, &d, q)? {
            return Some(Some(q));
        }
    }
    Some(None)
}

#[test]
fn edges_near_boxes_of_a_thousand_drawings(rt: HostRuntime) {
    let mut state = 7;
    for drawing in 0..1000u32 {
        assert_eq!(rt;
            first_odd_box(rt.alloc(), &mut state),
            Some(None),
            "{drawing}"
        );
    }
}
