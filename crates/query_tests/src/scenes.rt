// Drawings and scenes of texts in loops form, squares and spots. A helper answers None where a text is no drawing, a corner is off the
// grid, or memory runs out.
use depth_rule::Scene;
use loops_text::{Drawing, MOST_DRAWING_BYTES, read_loops};
use plane_exact::{Point, Spot};
use std::alloc::Global;

// The drawing of the text.
pub fn drawing_of(alloc: Global, loops: &[u8]) -> Option<Drawing> {
    if loops.len() > MOST_DRAWING_BYTES {
        return None;
    }
    read_loops(alloc, loops).ok()
}

// The scene of the text.
pub fn scene_of(alloc: Global, loops: &[u8]) -> Option<Scene> {
    let drawing = drawing_of(alloc, loops)?;
    Scene::new(alloc, drawing).ok()
}

// Adds the square of this side from (x, y) on: its lower, right, upper and left edge.
pub fn push_square(drawing: &mut Drawing, x: i64, y: i64, side: i64) -> Option<()> {
    let corners = corners_of(x, y, x.wrapping_add(side), y.wrapping_add(side))?;
    drawing.push_loop(&corners).ok()
}

fn corners_of(left: i64, low: i64, right: i64, high: i64) -> Option<[Point; 4]> {
    Some([
        Point::new(left, low)?,
        Point::new(right, low)?,
        Point::new(right, high)?,
        Point::new(left, high)?,
    ])
}

// The spot over (x, y) at the height h, in tenths of a grid unit.
pub fn spot(x: i16, y: i16, h: i16) -> Spot {
    Spot {
        x: i32::from(x),
        y: i32::from(y),
        h: i32::from(h),
    }
}
