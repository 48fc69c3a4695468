// A plate and a lug beside it: their bounding box, rows of points, and moves over them; and the first edges that cross.
use crate::scenes::{push_square, scene_of, spot};
use depth_rule::{Met, Scene, clearance, first_met, is_clear};
use loops_text::Drawing;
use plane_exact::{Bit, Move, Point};
use std::alloc::Global;

// The plate, and the lug beside it.
const PLATE: &[u8] = b"0,0 90,0 90,70 0,70\n95,-20 99,10 91,10\n";

// The left, lower, right and upper sides of the box about the loops.
fn sides_of_box(alloc: Global, loops: &[u8]) -> Option<[i32; 4]> {
    let scene = scene_of(alloc, loops)?;
    let bounds = scene.bounds()?;
    let (low, high) = (bounds.low, bounds.high);
    Some([low.x(), low.y(), high.x(), high.y()])
}

fn has_box(alloc: Global, loops: &[u8]) -> Option<bool> {
    let scene = scene_of(alloc, loops)?;
    Some(scene.bounds().is_some())
}

#[test]
fn bounds_hold_all_loops(rt: HostRuntime) {
    assert_eq!(rt; sides_of_box(rt.alloc(), PLATE), Some([0, -20, 99, 70]));
    assert_eq!(rt; has_box(rt.alloc(), b""), Some(false));
}

// Whether the move over the plate to the right, to x = to at the height h, is clear.
fn is_clear_to(alloc: Global, to: i16, h: i16) -> Option<bool> {
    let bit = Bit::new(1, 1, 100)?;
    let scene = scene_of(alloc, PLATE)?;
    let mv = Move {
        from: spot(400, 350, h),
        to: spot(to, 350, h),
    };
    Some(is_clear(&scene, &bit, &mv))
}

#[test]
fn a_move_is_clear_until_the_bit_touches_an_edge(rt: HostRuntime) {
    for (to, h, want) in [
        (800, -100, true),
        (801, -100, false),
        (2000, 0, true),
        (500, -350, true),
        (500, -351, false),
    ] {
        assert_eq!(rt;
            is_clear_to(rt.alloc(), to, h),
            Some(want),
            "to {to} at {h}"
        );
    }
}

// Where the holes of the sieve begin along each axis.
const PLACES: [i64; 15] = [
    90, 290, 490, 690, 890, 1090, 1290, 1490, 1690, 1890, 2090, 2290, 2490, 2690, 2890,
];

// A plate of 3000 by 3000 with 15 by 15 square holes of 20 by 20, whose middles are 200 apart, from (100, 100) on.
fn sieve(alloc: Global) -> Option<Scene> {
    let mut drawing = Drawing::empty(alloc);
    push_square(&mut drawing, 0, 0, 3000)?;
    for y in PLACES {
        for x in PLACES {
            push_square(&mut drawing, x, y, 20)?;
        }
    }
    Scene::new(alloc, drawing).ok()
}

// What the move meets, where it may be asked.
fn met_by(scene: &Scene, bit: &Bit, mv: &Move) -> Option<Met> {
    if mv.is_deep() && !mv.is_too_deep(bit) {
        Some(first_met(scene, bit, mv))
    } else {
        None
    }
}

// What the move over the sieve at the height h meets.
fn met_in_sieve(alloc: Global, from: (i16, i16), to: (i16, i16), h: i16) -> Option<Met> {
    let bit = Bit::new(1, 1, 100)?;
    let scene = sieve(alloc)?;
    let mv = Move {
        from: spot(from.0, from.1, h),
        to: spot(to.0, to.1, h),
    };
    met_by(&scene, &bit, &mv)
}

#[test]
fn a_long_slanted_move_meets_the_least_edge(rt: HostRuntime) {
    // The way between the holes keeps 40 times the root of 2, some 56.57, from their corners. The first that it meets in the second
    // row has the edges 64 to 67; before its start there is one in the first row, 58.3 away.
    let (low, high) = ((600, 1600), (28_400, 29_400));
    for (from, to, h, want) in [
        (low, high, -565, Met::Nothing),
        (low, high, -566, Met::Edge(64)),
        (high, low, -566, Met::Edge(64)),
        // Through two corners of the hole of the last row and column alone, whose edges are from 900 on.
        ((28_300, 29_700), (29_700, 28_300), -10, Met::Edge(900)),
        // From the plate's lower left corner on.
        ((0, 0), high, -1, Met::Edge(0)),
        // Along the lower side, 30 away from it, and 60 from the first row.
        ((300, 300), (29_700, 300), -300, Met::Nothing),
    ] {
        assert_eq!(rt;
            met_in_sieve(rt.alloc(), from, to, h),
            Some(want),
            "from {from:?} at {h}"
        );
    }
}

// The clearance of (x, y) in a square with a side of 1000.
fn clearance_at(alloc: Global, x: i64, y: i64, cap: u32) -> Option<u32> {
    if cap > 600 {
        return None;
    }
    let p = Point::new(x, y)?;
    let scene = scene_of(alloc, b"0,0 1000,0 1000,1000 0,1000\n")?;
    Some(clearance(&scene, p, cap))
}

#[test]
fn a_clearance_is_how_far_the_edges_are(rt: HostRuntime) {
    for (x, y, cap, want) in [
        (500, 500, 600, 500),
        (500, 500, 300, 300),
        (500, 500, 0, 0),
        (0, 0, 600, 0),
        // Outside there is one too.
        (-7, 500, 600, 7),
        // The corner is 50 away, and then some 50.6.
        (-30, -40, 600, 50),
        (-31, -40, 600, 50),
    ] {
        assert_eq!(rt;
            clearance_at(rt.alloc(), x, y, cap),
            Some(want),
            "at ({x}, {y}) up to {cap}"
        );
    }
}

// The words of two rows, the second of which is shorter than the words that it is given.
fn marked_rows(alloc: Global) -> Option<[[u64; 2]; 2]> {
    let scene = scene_of(alloc, PLATE)?;
    let mut bits = [0; 2];
    scene.row_inside(35, -5, 1, 71, &mut bits);
    let long = bits;
    scene.row_inside(5, 86, 2, 7, &mut bits[..1]);
    Some([long, bits])
}

#[test]
fn rows_of_points_are_marked_where_they_are_inside(rt: HostRuntime) {
    // The points from -5 to 65 in steps of 1: those from 1 on are inside. And over the plate's right side at 90 into the lug.
    let want = [[u64::MAX << 6, 127], [0b111_1011, 127]];
    assert_eq!(rt; marked_rows(rt.alloc()), Some(want));
}

fn first_crossing(alloc: Global, loops: &[u8]) -> Option<Option<(u32, u32)>> {
    let scene = scene_of(alloc, loops)?;
    Some(scene.first_crossing())
}

// Loops, and the numbers of their first edges that cross.
const CROSSINGS: [(&[u8], Option<(u32, u32)>); 9] = [
    (b"0,0 100,0 100,100 0,100\n", None),
    (b"", None),
    // There and back on one line.
    (b"0,0 1,0\n", Some((0, 1))),
    // The corners touch, and nothing else.
    (
        b"0,0 100,0 100,100 0,100\n100,100 200,100 200,200 100,200\n",
        None,
    ),
    // A corner on the right side touches it.
    (
        b"0,0 100,0 100,100 0,100\n100,50 150,20 150,80\n",
        Some((1, 4)),
    ),
    // Through the right side, and then through the top.
    (
        b"0,0 100,0 100,100 0,100\n50,50 150,50 150,150\n",
        Some((1, 4)),
    ),
    (
        b"0,0 200,0 200,200 0,200\n100,100 300,100 300,300 100,300\n",
        Some((1, 4)),
    ),
    // A bow tie.
    (
        b"0,0 10,10 10,0 0,10\n0,0 100,0 100,100 0,100\n",
        Some((0, 2)),
    ),
    // Along a part of the top.
    (
        b"0,0 100,0 100,100 0,100\n20,100 60,100 40,120\n",
        Some((2, 4)),
    ),
];

#[test]
fn the_first_edges_that_cross_are_found(rt: HostRuntime) {
    for (loops, want) in CROSSINGS {
        assert_eq!(rt; first_crossing(rt.alloc(), loops), Some(want), "{loops:?}");
    }
}
