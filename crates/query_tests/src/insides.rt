// A plate with a hole, a thin wedge between the lines of the grid, and rows of points.
use crate::random::next;
use crate::scenes::drawing_of;
use evenodd_region::{Rows, inside, inside_ratio, row_inside};
use loops_text::Drawing;
use plane_exact::Point;
use std::alloc::Global;

// A plate, and a hole in it.
const PLATE: &[u8] = b"0,0 9,0 9,9 0,9\n3,3 6,3 6,6 3,6\n";

const WEDGE: &[u8] = b"20,0 21,3 20,3\n";

const SQUARE: &[u8] = b"0,0 1000,0 1000,1000 0,1000\n";

// The rows of the drawing of a text.
fn rows_of(alloc: Global, loops: &[u8]) -> Option<Rows> {
    let drawing = drawing_of(alloc, loops)?;
    Rows::build(alloc, &drawing).ok()
}

fn is_in_plate(alloc: Global, x: i64, y: i64) -> Option<bool> {
    let p = Point::new(x, y)?;
    let rows = rows_of(alloc, PLATE)?;
    Some(inside(&rows, p))
}

#[test]
fn holds_the_plate_without_its_hole(rt: HostRuntime) {
    for (x, y, want) in [
        (1, 3, true),
        (4, 4, false),
        (8, 8, true),
        (0, 5, false),
        (6, 5, false),
        (9, 9, false),
        (12, 3, false),
    ] {
        assert_eq!(rt; is_in_plate(rt.alloc(), x, y), Some(want), "at {x} {y}");
    }
}

// Whether the wedge holds each of five points.
fn held_by_wedge(alloc: Global) -> Option<[bool; 5]> {
    let rows = rows_of(alloc, WEDGE)?;
    Some([
        inside_ratio(&rows, 61, 3, 3),
        inside_ratio(&rows, 81, 4, 4),
        inside_ratio(&rows, 82, 4, 4),
        inside_ratio(&rows, 21 << 30, 3 << 30, 1 << 30),
        inside_ratio(&rows, (20 << 30) + 1, 2 << 30, 1 << 30),
    ])
}

#[test]
fn holds_points_between_the_lines(rt: HostRuntime) {
    let want = [false, true, false, false, true];
    assert_eq!(rt; held_by_wedge(rt.alloc()), Some(want));
}

// The word of a row of three points in the square, 500 apart.
fn three_marks(alloc: Global, y: i16) -> Option<u64> {
    let rows = rows_of(alloc, SQUARE)?;
    let mut bits = [7];
    row_inside(&rows, i32::from(y), 0, 500, 3, &mut bits);
    Some(bits[0])
}

// The words of three rows. The first is shorter than the words that it is given.
fn many_marks(alloc: Global) -> Option<[[u64; 2]; 3]> {
    let rows = rows_of(alloc, SQUARE)?;
    let mut bits = [7, 7];
    row_inside(&rows, 999, -1, 16, 64, &mut bits[..1]);
    let in_one_word = bits;
    row_inside(&rows, 1, -1, 16, 65, &mut bits);
    let in_two_words = bits;
    row_inside(&rows, 500, 1, 7, 128, &mut bits);
    Some([in_one_word, in_two_words, bits])
}

#[test]
fn marks_rows_of_a_square(rt: HostRuntime) {
    // Through the middle; along the upper side, and above it.
    for (y, want) in [(500, 2), (1000, 0), (32_767, 0)] {
        assert_eq!(rt; three_marks(rt.alloc(), y), Some(want), "at {y}");
    }
    let want = [
        [0x7fff_ffff_ffff_fffe, 7],
        [0x7fff_ffff_ffff_fffe, 0],
        [u64::MAX, u64::MAX],
    ];
    assert_eq!(rt; many_marks(rt.alloc()), Some(want));
}

// Whether the row of `count` points from -20 on holds what is inside point by point. None for too long a row, or one off the
// grid.
fn agrees(rows: &Rows, y: i32, count: u32) -> Option<bool> {
    if !(-20..=20).contains(&y) || !(1..=128).contains(&count) {
        return None;
    }
    let mut bits = [u64::MAX; 2];
    let words = (count + 63) / 64;
    row_inside(rows, y, -20, 1, count, &mut bits[..words as usize]);
    for i in 0..64 * words {
        let held = inside(rows, Point::new(i64::from(i) - 20, i64::from(y))?);
        let is_set = bits[i as usize / 64] >> (i % 64) & 1 == 1;
        if is_set != (i < count && held) {
            return Some(false);
        }
    }
    Some(true)
}

// Adds a loop of so many points from -10 to 10. One with equal neighbours isn't taken.
fn add_loop(alloc: Global, drawing: &mut Drawing, state: &mut u64, corners: u32) -> Option<()> {
    let mut points = Vec::new(alloc);
    for _ in 0..corners {
        let x = i64::from(next(state, 10));
        let y = i64::from(next(state, 10));
        points.push(Point::new(x, y)?).ok()?;
    }
    let _ = drawing.push_loop(&points);
    Some(())
}

// The rows of three such loops.
fn random_rows(alloc: Global, state: &mut u64, corners: u32) -> Option<Rows> {
    let mut drawing = Drawing::empty(alloc);
    for _ in 0..3 {
        add_loop(alloc, &mut drawing, state, corners)?;
    }
    Rows::build(alloc, &drawing).ok()
}

// The height and the length of the first row that doesn't agree, where there is one: of each height there are four.
fn first_odd_row(rows: &Rows) -> Option<Option<(i32, u32)>> {
    for y in -11..12 {
        for count in [40, 64, 65, 128] {
            if !agrees(rows, y, count)? {
                return Some(Some((y, count)));
            }
        }
    }
    Some(None)
}

fn first_odd_random_row(
    alloc: Global,
    state: &mut u64,
    corners: u32,
) -> Option<Option<(i32, u32)>> {
    let rows = random_rows(alloc, state, corners)?;
    first_odd_row(&rows)
}

// Loops that cross themselves and each other, with level edges and with corners on the borders of bands.
#[test]
fn marks_what_is_inside(rt: HostRuntime) {
    let mut state = 5;
    for corners in 3..8 {
        assert_eq!(rt;
            first_odd_random_row(rt.alloc(), &mut state, corners),
            Some(None),
            "{corners} corners"
        );
    }
}
