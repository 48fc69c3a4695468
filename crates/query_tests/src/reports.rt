// Reports on squares: with no move, with a move and with plunges, at several pitches.
mod random;

use crate::scenes::{scene_of, spot};
use coverage_report::{CoverFault, count_cut, uncut};
use depth_rule::Bounds;
use plane_exact::{Bit, LineMove, Move, Point, Spot, Uncut};
use std::alloc::Global;
use swept_move::row_cut;

// A square with a side of 4.
const SQUARE: &[u8] = b"0,0 4,0 4,4 0,4\n";

// A bit whose radius is its depth.
fn cone() -> Option<Bit> {
    Bit::new(1, 1, 2)
}

// One grid unit down from the surface over (x, y), in grid units: this removes the point under the tip, and no other grid point.
fn plunge(x: i16, y: i16) -> LineMove {
    let (x, y) = (10 * i32::from(x), 10 * i32::from(y));
    LineMove {
        line: 1,
        mv: Move {
            from: Spot { x, y, h: 0 },
            to: Spot { x, y, h: -10 },
        },
    }
}

// Whether the runs of the report have these rows, first and last columns.
fn has_runs(report: &Uncut, wanted: &[(i32, i32, i32)]) -> bool {
    report.runs.len() == wanted.len()
        && report
            .runs
            .iter()
            .zip(wanted)
            .all(|(run, want)| (run.y, run.x0, run.x1) == *want)
}

// The report of the cone's moves in the drawing of a text. The pitch is from 1 on.
fn report_of(alloc: Global, loops: &[u8], moves: &[LineMove], pitch: u8) -> Option<Uncut> {
    let bit = cone()?;
    let scene = scene_of(alloc, loops)?;
    uncut(alloc, &scene, &bit, moves, u32::from(pitch.max(1))).ok()
}

// How many points such a report has left, and how many the drawing has, where its runs are the wanted ones.
fn counts_of(
    alloc: Global,
    loops: &[u8],
    moves: &[LineMove],
    pitch: u8,
    wanted: &[(i32, i32, i32)],
) -> Option<(u64, u64)> {
    let report = report_of(alloc, loops, moves, pitch)?;
    if has_runs(&report, wanted) {
        Some((report.left, report.drawing))
    } else {
        None
    }
}

#[test]
fn all_points_are_left_where_no_move_is(rt: HostRuntime) {
    let wanted = [(1, 1, 3), (2, 1, 3), (3, 1, 3)];
    let counts = counts_of(rt.alloc(), SQUARE, &[], 1, &wanted);
    assert_eq!(rt; counts, Some((9, 9)));
}

#[test]
fn a_move_removes_the_points_that_its_deep_part_passes(rt: HostRuntime) {
    // Below the surface it is from x = 2 on, where the disc grows to the left no further than that.
    let down = LineMove {
        line: 1,
        mv: Move {
            from: spot(0, 20, 20),
            to: spot(40, 20, -20),
        },
    };
    let wanted = [(1, 1, 2), (2, 1, 2), (3, 1, 2)];
    let counts = counts_of(rt.alloc(), SQUARE, &[down], 1, &wanted);
    assert_eq!(rt; counts, Some((6, 9)));
}

#[test]
fn points_on_the_outline_are_not_inside(rt: HostRuntime) {
    let counts = counts_of(rt.alloc(), SQUARE, &[], 4, &[]);
    assert_eq!(rt; counts, Some((0, 0)));
}

#[test]
fn a_drawing_of_nothing_has_no_point(rt: HostRuntime) {
    let counts = counts_of(rt.alloc(), b"", &[], 1, &[]);
    assert_eq!(rt; counts, Some((0, 0)));
}

#[test]
fn a_box_between_two_multiples_has_no_point(rt: HostRuntime) {
    let counts = counts_of(rt.alloc(), b"1,1 9,1 9,9 1,9\n", &[], 10, &[]);
    assert_eq!(rt; counts, Some((0, 0)));
}

// How many points a report on the whole grid has left, and how many the grid has. The pitch is from 1 on.
fn counts_of_grid(alloc: Global, pitch: u8) -> Option<Result<(u64, u64), CoverFault>> {
    let bit = Bit::new(1, 1, 1)?;
    let grid = scene_of(
        alloc,
        b"-32768,-32768 32767,-32768 32767,32767 -32768,32767\n",
    )?;
    match uncut(alloc, &grid, &bit, &[], u32::from(pitch.max(1))) {
        Ok(report) => Some(Ok((report.left, report.drawing))),
        Err(fault) => Some(Err(fault)),
    }
}

// 16 grid units apart they are 4095 by 4095 points, which is just taken, and 15 apart 4369 by 4369.
#[test]
fn a_report_on_the_whole_grid_may_have_so_many_points(rt: HostRuntime) {
    for (pitch, want) in [
        (16, Ok((16_769_025, 16_769_025))),
        (15, Err(CoverFault::TooManyPoints)),
        (1, Err(CoverFault::TooManyPoints)),
    ] {
        assert_eq!(rt;
            counts_of_grid(rt.alloc(), pitch),
            Some(want),
            "{pitch} apart"
        );
    }
}

#[test]
fn points_are_multiples_of_the_pitch(rt: HostRuntime) {
    let counts = counts_of(
        rt.alloc(),
        b"-15,-15 15,-15 15,15 -15,15\n",
        &[plunge(0, 0)],
        10,
        &[(-10, -10, 10), (0, -10, -10), (0, 10, 10), (10, -10, 10)],
    );
    assert_eq!(rt; counts, Some((8, 9)));
}

// How many points of a box three plunges cut, and how many it has.
fn counts_of_box(alloc: Global) -> Option<(u64, u64)> {
    let bounds = Bounds {
        low: Point::new(-15, 0)?,
        high: Point::new(15, 29)?,
    };
    let moves = [plunge(0, 0), plunge(10, 20), plunge(20, 0)];
    let bit = cone()?;
    let count = count_cut(alloc, bounds, &bit, &moves, 10).ok()?;
    Some((count.cut, count.points))
}

#[test]
fn the_points_of_a_box_are_counted(rt: HostRuntime) {
    assert_eq!(rt; counts_of_box(rt.alloc()), Some((2, 9)));
}

#[test]
fn a_row_may_have_more_points_than_a_word_has_bits(rt: HostRuntime) {
    // The rows 1 and 2 of 70 points, at the columns 1 to 70.
    let counts = counts_of(
        rt.alloc(),
        b"0,0 71,0 71,3 0,3\n",
        &[plunge(64, 1), plunge(70, 2), plunge(64, 1)],
        1,
        &[(1, 1, 63), (1, 65, 70), (2, 1, 69)],
    );
    assert_eq!(rt; counts, Some((138, 140)));
}

// What a level move two deep cuts of the row at the height y from -10 to 20.
fn level_cut(y: i16) -> Option<Option<(i32, i32)>> {
    let bit = cone()?;
    let mv = Move {
        from: spot(0, 0, -20),
        to: spot(100, 0, -20),
    };
    Some(row_cut(&mv, &bit, i32::from(y), -10, 20))
}

#[test]
fn a_level_cut_removes_an_interval_of_a_row_and_nothing_of_a_row_on_its_rim(rt: HostRuntime) {
    assert_eq!(rt; level_cut(1), Some(Some((-1, 11))));
    assert_eq!(rt; level_cut(2), Some(None));
}
