// Reports on random drawings and programs, against a plain program of the definition that asks each point by itself.
use super::has_runs;
use crate::random::next;
use crate::scenes::spot;
use coverage_report::uncut;
use depth_rule::Scene;
use loops_text::Drawing;
use plane_exact::{Bit, LineMove, Move, Point, Spot};
use std::alloc::Global;
use swept_move::point_removed;

// How far the drawings reach to each side of the origin, in grid units.
const REACH: i32 = 12;

// A loop of three to five points, two of which may be the same.
fn random_loop(alloc: Global, state: &mut u64) -> Option<Vec<Point>> {
    let mut points = Vec::new(alloc);
    for _ in 0..next(state, 1).wrapping_add(4) {
        let x = i64::from(next(state, REACH));
        let y = i64::from(next(state, REACH));
        points.push(Point::new(x, y)?).ok()?;
    }
    Some(points)
}

// A drawing of up to three loops; a loop with two successive points that are the same is left out.
fn random_scene(alloc: Global, state: &mut u64) -> Option<Scene> {
    let mut drawing = Drawing::empty(alloc);
    for _ in 0..next(state, 1).wrapping_add(2) {
        let points = random_loop(alloc, state)?;
        let _ = drawing.push_loop(&points);
    }
    Scene::new(alloc, drawing).ok()
}

// The next number from -reach to reach, times the scale; None where it is too great.
fn scaled(state: &mut u64, reach: i32, scale: i32) -> Option<i16> {
    i16::try_from(next(state, reach).wrapping_mul(scale)).ok()
}

// A spot in or about the drawing, above or below the surface or at it, often over a grid point and a whole number deep: so discs touch
// rows and points, and moves meet the surface over them.
fn random_spot(state: &mut u64) -> Option<Spot> {
    let (scale, reach) = if next(state, 1) == 0 {
        (1, 150)
    } else {
        (10, 15)
    };
    let x = scaled(state, reach, scale)?;
    let y = scaled(state, reach, scale)?;
    let h = scaled(state, reach / 3, scale)?;
    Some(spot(x, y, h))
}

fn random_moves(alloc: Global, state: &mut u64) -> Option<Vec<LineMove>> {
    let mut moves = Vec::new(alloc);
    let mut from = random_spot(state)?;
    for _ in 0..next(state, 2).wrapping_add(2) {
        let to = random_spot(state)?;
        let mv = Move { from, to };
        moves.push(LineMove { line: 1, mv }).ok()?;
        from = to;
    }
    Some(moves)
}

fn is_left(moves: &[LineMove], bit: &Bit, p: Point) -> bool {
    !moves
        .iter()
        .any(|line_move| point_removed(&line_move.mv, bit, p))
}

// A row, and its first and last column.
type Stretch = (i32, i32, i32);

// Makes the last run longer by the point, if it ends beside it.
fn lengthen(runs: &mut [Stretch], x: i32, y: i32, pitch: i32) -> bool {
    let Some(run) = runs.last_mut() else {
        return false;
    };
    if (run.0, run.2) == (y, x.wrapping_sub(pitch)) {
        run.2 = x;
        true
    } else {
        false
    }
}

// One point more that is left: it makes the last run longer, or begins one.
fn push_point(runs: &mut Vec<Stretch>, x: i32, y: i32, pitch: i32) -> Option<()> {
    if lengthen(runs, x, y, pitch) {
        Some(())
    } else {
        runs.push((y, x, x)).ok()
    }
}

// The report of the definition, point by point: its runs, how many points are inside, and how many are left.
fn point_by_point(
    scene: &Scene,
    bit: &Bit,
    moves: &[LineMove],
    pitch: i32,
    runs: &mut Vec<Stretch>,
) -> Option<(u64, u64)> {
    let (mut inside, mut left) = (0u64, 0u64);
    for y in -REACH..REACH.wrapping_add(1) {
        for x in -REACH..REACH.wrapping_add(1) {
            let p = Point::new(i64::from(x), i64::from(y))?;
            let is_point = x.wrapping_rem(pitch.max(1)) == 0 && y.wrapping_rem(pitch.max(1)) == 0;
            if is_point && scene.is_inside(p) {
                inside = inside.wrapping_add(1);
                if is_left(moves, bit, p) {
                    left = left.wrapping_add(1);
                    push_point(runs, x, y, pitch)?;
                }
            }
        }
    }
    Some((inside, left))
}

// Whether the next report, at this pitch, which is from 1 on, is that of its points.
fn next_is_right(alloc: Global, state: &mut u64, pitch: u8) -> Option<bool> {
    let scene = random_scene(alloc, state)?;
    let moves = random_moves(alloc, state)?;
    let slope = next(state, 2).wrapping_add(3).max(1) as u32;
    let bit = Bit::new(slope, 2, 9)?;
    let report = uncut(alloc, &scene, &bit, &moves, u32::from(pitch.max(1))).ok()?;
    let mut runs = Vec::new(alloc);
    let counts = point_by_point(&scene, &bit, &moves, i32::from(pitch), &mut runs)?;
    Some(has_runs(&report, &runs) && (report.drawing, report.left) == counts)
}

#[test]
fn five_hundred_reports_are_those_of_their_points_one_by_one(rt: HostRuntime) {
    let mut state = 1;
    for number in 0..500u32 {
        let pitch = [1, 1, 1, 2, 3, 5, 12, 20][(number % 8) as usize];
        assert_eq!(rt;
            next_is_right(rt.alloc(), &mut state, pitch),
            Some(true),
            "case {number}"
        );
    }
}
