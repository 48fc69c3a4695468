// Pockets of random drawings, against a plain walk over every grid point.
use crate::small::text_of;
use cleanup_pocket::{Way, pocket};
use depth_rule::{Scene, deepest, greatest_depth, is_clear};
use loops_text::Drawing;
use plane_exact::{Bit, Move, Node, Point};
use std::alloc::{AllocError, Global};
use std::test::Fail;

// How far the drawings reach to each side of the origin, in grid units.
const REACH: i32 = 12;

// The next number from -reach to reach.
fn next(state: &mut u64, reach: i32) -> i32 {
    *state = state
        .wrapping_mul(6_364_136_223_846_793_005)
        .wrapping_add(1_442_695_040_888_963_407);
    let count = reach.wrapping_mul(2).wrapping_add(1).max(1) as u64;
    (((*state >> 33) % count) as i32).wrapping_sub(reach)
}

// Up to four random points.
fn random_loop(alloc: Global, state: &mut u64) -> Option<Vec<Point>> {
    let mut points = Vec::new(alloc);
    for _ in 0..(next(state, 1).max(0)).wrapping_add(3) {
        let x = i64::from(next(state, REACH));
        let y = i64::from(next(state, REACH));
        points.push(Point::new(x, y)?).ok()?;
    }
    Some(points)
}

// A drawing of up to three loops of three or four points; a loop with two successive points that are the same is left out.
fn random_scene(alloc: Global, state: &mut u64) -> Option<Scene> {
    let mut drawing = Drawing::empty(alloc);
    for _ in 0..next(state, 1).wrapping_add(2) {
        let points = random_loop(alloc, state)?;
        let _ = drawing.push_loop(&points);
    }
    Scene::new(alloc, drawing).ok()
}

fn push_node(text: &mut String, node: Node) -> Result<(), AllocError> {
    let (x, y, depth) = (node.at.x(), node.at.y(), node.depth);
    write!(text, "{x} {y} {depth}, ")
}

// The text of the chain along a run.
fn push_run(text: &mut String, first: Node, last: Node) -> Result<(), AllocError> {
    push_node(text, first)?;
    if first != last {
        push_node(text, last)?;
    }
    text.push_str("up; ")
}

// Whether the second node is the one behind the first on a line, and the bit may go on to it.
fn is_joined(scene: &Scene, bit: &Bit, p: Node, q: Node) -> bool {
    let across = q.at.x().wrapping_sub(p.at.x());
    let up = q.at.y().wrapping_sub(p.at.y());
    across.wrapping_add(up) == 1 && is_clear(scene, bit, &Move::between(p, q))
}

// Adds a good point to the runs of a line: it makes the last one longer, or begins one.
fn push_point(
    runs: &mut Vec<(Node, Node)>,
    scene: &Scene,
    bit: &Bit,
    node: Node,
) -> Result<(), AllocError> {
    match runs.last_mut() {
        Some(run) if is_joined(scene, bit, run.1, node) => run.1 = node,
        _ => runs.push((node, node))?,
    }
    Ok(())
}

// The runs of one line, point by point.
fn runs_of(
    alloc: Global,
    scene: &Scene,
    bit: &Bit,
    at: i32,
    is_row: bool,
) -> Option<Vec<(Node, Node)>> {
    let depth = deepest(bit, 2);
    let mut runs = Vec::new(alloc);
    for place in -REACH..REACH.wrapping_add(1) {
        let (x, y) = if is_row { (place, at) } else { (at, place) };
        let p = Point::new(i64::from(x), i64::from(y))?;
        if greatest_depth(scene, p, bit, 2) == depth {
            push_point(&mut runs, scene, bit, Node { at: p, depth }).ok()?;
        }
    }
    Some(runs)
}

// Adds the chains of all rows, or of all columns.
fn push_lines(
    alloc: Global,
    text: &mut String,
    scene: &Scene,
    bit: &Bit,
    are_rows: bool,
) -> Option<()> {
    for at in -REACH..REACH.wrapping_add(1) {
        for (first, last) in &runs_of(alloc, scene, bit, at, are_rows)? {
            push_run(text, *first, *last).ok()?;
        }
    }
    Some(())
}

// The text of the pocket, point by point.
fn walked(alloc: Global, scene: &Scene, bit: &Bit) -> Option<String> {
    let mut text = String::new(alloc);
    push_lines(alloc, &mut text, scene, bit, true)?;
    push_lines(alloc, &mut text, scene, bit, false)?;
    Some(text)
}

fn pocket_text(alloc: Global, scene: &Scene, bit: &Bit) -> Option<String> {
    let chains = pocket(alloc, scene, bit, 2, 1, Way::Both).ok()?;
    text_of(alloc, &chains).ok()
}

// One of four bits in turn.
fn bit_of(number: u32) -> Option<Bit> {
    let (sn, sd) = [(1, 1), (1, 2), (1, 10), (3, 2)][(number % 4) as usize];
    Bit::new(sn, sd, 3)
}

#[test]
fn two_hundred_pockets_are_those_of_their_points_one_by_one(rt: HostRuntime) -> Result<(), Fail> {
    let mut state = 1;
    for number in 0..200u32 {
        let scene = random_scene(rt.alloc(), &mut state).ok_or("a scene")?;
        let bit = bit_of(number).ok_or("a bit")?;
        let got = pocket_text(rt.alloc(), &scene, &bit).ok_or("a pocket")?;
        let want = walked(rt.alloc(), &scene, &bit).ok_or("a walk")?;
        assert_eq!(rt; got.as_str(), want.as_str(), "the chains of case {number}");
    }
    Ok(())
}
