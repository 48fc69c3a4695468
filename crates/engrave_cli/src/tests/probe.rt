// `probe`: worked examples, and the same depths by the plain program of the definition.

use super::{Case, FIRST, SQUARE, expect};
use depth_rule::greatest_depth_by_steps;
use loops_text::read_loops;
use plane_exact::{Bit, MOST_DEPTH, Point};
use std::alloc::Global;

/// The plate with a square hole.
const FRAME: &str = "0,0 1000,0 1000,1000 0,1000\n300,300 700,300 700,700 300,700";

/// A triangle with a slanted edge.
const TRIANGLE: &str = "0,0 100,0 0,100";

/// The whole grid.
const GRID: &str = "-32768,-32768 32767,-32768 32767,32767 -32768,32767";

const CASES: &[Case<'static>] = &[
    (FIRST, (SQUARE, ""), (0, "depth 500\n")),
    (
        "probe --drawing=d --at=500,500 --bit=1/1 --rmax=300",
        (SQUARE, ""),
        (0, "depth 300\n"),
    ),
    (
        "probe --drawing=d --at=500,500 --bit=577/1000 --rmax=600",
        (SQUARE, ""),
        (0, "depth 866\n"),
    ),
    (
        "probe --drawing=d --at=0,0 --bit=1/1 --rmax=600",
        (SQUARE, ""),
        (0, "depth 0\n"),
    ),
    (
        "probe --drawing=d --at=1000,500 --bit=1/1 --rmax=600",
        (SQUARE, ""),
        (0, "depth 0\n"),
    ),
    (
        "probe --drawing=d --at=-5,500 --bit=1/1 --rmax=600",
        (SQUARE, ""),
        (0, "depth 0\n"),
    ),
    (
        "probe --drawing=d --at=29,29 --bit=1/1 --rmax=600",
        (TRIANGLE, ""),
        (0, "depth 29\n"),
    ),
    (
        "probe --drawing=d --at=30,30 --bit=1/1 --rmax=600",
        (TRIANGLE, ""),
        (0, "depth 28\n"),
    ),
    (FIRST, (FRAME, ""), (0, "depth 0\n")),
    (
        "probe --drawing=d --at=150,500 --bit=1/1 --rmax=600",
        (FRAME, ""),
        (0, "depth 150\n"),
    ),
    (
        "probe --drawing=d --at=0,0 --bit=1/1 --rmax=8191",
        (GRID, ""),
        (0, "depth 8191\n"),
    ),
    (
        "probe --drawing=d --at=0,0 --bit=1/2000 --rmax=8191",
        (GRID, ""),
        (0, "depth 32767\n"),
    ),
    (
        FIRST,
        ("0,0 32768,0 0,5", ""),
        (3, "input loops 4 out of range\n"),
    ),
    (FIRST, ("5,5", ""), (3, "input loops 0 short\n")),
    (FIRST, ("0,0 1,0", ""), (3, "input cross 0,1\n")),
    (FIRST, ("", ""), (0, "depth 0\n")),
    (
        "probe --drawing=e --at=5,5 --bit=1/1 --rmax=600",
        ("", ""),
        (4, "absent drawing\n"),
    ),
    ("probe --at=5", ("", ""), (2, "usage\n")),
    ("prob", ("", ""), (2, "usage\n")),
    ("", ("", ""), (2, "usage\n")),
    (
        "probe --rmax=600 --limit=100 --bit=1/1 --at 500,500 --drawing d",
        (SQUARE, ""),
        (0, "depth 100\n"),
    ),
];

#[test]
fn worked_probes_give_their_text_and_status(rt: HostRuntime) {
    expect(&rt, rt.alloc(), "", CASES);
}

/// The depth that the plain program finds, for a bit of this slope and radius.
fn walked(alloc: Global, drawing: &str, at: (i64, i64), bit: (u32, u32, u32)) -> Option<u32> {
    let at = Point::new(at.0, at.1)?;
    let bit = Bit::new(bit.0, bit.1, bit.2)?;
    let bytes = drawing.as_bytes();
    if bytes.len() > 16_777_216 {
        return None;
    }
    let drawing = read_loops(alloc, bytes).ok()?;
    Some(greatest_depth_by_steps(drawing.all_edges(), at, &bit, MOST_DEPTH))
}

/// A drawing, a point, a bit, and the depth there.
const DEPTHS: &[(&str, (i64, i64), (u32, u32, u32), u32)] = &[
    (SQUARE, (500, 500), (1, 1, 600), 500),
    (SQUARE, (500, 500), (1, 1, 300), 300),
    (SQUARE, (500, 500), (577, 1000, 600), 866),
    (SQUARE, (0, 0), (1, 1, 600), 0),
    (SQUARE, (1000, 500), (1, 1, 600), 0),
    (SQUARE, (-5, 500), (1, 1, 600), 0),
    (TRIANGLE, (29, 29), (1, 1, 600), 29),
    (TRIANGLE, (30, 30), (1, 1, 600), 28),
    (FRAME, (500, 500), (1, 1, 600), 0),
    (FRAME, (150, 500), (1, 1, 600), 150),
    (GRID, (0, 0), (1, 1, 8191), 8191),
    (GRID, (0, 0), (1, 2000, 8191), 32767),
];

#[test]
fn the_plain_program_finds_the_same_depths(rt: HostRuntime) {
    for (drawing, at, bit, depth) in DEPTHS {
        let found = walked(rt.alloc(), drawing, *at, *bit);
        assert_eq!(rt; found, Some(*depth), "{at:?} of {drawing}");
    }
}
