// The report on the floor of a square that a flat bit mills along lines. The counts were made by hand.
ghost use Rattle.std.specs.Prelude.{◌≡◌, ◌≤◌, All, IfSome};
ghost use Rattle.plane_exact.specs.Cone.{IsFromOneTo};
ghost use Rattle.plane_exact.specs.declared.bit.TheConstants.{MOST_RADIUS};
ghost use Rattle.plane_exact.specs.declared.moves.TheConstants.{MOST_DEPTH};
ghost use Rattle.coverage_report.specs.declared.cover.TheConstants.{MOST_PITCH};
ghost use Rattle.flat_bit.specs.Left.{AreLevel};

use crate::small::scene_of;
use coverage_report::MOST_PITCH;
use depth_rule::deepest;
use flat_bit::{FloorFault, floor_left};
use plane_exact::{Bit, Chain, MOST_DEPTH, MOST_RADIUS, Node, Point, Uncut};
use std::alloc::Global;
use std::test::Fail;

// The two ends of a chain.
type Ends = ((i64, i64), (i64, i64));

const SQUARE: &str = "0,0 1000,0 1000,1000 0,1000";

const GRID: &str = "-32768,-32768 32767,-32768 32767,32767 -32768,32767";

const LINES: &[Ends] = &[((150, 300), (850, 300)), ((150, 600), (850, 600))];

const STAYS: &[Ends] = &[((500, 500), (500, 500))];

// The chain of two nodes at the depth.
fn line(alloc: Global, ends: &Ends, depth: u32) -> Option<Chain>
    requires { depth ≤ MOST_DEPTH }
    ensures { IfSome result (λ chain. All (λ node. node.depth ≡ depth) chain) }
{
    let from = Point::new(ends.0.0, ends.0.1)?;
    let to = Point::new(ends.1.0, ends.1.1)?;
    let mut chain = Chain::one(alloc, Node { at: from, depth }).ok()?;
    chain.push(Node { at: to, depth }).ok()?;
    Some(chain)
}

// The chains of two nodes at the depth.
fn lines(alloc: Global, ends: &[Ends], depth: u32) -> Option<Vec<Chain>>
    requires { depth ≤ MOST_DEPTH }
    ensures { IfSome result (λ chains. AreLevel depth chains.items) }
{
    let mut chains = Vec::new(alloc);
    for two in ends {
        chains.push(line(alloc, two, depth)?).ok()?;
    }
    Some(chains)
}

// The report on the floor of a drawing below a conical bit of the slope sn / 1 and a limit of 100, or why there is none.
fn left_of(
    alloc: Global,
    loops: &str,
    sn: u32,
    ends: &[Ends],
    radius: u32,
    pitch: u32,
) -> Option<Result<Uncut, FloorFault>>
    requires radius { IsFromOneTo MOST_RADIUS radius }
    requires pitch { IsFromOneTo MOST_PITCH pitch }
{
    let scene = scene_of(alloc, loops)?;
    let bit = Bit::new(sn, 1, 600)?;
    let chains = lines(alloc, ends, deepest(&bit, 100))?;
    Some(floor_left(alloc, &scene, &bit, 100, radius, &chains, pitch))
}

// The report at a pitch of 100 on the square.
fn report_on(alloc: Global, sn: u32, ends: &[Ends], radius: u32) -> Option<Uncut>
    requires { IsFromOneTo MOST_RADIUS radius }
{
    left_of(alloc, SQUARE, sn, ends, radius, 100)?.ok()
}

// Its points over the floor, how many of them are left, and in how many runs.
fn counts(alloc: Global, sn: u32, ends: &[Ends], radius: u32) -> Option<(u64, u64, usize)>
    requires { IsFromOneTo MOST_RADIUS radius }
{
    let report = report_on(alloc, sn, ends, radius)?;
    Some((report.drawing, report.left, report.runs.len()))
}

// The rows of runs, and their first and last columns.
const RUNS: &[(i32, i32, i32)] = &[
    (100, 100, 900),
    (200, 100, 900),
    (300, 100, 100),
    (300, 900, 900),
    (400, 100, 900),
    (500, 100, 900),
    (600, 100, 100),
    (600, 900, 900),
    (700, 100, 900),
    (800, 100, 900),
    (900, 100, 900),
];

#[test]
fn what_lies_between_lines_is_left(rt: HostRuntime) -> Result<(), Fail> {
    let report = report_on(rt.alloc(), 1, LINES, 50).ok_or("a report")?;
    assert_eq!(rt; report.runs.len(), RUNS.len());
    for (run, want) in report.runs.iter().zip(RUNS) {
        assert_eq!(rt; (run.y, run.x0, run.x1), *want);
    }
    Ok(())
}

#[test]
fn points_are_left_between_lines_and_off_the_rim_of_the_disc(rt: HostRuntime) {
    assert_eq!(rt; counts(rt.alloc(), 1, LINES, 50), Some((81, 67, 11)));
    assert_eq!(rt; counts(rt.alloc(), 1, LINES, 51), Some((81, 63, 7)));
    assert_eq!(rt; counts(rt.alloc(), 1, &[], 50), Some((81, 81, 9)));
}

#[test]
fn a_chain_that_stays_mills_its_disc(rt: HostRuntime) {
    assert_eq!(rt; counts(rt.alloc(), 1, STAYS, 100), Some((81, 80, 10)));
    assert_eq!(rt; counts(rt.alloc(), 1, STAYS, 101), Some((81, 76, 12)));
}

#[test]
fn a_bit_that_must_stay_at_the_surface_leaves_no_floor(rt: HostRuntime) {
    assert_eq!(rt; counts(rt.alloc(), 601, &[], 50), Some((0, 0, 0)));
    let grid = left_of(rt.alloc(), GRID, 601, &[], 50, 1);
    assert!(rt; matches!(grid, Some(Err(FloorFault::TooManyPoints))));
}
